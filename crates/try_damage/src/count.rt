// What came of a try, and how often each came.

// Form and Short: refused with 1 or 12, everything as it was. Done: read, and written back as the
// same bytes. Wrong: anything else.
// No `Result`: all four are counted alike, and none carries a value.
#[derive(Clone, Copy)]
pub(crate) enum Outcome {
    Form,
    Short,
    Done,
    Wrong,
}

impl Outcome {
    pub(crate) fn done_if(good: bool) -> Outcome {
        if good { Outcome::Done } else { Outcome::Wrong }
    }

    // A refusal where there is no ground for one.
    pub(crate) fn or_wrong(self) -> Outcome {
        match self {
            Outcome::Done => Outcome::Done,
            Outcome::Form | Outcome::Short | Outcome::Wrong => Outcome::Wrong,
        }
    }
}

#[derive(Clone, Copy, Default)]
pub(crate) struct Count {
    pub(crate) tried: u64,
    pub(crate) form: u64,
    pub(crate) short: u64,
    pub(crate) done: u64,
    pub(crate) wrong: u64,
}

impl Count {
    pub(crate) fn add(&mut self, o: Outcome) {
        self.tried = self.tried.wrapping_add(1);
        match o {
            Outcome::Form => self.form = self.form.wrapping_add(1),
            Outcome::Short => self.short = self.short.wrapping_add(1),
            Outcome::Done => self.done = self.done.wrapping_add(1),
            Outcome::Wrong => self.wrong = self.wrong.wrapping_add(1),
        }
    }

    // The tries at 0, 1, 2 and so on below `end`.
    pub(crate) fn of_each<F: FnMut(usize) -> Outcome>(end: usize, mut attempt: F) -> Count
        requires { F.IsAlwaysCallable attempt }
    {
        let mut count = Count::default();
        for at in 0..end {
            count.add(attempt(at));
        }
        count
    }
}

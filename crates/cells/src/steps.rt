// One thing after another: from place to place, as long as there is a next.
ghost use Rattle.std.specs.Prelude.{Some};
ghost use Rattle.cells.specs.Steps.{Steps};

// n steps, the first from `at`: the place behind the last, or none where one of them finds none.
pub fn walk<F: Fn(usize) -> Option<usize>>(at: usize, n: usize, step: F) -> Option<usize>
    requires first { F.pre step at }
    requires onward { (p : _) (q : _) → F.post step p (Some q) → F.pre step q }
    ensures { Steps (F.post step) at n result }
{
    let mut p = at;
    for _i in 0..n {
        p = step(p)?;
    }
    Some(p)
}

// How far a reading of the trace has come. Not that of `by_lines`: the trace is read twice, in
// pieces of whole lines, and no line is answered by itself.
use renamed::judge::Judged;
use streams::Status;

// The reading goes on; or the input has ended; or the trace is refused; or it failed.
#[derive(Clone, Copy, PartialEq, Eq)]
pub enum Stage {
    On,
    Ended,
    Refused,
    Failed,
}

// held: the bytes of a line that has begun. judged: what was seen of the trace. shown: the bytes of
// the first line that has no name.
#[derive(Clone, Copy)]
pub struct Run {
    pub stage: Stage,
    pub held: usize,
    pub judged: Judged,
    pub shown: usize,
}

impl Run {
    pub(crate) fn start() -> Run {
        Run {
            stage: Stage::On,
            held: 0,
            judged: Judged {
                lines: 0,
                unreadable: None,
                unnamed: None,
            },
            shown: 0,
        }
    }

    pub(crate) fn goes_on(self) -> bool {
        self.stage == Stage::On
    }

    // What the program reports.
    pub(crate) fn status(self) -> Status {
        match self.stage {
            Stage::Ended => Status::Done,
            Stage::Refused => Status::Refused,
            Stage::On | Stage::Failed => Status::Failed,
        }
    }

    pub(crate) fn with_stage(self, stage: Stage) -> Run {
        Run { stage, ..self }
    }

    pub(crate) fn with_held(self, held: usize) -> Run {
        Run { held, ..self }
    }

    // So many more lines were written.
    pub(crate) fn with_lines(self, n: u64) -> Run {
        let judged = Judged {
            lines: self.judged.lines.wrapping_add(n),
            ..self.judged
        };
        Run { judged, ..self }
    }

    pub(crate) fn with_judged(self, judged: Judged, shown: usize) -> Run {
        Run {
            judged,
            shown,
            ..self
        }
    }
}

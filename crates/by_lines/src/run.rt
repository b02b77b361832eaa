// How far the lines of the input have come.
ghost use Rattle.std.specs.Prelude.{◌≡◌, ◌+◌, ◌%◌, ◌^◌, ◌||◌, true, false, drop, take};
ghost use Rattle.by_lines.specs.Run.{is_larger, is_on, status_of};

use streams::Status;

// The reading goes on; or has to in larger buffers; or the input has ended; or it failed.
#[derive(Clone, Copy, PartialEq, Eq)]
pub enum Stage {
    On,
    Larger,
    Ended,
    Failed,
}

// held: the bytes of a line that has begun. lines: how many were answered. refused: one of them
// was. rest, end: the part of the piece where larger buffers have to go on.
#[derive(Clone, Copy)]
pub struct Run {
    pub stage: Stage,
    pub held: usize,
    pub lines: u64,
    pub refused: bool,
    pub rest: usize,
    pub end: usize,
}

impl Run {
    pub fn start() -> Run
        ensures on { is_on result.stage ≡ true }
        ensures none { (result.held ≡ 0) × (result.lines ≡ 0) }
        ensures told { result.refused ≡ false }
    {
        Run {
            stage: Stage::On,
            held: 0,
            lines: 0,
            refused: false,
            rest: 0,
            end: 0,
        }
    }

    pub fn goes_on(self) -> bool
        ensures { result ≡ is_on self.stage }
    {
        self.stage == Stage::On
    }

    pub fn is_too_large(self) -> bool
        ensures { result ≡ is_larger self.stage }
    {
        self.stage == Stage::Larger
    }

    // What is held of the line that has begun.
    pub fn front_of(self, line: &[u8]) -> &[u8]
        ensures { result.now ≡ take self.held line.now }
    {
        &line[..self.held.min(line.len())]
    }

    // Where larger buffers go on in the piece.
    pub fn rest_of(self, piece: &[u8]) -> &[u8]
        ensures { result.now ≡ drop self.rest (take self.end piece.now) }
    {
        let piece = &piece[..self.end.min(piece.len())];
        &piece[self.rest.min(piece.len())..]
    }

    // What the program reports.
    pub fn status(self) -> Status
        ensures { result ≡ status_of self.stage self.refused }
    {
        if self.stage != Stage::Ended {
            return Status::Failed;
        }
        if self.refused {
            Status::Refused
        } else {
            Status::Done
        }
    }

    pub fn with_stage(self, stage: Stage) -> Run
        ensures stage { result.stage ≡ stage }
        ensures held { (result.held ≡ self.held) × (result.lines ≡ self.lines) }
        ensures told { result.refused ≡ self.refused }
    {
        Run { stage, ..self }
    }

    // So many bytes of a line are held.
    pub fn begun(self, held: usize) -> Run
        ensures on { is_on result.stage ≡ true }
        ensures held { (result.held ≡ held) × (result.lines ≡ self.lines) }
        ensures told { result.refused ≡ self.refused }
    {
        Run {
            stage: Stage::On,
            held,
            ..self
        }
    }

    // The number of the line that is held.
    pub fn number(self) -> u64
        ensures { result ≡ (self.lines + 1) % 2 ^ 64 }
    {
        self.lines.wrapping_add(1)
    }

    // That line was answered.
    pub fn with_line(self, refused: bool) -> Run
        ensures on { is_on result.stage ≡ true }
        ensures none_held { result.held ≡ 0 }
        ensures counted { result.lines ≡ (self.lines + 1) % 2 ^ 64 }
        ensures told { result.refused ≡ (self.refused || refused) }
    {
        Run {
            stage: Stage::On,
            held: 0,
            lines: self.number(),
            refused: self.refused | refused,
            ..self
        }
    }
}

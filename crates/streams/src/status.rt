// How a program went, as it reports it.
ghost use Rattle.std.specs.Prelude.{◌≡◌};
ghost use Rattle.streams.specs.Status.{digit_of};

// All was read and nothing refused; or something was refused; or input or output failed.
#[derive(Clone, Copy, PartialEq, Eq)]
pub enum Status {
    Done,
    Refused,
    Failed,
}

impl From<Status> for u8 {
    ghost from_gives = { λ s n. n ≡ digit_of s };

    fn from(status: Status) -> u8 {
        match status {
            Status::Done => 0,
            Status::Refused => 1,
            Status::Failed => 3,
        }
    }
}

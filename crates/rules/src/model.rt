// The types of the paper: a box, a mail, what a box knows of its site, a call, and what they
// answer.

#[derive(Clone, Copy, PartialEq, Eq)]
pub enum State {
    Recovering = 0,
    Active = 1,
    Updating = 2,
    UpdatingPrevious = 3,
    Refresh = 4,
}

#[derive(Clone, Copy, PartialEq, Eq)]
pub enum Phase {
    Election = 0,
    SendCollect = 1,
    Collect = 2,
    Lease = 3,
    Begin = 4,
    Commit = 5,
    LeaseDone = 6,
}

#[derive(Clone, Copy, PartialEq, Eq)]
pub enum Kind {
    Collect = 1,
    Last = 2,
    Begin = 3,
    Accept = 4,
    Commit = 5,
    Lease = 6,
    LeaseAck = 7,
}

// Why a mail is discarded.
#[derive(Clone, Copy, PartialEq, Eq)]
pub enum Cause {
    Role = 1,
    Phase = 2,
    Number = 3,
    Place = 4,
}

// Why a call is refused, in the order of the paper's table: 13, 1, 2, 10, 3, 4, 5, 6, 7, 8, 12, 14,
// 11. (9 went with Q-10.)
#[derive(Clone, Copy, PartialEq, Eq)]
pub enum Refusal {
    Sizes = 13,
    Form = 1,
    Box = 2,
    Frame = 10,
    Condition = 3,
    Majority = 4,
    Epoch = 5,
    NewPn = 6,
    Book = 7,
    Link = 8,
    Buffer = 12,
    Untrue = 14,
    Line = 11,
}

// Four kinds and no Result: two are accepted, each with a number of its own, and two have their
// causes.
#[derive(Clone, Copy, PartialEq, Eq)]
pub enum Answer {
    Done,
    Taken,
    Discarded(Cause),
    Refused(Refusal),
}

// What a box finds before anything is done: it goes on, or it stops for the first cause that
// applies.
#[derive(Clone, Copy, PartialEq, Eq)]
pub enum Verdict {
    Go,
    Discard(Cause),
    Refuse(Refusal),
}

// The pn and the number of the record last taken by Begin.
#[derive(Clone, Copy, PartialEq, Eq)]
pub struct Stored {
    pub pn: u32,
    pub number: u32,
}

// What outlives a stop, but for the records: promised pn, last agreed number, first kept number,
// stored pn and number.
#[derive(Clone, Copy, PartialEq, Eq)]
pub struct Kept {
    pub pn: u32,
    pub last: u32,
    pub first: u32,
    pub stored: Stored,
}

// The best unagreed pn, number and record.
#[derive(Clone, Copy, PartialEq, Eq)]
pub struct Best {
    pub pn: u32,
    pub number: u32,
    pub value: u64,
}

// A box, but for its records. A peer's last stands at its number less 1.
#[derive(Clone, Copy, PartialEq, Eq)]
pub struct BoxState {
    pub leads: bool,
    pub state: State,
    pub phase: Phase,
    pub kept: Kept,
    pub best: Best,
    pub answered: u32,
    pub accepts: u32,
    pub heard: u32,
    pub waiting: u64,
    pub agreeing: u64,
    pub peers: [u32; 5],
}

// A mail, but for its records; `first` is 0 in the kinds that carry none.
#[derive(Clone, Copy, PartialEq, Eq)]
pub struct Mail {
    pub kind: Kind,
    pub pn: u32,
    pub last: u32,
    pub first: u32,
    pub unagreed: u32,
}

// What a box knows of its site: the sizes, the epoch, the present set and its own number.
#[derive(Clone, Copy, PartialEq, Eq)]
pub struct Setting {
    pub n: u32,
    pub j: u32,
    pub l: u32,
    pub epoch: u32,
    pub present: u32,
    pub me: u32,
}

// A step that a box takes by itself: those of a leader, and Trim.
#[derive(Clone, Copy, PartialEq, Eq)]
pub enum Act {
    Recover,
    Collect,
    Ready,
    Offer(u32, u32),
    Propose,
    Agree,
    Finish,
    Heard,
    Trim(u32),
}

// What becomes of a box's records. Drop(d): the first d leave. Put(d, a, r): of the first a all but
// d stay, then r. Take(d, a, b, e): of the first a all but d stay, then the mail's but b of its
// first e.
#[derive(Clone, Copy, PartialEq, Eq)]
pub enum Book {
    Keep,
    Drop(u32),
    Put(u32, u32, u64),
    Take(u32, u32, u32, u32),
}

// What is sent: nothing, or one mail to each box of a set, which may be empty.
// No Option of a pair: `To(set, mail)` says which is which, in fewer words than a struct.
#[derive(Clone, Copy, PartialEq, Eq)]
pub enum Out {
    Nothing,
    To(u32, Mail),
}

// What comes of an event at a box.
#[derive(Clone, Copy, PartialEq, Eq)]
pub struct Turn {
    pub answer: Answer,
    pub next: BoxState,
    pub book: Book,
    pub out: Out,
}

// The sixteen calls, with box numbers, frame numbers and load numbers.
#[derive(Clone, Copy, PartialEq, Eq)]
pub enum Call {
    Elect(u32),
    Recover(u32),
    Collect(u32),
    Ready(u32),
    Offer(u32, u32, u32),
    Propose(u32),
    Agree(u32),
    Finish(u32),
    Heard(u32),
    Trim(u32, u32),
    Stop(u32),
    Return(u32),
    Timeout(u32),
    Lose(u32, u32),
    Repeat(u32, u32),
    Deliver(u32, u32),
}

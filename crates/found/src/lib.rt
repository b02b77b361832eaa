// What a body of a damaged image is (Q-8): kept, or set aside at the first field that made it so.
#![tactic(auto)]

pub use boxes::box_found;
pub use general::{general_found, loads_of, mails_of};
pub use mail::mail_found;
pub use stands::{number_at, word_at};
use values::Field;

mod boxes;
mod general;
mod mail;
mod records;
mod stands;

// The field that set a body aside: of the general body; a box's field, or the record of a load
// number; the count of the link from one box to another, a field of one of its mails, or a record
// of it; or bytes that are left over.
#[derive(Clone, Copy)]
pub enum Spot {
    N,
    J,
    L,
    Epoch,
    Present,
    At(Field),
    Record(u64),
    Link(u64, u64),
    Mail(u64, u64, u64, Field),
    MailRecord(u64, u64, u64, u64),
    Rest,
}

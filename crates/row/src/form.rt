// By form of a box: its words field by field in the image's order, then its records.
ghost use Rattle.std.specs.Prelude.{◌≡◌, ◌≤◌, length};
ghost use Rattle.rules.specs.Sizes.{most_boxes};
ghost use Rattle.rules.specs.Form.{peer_form};
ghost use Rattle.values.specs.Faults.{fault_then};
ghost use Rattle.row.specs.Row.{head_of, row_form, head_words};
ghost use Rattle.row.specs.Lent.{RowSized};
ghost use Rattle.row.specs.Faults.{number_tests, value_tests, peer_tests, head_fault};

use crate::{
    ACCEPTS, AGREEING, ANSWERED, BEFORE_PEERS, BEST, BEST_NUMBER, BEST_PN, COUNT, FIRST, FLAG,
    HEARD, LAST, PHASE, PN, STATE, STORED_NUMBER, STORED_PN, UNKNOWN, WAITING, indexed, records,
};
use values::{Field, MOST_NUMBER, MOST_PN, unless};

// Numbers, and what is said of the fields behind them.
fn number_fault(w: &[u64], rest: Option<Field>) -> Option<Field>
    requires { head_words ≤ length w.now }
    ensures { result ≡ fault_then (number_tests w.now) rest }
{
    let first = values::is_first(w[FIRST], w[LAST]);
    let f = unless(w[BEST_NUMBER] <= MOST_NUMBER, Field::BestNumber, rest);
    let f = unless(w[BEST_PN] <= MOST_PN, Field::BestPn, f);
    let f = unless(w[STORED_NUMBER] <= MOST_NUMBER, Field::StoredNumber, f);
    let f = unless(w[STORED_PN] <= MOST_PN, Field::StoredPn, f);
    let f = unless(first, Field::First, f);
    let f = unless(w[LAST] <= MOST_NUMBER, Field::Last, f);
    let f = unless(w[PN] <= MOST_PN, Field::Pn, f);
    let f = unless(w[PHASE] <= 6, Field::Phase, f);
    let f = unless(w[STATE] <= 4, Field::State, f);
    unless(w[FLAG] <= 1, Field::Flag, f)
}

// Sets and records.
fn value_fault(w: &[u64], n: u32, rest: Option<Field>) -> Option<Field>
    requires { head_words ≤ length w.now }
    ensures { result ≡ fault_then (value_tests n w.now) rest }
{
    let f = unless(values::is_record(w[AGREEING]), Field::Agreeing, rest);
    let f = unless(values::is_record(w[WAITING]), Field::Waiting, f);
    let f = unless(values::is_record(w[BEST]), Field::Best, f);
    let f = unless(values::is_set(n, w[HEARD]), Field::Heard, f);
    let f = unless(values::is_set(n, w[ACCEPTS]), Field::Accepts, f);
    unless(values::is_set(n, w[ANSWERED]), Field::Answered, f)
}

// The last of peer k is by form in the row of box b; above n it is not read.
fn is_peer(w: &[u64], n: u32, b: u32, k: u32) -> bool
    requires head_words_in_bounds { head_words ≤ length w.now }
    requires le_k { (1 ≤ k) × (k ≤ most_boxes) }
    ensures { result ≡ peer_form n b (head_of n w.now).peers k }
{
    if n < k {
        return true;
    }
    let at = BEFORE_PEERS + k as usize;
    let last = w[at];
    (last == UNKNOWN) | ((k != b) & (last <= MOST_NUMBER))
}

fn peer_fault(w: &[u64], n: u32, b: u32, rest: Option<Field>) -> Option<Field>
    requires { head_words ≤ length w.now }
    ensures { result ≡ fault_then (peer_tests n b w.now) rest }
{
    let f = unless(is_peer(w, n, b, 5), Field::Peer(5), rest);
    let f = unless(is_peer(w, n, b, 4), Field::Peer(4), f);
    let f = unless(is_peer(w, n, b, 3), Field::Peer(3), f);
    let f = unless(is_peer(w, n, b, 2), Field::Peer(2), f);
    unless(is_peer(w, n, b, 1), Field::Peer(1), f)
}

// The first of a box's words that is not by form.
pub fn head_fault(w: &[u64], n: u32, j: u32, b: u32) -> Option<Field>
    requires { head_words ≤ length w.now }
    ensures { result ≡ head_fault n j b w.now }
{
    let f = unless(
        values::is_count(j, w[FIRST], w[LAST], w[COUNT]),
        Field::Count,
        None,
    );
    let f = peer_fault(w, n, b, f);
    let f = value_fault(w, n, f);
    number_fault(w, f)
}

// The row holds box b of n by form. What stands after its records and its index is not read.
pub fn is_by_form(row: &[u64], n: u32, j: u32, b: u32) -> bool
    requires { RowSized n j row.now }
    ensures { result ≡ row_form n j b row.now }
{
    let f = head_fault(row, n, j, b);
    match f {
        None => {
            let proper = values::all_proper(records(row));
            proper & indexed::is_indexed(row, j)
        }
        Some(_) => false,
    }
}

// The agreed records of a box.
ghost use Rattle.std.specs.Prelude.{◌≡◌};
ghost use Rattle.rules.specs.Step.{agreed_as};
ghost use Rattle.row.specs.Row.{box_of};
ghost use Rattle.row.specs.Lent.{RowByForm};

use crate::{FIRST, HEAD, LAST};
use rules::model::Setting;

// Number k is agreed in the row with these frames.
pub fn is_agreed(row: &[u64], s: Setting, k: u32, left: u32, right: u32) -> bool
    requires { RowByForm s row.now }
    ensures { result ≡ agreed_as (box_of s.n row.now) k left right }
{
    let number = k as u64;
    let first = row[FIRST];
    if number < first {
        return false;
    }
    if row[LAST] < number {
        return false;
    }
    let at = HEAD + words::size(number - first);
    let record = row[at];
    (record / 4294967296 == left as u64) & (record % 4294967296 == right as u64)
}

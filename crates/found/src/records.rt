// Records in bytes: how many are proper, before the first that is not.
ghost use Rattle.std.specs.Prelude.{◌≡◌, ◌≤◌};
ghost use Rattle.found.specs.Stands.{words_at, missing};
ghost use Rattle.found.specs.Found.{leading as leading_of};
ghost use Rattle.found.specs.Near.{farthest};

use crate::stands::word_at;

// Of count records from `at` on.
pub fn leading(src: &[u8], at: usize, count: u64) -> u64
    requires { (at ≤ farthest) × (count ≤ missing) }
    ensures value { result ≡ leading_of (words_at 8 count src.now at) }
    ensures upper_bound { result ≤ count }
{
    let mut p = at;
    for i in 0..count {
        let x = word_at(src, p, 8);
        if !values::is_proper(x) {
            return i;
        }
        p += 8;
    }
    count
}

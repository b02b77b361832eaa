// Sets of boxes, and what a box knows of its site.
ghost use Rattle.std.specs.Prelude.{◌≡◌, ◌≤◌};
ghost use Rattle.rules.specs.Sizes.{most_boxes};
ghost use Rattle.rules.specs.Sets.{has};
ghost use Rattle.memory.specs.After.{setting_at, GeneralLent};

use rules::model::Setting;
use rules::sets;

// Where the general words stand; the rows stand behind them.
pub const N: usize = 0;

pub const J: usize = 1;

pub const L: usize = 2;

pub const EPOCH: usize = 3;

pub const PRESENT: usize = 4;

pub const GENERAL: usize = 5;

// Box k is in the set w.
pub fn has(w: u32, k: u32) -> bool
    requires { k ≤ most_boxes }
    ensures { result ≡ has w k }
{
    let one = sets::bit_of(k);
    w & one != 0
}

// What box c knows of the site.
pub fn setting_of(site: &[u64], c: u32) -> Setting
    requires { GeneralLent site.now }
    ensures { result ≡ setting_at site.now c }
{
    Setting {
        n: values::number(site[N]),
        j: values::number(site[J]),
        l: values::number(site[L]),
        epoch: values::number(site[EPOCH]),
        present: values::number(site[PRESENT]),
        me: c,
    }
}

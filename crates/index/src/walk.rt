// Which number has this left frame: a walk along one chain.
ghost use Rattle.std.specs.Prelude.{◌≡◌};
ghost use Rattle.index.specs.Index.{first_with};
ghost use Rattle.index.specs.Lent.{Walks};

use crate::NEXTS;

// The smallest number whose record has this left frame; 0 where there is none. The chain of its
// slot ascends, so the first equal frame is the smallest number's. Each step is to the next of the
// chain and not to the next number, so there is no range to go over.
pub fn find(records: &[u64], ix: &[u64], first: u32, left: u32) -> u32
    requires { Walks first records.now ix.now }
    ensures { result ≡ first_with left first records.now }
{
    let wanted = left as u64;
    let from = first as u64;
    let slot = words::size(wanted % 64);
    let mut at = ix[slot];
    while at != 0 {
        let i = words::size(at - from);
        if records[i] / 4294967296 == wanted {
            return at as u32;
        }
        at = ix[NEXTS + i];
    }
    0
}

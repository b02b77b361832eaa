// The needs of each call after form and the box number: the first that fails refuses.
ghost use Rattle.std.specs.Prelude.{◌≡◌, ◌≤◌};
ghost use Rattle.rules.specs.Sets.{has};
ghost use Rattle.rules.specs.Sizes.{most_boxes};
ghost use Rattle.rules.specs.Step.{elect_needs};
ghost use Rattle.site.specs.Verdicts.{verdict_of};
ghost use Rattle.site.specs.Calls.{presence_needs};

use crate::presence::Presence;
use rules::model::{Refusal, Setting, Verdict};
use rules::{sets, turns};

// `here` says whether the box is present.
pub(crate) fn elect_verdict(s: Setting, here: bool) -> Verdict
    requires { (here ≡ has s.present s.me) × (s.n ≤ most_boxes) }
    ensures { result ≡ verdict_of (elect_needs s) }
{
    let majority = s.n / 2 + 1;
    let enough = majority <= sets::count(s.present);
    let due = !sets::is_even(s.epoch);
    let c = turns::unless(enough, Refusal::Majority, Verdict::Go);
    let b = turns::unless(here, Refusal::Condition, c);
    turns::unless(due, Refusal::Condition, b)
}

// A match and no closure: the clause reads the case.
pub(crate) fn presence_verdict(s: Setting, here: bool, what: Presence) -> Verdict
    requires { here ≡ has s.present s.me }
    ensures { result ≡ verdict_of (presence_needs what s) }
{
    let last = turns::unless(s.epoch < 1000000, Refusal::Epoch, Verdict::Go);
    match what {
        Presence::Stop => turns::unless(here, Refusal::Condition, last),
        Presence::Return => turns::unless(!here, Refusal::Condition, last),
        Presence::Timeout => {
            let even = turns::unless(sets::is_even(s.epoch), Refusal::Condition, last);
            turns::unless(here, Refusal::Condition, even)
        }
    }
}

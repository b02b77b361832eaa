// Stops, returns and timeouts: the epoch and the present set.
ghost use Rattle.std.specs.Prelude.{◌≡◌, true, ◌≤◌, length};
ghost use Rattle.rules.specs.Sizes.{most_epoch};
ghost use Rattle.rules.specs.Step.{risen, step};
ghost use Rattle.memory.specs.Memory.{site_of, memory_form, general_words};
ghost use Rattle.site.specs.Entries.{After};
ghost use Rattle.site.specs.General.{general_put, Presented};
ghost use Rattle.site.specs.Calls.{presence_call, present_then};

use crate::verdicts;
use rules::model::{Answer, Refusal, Setting, Verdict};
use rules::{ranges, sets};

// The calls that change nothing else.
#[derive(Clone, Copy)]
pub enum Presence {
    Stop,
    Return,
    Timeout,
}

// The epoch and the present set are written.
pub(crate) fn put_general(site: &mut [u64], epoch: u32, present: u32)
    requires { general_words ≤ length site.old }
    ensures { site.new ≡ general_put epoch present site.old }
{
    site[memory::EPOCH] = epoch as u64;
    site[memory::PRESENT] = present as u64;
}

// An even epoch rises by 1, an odd one stays.
fn raise(epoch: u32) -> u32
    requires { epoch ≤ most_epoch }
    ensures { result ≡ risen epoch }
{
    if sets::is_even(epoch) {
        epoch + 1
    } else {
        epoch
    }
}

// Where the verdict says Go the boxes of w are present, and the epoch rises.
fn present_as(site: &mut [u64], s: Setting, w: u32, v: Verdict) -> Answer
    requires { (general_words ≤ length site.old) × (s.epoch ≤ most_epoch) }
    ensures { Presented v s.epoch w site.old site.new result }
{
    let epoch = raise(s.epoch);
    match v {
        Verdict::Go => {
            put_general(site, epoch, w);
            Answer::Done
        }
        Verdict::Discard(why) => Answer::Discarded(why),
        Verdict::Refuse(why) => Answer::Refused(why),
    }
}

// Who is present then.
// A match and no closure: the clause reads the case.
fn present_then(s: Setting, what: Presence) -> u32
    ensures { result ≡ present_then what s }
{
    match what {
        Presence::Stop => sets::without_box(s.present, s.me),
        Presence::Return => sets::with_box(s.present, s.me),
        Presence::Timeout => s.present,
    }
}

pub(crate) fn change(site: &mut [u64], links: &[u64], c: u32, what: Presence) -> Answer
    requires { memory_form site.old links.now ≡ true }
    ensures { After (step (site_of site.old links.now) (presence_call what c))
        site.old links.now site.new links.now result }
{
    let s = memory::setting_of(site, c);
    if !ranges::is_box(s.n, c) {
        return Answer::Refused(Refusal::Box);
    }
    let here = memory::has(s.present, c);
    let v = verdicts::presence_verdict(s, here, what);
    let w = present_then(s, what);
    present_as(site, s, w, v)
}

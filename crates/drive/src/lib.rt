// A driver: a fresh site, and the questions of a script one after another, each answered by its
// number. What it promises of the answers is demand 3.
#![tactic(auto)]

ghost use Rattle.std.specs.Prelude.{◌≡◌};
ghost use Rattle.drive.specs.Script.{call_of, asking, questions_of};
ghost use Rattle.drive.specs.Driven.{Answered, Drives, Driven};

use rules::answers::is_refusal;
use rules::model::{Answer, Call};
use rules::numbers::answer_number;

// How many numbers a question has.
const WIDTH: usize = 5;

// How many calls there are.
const CALLS: u32 = 16;

// A number for a kind: the script is of numbers, and the contract says which stands for what.
#[tactic(auto, unfolding(crate::specs::Script::call_of))]
fn call_of(which: u32, a: u32, b: u32, c: u32) -> Call
    ensures { result ≡ call_of which a b c }
{
    match which {
        0 => Call::Elect(a),
        1 => Call::Recover(a),
        2 => Call::Collect(a),
        3 => Call::Ready(a),
        4 => Call::Offer(a, b, c),
        5 => Call::Propose(a),
        6 => Call::Agree(a),
        7 => Call::Finish(a),
        8 => Call::Heard(a),
        9 => Call::Trim(a, b),
        10 => Call::Stop(a),
        11 => Call::Return(a),
        12 => Call::Timeout(a),
        13 => Call::Lose(a, b),
        14 => Call::Repeat(a, b),
        _ => Call::Deliver(a, b),
    }
}

// One question.
fn answer(site: &mut [u64], links: &mut [u64], which: u32, a: u32, b: u32, c: u32, d: u32) -> u32
    ensures { Answered (asking which a b c d result) site.old links.old
        site.new links.new }
{
    if which < CALLS {
        let call = call_of(which, a, b, c);
        return answer_number(site::step(site, links, call));
    }
    answer_number(site::holds(site, links, a, b, c, d))
}

// As many questions as there are answers for.
fn questions(script: &[u32], answers: &[u32]) -> usize
    ensures { result ≡ questions_of script.now answers.now }
{
    (script.len() / WIDTH).min(answers.len())
}

// The questions of the script, on whatever site the words hold.
// By index: of what is written through `iter_mut` a contract knows nothing.
fn go_on(site: &mut [u64], links: &mut [u64], script: &[u32], answers: &mut [u32])
    ensures { Drives script.now answers.old answers.new
        site.old links.old site.new links.new }
{
    let n = questions(script, answers);
    for i in 0..n {
        let at = i * WIDTH;
        let which = script[at];
        let a = script[at + 1];
        let b = script[at + 2];
        let c = script[at + 3];
        let d = script[at + 4];
        answers[i] = answer(site, links, which, a, b, c, d);
    }
}

// A fresh site, and then the script. Where the site is refused nothing is asked, and every word and
// every answer is as it was.
pub fn drive(
    site: &mut [u64],
    links: &mut [u64],
    n: u32,
    j: u32,
    l: u32,
    script: &[u32],
    answers: &mut [u32],
) -> Answer
    ensures { Driven n j l script.now answers.old answers.new
        site.old links.old site.new links.new result }
{
    let r = site::fresh(site, links, n, j, l);
    if is_refusal(r) {
        return r;
    }
    go_on(site, links, script, answers);
    r
}

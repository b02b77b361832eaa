// What a run did, in words: `ran USED`, `stopped N USED` or `refused N`.
ghost use Rattle.std.specs.Prelude.{◌≤◌, length};

use rules::model::{Answer, Refusal};
use rules::numbers;
use std::io::Result;
use streams::Streams;
use wait::model::Run;

fn put_number(out: &mut [u8], word: &[u8], x: u64) -> usize
    requires in_bounds { 64 ≤ length out.old }
    requires word_len_bound { length word.now ≤ 8 }
    ensures { result ≤ 28 }
{
    let p = print::put_bytes(out, 0, word);
    print::put_decimal(out, p, x)
}

fn put_stopped(out: &mut [u8], why: Refusal, used: u32) -> usize
    requires { 64 ≤ length out.old }
    ensures { result ≤ 49 }
{
    let n = numbers::answer_number(Answer::Refused(why));
    let p = put_number(out, b"stopped ", n as u64);
    let p = print::put_byte(out, p, 32);
    print::put_decimal(out, p, used as u64)
}

// At the front of out.
fn put(out: &mut [u8], r: Run) -> usize
    requires { 64 ≤ length out.old }
    ensures { result ≤ 64 }
{
    match r {
        Run::Ran(used) => put_number(out, b"ran ", used as u64),
        Run::Stopped(why, used) => put_stopped(out, why, used),
        Run::Refused(why) => {
            let n = numbers::answer_number(Answer::Refused(why));
            put_number(out, b"refused ", n as u64)
        }
    }
}

// To standard error.
pub(crate) fn say<S: Streams>(rt: &S, r: Run) {
    let mut words = [0u8; 64];
    let n = put(&mut words, r);
    wording::say(rt, b"apply", &words[0..n]);
}

// As a line to standard output.
pub(crate) fn tell<S: Streams>(rt: &S, r: Run) -> Result<()> {
    let mut words = [0u8; 64];
    let n = put(&mut words, r);
    streams::write_output(rt, &words[0..n])?;
    streams::write_output(rt, b"\n")
}

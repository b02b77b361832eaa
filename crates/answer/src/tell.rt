// The line of an answer: its word, and a refusal's number or the image after.
ghost use Rattle.std.specs.Prelude.{◌≡◌, true, false, [], ◌+◌, ◌*◌, ◌≤◌, length, Some, None, Ok};
ghost use Rattle.rules.specs.Answers.{is_refusal};
ghost use Rattle.print.specs.Text.{Wrote};
ghost use Rattle.rules.specs.declared.model.Answer.{Answer};
ghost use Rattle.wait.specs.declared.model.Run.{Run};
ghost use Rattle.answer.specs.Text.{cause_word, word_of, answer_text};
ghost use Rattle.answer.specs.Text.{used_text, run_text, found_text, reply_text};
ghost use Rattle.answer.specs.Calls.{within, image_in};
ghost use Rattle.answer.specs.Says.{text_room, TellIs};

use crate::reply::Reply;
use rules::answers;
use rules::model::{Answer, Cause, Refusal};
use wait::model::Run;

fn put_cause(out: &mut [u8], at: usize, c: Cause) -> usize
    requires { at + 7 ≤ length out.old }
    ensures { Wrote 7 out.old out.new at result (cause_word c) }
{
    match c {
        Cause::Role => print::put_bytes(out, at, b"role "),
        Cause::Phase => print::put_bytes(out, at, b"phase "),
        Cause::Number => print::put_bytes(out, at, b"number "),
        Cause::Place => print::put_bytes(out, at, b"place "),
    }
}

fn put_discarded(out: &mut [u8], at: usize, c: Cause) -> usize
    requires { at + 17 ≤ length out.old }
    ensures { Wrote 17 out.old out.new at result (word_of (Answer.Discarded c)) }
{
    let p = print::put_bytes(out, at, b"discarded ");
    put_cause(out, p, c)
}

fn put_word(out: &mut [u8], at: usize, a: Answer) -> usize
    requires { at + 17 ≤ length out.old }
    ensures { Wrote 17 out.old out.new at result (word_of a) }
{
    match a {
        Answer::Done => print::put_bytes(out, at, b"done "),
        Answer::Taken => print::put_bytes(out, at, b"taken "),
        Answer::Discarded(c) => put_discarded(out, at, c),
        Answer::Refused(_) => print::put_bytes(out, at, b"refused "),
    }
}

// The line of a refusal, at the front of out.
pub(crate) fn put_refusal(out: &mut [u8], a: Answer) -> usize
    requires in_bounds { 38 ≤ length out.old }
    requires a_value { is_refusal a ≡ true }
    ensures { Wrote 38 out.old out.new 0 result (answer_text a []) }
{
    let p = put_word(out, 0, a);
    let n = rules::numbers::answer_number(a);
    let p = print::put_decimal(out, p, n as u64);
    print::put_byte(out, p, 10)
}

// The line of any other answer.
fn put_image(out: &mut [u8], a: Answer, image: &[u8]) -> usize
    requires image_in_bounds { 2 * length image.now + 19 ≤ length out.old }
    requires a_value { is_refusal a ≡ false }
    ensures { Wrote (2 * length image.now + 19)
        out.old out.new 0 result (answer_text a image.now) }
{
    let p = put_word(out, 0, a);
    let p = hexed::put_hex(out, p, image);
    print::put_byte(out, p, 10)
}

// The line of any answer, with the image after it.
fn put_answer(out: &mut [u8], a: Answer, image: &[u8]) -> usize
    requires { text_room (length image.now) ≤ length out.old }
    ensures { Wrote (text_room (length image.now))
        out.old out.new 0 result (answer_text a image.now) }
{
    if answers::is_refusal(a) {
        return put_refusal(out, a);
    }
    put_image(out, a, image)
}

// So many steps, and the image.
fn put_used(out: &mut [u8], at: usize, used: u32, image: &[u8]) -> usize
    requires { at + (2 * length image.now + 23) ≤ length out.old }
    ensures { Wrote (2 * length image.now + 23)
        out.old out.new at result (used_text used image.now) }
{
    let p = print::put_decimal(out, at, used as u64);
    let p = print::put_byte(out, p, 32);
    let p = hexed::put_hex(out, p, image);
    print::put_byte(out, p, 10)
}

fn put_stopped(out: &mut [u8], why: Refusal, used: u32, image: &[u8]) -> usize
    requires { text_room (length image.now) ≤ length out.old }
    ensures { Wrote (text_room (length image.now))
        out.old out.new 0 result
        (run_text (Run.Stopped why used) image.now) }
{
    let p = print::put_bytes(out, 0, b"stopped ");
    let n = rules::numbers::answer_number(Answer::Refused(why));
    let p = print::put_decimal(out, p, n as u64);
    let p = print::put_byte(out, p, 32);
    put_used(out, p, used, image)
}

fn put_ran(out: &mut [u8], used: u32, image: &[u8]) -> usize
    requires { text_room (length image.now) ≤ length out.old }
    ensures { Wrote (text_room (length image.now))
        out.old out.new 0 result (run_text (Run.Ran used) image.now) }
{
    let p = print::put_bytes(out, 0, b"ran ");
    put_used(out, p, used, image)
}

// The line of a run, with the image after it.
fn put_run(out: &mut [u8], r: Run, image: &[u8]) -> usize
    requires { text_room (length image.now) ≤ length out.old }
    ensures { Wrote (text_room (length image.now))
        out.old out.new 0 result (run_text r image.now) }
{
    match r {
        Run::Ran(used) => put_ran(out, used, image),
        Run::Stopped(why, used) => put_stopped(out, why, used, image),
        Run::Refused(why) => put_refusal(out, Answer::Refused(why)),
    }
}

fn put_number(out: &mut [u8], k: u32) -> usize
    requires { 38 ≤ length out.old }
    ensures { Wrote 38 out.old out.new 0 result (found_text (Ok (Some k))) }
{
    let p = print::put_bytes(out, 0, b"found ");
    let p = print::put_decimal(out, p, k as u64);
    print::put_byte(out, p, 10)
}

fn put_none(out: &mut [u8]) -> usize
    requires { 38 ≤ length out.old }
    ensures { Wrote 38 out.old out.new 0 result (found_text (Ok None)) }
{
    let p = print::put_bytes(out, 0, b"none");
    print::put_byte(out, p, 10)
}

fn put_load(out: &mut [u8], load: Option<u32>) -> usize
    requires { 38 ≤ length out.old }
    ensures { Wrote 38 out.old out.new 0 result (found_text (Ok load)) }
{
    match load {
        Some(k) => put_number(out, k),
        None => put_none(out),
    }
}

// The line of a load that was asked for, at the front of out.
pub fn put_found(out: &mut [u8], w: Result<Option<u32>, Refusal>) -> usize
    requires { 38 ≤ length out.old }
    ensures { Wrote 38 out.old out.new 0 result (found_text w) }
{
    match w {
        Ok(load) => put_load(out, load),
        Err(why) => put_refusal(out, Answer::Refused(why)),
    }
}

fn put_reply(out: &mut [u8], r: Reply, image: &[u8]) -> usize
    requires { text_room (length image.now) ≤ length out.old }
    ensures { Wrote (text_room (length image.now))
        out.old out.new 0 result (reply_text r image.now) }
{
    match r {
        Reply::Answer(a) => put_answer(out, a, image),
        Reply::Run(k) => put_run(out, k, image),
        Reply::Found(w) => put_found(out, w),
    }
}

// The line of what came, with the image that it left at the front of image: how many bytes it has,
// if what was lent was long enough.
pub(crate) fn tell(c: Option<(Reply, usize)>, image: &[u8], out: &mut [u8]) -> Option<usize>
    requires within { within (length image.now) c }
    requires image_in_bounds { text_room (length image.now) ≤ length out.old }
    ensures { TellIs (image_in c image.now) out.old c result out.new }
{
    match c {
        Some((a, n)) => Some(put_reply(out, a, &image[0..n])),
        None => None,
    }
}

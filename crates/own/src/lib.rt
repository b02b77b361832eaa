// A box by itself: its own row, one event or mail in; the row, one letter and its receivers out.
#![tactic(auto)]

ghost use Rattle.std.specs.Prelude.{◌≡◌, true, ◌&&◌, cond, ◌+◌, ◌≤◌, ltb, length, take};
ghost use Rattle.rules.specs.Sizes.{sizes_form};
ghost use Rattle.rules.specs.Answers.{is_accepted};
ghost use Rattle.letter.specs.Place.{head_words};
ghost use Rattle.row.specs.Row.{row_width};
ghost use Rattle.own.specs.Entry.{act_on, mail_on, unheard_on, Owned};
ghost use Rattle.own.specs.Lent.{
  row_test,
  place_test,
  form_test,
  judged,
  Posts,
  Posted,
  Carries,
  Carried,
  Concludes,
  concluded,
  StillReads,
};

use rules::model::{Act, Answer, Mail, Out, Refusal, Setting, Turn};
use rules::{answers, ranges};

mod told;

pub use told::{elected, fresh, holds};

// The answer, and the set of boxes that the letter goes to; the set is empty where there is none.
#[derive(Clone, Copy)]
pub struct Sent {
    pub answer: Answer,
    pub to: u32,
}

fn refused(why: Refusal) -> Sent
    ensures { (result.answer ≡ Answer.Refused why) × (result.to ≡ 0) }
{
    Sent {
        answer: Answer::Refused(why),
        to: 0,
    }
}

fn are_sizes(s: Setting) -> bool
    ensures { result ≡ sizes_form s.n s.j s.l }
{
    ranges::are_sizes(s.n as u64, s.j as u64, s.l as u64)
}

// The words of a row; what follows them is unused room.
fn used_row(row: &[u64], j: u32) -> &[u64]
    requires { row_width j ≤ length row.now }
    ensures { result.now ≡ take (row_width j) row.now }
{
    let end = row::row_width(j);
    &row[0..end]
}

// .. and of a place.
fn used_place(place: &[u64], j: u32) -> &[u64]
    requires { head_words + j ≤ length place.now }
    ensures { result.now ≡ take (head_words + j) place.now }
{
    let end = letter::HEAD + j as usize;
    &place[0..end]
}

// The row can be read, and its box is by form.
fn is_row(row: &[u64], s: Setting) -> bool
    requires { sizes_form s.n s.j s.l ≡ true }
    ensures { result ≡ row_test s row.now }
{
    if row.len() < row::row_width(s.j) {
        return false;
    }
    row::is_by_form(used_row(row, s.j), s.n, s.j, s.me)
}

// The place can be read, and its letter is by form.
fn is_letter(letter: &[u64], s: Setting) -> bool
    requires { sizes_form s.n s.j s.l ≡ true }
    ensures { result ≡ place_test s letter.now }
{
    if letter.len() < letter::HEAD + s.j as usize {
        return false;
    }
    letter::is_by_form(used_place(letter, s.j), s.j)
}

// By form, of what concerns the box alone; `mailed` says whether a letter came.
fn is_formed(row: &[u64], letter: &[u64], s: Setting, mailed: bool) -> bool
    requires { sizes_form s.n s.j s.l ≡ true }
    ensures { result ≡ form_test s row.now letter.now mailed }
{
    let present = values::is_set(s.n, u64::from(s.present));
    let own = is_row(row, s);
    let read = is_letter(letter, s);
    (1 <= s.epoch) & (s.epoch <= 1000000) & present & own & (!mailed | read)
}

// What comes before a turn: 13, 1 and 2, in this order.
fn judge(
    row: &[u64],
    letter: &[u64],
    s: Setting,
    mailed: bool,
    numbers: bool,
) -> Result<(), Refusal>
    ensures { result ≡ judged s row.now letter.now mailed numbers }
{
    if !are_sizes(s) {
        return Err(Refusal::Sizes);
    }
    if !is_formed(row, letter, s, mailed) {
        return Err(Refusal::Form);
    }
    if numbers {
        return Ok(());
    }
    Err(Refusal::Box)
}

// 12 where the turn goes on and the place for its letter has too few words.
fn answer_in(a: Answer, place: usize, j: u32) -> Answer
    ensures { result ≡ cond (is_accepted a && ltb place (head_words + j))
        (Answer.Refused Refusal.Buffer) a }
{
    let room = letter::HEAD + j as usize;
    let accepted = answers::is_accepted(a);
    if accepted & (place < room) {
        return Answer::Refused(Refusal::Buffer);
    }
    a
}

// One letter to each box of the set.
fn post(out: &mut [u64], set: u32, m: Mail, records: &[u64]) -> u32
    requires { Posts out.old (Out.To set m) records.now }
    ensures { Posted out.old (Out.To set m) records.now out.new result }
{
    if set != 0 {
        letter::enclose(out, m, records);
    }
    set
}

// What a turn sends goes into the place.
fn send(out: &mut [u64], o: Out, records: &[u64]) -> u32
    requires { Posts out.old o records.now }
    ensures { Posted out.old o records.now out.new result }
{
    match o {
        Out::Nothing => 0,
        Out::To(set, m) => post(out, set, m, records),
    }
}

// The row takes the turn, and the place what it sends.
fn carry_out(row: &mut [u64], letter: &[u64], out: &mut [u64], n: u32, j: u32, t: Turn) -> u32
    requires { Carries n j row.old letter.now out.old t }
    ensures { Carried n j row.old letter.now out.old t
        row.new out.new result }
{
    row::play(row, letter, n, j, t);
    let o = t.out;
    send(out, o, row::records(row))
}

// The turn is carried out, or nothing is: it is refused or discarded, or its letter has no room.
fn conclude(row: &mut [u64], letter: &[u64], out: &mut [u64], s: Setting, t: Turn) -> Sent
    requires { Concludes s row.old letter.now t }
    ensures owned { Owned s (concluded s row.old letter.now t out.old)
        row.old out.old row.new out.new
        result.answer result.to }
    ensures still_reads { StillReads s row.old row.new out.new result.to }
{
    let turned = t.answer;
    let answer = answer_in(turned, out.len(), s.j);
    if !answers::is_accepted(answer) {
        return Sent {
            answer: answer,
            to: 0,
        };
    }
    let end = row::row_width(s.j);
    let room = letter::HEAD + s.j as usize;
    let to = carry_out(&mut row[0..end], letter, &mut out[0..room], s.n, s.j, t);
    Sent {
        answer: answer,
        to: to,
    }
}

// A step of its own, with a place for the letter that it sends.
pub fn act(row: &mut [u64], out: &mut [u64], s: Setting, a: Act) -> Sent
    ensures owned { Owned s (act_on s row.old a out.old)
        row.old out.old row.new out.new
        result.answer result.to }
    ensures still_reads { StillReads s row.old row.new out.new result.to }
{
    let nothing = [0; letter::HEAD];
    let came = judge(row, &nothing, s, false, ranges::is_box(s.n, s.me));
    match came {
        Err(why) => refused(why),
        Ok(()) => {
            let t = row::act_turn(used_row(row, s.j), s, a);
            conclude(row, &nothing, out, s, t)
        }
    }
}

// Which present boxes have not answered its lease.
pub fn unheard(row: &[u64], s: Setting) -> Result<u32, Refusal>
    ensures { result ≡ unheard_on s row.now }
{
    let nothing = [0; letter::HEAD];
    let came = judge(row, &nothing, s, false, ranges::is_box(s.n, s.me));
    match came {
        Err(why) => Err(why),
        Ok(()) => {
            let head = row::load(used_row(row, s.j), s.n);
            head.unheard(s)
        }
    }
}

// A mail from a sender, in a place of its own, and a place for the letter that answers it.
pub fn mail(row: &mut [u64], letter: &[u64], out: &mut [u64], s: Setting, sender: u32) -> Sent
    ensures owned { Owned s (mail_on s row.old sender letter.now out.old)
        row.old out.old row.new out.new
        result.answer result.to }
    ensures still_reads { StillReads s row.old row.new out.new result.to }
{
    let came = judge(row, letter, s, true, ranges::is_link(s.n, sender, s.me));
    match came {
        Err(why) => refused(why),
        Ok(()) => {
            let read = used_place(letter, s.j);
            let t = row::mail_turn(used_row(row, s.j), read, s, sender);
            conclude(row, read, out, s, t)
        }
    }
}

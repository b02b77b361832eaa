// Reads a line of a trace: a fixed word at its start, then decimals parted by one space.
#![tactic(auto)]

ghost use Rattle.std.specs.Prelude.{◌≡◌, ◌+◌, ltb, length, drop};
ghost use Rattle.rules.specs.Pick.{pick};
ghost use Rattle.lines.specs.Table.{word_bytes, arity_of, starts as starts_with, word_of};
ghost use Rattle.lines.specs.Read.{
  no_numbers,
  grown,
  with_grown,
  finished,
  byte_read,
  numbers_of,
  line_with,
  line_of,
  read_line,
  one_of,
  read_one,
};

pub mod hold;

use rules::model::Call;

// The words that a line can start with.
#[derive(Clone, Copy)]
pub enum Word {
    Site,
    Elect,
    Recover,
    Collect,
    Ready,
    Offer,
    Propose,
    Agree,
    Finish,
    Heard,
    Trim,
    Stop,
    Return,
    Timeout,
    Lose,
    Repeat,
    Mail,
    Holds,
    Other,
}

// What a line says, with its numbers as they stand: n, J and L of a site line, a call of the
// engine, or c, k, left and right of a holds line.
// What cannot be read is a line as well: it has its number and its answer, and ends the run.
#[derive(Clone, Copy)]
pub enum Line {
    Site(u32, u32, u32),
    Call(Call),
    Holds(u32, u32, u32, u32),
    Unreadable,
}

// Numbers being read: the finished ones stand in the last count of a, b, c and d, and value is the
// one that has begun.
// Four fields and no array: each line takes its own by name.
#[derive(Clone, Copy)]
pub struct Numbers {
    pub bad: bool,
    pub begun: bool,
    pub value: u32,
    pub count: u32,
    pub a: u32,
    pub b: u32,
    pub c: u32,
    pub d: u32,
}

// Whether the bytes of w stand at the start of s.
// No `starts_with`: most words differ from a line in their first byte, and it does not stop there.
pub fn starts(w: &[u8], s: &[u8]) -> bool
    ensures { result ≡ starts_with w.now s.now }
{
    for i in 0..w.len() {
        if s.len() <= i {
            return false;
        }
        if w[i] != s[i] {
            return false;
        }
    }
    true
}

fn choose(t: bool, a: Word, b: Word) -> Word
    ensures { result ≡ pick t a b }
{
    if t { a } else { b }
}

// here where the bytes of w stand at the start of s, else other.
fn or_word(w: &[u8], s: &[u8], here: Word, other: Word) -> Word
    ensures { result ≡ pick (starts_with w.now s.now) here other }
{
    choose(starts(w, s), here, other)
}

// The word at the start of s.
fn word_at(s: &[u8]) -> Word
    ensures { result ≡ word_of s.now }
{
    let w = Word::Other;
    let w = or_word(b"holds ", s, Word::Holds, w);
    let w = or_word(b"mail ", s, Word::Mail, w);
    let w = or_word(b"repeat ", s, Word::Repeat, w);
    let w = or_word(b"lose ", s, Word::Lose, w);
    let w = or_word(b"timeout ", s, Word::Timeout, w);
    let w = or_word(b"return ", s, Word::Return, w);
    let w = or_word(b"stop ", s, Word::Stop, w);
    let w = or_word(b"trim ", s, Word::Trim, w);
    let w = or_word(b"heard ", s, Word::Heard, w);
    let w = or_word(b"finish ", s, Word::Finish, w);
    let w = or_word(b"agree ", s, Word::Agree, w);
    let w = or_word(b"propose ", s, Word::Propose, w);
    let w = or_word(b"offer ", s, Word::Offer, w);
    let w = or_word(b"ready ", s, Word::Ready, w);
    let w = or_word(b"collect ", s, Word::Collect, w);
    let w = or_word(b"recover ", s, Word::Recover, w);
    let w = or_word(b"elect ", s, Word::Elect, w);
    or_word(b"site ", s, Word::Site, w)
}

// How many bytes a word takes, with its space.
// A table beside the literals of word_at: those are the byte strings compared at a line's start.
fn width(w: Word) -> usize
    ensures { result ≡ length (word_bytes w) }
{
    match w {
        Word::Site => 5,
        Word::Elect => 6,
        Word::Recover => 8,
        Word::Collect => 8,
        Word::Ready => 6,
        Word::Offer => 6,
        Word::Propose => 8,
        Word::Agree => 6,
        Word::Finish => 7,
        Word::Heard => 6,
        Word::Trim => 5,
        Word::Stop => 5,
        Word::Return => 7,
        Word::Timeout => 8,
        Word::Lose => 5,
        Word::Repeat => 7,
        Word::Mail => 5,
        Word::Holds => 6,
        Word::Other => 0,
    }
}

// How many numbers follow a word.
// A match and no number of the word: the paper's grammar has this table.
fn arity(w: Word) -> u32
    ensures { result ≡ arity_of w }
{
    match w {
        Word::Site => 3,
        Word::Elect => 1,
        Word::Recover => 1,
        Word::Collect => 1,
        Word::Ready => 1,
        Word::Offer => 3,
        Word::Propose => 1,
        Word::Agree => 1,
        Word::Finish => 1,
        Word::Heard => 1,
        Word::Trim => 2,
        Word::Stop => 1,
        Word::Return => 1,
        Word::Timeout => 1,
        Word::Lose => 2,
        Word::Repeat => 2,
        Word::Mail => 2,
        Word::Holds => 4,
        Word::Other => 0,
    }
}

// A decimal of the value value, if it has begun, goes on with the byte b.
fn grow(begun: bool, value: u32, b: u8) -> Option<u32>
    ensures { result ≡ grown begun value b }
{
    if b < 48 {
        return None;
    }
    if 57 < b {
        return None;
    }
    if begun & (value == 0) {
        return None;
    }
    let v = (value as u64) * 10 + ((b - 48) as u64);
    if 4294967295 < v {
        return None;
    }
    Some(v as u32)
}

fn one_more(count: u32) -> u32
    ensures { result ≡ pick (ltb count 4) (count + 1) count }
{
    if count < 4 { count + 1 } else { count }
}

impl Numbers {
    fn none() -> Numbers
        ensures { result ≡ no_numbers }
    {
        Numbers {
            bad: false,
            begun: false,
            value: 0,
            count: 0,
            a: 0,
            b: 0,
            c: 0,
            d: 0,
        }
    }

    fn digit(self, b: u8) -> Numbers
        ensures { result ≡ with_grown self (grown self.begun self.value b) }
    {
        match grow(self.begun, self.value, b) {
            Some(v) => Numbers {
                bad: self.bad,
                begun: true,
                value: v,
                count: self.count,
                a: self.a,
                b: self.b,
                c: self.c,
                d: self.d,
            },
            None => Numbers {
                bad: true,
                begun: true,
                value: 0,
                count: self.count,
                a: self.a,
                b: self.b,
                c: self.c,
                d: self.d,
            },
        }
    }

    // After a space, and at the end: the number that has begun is finished.
    fn finish(self) -> Numbers
        ensures { result ≡ finished self }
    {
        let fine = self.begun & (self.count < 4);
        Numbers {
            bad: self.bad | !fine,
            begun: false,
            value: 0,
            count: one_more(self.count),
            a: self.b,
            b: self.c,
            c: self.d,
            d: self.value,
        }
    }

    fn next(self, b: u8) -> Numbers
        ensures { result ≡ byte_read self b }
    {
        if b == 32 {
            self.finish()
        } else {
            self.digit(b)
        }
    }
}

// The numbers in s from at on.
fn numbers_at(s: &[u8], at: usize) -> Numbers
    ensures { result ≡ numbers_of (drop at s.now) }
{
    let mut n = Numbers::none();
    for i in at..s.len() {
        n = n.next(s[i]);
    }
    n.finish()
}

fn line_with(w: Word, n: Numbers) -> Line
    ensures { result ≡ line_with w n }
{
    match w {
        Word::Site => Line::Site(n.b, n.c, n.d),
        Word::Elect => Line::Call(Call::Elect(n.d)),
        Word::Recover => Line::Call(Call::Recover(n.d)),
        Word::Collect => Line::Call(Call::Collect(n.d)),
        Word::Ready => Line::Call(Call::Ready(n.d)),
        Word::Offer => Line::Call(Call::Offer(n.b, n.c, n.d)),
        Word::Propose => Line::Call(Call::Propose(n.d)),
        Word::Agree => Line::Call(Call::Agree(n.d)),
        Word::Finish => Line::Call(Call::Finish(n.d)),
        Word::Heard => Line::Call(Call::Heard(n.d)),
        Word::Trim => Line::Call(Call::Trim(n.c, n.d)),
        Word::Stop => Line::Call(Call::Stop(n.d)),
        Word::Return => Line::Call(Call::Return(n.d)),
        Word::Timeout => Line::Call(Call::Timeout(n.d)),
        Word::Lose => Line::Call(Call::Lose(n.c, n.d)),
        Word::Repeat => Line::Call(Call::Repeat(n.c, n.d)),
        Word::Mail => Line::Call(Call::Deliver(n.c, n.d)),
        Word::Holds => Line::Holds(n.a, n.b, n.c, n.d),
        Word::Other => Line::Unreadable,
    }
}

fn line_of(w: Word, n: Numbers) -> Line
    ensures { result ≡ line_of w n }
{
    let k = arity(w);
    if n.bad | (n.count != k) {
        return Line::Unreadable;
    }
    line_with(w, n)
}

// What a line says, for every line.
pub fn read_line(s: &[u8]) -> Line
    ensures { result ≡ read_line s.now }
{
    if 64 < s.len() {
        return Line::Unreadable;
    }
    let w = word_at(s);
    let n = numbers_at(s, width(w));
    line_of(w, n)
}

fn one_of(n: Numbers) -> Option<u32>
    ensures { result ≡ one_of n }
{
    if n.bad | (n.count != 1) {
        return None;
    }
    Some(n.d)
}

// The one number after the word w, which has its space, for every text.
pub fn read_one(w: &[u8], s: &[u8]) -> Option<u32>
    ensures { result ≡ read_one w.now s.now }
{
    if (64 < s.len()) | !starts(w, s) {
        return None;
    }
    one_of(numbers_at(s, w.len()))
}

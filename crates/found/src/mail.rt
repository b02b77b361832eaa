// The mail's body: links by sender then receiver, each a count and its mails.
ghost use Rattle.std.specs.Prelude.{◌≡◌, ◌+◌, ◌*◌, ◌≤◌};
ghost use Rattle.rules.specs.Sizes.{most_boxes, most_mails};
ghost use Rattle.found.specs.Stands.{missing};
ghost use Rattle.found.specs.Found.{
  number_in,
  records_way,
  enclosed_way,
  letter_way,
  link_way,
  pair_way,
  sender_way,
  mail_found,
  walk_on,
};
ghost use Rattle.found.specs.Near.{
  farthest,
  mail_stride,
  link_stride,
  sender_stride,
  Within,
};

use crate::Spot;
use crate::general::ended;
use crate::records::leading;
use crate::stands::{number_at, read_groups};
use rules::model::Kind;
use words::size;

// The load number of a mail's first record.
fn number_in(k: Kind, first: u64, last: u64) -> u64
    requires { last ≤ missing }
    ensures { result ≡ number_in k first last }
{
    let next = last + 1;
    match k {
        Kind::Collect => first,
        Kind::Last => first,
        Kind::Begin => next,
        Kind::Accept => first,
        Kind::Commit => first,
        Kind::Lease => first,
        Kind::LeaseAck => first,
    }
}

// Of count records from `at` on, the first m are proper.
fn records_way(
    a: u64,
    b: u64,
    i: u64,
    at: usize,
    first: u64,
    count: u64,
    m: u64,
) -> Result<usize, Spot>
    requires { (at ≤ farthest) × (first ≤ missing + 1) × (count ≤ missing) × (m ≤ count) }
    ensures value { result ≡ records_way a b i at first count m }
    ensures within { Within (at + 8 * missing) result }
{
    if count <= m {
        return Ok(at + 8 * size(count));
    }
    Err(Spot::MailRecord(a, b, i, first + m))
}

// The records of mail i, which stand from p on.
fn walk_enclosed(
    src: &[u8],
    at: usize,
    p: usize,
    kind: Kind,
    a: u64,
    b: u64,
    i: u64,
) -> Result<usize, Spot>
    requires { (at + 20 ≤ p) × (p ≤ farthest) }
    ensures value { result ≡ enclosed_way a b i kind src.now at p }
    ensures within { Within (p + 8 * missing) result }
{
    let last = number_at(src, at + 8);
    let first = number_at(src, at + 12);
    let number = number_in(kind, first, last);
    let count = number_at(src, p - 4);
    let m = leading(src, p, count);
    records_way(a, b, i, p, number, count, m)
}

// Mail i of the link from a to b.
fn walk_letter(src: &[u8], at: usize, j: u32, a: u64, b: u64, i: u64) -> Result<usize, Spot>
    requires { at + mail_stride ≤ farthest }
    ensures value { result ≡ letter_way j a b src.now i at }
    ensures within { Within (at + mail_stride) result }
{
    let kind = letter::kind_of(number_at(src, at));
    let p = at + image::letter_head_bytes(kind);
    let groups = image::letter_groups(kind);
    let mut w = [0u64; letter::HEAD];
    read_groups(src, at, &groups, &mut w);
    let f = letter::head_fault(&w, j);
    match f {
        None => walk_enclosed(src, at, p, kind, a, b, i),
        Some(x) => Err(Spot::Mail(a, b, i, x)),
    }
}

// Its mails, as many as count.
fn walk_letters(src: &[u8], at: usize, j: u32, count: u64, a: u64, b: u64) -> Result<usize, Spot>
    requires { (count ≤ most_mails) × (at + mail_stride * most_mails ≤ farthest) }
    ensures value { result ≡ walk_on (letter_way j a b src.now) count 1 at }
    ensures within { Within (at + mail_stride * most_mails) result }
{
    let mut p = at;
    for i in 0..count {
        p = walk_letter(src, p, j, a, b, i + 1)?;
    }
    Ok(p)
}

// The link from a to b, of at most l mails.
fn walk_link(src: &[u8], at: usize, j: u32, l: u64, a: u64, b: u64) -> Result<usize, Spot>
    requires { (l ≤ most_mails) × (at + link_stride ≤ farthest) }
    ensures value { result ≡ link_way j l a b src.now at }
    ensures within { Within (at + link_stride) result }
{
    let count = number_at(src, at);
    if count <= l {
        return walk_letters(src, at + 4, j, count, a, b);
    }
    Err(Spot::Link(a, b))
}

// No link leads from a box to itself.
fn walk_pair(src: &[u8], at: usize, j: u32, l: u64, a: u64, b: u64) -> Result<usize, Spot>
    requires { (l ≤ most_mails) × (at + link_stride ≤ farthest) }
    ensures value { result ≡ pair_way j l a src.now b at }
    ensures within { Within (at + link_stride) result }
{
    if a == b {
        return Ok(at);
    }
    walk_link(src, at, j, l, a, b)
}

// The links of sender a.
fn walk_sender(src: &[u8], at: usize, n: u64, j: u32, l: u64, a: u64) -> Result<usize, Spot>
    requires { (n ≤ most_boxes) × (l ≤ most_mails) × (at + sender_stride ≤ farthest) }
    ensures value { result ≡ sender_way n j l src.now a at }
    ensures within { Within (at + sender_stride) result }
{
    let mut p = at;
    for i in 0..n {
        p = walk_pair(src, p, j, l, a, i + 1)?;
    }
    Ok(p)
}

// The links of every sender.
fn walk_senders(src: &[u8], n: u64, j: u32, l: u64) -> Result<usize, Spot>
    requires { (n ≤ most_boxes) × (l ≤ most_mails) }
    ensures { result ≡ walk_on (sender_way n j l src.now) n 1 0 }
{
    let mut p = 0;
    for i in 0..n {
        p = walk_sender(src, p, n, j, l, i + 1)?;
    }
    Ok(p)
}

pub fn mail_found(body: &[u8], n: u32, j: u32, l: u64) -> Result<(), Spot>
    requires { (n ≤ most_boxes) × (l ≤ most_mails) }
    ensures { result ≡ mail_found n j l body.now }
{
    let q = walk_senders(body, n as u64, j, l)?;
    ended(body, q)
}

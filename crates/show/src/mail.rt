// The mail in words: each link, by sender then receiver, and its mails.
use crate::fields::Body;
use std::io::{Result, Write};

fn kind_name(x: u64) -> &'static str {
    match x {
        1 => "Collect",
        2 => "Last",
        3 => "Begin",
        4 => "Accept",
        5 => "Commit",
        6 => "Lease",
        _ => "LeaseAck",
    }
}

// "Last, Commit and Begin carry the sender's first".
fn has_first(kind: u64) -> bool {
    matches!(kind, 2 | 3 | 5)
}

// The load number of a mail's first record: a Begin has number last+1, the others those from first
// on.
fn first_record(kind: u64, last: u64, first: u64) -> u64 {
    if kind == 3 {
        last.wrapping_add(1)
    } else {
        first
    }
}

// Mail i of a link.
fn put_mail<W: Write>(to: &mut W, body: &mut Body, i: u64) -> Result<()> {
    let kind = body.number();
    let name = kind_name(kind);
    let pn = body.number();
    let last = body.number();
    write!(to, "mail {i}: {name} pn {pn} last {last}")?;
    let mut k = 0;
    if has_first(kind) {
        let first = body.number();
        write!(to, " first {first}")?;
        k = first_record(kind, last, first);
    }
    let unagreed = body.number();
    let count = body.number();
    write!(to, " unagreed pn {unagreed} records {count}\n")?;
    body.put_records(to, k, count)
}

// The link from a to b.
fn put_link<W: Write>(to: &mut W, body: &mut Body, a: u64, b: u64) -> Result<()> {
    let count = body.number();
    write!(to, "link {a} {b}, mails {count}\n")?;
    for i in 0..count {
        put_mail(to, body, i.wrapping_add(1))?;
    }
    Ok(())
}

// The links of n boxes, at most 5; none from a box to itself.
pub(crate) fn put_all<W: Write>(to: &mut W, bytes: &[u8], n: u64) -> Result<()> {
    let mut body = Body::of(bytes);
    for a in 1..n.min(5) + 1 {
        for b in 1..n.min(5) + 1 {
            if a != b {
                put_link(to, &mut body, a, b)?;
            }
        }
    }
    Ok(())
}

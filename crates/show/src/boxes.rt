// The general body and a box's body in words.
use crate::fields::{Body, Boxes};
use std::io::{Result, Write};

pub(crate) fn put_general<W: Write>(to: &mut W, bytes: &[u8]) -> Result<()> {
    let mut body = Body::of(bytes);
    let n = body.number();
    let j = body.number();
    let l = body.number();
    let epoch = body.number();
    let present = Boxes(body.number());
    write!(to, "n {n}\nJ {j}\nL {l}\nepoch {epoch}\npresent{present}\n")
}

fn flag_name(x: u64) -> &'static str {
    match x {
        0 => "no",
        _ => "yes",
    }
}

fn state_name(x: u64) -> &'static str {
    match x {
        0 => "Recovering",
        1 => "Active",
        2 => "Updating",
        3 => "UpdatingPrevious",
        _ => "Refresh",
    }
}

fn phase_name(x: u64) -> &'static str {
    match x {
        0 => "Election",
        1 => "SendCollect",
        2 => "Collect",
        3 => "Lease",
        4 => "Begin",
        5 => "Commit",
        _ => "LeaseDone",
    }
}

fn put_role<W: Write>(to: &mut W, body: &mut Body) -> Result<()> {
    let leads = flag_name(body.number());
    let state = state_name(body.number());
    let phase = phase_name(body.number());
    write!(to, "leader {leads}\nstate {state}\nphase {phase}\n")
}

// What outlives a stop; the first kept number is told again where the records are.
fn put_kept<W: Write>(to: &mut W, body: &mut Body) -> Result<u64> {
    let pn = body.number();
    let last = body.number();
    let first = body.number();
    write!(to, "promised pn {pn}\nlast {last}\nfirst {first}\n")?;
    let pn = body.number();
    let number = body.number();
    write!(to, "stored pn {pn}\nstored number {number}\n")?;
    Ok(first)
}

// The records are told before the sets, which stand in front of them.
fn put_best_and_sets<W: Write>(to: &mut W, body: &mut Body) -> Result<()> {
    let pn = body.number();
    let number = body.number();
    write!(to, "best unagreed pn {pn}\nbest unagreed number {number}\n")?;
    let answered = Boxes(body.number());
    let accepts = Boxes(body.number());
    let heard = Boxes(body.number());
    let best = body.record();
    let waiting = body.record();
    let agreeing = body.record();
    write!(to, "best unagreed record {best}\nwaiting offer {waiting}\n")?;
    write!(to, "record being agreed {agreeing}\n")?;
    write!(to, "replies{answered}\naccept set{accepts}\nheard{heard}\n")
}

fn put_peers<W: Write>(to: &mut W, body: &mut Body, n: u64) -> Result<()> {
    for k in 1..n.min(5) + 1 {
        match body.number() {
            row::UNKNOWN => write!(to, "peer {k} last unknown\n")?,
            last => write!(to, "peer {k} last {last}\n")?,
        }
    }
    Ok(())
}

// A box of n, which is at most 5.
pub(crate) fn put_box<W: Write>(to: &mut W, bytes: &[u8], n: u64) -> Result<()> {
    let mut body = Body::of(bytes);
    put_role(to, &mut body)?;
    let first = put_kept(to, &mut body)?;
    put_best_and_sets(to, &mut body)?;
    put_peers(to, &mut body, n)?;
    let count = body.number();
    write!(to, "records held {count}\n")?;
    body.put_records(to, first, count)
}

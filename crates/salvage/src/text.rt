// What is found, in words.
ghost use Rattle.std.specs.Prelude.{◌++◌, ◌+◌, ◌≤◌, length};
ghost use Rattle.rules.specs.Sizes.{most_boxes, most_number};
ghost use Rattle.print.specs.Bytes.{bytes};
ghost use Rattle.print.specs.Decimal.{decimal};
ghost use Rattle.print.specs.Text.{Wrote};
ghost use Rattle.salvage.specs.Loads.{record_text, differs_text};
ghost use Rattle.salvage.specs.Tally.{tally_text};
ghost use Rattle.salvage.specs.Block.{
  field_text,
  link_text,
  mail_text,
  spot_text,
  found_text,
  general_line,
  box_line,
  mail_line,
};

use crate::loads::Tally;
use found::Spot;
use print::{put_byte, put_bytes, put_decimal};
use values::Field;

fn put_peer(out: &mut [u8], at: usize, k: u32) -> usize
    requires { at + 24 ≤ length out.old }
    ensures { Wrote 24 out.old out.new at result (bytes "peer" ++ decimal k) }
{
    let p = put_bytes(out, at, b"peer");
    put_decimal(out, p, k as u64)
}

fn put_field(out: &mut [u8], at: usize, f: Field) -> usize
    requires { at + 24 ≤ length out.old }
    ensures { Wrote 24 out.old out.new at result (field_text f) }
{
    match f {
        Field::Flag => put_bytes(out, at, b"flag"),
        Field::State => put_bytes(out, at, b"state"),
        Field::Phase => put_bytes(out, at, b"phase"),
        Field::Kind => put_bytes(out, at, b"kind"),
        Field::Pn => put_bytes(out, at, b"pn"),
        Field::Last => put_bytes(out, at, b"last"),
        Field::First => put_bytes(out, at, b"first"),
        Field::StoredPn => put_bytes(out, at, b"stored-pn"),
        Field::StoredNumber => put_bytes(out, at, b"stored-number"),
        Field::BestPn => put_bytes(out, at, b"best-pn"),
        Field::BestNumber => put_bytes(out, at, b"best-number"),
        Field::Answered => put_bytes(out, at, b"answered"),
        Field::Accepts => put_bytes(out, at, b"accept-set"),
        Field::Heard => put_bytes(out, at, b"heard-set"),
        Field::Best => put_bytes(out, at, b"best"),
        Field::Waiting => put_bytes(out, at, b"waiting"),
        Field::Agreeing => put_bytes(out, at, b"being-agreed"),
        Field::Peer(k) => put_peer(out, at, k),
        Field::Unagreed => put_bytes(out, at, b"unagreed-pn"),
        Field::Count => put_bytes(out, at, b"count"),
    }
}

// `recordK`
fn put_record(out: &mut [u8], at: usize, k: u64) -> usize
    requires { at + 26 ≤ length out.old }
    ensures { Wrote 26 out.old out.new at result (bytes "record" ++ decimal k) }
{
    let p = put_bytes(out, at, b"record");
    put_decimal(out, p, k)
}

// `A-B.`
fn put_link(out: &mut [u8], at: usize, a: u64, b: u64) -> usize
    requires { at + 42 ≤ length out.old }
    ensures { Wrote 42 out.old out.new at result (link_text a b) }
{
    let p = put_decimal(out, at, a);
    let p = put_byte(out, p, 45);
    let p = put_decimal(out, p, b);
    put_byte(out, p, 46)
}

// `A-B.count`
fn put_count(out: &mut [u8], at: usize, a: u64, b: u64) -> usize
    requires { at + 47 ≤ length out.old }
    ensures { Wrote 47 out.old out.new at result (link_text a b ++ bytes "count") }
{
    let p = put_link(out, at, a, b);
    put_bytes(out, p, b"count")
}

// `A-B.mailI.`
fn put_mail(out: &mut [u8], at: usize, a: u64, b: u64, i: u64) -> usize
    requires { at + 67 ≤ length out.old }
    ensures { Wrote 67 out.old out.new at result (mail_text a b i) }
{
    let p = put_link(out, at, a, b);
    let p = put_bytes(out, p, b"mail");
    let p = put_decimal(out, p, i);
    put_byte(out, p, 46)
}

fn put_mail_field(out: &mut [u8], at: usize, a: u64, b: u64, i: u64, f: Field) -> usize
    requires { at + 91 ≤ length out.old }
    ensures { Wrote 91 out.old out.new at result (mail_text a b i ++ field_text f) }
{
    let p = put_mail(out, at, a, b, i);
    put_field(out, p, f)
}

fn put_mail_record(out: &mut [u8], at: usize, a: u64, b: u64, i: u64, k: u64) -> usize
    requires { at + 93 ≤ length out.old }
    ensures { Wrote 93 out.old out.new at result
        (mail_text a b i ++ (bytes "record" ++ decimal k)) }
{
    let p = put_mail(out, at, a, b, i);
    put_record(out, p, k)
}

fn put_spot(out: &mut [u8], at: usize, s: Spot) -> usize
    requires { at + 93 ≤ length out.old }
    ensures { Wrote 93 out.old out.new at result (spot_text s) }
{
    match s {
        Spot::N => put_bytes(out, at, b"n"),
        Spot::J => put_bytes(out, at, b"J"),
        Spot::L => put_bytes(out, at, b"L"),
        Spot::Epoch => put_bytes(out, at, b"epoch"),
        Spot::Present => put_bytes(out, at, b"present"),
        Spot::At(f) => put_field(out, at, f),
        Spot::Record(k) => put_record(out, at, k),
        Spot::Link(a, b) => put_count(out, at, a, b),
        Spot::Mail(a, b, i, f) => put_mail_field(out, at, a, b, i, f),
        Spot::MailRecord(a, b, i, k) => put_mail_record(out, at, a, b, i, k),
        Spot::Rest => put_bytes(out, at, b"rest"),
    }
}

fn put_aside(out: &mut [u8], at: usize, s: Spot) -> usize
    requires { at + 105 ≤ length out.old }
    ensures { Wrote 105 out.old out.new at result (found_text (Err s)) }
{
    let p = put_bytes(out, at, b" set aside ");
    let p = put_spot(out, p, s);
    put_byte(out, p, 10)
}

fn put_found(out: &mut [u8], at: usize, f: Result<(), Spot>) -> usize
    requires { at + 105 ≤ length out.old }
    ensures { Wrote 105 out.old out.new at result (found_text f) }
{
    match f {
        Ok(_) => put_bytes(out, at, b" kept\n"),
        Err(s) => put_aside(out, at, s),
    }
}

pub(crate) fn put_general(out: &mut [u8], at: usize, f: Result<(), Spot>) -> usize
    requires { at + 160 ≤ length out.old }
    ensures { Wrote 160 out.old out.new at result (general_line f) }
{
    let p = put_bytes(out, at, b"body 1 general");
    put_found(out, p, f)
}

// Box b.
pub(crate) fn put_box(out: &mut [u8], at: usize, b: u64, f: Result<(), Spot>) -> usize
    requires { (at + 160 ≤ length out.old) × (b ≤ 5) }
    ensures { Wrote 160 out.old out.new at result (box_line b f) }
{
    let p = put_bytes(out, at, b"body ");
    let p = put_decimal(out, p, b + 1);
    let p = put_bytes(out, p, b" box ");
    let p = put_decimal(out, p, b);
    put_found(out, p, f)
}

// The mail, body i.
pub(crate) fn put_mails(out: &mut [u8], at: usize, i: u64, f: Result<(), Spot>) -> usize
    requires { at + 160 ≤ length out.old }
    ensures { Wrote 160 out.old out.new at result (mail_line i f) }
{
    let p = put_bytes(out, at, b"body ");
    let p = put_decimal(out, p, i);
    let p = put_bytes(out, p, b" mail");
    put_found(out, p, f)
}

fn put_kept(out: &mut [u8], at: usize, k: u64, r: u64, many: u64) -> usize
    requires { (at + 89 ≤ length out.old) × (k ≤ most_number) × (many ≤ most_boxes) }
    ensures { Wrote 40 out.old out.new at result (record_text k r many) }
{
    let p = put_bytes(out, at, b"load ");
    let p = put_decimal(out, p, k);
    let p = print::put_next(out, p, r / 4294967296);
    let p = print::put_next(out, p, r % 4294967296);
    let p = print::put_next(out, p, many);
    put_byte(out, p, 10)
}

fn put_differs(out: &mut [u8], at: usize, k: u64) -> usize
    requires { (at + 89 ≤ length out.old) × (k ≤ most_number) }
    ensures { Wrote 40 out.old out.new at result (differs_text k) }
{
    let p = put_bytes(out, at, b"load ");
    let p = put_decimal(out, p, k);
    put_bytes(out, p, b" differs\n")
}

// What the boxes keep for number k: nothing where none of them does.
pub(crate) fn put_load(out: &mut [u8], at: usize, k: u64, t: Tally) -> usize
    requires { (at + 89 ≤ length out.old) × (k ≤ most_number) × (t.many ≤ most_boxes) }
    ensures { Wrote 40 out.old out.new at result (tally_text k t) }
{
    if t.many == 0 {
        return at;
    }
    if t.differs {
        return put_differs(out, at, k);
    }
    put_kept(out, at, k, t.value, t.many)
}

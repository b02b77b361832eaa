// The block of an image with a sound table: its bodies, then its loads.
ghost use Rattle.std.specs.Prelude.{◌≡◌, true, cond, ◌+◌, ◌-◌, ◌≤◌, length};
ghost use Rattle.rules.specs.Sizes.{most_boxes, most_number};
ghost use Rattle.print.specs.Text.{Wrote};
ghost use Rattle.found.specs.Found.{is_kept, box_found, mail_found};
ghost use Rattle.salvage.specs.Table.{sound, box_body_of, mail_body_of};
ghost use Rattle.salvage.specs.Loads.{loads_text};
ghost use Rattle.salvage.specs.Tally.{flagged};
ghost use Rattle.salvage.specs.Block.{mail_line, kept_text, most_text};
ghost use Rattle.salvage.specs.Put.{
  Sound,
  BoxesPut,
  MailAsked,
  BodiesAsked,
  BodiesPut,
  LoadsFit,
  most_lines,
};

use crate::loads::PAST;
use crate::table::body;
use crate::{loads, table, text};
use found::Spot;

// 1 where a body is kept.
fn flag(f: Result<(), Spot>) -> u64
    ensures { result ≡ cond (is_kept f) 1 0 }
{
    match f {
        Ok(_) => 1,
        Err(_) => 0,
    }
}

// What box b is.
fn look(image: &[u8], n: u32, j: u32, b: u32) -> Result<(), Spot>
    requires { Sound image.now n × (1 ≤ b) × (b ≤ n) }
    ensures { result ≡ box_found n j b (box_body_of image.now b) }
{
    found::box_found(body(image, b + 1), n, j, b)
}

// A line for each box; which of them are readable goes into kept.
fn put_boxes(image: &[u8], n: u32, j: u32, kept: &mut [u64], out: &mut [u8], at: usize) -> usize
    requires sound { Sound image.now n × (length kept.old ≡ most_boxes) }
    requires at_in_bounds { at + 960 ≤ length out.old }
    ensures { BoxesPut image.now n j kept.new out.old out.new
        at result }
{
    let mut p = at;
    for i in 0..n {
        let f = look(image, n, j, i + 1);
        kept[i as usize] = flag(f);
        p = text::put_box(out, p, i as u64 + 1, f);
    }
    p
}

// The mail, body `count`.
fn put_mail(image: &[u8], count: usize, j: u32, l: u64, out: &mut [u8], at: usize) -> usize
    requires { MailAsked image.now count j l out.old at }
    ensures { Wrote 160 out.old out.new at result
        (mail_line count (mail_found (count - 2) j l (mail_body_of image.now))) }
{
    let n = (count - 2) as u32;
    let f = found::mail_found(body(image, count as u32), n, j, l);
    text::put_mails(out, at, words::word(count), f)
}

// The lines of all bodies; which boxes are readable goes into kept.
fn put_bodies(image: &[u8], count: usize, kept: &mut [u64], out: &mut [u8]) -> usize
    requires { BodiesAsked image.now count kept.old out.old }
    ensures { BodiesPut image.now kept.new out.old out.new
        result }
{
    let n = (count - 2) as u32;
    let general = body(image, 1);
    let j = found::loads_of(general, n);
    let l = found::mails_of(general, n);
    let p = text::put_general(out, 0, found::general_found(general, n));
    let p = put_boxes(image, n, j, kept, out, p);
    put_mail(image, count, j, l, out, p)
}

// A line for each number that a readable box keeps as agreed.
fn put_loads(image: &[u8], n: usize, kept: &[u64], out: &mut [u8], at: usize) -> usize
    requires loads_fit { LoadsFit image.now n kept.now }
    requires most_lines_in_bounds { at + (most_lines + 100) ≤ length out.old }
    ensures { Wrote most_lines out.old out.new at result
        (loads_text (flagged kept.now) image.now n most_number 1) }
{
    let mut p = at;
    // No `for`: the next k is the one behind the number that was found.
    let mut k: u64 = 1;
    while k < PAST {
        let q = loads::next_number(image, kept, n, k);
        if PAST <= q {
            return p;
        }
        let t = loads::kept_by(image, kept, n, q);
        p = text::put_load(out, p, q, t);
        k = q + 1;
    }
    p
}

// The whole block.
pub(crate) fn put_block(image: &[u8], out: &mut [u8]) -> usize
    requires { (sound image.now ≡ true) × (most_text ≤ length out.old) }
    ensures { Wrote most_text out.old out.new 0 result
        (kept_text image.now) }
{
    let count = table::count_of(image);
    let mut kept = [0u64; 5];
    let p = put_bodies(image, count, &mut kept, out);
    let p = put_loads(image, count - 2, &kept, out, p);
    print::put_bytes(out, p, b".\n")
}

// The general body: n, J, L, epoch, present set.
ghost use Rattle.std.specs.Prelude.{◌≡◌, ◌≤◌};
ghost use Rattle.rules.specs.Sizes.{most_boxes, most_loads, most_mails};
ghost use Rattle.found.specs.Found.{
  end_found,
  general_found,
  loads_of,
  mails_of,
  unless as unless_of,
};

use crate::Spot;
use crate::stands::number_at;

pub const MOST_LOADS: u32 = 4096;

pub const MOST_MAILS: u64 = 16;

// A field that is by form leaves what is found behind it.
pub fn unless(formed: bool, s: Spot, behind: Result<(), Spot>) -> Result<(), Spot>
    ensures { result ≡ unless_of formed s behind }
{
    if formed { behind } else { Err(s) }
}

// The body ends at `at`, or has bytes left over.
pub fn ended(body: &[u8], at: usize) -> Result<(), Spot>
    ensures { result ≡ end_found body.now at }
{
    unless(at == body.len(), Spot::Rest, Ok(()))
}

pub fn general_found(body: &[u8], n: u32) -> Result<(), Spot>
    requires { n ≤ most_boxes }
    ensures { result ≡ general_found n body.now }
{
    let boxes = number_at(body, 0);
    let loads = number_at(body, 4);
    let mails = number_at(body, 8);
    let epoch = number_at(body, 12);
    let present = values::is_set(n, number_at(body, 16));
    let f = ended(body, image::GENERAL_BYTES);
    let f = unless(present, Spot::Present, f);
    let f = unless((1 <= epoch) & (epoch <= 1000000), Spot::Epoch, f);
    let f = unless((1 <= mails) & (mails <= 16), Spot::L, f);
    let f = unless((1 <= loads) & (loads <= 4096), Spot::J, f);
    unless(boxes == n as u64, Spot::N, f)
}

// J, or the largest where the body is set aside.
pub fn loads_of(body: &[u8], n: u32) -> u32
    requires { n ≤ most_boxes }
    ensures value { result ≡ loads_of n body.now }
    ensures upper_bound { result ≤ most_loads }
{
    let f = general_found(body, n);
    let loads = number_at(body, 4);
    if f.is_ok() {
        return values::number(loads);
    }
    MOST_LOADS
}

// L, or the largest where the body is set aside.
pub fn mails_of(body: &[u8], n: u32) -> u64
    requires { n ≤ most_boxes }
    ensures value { result ≡ mails_of n body.now }
    ensures upper_bound { result ≤ most_mails }
{
    let f = general_found(body, n);
    if f.is_ok() {
        return number_at(body, 8);
    }
    MOST_MAILS
}

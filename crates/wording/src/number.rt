// A refusal's number, read back from the text of an answer.
ghost use Rattle.std.specs.Prelude.{◌≡◌, ◌-◌};
ghost use Rattle.rules.specs.Pick.{pick};
ghost use Rattle.wording.specs.Number.{from_end, code_of};

// The byte that stands k places before the end, 0 where there is none.
fn from_end(s: &[u8], k: usize) -> u8
    ensures { result ≡ from_end s.now k }
{
    let n = s.len();
    if n < k {
        return 0;
    }
    if k == 0 {
        return 0;
    }
    s[n - k]
}

fn digit(b: u8) -> u64
    ensures { result ≡ b - 48 }
{
    if b < 48 {
        return 0;
    }
    (b - 48) as u64
}

fn choose(t: bool, a: u64, b: u64) -> u64
    ensures { result ≡ pick t a b }
{
    if t { a } else { b }
}

// The number of one or two digits before the newline that ends s.
pub fn code(s: &[u8]) -> u64
    ensures { result ≡ code_of s.now }
{
    let tens = from_end(s, 3);
    let ones = digit(from_end(s, 2));
    choose((47 < tens) & (tens < 58), digit(tens) * 10 + ones, ones)
}

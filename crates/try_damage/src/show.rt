// What is written of an image.
use crate::count::Count;

// Bytes by the kit's io, as every program here writes; `Display` needs a handle and is no plainer.
const STDOUT: i32 = 1;

pub(crate) fn text(s: &[u8]) {
    io::write_all(STDOUT, s);
}

fn number(x: u64, what: &[u8]) {
    io::print_decimal(STDOUT, x);
    text(what);
}

// One part: how often each came of it.
pub(crate) fn part(name: &[u8], c: Count) {
    text(name);
    number(c.tried, b" tried, ");
    number(c.form, b" refused 1, ");
    number(c.short, b" refused 12, ");
    number(c.done, b" done, ");
    number(c.wrong, b" WRONG\n");
}

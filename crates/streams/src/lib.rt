// Reading, writing and reporting that do not fail silently, for the programs.
//
// A call that a signal interrupts is made again, and so is one on a stream that does not wait, a
// moment later. Any other failure is the caller's to tell, by the error that the call left. The
// contracts say what a stream over memory gives and takes; none can say what the system's do: at
// those these functions are proved safe and to end.
#![tactic(auto)]

mod again;
pub mod buffer;
mod fault;
mod host;
mod status;
#[cfg(test)]
mod tests;
mod wait;

ghost use Rattle.std.specs.Prelude.{OnOk};
ghost use Rattle.std.specs.Io.{ReadsAtMost, WritesAtMost};
ghost use Rattle.std.specs.Io.KnownBytes.{Appends, ReadConsumes, WriteAppends};

pub use again::open_input_again;
pub use fault::fail;
pub use host::{
    Streams, has_argument, open_to_keep, open_to_write, read_input, report, report_if_asked,
    write_errors, write_output,
};
pub use status::Status;
use std::io::{Error, ErrorKind, Read, Result, Write};
use std::time::Clock;

// Whether a call that failed is to be made again, after a moment's wait where it asks for one.
fn goes_on<C: Clock>(clock: &C, error: &Error) -> bool {
    match error.kind() {
        ErrorKind::Interrupted => true,
        ErrorKind::WouldBlock => {
            wait::moment(clock);
            true
        }
        _ => false,
    }
}

// One write of buf, and how many of its bytes were taken.
fn put<C: Clock, W: Write>(clock: &C, to: &mut W, buf: &[u8]) -> Result<usize>
    ensures bound { WritesAtMost result buf.now }
    ensures bytes { WriteAppends (W.contents to.old) (W.contents to.new) result buf.now }
{
    for _ in 0..u64::MAX {
        match to.write(buf) {
            Err(error) if goes_on(clock, &error) => {}
            taken => return taken,
        }
    }
    Err(Error::from(ErrorKind::TimedOut))
}

// Writes all of buf, or tells why not: a write failed or took nothing. No `for`: it goes on behind
// what was taken.
pub fn send<C: Clock, W: Write>(clock: &C, to: &mut W, buf: &[u8]) -> Result<()>
    ensures { OnOk result (Appends (W.contents to.old) (W.contents to.new) buf.now) }
{
    let mut i = 0;
    while i < buf.len() {
        let n = put(clock, to, &buf[i..])?;
        if n == 0 {
            return Err(Error::from(ErrorKind::WriteZero));
        }
        i += n;
    }
    Ok(())
}

// One read into the front of buf, and how many bytes it gave: none is the end of the input.
pub fn receive<C: Clock, R: Read>(clock: &C, from: &mut R, buf: &mut [u8]) -> Result<usize>
    ensures bound { ReadsAtMost result buf.new }
    ensures bytes { ReadConsumes (R.remaining from.old) (R.remaining from.new) result buf.new }
{
    for _ in 0..u64::MAX {
        match from.read(buf) {
            Err(error) if goes_on(clock, &error) => {}
            given => return given,
        }
    }
    Err(Error::from(ErrorKind::TimedOut))
}

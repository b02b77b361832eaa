// The system's streams, arguments and descriptors.
ghost use Rattle.std.specs.Io.{ReadsAtMost};

use crate::{Status, receive, send};
use std::env::Env;
use std::fs::OpenOptions;
use std::io;
use std::io::{Error, ErrorKind, Input, Result, Write};
use std::rt::Files;
use std::time::Clock;

// EBADF, "Bad file descriptor".
const CLOSED: i32 = 9;

// What a program reads, writes and asks: standard input and output, standard error, its arguments,
// files and the clock.
pub trait Streams: Input + Print + Env + Files + Clock {
    type Errors: Write + Drop;

    // Standard error.
    fn errors(&self) -> Self::Errors;
}

impl Streams for HostRuntime {
    type Errors = io::Stderr;

    fn errors(&self) -> io::Stderr {
        self.stderr()
    }
}

// One read of standard input into the front of buf, and how many bytes it gave: none is its end.
pub fn read_input<S: Streams>(rt: &S, buf: &mut [u8]) -> Result<usize>
    ensures { ReadsAtMost result buf.new }
{
    let mut from = rt.reader();
    receive(rt, &mut from, buf)
}

// Writes all of buf to standard output.
pub fn write_output<S: Streams>(rt: &S, buf: &[u8]) -> Result<()> {
    let mut to = io::writer(rt);
    send(rt, &mut to, buf)
}

// Writes all of buf to standard error; a failure there is told nowhere.
pub fn write_errors<S: Streams>(rt: &S, buf: &[u8]) {
    let mut to = rt.errors();
    let _ = send(rt, &mut to, buf);
}

// A descriptor has a path in /proc as long as it is open: where there is none, the failure is told
// as the system tells that of a descriptor that is not open.
pub(crate) fn of_descriptor(error: Error) -> Error {
    if error.kind() == ErrorKind::NotFound {
        return Error::from_raw_os_error(CLOSED);
    }
    error
}

// The descriptor at this path, `/proc/self/fd/N`, to write behind what is there.
pub fn open_to_write<S: Streams>(rt: &S, path: &str) -> Result<S::File> {
    OpenOptions::new()
        .append(true)
        .open(rt, path)
        .map_err(of_descriptor)
}

// The descriptor at this path, from its front on, to write and to read again.
pub fn open_to_keep<S: Streams>(rt: &S, path: &str) -> Result<S::File> {
    OpenOptions::new()
        .read(true)
        .write(true)
        .open(rt, path)
        .map_err(of_descriptor)
}

// The digit of a status, to descriptor 3; nothing where there is no such digit.
pub fn report<S: Streams>(rt: &S, status: u8) {
    if status < 10 {
        if let Ok(mut to) = open_to_write(rt, "/proc/self/fd/3") {
            let _ = send(rt, &mut to, &[b'0' + status]);
        }
    }
}

// The program's argument i is this word, of at most 32 bytes.
pub fn has_argument<S: Streams>(rt: &S, i: usize, word: &[u8]) -> bool {
    let mut text = [0u8; 32];
    match rt.arg(i, &mut text) {
        Ok(n) => &text[..n] == word,
        Err(_) => false,
    }
}

// The status goes to descriptor 3 where argument 1 is `report`.
pub fn report_if_asked<S: Streams>(rt: &S, status: Status) {
    if has_argument(rt, 1, b"report") {
        report(rt, u8::from(status));
    }
}

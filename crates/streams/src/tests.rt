// Streams over memory that halt and fail as the system's do.
use crate::{receive, send};
use std::io::{Error, ErrorKind, Read, Result, Write};

// Gives the bytes a, b and c, one a read, each after a read that a signal interrupts and one that
// would wait; then it fails, or ends.
#[derive(Drop)]
struct Halting {
    reads: u8,
    fails: bool,
}

impl Read for Halting {
    fn read(&mut self, buf: &mut [u8]) -> Result<usize> {
        if buf.is_empty() {
            return Ok(0);
        }
        let k = self.reads;
        self.reads = k.saturating_add(1);
        match k {
            0 | 3 | 6 => Err(Error::from(ErrorKind::Interrupted)),
            1 | 4 | 7 => Err(Error::from(ErrorKind::WouldBlock)),
            2 => {
                buf[0] = b'a';
                Ok(1)
            }
            5 => {
                buf[0] = b'b';
                Ok(1)
            }
            8 => {
                buf[0] = b'c';
                Ok(1)
            }
            _ => {
                if self.fails {
                    return Err(Error::from(ErrorKind::BrokenPipe));
                }
                Ok(0)
            }
        }
    }
}

// Takes two bytes a write, each after a write that a signal interrupts; so many in all, and then
// none or, where it is to, it fails.
#[derive(Drop)]
struct Narrow {
    taken: [u8; 8],
    at: usize,
    room: usize,
    halted: bool,
    fails: bool,
}

fn narrow_with(room: usize, fails: bool) -> Narrow {
    Narrow {
        taken: [0; 8],
        at: 0,
        room,
        halted: false,
        fails,
    }
}

impl Write for Narrow {
    fn write(&mut self, buf: &[u8]) -> Result<usize> {
        self.halted = !self.halted;
        if self.halted {
            return Err(Error::from(ErrorKind::Interrupted));
        }
        let mut n = 0;
        for b in buf {
            if n == 2 || self.at >= self.room || self.at >= 8 {
                break;
            }
            self.taken[self.at] = *b;
            self.at += 1;
            n += 1;
        }
        if n == 0 && self.fails {
            return Err(Error::from(ErrorKind::BrokenPipe));
        }
        Ok(n)
    }

    fn flush(&mut self) -> Result<()> {
        Ok(())
    }
}

fn first(got: Result<usize>, buf: &[u8]) -> Option<u8> {
    match got {
        Ok(1) => buf.first().copied(),
        _ => None,
    }
}

#[test]
fn a_halting_read_goes_on_to_its_end(rt: HostRuntime) {
    let mut from = Halting {
        reads: 0,
        fails: false,
    };
    let mut buf = [0u8; 4];
    let got = receive(&rt, &mut from, &mut buf);
    assert_eq!(rt; first(got, &buf), Some(b'a'));
    let got = receive(&rt, &mut from, &mut buf);
    assert_eq!(rt; first(got, &buf), Some(b'b'));
    let got = receive(&rt, &mut from, &mut buf);
    assert_eq!(rt; first(got, &buf), Some(b'c'));
    assert_eq!(rt; receive(&rt, &mut from, &mut buf).ok(), Some(0));
}

#[test]
fn a_failing_read_is_told(rt: HostRuntime) {
    let mut from = Halting {
        reads: 6,
        fails: true,
    };
    let mut buf = [0u8; 4];
    let got = receive(&rt, &mut from, &mut buf);
    assert_eq!(rt; first(got, &buf), Some(b'c'));
    assert_eq!(rt;
        receive(&rt, &mut from, &mut buf)
            .err()
            .map(|error| error.kind()),
        Some(ErrorKind::BrokenPipe)
    );
}

#[test]
fn a_halting_write_takes_all(rt: HostRuntime) -> Result<()> {
    let mut to = narrow_with(8, true);
    send(&rt, &mut to, b"abcde")?;
    assert_eq!(rt; to.at, 5);
    assert_eq!(rt; &to.taken[..5], b"abcde".as_slice());
    Ok(())
}

#[test]
fn a_failing_write_is_told(rt: HostRuntime) {
    let mut to = narrow_with(3, true);
    let kind = send(&rt, &mut to, b"abcde").err().map(|error| error.kind());
    assert_eq!(rt; kind, Some(ErrorKind::BrokenPipe));
}

#[test]
fn a_write_that_takes_nothing_is_told(rt: HostRuntime) {
    let mut to = narrow_with(3, false);
    let kind = send(&rt, &mut to, b"abcde").err().map(|error| error.kind());
    assert_eq!(rt; kind, Some(ErrorKind::WriteZero));
}

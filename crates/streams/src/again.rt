// Standard input opened anew, to be read a second time.
use crate::host::{Streams, of_descriptor};
use crate::receive;
use std::fs::OpenOptions;
use std::io::{Error, ErrorKind, Result, Seek, SeekFrom};

// The number of the first line, `pos:` and a number.
fn place_of(text: &[u8]) -> u64 {
    let mut place: u64 = 0;
    for b in text {
        match b {
            b'\n' => return place,
            b'0'..=b'9' => place = place.saturating_mul(10).saturating_add((b - b'0') as u64),
            _ => {}
        }
    }
    place
}

// How much of it has been read.
fn input_place<S: Streams>(rt: &S) -> Result<u64> {
    let mut text = [0u8; 64];
    let mut from = OpenOptions::new()
        .read(true)
        .open(rt, "/proc/self/fdinfo/0")?;
    match receive(rt, &mut from, &mut text)? {
        0 => Err(Error::from(ErrorKind::UnexpectedEof)),
        n => Ok(place_of(&text[..n])),
    }
}

fn open_at<S: Streams>(rt: &S) -> Result<S::File> {
    let place = input_place(rt)?;
    let mut file = OpenOptions::new().read(true).open(rt, "/proc/self/fd/0")?;
    file.seek(SeekFrom::Start(place))?;
    Ok(file)
}

// The file that standard input is, opened anew at the place where it is to be read next: what is
// read of the one moves the other on by nothing. Fails where that is no file.
pub fn open_input_again<S: Streams>(rt: &S) -> Result<S::File> {
    open_at(rt).map_err(of_descriptor)
}

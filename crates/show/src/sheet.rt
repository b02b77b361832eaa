// Text for standard output, put together in a lent buffer and sent where that is full.
use std::io::{Error, ErrorKind, Result, Write};
use streams::Streams;

// How far the buffer is filled; and the first failure, where all that was sent was not taken.
#[derive(Clone, Copy)]
pub struct Sheet {
    pub at: usize,
    pub failed: Option<Error>,
}

// The program's streams, the buffer, and the sheet that is filled there. What comes behind a write
// that failed is sent all the same; the failure is kept for who asks.
#[derive(Drop)]
pub struct Page<'r, 'o, S: Streams> {
    pub rt: &'r S,
    out: &'o mut [u8],
    sheet: Sheet,
}

const PART: usize = 4096;

impl<'r, 'o, S: Streams> Page<'r, 'o, S> {
    pub(crate) fn on(rt: &'r S, out: &'o mut [u8]) -> Page<'r, 'o, S> {
        let sheet = Sheet {
            at: 0,
            failed: None,
        };
        Page { rt, out, sheet }
    }

    // Sends what is there.
    fn send(&mut self) {
        let rt = self.rt;
        let n = self.sheet.at.min(self.out.len());
        self.sheet.at = 0;
        if let Err(error) = streams::write_output(rt, &self.out[..n]) {
            self.sheet.failed = Some(self.sheet.failed.unwrap_or(error));
        }
    }

    // Whether all that was sent was taken.
    pub(crate) fn taken(&self) -> Result<()> {
        match self.sheet.failed {
            None => Ok(()),
            Some(error) => Err(error),
        }
    }

    // There are n bytes of room, where the buffer has so many.
    fn make_room(&mut self, n: usize) {
        let at = self.sheet.at.min(self.out.len());
        if self.out.len() - at < n {
            self.send();
        }
    }

    // At most some thousand bytes in hex, `-` for none.
    fn put_part(&mut self, src: &[u8]) {
        self.make_room(2 * src.len() + 1);
        let at = self.sheet.at.min(self.out.len());
        if self.out.len() - at <= 2 * src.len() {
            self.sheet.failed = Some(Error::from(ErrorKind::WriteZero));
            return;
        }
        self.sheet.at = hexed::put_hex(self.out, at, src);
    }

    // All of src in hex.
    pub(crate) fn put_hex(&mut self, src: &[u8]) {
        if src.is_empty() {
            self.put_part(src);
        }
        for part in src.chunks(PART) {
            self.put_part(part);
        }
    }
}

impl<'r, 'o, S: Streams> Write for Page<'r, 'o, S> {
    fn write(&mut self, buf: &[u8]) -> Result<usize> {
        self.make_room(buf.len());
        let at = self.sheet.at.min(self.out.len());
        let end = wording::put::put(self.out, at, buf);
        self.sheet.at = end;
        Ok(end - at)
    }

    fn flush(&mut self) -> Result<()> {
        self.send();
        self.taken()
    }
}

// The line that has begun: where it ends in a piece, what is kept of it, and its reading.
ghost use Rattle.std.specs.Prelude.{◌≡◌, ◌-◌, ◌≤◌, [], length};
ghost use Rattle.words.specs.Rows.{part};
ghost use Rattle.lines.specs.Read.{read_line};
ghost use Rattle.trace.specs.Feeding.{hold as holds};
ghost use Rattle.feed.specs.State.{held_bytes};
ghost use Rattle.feed.specs.Says.{LineEnd};

use lines::Line;

// The first len bytes of line are those of the line that has begun, or its first 65.
#[derive(Clone, Copy)]
pub struct Held {
    pub line: [u8; 65],
    pub len: usize,
}

// The place of the first newline of piece from i on and below n, or n.
pub(crate) fn line_end(piece: &[u8], i: usize, n: usize) -> usize
    requires { (i ≤ n) × (n ≤ length piece.now) }
    ensures { LineEnd piece.now i n result }
{
    scan::find(piece, i, n, 10)
}

impl Held {
    pub(crate) fn none() -> Held
        ensures { held_bytes result ≡ [] }
    {
        Held {
            line: [0; 65],
            len: 0,
        }
    }

    // The line is answered: no new line has begun. What stood there is left, and nobody reads it.
    pub(crate) fn emptied(self) -> Held
        ensures { held_bytes result ≡ [] }
    {
        let line = self.line;
        Held { line, len: 0 }
    }

    // The line goes on with the bytes of piece from i to e.
    pub(crate) fn go_on(self, piece: &[u8], i: usize, e: usize) -> Held
        requires { (i ≤ e) × (e ≤ length piece.now) }
        ensures { held_bytes result ≡ holds (held_bytes self) (part piece.now i (e - i)) }
    {
        let n = self.len.min(65);
        let m = (e - i).min(65 - n);
        let mut next = self.line;
        next[n..n + m].copy_from_slice(&piece[i..i + m]);
        Held {
            line: next,
            len: n + m,
        }
    }

    // What the line says.
    pub(crate) fn read(self) -> Line
        ensures { result ≡ read_line (held_bytes self) }
    {
        let line = self.line;
        let m = self.len.min(65);
        lines::read_line(&line[..m])
    }
}

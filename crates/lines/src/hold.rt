// A line that comes in pieces: as much of it is kept as there is room for.
ghost use Rattle.lines.specs.Hold.{KeepIs};

// The line in the first len bytes of the buffer goes on with piece; gives how many bytes are kept.
pub fn hold(line: &mut [u8], len: usize, piece: &[u8]) -> usize
    ensures { KeepIs line.old len piece.now line.new result }
{
    let n = len.min(line.len());
    let m = piece.len().min(line.len() - n);
    for j in 0..m {
        line[n + j] = piece[j];
    }
    n + m
}

// An entry of the table of contents: where a body begins, and how long it is.
ghost use Rattle.std.specs.Prelude.{[], ◌∷◌, ◌+◌, ◌-◌, ◌≤◌, length};
ghost use Rattle.cells.specs.Cells.{cells, Wrote};

use words::word;

// The entry of the body from p to q is written at k.
pub fn enter(out: &mut [u8], k: usize, p: usize, q: usize)
    requires { (p ≤ q) × (k + 8 ≤ length out.old) }
    ensures { Wrote (cells 4 (p ∷ (q - p) ∷ [])) out.old k out.new (k + 8) }
{
    let entry = [word(p), word(q - p)];
    cells::put_words(out, k, 4, &entry);
}

// What can be read from a damaged image (Q-8): its bodies, each kept or set aside, and the loads
// that the boxes kept have as agreed, as the text of one block. Nothing here makes a site of it.
#![tactic(auto)]

ghost use Rattle.salvage.specs.Block.{Salvaged};

mod block;
mod loads;
mod table;
mod text;

// A buffer of so many bytes has room for every block.
pub const MOST_TEXT: usize = 331776;

// How long the block is, at the front of the buffer; that it is a refusal; or that the buffer is
// too short. No Result: two of the three answers are a text to hand on.
#[derive(Clone, Copy)]
pub enum Told {
    Block(usize),
    Refused(usize),
    Short,
}

// The block of an image goes to the front of out.
pub fn salvage(image: &[u8], out: &mut [u8]) -> Told
    ensures { Salvaged image.now out.old result out.new }
{
    if out.len() < MOST_TEXT {
        return Told::Short;
    }
    if table::is_sound(image) {
        let n = block::put_block(image, out);
        return Told::Block(n);
    }
    let n = print::put_bytes(out, 0, b"refused 17\n.\n");
    Told::Refused(n)
}

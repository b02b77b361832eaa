// By form on the bytes of a whole image: its boxes, its bodies and its table of contents.
#![tactic(auto)]

ghost use Rattle.whole.specs.Whole.{ImageIs};

use words::size;

pub mod bodies;
pub mod boxes;

// The bytes are the image of a site by form, and nothing more: the place of its general body is
// answered. The bodies are walked once, and then the table of contents is held against what was
// found.
pub fn check_image(src: &[u8]) -> Option<usize>
    ensures { ImageIs src.now result }
{
    if src.len() < 4 {
        return None;
    }
    let count = size(le::get_at(src, 0, 4));
    if boxes::BODIES < count {
        return None;
    }
    let at = image::table_bytes(count);
    if src.len() < at {
        return None;
    }
    let mut table = [0u64; boxes::TABLE];
    let q = bodies::check_listed(src, at, &mut table)?;
    let same = cells::has_words(src, 0, 4, &table[0..boxes::GENERAL + boxes::ENTRY * count]);
    if same & (q == src.len()) {
        return Some(at);
    }
    None
}

// Plays the script on standard input on the engine. Each line is written as it stands, with what
// came of it.
#![tactic(auto)]

use lent::{Ground, Lent};
use spots::{GENERAL, LINK_HEAD, NEXTS, PLACE_HEAD, ROW_HEAD};

mod alone;
mod decimals;
mod engine;
mod indexed;
mod lent;
mod script;
mod see;
mod show;
mod spots;

const STDIN: i32 = 0;

// The largest site here has n = 5, J = 4,096 and L = 4: it and its copy fit a usual stack of 8 MB.
const SITE: usize = GENERAL + 5 * (ROW_HEAD + 4096 + NEXTS + 4096);

const PLACE: usize = PLACE_HEAD + 4096;

const LINKS: usize = 5 * 4 * (LINK_HEAD + 4 * PLACE);

fn main() {
    let mut text = io::large_buffer();
    let mut site = [0u64; SITE];
    let mut links = [0u64; LINKS];
    let mut site_before = [0u64; SITE];
    let mut links_before = [0u64; LINKS];
    let mut letter = [0u64; PLACE];
    let mut out = [0u64; PLACE];
    let n = io::read_full(STDIN, &mut text);
    let mut ground = Ground {
        z: Lent::default(),
        site: &mut site,
        links: &mut links,
        site_before: &mut site_before,
        links_before: &mut links_before,
        letter: &mut letter,
        out: &mut out,
    };
    ground.walk(&text[..n]);
}

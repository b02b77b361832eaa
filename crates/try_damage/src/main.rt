// Damages each image on standard input in every small way, reads what is left and writes it back.
// What is refused must leave every word and byte as it was; what is read must be written back as
// exactly the bytes that were given.
#![tactic(auto)]

use bench::Bench;

mod bench;
mod count;
mod cuts;
mod flips;
mod layout;
mod marks;
mod parts;
mod rooms;
mod script;
mod show;

const STDIN: i32 = 0;

// Room for images of up to 2,047 bytes. The words are enough for each site of the input and not for
// every site that a changed byte makes of it.
fn main() {
    let mut text = io::large_buffer();
    let mut image = [0u8; 2048];
    let mut back = [0u8; 2050];
    let mut site = [0u64; 820];
    let mut links = [0u64; 1000];
    let n = io::read_full(STDIN, &mut text);
    let mut bench = Bench {
        site: &mut site,
        links: &mut links,
        back: &mut back,
    };
    script::play(&text[..n], &mut image, &mut bench);
}

// The state of a feeding between two pieces, and what the feeding gives back.
use crate::held::Held;

// A trace's site has at most five boxes, "here J at most 32, L at most 8".
const BOXES: usize = 5;

pub const MOST_J: u32 = 32;

pub const MOST_L: u32 = 8;

// Words enough for every such site.
const ROW_WORDS: usize = row::HEAD + MOST_J as usize + (index::NEXTS + MOST_J as usize);

pub const SITE_WORDS: usize = memory::GENERAL + BOXES * ROW_WORDS;

const LINK_WORDS: usize = 2 + MOST_L as usize * (letter::HEAD + MOST_J as usize);

pub const LINKS_WORDS: usize = BOXES * (BOXES - 1) * LINK_WORDS;

// The longest answer to a line.
pub const LONGEST_ANSWER: usize = 147;

// No line yet, lines on a site, or the end of the run.
#[derive(Clone, Copy)]
pub enum Stage {
    First,
    Going,
    Ended,
}

// k is the next line's number where the run goes on; held: the line that has begun.
#[derive(Clone, Copy)]
pub struct Feed {
    pub stage: Stage,
    pub k: u64,
    pub held: Held,
}

// The state after a line, and the place past its answer.
#[derive(Clone, Copy)]
pub struct Turn {
    pub feed: Feed,
    pub at: usize,
}

// The state after a piece, how many bytes of it were taken, and the place past the answers to its
// lines.
#[derive(Clone, Copy)]
pub struct Fed {
    pub feed: Feed,
    pub took: usize,
    pub at: usize,
}

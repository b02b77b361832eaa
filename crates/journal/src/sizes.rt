// How many words a site needs.
ghost use Rattle.std.specs.Prelude.{◌≡◌, cond};
ghost use Rattle.rules.specs.Sizes.{sizes_form};
ghost use Rattle.memory.specs.Memory.{site_words, links_words};

use rules::ranges;

// The words of `site`; 0 for sizes outside their ranges.
pub fn journal_site_words(n: u32, j: u32, l: u32) -> usize
    ensures { result ≡ cond (sizes_form n j l) (site_words n j) 0 }
{
    if !ranges::are_sizes(n as u64, j as u64, l as u64) {
        return 0;
    }
    memory::GENERAL + n as usize * row::row_width(j)
}

// The words of `links`; 0 for sizes outside their ranges, and for a site of one box.
pub fn journal_links_words(n: u32, j: u32, l: u32) -> usize
    ensures { result ≡ cond (sizes_form n j l) (links_words n j l) 0 }
{
    if !ranges::are_sizes(n as u64, j as u64, l as u64) {
        return 0;
    }
    let width = memory::link_width(j, l);
    let boxes = n as usize;
    boxes * (boxes - 1) * width
}

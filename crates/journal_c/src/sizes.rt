// How many words a site needs.
ghost use Rattle.std.specs.Prelude.{◌≡◌, cond};
ghost use Rattle.rules.specs.Sizes.{sizes_form};
ghost use Rattle.memory.specs.Memory.{site_words, links_words};

// The words of `site`; 0 for sizes outside their ranges.
#[unsafe(no_mangle)]
pub extern "C" fn journal_site_words(n: u32, j: u32, l: u32) -> usize
    ensures { result ≡ cond (sizes_form n j l) (site_words n j) 0 }
{
    journal::journal_site_words(n, j, l)
}

// The words of `links`; 0 for sizes outside their ranges, and for a site of one box.
#[unsafe(no_mangle)]
pub extern "C" fn journal_links_words(n: u32, j: u32, l: u32) -> usize
    ensures { result ≡ cond (sizes_form n j l) (links_words n j l) 0 }
{
    journal::journal_links_words(n, j, l)
}

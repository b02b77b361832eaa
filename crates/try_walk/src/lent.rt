// What of the memory is lent to the engine, and what it was before a call.
ghost use Rattle.std.specs.Prelude.{◌≡◌, length};

// The sizes of the site, and how many words are lent of each slice.
#[derive(Clone, Copy, Default)]
pub(crate) struct Lent {
    pub(crate) n: u32,
    pub(crate) j: u32,
    pub(crate) l: u32,
    pub(crate) site: usize,
    pub(crate) links: usize,
    pub(crate) letter: usize,
    pub(crate) out: usize,
}

impl Lent {
    pub(crate) fn sized(self, n: u32, j: u32, l: u32) -> Lent {
        Lent { n, j, l, ..self }
    }

    pub(crate) fn words(self, site: u64, links: u64) -> Lent {
        Lent {
            site: site as usize,
            links: links as usize,
            ..self
        }
    }

    pub(crate) fn trays(self, letter: u64, out: u64) -> Lent {
        Lent {
            letter: letter as usize,
            out: out as usize,
            ..self
        }
    }
}

// The words that the script works on, and room for what they were before a call.
#[derive(Drop)]
pub(crate) struct Ground<'a> {
    pub(crate) z: Lent,
    pub(crate) site: &'a mut [u64],
    pub(crate) links: &'a mut [u64],
    pub(crate) site_before: &'a mut [u64],
    pub(crate) links_before: &'a mut [u64],
    pub(crate) letter: &'a mut [u64],
    pub(crate) out: &'a mut [u64],
}

impl Ground<'_> {
    pub(crate) fn is_site_kept(&self) -> bool {
        same(self.site, self.site_before)
    }
}

pub(crate) fn copy(src: &[u64], dst: &mut [u64])
    ensures { length dst.new ≡ length dst.old }
{
    let e = src.len().min(dst.len());
    dst[..e].copy_from_slice(&src[..e]);
}

// Every word of a is the one of b.
pub(crate) fn same(a: &[u64], b: &[u64]) -> bool {
    b.starts_with(a)
}

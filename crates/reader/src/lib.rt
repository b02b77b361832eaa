// The reader of the site image: everything is checked before the first word is stored.
#![tactic(auto)]

ghost use Rattle.whole.specs.Whole.{ImageFound};
ghost use Rattle.reader.specs.Reader.{ReadIs};

use rules::model::{Answer, Refusal};

// The bodies of an image by form, the first of them at `at`: 12, or they are stored.
fn read_bodies(image: &[u8], at: usize, site: &mut [u64], links: &mut [u64]) -> Answer
    requires { ImageFound image.now at }
    ensures { ReadIs image.now site.old links.old result
        site.new links.new }
{
    let mut w = [0u64; memory::GENERAL];
    cells::get_words(image, at, 4, &mut w);
    let s = memory::setting_of(&w, 0);
    if memory::has_words(site, links, s) {
        store::store_site(image, at, site, links);
        return Answer::Done;
    }
    Answer::Refused(Refusal::Buffer)
}

// The site of the image goes into the lent words: 1, then 12, found before a word is stored.
pub fn read(image: &[u8], site: &mut [u64], links: &mut [u64]) -> Answer
    ensures { ReadIs image.now site.old links.old result
        site.new links.new }
{
    let r = whole::check_image(image);
    match r {
        Some(at) => read_bodies(image, at, site, links),
        None => Answer::Refused(Refusal::Form),
    }
}

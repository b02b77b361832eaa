// The words of a site and of its links, and the bytes that it is written back to: one try of the
// writer, one of the reader.
use crate::count::Outcome;
use crate::{layout, marks};
use rules::model::{Answer, Refusal};

#[derive(Drop)]
pub(crate) struct Bench<'a> {
    pub(crate) site: &'a mut [u64],
    pub(crate) links: &'a mut [u64],
    pub(crate) back: &'a mut [u8],
}

fn refused(r: Refusal, kept: bool) -> Outcome {
    match r {
        Refusal::Form if kept => Outcome::Form,
        Refusal::Buffer if kept => Outcome::Short,
        _ => Outcome::Wrong,
    }
}

impl Bench<'_> {
    // The site's image is to be this one, into so many bytes of the buffer.
    pub(crate) fn write(&mut self, image: &[u8], lent: usize) -> Outcome {
        marks::put(self.back);
        let end = lent.min(self.back.len());
        let (site, links) = (&mut *self.site, &mut *self.links);
        match writer::write(site, links, &mut self.back[..end]) {
            Ok(n) => {
                let good = (n == image.len()) & self.back.starts_with(image);
                Outcome::done_if(good & marks::kept(self.back, n))
            }
            Err(r) => refused(r, marks::kept(self.back, 0)),
        }
    }

    fn has_length(&self, image: &[u8]) -> bool {
        match writer::image_length(self.site, self.links) {
            Ok(n) => n == image.len(),
            Err(_) => false,
        }
    }

    fn is_stored(&self, image: &[u8]) -> bool {
        layout::rest_kept(self.site, self.links) & self.has_length(image)
    }

    // After a read: the words past the site's as they were, and the image of the site again.
    fn stored(&mut self, image: &[u8]) -> Outcome {
        if !self.is_stored(image) {
            return Outcome::Wrong;
        }
        let whole = self.back.len();
        self.write(image, whole).or_wrong()
    }

    // The image, into so many words of the site and of the links.
    pub(crate) fn read(&mut self, image: &[u8], site: usize, links: usize) -> Outcome {
        marks::put(self.site);
        marks::put(self.links);
        let a = site.min(self.site.len());
        let b = links.min(self.links.len());
        match reader::read(image, &mut self.site[..a], &mut self.links[..b]) {
            Answer::Done => self.stored(image),
            Answer::Taken | Answer::Discarded(_) => Outcome::Wrong,
            Answer::Refused(r) => {
                let kept = marks::kept(self.site, 0) & marks::kept(self.links, 0);
                refused(r, kept)
            }
        }
    }

    // The same with all the words.
    pub(crate) fn read_all(&mut self, image: &[u8]) -> Outcome {
        let site = self.site.len();
        let links = self.links.len();
        self.read(image, site, links)
    }
}

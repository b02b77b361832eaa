// A reader over the contents table (Q-7): it keeps the image and hands out one body at a time,
// general, boxes 1 to n, mail, each the part of the lent image that the table of contents names.
//
// An answer names a body by its place and length, and `part` hands the part itself out. The
// functions over the struct `Bodies` each only take the struct apart and call one that is on a
// slice
// and a number.
#![tactic(auto)]

ghost use Rattle.std.specs.Prelude.{◌≡◌};
ghost use Rattle.bodies.specs.Contents.{named as named_in, asked as asked_in, after as after_in};
ghost use Rattle.bodies.specs.Handed.{Handed, BodyIs, Opened};

use rules::model::Refusal;

pub mod contents;

// Where a body begins, and its length.
#[derive(Clone, Copy)]
pub struct Part {
    pub begin: usize,
    pub long: usize,
}

// Body k of an image: 1 where the whole image is not by form, 3 where k is no body's number.
pub fn body(image: &[u8], k: u32) -> Result<Part, Refusal>
    ensures { BodyIs image.now k result }
{
    let r = whole::check_image(image);
    match r {
        Some(_) => contents::named(image, k),
        None => Err(Refusal::Form),
    }
}

// A reader: the image, and its place, the number of the next body. Place 0: the image is not by
// form.
#[derive(Clone, Copy)]
pub struct Bodies<'a> {
    pub image: &'a [u8],
    pub next: u32,
}

// A reader of the image, which is looked at here, once: at body 1, or where the image is not by
// form at place 0, which answers 1.
pub fn open<'a>(image: &'a [u8]) -> Bodies<'a>
    ensures { (result.image ≡ image.entry) × Opened image.now result.next }
{
    let next = contents::first(image);
    Bodies { image, next }
}

impl<'a> Bodies<'a> {
    // Where the next body is; or 1, or after the last body 3, each time that it is asked.
    pub fn asked(self) -> Result<Part, Refusal>
        ensures { result ≡ asked_in self.entry.image.now self.entry.next }
    {
        contents::asked(self.image, self.next)
    }

    // The next body itself; none where none is named.
    pub fn body(self) -> &'a [u8]
        ensures { Handed self.entry.image (named_in self.entry.image.now self.entry.next)
            result }
    {
        contents::part(self.image, self.next)
    }

    // The reader behind that body, or the same where there is none.
    pub fn next(self) -> Bodies<'a>
        ensures { (result.image ≡ self.entry.image)
            × (result.next ≡ after_in self.entry.image.now self.entry.next) }
    {
        let next = contents::after(self.image, self.next);
        Bodies {
            image: self.image,
            next,
        }
    }
}

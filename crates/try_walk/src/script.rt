// The lines of the script, one after the other.
use crate::alone::Words;
use crate::decimals::numbers_at;
use crate::lent::{Ground, Lent};
use crate::{indexed, show, spots};

// What a line is. Told: text, or so many words that are lent from now on. Put: a word is put. See:
// a box or a link is shown. Own: an event at a box by itself. Alone: it is started, told of an
// election, or asked. Trace: a line of the paper's trace.
#[derive(Clone, Copy)]
enum Kind {
    Told(Told),
    Put(Put),
    See(See),
    Own,
    Alone(Words),
    Trace,
}

// Lend: words of the site and of the links. Trays: of the trays for a letter in and a letter out.
#[derive(Clone, Copy)]
enum Told {
    Heading,
    Lend,
    Trays,
}

// A word of the site, of a box's row, of a link's row, of the tray in; or a box's whole book.
#[derive(Clone, Copy)]
enum Put {
    Word,
    Row,
    Link,
    Letter,
    Book,
}

#[derive(Clone, Copy)]
enum See {
    Box,
    Mails,
}

const KINDS: [(&[u8], Kind); 14] = [
    (b"#", Kind::Told(Told::Heading)),
    (b"lend ", Kind::Told(Told::Lend)),
    (b"trays ", Kind::Told(Told::Trays)),
    (b"word ", Kind::Put(Put::Word)),
    (b"row ", Kind::Put(Put::Row)),
    (b"link ", Kind::Put(Put::Link)),
    (b"letter ", Kind::Put(Put::Letter)),
    (b"book ", Kind::Put(Put::Book)),
    (b"box ", Kind::See(See::Box)),
    (b"mails ", Kind::See(See::Mails)),
    (b"start ", Kind::Alone(Words::Start)),
    (b"tell ", Kind::Alone(Words::Tell)),
    (b"ask ", Kind::Alone(Words::Ask)),
    (b"own ", Kind::Own),
];

fn kind_of(s: &[u8]) -> Kind {
    for (word, kind) in KINDS {
        if s.starts_with(word) {
            return kind;
        }
    }
    Kind::Trace
}

fn tell(t: Told, numbers: [u64; 4], z: Lent) -> Lent {
    let [_, _, c, d] = numbers;
    match t {
        Told::Heading => z,
        Told::Lend => z.words(c, d),
        Told::Trays => z.trays(c, d),
    }
}

// The first words, as many as are lent.
fn first(words: &mut [u64], lent: usize) -> &mut [u64] {
    let end = lent.min(words.len());
    &mut words[..end]
}

impl Ground<'_> {
    // The index follows the other words, and not the other way round.
    fn put_row(&mut self, c: u64, k: u64, v: u64) {
        let j = self.z.j as usize;
        let at = spots::row_at(self.z.j, c);
        spots::put(self.site, at.wrapping_add(k as usize), v);
        if (k as usize) < spots::ROW_HEAD + j {
            indexed::build(self.site, at, j);
        }
    }

    fn put_link(&mut self, a: u64, b: u64, k: u64, v: u64) {
        let z = self.z;
        let at = spots::link_at(z.n, z.j, z.l, a, b);
        spots::put(self.links, at.wrapping_add(k as usize), v);
    }

    // Box c has agreed on k loads, number i with the frames i and i.
    fn put_book(&mut self, c: u64, k: u64) {
        let z = self.z;
        let at = spots::row_at(z.j, c);
        spots::put(self.site, at.wrapping_add(spots::LAST), k);
        spots::put(self.site, at.wrapping_add(spots::ROW_COUNT), k);
        spots::put_pairs(self.site, at.wrapping_add(spots::ROW_HEAD), k as usize);
        indexed::build(self.site, at, z.j as usize);
    }

    fn put(&mut self, p: Put, numbers: [u64; 4]) {
        let [a, b, c, d] = numbers;
        match p {
            Put::Word => spots::put(self.site, c as usize, d),
            Put::Row => self.put_row(b, c, d),
            Put::Link => self.put_link(a, b, c, d),
            Put::Letter => spots::put(self.letter, c as usize, d),
            Put::Book => self.put_book(c, d),
        }
    }

    fn look(&self, w: See, numbers: [u64; 4]) {
        let [_, _, c, d] = numbers;
        match w {
            See::Box => self.see_row(d),
            See::Mails => self.see_link(c, d),
        }
    }

    // What the engine sees: as many words as are lent.
    fn play(&mut self, s: &[u8], kind: Kind, numbers: [u64; 4]) {
        let z = self.z;
        let (site, links) = (&mut *self.site, &mut *self.links);
        let (letter, out) = (&mut *self.letter, &mut *self.out);
        let mut lent = Ground {
            z,
            site: first(site, z.site),
            links: first(links, z.links),
            site_before: &mut *self.site_before,
            links_before: &mut *self.links_before,
            letter: first(letter, z.letter),
            out: first(out, z.out),
        };
        match kind {
            Kind::Own => lent.own_line(&s[s.len().min(4)..]),
            Kind::Alone(w) => lent.say(w, numbers),
            _ => lent.trace_line(s),
        }
        self.z = lent.z;
    }

    fn line(&mut self, s: &[u8]) {
        show::text(s);
        let numbers = numbers_at(s, 4);
        match kind_of(s) {
            Kind::Told(t) => {
                show::text(b"\n");
                self.z = tell(t, numbers, self.z);
            }
            Kind::Put(p) => {
                show::text(b"\n");
                self.put(p, numbers);
            }
            Kind::See(w) => self.look(w, numbers),
            kind => self.play(s, kind, numbers),
        }
    }

    // What follows the last line's end is no line, if it is empty.
    pub(crate) fn walk(&mut self, text: &[u8]) {
        if text.is_empty() {
            return;
        }
        let text = text.strip_suffix(b"\n").unwrap_or(text);
        for s in text.split(|b| *b == b'\n') {
            self.line(s);
        }
    }
}

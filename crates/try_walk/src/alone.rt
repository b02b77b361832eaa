// A box by itself: its row stands in the site, its letters in two trays.
ghost use Rattle.std.specs.Prelude.{◌≤◌};

use crate::lent::Ground;
use crate::spots::{EPOCH, J, L, N, PRESENT, get, row_at, row_width};
use crate::{lent, see, show};
use lines::Line;
use own::Sent;
use rules::model::{Act, Answer, Call, Setting};

// A word as a number of 32 bits, or the largest such.
fn short(x: u64) -> u32 {
    u32::try_from(x).unwrap_or(u32::MAX)
}

fn setting(site: &[u64], me: u32) -> Setting {
    Setting {
        n: short(get(site, N)),
        j: short(get(site, J)),
        l: short(get(site, L)),
        epoch: short(get(site, EPOCH)),
        present: short(get(site, PRESENT)),
        me,
    }
}

// Where the row of box c begins and ends, as much of it as is lent.
fn row_part(words: usize, j: u32, c: u32) -> (usize, usize)
    ensures { (result.0 ≤ result.1) × (result.1 ≤ words) }
{
    let from = row_at(j, c as u64).min(words);
    (from, from + row_width(j).min(words - from))
}

// What a line of the trace is to one box: a step of its own, or a letter from another.
#[derive(Clone, Copy)]
enum Event {
    Own(Act),
    Mail(u32),
}

// Which box has which event, if one has.
fn event_of(call: Call) -> Option<(u32, Event)> {
    match call {
        Call::Recover(c) => Some((c, Event::Own(Act::Recover))),
        Call::Collect(c) => Some((c, Event::Own(Act::Collect))),
        Call::Ready(c) => Some((c, Event::Own(Act::Ready))),
        Call::Offer(c, left, right) => Some((c, Event::Own(Act::Offer(left, right)))),
        Call::Propose(c) => Some((c, Event::Own(Act::Propose))),
        Call::Agree(c) => Some((c, Event::Own(Act::Agree))),
        Call::Finish(c) => Some((c, Event::Own(Act::Finish))),
        Call::Heard(c) => Some((c, Event::Own(Act::Heard))),
        Call::Trim(c, k) => Some((c, Event::Own(Act::Trim(k)))),
        Call::Deliver(a, b) => Some((b, Event::Mail(a))),
        Call::Elect(_) | Call::Stop(_) | Call::Return(_) | Call::Timeout(_) => None,
        Call::Lose(_, _) | Call::Repeat(_, _) => None,
    }
}

// A box is started, told of an election, or asked what it holds.
#[derive(Clone, Copy)]
pub(crate) enum Words {
    Start,
    Tell,
    Ask,
}

impl Ground<'_> {
    // The tray of letters out has its copy in the room of the links.
    fn note_box(&mut self) {
        let (site, out) = (&mut *self.site, &mut *self.out);
        lent::copy(site, self.site_before);
        lent::copy(out, self.links_before);
    }

    fn is_kept(&self) -> bool {
        self.is_site_kept() & lent::same(self.out, self.links_before)
    }

    // What came of it; what was sent is the next letter.
    fn sent(&mut self, r: Sent) {
        show::answer(r.answer, self.is_kept());
        if r.to != 0 {
            show::text(b" to ");
            show::number(r.to as u64);
            see::letter(self.out, 0);
            let out = &mut *self.out;
            lent::copy(out, self.letter);
        }
        show::text(b"\n");
    }

    fn event(&mut self, c: u32, event: Event) {
        self.note_box();
        let s = setting(self.site, c);
        let (from, end) = row_part(self.site.len(), self.z.j, c);
        let r = match event {
            Event::Own(act) => own::act(&mut self.site[from..end], self.out, s, act),
            Event::Mail(sender) => {
                let letter = &mut *self.letter;
                own::mail(&mut self.site[from..end], letter, self.out, s, sender)
            }
        };
        self.sent(r);
    }

    // An event of one box: what it does by itself, or the letter in the tray.
    pub(crate) fn own_line(&mut self, s: &[u8]) {
        match lines::read_line(s) {
            Line::Call(call) => match event_of(call) {
                Some((c, event)) => self.event(c, event),
                None => show::text(b" | no event of a box\n"),
            },
            Line::Site(_, _, _) | Line::Holds(_, _, _, _) | Line::Unreadable => {
                show::text(b" | unreadable\n");
            }
        }
    }

    fn told(&mut self, c: u32, w: Words, numbers: [u32; 3]) -> Answer {
        let s = setting(self.site, c);
        let (from, end) = row_part(self.site.len(), self.z.j, c);
        let row = &mut self.site[from..end];
        let [x, y, z] = numbers;
        match w {
            Words::Start => own::fresh(row, x, y, z),
            Words::Tell => own::elected(row, s, z),
            Words::Ask => own::holds(row, s, x, y, z),
        }
    }

    // `start C N J L`, `tell C LEADER` and `ask C K LEFT RIGHT`, of box C by itself.
    pub(crate) fn say(&mut self, w: Words, numbers: [u64; 4]) {
        self.note_box();
        let [a, b, c, d] = numbers;
        let which = if matches!(w, Words::Tell) { c } else { a };
        let answer = self.told(short(which), w, [short(b), short(c), short(d)]);
        show::answer(answer, self.is_site_kept());
        show::text(b"\n");
    }
}

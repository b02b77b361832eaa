// The boxes put at rest.
ghost use Rattle.std.specs.Prelude.{◌≡◌};
ghost use Rattle.rules.specs.Site.{upd};
ghost use Rattle.memory.specs.After.{boxes_of, BoxLent, BoxesLent, RowsPut};
ghost use Rattle.rest.specs.Rest.{rested_head, rested_box};

use rules::model::{Answer, Best, Book, BoxState, Out, Phase, Setting, State, Turn};

// Every field as in a fresh site, but for what outlives a stop.
fn rested_head(b: BoxState) -> BoxState
    ensures { result ≡ rested_head b }
{
    let kept = b.kept;
    BoxState {
        leads: false,
        state: State::Recovering,
        phase: Phase::Election,
        kept: kept,
        best: Best {
            pn: 0,
            number: 0,
            value: 0,
        },
        answered: 0,
        accepts: 0,
        heard: 0,
        waiting: 0,
        agreeing: 0,
        peers: [4294967295; 5],
    }
}

// Box me at rest: a turn that keeps its book and sends nothing.
fn rest_row(site: &mut [u64], links: &[u64], s: Setting)
    requires { BoxLent s site.old }
    ensures { RowsPut s
        (upd (boxes_of s site.old) s.me
        (rested_box (boxes_of s site.old s.me)))
        site.old site.new }
{
    let head = row::load(memory::row_of(site, s, s.me), s.n);
    let next = rested_head(head);
    let t = Turn {
        answer: Answer::Done,
        next: next,
        book: Book::Keep,
        out: Out::Nothing,
    };
    memory::play(site, links, s, 0, 0, t);
}

// Every box at rest.
pub(crate) fn rest_rows(site: &mut [u64], links: &[u64], s: Setting)
    requires { BoxesLent s site.old }
    ensures { RowsPut s (λ b. rested_box (boxes_of s site.old b))
        site.old site.new }
{
    for b in 1..=s.n {
        let known = Setting { me: b, ..s };
        rest_row(site, links, known);
    }
}

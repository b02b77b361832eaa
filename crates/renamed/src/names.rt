// The names of the trace words, ours and the published ones: found at the start of a line, and
// written.
ghost use Rattle.std.specs.Prelude.{◌≡◌, ◌+◌, ◌≤◌, length};
ghost use Rattle.rules.specs.Pick.{pick};
ghost use Rattle.print.specs.Text.{Wrote};
ghost use Rattle.renamed.specs.Names.{chosen, name_bytes, is_name, word_in};
ghost use Rattle.renamed.specs.Read.{found_by};

use lines::Word;

// Which names a trace has.
#[derive(Clone, Copy)]
pub enum Names {
    Ours,
    Published,
}

// The word of a line, how many bytes its name has here, and how many the other; 0: it has none.
// Lengths and no Options: a name of no bytes is none in the table of names, too.
#[derive(Clone, Copy)]
pub struct Found {
    pub word: Word,
    pub cut: usize,
    pub put: usize,
}

// One of the two lent names.
fn choose<'a>(n: Names, ours: &'a [u8], published: &'a [u8]) -> &'a [u8]
    ensures { result.now ≡ chosen n ours.now published.now }
{
    match n {
        Names::Ours => ours,
        Names::Published => published,
    }
}

// There is a name, and it stands at the start of s.
fn is_name(name: &[u8], s: &[u8]) -> bool
    ensures { result ≡ is_name name.now s.now }
{
    (name.len() != 0) & lines::starts(name, s)
}

fn pick_found(t: bool, a: Found, b: Found) -> Found
    ensures { result ≡ pick t a b }
{
    if t { a } else { b }
}

// The word w where its name stands at the start of s, else other.
fn or_name<'a>(
    from: Names,
    to: Names,
    ours: &'a [u8],
    published: &'a [u8],
    s: &[u8],
    w: Word,
    other: Found,
) -> Found
    ensures { result ≡ pick (is_name (chosen from ours.now published.now)
        s.now)
        (record {
          word = w;
          cut = length (chosen from ours.now published.now);
          put = length (chosen to ours.now published.now);
        }) other }
{
    let here = choose(from, ours, published);
    let there = choose(to, ours, published);
    let found = Found {
        word: w,
        cut: here.len(),
        put: there.len(),
    };
    pick_found(is_name(here, s), found, other)
}

// The word at the start of s.
// The table stands in put_name as well: here the names are the byte strings compared.
pub(crate) fn find(from: Names, to: Names, s: &[u8]) -> Found
    ensures { result ≡ found_by from to (word_in from s.now) }
{
    let f = Found {
        word: Word::Other,
        cut: 0,
        put: 0,
    };
    let f = or_name(from, to, b"holds ", b"", s, Word::Holds, f);
    let f = or_name(from, to, b"mail ", b"receive ", s, Word::Mail, f);
    let f = or_name(from, to, b"repeat ", b"", s, Word::Repeat, f);
    let f = or_name(from, to, b"lose ", b"", s, Word::Lose, f);
    let f = or_name(
        from,
        to,
        b"timeout ",
        b"timeout_and_restart ",
        s,
        Word::Timeout,
        f,
    );
    let f = or_name(from, to, b"return ", b"restore_mon ", s, Word::Return, f);
    let f = or_name(from, to, b"stop ", b"crash_mon ", s, Word::Stop, f);
    let f = or_name(from, to, b"trim ", b"", s, Word::Trim, f);
    let f = or_name(from, to, b"heard ", b"post_lease_ack ", s, Word::Heard, f);
    let f = or_name(from, to, b"finish ", b"finish_commit ", s, Word::Finish, f);
    let f = or_name(from, to, b"agree ", b"post_accept ", s, Word::Agree, f);
    let f = or_name(
        from,
        to,
        b"propose ",
        b"propose_pending ",
        s,
        Word::Propose,
        f,
    );
    let f = or_name(from, to, b"offer ", b"client_request ", s, Word::Offer, f);
    let f = or_name(from, to, b"ready ", b"post_last ", s, Word::Ready, f);
    let f = or_name(from, to, b"collect ", b"send_collect ", s, Word::Collect, f);
    let f = or_name(
        from,
        to,
        b"recover ",
        b"election_recover ",
        s,
        Word::Recover,
        f,
    );
    let f = or_name(from, to, b"elect ", b"election ", s, Word::Elect, f);
    or_name(from, to, b"site ", b"site ", s, Word::Site, f)
}

fn put_chosen<'a>(out: &mut [u8], at: usize, n: Names, ours: &'a [u8], published: &'a [u8]) -> usize
    requires { at + length (chosen n ours.now published.now) ≤ length out.old }
    ensures { Wrote (length (chosen n ours.now published.now))
        out.old out.new at result
        (chosen n ours.now published.now) }
{
    print::put_bytes(out, at, choose(n, ours, published))
}

// The name of a word, with its space.
pub(crate) fn put_name(out: &mut [u8], at: usize, n: Names, w: Word) -> usize
    requires { at + length (name_bytes n w) ≤ length out.old }
    ensures { Wrote (length (name_bytes n w)) out.old out.new at result
        (name_bytes n w) }
{
    match w {
        Word::Site => put_chosen(out, at, n, b"site ", b"site "),
        Word::Elect => put_chosen(out, at, n, b"elect ", b"election "),
        Word::Recover => put_chosen(out, at, n, b"recover ", b"election_recover "),
        Word::Collect => put_chosen(out, at, n, b"collect ", b"send_collect "),
        Word::Ready => put_chosen(out, at, n, b"ready ", b"post_last "),
        Word::Offer => put_chosen(out, at, n, b"offer ", b"client_request "),
        Word::Propose => put_chosen(out, at, n, b"propose ", b"propose_pending "),
        Word::Agree => put_chosen(out, at, n, b"agree ", b"post_accept "),
        Word::Finish => put_chosen(out, at, n, b"finish ", b"finish_commit "),
        Word::Heard => put_chosen(out, at, n, b"heard ", b"post_lease_ack "),
        Word::Trim => put_chosen(out, at, n, b"trim ", b""),
        Word::Stop => put_chosen(out, at, n, b"stop ", b"crash_mon "),
        Word::Return => put_chosen(out, at, n, b"return ", b"restore_mon "),
        Word::Timeout => put_chosen(out, at, n, b"timeout ", b"timeout_and_restart "),
        Word::Lose => put_chosen(out, at, n, b"lose ", b""),
        Word::Repeat => put_chosen(out, at, n, b"repeat ", b""),
        Word::Mail => put_chosen(out, at, n, b"mail ", b"receive "),
        Word::Holds => put_chosen(out, at, n, b"holds ", b""),
        Word::Other => put_chosen(out, at, n, b"", b""),
    }
}

// Which load has this frame (Q-5).
ghost use Rattle.std.specs.Prelude.{◌≡◌};
ghost use Rattle.find.specs.Find.{find_on};
ghost use Rattle.journal.specs.Find.{found_number, FindAnswered};

use crate::answered::number_of;
use rules::model::Refusal;

fn found_number(w: Result<Option<u32>, Refusal>, before: u32) -> u32
    ensures { result ≡ found_number w before }
{
    match w {
        Ok(load) => load.unwrap_or(0),
        Err(_) => before,
    }
}

pub fn journal_find(site: &[u64], links: &[u64], c: u32, left: u32, number: &mut u32) -> u32
    ensures { FindAnswered (find_on site.now links.now c left)
        number.old number.new result }
{
    let w = find::find(site, links, c, left);
    *number = found_number(w, *number);
    number_of(w)
}

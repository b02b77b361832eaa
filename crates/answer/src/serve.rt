// What is asked is done on words by form.
ghost use Rattle.std.specs.Prelude.{◌≡◌, true};
ghost use Rattle.memory.specs.Memory.{memory_form};
ghost use Rattle.answer.specs.Calls.{Serves};
ghost use Rattle.answer.specs.declared.reply.Ask.{Ask};
ghost use Rattle.answer.specs.declared.reply.Reply.{Reply};

use crate::reply::{Ask, Reply};
use lines::Line;
use rules::model::{Answer, Refusal};

fn serve_line(site: &mut [u64], links: &mut [u64], l: Line) -> Answer
    requires { memory_form site.old links.old ≡ true }
    ensures { Serves (Ask.Line l) site.old links.old
        site.new links.new (Reply.Answer result) }
{
    match l {
        Line::Site(_, _, _) => Answer::Refused(Refusal::Line),
        Line::Call(d) => site::step_formed(site, links, d),
        Line::Holds(c, k, left, right) => site::holds_formed(site, links, c, k, left, right),
        Line::Unreadable => Answer::Refused(Refusal::Line),
    }
}

// A match and no closure: what is asked comes as a value, from a line of text.
pub(crate) fn serve(site: &mut [u64], links: &mut [u64], l: Ask) -> Reply
    requires { memory_form site.old links.old ≡ true }
    ensures { Serves l site.old links.old
        site.new links.new result }
{
    match l {
        Ask::Line(k) => Reply::Answer(serve_line(site, links, k)),
        Ask::Run(steps) => Reply::Run(until::run_formed(site, links, steps)),
        Ask::Find(c, left) => Reply::Found(find::find_formed(site, links, c, left)),
    }
}

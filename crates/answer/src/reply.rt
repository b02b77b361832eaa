// What is asked of an image, and what is replied: a line of a trace, a run (Q-9), or which load has
// a frame (Q-5).
ghost use Rattle.std.specs.Prelude.{◌≡◌};
ghost use Rattle.answer.specs.Replies.{run_refused, unchanged};

use lines::Line;
use rules::answers;
use rules::model::{Answer, Refusal};
use wait::model::Run;

#[derive(Clone, Copy)]
pub enum Ask {
    Line(Line),
    Run(u32),
    Find(u32, u32),
}

#[derive(Clone, Copy)]
pub enum Reply {
    Answer(Answer),
    Run(Run),
    Found(Result<Option<u32>, Refusal>),
}

fn is_refused(r: Run) -> bool
    ensures { result ≡ run_refused r }
{
    match r {
        Run::Ran(_) => false,
        Run::Stopped(_, _) => false,
        Run::Refused(_) => true,
    }
}

// The image stays as it was.
pub(crate) fn is_unchanged(r: Reply) -> bool
    ensures { result ≡ unchanged r }
{
    match r {
        Reply::Answer(a) => answers::is_refusal(a),
        Reply::Run(k) => is_refused(k),
        Reply::Found(_) => true,
    }
}

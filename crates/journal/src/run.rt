// The run after an election: what it answers, as one number, and the steps that it used.
ghost use Rattle.std.specs.Prelude.{◌≡◌, ◌+◌};
ghost use Rattle.rules.specs.Numbers.{refusal_number};
ghost use Rattle.journal.specs.Run.{run_number, run_used, RunAnswered};

use rules::model::Refusal;
use rules::numbers::refusal_number;
use wait::model::Run;

// 200 and a step's number: no refusal has it, so a run that was stopped is none.
fn stopped_number(why: Refusal) -> u32
    ensures { result ≡ 200 + refusal_number why }
{
    200 + refusal_number(why)
}

fn run_number(r: Run) -> u32
    ensures { result ≡ run_number r }
{
    match r {
        Run::Ran(_) => 0,
        Run::Stopped(why, _) => stopped_number(why),
        Run::Refused(why) => refusal_number(why),
    }
}

fn run_used(r: Run, before: u32) -> u32
    ensures { result ≡ run_used r before }
{
    match r {
        Run::Ran(used) => used,
        Run::Stopped(_, used) => used,
        Run::Refused(_) => before,
    }
}

pub fn journal_run(site: &mut [u64], links: &mut [u64], steps: u32, used: &mut u32) -> u32
    ensures { RunAnswered steps site.old links.old site.new
        links.new used.old used.new result }
{
    let r = until::run(site, links, steps);
    *used = run_used(r, *used);
    run_number(r)
}

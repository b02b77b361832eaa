// Traces under the published step names, and back: the commands `publish` and `unpublish`.
//
// A refusal is over the whole trace, so it is read twice: looked at, and then written under the
// other names. What each piece becomes is what `renamed` says of it. No contract can
// say what is read or written: the functions here are proved safe and to end.
#![tactic(auto)]

mod look;
mod pieces;
mod run;
mod say;
mod way;
mod write;

// `back`: the trace has the published names. `kept`: standard input cannot be read twice, and is
// kept in the file of descriptor 4 meanwhile. `report`: the status goes to descriptor 3.
fn main(rt: HostRuntime) {
    let back = streams::has_argument(&rt, 1, b"back") | streams::has_argument(&rt, 2, b"back");
    let kept = streams::has_argument(&rt, 2, b"kept") | streams::has_argument(&rt, 3, b"kept");
    streams::report_if_asked(&rt, write::serve(&rt, back, kept));
}

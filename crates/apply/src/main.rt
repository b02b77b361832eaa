// Calls and runs on stored images: one for each line of standard input, or one on an image in raw
// bytes; a run on such an image step by step; and the question which boxes have not answered a
// lease.
#![tactic(auto)]

mod buffers;
mod each;
mod line;
mod pieces;
mod ran;
mod raw;
mod refused;
mod unheard;

fn main(rt: HostRuntime) {
    streams::report_if_asked(&rt, buffers::serve(&rt));
}

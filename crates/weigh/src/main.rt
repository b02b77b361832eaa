// Prints the longer of two load lists, for each line of standard input: the command `longer`.
#![tactic(auto)]

mod answer;
mod buffers;
mod refused;

fn main(rt: HostRuntime) {
    streams::report_if_asked(&rt, buffers::serve(&rt));
}

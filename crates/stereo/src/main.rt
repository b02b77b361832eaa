// Lines at the pairing desk from standard input, answered one by one: the command `desk`.
#![tactic(auto)]

mod answer;
mod ask;
mod buffers;
mod refused;

fn main(rt: HostRuntime) {
    streams::report_if_asked(&rt, buffers::serve(&rt));
}

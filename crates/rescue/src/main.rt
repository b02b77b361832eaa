// What can be read from damaged images, for the technician: the command `salvage`.
//
// Each block is what `salvage` says, whose statement says what that is; there is no other way from
// an image to the output here, and none to an image. No contract can say what is read or written:
// the functions here are proved safe and to end.
#![tactic(auto)]

mod answer;
mod buffers;
mod whole_input;

fn main(rt: HostRuntime) {
    streams::report_if_asked(&rt, buffers::serve(&rt));
}

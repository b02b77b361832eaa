// The bodies of stored images, for the technician: the contents or one body of an image in words,
// or all bodies of each line's image in hex.
//
// What is handed out is what `bodies` hands out, whose statements say what that is. No contract can
// say what is read or written: the functions here are proved safe and to end.
#![tactic(auto)]

mod boxes;
mod buffers;
mod each_line;
mod fields;
mod hexes;
mod mail;
mod sheet;
mod shown;
mod whole_input;

fn main(rt: HostRuntime) {
    streams::report_if_asked(&rt, buffers::serve(&rt));
}

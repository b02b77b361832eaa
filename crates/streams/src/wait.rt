// A moment's wait, for a stream that does not wait itself.
use std::thread;
use std::time::{Clock, Duration};

// A thousandth of a second.
pub(crate) fn moment<C: Clock>(clock: &C) {
    thread::sleep(clock, Duration::from_millis(1));
}

// What words and bytes hold before a try, so that it shows whether they stay.

pub(crate) trait Mark: Copy + PartialEq {
    fn mark(at: usize) -> Self;
}

// Each word has a mark of its own, and none that a site by form has in this place.
impl Mark for u64 {
    fn mark(at: usize) -> u64 {
        u64::MAX - at as u64
    }
}

impl Mark for u8 {
    fn mark(_at: usize) -> u8 {
        165
    }
}

pub(crate) fn put<T: Mark>(room: &mut [T]) {
    for (at, here) in room.iter_mut().enumerate() {
        *here = T::mark(at);
    }
}

// Everything from `from` on has its mark.
pub(crate) fn kept<T: Mark>(room: &[T], from: usize) -> bool {
    room.iter()
        .enumerate()
        .skip(from)
        .all(|(at, here)| *here == T::mark(at))
}

// A line that comes in pieces: as much of it is kept as there is room for.
pub use lines::hold::hold;

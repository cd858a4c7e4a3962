//! Where the data of a body are.

// rule body-parts: A body's data are parts of the bytes read, of 8 bytes each. 64 MiB of one-byte chunks are 11.2 million parts: 89 MB
// beside the wire, in a vector that grows by doubling, to room for 134 MB, and that has an old one of half that beside it while it grows.
/// A piece of a body, by offsets in the input: the bytes from `start` up to, and without, `end`.
#[derive(Clone, Copy, PartialEq, Eq)]
pub struct Part {
    pub start: u32,
    pub end: u32,
}

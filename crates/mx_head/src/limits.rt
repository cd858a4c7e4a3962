//! The limits of one head.

// rule head-size
/// The most bytes of a head, its empty line among them.
pub const MOST_HEAD_BYTES: usize = 65536;

/// The most field lines of a head.
pub const MOST_FIELDS: usize = 128;

/// The status line and the field lines.
pub(crate) const MOST_LINES: usize = MOST_FIELDS + 1;

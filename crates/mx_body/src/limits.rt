//! The limits of a response. Those of one head are `mx_head`'s.

// rule body-size
/// The most bytes of a whole response: all its heads, and its body as it is framed.
pub const MOST_BYTES: usize = 67_108_864;

// rule body-interim-heads
/// The most interim heads (RFC 9110, section 15.2) that may come before the final one.
pub const MOST_INTERIM: usize = 16;

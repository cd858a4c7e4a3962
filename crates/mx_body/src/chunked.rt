//! Chunked bodies (RFC 9112, section 7.1).

pub(crate) mod chunks;
pub mod laws;
pub mod parts;
pub mod place;
pub(crate) mod reader;
pub mod scan;
pub(crate) mod stretch;

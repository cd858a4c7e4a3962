//! Bodies of responses: what the bytes of an exchange decide (RFC 9112, sections 6 to 8).
//!
//! `decode_whole` decides over all of the bytes at once. It is the plain program of the definitions in
//! `specs/`, whose laws are the contracts of the functions in `laws`.
#![tactic(auto)]

pub mod chunked;
mod decoder;
mod heads;
pub mod laws;
mod limits;
mod part;
mod progress;
mod room;
mod verdict;
mod whole;

pub use crate::decoder::{Decoder, Stand};
pub use crate::heads::{FinalStep, Heads, heads_len};
pub use crate::limits::{MOST_BYTES, MOST_INTERIM};
pub use crate::part::Part;
pub use crate::progress::place_of;
pub use crate::verdict::Verdict;
pub use crate::whole::decode_whole;

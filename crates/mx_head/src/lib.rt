//! Heads of HTTP/1.0 and HTTP/1.1 responses (RFC 9112): reading one, and what it says of its body's end and
//! of its connection.
#![tactic(auto)]

mod elements;
mod fields;
pub mod laws;
mod limits;
mod lines;
mod reading;
mod rules;
mod scan;
mod text;
mod types;

pub use crate::limits::{MOST_FIELDS, MOST_HEAD_BYTES};
pub use crate::reading::{read_head, read_head_on};
pub use crate::rules::{framing, keeps};
pub use crate::scan::HeadScan;
pub use crate::types::{Framing, Head, HeadStep};

//! The transfers of a run that saves, once they have ended: their parts, what is reported of them, and what is said of a failure.
#![tactic(auto)]

mod body;
mod ends;
mod framing;
mod heard;
mod spool;
mod words;

pub use crate::body::WholeBody;
pub use crate::ends::{failed_end, left_end, unsaved_end};
pub use crate::heard::Heard;
pub use crate::spool::{Spool, Written, written_of};

//! A link while it serves one request: what it is asked, in which order, and what ends that.
#![tactic(auto)]

mod buffers;
mod calls;
pub mod laws;
mod lines;

pub use crate::buffers::ReadBuffer;
pub use crate::calls::Halt;
pub use crate::lines::Line;

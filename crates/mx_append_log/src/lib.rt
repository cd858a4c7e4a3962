//! A list that only grows, and exists in contracts alone: an atomic word has its length, and tokens show how much of it was seen. They take
//! no lock, and hold none of its entries.
#![tactic(auto)]

mod log;
mod mark;
mod rule;

pub use crate::log::AppendLog;
pub use crate::mark::{CountedMark, LogMark};
pub use crate::rule::Itself;

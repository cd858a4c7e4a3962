//! Histories of a multi handle's events: which are legal, and what each call is answered after one; the laws of these definitions; and
//! plain programs that compute the same from a whole list. No state is kept here.
#![tactic(auto)]

pub mod definitions;
pub mod laws;
mod log;
mod row;

pub use crate::log::{Log, VecLog};
pub use crate::row::{Phase, Row};

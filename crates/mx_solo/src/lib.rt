//! A multi handle on one thread: the control core, and a worker whose turns take place in the calls of the thread that holds it. Nothing in
//! it waits, takes a lock, starts a thread or wakes one.
#![tactic(auto)]

mod claims;
mod quiet;
mod seat;
mod solo;

pub use crate::solo::Solo;
pub use mx_transfer_core::{Outcome, Queued};

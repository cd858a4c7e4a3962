//! Workers at a multi handle: each claims transfers, polls them by hand over links that it keeps, and records their ends.
#![tactic(auto)]

mod claims;
mod log;
mod tally;
mod worker;

pub use crate::worker::{WorkerEnd, run_worker};
pub use mx_transfer_core::Queued;

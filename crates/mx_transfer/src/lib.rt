//! A transfer as a future, for loops other than a worker's: what it waits for, and the waker of the task that polls it.
#![tactic(auto)]

mod transfers;

pub use crate::transfers::Transfer;
pub use mx_transfer_core::{Outcome, Want};

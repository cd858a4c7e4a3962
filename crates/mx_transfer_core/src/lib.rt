//! A transfer, poll by poll: its hops, and what becomes of the content of its response; and, until a worker claims it, the work of a multi
//! handle.
#![tactic(auto)]

mod cores;
mod handing;
mod polled;
mod queued;

pub use crate::cores::TransferCore;
pub use crate::polled::Polled;
pub use crate::queued::Queued;
pub use mx_chain::{Outcome, Want};

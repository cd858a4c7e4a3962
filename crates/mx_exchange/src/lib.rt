//! An exchange: one request over one link, turn by turn, and the hop that it ends as.
#![tactic(auto)]

mod exchanges;
mod handling;
mod hops;
pub mod laws;

pub use crate::exchanges::turns::Turned;
pub use crate::exchanges::{Exchange, Want};
pub use crate::hops::Hop;
pub use mx_line::ReadBuffer;

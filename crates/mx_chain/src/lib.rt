//! A transfer with its hops: a request, and those to which redirects lead, each over a link; and what it ends with.
#![tactic(auto)]

mod chains;
mod ends;
mod followed;
pub mod laws;
mod outcomes;

pub use crate::chains::{Chain, Stepped};
pub use crate::ends::ChainEnd;
pub use crate::outcomes::Outcome;
pub use mx_exchange::{ReadBuffer, Want};

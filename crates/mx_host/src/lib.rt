//! The network and the clock of the system, for a library that no runtime is lent.
#![tactic(auto)]

mod addresses;
mod host;

pub use crate::host::Host;

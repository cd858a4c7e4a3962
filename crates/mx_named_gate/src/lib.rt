//! Gates: one to the network that has names looked up on other threads, so that its worker waits for no lookup; and one over another that
//! opens a few links to an endpoint at a time, so that those that have been answered are used again.
#![tactic(auto)]

mod bell;
mod named;
mod pace;
mod paced;
pub mod paced_laws;
mod waiting;

pub use crate::bell::NameBell;
pub use crate::named::NamedGate;
pub use crate::paced::PacedGate;

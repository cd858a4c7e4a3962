//! Why the bytes of an exchange are no response: after how many of them that is decided, and what is wrong there; or where they end, if
//! nothing is decided (RFC 9112, sections 2 to 8).
#![tactic(auto)]

mod bracket;
mod cut;
mod fault;
mod guess;
mod line;
mod reason;
mod tell;
mod walk;

pub use crate::reason::{Cut, Defect, Fault, Reason};
pub use crate::tell::reason_of;

//! What a worker does in one turn, as one list of cases, with the laws of every run of turns; the engine that it calls, its idle links, and
//! deadlines of tickets.
//! That definition is in specs/Turn.antt, and its terms are in specs/Workers.antt.
#![tactic(auto)]

mod deadlines;
mod deeds;
mod engine;
mod idle;
pub mod idle_laws;
pub mod laws;
mod links;

pub use crate::deadlines::{Deadline, Deadlines};
pub use crate::deeds::Done;
pub use crate::engine::{Claimed, Engine, Finished, LONGEST_WAIT, Right, Tied};
pub use crate::idle::IdleCache;
pub use crate::links::Links;

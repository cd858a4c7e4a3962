//! The table of a multi handle: the state after its events, updated event by event.
#![tactic(auto)]

mod makers;
mod places;
mod rows;
mod slots;
mod table;
mod waits;

pub use crate::makers::MakerCounts;
pub use crate::table::Table;

//! Callers of a multi handle, with no proof of their own: one opens it, adds requests and reads their messages, and its seats meet; of two
//! seats one adds, the other reads, and both are in one legal history.
#![tactic(auto)]

pub mod messages;
pub mod two_seats;

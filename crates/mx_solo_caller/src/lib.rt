//! Callers of a multi handle on one thread, with no proof of their own: they add requests, have them performed, and read their messages.
#![tactic(auto)]

pub mod messages;

//! What calls of many threads on one multi handle are made of, and the same calls on one thread: seats with their handle, calls by
//! chance, the texts of calls and of their answers.
#![tactic(auto)]

pub mod client;
pub mod entries;
pub mod hand;
pub mod hold;
pub mod one_thread;
pub mod party;
pub mod sample;
pub mod stress;
pub mod texts;

//! A table of responses, each with its verdict, by which all that decodes them is tested. Only tests are built on it.
#![tactic(auto)]

pub mod bases;
mod bodies;
pub mod bytes;
mod heads;
pub mod response;
pub mod table;

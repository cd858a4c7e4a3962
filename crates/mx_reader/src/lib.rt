//! The reader of one response, which either holds all bytes or hands the content on as it comes, under one set of clauses.
//!
//! `Reader` is what takes the bytes. `laws` has what follows from the definitions alone.
#![tactic(auto)]

mod flowing;
pub mod laws;
mod reader;

pub use crate::reader::Reader;

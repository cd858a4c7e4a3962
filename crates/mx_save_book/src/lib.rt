//! The URLs of a run that saves: the names of their files, what each ended with, and what is printed of it.
#![tactic(auto)]

mod begun;
mod book;
mod finish;
mod job;
mod lines;
mod tally;

pub use crate::begun::Begun;
pub use crate::book::{Book, free_slots};
pub use crate::job::{Job, Slot};
pub use crate::lines::{Lines, PrintedLine};
pub use crate::tally::Tally;
pub use mx_save_rules::Asking;

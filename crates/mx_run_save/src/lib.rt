//! The command `save`: from what it is asked for to the files that were saved and the lines that were printed.
#![tactic(auto)]

mod asked;
mod opened;
mod polled;
mod run;
mod status;
mod terminal;
mod told;
mod unbegun;
mod unread;

pub use crate::run::{Saved, run_save, save_in};
pub use crate::status::REFUSED;
pub use crate::terminal::Screen;
pub use crate::unbegun::refuse_save;

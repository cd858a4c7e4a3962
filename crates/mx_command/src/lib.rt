//! The command line of `mxfetch`: its options, what it asks for, and hints that are printed after clap's error where it is refused.
#![tactic(auto)]

mod asked;
mod command;
mod given;
mod help;
mod hint;
mod options;
mod save;
mod task;

pub use crate::asked::{Asked, Get};
pub use crate::command::read_command;
pub use crate::hint::number::NumberRow;
pub use crate::hint::{UsageHint, hint_of};
pub use crate::save::read::read_save;
pub use crate::save::{BodySource, Header, ListSource, Save, SaveFlags, SaveNumbers};
pub use crate::task::Task;

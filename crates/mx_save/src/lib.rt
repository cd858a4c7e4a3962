//! Bodies that are saved whole: a file that was saved is a whole body at each moment, whenever the program is killed. A sink writes the content
//! of a body to its part as it comes.
#![tactic(auto)]

mod body;
mod error;
pub mod laws;
mod ledger;
mod made;
mod part_sink;
mod parts_out;
mod save;
mod write;

pub use crate::body::Body;
pub use crate::error::{Discarded, SaveError, Unsaved};
pub use crate::ledger::Ledger;
pub use crate::made::Made;
pub use crate::part_sink::{PartSink, Unfinished};

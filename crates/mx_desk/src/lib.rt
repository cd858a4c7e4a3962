//! A desk: an application's seat, or two, the requests that were added there under numbers of its own, and what each of them ended with.
#![tactic(auto)]

mod adding;
mod addition;
mod desk;
mod seats;

pub use crate::adding::Adding;
pub use crate::desk::{Desk, Ended};
pub use mx_run_io::Stop;

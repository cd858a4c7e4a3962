//! A crew: workers on threads of their own, each with a seat and a gate, beside an application's thread.
#![tactic(auto)]

mod beside;
mod crew;
mod gate;
mod opening;
mod runtime;
mod shortage;
mod slot;
mod starts;
mod worked;

pub use crate::beside::run_beside;
pub use crate::crew::{Crew, HostGate};
pub use crate::opening::{Opened, open_one};
pub use crate::runtime::Runtime;
pub use crate::slot::{NoWorkerSlots, WorkerSlot, worker_slots};
pub use crate::worked::{Counts, Worked};
pub use mx_run_io::Stop;

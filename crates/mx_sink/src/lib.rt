//! Where the content of a body goes as it comes, a sink in memory, and what becomes of the content of a transfer.
#![tactic(auto)]

mod delivery;
mod error;
mod memory;
mod outlet;
mod sink;
mod window;

pub use crate::delivery::{Delivery, Held};
pub use crate::error::SinkError;
pub use crate::memory::MemorySink;
pub use crate::outlet::Outlet;
pub use crate::sink::Sink;
pub use crate::window::Window;

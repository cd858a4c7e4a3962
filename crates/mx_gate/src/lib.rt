//! Gates: a worker's clock, its links to the network, and where it waits.
#![tactic(auto)]

mod addresses;
mod dialling;
mod faults;
mod gate;
pub mod laws;
mod lazy_waker;
mod ready;
mod said;
mod scripted;
mod signals;
mod sockets;

pub use crate::addresses::{Found, addresses_of};
pub use crate::dialling::{Dial, DialLink};
pub use crate::faults::{connect_code, meets_file_limit};
pub use crate::gate::{Gate, Turn};
pub use crate::ready::ReadyLink;
pub use crate::said::Said;
pub use crate::scripted::ScriptGate;
pub use crate::signals::Signals;
pub use crate::sockets::{Bell, FileLimit, SocketDial, SocketGate, SocketLink, number_of};

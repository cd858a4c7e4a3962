//! A run at one multi handle after another, with a second one beside one that is held up.
#![tactic(auto)]

mod fetch;
mod first;
mod gates;
mod handle;
mod second;
mod sockets;
mod spare;
mod turned;

pub use crate::fetch::Fetch;
pub use crate::first::Room;
pub use crate::sockets::{FetchEnd, fetch_over_sockets};
pub use crate::turned::Turned;

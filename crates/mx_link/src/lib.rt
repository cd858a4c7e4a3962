//! Links: what a transfer reads from and writes to. Each answer of a link is in a history that contracts alone read.
#![tactic(auto)]

mod answers;
pub mod laws;
mod links;
mod scripted;
mod sockets;
mod streams;

pub use crate::answers::{Answer, Connect, Read, Write, bytes_of};
pub use crate::links::Link;
pub use crate::scripted::{ScriptLink, ScriptRead};
pub use crate::sockets::{TcpLink, TcpSocket};
pub use crate::streams::{Called, Stream, StreamLink};

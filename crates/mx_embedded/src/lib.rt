//! What a program with a loop of its own needs beside the multi handle on one thread: its sockets, requests from the bytes that C has, and
//! what an outcome has as bytes.
#![tactic(auto)]

mod addresses;
mod content;
mod copies;
mod fields;
mod host_gate;
mod hosts;
mod multi;
mod requests;

pub use crate::addresses::addresses_in;
pub use crate::content::Ended;
pub use crate::host_gate::HostGate;
pub use crate::hosts::Hosts;
pub use crate::multi::{HostLink, SocketMulti, name_link};
pub use crate::requests::{Words, request_of};

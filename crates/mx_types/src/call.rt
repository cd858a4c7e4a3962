//! Calls, and the receipts of those that were answered.

use crate::code::Code;
use crate::names::{HandleId, Ticket};
use crate::reply::Reply;

/// A call on a multi handle, with what it names.
#[derive(Clone, Copy, PartialEq, Eq)]
pub enum Call {
    Add(HandleId),
    Remove(HandleId),
    Pause(HandleId),
    Unpause(HandleId),
    InfoRead,
    Wakeup,
    Poll,
    Handles,
    Running,
    State(HandleId),
    /// The end of a claimed transfer: its ticket, its code, and the length of its body in bytes.
    Finish(Ticket, Code, u32),
    Look(Ticket),
}

/// A call that was answered: its reply, and how many events the history had that it found, with its own event
/// where it made one.
#[derive(Drop)]
pub struct Receipt {
    pub cut: u32,
    pub call: Call,
    pub reply: Reply,
}

//! What happens to a multi handle: the events of its history.

use crate::code::Code;
use crate::names::{HandleId, Ticket};

/// Who made an event: a seat of an application thread or a worker, by its number from 0 to 15.
#[derive(Clone, Copy, PartialEq, Eq)]
pub enum Who {
    Seat(u8),
    Worker(u8),
}

/// What an event did.
#[derive(Clone, Copy, PartialEq, Eq)]
pub enum What {
    /// The handle was added under the ticket (curl_multi_add_handle(3)).
    Added(HandleId, Ticket),
    /// The addition of the handle was removed (curl_multi_remove_handle(3)).
    Removed(HandleId, Ticket),
    /// The transfer ended, with a code and the length of its body in bytes.
    Done(Ticket, Code, u32),
    /// The message of the transfer's end was read (curl_multi_info_read(3)).
    Read(Ticket),
    /// The transfer was paused.
    Paused(Ticket),
    /// The transfer was resumed.
    Resumed(Ticket),
    /// Polls that wait are to return (curl_multi_wakeup(3)).
    Wake,
}

/// An event of the history, with its maker.
#[derive(Clone, Copy, PartialEq, Eq)]
pub struct Event {
    pub who: Who,
    pub what: What,
}

//! What calls answer.
ghost use Rattle.std.specs.Prelude.{◌≡◌};
ghost use Rattle.mx_types.specs.MultiCode.{reply_code};

use crate::code::Code;
use crate::limits::MOST_HANDLES;
use crate::multi_code::MCode;
use crate::names::{HandleId, Ticket};
use arrayvec::ArrayVec;
use std::marker::Model;

/// The state of a handle.
#[derive(Clone, Copy, PartialEq, Eq)]
pub enum State {
    NotAdded,
    Running(Ticket),
    Paused(Ticket),
    /// Its transfer ended with the code, and the message waits to be read.
    Done(Ticket, Code),
    /// Its message was read; it is still added.
    Read(Ticket, Code),
}

/// What a worker sees of a transfer that it holds.
#[derive(Clone, Copy, PartialEq, Eq)]
pub enum Look {
    /// It runs.
    Go,
    /// It is paused.
    Paused,
    /// It doesn't run: it was removed, or it ended.
    Gone,
}

/// The handles that are added, at most [`MOST_HANDLES`], in the order of their addition (curl_multi_get_handles(3)).
/// Contracts see it as their list.
#[derive(Drop)]
pub struct AddedHandles {
    list: ArrayVec<HandleId, MOST_HANDLES>,
}

impl Model for AddedHandles {
    ghost use Rattle.std.specs.Prelude.{List};
    ghost use Rattle.mx_types.specs.declared.names.HandleId.{HandleId};

    ghost Value = { List HandleId };

    ghost view = { λ l. l.list.items };
}

impl AddedHandles {
    /// The list of these handles.
    pub fn new(list: ArrayVec<HandleId, MOST_HANDLES>) -> AddedHandles
        ensures { result ≡ list.items }
    {
        AddedHandles { list }
    }

    /// The handles, as a slice.
    pub fn as_slice(&self) -> &[HandleId]
        ensures { result.now ≡ self.now }
    {
        self.list.as_slice()
    }
}

/// What a call answers.
#[derive(Drop)]
pub enum Reply {
    /// of `add`
    Added(Ticket),
    AddedAlready,
    TableFull,
    /// of `add`: each ticket was given
    TicketsSpent,
    /// of `add`, `pause` and `unpause`
    HistoryFull,
    /// of `remove`
    Removed,
    /// of `remove`: the handle isn't added, and nothing is done
    RemoveNotAdded,
    /// of `pause` and `unpause`
    Changed,
    /// of `pause` and `unpause`
    NotAdded,
    NotRunning,
    NoChange,
    /// of `info_read`: the message of a transfer's end, the length of its body in bytes, and how many messages
    /// are left
    Message {
        handle: HandleId,
        ticket: Ticket,
        code: Code,
        size: u32,
        left: u32,
    },
    /// of `info_read`: no message waits
    Empty,
    /// of `wakeup`
    Ok,
    Failure,
    /// of `poll`
    Woken,
    Handles(AddedHandles),
    Running(u32),
    State(State),
    /// of `finish`
    Recorded,
    Stale,
    Look(Look),
    /// of each call that would make an event
    OutOfMemory,
}

impl Reply {
    /// The number that libcurl, or this engine, gives the reply. A removal of a handle that isn't added is no
    /// fault (curl_multi_remove_handle(3)), and neither is a pause that changes nothing.
    pub fn code(&self) -> MCode
        ensures { result ≡ reply_code self.now }
    {
        match self {
            Reply::AddedAlready => MCode::AddedAlready,
            Reply::TableFull => MCode::TableFull,
            Reply::TicketsSpent => MCode::TicketsSpent,
            Reply::HistoryFull => MCode::HistoryFull,
            Reply::NotAdded => MCode::NotAdded,
            Reply::NotRunning => MCode::NotRunning,
            Reply::Failure => MCode::WakeupFailure,
            Reply::OutOfMemory => MCode::OutOfMemory,
            Reply::Added(_)
            | Reply::Removed
            | Reply::RemoveNotAdded
            | Reply::Changed
            | Reply::NoChange
            | Reply::Message { .. }
            | Reply::Empty
            | Reply::Ok
            | Reply::Woken
            | Reply::Handles(_)
            | Reply::Running(_)
            | Reply::State(_)
            | Reply::Recorded
            | Reply::Stale
            | Reply::Look(_) => MCode::Ok,
        }
    }
}

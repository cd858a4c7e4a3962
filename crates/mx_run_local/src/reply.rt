//! The replies of the core without the list of handles: so none is larger than a message.
ghost use Rattle.mx_journal.specs.Replies.{reply_of_add, reply_of_info, reply_of_pause, reply_of_remove, reply_of_wakeup};
ghost use Rattle.mx_run_local.specs.Players.{Passes};

use mx_journal::{AddReply, InfoReply, PauseReply, RemoveReply, WakeupReply};
use mx_types::{Code, Ending, HandleId, Look, OutOfMemory, State, Ticket};

/// A reply of the core that is neither the list of handles nor `OutOfMemory`.
#[derive(Clone, Copy)]
pub enum ShortReply {
    Added(Ticket),
    AddedAlready,
    TableFull,
    TicketsSpent,
    HistoryFull,
    Removed,
    RemoveNotAdded,
    Changed,
    NotAdded,
    NotRunning,
    NoChange,
    Message {
        handle: HandleId,
        ticket: Ticket,
        code: Code,
        size: u32,
        left: u32,
    },
    Empty,
    Ok,
    Failure,
    Woken,
    Running(u32),
    State(State),
    Recorded,
    Stale,
    Look(Look),
}

/// The reply to an addition, `OutOfMemory` aside.
pub fn short_add<Q>(reply: &AddReply<Q>) -> Result<ShortReply, OutOfMemory>
    ensures { Passes (reply_of_add reply.now) result }
{
    match reply {
        AddReply::Added(ticket) => Ok(ShortReply::Added(*ticket)),
        AddReply::AddedAlready(_) => Ok(ShortReply::AddedAlready),
        AddReply::TableFull(_) => Ok(ShortReply::TableFull),
        AddReply::TicketsSpent(_) => Ok(ShortReply::TicketsSpent),
        AddReply::HistoryFull(_) => Ok(ShortReply::HistoryFull),
        AddReply::OutOfMemory(_) => Err(OutOfMemory),
    }
}

/// The reply to a removal, `OutOfMemory` aside.
pub fn short_remove(reply: RemoveReply) -> Result<ShortReply, OutOfMemory>
    ensures { Passes (reply_of_remove reply) result }
{
    match reply {
        RemoveReply::Removed => Ok(ShortReply::Removed),
        RemoveReply::NotAdded => Ok(ShortReply::RemoveNotAdded),
        RemoveReply::OutOfMemory => Err(OutOfMemory),
    }
}

/// The reply to a pause or a resumption, `OutOfMemory` aside.
pub fn short_pause(reply: PauseReply) -> Result<ShortReply, OutOfMemory>
    ensures { Passes (reply_of_pause reply) result }
{
    match reply {
        PauseReply::Changed => Ok(ShortReply::Changed),
        PauseReply::NotAdded => Ok(ShortReply::NotAdded),
        PauseReply::NotRunning => Ok(ShortReply::NotRunning),
        PauseReply::NoChange => Ok(ShortReply::NoChange),
        PauseReply::HistoryFull => Ok(ShortReply::HistoryFull),
        PauseReply::OutOfMemory => Err(OutOfMemory),
    }
}

/// The reply to a read of a message, `OutOfMemory` aside: of a message, what its ending says of itself.
pub fn short_info<O: Ending>(reply: &InfoReply<O>) -> Result<ShortReply, OutOfMemory>
    ensures { Passes (reply_of_info O.code_of O.size_of reply.now) result }
{
    match reply {
        InfoReply::Message {
            handle,
            ticket,
            ending,
            left,
        } => Ok(ShortReply::Message {
            handle: *handle,
            ticket: *ticket,
            code: ending.code(),
            size: ending.size(),
            left: *left,
        }),
        InfoReply::Empty => Ok(ShortReply::Empty),
        InfoReply::OutOfMemory => Err(OutOfMemory),
    }
}

/// The reply to a wakeup, `OutOfMemory` aside.
pub fn short_wakeup(reply: WakeupReply) -> Result<ShortReply, OutOfMemory>
    ensures { Passes (reply_of_wakeup reply) result }
{
    match reply {
        WakeupReply::Ok => Ok(ShortReply::Ok),
        WakeupReply::Failure => Ok(ShortReply::Failure),
        WakeupReply::OutOfMemory => Err(OutOfMemory),
    }
}

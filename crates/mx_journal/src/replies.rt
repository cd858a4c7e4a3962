//! What the calls of a control state answer, with what they hand back.
ghost use Rattle.std.specs.Prelude.{◌≡◌};
ghost use Rattle.mx_journal.specs.Replies.{reply_of_add, reply_of_finish, reply_of_info, reply_of_pause, reply_of_remove, reply_of_wakeup};

use mx_types::{Ending, HandleId, Reply, Ticket};

/// A refusal hands the work back.
#[derive(Drop)]
pub enum AddReply<Q> {
    Added(Ticket),
    AddedAlready(Q),
    TableFull(Q),
    TicketsSpent(Q),
    HistoryFull(Q),
    OutOfMemory(Q),
}

/// Of `remove`.
#[derive(Clone, Copy, PartialEq, Eq)]
pub enum RemoveReply {
    Removed,
    NotAdded,
    OutOfMemory,
}

/// Of `pause` and `unpause`.
#[derive(Clone, Copy, PartialEq, Eq)]
pub enum PauseReply {
    Changed,
    NotAdded,
    NotRunning,
    NoChange,
    HistoryFull,
    OutOfMemory,
}

/// A message has its handle, its ticket, its ending, and how many messages are left.
#[derive(Drop)]
pub enum InfoReply<O> {
    Message {
        handle: HandleId,
        ticket: Ticket,
        ending: O,
        left: u32,
    },
    Empty,
    OutOfMemory,
}

/// Of `wakeup`.
#[derive(Clone, Copy)]
pub enum WakeupReply {
    Ok,
    Failure,
    OutOfMemory,
}

/// Of `finish`, by a claim of this kind.
#[derive(Drop)]
pub enum FinishReply<C, O> {
    Recorded,
    Stale(O),
    OutOfMemory(C, O),
}

/// Of `give_back`: the work is queued again, or it is stale and handed back.
#[derive(Drop)]
pub enum GiveBackReply<Q> {
    Back,
    Stale(Q),
}

/// Of `retire`: how many events are kept, or that a claim is out.
#[derive(Clone, Copy)]
pub enum RetireReply {
    Retired(u32),
    ClaimOut,
}

impl<Q> AddReply<Q> {
    /// The reply, without what it hands back.
    pub fn reply(&self) -> Reply
        ensures { result ≡ reply_of_add self.now }
    {
        match self {
            AddReply::Added(ticket) => Reply::Added(*ticket),
            AddReply::AddedAlready(_) => Reply::AddedAlready,
            AddReply::TableFull(_) => Reply::TableFull,
            AddReply::TicketsSpent(_) => Reply::TicketsSpent,
            AddReply::HistoryFull(_) => Reply::HistoryFull,
            AddReply::OutOfMemory(_) => Reply::OutOfMemory,
        }
    }
}

impl RemoveReply {
    /// The reply.
    pub fn reply(self) -> Reply
        ensures { result ≡ reply_of_remove self }
    {
        match self {
            RemoveReply::Removed => Reply::Removed,
            RemoveReply::NotAdded => Reply::RemoveNotAdded,
            RemoveReply::OutOfMemory => Reply::OutOfMemory,
        }
    }
}

impl PauseReply {
    /// The reply.
    pub fn reply(self) -> Reply
        ensures { result ≡ reply_of_pause self }
    {
        match self {
            PauseReply::Changed => Reply::Changed,
            PauseReply::NotAdded => Reply::NotAdded,
            PauseReply::NotRunning => Reply::NotRunning,
            PauseReply::NoChange => Reply::NoChange,
            PauseReply::HistoryFull => Reply::HistoryFull,
            PauseReply::OutOfMemory => Reply::OutOfMemory,
        }
    }
}

impl<O: Ending> InfoReply<O> {
    /// The reply: of a message, what its ending says of itself.
    pub fn reply(&self) -> Reply
        ensures { result ≡ reply_of_info O.code_of O.size_of self.now }
    {
        match self {
            InfoReply::Message {
                handle,
                ticket,
                ending,
                left,
            } => Reply::Message {
                handle: *handle,
                ticket: *ticket,
                code: ending.code(),
                size: ending.size(),
                left: *left,
            },
            InfoReply::Empty => Reply::Empty,
            InfoReply::OutOfMemory => Reply::OutOfMemory,
        }
    }
}

impl WakeupReply {
    /// The reply.
    pub fn reply(self) -> Reply
        ensures { result ≡ reply_of_wakeup self }
    {
        match self {
            WakeupReply::Ok => Reply::Ok,
            WakeupReply::Failure => Reply::Failure,
            WakeupReply::OutOfMemory => Reply::OutOfMemory,
        }
    }
}

impl<C, O> FinishReply<C, O> {
    /// The reply, without what it hands back.
    pub fn reply(&self) -> Reply
        ensures { result ≡ reply_of_finish self.now }
    {
        match self {
            FinishReply::Recorded => Reply::Recorded,
            FinishReply::Stale(_) => Reply::Stale,
            FinishReply::OutOfMemory(_, _) => Reply::OutOfMemory,
        }
    }
}

//! The numbers of the answers: those of CURLMcode, and the engine's own from 100 on.
ghost use Rattle.std.specs.Prelude.{◌≡◌};
ghost use Rattle.mx_types.specs.MultiCode.{multi_number, reply_code};
ghost use Rattle.mx_journal.specs.Replies.{reply_of_add, reply_of_pause, reply_of_remove};
ghost use Rattle.mx_c.specs.Answers.{told_state, wait_number};

use crate::structs::mx_state;
use mx_journal::{AddReply, PauseReply, RemoveReply};
use mx_types::{MCode, State, Ticket};

/// 0: all is well.
pub(crate) const OK: u32 = 0;

/// 3: memory is refused.
pub(crate) const OUT_OF_MEMORY: u32 = 3;

/// 110: a handle of the other kind, or a number or a request that can't be taken.
pub(crate) const BAD_ARGUMENT: u32 = 110;

/// 111: there is no message, or no such hop.
pub(crate) const EMPTY: u32 = 111;

/// What isn't known.
pub(crate) const NOT_TOLD: u32 = u32::MAX;

/// The number of the answer to an addition.
pub(crate) fn code_of_add<Q: Drop>(reply: &AddReply<Q>) -> u32
    ensures { result ≡ multi_number (reply_code (reply_of_add reply.now)) }
{
    match reply {
        AddReply::Added(_) => OK,
        AddReply::AddedAlready(_) => MCode::AddedAlready.number(),
        AddReply::TableFull(_) => MCode::TableFull.number(),
        AddReply::TicketsSpent(_) => MCode::TicketsSpent.number(),
        AddReply::HistoryFull(_) => MCode::HistoryFull.number(),
        AddReply::OutOfMemory(_) => OUT_OF_MEMORY,
    }
}

/// That of the answer to a removal. One of a handle that isn't added is no fault (curl_multi_remove_handle(3)).
pub(crate) fn code_of_remove(reply: RemoveReply) -> u32
    ensures { result ≡ multi_number (reply_code (reply_of_remove reply)) }
{
    match reply {
        RemoveReply::Removed => OK,
        RemoveReply::NotAdded => OK,
        RemoveReply::OutOfMemory => OUT_OF_MEMORY,
    }
}

/// That of the answer to a pause or an unpause.
pub(crate) fn code_of_pause(reply: PauseReply) -> u32
    ensures { result ≡ multi_number (reply_code (reply_of_pause reply)) }
{
    match reply {
        PauseReply::Changed => OK,
        PauseReply::NoChange => OK,
        PauseReply::NotAdded => MCode::NotAdded.number(),
        PauseReply::NotRunning => MCode::NotRunning.number(),
        PauseReply::HistoryFull => MCode::HistoryFull.number(),
        PauseReply::OutOfMemory => OUT_OF_MEMORY,
    }
}

/// A state in numbers, with its ticket and its code where these are known.
pub(crate) fn told_state(state: State) -> mx_state
    ensures { result ≡ told_state state }
{
    let (state, ticket, code) = match state {
        State::NotAdded => (0, NOT_TOLD, NOT_TOLD),
        State::Running(Ticket(ticket)) => (1, ticket, NOT_TOLD),
        State::Paused(Ticket(ticket)) => (2, ticket, NOT_TOLD),
        State::Done(Ticket(ticket), code) => (3, ticket, code.number()),
        State::Read(Ticket(ticket), code) => (4, ticket, code.number()),
    };
    mx_state {
        state,
        ticket,
        code,
    }
}

/// A wait in milliseconds as a number; -1 is one without an end.
pub(crate) fn wait_number(wait: Option<u64>) -> i64
    ensures { result ≡ wait_number wait }
{
    match wait {
        Some(ms) => i64::try_from(ms).unwrap_or(i64::MAX),
        None => -1,
    }
}

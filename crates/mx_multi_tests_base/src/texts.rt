//! The texts of answers, in the words of `mxfetch play`.

use mx_types::{HandleId, Look, Reply, State};
use std::fmt;

// Writes the state of a handle.
fn say_state<W: fmt::Write>(f: &mut fmt::Formatter<W>, state: State) -> fmt::Result {
    match state {
        State::NotAdded => f.write_str("not-added"),
        State::Running(ticket) => write!(f, "running {}", ticket.0),
        State::Paused(ticket) => write!(f, "paused {}", ticket.0),
        State::Done(ticket, code) => write!(f, "done {} {}", ticket.0, code.number()),
        State::Read(ticket, code) => write!(f, "read {} {}", ticket.0, code.number()),
    }
}

// Writes the handles after their word.
fn say_handles<W: fmt::Write>(f: &mut fmt::Formatter<W>, handles: &[HandleId]) -> fmt::Result {
    f.write_str("handles")?;
    for handle in handles {
        write!(f, " {}", handle.0)?;
    }
    Ok(())
}

// The word of an answer that has nothing more; an empty text for any other.
fn word_of(reply: &Reply) -> &'static str {
    match reply {
        Reply::AddedAlready => "added-already",
        Reply::TableFull => "table-full",
        Reply::TicketsSpent => "tickets-spent",
        Reply::HistoryFull => "history-full",
        Reply::Removed => "removed",
        Reply::RemoveNotAdded | Reply::NotAdded => "not-added",
        Reply::Changed => "changed",
        Reply::NotRunning => "not-running",
        Reply::NoChange => "no-change",
        Reply::Empty => "empty",
        Reply::Ok => "ok",
        Reply::Failure => "failure",
        Reply::Woken => "woken",
        Reply::Recorded => "recorded",
        Reply::Stale => "stale",
        Reply::Look(Look::Go) => "go",
        Reply::Look(Look::Paused) => "paused",
        Reply::Look(Look::Gone) => "gone",
        Reply::OutOfMemory => "out-of-memory",
        _ => "",
    }
}

/// What a call answers.
#[derive(Drop)]
pub struct ReplyText<'a>(pub &'a Reply);

impl fmt::Display for ReplyText<'_> {
    fn fmt<W: fmt::Write>(&self, f: &mut fmt::Formatter<W>) -> fmt::Result {
        match self.0 {
            Reply::Added(ticket) => write!(f, "added {}", ticket.0),
            Reply::Running(count) => write!(f, "running {count}"),
            Reply::State(state) => say_state(f, *state),
            Reply::Handles(handles) => say_handles(f, handles.as_slice()),
            Reply::Message {
                handle,
                ticket,
                code,
                size,
                left,
            } => write!(
                f,
                "message {} {} {} {size} left {left}",
                handle.0,
                ticket.0,
                code.number()
            ),
            other => f.write_str(word_of(other)),
        }
    }
}

//! Done messages, and what they should say.

use crate::trouble::{Trouble, holds};
use mx_journal::InfoReply;
use mx_transfer_core::Outcome;
use mx_types::{Code, HandleId, Ticket};

/// What a message should be.
#[derive(Clone, Copy)]
pub enum Wanted {
    /// Of this handle, with this code and body.
    Of(u32, Code, &'static [u8]),
    /// Of this ticket, with code 0, this request and this body.
    Answer(u32, &'static [u8], &'static [u8]),
    /// Of whichever handle, with code 0 and this body.
    Whole(&'static [u8]),
    /// There should be none.
    Nothing,
}

// Whether an outcome has this code, and this body: in one part, or in none where it is empty.
fn ends_with(outcome: &Outcome, code: Code, body: &[u8]) -> bool {
    if outcome.code() != code {
        return false;
    }
    if body.is_empty() {
        return outcome.part_count() == 0;
    }
    outcome.part_count() == 1 && outcome.part(0) == Some(body)
}

// Whether a message is what it should be.
fn is_wanted(handle: HandleId, ticket: Ticket, outcome: &Outcome, wanted: Wanted) -> bool {
    match wanted {
        Wanted::Of(own, code, body) => handle.0 == own && ends_with(outcome, code, body),
        Wanted::Answer(own, request, body) => {
            ticket.0 == own
                && outcome.request().bytes() == request
                && ends_with(outcome, Code::Ok, body)
        }
        Wanted::Whole(body) => ends_with(outcome, Code::Ok, body),
        Wanted::Nothing => false,
    }
}

/// Fails unless the reply is what it should be: as refused where memory was, for the call or for the transfer.
pub fn compare(reply: &InfoReply<Outcome>, wanted: Wanted) -> Result<(), Trouble> {
    match reply {
        InfoReply::Message {
            handle,
            ticket,
            ending,
            left: _,
        } => {
            if is_wanted(*handle, *ticket, ending, wanted) {
                return Ok(());
            }
            if ending.code() == Code::OutOfMemory {
                return Err(Trouble::Refused);
            }
            Err(Trouble::Wrong)
        }
        InfoReply::Empty => holds(matches!(wanted, Wanted::Nothing)),
        InfoReply::OutOfMemory => Err(Trouble::Refused),
    }
}

/// The handle of a message.
pub fn handle_of(reply: &InfoReply<Outcome>) -> Option<u32> {
    match reply {
        InfoReply::Message { handle, .. } => Some(handle.0),
        _ => None,
    }
}

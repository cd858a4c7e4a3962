//! The tickets whose message waits to be read.
ghost use Rattle.std.specs.Prelude.{◌≡◌, ◌<◌, ◌||◌, ℕ, vec_capacity, vec_len};
ghost use Rattle.mx_types.specs.declared.code.Code.{Code};
ghost use Rattle.mx_types.specs.declared.names.Ticket.{Ticket};
ghost use Rattle.mx_history.specs.History.{reads, removes};
ghost use Rattle.mx_history.specs.Rows.{waits_after};

use mx_types::{Ticket, What};

/// Whether the event reads the ticket's message, or removes its addition.
fn takes(ticket: Ticket, what: &What) -> bool
    ensures { result ≡ (reads ticket what.now || removes ticket what.now) }
{
    matches!(what, What::Read(other) | What::Removed(_, other) if ticket == *other)
}

/// The waiting tickets after an event. An end has room.
pub fn enter(waiting: &mut Vec<Ticket>, what: &What)
    requires { (ticket : Ticket) (code : Code) (size : ℕ) → what.now ≡ What.Done ticket code size → vec_len waiting.old < vec_capacity waiting.old }
    ensures items { waiting.new.items ≡ waits_after waiting.old.items what.now }
    ensures capacity { vec_capacity waiting.new ≡ vec_capacity waiting.old }
{
    match what {
        What::Done(ticket, _, _) => waiting.push_reserved(*ticket),
        _ => waiting.retain(|t| !takes(*t, what)),
    }
}

//! A caller with two seats: one adds, the other reads, and both are in one legal history.

ghost use Rattle.std.specs.Prelude.{◌≡◌, IfSome, OnOk, length};
ghost use Rattle.mx_types.specs.declared.call.Call.{Call};
ghost use Rattle.mx_types.specs.declared.origin.Origin.{Origin};
ghost use Rattle.mx_types.specs.declared.reply.Reply.{Reply};
ghost use Rattle.mx_request.specs.Request.{request_origin};
ghost use Rattle.mx_board.specs.Board.{OneBeginsOther};
ghost use Rattle.mx_lock.specs.Ties.{Has, tie};
ghost use Rattle.mx_multi.specs.Seats.{HasReceipts, Stands};
ghost use Rattle.mx_message.specs.Message.{IsNextMessage};

use mx_chain::Outcome;
use mx_journal::AddReply;
use mx_message::{Message, next_message};
use mx_multi::{Application, Seated};
use mx_types::{Call, HandleId, Reply, Ticket, Work};
use std::sync::Wait;

// The next message, where it is of this ticket.
fn read_of<Q: Work + Drop, R: Wait>(
    rt: &R,
    reader: &mut Seated<'_, Application, Q, Outcome>,
    ticket: Ticket,
) -> Option<Message>
    ensures of { reader.new.of ≡ reader.old.of }
    ensures message { IfSome result (λ m. IsNextMessage reader.old reader.new m.handle m.ticket m.outcome m.left) }
    ensures confirmed { IfSome result (λ _. reader.new.confirmed ≡ length reader.new.seen) }
    ensures told { IfSome result (λ m. Has reader.new.ties (tie m.ticket (request_origin m.outcome.request))) }
    ensures ticket { IfSome result (λ m. m.ticket ≡ ticket) }
{
    let Ok(message) = next_message(rt, reader) else {
        return None;
    };
    if message.ticket != ticket {
        return None;
    }
    Some(message)
}

// What two seats of one multi handle have seen, where all of it is confirmed.
fn compare<Q: Work + Drop>(
    adder: &Seated<'_, Application, Q, Outcome>,
    reader: &Seated<'_, Application, Q, Outcome>,
)
    requires own { reader.now.of ≡ adder.now.of }
    requires adder { adder.now.confirmed ≡ length adder.now.seen }
    requires reader { reader.now.confirmed ≡ length reader.now.seen }
    ensures { OneBeginsOther adder.now.seen reader.now.seen }
{
    adder.are_of_one_journal(reader)
}

// Two seats of one multi handle that were told of a ticket were told of one request.
fn agree<Q: Work + Drop>(
    reader: &Seated<'_, Application, Q, Outcome>,
    adder: &Seated<'_, Application, Q, Outcome>,
    ticket: Ticket,
    message: &Message,
)
    requires own { adder.now.of ≡ reader.now.of }
    requires told { Has reader.now.ties (tie message.now.ticket (request_origin message.now.outcome.request)) }
    requires same { message.now.ticket ≡ ticket }
    ensures { (origin : Origin) → Has adder.now.ties (tie ticket origin) → request_origin message.now.outcome.request ≡ origin }
{
    reader.are_told_alike(adder)
}

/// Adds by one seat, and reads the next message by another, of the same multi handle. The call of each is once in the events that it has
/// then seen, in the order of its calls, with the reply that a multi handle for one thread gives there. What one of them has seen is a
/// prefix of what the other has, so all of it is one legal history. A message of this addition is of the very request that was added.
pub fn add_and_read<Q: Work + Drop, R: Wait>(
    rt: &R,
    adder: &mut Seated<'_, Application, Q, Outcome>,
    reader: &mut Seated<'_, Application, Q, Outcome>,
    handle: HandleId,
    work: Q,
) -> Option<(Ticket, Message)>
    requires own { reader.old.of ≡ adder.old.of }
    ensures stands { IfSome result (λ r. Stands adder.old adder.new (Call.Add handle) (Reply.Added r.0)) }
    ensures message { IfSome result (λ r. IsNextMessage reader.old reader.new r.1.handle r.1.ticket r.1.outcome r.1.left) }
    ensures placed { IfSome result (λ _. HasReceipts adder.new × HasReceipts reader.new) }
    ensures one { IfSome result (λ _. OneBeginsOther adder.new.seen reader.new.seen) }
    ensures request { IfSome result (λ r. request_origin r.1.outcome.request ≡ Q.origin work) }
{
    let Ok(AddReply::Added(ticket)) = adder.add(rt, handle, work) else {
        return None;
    };
    let Some(message) = read_of(rt, reader, ticket) else {
        return None;
    };
    // proof: what holds of each seat, and of both
    adder.is_placed();
    reader.is_placed();
    compare(adder, reader);
    agree(reader, adder, ticket, &message);
    Some((ticket, message))
}

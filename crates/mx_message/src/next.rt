//! The next message, and what is known of it.
ghost use Rattle.std.specs.Prelude.{◌≡◌, IfErr, IfOk, IfSome, MatchOption, OnOk, length};
ghost use Rattle.mx_types.specs.declared.code.Code.TheVariants as code;
ghost use Rattle.mx_chain.specs.Outcomes.{IsEnd};
ghost use Rattle.mx_message.specs.Message.{DeliversBody, IsNextEnd, IsNextMessage, IsRead, Unread, Waited};

use mx_chain::Outcome;
use mx_journal::InfoReply;
use mx_multi::{Application, Seated};
use mx_sink::{Delivery, Held};
use mx_types::{Code, HandleId, Ticket, Work};
use std::rt::Clock;
use std::sync::Wait;

/// A done message: how the transfer of an addition ended.
#[derive(Drop)]
pub struct Message<D: Delivery = Held> {
    pub handle: HandleId,
    /// The number of the addition.
    pub ticket: Ticket,
    pub code: Code,
    pub outcome: Outcome<D>,
    /// How many messages wait after it.
    pub left: u32,
}

/// No message was read: a call was answered `WrongSeat`, or memory was refused.
#[derive(Clone, Copy)]
pub struct NoMessage;

// What is known of an outcome.
fn know<D: Delivery>(outcome: &Outcome<D>)
    ensures end { IsEnd outcome.now }
    ensures body { outcome.now.code ≡ code.Ok → DeliversBody outcome.now }
{
    // proof: what holds of an outcome, and of its code
    outcome.know_end();
    let _code = outcome.code();
}

// Reads the first message, if one waits.
fn read_now<Q: Work + Drop, D: Delivery, R: Wait>(
    rt: &R,
    seat: &mut Seated<'_, Application, Q, Outcome<D>>,
) -> Result<Option<Message<D>>, NoMessage>
    ensures of { seat.new.of ≡ seat.old.of }
    ensures unread { IfErr result (λ _. Unread seat.old seat.new) }
    ensures read { IfOk result (λ o. MatchOption o (Waited seat.old seat.new) (λ m. (m.code ≡ m.outcome.code) × IsRead seat.old seat.new m.handle m.ticket m.outcome m.left)) }
    ensures confirmed { OnOk result (seat.new.confirmed ≡ length seat.new.seen) }
{
    let Ok(reply) = seat.info_read(rt) else {
        return Err(NoMessage);
    };
    match reply {
        InfoReply::Message {
            handle,
            ticket,
            ending,
            left,
        } => {
            // proof: what holds of an outcome
            know(&ending);
            let code = Outcome::code(&ending);
            Ok(Some(Message {
                handle,
                ticket,
                code,
                outcome: ending,
                left,
            }))
        }
        InfoReply::Empty => Ok(None),
        InfoReply::OutOfMemory => Err(NoMessage),
    }
}

// Reads the first message. Where none waits it polls, and answers None.
fn read_once<Q: Work + Drop, D: Delivery, R: Wait>(
    rt: &R,
    seat: &mut Seated<'_, Application, Q, Outcome<D>>,
) -> Result<Option<Message<D>>, NoMessage>
    ensures of { seat.new.of ≡ seat.old.of }
    ensures unread { IfErr result (λ _. Unread seat.old seat.new) }
    ensures read { IfOk result (λ o. MatchOption o (Waited seat.old seat.new) (λ m. (m.code ≡ m.outcome.code) × IsRead seat.old seat.new m.handle m.ticket m.outcome m.left)) }
    ensures confirmed { IfOk result (λ o. IfSome o (λ _. seat.new.confirmed ≡ length seat.new.seen)) }
{
    match read_now(rt, seat)? {
        Some(message) => Ok(Some(message)),
        None => {
            let Ok(_) = seat.poll(rt) else {
                return Err(NoMessage);
            };
            Ok(None)
        }
    }
}

// Polls for so many milliseconds at most.
fn poll_within<Q: Work + Drop, D: Delivery, R: Wait + Clock>(
    rt: &R,
    seat: &mut Seated<'_, Application, Q, Outcome<D>>,
    milliseconds: u32,
) -> Result<(), NoMessage>
    ensures of { seat.new.of ≡ seat.old.of }
    ensures unread { IfErr result (λ _. seat.new ≡ seat.old) }
    ensures waited { IfOk result (λ _. Waited seat.old seat.new) }
{
    match seat.poll_for(rt, milliseconds) {
        Ok(_) => Ok(()),
        Err(_) => Err(NoMessage),
    }
}

/// Reads the next message, whatever became of the content of its response; where none waits, it waits for one as long as that, at most
/// (curl_multi_poll(3) with its timeout). Of a message it says what `next_end` says. Where none came it answers None, and the receipts of the
/// calls that waited for one follow those that the seat had, as they do where it answers `NoMessage`. No clause says that it waits that long,
/// or no longer.
pub fn next_end_within<Q: Work + Drop, D: Delivery, R: Wait + Clock>(
    rt: &R,
    seat: &mut Seated<'_, Application, Q, Outcome<D>>,
    milliseconds: u32,
) -> Result<Option<Message<D>>, NoMessage>
    ensures of { seat.new.of ≡ seat.old.of }
    ensures unread { IfErr result (λ _. Unread seat.old seat.new) }
    ensures code { IfOk result (λ o. IfSome o (λ m. m.code ≡ m.outcome.code)) }
    ensures message { IfOk result (λ o. MatchOption o (Waited seat.old seat.new) (λ m. IsNextEnd seat.old seat.new m.handle m.ticket m.outcome m.left)) }
    ensures confirmed { OnOk result (seat.new.confirmed ≡ length seat.new.seen) }
{
    match read_now(rt, seat)? {
        Some(message) => Ok(Some(message)),
        None => {
            poll_within(rt, seat, milliseconds)?;
            read_now(rt, seat)
        }
    }
}

// rule multi-next-message
/// Waits for the next message, and reads it (curl_multi_info_read(3), curl_multi_poll(3)), whatever became of the content of its response.
///
/// The reading is in the one legal history that the seat has then seen, after all that it had seen, with the answer of a one-thread multi
/// handle, and its receipt follows those of the calls that waited for it. In that history the ticket has one end and one reading at most,
/// and nothing after its removal, and messages are first in, first out. The outcome's request is the one that was added under the ticket,
/// and its hops are a chain from there on: each later request is the one to which the response before led, and each hop ended by the
/// answers of its link. With `Code::Ok` the last hop has the body of the response to the last request of the chain, by RFC 9112, within the
/// bytes that its connection gave: it carries the body where that is held, and else the body was handed on, to the delivery but for a rest
/// (`Outcome::delivery`).
///
/// The calls that waited for it, which are readings that found none and polls, have receipts after those that the seat had. So have they
/// where it answers `NoMessage`, and after them perhaps a reading that was refused memory.
#[tactic(auto, using(crate::proofs::Messages::waited_none, crate::proofs::Messages::waited_on))]
pub fn next_end<Q: Work + Drop, D: Delivery, R: Wait>(
    rt: &R,
    seat: &mut Seated<'_, Application, Q, Outcome<D>>,
) -> Result<Message<D>, NoMessage>
    ensures of { seat.new.of ≡ seat.old.of }
    ensures unread { IfErr result (λ _. Unread seat.old seat.new) }
    ensures code { IfOk result (λ m. m.code ≡ m.outcome.code) }
    ensures message { IfOk result (λ m. IsNextEnd seat.old seat.new m.handle m.ticket m.outcome m.left) }
    ensures confirmed { OnOk result (seat.new.confirmed ≡ length seat.new.seen) }
{
    for _ in rt.forever() {
        if let Some(message) = read_once(rt, seat)? {
            return Ok(message);
        }
    }
    unreachable!()
}

/// `next_end_within`, of transfers whose responses are held.
pub fn next_message_within<Q: Work + Drop, R: Wait + Clock>(
    rt: &R,
    seat: &mut Seated<'_, Application, Q, Outcome>,
    milliseconds: u32,
) -> Result<Option<Message>, NoMessage>
    ensures of { seat.new.of ≡ seat.old.of }
    ensures unread { IfErr result (λ _. Unread seat.old seat.new) }
    ensures code { IfOk result (λ o. IfSome o (λ m. m.code ≡ m.outcome.code)) }
    ensures message { IfOk result (λ o. MatchOption o (Waited seat.old seat.new) (λ m. IsNextMessage seat.old seat.new m.handle m.ticket m.outcome m.left)) }
    ensures confirmed { OnOk result (seat.new.confirmed ≡ length seat.new.seen) }
{
    match next_end_within(rt, seat, milliseconds)? {
        Some(message) => {
            // proof: its response is held
            message.outcome.know();
            Ok(Some(message))
        }
        None => Ok(None),
    }
}

// rule multi-next-message
/// `next_end`, of transfers whose responses are held: with `Code::Ok` the outcome carries the body of the response to the last request of
/// the chain, by RFC 9112, within the bytes that the last hop's connection gave.
pub fn next_message<Q: Work + Drop, R: Wait>(
    rt: &R,
    seat: &mut Seated<'_, Application, Q, Outcome>,
) -> Result<Message, NoMessage>
    ensures of { seat.new.of ≡ seat.old.of }
    ensures unread { IfErr result (λ _. Unread seat.old seat.new) }
    ensures code { IfOk result (λ m. m.code ≡ m.outcome.code) }
    ensures message { IfOk result (λ m. IsNextMessage seat.old seat.new m.handle m.ticket m.outcome m.left) }
    ensures confirmed { OnOk result (seat.new.confirmed ≡ length seat.new.seen) }
{
    let message = next_end(rt, seat)?;
    // proof: its response is held
    message.outcome.know();
    Ok(message)
}

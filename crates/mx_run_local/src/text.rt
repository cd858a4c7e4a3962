//! The texts of a play: what a line of a script prints.
ghost use Rattle.std.specs.Prelude.{◌≡◌, ◌++◌, ◌∷◌, [], true, map, IsErr, OnOk};
ghost use Rattle.mx_run_io.specs.Ends.{has_failed_write, Wrote};
ghost use Rattle.mx_journal.specs.History.{added};
ghost use Rattle.mx_run_local.specs.Texts.{look_text, state_text, handles_text, reply_text, said_text};
ghost use Rattle.mx_run_local.specs.Players.{reply_of, said_of};

use crate::player::{LineReply, Player};
use crate::reply::ShortReply;
use mx_run_io::{Output, WriteFailed};
use mx_types::{AddedHandles, Look, State};
use std::io::Write;

fn write_state<W: Write>(output: &mut Output<W>, state: State) -> Result<(), WriteFailed>
    ensures bytes { OnOk result (Wrote W.contents output.old output.new (state_text state ++ 10 ∷ [])) }
    ensures failed { IsErr result → has_failed_write output.new ≡ true }
{
    match state {
        State::NotAdded => output.print(format_args!("not-added\n")),
        State::Running(ticket) => output.print(format_args!("running {}\n", ticket.0)),
        State::Paused(ticket) => output.print(format_args!("paused {}\n", ticket.0)),
        State::Done(ticket, code) => output.print(format_args!(
            "done {} {}\n",
            ticket.0,
            code.number()
        )),
        State::Read(ticket, code) => output.print(format_args!(
            "read {} {}\n",
            ticket.0,
            code.number()
        )),
    }
}

fn write_look<W: Write>(output: &mut Output<W>, look: Look) -> Result<(), WriteFailed>
    ensures bytes { OnOk result (Wrote W.contents output.old output.new (look_text look ++ 10 ∷ [])) }
    ensures failed { IsErr result → has_failed_write output.new ≡ true }
{
    match look {
        Look::Go => output.print(format_args!("go\n")),
        Look::Paused => output.print(format_args!("paused\n")),
        Look::Gone => output.print(format_args!("gone\n")),
    }
}

fn write_handles<W: Write>(
    output: &mut Output<W>,
    handles: &AddedHandles,
) -> Result<(), WriteFailed>
    ensures bytes { OnOk result (Wrote W.contents output.old output.new (handles_text handles.now ++ 10 ∷ [])) }
    ensures failed { IsErr result → has_failed_write output.new ≡ true }
{
    output.print(format_args!("handles"))?;
    for handle in handles.as_slice() {
        output.print(format_args!(" {}", handle.0))?;
    }
    output.print(format_args!("\n"))
}

/// The list is made and printed here, so that no other line moves its kilobyte.
fn write_handles_of<W: Write>(output: &mut Output<W>, player: &Player) -> Result<(), WriteFailed>
    ensures bytes { OnOk result (Wrote W.contents output.old output.new
        (handles_text (map (λ a. a.handle) (added player.now.journal)) ++ 10 ∷ [])) }
    ensures failed { IsErr result → has_failed_write output.new ≡ true }
{
    write_handles(output, &player.handles())
}

fn write_reply<W: Write>(output: &mut Output<W>, reply: &ShortReply) -> Result<(), WriteFailed>
    ensures bytes { OnOk result (Wrote W.contents output.old output.new (reply_text (reply_of reply.now) ++ 10 ∷ [])) }
    ensures failed { IsErr result → has_failed_write output.new ≡ true }
{
    match reply {
        ShortReply::Added(ticket) => output.print(format_args!("added {}\n", ticket.0)),
        ShortReply::AddedAlready => output.print(format_args!("added-already\n")),
        ShortReply::TableFull => output.print(format_args!("table-full\n")),
        ShortReply::TicketsSpent => output.print(format_args!("tickets-spent\n")),
        ShortReply::HistoryFull => output.print(format_args!("history-full\n")),
        ShortReply::Removed => output.print(format_args!("removed\n")),
        ShortReply::RemoveNotAdded => output.print(format_args!("not-added\n")),
        ShortReply::Changed => output.print(format_args!("changed\n")),
        ShortReply::NotAdded => output.print(format_args!("not-added\n")),
        ShortReply::NotRunning => output.print(format_args!("not-running\n")),
        ShortReply::NoChange => output.print(format_args!("no-change\n")),
        ShortReply::Message {
            handle,
            ticket,
            code,
            size,
            left,
        } => output.print(format_args!(
            "message {} {} {} {} left {}\n",
            handle.0,
            ticket.0,
            code.number(),
            size,
            left
        )),
        ShortReply::Empty => output.print(format_args!("empty\n")),
        ShortReply::Ok => output.print(format_args!("ok\n")),
        ShortReply::Failure => output.print(format_args!("failure\n")),
        ShortReply::Woken => output.print(format_args!("woken\n")),
        ShortReply::Running(count) => output.print(format_args!("running {}\n", count)),
        ShortReply::State(state) => write_state(output, *state),
        ShortReply::Recorded => output.print(format_args!("recorded\n")),
        ShortReply::Stale => output.print(format_args!("stale\n")),
        ShortReply::Look(look) => write_look(output, *look),
    }
}

/// Prints the answer to a line, as one line: the list of handles is that of the player.
#[inline(always)]
pub fn write_said<W: Write>(
    output: &mut Output<W>,
    player: &Player,
    said: LineReply,
) -> Result<(), WriteFailed>
    ensures bytes { OnOk result (Wrote W.contents output.old output.new (said_text (said_of player.now said))) }
    ensures failed { IsErr result → has_failed_write output.new ≡ true }
{
    match said {
        LineReply::Core(reply) => write_reply(output, &reply),
        LineReply::Handles => write_handles_of(output, player),
        LineReply::NoClaim => output.print(format_args!("no-claim\n")),
        LineReply::WouldWait => output.print(format_args!("would-wait\n")),
        LineReply::Retired(kept) => output.print(format_args!("retired {}\n", kept)),
        LineReply::ClaimOut => output.print(format_args!("claim-out\n")),
    }
}

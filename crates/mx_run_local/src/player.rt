//! The player of a script: seat 0 of a control core of its own.
ghost use Rattle.std.specs.Prelude.{◌≡◌, [], IfOk, map};
ghost use Rattle.mx_types.specs.Limits.{IsHistory};
ghost use Rattle.mx_types.specs.declared.call.Call.{Call};
ghost use Rattle.mx_journal.specs.History.{added};
ghost use Rattle.mx_run_local.specs.Turns.{says, player_past, says_retiring, past_retiring};
ghost use Rattle.mx_run_local.specs.Players.{IsAnswered, said_of};
ghost use Rattle.mx_run_local.specs.Run.{fresh};

use crate::claims::Claims;
use crate::reply::{ShortReply, short_add, short_info, short_pause, short_remove, short_wakeup};
use mx_journal::{AddReply, Control, FinishReply, RetireReply, VecLog};
use mx_types::{AddedHandles, Call, Code, Ending, HandleId, OutOfMemory, Ticket, Who, Work};
use std::alloc::Global;
use std::marker::Model;

/// Work without a request.
#[derive(Drop)]
pub struct NoWork;

impl Work for NoWork {
    ghost use Rattle.mx_types.specs.Origin.{no_request};

    ghost origin = { λ _. no_request };
}

/// The end of a transfer without a request, as the script gives it.
#[derive(Drop)]
pub struct ToldEnd {
    code: Code,
    size: u32,
}

impl Ending for ToldEnd {
    ghost use Rattle.mx_types.specs.Origin.{no_request};

    ghost origin = { λ _. no_request };

    ghost code_of = { λ e. e.code };

    ghost size_of = { λ e. e.size };

    fn code(&self) -> Code {
        self.code
    }

    fn size(&self) -> u32 {
        self.size
    }
}

/// The answer to a line of a script. The list of handles isn't in it, since each answer would then be as large as the longest list: it is
/// printed from the player.
#[derive(Clone, Copy)]
pub enum LineReply {
    Core(ShortReply),
    /// The handles that are added.
    Handles,
    /// A `done` of a ticket without a kept claim.
    NoClaim,
    /// A `poll` that would have to wait.
    WouldWait,
    /// Old history was retired, and so many events were kept.
    Retired(u32),
    /// A claim is out, so that old history isn't retired.
    ClaimOut,
}

const SEAT: Who = Who::Seat(0);

/// A control core, the log that it is lent, the claims that are kept, and the mark of the next poll.
#[derive(Drop)]
pub struct Player {
    control: Control<NoWork, ToldEnd>,
    log: VecLog,
    claims: Claims,
    mark: u32,
}

impl Model for Player {
    ghost use Rattle.std.specs.Prelude.{◌≡◌, ◌+◌, ◌≤◌, [], length};
    ghost use Rattle.mx_run_local.specs.Turns.{PlayerView};

    ghost Value = { PlayerView };

    ghost view = { λ p. record { opening = p.control.opening; journal = p.control.journal; claims = p.claims.tickets; mark = p.mark } };

    ghost invariant = { λ p. record {
      queue : p.control.queue ≡ [];
      out : p.control.out ≡ length p.claims.tickets;
      next : p.claims.first + p.claims.made ≡ length p.control.origins;
      few : p.claims.made ≤ length p.control.journal;
      space : p.control.opening.history ≤ p.claims.space;
    } };
}

impl Player {
    pub fn new(alloc: Global, history: u32, first: u32) -> Result<Player, OutOfMemory>
        requires { IsHistory history }
        ensures { IfOk result (λ p. p ≡ fresh history first) }
    {
        Ok(Player {
            control: Control::starting(alloc, history, first)?,
            log: VecLog::new(alloc),
            claims: Claims::new(alloc, first, history)?,
            mark: 0,
        })
    }

    /// Makes a call. `OutOfMemory` comes only at a call whose answer has an event; the run then ends.
    pub fn call(&mut self, call: Call) -> Result<LineReply, OutOfMemory>
        ensures { IsAnswered self.old call result self.new }
    {
        match call {
            Call::Add(handle) => self.add(handle),
            Call::Remove(handle) => self.remove(handle),
            Call::Pause(handle) => self.pause(handle),
            Call::Unpause(handle) => self.unpause(handle),
            Call::InfoRead => self.info_read(),
            Call::Wakeup => self.wakeup(),
            Call::Poll => Ok(self.poll()),
            Call::Handles => Ok(LineReply::Handles),
            Call::Running => Ok(LineReply::Core(ShortReply::Running(self.control.running()))),
            Call::State(handle) => Ok(LineReply::Core(ShortReply::State(
                self.control.state(handle),
            ))),
            Call::Finish(ticket, code, size) => self.finish(ticket, ToldEnd { code, size }),
            Call::Look(ticket) => Ok(LineReply::Core(ShortReply::Look(self.control.look(ticket)))),
        }
    }

    /// Retires old history, unless a claim is out.
    pub fn retire(&mut self) -> LineReply
        ensures { (said_of self.new result ≡ says_retiring self.old) × (self.new ≡ past_retiring self.old) }
    {
        match self.control.retire() {
            RetireReply::Retired(kept) => {
                // Nothing reads the log, so it needn't have what was retired.
                self.log.clear();
                self.claims.clear();
                self.mark = kept;
                LineReply::Retired(kept)
            }
            RetireReply::ClaimOut => LineReply::ClaimOut,
        }
    }

    /// The handles that are added, in the order of their addition.
    pub fn handles(&self) -> AddedHandles
        ensures { result ≡ map (λ a. a.handle) (added self.now.journal) }
    {
        self.control.handles()
    }

    /// Adds a handle, and keeps the claim on its transfer.
    fn add(&mut self, handle: HandleId) -> Result<LineReply, OutOfMemory>
        ensures { IsAnswered self.old (Call.Add handle) result self.new }
    {
        // proof: what holds of a core
        self.control.sound();
        match self.control.add(&mut self.log, SEAT, handle, NoWork) {
            AddReply::Added(ticket) => {
                let Some((claim, _work)) = self.control.claim() else {
                    unreachable!()
                };
                self.claims.keep(claim);
                Ok(LineReply::Core(ShortReply::Added(ticket)))
            }
            refused => Ok(LineReply::Core(short_add(&refused)?)),
        }
    }

    fn remove(&mut self, handle: HandleId) -> Result<LineReply, OutOfMemory>
        ensures { IsAnswered self.old (Call.Remove handle) result self.new }
    {
        let reply = self.control.remove(&mut self.log, SEAT, handle);
        Ok(LineReply::Core(short_remove(reply)?))
    }

    fn pause(&mut self, handle: HandleId) -> Result<LineReply, OutOfMemory>
        ensures { IsAnswered self.old (Call.Pause handle) result self.new }
    {
        let reply = self.control.pause(&mut self.log, SEAT, handle);
        Ok(LineReply::Core(short_pause(reply)?))
    }

    fn unpause(&mut self, handle: HandleId) -> Result<LineReply, OutOfMemory>
        ensures { IsAnswered self.old (Call.Unpause handle) result self.new }
    {
        let reply = self.control.unpause(&mut self.log, SEAT, handle);
        Ok(LineReply::Core(short_pause(reply)?))
    }

    fn info_read(&mut self) -> Result<LineReply, OutOfMemory>
        ensures { IsAnswered self.old Call.InfoRead result self.new }
    {
        let reply = self.control.info_read(&mut self.log, SEAT);
        Ok(LineReply::Core(short_info(&reply)?))
    }

    fn wakeup(&mut self) -> Result<LineReply, OutOfMemory>
        ensures { IsAnswered self.old Call.Wakeup result self.new }
    {
        let reply = self.control.wakeup(&mut self.log, SEAT);
        Ok(LineReply::Core(short_wakeup(reply)?))
    }

    fn poll(&mut self) -> LineReply
        ensures { (said_of self.new result ≡ says self.old Call.Poll) × (self.new ≡ player_past self.old Call.Poll) }
    {
        if !self.control.poll_ready(self.mark) {
            return LineReply::WouldWait;
        }
        self.mark = self.control.len();
        LineReply::Core(ShortReply::Woken)
    }

    /// Records the end of a transfer whose claim is kept. The claim is spent, unless memory is refused.
    fn finish(&mut self, ticket: Ticket, ending: ToldEnd) -> Result<LineReply, OutOfMemory>
        ensures { IsAnswered self.old (Call.Finish ticket ending.code ending.size) result self.new }
    {
        let Some(claim) = self.claims.take(ticket) else {
            return Ok(LineReply::NoClaim);
        };
        match self.control.finish(&mut self.log, SEAT, claim, ending) {
            FinishReply::Recorded => Ok(LineReply::Core(ShortReply::Recorded)),
            FinishReply::Stale(_) => Ok(LineReply::Core(ShortReply::Stale)),
            FinishReply::OutOfMemory(claim, _) => {
                self.claims.keep_again(claim);
                Err(OutOfMemory)
            }
        }
    }
}

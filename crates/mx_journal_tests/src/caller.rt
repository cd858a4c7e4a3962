//! A control core with its log, the calls that rows make on it, and what they answer.
ghost use Rattle.std.specs.Prelude.{◌≡◌};
ghost use Rattle.mx_types.specs.Limits.{IsHistory};
ghost use Rattle.mx_types.specs.Origin.{no_request};

use crate::callers::{claim_and_give_back, retire_and_see};
use crate::sample::{CodeEnding, Held, NumberedWork, RefusesOnce, SEAT, WORKER};
use mx_journal::{
    AddReply, Claim, Control, FinishReply, GiveBackReply, InfoReply, Log, PauseReply, RemoveReply,
    RetireReply, WakeupReply, definitions,
};
use mx_types::{Code, Event, HandleId, Look, OutOfMemory, State, Ticket, What};
use std::alloc::Global;

/// A call.
#[derive(Clone, Copy)]
pub enum Step {
    /// Adds the handle, with work of this number.
    Add(u32, u32),
    Pause(u32),
    Unpause(u32),
    Remove(u32),
    /// Claims the next work, and holds the claim.
    Claim,
    /// The same, and drops the claim.
    Next,
    /// Ends the transfer of the last claim that is held, with this code.
    Finish(Code),
    /// Gives back the work of the last claim that is held.
    GiveBack,
    /// Claims the next work and gives it back.
    Undo,
    Read,
    Wakeup,
    /// A poll with this mark.
    Poll(u32),
    Retire,
    /// The same, where just this is what the log says is kept, and what is in the journal then.
    RetireTo(&'static [What]),
    /// Retires, and sees the state of the handle.
    RetireAndSee(u32),
    State(u32),
    Look(u32),
    /// How many run.
    Running,
    /// How many messages wait, and the ticket of the first.
    Waiting,
    /// How many events there are in the journal, and in the log.
    Events,
    /// How many calls of the seat are in the journal.
    Made,
}

/// What a call answers.
#[derive(Clone, Copy, PartialEq, Eq)]
pub enum Said {
    Added(u32),
    AddedAlready,
    TableFull,
    TicketsSpent,
    HistoryFull,
    Removed,
    Changed,
    NoChange,
    NotRunning,
    NotAdded,
    /// A ticket, and the number of its work.
    Claimed(u32, u32),
    NoClaim,
    Recorded,
    /// What is handed back.
    StaleEnd(Code),
    Back,
    /// The number of the work that is handed back.
    StaleWork(u32),
    Undone,
    /// Of a handle, its ticket, its code, and how many messages are left.
    Message(u32, u32, Code, u32),
    Empty,
    Ok,
    Failure,
    Ready(bool),
    Retired(u32),
    ClaimOut,
    State(State),
    Look(Look),
    Count(u32),
    First(usize, Option<Ticket>),
    Events(u32, usize),
    OutOfMemory,
    /// Something else is kept, or the test itself finds no memory.
    Else,
}

/// A control core, its log, and the claims that are held.
#[derive(Drop)]
pub struct Caller {
    pub control: Control<NumberedWork, CodeEnding>,
    pub log: RefusesOnce,
    held: Vec<Held>,
}

impl Caller {
    /// A core of so many events that begins with this ticket, and a log that refuses the append of that number.
    pub fn new(
        alloc: Global,
        history: u32,
        first: u32,
        refused: Option<u32>,
    ) -> Result<Caller, OutOfMemory>
        requires { IsHistory history }
    {
        Ok(Caller {
            control: Control::starting(alloc, history, first)?,
            log: RefusesOnce::new(alloc, refused),
            held: Vec::new(alloc),
        })
    }

    fn add(&mut self, handle: u32, number: u32) -> Said {
        let handle = HandleId(handle);
        match self
            .control
            .add(&mut self.log, SEAT, handle, NumberedWork { number })
        {
            AddReply::Added(ticket) => Said::Added(ticket.0),
            AddReply::AddedAlready(_) => Said::AddedAlready,
            AddReply::TableFull(_) => Said::TableFull,
            AddReply::TicketsSpent(_) => Said::TicketsSpent,
            AddReply::HistoryFull(_) => Said::HistoryFull,
            AddReply::OutOfMemory(_) => Said::OutOfMemory,
        }
    }

    fn remove(&mut self, handle: u32) -> Said {
        match self.control.remove(&mut self.log, SEAT, HandleId(handle)) {
            RemoveReply::Removed => Said::Removed,
            RemoveReply::NotAdded => Said::NotAdded,
            RemoveReply::OutOfMemory => Said::OutOfMemory,
        }
    }

    fn pause(&mut self, handle: u32, resumes: bool) -> Said {
        let handle = HandleId(handle);
        let reply = if resumes {
            self.control.unpause(&mut self.log, SEAT, handle)
        } else {
            self.control.pause(&mut self.log, SEAT, handle)
        };
        match reply {
            PauseReply::Changed => Said::Changed,
            PauseReply::NotAdded => Said::NotAdded,
            PauseReply::NotRunning => Said::NotRunning,
            PauseReply::NoChange => Said::NoChange,
            PauseReply::HistoryFull => Said::HistoryFull,
            PauseReply::OutOfMemory => Said::OutOfMemory,
        }
    }

    // Holds a claim with its work: what was said, where there is memory for that.
    fn hold(&mut self, claim: Claim<NumberedWork>, job: NumberedWork, said: Said) -> Said
        requires { claim.origin ≡ no_request }
    {
        if self.held.push(Held { claim, job }).is_ok() {
            return said;
        }
        Said::Else
    }

    fn claim(&mut self, holds: bool) -> Said {
        let Some((claim, job)) = self.control.claim() else {
            return Said::NoClaim;
        };
        let said = Said::Claimed(claim.ticket().0, job.number);
        if holds {
            return self.hold(claim, job, said);
        }
        said
    }

    fn finish(&mut self, code: Code) -> Said {
        let Some(Held { claim, job }) = self.held.pop() else {
            return Said::NoClaim;
        };
        match self
            .control
            .finish(&mut self.log, WORKER, claim, CodeEnding { code })
        {
            FinishReply::Recorded => Said::Recorded,
            FinishReply::Stale(end) => Said::StaleEnd(end.code),
            FinishReply::OutOfMemory(claim, _end) => self.hold(claim, job, Said::OutOfMemory),
        }
    }

    fn give_back(&mut self) -> Said {
        let Some(Held { claim, job }) = self.held.pop() else {
            return Said::NoClaim;
        };
        match self.control.give_back(claim, job) {
            GiveBackReply::Back => Said::Back,
            GiveBackReply::Stale(job) => Said::StaleWork(job.number),
        }
    }

    fn read(&mut self) -> Said {
        match self.control.info_read(&mut self.log, SEAT) {
            InfoReply::Message {
                handle,
                ticket,
                ending,
                left,
            } => Said::Message(handle.0, ticket.0, ending.code, left),
            InfoReply::Empty => Said::Empty,
            InfoReply::OutOfMemory => Said::OutOfMemory,
        }
    }

    fn wakeup(&mut self) -> Said {
        match self.control.wakeup(&mut self.log, SEAT) {
            WakeupReply::Ok => Said::Ok,
            WakeupReply::Failure => Said::Failure,
            WakeupReply::OutOfMemory => Said::OutOfMemory,
        }
    }

    fn retire(&mut self) -> Said {
        match self.control.retire() {
            RetireReply::Retired(kept) => Said::Retired(kept),
            RetireReply::ClaimOut => Said::ClaimOut,
        }
    }

    // What is kept is what the executable definition finds in the log, and is the journal then.
    fn retire_to(&mut self, alloc: Global, whats: &[What]) -> Said {
        match self.control.kept(alloc) {
            Ok(kept) => self.retire_kept(alloc, kept.as_slice(), whats),
            Err(OutOfMemory) => Said::Else,
        }
    }

    fn retire_kept(&mut self, alloc: Global, kept: &[Event], whats: &[What]) -> Said {
        let are_told = are_retired(alloc, self.log.list.events(), kept) & have(kept, whats);
        let said = self.retire();
        if are_told & is_journal(&self.control, kept) {
            return said;
        }
        Said::Else
    }

    // What changes nothing.
    fn looks(&self, step: Step) -> Said {
        match step {
            Step::Poll(mark) => Said::Ready(self.control.poll_ready(mark)),
            Step::State(handle) => Said::State(self.control.state(HandleId(handle))),
            Step::Look(ticket) => Said::Look(self.control.look(Ticket(ticket))),
            Step::Running => Said::Count(self.control.running()),
            Step::Waiting => {
                let waiting = self.control.waiting();
                Said::First(waiting.len(), waiting.first().copied())
            }
            Step::Events => Said::Events(self.control.len(), self.log.list.events().len()),
            Step::Made => Said::Count(self.control.made(SEAT)),
            _ => Said::Else,
        }
    }

    // What ends a transfer, or retires.
    fn ends(&mut self, alloc: Global, step: Step) -> Said {
        match step {
            Step::Finish(code) => self.finish(code),
            Step::Retire => self.retire(),
            Step::RetireTo(whats) => self.retire_to(alloc, whats),
            Step::RetireAndSee(handle) => {
                Said::State(retire_and_see(&mut self.control, HandleId(handle)))
            }
            _ => self.looks(step),
        }
    }

    /// Makes the call: what it answers.
    pub fn makes(&mut self, alloc: Global, step: Step) -> Said {
        match step {
            Step::Add(handle, number) => self.add(handle, number),
            Step::Pause(handle) => self.pause(handle, false),
            Step::Unpause(handle) => self.pause(handle, true),
            Step::Remove(handle) => self.remove(handle),
            Step::Claim => self.claim(true),
            Step::Next => self.claim(false),
            Step::GiveBack => self.give_back(),
            Step::Undo => {
                claim_and_give_back(&mut self.control);
                Said::Undone
            }
            Step::Read => self.read(),
            Step::Wakeup => self.wakeup(),
            _ => self.ends(alloc, step),
        }
    }
}

// Whether this is what happened in the events.
fn have(events: &[Event], whats: &[What]) -> bool {
    if events.len() != whats.len() {
        return false;
    }
    for at in 0..whats.len() {
        if events[at].what != whats[at] {
            return false;
        }
    }
    true
}

// Whether these are the events that the executable definition keeps of a log.
fn are_retired(alloc: Global, log: &[Event], kept: &[Event]) -> bool {
    match definitions::retire(alloc, log) {
        Ok(told) => told.as_slice() == kept,
        Err(OutOfMemory) => false,
    }
}

// Whether these are the events of the journal.
fn is_journal(control: &Control<NumberedWork, CodeEnding>, events: &[Event]) -> bool {
    if control.len() as usize != events.len() {
        return false;
    }
    for at in 0..events.len() {
        if control.event(at as u32) != Some(events[at]) {
            return false;
        }
    }
    true
}

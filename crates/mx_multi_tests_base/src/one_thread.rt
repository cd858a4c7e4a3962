//! The calls of many makers, one after another, on one thread: the control core alone, with no lock and no versions.
ghost use Rattle.std.specs.Prelude.{◌≡◌, ◌<◌, ◌≤◌, true};
ghost use Rattle.mx_types.specs.Origin.{no_request};
ghost use Rattle.mx_journal.specs.History.{is_maker};

use crate::entries::{Entry, text_of};
use crate::sample::{End, Job};
use mx_journal::{Claim, Control, RetireReply, VecLog};
use mx_types::{Call, HandleId, LEAST_HISTORY, MOST_HISTORY, OutOfMemory, Reply, Ticket, Who};
use std::alloc::Global;

// The index of a maker among the 32: first the seats, then the workers.
fn place_of(who: Who) -> usize
    ensures { result < 32 }
{
    match who {
        Who::Seat(n) => usize::from(n % 16),
        Who::Worker(n) => 16 + usize::from(n % 16),
    }
}

fn may_call(who: Who) -> bool
    ensures { result ≡ is_maker who }
{
    match who {
        Who::Seat(n) => n < 16,
        Who::Worker(n) => n < 16,
    }
}

// A claim on an addition of this crate's work.
#[derive(Drop)]
struct HeldClaim {
    claim: Claim<Job>,
    ghost origin: { claim.origin ≡ no_request },
}

/// A control core with its log, the claims on all additions, and of each maker the mark of its poll and how many calls it has made.
#[derive(Drop)]
pub struct OneThread {
    control: Control<Job, End>,
    log: VecLog,
    held: Vec<Option<HeldClaim>>,
    marks: [u32; 32],
    calls: [usize; 32],
}

impl OneThread {
    /// With room for so many events. Returns `OutOfMemory` also where no multi handle may have such a history.
    pub fn new(alloc: Global, history: u32) -> Result<OneThread, OutOfMemory> {
        if history < LEAST_HISTORY || history > MOST_HISTORY {
            return Err(OutOfMemory);
        }
        Ok(OneThread {
            control: Control::new(alloc, history)?,
            log: VecLog::new(alloc),
            held: Vec::new(alloc),
            marks: [0; 32],
            calls: [0; 32],
        })
    }

    // Adds a handle, and holds the claim on what waits then.
    fn add(&mut self, who: Who, handle: HandleId) -> Result<Reply, OutOfMemory>
        requires { is_maker who ≡ true }
    {
        let reply = self.control.add(&mut self.log, who, handle, Job).reply();
        if let Some((claim, _work)) = self.control.claim() {
            self.held.push(Some(HeldClaim { claim }))?;
        }
        Ok(reply)
    }

    fn finish(&mut self, who: Who, ticket: Ticket, end: End) -> Option<Reply>
        requires { is_maker who ≡ true }
    {
        let place = self.held.get_mut(ticket.0 as usize)?;
        let HeldClaim { claim } = place.take()?;
        let reply = self.control.finish(&mut self.log, who, claim, end);
        Some(reply.reply())
    }

    fn poll(&mut self, who: Who) -> Option<Reply> {
        let mark = &mut self.marks[place_of(who)];
        if !self.control.poll_ready(*mark) {
            return None;
        }
        *mark = self.control.len();
        Some(Reply::Woken)
    }

    // What a maker's call answers; None for a poll that would wait, the end of a transfer that isn't claimed, and a number
    // that no maker has.
    fn answer(&mut self, who: Who, call: Call) -> Result<Option<Reply>, OutOfMemory> {
        if !may_call(who) {
            return Ok(None);
        }
        let log = &mut self.log;
        Ok(match call {
            Call::Add(handle) => Some(self.add(who, handle)?),
            Call::Remove(handle) => Some(self.control.remove(log, who, handle).reply()),
            Call::Pause(handle) => Some(self.control.pause(log, who, handle).reply()),
            Call::Unpause(handle) => Some(self.control.unpause(log, who, handle).reply()),
            Call::InfoRead => Some(self.control.info_read(log, who).reply()),
            Call::Wakeup => Some(self.control.wakeup(log, who).reply()),
            Call::Poll => self.poll(who),
            Call::Handles => Some(Reply::Handles(self.control.handles())),
            Call::Running => Some(Reply::Running(self.control.running())),
            Call::State(handle) => Some(Reply::State(self.control.state(handle))),
            Call::Finish(ticket, code, size) => self.finish(who, ticket, End::new(code, size)),
            Call::Look(ticket) => Some(Reply::Look(self.control.look(ticket))),
        })
    }

    // Whether a call is the next one of its maker, and is answered the same, at the same cut.
    fn agrees(&mut self, alloc: Global, entry: &Entry) -> Result<bool, OutOfMemory> {
        let count = &mut self.calls[place_of(entry.who)];
        let is_next = *count == entry.number;
        *count = count.wrapping_add(1);
        let Some(reply) = self.answer(entry.who, entry.call)? else {
            return Ok(false);
        };
        let said = text_of(alloc, &reply)?;
        Ok(is_next && said == entry.said && self.control.len() == entry.cut)
    }

    /// Makes all calls, which are in the order of their cuts. The index of the first that isn't the next of its maker, that is answered
    /// otherwise, or whose cut isn't the number of events then.
    pub fn first_that_differs(
        &mut self,
        alloc: Global,
        entries: &[Entry],
    ) -> Result<Option<usize>, OutOfMemory> {
        for (place, entry) in entries.iter().enumerate() {
            if !self.agrees(alloc, entry)? {
                return Ok(Some(place));
            }
        }
        Ok(None)
    }

    // Gives all work back that is claimed.
    fn give_all_back(&mut self) {
        for place in 0..self.held.len() {
            if let Some(HeldClaim { claim }) = self.held[place].take() {
                let _reply = self.control.give_back(claim, Job);
            }
        }
    }

    // Holds the claims on all that waits.
    fn claim_all(&mut self) {
        for _ in 0..self.held.len() {
            let Some((claim, _work)) = self.control.claim() else {
                return;
            };
            if let Some(place) = self.held.get_mut(claim.ticket().0 as usize) {
                *place = Some(HeldClaim { claim });
            }
        }
    }

    /// Begins a round, in which the calls of each maker are numbered anew.
    pub fn begin(&mut self) {
        self.calls = [0; 32];
    }

    /// Retires old history, as all makers' seats begin anew. False where it was refused.
    pub fn retire(&mut self) -> bool {
        self.give_all_back();
        let RetireReply::Retired(kept) = self.control.retire() else {
            return false;
        };
        self.claim_all();
        self.marks = [kept; 32];
        true
    }
}

//! The calls that are made under the lock.
ghost use Rattle.std.specs.Prelude.{◌≡◌, false, true, None, Option};
ghost use Rattle.logbook.specs.Pages.{Book};
ghost use Rattle.mx_types.specs.declared.call.Call.{Call};
ghost use Rattle.mx_types.specs.declared.reply.Reply.{Reply};
ghost use Rattle.mx_journal.specs.History.{is_maker};
ghost use Rattle.mx_journal.specs.Receipts.{is_poll};
ghost use Rattle.mx_lock.specs.Engine.{Makes, lets_polls_return};
ghost use Rattle.mx_lock.specs.Queues.{Moved, PutsWork, moves_none};
ghost use Rattle.mx_lock.specs.Ties.{IsTied, Tells, Tie};

use crate::claim::{TiedClaim, tied_again};
use crate::engine::Parts;
use crate::ties::tie_addition;
use mx_journal::{AddReply, FinishReply, InfoReply, PauseReply, RemoveReply, WakeupReply};
use mx_types::{Call, Ending, HandleId, Reply, Who, Work};
use std::snapshot::Snapshot;
use std::sync::Wait;

/// A call that is made under the lock: which call of the history it is, the reply of its answer, what comes back, the tie that the answer
/// shows (a ticket and the request of its addition), the work and the endings that it added, read and recorded, and the list of ties of its
/// claim, where it has one.
pub trait Deed<Q: Work + Drop, O: Ending + Drop> {
    type Reply;

    ghost call: { Self → Call };

    ghost reply: { Self.Reply → Reply };

    ghost back: { Self → Self.Reply → Type 0 } = { λ deed answer. Unit {0} };

    ghost tie: { Self → Self.Reply → Option Tie } = { λ deed answer. None };

    ghost moved: { Self → Self.Reply → Moved Q O } = { λ deed answer. moves_none };

    ghost own: { Self → Book → Type 0 } = { λ deed list. Unit {0} };

    /// Makes the core's call for a maker, with the board as its log, and puts in the tie of what it adds.
    fn make<R: Wait>(self, rt: &R, who: Who, parts: &mut Parts<Q, O>) -> Self::Reply
        requires maker { is_maker who ≡ true }
        requires own { own self parts.old.ties.book }
        requires tied { IsTied O.origin parts.old.core parts.old.ties.entries }
        ensures makes { Makes O.origin who (call self) parts.old.core parts.new.core parts.old.log parts.new.log parts.old.ties parts.new.ties (reply result) }
        ensures back { back self result }
        ensures tells { Tells (tie self result) parts.new.ties.entries }
        ensures work { PutsWork (moved self result) parts.old.core parts.new.core }
        ensures quiet { is_poll (call self) ≡ false };

    /// Which call of the history it is, for its receipt.
    fn as_call(&self) -> Call
        ensures { result ≡ call self.now };

    /// The reply of its answer, for its receipt.
    fn as_reply(answer: &Self::Reply) -> Reply
        ensures { result ≡ reply answer.now };
}

/// Adds a handle with its work.
#[derive(Drop)]
pub struct Addition<Q> {
    pub handle: HandleId,
    pub work: Q,
}

impl<Q: Work + Drop, O: Ending + Drop> Deed<Q, O> for Addition<Q> {
    ghost use Rattle.std.specs.Prelude.{◌≡◌};
    ghost use Rattle.mx_types.specs.declared.call.Call.TheVariants as call_of;
    ghost use Rattle.mx_journal.specs.Replies.{handed_back, reply_of_add, work_back};
    ghost use Rattle.mx_lock.specs.Queues.{moves_added};
    ghost use Rattle.mx_lock.specs.Ties.{tie_added};

    type Reply = AddReply<Q>;

    ghost call = { λ d. call_of.Add d.handle };

    ghost reply = { reply_of_add };

    ghost back = { λ d r. handed_back r ≡ work_back r d.work };

    ghost tie = { λ d r. tie_added r (Q.origin d.work) };

    ghost moved = { λ d r. moves_added r d.work };

    // rule multi-origins
    fn make<R: Wait>(self, rt: &R, who: Who, parts: &mut Parts<Q, O>) -> AddReply<Q> {
        // proof: what holds of a core
        parts.core.sound();
        let added = Snapshot::of(&self.work);
        let reply = parts.core.add(&mut parts.log, who, self.handle, self.work);
        tie_addition(rt, &mut parts.ties, &reply, &added);
        reply
    }

    fn as_call(&self) -> Call {
        Call::Add(self.handle)
    }

    fn as_reply(answer: &AddReply<Q>) -> Reply {
        answer.reply()
    }
}

/// Removes a handle.
#[derive(Clone, Copy)]
pub struct Removal(pub HandleId);

impl<Q: Work + Drop, O: Ending + Drop> Deed<Q, O> for Removal {
    ghost use Rattle.mx_types.specs.declared.call.Call.TheVariants as call_of;
    ghost use Rattle.mx_journal.specs.Replies.{reply_of_remove};

    type Reply = RemoveReply;

    ghost call = { λ d. call_of.Remove d.0 };

    ghost reply = { reply_of_remove };

    fn make<R: Wait>(self, _rt: &R, who: Who, parts: &mut Parts<Q, O>) -> RemoveReply {
        parts.core.remove(&mut parts.log, who, self.0)
    }

    fn as_call(&self) -> Call {
        Call::Remove(self.0)
    }

    fn as_reply(answer: &RemoveReply) -> Reply {
        answer.reply()
    }
}

/// Pauses a handle, or resumes it.
#[derive(Clone, Copy)]
pub struct Pausing {
    pub handle: HandleId,
    pub pauses: bool,
}

impl<Q: Work + Drop, O: Ending + Drop> Deed<Q, O> for Pausing {
    ghost use Rattle.mx_journal.specs.Replies.{pausing_call, reply_of_pause};

    type Reply = PauseReply;

    ghost call = { λ d. pausing_call d.pauses d.handle };

    ghost reply = { reply_of_pause };

    fn make<R: Wait>(self, _rt: &R, who: Who, parts: &mut Parts<Q, O>) -> PauseReply {
        if self.pauses {
            return parts.core.pause(&mut parts.log, who, self.handle);
        }
        parts.core.unpause(&mut parts.log, who, self.handle)
    }

    fn as_call(&self) -> Call {
        if self.pauses {
            return Call::Pause(self.handle);
        }
        Call::Unpause(self.handle)
    }

    fn as_reply(answer: &PauseReply) -> Reply {
        answer.reply()
    }
}

/// Reads the first message.
#[derive(Clone, Copy)]
pub struct Reading;

impl<Q: Work + Drop, O: Ending + Drop> Deed<Q, O> for Reading {
    ghost use Rattle.mx_types.specs.declared.call.Call.TheVariants as call_of;
    ghost use Rattle.mx_journal.specs.Replies.{reply_of_info};
    ghost use Rattle.mx_lock.specs.Queues.{moves_read};
    ghost use Rattle.mx_lock.specs.Ties.{tie_read};

    type Reply = InfoReply<O>;

    ghost call = { λ d. call_of.InfoRead };

    ghost reply = { reply_of_info O.code_of O.size_of };

    ghost tie = { λ d r. tie_read O.origin r };

    ghost moved = { λ d r. moves_read r };

    fn make<R: Wait>(self, _rt: &R, who: Who, parts: &mut Parts<Q, O>) -> InfoReply<O> {
        parts.core.info_read(&mut parts.log, who)
    }

    fn as_call(&self) -> Call {
        Call::InfoRead
    }

    fn as_reply(answer: &InfoReply<O>) -> Reply {
        answer.reply()
    }
}

/// Wakes those that poll.
#[derive(Clone, Copy)]
pub struct Waking;

impl<Q: Work + Drop, O: Ending + Drop> Deed<Q, O> for Waking {
    ghost use Rattle.mx_types.specs.declared.call.Call.TheVariants as call_of;
    ghost use Rattle.mx_journal.specs.Replies.{reply_of_wakeup};

    type Reply = WakeupReply;

    ghost call = { λ d. call_of.Wakeup };

    ghost reply = { reply_of_wakeup };

    fn make<R: Wait>(self, _rt: &R, who: Who, parts: &mut Parts<Q, O>) -> WakeupReply {
        parts.core.wakeup(&mut parts.log, who)
    }

    fn as_call(&self) -> Call {
        Call::Wakeup
    }

    fn as_reply(answer: &WakeupReply) -> Reply {
        answer.reply()
    }
}

/// Records the end of a claimed transfer.
#[derive(Drop)]
pub struct Finishing<Q: Work, O: Ending> {
    pub claim: TiedClaim<Q>,
    pub ending: O,
    pub ghost origin: { O.origin ending ≡ claim.origin },
}

impl<Q: Work + Drop, O: Ending + Drop> Deed<Q, O> for Finishing<Q, O> {
    ghost use Rattle.std.specs.Prelude.{◌≡◌};
    ghost use Rattle.mx_types.specs.declared.call.Call.TheVariants as call_of;
    ghost use Rattle.mx_journal.specs.Replies.{IsHandedBack, reply_of_finish};
    ghost use Rattle.mx_lock.specs.Queues.{moves_recorded};

    type Reply = FinishReply<TiedClaim<Q>, O>;

    ghost call = { λ d. call_of.Finish d.claim.ticket (O.code_of d.ending) (O.size_of d.ending) };

    ghost reply = { reply_of_finish };

    ghost back = { λ d r. IsHandedBack d.claim d.ending r };

    ghost moved = { λ d r. moves_recorded r d.claim.ticket d.ending };

    ghost own = { λ d b. d.claim.of ≡ b };

    fn make<R: Wait>(
        self,
        _rt: &R,
        who: Who,
        parts: &mut Parts<Q, O>,
    ) -> FinishReply<TiedClaim<Q>, O> {
        let Finishing { claim, ending } = self;
        let (claim, mark) = claim.into_parts();
        let all = parts.ties.mark();
        // proof: both marks are of one list, and what holds of a core
        all.are_of_one_list(&mark);
        parts.core.sound();
        let given = Snapshot::of(&claim);
        let ended = Snapshot::of(&ending);
        let reply = parts.core.finish(&mut parts.log, who, claim, ending);
        tied_again(reply, mark, given, ended)
    }

    fn as_call(&self) -> Call {
        Call::Finish(self.claim.ticket(), self.ending.code(), self.ending.size())
    }

    fn as_reply(answer: &FinishReply<TiedClaim<Q>, O>) -> Reply {
        answer.reply()
    }
}

// rule multi-woken
/// Whether a call with this answer lets polls return: a wake-up, or an end that was recorded.
pub fn lets_polls_return(answer: &Reply) -> bool
    ensures { result ≡ lets_polls_return answer.now }
{
    matches!(answer, Reply::Ok | Reply::Recorded)
}

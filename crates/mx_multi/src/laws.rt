//! Runs of calls: what is known of a seat after many of them.
ghost use Rattle.std.specs.Prelude.{List, ◌≡◌, ◌∷◌, ◌++◌, [], length, take, MatchOption};
ghost use Rattle.mx_types.specs.declared.call.Call.{Call};
ghost use Rattle.mx_types.specs.declared.call.Receipt.{Receipt};
ghost use Rattle.mx_types.specs.declared.event.Event.{Event};
ghost use Rattle.mx_types.specs.declared.event.Who.{Who};
ghost use Rattle.mx_types.specs.declared.origin.Origin.{Origin};
ghost use Rattle.mx_types.specs.declared.reply.Reply.{Reply};
ghost use Rattle.mx_journal.specs.Receipts.{IsPlaced};
ghost use Rattle.mx_multi.specs.Seats.{FindsOther, IsNew, Later, SeatView, Sees, Stands};
ghost use Rattle.mx_append_log.specs.Log.{AreOfOneList};
ghost use Rattle.mx_multi.specs.Laws.{AreToldAlike, RanScript, Met};

use crate::multi::Multi;
use crate::seat::{Seat, SeatOf};
use mx_types::{Call, Ending, Work};
use std::sync::Wait;
use std::thread::{Threads, join};

impl<Q: Work + Drop, O: Ending + Drop> Multi<Q, O> {
    /// The first answered call of a new seat is placed, alone, in what the seat has then seen.
    pub fn first_call_is_placed(&self)
        ensures { (j : List Event) (ties : List Origin) (who : Who) (s t : SeatView Q O) (call : Call) (reply : Reply) → self.now.engine.opening.from ≡ length j → IsNew self.now j ties who s → Stands s t call reply → IsPlaced self.now.engine.opening who (record { cut = length t.seen; call = call; reply = reply } ∷ []) t.seen }
    {
        // proof: a law needs a value
        let _ = &self.lock;
    }

    /// Runs go on: one more answered call may follow a run, whatever it is, with its receipt last; a journal that is seen
    /// with no receipt leaves the run; and no call is a run.
    pub fn runs_go_on(&self)
        ensures more { (s t u : SeatView Q O) (more : List Receipt) (call : Call) (reply : Reply) → Later s t more → Stands t u call reply → Later s u (more ++ record { cut = length u.seen; call = call; reply = reply } ∷ []) }
        ensures sees { (s t u : SeatView Q O) (more : List Receipt) → Later s t more → Sees t u → Later s u more }
        ensures none { (s : SeatView Q O) → Later s s [] }
    {
        // proof: a law needs a value
        let _ = &self.lock;
    }

    // rule multi-wrong-seat
    /// A seat that has seen only confirmed events isn't refused. Such is a new seat, and one whose last call was under the lock and answered.
    pub fn confirmed_seats_are_right(&self)
        ensures { (s : SeatView Q O) → s.confirmed ≡ length s.seen → FindsOther O.code_of O.size_of s → ⊥ }
    {
        // proof: a law needs a value
        let _ = &self.lock;
    }

    /// The ties that two seats were told under the lock are prefixes of one list, whatever each has seen: for both, the addition under a
    /// ticket is of one request.
    pub fn are_told_alike<J, K>(&self, one: &SeatOf<J, Q, O>, two: &SeatOf<K, Q, O>)
        requires own { (one.now.of ≡ self.now) × (two.now.of ≡ self.now) }
        ensures list { AreOfOneList one.now.ties two.now.ties }
        ensures alike { AreToldAlike one.now.ties two.now.ties }
    {
        one.ties.are_of_one_list(&two.ties)
    }
}

// The seat comes back.
fn run_one<Q: Work + Drop, O: Ending + Drop, R: Wait>(
    rt: &R,
    multi: &Multi<Q, O>,
    seat: Seat<Q, O>,
    script: &[Call],
) -> (Seat<Q, O>, usize)
    requires own { seat.of ≡ multi.now }
    ensures { RanScript seat result.0 (take result.1 script.now) }
{
    let mut seat = multi.at(seat);
    let made = seat.run_script(rt, script);
    (seat.into_seat(), made)
}

// It takes seats and handle apart: with `Seated` in their place the borrow checker's part of the proof doesn't end.
/// Two threads, each with a seat and a script of its own; then the seats meet. Where they met, both have seen one legal
/// journal, in which the receipts of both runs are placed. None where they didn't meet: no clause says then which calls were made.
pub fn run_two<Q: Work + Drop + Send, O: Ending + Drop + Send, R: Threads + Wait + Sync>(
    rt: &R,
    multi: &Multi<Q, O>,
    one: Seat<Q, O>,
    one_script: &[Call],
    two: Seat<Q, O>,
    two_script: &[Call],
) -> (Seat<Q, O>, Seat<Q, O>, Option<(usize, usize)>)
    requires own { (one.of ≡ multi.now) × (two.of ≡ multi.now) }
    ensures { MatchOption result.2 ((result.0.of ≡ multi.now) × (result.1.of ≡ multi.now)) (λ n. Met result.0 result.1 × RanScript one result.0 (take n.0 one_script.now) × RanScript two result.1 (take n.1 two_script.now)) }
{
    let ((mut first, one_made), (mut second, two_made)) = join(
        rt,
        move || run_one(rt, multi, one, one_script),
        move || run_one(rt, multi, two, two_script),
    );
    if multi.try_meet(rt, &mut first, &mut second) {
        return (first, second, Some((one_made, two_made)));
    }
    (first, second, None)
}

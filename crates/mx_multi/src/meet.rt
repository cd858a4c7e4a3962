//! A meeting of all seats.
ghost use Rattle.std.specs.Prelude.{◌≡◌, ◌<◌, ◌+◌, length, true, MatchResult, OnErr};
ghost use Rattle.std.specs.List.{All};
ghost use Rattle.mx_journal.specs.History.{is_legal};
ghost use Rattle.mx_lock.specs.Engine.{content};
ghost use Rattle.mx_multi.specs.Meeting.{AllSee, Meets, OneIsWrong, SeesAll};
ghost use Rattle.mx_multi.specs.Retiring.{AllFind, HasWrongSeat};
ghost use Rattle.mx_multi.specs.Seats.{Finds};

use crate::multi::{Multi, WrongSeat};
use crate::retire::both_find;
use crate::seat::{Seat, SeatOf, WorkerSeat};
use mx_lock::Taken;
use mx_types::{Ending, Work};
use std::sync::Wait;

// The seat sees the journal and the ties.
pub(crate) fn see<K, Q: Work + Drop, O: Ending + Drop>(
    taken: &mut Taken<Q, O>,
    seat: &mut SeatOf<K, Q, O>,
)
    requires engine { seat.old.of.engine ≡ (content taken.old).engine }
    requires finds { Finds seat.old taken.old.core.journal }
    requires legal { is_legal taken.old.core.journal ≡ true }
    ensures same { taken.new ≡ taken.old }
    ensures sees { SeesAll taken.old.core.journal seat.old seat.new }
{
    taken.refresh(&mut seat.reader);
    taken.engine().tell(&mut seat.ties);
}

// Each of the seats sees the journal.
fn see_each<K, Q: Work + Drop, O: Ending + Drop>(
    taken: &mut Taken<Q, O>,
    seats: &mut [SeatOf<K, Q, O>],
)
    requires engine { All (λ s. s.of.engine ≡ (content taken.old).engine) seats.old }
    requires find { AllFind taken.old.core.journal seats.old }
    requires legal { is_legal taken.old.core.journal ≡ true }
    ensures same { taken.new ≡ taken.old }
    ensures see { AllSee taken.old.core.journal seats.old seats.new }
{
    for at in 0..seats.len() {
        see(taken, &mut seats[at]);
    }
}

// Each of the seats, and of the workers' seats, sees the journal.
fn see_both<Q: Work + Drop, O: Ending + Drop>(
    taken: &mut Taken<Q, O>,
    seats: &mut [Seat<Q, O>],
    workers: &mut [WorkerSeat<Q, O>],
)
    requires engine { All (λ s. s.of.engine ≡ (content taken.old).engine) seats.old × All (λ s. s.of.engine ≡ (content taken.old).engine) workers.old }
    requires find { AllFind taken.old.core.journal seats.old × AllFind taken.old.core.journal workers.old }
    requires legal { is_legal taken.old.core.journal ≡ true }
    ensures same { taken.new ≡ taken.old }
    ensures see { AllSee taken.old.core.journal seats.old seats.new × AllSee taken.old.core.journal workers.old workers.new }
{
    see_each(taken, seats);
    see_each(taken, workers);
}

impl<Q: Work + Drop, O: Ending + Drop> Multi<Q, O> {
    // Lets these seats, and these workers' seats, see one journal with a seat beside them: how many events it has. `WrongSeat`, and
    // nothing changes, where one of them isn't this multi handle's.
    fn meet_by<K, R: Wait>(
        &self,
        rt: &R,
        one: &mut SeatOf<K, Q, O>,
        seats: &mut [Seat<Q, O>],
        workers: &mut [WorkerSeat<Q, O>],
    ) -> Result<u32, WrongSeat<()>>
        requires own { (one.old.of ≡ self.now) × All (λ s. s.of ≡ self.now) seats.old × All (λ s. s.of ≡ self.now) workers.old }
        ensures meets { MatchResult result (λ n. SeesAll one.new.seen one.old one.new × AllSee one.new.seen seats.old seats.new × AllSee one.new.seen workers.old workers.new × (n ≡ length one.new.seen)) (λ _. (one.new ≡ one.old) × (seats.new ≡ seats.old) × (workers.new ≡ workers.old)) }
        ensures right { OnErr result (OneIsWrong O.code_of O.size_of self.now one.old seats.old workers.old) }
    {
        let mut taken = match self.lock.enter(rt, &mut one.key, &one.reader) {
            Ok(taken) => taken,
            Err(_found) => return Err(WrongSeat(())),
        };
        let found = taken.engine();
        if both_find(rt, found, seats, workers) {
            let cut = found.len();
            see_both(&mut taken, seats, workers);
            self.lock
                .leave(rt, &mut one.key, taken, &mut one.reader, &mut one.ties);
            return Ok(cut);
        }
        // proof: what holds of the engine that was found
        let _known = found.know();
        self.lock.put_back(rt, &mut one.key, taken);
        Err(WrongSeat(()))
    }

    // rule multi-meet-all
    /// Lets all these seats, and all these workers' seats, see one journal: how many events it has. It takes the lock and no memory.
    ///
    /// # Refusals
    ///
    /// `WrongSeat`: one of them has seen a journal that isn't the beginning of this one. Nothing changes.
    pub fn meet_all<R: Wait>(
        &self,
        rt: &R,
        seats: &mut [Seat<Q, O>],
        workers: &mut [WorkerSeat<Q, O>],
    ) -> Result<u32, WrongSeat<()>>
        requires some { 0 < length seats.old + length workers.old }
        requires own { All (λ s. s.of ≡ self.now) seats.old × All (λ s. s.of ≡ self.now) workers.old }
        ensures meets { MatchResult result (λ n. Meets seats.old seats.new workers.old workers.new n) (λ _. (seats.new ≡ seats.old) × (workers.new ≡ workers.old)) }
        ensures right { OnErr result (HasWrongSeat O.code_of O.size_of self.now seats.old workers.old) }
    {
        if let Some((one, rest)) = seats.split_first_mut() {
            return self.meet_by(rt, one, rest, workers);
        }
        let Some((one, rest)) = workers.split_first_mut() else {
            unreachable!()
        };
        self.meet_by(rt, one, seats, rest)
    }
}

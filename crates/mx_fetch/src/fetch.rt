//! What fetches at desks.
ghost use Rattle.std.specs.Prelude.{List, Option, IfOk, OnOk};
ghost use Rattle.mx_request.specs.Request.{RequestValue};
ghost use Rattle.mx_fetch.specs.declared.turned.Turned.{Turned as Left};
ghost use Rattle.mx_fetch.specs.declared.turned.Turned.TheVariants as how;

use crate::turned::Turned;
use mx_crew::Crew;
use mx_desk::Desk;
use mx_link::Link;
use mx_run_io::Stop;
use mx_sink::Delivery;
use std::alloc::AllocGlobal;
use std::rt::Clock;
use std::sync::Wait;

/// What fetches at one desk after another, with the workers of a crew. Its requests are added with deliveries of this kind.
pub trait Fetch<D: Delivery> {
    /// What is added at a desk is what it has asked for there.
    ghost is_asked: { Self → List (Option RequestValue) → Type 0 };

    /// It has left its desk so.
    ghost has_turned: { Self → Left → Type 0 };

    /// It is the same run, later.
    ghost is_same: { Self → Self → Type 0 };

    /// Fetches at a desk, until all has ended, or until the history of the multi handle at which it adds is full and all has ended that was
    /// added. Where that history is full it may also leave the desk once all has ended that was added at that multi handle, though something
    /// is added at the other one, and, with a patience, once so many milliseconds have passed. It may wait.
    ///
    /// No clause says how long it waits, why it stops, that it wakes the workers, or in which order it adds.
    fn fetch<L: Link, R: Wait + AllocGlobal + Clock>(
        &mut self,
        rt: &R,
        crew: &Crew,
        desk: &mut Desk<'_, '_, L, D>,
        patience: Option<u32>,
    ) -> Result<Turned, Stop>
        requires asked { is_asked self.old desk.old.asked }
        ensures turned { IfOk result (has_turned self.new) }
        ensures asked { OnOk result (is_asked self.new desk.new.asked) }
        ensures run { is_same self.old self.new };

    /// A run is the same as itself.
    ghost same: { (x : Self) → is_same x x };

    /// What is the same run later on is so from the first on.
    ghost then: { (x y z : Self) → is_same x y → is_same y z → is_same x z };

    /// Where it left because the history was full, nothing is added, and it goes on at any desk.
    ghost none: { (x : Self) → has_turned x how.HistoryFull → (asked : List (Option RequestValue)) → is_asked x asked };
}

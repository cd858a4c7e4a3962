//! A claim that knows of which request its addition is.
ghost use Rattle.std.specs.Prelude.{◌≡◌, Some};
ghost use Rattle.mx_journal.specs.Core.{origin_of};
ghost use Rattle.mx_journal.specs.Replies.{IsHandedBack, reply_of_finish};
ghost use Rattle.mx_lock.specs.Ties.{tied};

use crate::ties::TieMark;
use mx_journal::{Claim, FinishReply};
use mx_types::{HandleId, Ticket, Work};
use std::marker::Model;
use std::snapshot::Snapshot;

// rule multi-claims
/// The right to finish or to give back one addition's work. The addition under its ticket is of its request: the list of ties that it
/// names says so.
pub struct TiedClaim<Q: Work> {
    claim: Claim<Q>,
    /// For contracts alone: it has no size.
    mark: TieMark,
}

// Written out, and not derived: a crate that drops a claim cites its proof.
impl<Q: Work> Drop for TiedClaim<Q> {
    fn drop(self) {
        let TiedClaim { claim, mark } = self;
        drop(claim);
        drop(mark);
    }
}

impl<Q: Work> Model for TiedClaim<Q> {
    ghost use Rattle.std.specs.Prelude.{◌≡◌, Some};
    ghost use Rattle.mx_journal.specs.Core.{origin_of};
    ghost use Rattle.mx_lock.specs.Ties.{TiedClaimed, tied};

    ghost Value = { TiedClaimed };

    ghost view = { λ c. tied c.claim c.mark.book };

    ghost invariant = { λ c. origin_of c.claim.ticket c.mark.entries ≡ Some c.claim.origin };
}

impl<Q: Work> TiedClaim<Q> {
    pub(crate) fn of(claim: Claim<Q>, mark: TieMark) -> TiedClaim<Q>
        requires { origin_of claim.ticket mark.entries ≡ Some claim.origin }
        ensures { result ≡ tied claim mark.book }
    {
        TiedClaim { claim, mark }
    }

    pub(crate) fn into_parts(self) -> (Claim<Q>, TieMark)
        ensures parts { tied result.0 result.1.book ≡ self }
        ensures ticket { result.0.ticket ≡ self.ticket }
        ensures origin { result.0.origin ≡ self.origin }
        ensures of { result.1.book ≡ self.of }
        ensures known { origin_of result.0.ticket result.1.entries ≡ Some result.0.origin }
    {
        let TiedClaim { claim, mark } = self;
        (claim, mark)
    }

    /// The handle that was added.
    pub fn handle(&self) -> HandleId
        ensures { result ≡ self.now.handle }
    {
        self.claim.handle()
    }

    /// The ticket of the addition.
    pub fn ticket(&self) -> Ticket
        ensures { result ≡ self.now.ticket }
    {
        self.claim.ticket()
    }

    /// The slot of the handle in the table.
    pub fn slot(&self) -> u8
        ensures { result ≡ self.now.slot }
    {
        self.claim.slot()
    }
}

/// The answer of an end, whose claim is tied as it was where it comes back.
pub(crate) fn tied_again<Q: Work, O>(
    reply: FinishReply<Claim<Q>, O>,
    mark: TieMark,
    claim: Snapshot<Claim<Q>>,
    ending: Snapshot<O>,
) -> FinishReply<TiedClaim<Q>, O>
    requires known { origin_of claim.value.ticket mark.entries ≡ Some claim.value.origin }
    requires back { IsHandedBack claim.value ending.value reply }
    ensures same { reply_of_finish result ≡ reply_of_finish reply }
    ensures back { IsHandedBack (tied claim.value mark.book) ending.value result }
{
    match reply {
        FinishReply::Recorded => FinishReply::Recorded,
        FinishReply::Stale(ending) => FinishReply::Stale(ending),
        FinishReply::OutOfMemory(claim, ending) => {
            FinishReply::OutOfMemory(TiedClaim::of(claim, mark), ending)
        }
    }
}

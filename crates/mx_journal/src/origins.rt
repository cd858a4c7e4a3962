//! The requests of additions, for contracts alone.
ghost use Rattle.std.specs.Prelude.{◌≡◌, ◌≤◌, ◌<◌, ◌++◌, ◌∷◌, [], length, replicate, slice_set, IfOk};
ghost use Rattle.mx_types.specs.Limits.{greatest_ticket};
ghost use Rattle.mx_types.specs.Origin.{no_request};

use mx_types::{GREATEST_TICKET, OutOfMemory, Ticket, Work};
use std::alloc::Global;
use std::marker::Model;
use std::snapshot::Snapshot;

/// For each ticket, in order, the request of the work that was queued under it last. Tickets below the one that it begins with had
/// no work. It keeps the works as they were then, and those have no size.
#[derive(Drop)]
pub struct Origins<Q: Work> {
    begun: u32,
    works: Vec<Snapshot<Q>>,
}

impl<Q: Work> Model for Origins<Q> {
    ghost use Rattle.std.specs.Prelude.{◌<◌, ◌++◌, map, replicate, vec_capacity};
    ghost use Rattle.mx_types.specs.Limits.{greatest_ticket};
    ghost use Rattle.mx_types.specs.Origin.{no_request};
    ghost use Rattle.mx_journal.specs.Core.{OriginList};

    ghost Value = { OriginList };

    ghost view = { λ o. record { begun = o.begun; all = replicate o.begun no_request ++ map (λ s. Q.origin s.value) o.works.items } };

    ghost invariant = { λ o. greatest_ticket < vec_capacity o.works };
}

impl<Q: Work + Drop> Origins<Q> {
    /// No work yet under any ticket, and the places of all that there can be. `OutOfMemory` where they are refused.
    pub fn new(alloc: Global, begun: u32) -> Result<Origins<Q>, OutOfMemory>
        ensures { IfOk result (λ o. o ≡ record { begun = begun; all = replicate begun no_request }) }
    {
        Ok(Origins {
            begun,
            works: Vec::with_capacity(alloc, GREATEST_TICKET as usize + 1)?,
        })
    }

    /// Puts the work under the next ticket.
    pub fn push(&mut self, work: &Q)
        requires { length self.old.all ≤ greatest_ticket }
        ensures { self.new ≡ record { begun = self.old.begun; all = self.old.all ++ Q.origin work.now ∷ [] } }
    {
        self.works.push_reserved(Snapshot::of(work));
    }

    /// Puts the work under a ticket that had work.
    pub fn set(&mut self, ticket: Ticket, work: &Q)
        requires { (self.old.begun ≤ ticket.0) × (ticket.0 < length self.old.all) }
        ensures { self.new ≡ record { begun = self.old.begun; all = slice_set self.old.all ticket.0 (Q.origin work.now) } }
    {
        self.works[(ticket.0 - self.begun) as usize] = Snapshot::of(work);
    }
}

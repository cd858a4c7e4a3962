//! Deadlines of the transfers that a worker holds, one for a ticket.
ghost use Rattle.std.specs.Prelude.{◌≡◌, ◌<◌, ◌≤◌, ◌↔◌, ℕ, List, [], length, map, count_by, IsTrue, IsNone, IfSome, All, Any};

use arrayvec::ArrayVec;
use mx_types::{MOST_TRANSFERS, Ticket};
use std::marker::Model;

/// A moment that is set for a ticket. Moments are milliseconds on whatever clock the caller reads.
#[derive(Clone, Copy, Default)]
pub struct Deadline {
    pub moment: u64,
    pub ticket: Ticket,
}

impl Deadline {
    ghost use Rattle.mx_turn.specs.InOrder.{is_before};

    /// Whether this deadline comes first: an earlier moment does, and of one moment the lower ticket.
    pub fn is_before(&self, other: &Deadline) -> bool
        ensures { result ≡ is_before self.now other.now }
    {
        self.moment < other.moment
            || (self.moment == other.moment && self.ticket.0 < other.ticket.0)
    }
}

/// The deadlines that are set, at most one for a ticket and at most [`MOST_TRANSFERS`]. Contracts see them as a list, by
/// moment and then by ticket.
#[derive(Drop)]
pub struct Deadlines {
    set: ArrayVec<Deadline, MOST_TRANSFERS>,
}

impl Model for Deadlines {
    ghost use Rattle.std.specs.Prelude.{List, length, ◌≤◌};
    ghost use Rattle.mx_types.specs.Limits.{most_transfers};
    ghost use Rattle.mx_turn.specs.declared.deadlines.Deadline.{Deadline as OneDeadline};
    ghost use Rattle.mx_turn.specs.InOrder.{IsInOrder};

    ghost Value = { List OneDeadline };

    ghost view = { λ d. d.set.items };

    ghost invariant = { λ d. IsInOrder d.set.items × (length d.set.items ≤ most_transfers) };
}

impl Deadlines {
    ghost use Rattle.mx_turn.specs.InOrder.{IsInOrder, Sets, is_before, is_other, others, due_at, not_due_at};

    /// No deadline.
    pub fn new() -> Deadlines
        ensures { result ≡ [] }
    {
        Deadlines {
            set: ArrayVec::new(),
        }
    }

    // rule deadline-count
    /// Whether `ticket` can be set: fewer than [`MOST_TRANSFERS`] other tickets are.
    pub fn has_room_for(&self, ticket: Ticket) -> bool
        ensures room { IsTrue result ↔ (count_by (is_other ticket) self.now < MOST_TRANSFERS) }
        ensures ordered { IsInOrder self.now }
    {
        let others = self.count_others(ticket);
        others < MOST_TRANSFERS
    }

    fn count_others(&self, ticket: Ticket) -> usize
        ensures count { result ≡ count_by (is_other ticket) self.now }
        ensures ordered { IsInOrder self.now }
    {
        self.set.iter().filter(|d| d.ticket.0 != ticket.0).count()
    }

    // How many deadlines come before this one.
    fn place_of(&self, deadline: Deadline) -> usize
        ensures { result ≡ count_by (λ d. is_before d deadline) self.now }
    {
        self.set.iter().filter(|d| d.is_before(&deadline)).count()
    }

    /// Sets the ticket's deadline, in place of one that it had. Fewer than [`MOST_TRANSFERS`] other tickets may be set.
    pub fn set(&mut self, ticket: Ticket, moment: u64)
        requires { count_by (is_other ticket) self.old < MOST_TRANSFERS }
        ensures set { Sets self.old self.new (record { moment = moment; ticket = ticket }) }
        ensures ordered { IsInOrder self.new }
    {
        self.clear(ticket);
        let deadline = Deadline { moment, ticket };
        let place = self.place_of(deadline);
        self.set.insert(place, deadline);
    }

    /// Clears the ticket's deadline, if it has one.
    pub fn clear(&mut self, ticket: Ticket)
        ensures { self.new ≡ others ticket self.old }
    {
        self.set.retain(|d| d.ticket.0 != ticket.0);
    }

    /// The least moment that is set, if one is.
    pub fn next(&self) -> Option<u64>
        ensures none { IsNone result ↔ (self.now ≡ []) }
        ensures set { IfSome result (λ moment. Any (λ d. d.moment ≡ moment) self.now) }
        ensures least { IfSome result (λ moment. All (λ d. moment ≤ d.moment) self.now) }
    {
        self.set.first().map(|d| d.moment)
    }

    // rule deadline-due
    /// The tickets whose moment isn't after `now`, by moment and then by ticket. They are cleared.
    pub fn due(&mut self, now: u64) -> ArrayVec<Ticket, MOST_TRANSFERS>
        ensures due { result.items ≡ map (λ d. d.ticket) (due_at self.old now) }
        ensures kept { self.new ≡ not_due_at self.old now }
        ensures ordered { IsInOrder (due_at self.old now) }
    {
        let mut due = ArrayVec::new();
        let set = self.set.as_slice();
        for deadline in set {
            if deadline.moment <= now {
                due.push(deadline.ticket);
            }
        }
        self.set.retain(|d| d.moment > now);
        due
    }
}

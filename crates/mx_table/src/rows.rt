//! The rows of the table, and what is kept beside them so that no call goes through all of them.
ghost use Rattle.std.specs.Prelude.{◌≡◌, ◌<◌, ◌≤◌, ◌++◌, ◌∷◌, [], ℕ, not, true, false, length, map, count_by, slice_index_or, slice_set, remove, if◌then◌else◌, IfOk, IfSome, IfNone};
ghost use Rattle.std.specs.List.{find, filter, list_any};
ghost use Rattle.mx_history.specs.declared.row.Row.{Row as RowValue};
ghost use Rattle.mx_history.specs.declared.row.Phase.{Phase as PhaseValue};
ghost use Rattle.mx_history.specs.History.{same_handle, same_ticket, wakes};
ghost use Rattle.mx_history.specs.Slots.{lowest_free};
ghost use Rattle.mx_history.specs.Rows.{is_open, places, turned, rows_after, slots_in};
ghost use Rattle.mx_types.specs.declared.names.HandleId.{HandleId};
ghost use Rattle.mx_types.specs.declared.names.Ticket.{Ticket};
ghost use Rattle.mx_table.specs.Kept.{IsOf};

use crate::places::place_of;
use crate::slots::lowest_free;
use arrayvec::ArrayVec;
use mx_history::definitions::wakes;
use mx_history::{Phase, Row};
use mx_types::{HandleId, MOST_HANDLES, OutOfMemory, Ticket, What};
use std::alloc::Global;
use std::marker::Model;

/// The rows of the added handles, in order: at most [`MOST_HANDLES`].
///
/// The numbers of their handles and tickets are in vectors of their own, in which sixteen are compared at once. How many
/// events the rows have to come is kept, and for each slot how many rows have it: after legal events one at most, but rows take in any
/// event.
#[derive(Drop)]
pub struct Rows {
    rows: Vec<Row>,
    handles: Vec<u32>,
    tickets: Vec<u32>,
    due: u32,
    slot_counts: Vec<u32>,
}

impl Model for Rows {
    ghost use Rattle.std.specs.Prelude.{List, ◌≤◌, vec_capacity};
    ghost use Rattle.mx_types.specs.Limits.{most_handles};
    ghost use Rattle.mx_history.specs.declared.row.Row.{Row};
    ghost use Rattle.mx_table.specs.Kept.{AreKept};

    ghost Value = { List Row };

    ghost view = { λ t. t.rows.items };

    ghost invariant = { λ t. AreKept t.rows.items t.handles.items t.tickets.items t.due t.slot_counts.items × (most_handles ≤ vec_capacity t.rows) × (most_handles ≤ vec_capacity t.handles) × (most_handles ≤ vec_capacity t.tickets) };
}

impl Rows {
    /// No rows, with space for all that there can ever be; `OutOfMemory` where that is refused.
    pub fn new(alloc: Global) -> Result<Rows, OutOfMemory>
        ensures { IfOk result (λ r. r ≡ []) }
    {
        Ok(Rows {
            rows: Vec::with_capacity(alloc, MOST_HANDLES)?,
            handles: Vec::with_capacity(alloc, MOST_HANDLES)?,
            tickets: Vec::with_capacity(alloc, MOST_HANDLES)?,
            due: 0,
            slot_counts: vec![in alloc; 0; MOST_HANDLES]?,
        })
    }

    /// How many rows there are.
    pub fn len(&self) -> usize
        ensures value { result ≡ length self.now }
        ensures few { result ≤ MOST_HANDLES }
    {
        self.rows.len()
    }

    /// The row of a handle.
    pub fn row_of_handle(&self, handle: HandleId) -> Option<Row>
        ensures { result ≡ find (λ r. same_handle handle r.handle) self.now }
    {
        let at = place_of(&self.handles, handle.0)?;
        Some(self.rows[at])
    }

    /// The row of a ticket.
    pub fn row_of_ticket(&self, ticket: Ticket) -> Option<Row>
        ensures { result ≡ find (λ r. same_ticket ticket r.ticket) self.now }
    {
        let at = place_of(&self.tickets, ticket.0)?;
        Some(self.rows[at])
    }

    /// Whether there is a row of the ticket.
    pub fn has_ticket(&self, ticket: Ticket) -> bool
        ensures { result ≡ list_any (λ r. same_ticket ticket r.ticket) self.now }
    {
        self.row_of_ticket(ticket).is_some()
    }

    /// The handles of the rows.
    pub fn handles(&self) -> ArrayVec<HandleId, MOST_HANDLES>
        ensures { result.items ≡ map (λ r. r.handle) self.now }
    {
        let mut list = ArrayVec::new();
        for row in &self.rows {
            list.push(row.handle);
        }
        list
    }

    /// How many rows run.
    pub fn running(&self) -> u32
        ensures { result ≡ count_by (λ r. is_open r.phase) self.now }
    {
        self.rows.iter().filter(|r| r.phase.is_open()).count() as u32
    }

    /// How many events the additions have to come.
    pub fn due(&self) -> u32
        ensures { result ≡ places self.now }
    {
        self.due
    }

    /// Drops all rows, and keeps the capacity.
    pub fn clear(&mut self)
        ensures { self.new ≡ [] }
    {
        self.rows.clear();
        self.handles.clear();
        self.tickets.clear();
        self.due = 0;
        self.slot_counts.fill(0);
    }

    /// The rows after an event. An addition has room.
    pub fn enter(&mut self, what: &What)
        requires { (handle : HandleId) (ticket : Ticket) → what.now ≡ What.Added handle ticket → length self.old < MOST_HANDLES }
        ensures { self.new ≡ rows_after self.old what.now }
    {
        match what {
            What::Added(handle, ticket) => self.add(*handle, *ticket),
            What::Removed(_, ticket) => self.remove(*ticket),
            What::Done(ticket, ..)
            | What::Read(ticket)
            | What::Paused(ticket)
            | What::Resumed(ticket) => self.turn(*ticket, what),
            What::Wake => {}
        }
    }

    // Adds a row under the lowest free slot. There is room.
    fn add(&mut self, handle: HandleId, ticket: Ticket)
        requires { length self.old < MOST_HANDLES }
        ensures { self.new ≡ self.old ++ (record { handle = handle; ticket = ticket; slot = lowest_free (slots_in self.old); phase = PhaseValue.Running }) ∷ [] }
    {
        let slot = lowest_free(&self.slot_counts);
        let row = Row {
            handle,
            ticket,
            slot,
            phase: Phase::Running,
        };
        self.rows.push_reserved(row);
        self.handles.push_reserved(handle.0);
        self.tickets.push_reserved(ticket.0);
        self.due += row.phase.places();
        self.slot_counts[usize::from(slot)] += 1;
    }

    // Removes each row of the ticket.
    fn remove(&mut self, ticket: Ticket)
        ensures { self.new ≡ filter (λ r. not (same_ticket r.ticket ticket)) self.old }
    {
        let mut from = 0;
        while let Some(at) = self.next_of(ticket, from) {
            self.remove_at(at);
            from = at;
        }
    }

    // Updates each row of the ticket by an event that adds and removes nothing, and changes no other row.
    fn turn(&mut self, ticket: Ticket, what: &What)
        requires { IsOf ticket what.now }
        ensures { self.new ≡ map (turned what.now) self.old }
    {
        let mut from = 0;
        while let Some(at) = self.next_of(ticket, from) {
            self.turn_at(at, what);
            from = at + 1;
        }
    }

    // The index of the ticket's first row, from an index on.
    fn next_of(&self, ticket: Ticket, from: usize) -> Option<usize>
        requires { from ≤ length self.now }
        ensures few { length self.now ≤ MOST_HANDLES }
        ensures within { IfSome result (λ i. (from ≤ i) × (i < length self.now)) }
        ensures there { IfSome result (λ i. (d : RowValue) → same_ticket (slice_index_or self.now i d).ticket ticket ≡ true) }
        ensures first { IfSome result (λ i. (k : ℕ) (d : RowValue) → from ≤ k → k < i → same_ticket (slice_index_or self.now k d).ticket ticket ≡ false) }
        ensures none { IfNone result ((k : ℕ) (d : RowValue) → from ≤ k → k < length self.now → same_ticket (slice_index_or self.now k d).ticket ticket ≡ false) }
    {
        let after = place_of(&self.tickets[from..], ticket.0)?;
        Some(from + after)
    }

    // Removes the row at a place.
    fn remove_at(&mut self, at: usize)
        requires { at < length self.old }
        ensures { self.new ≡ remove self.old at }
    {
        let row = self.rows.remove(at);
        self.handles.remove(at);
        self.tickets.remove(at);
        self.due -= row.phase.places();
        self.slot_counts[usize::from(row.slot)] -= 1;
    }

    // Updates the row at a place by an event that adds and removes nothing.
    fn turn_at(&mut self, at: usize, what: &What)
        requires { at < length self.old }
        ensures { (d : RowValue) → self.new ≡ slice_set self.old at (turned what.now (slice_index_or self.old at d)) }
    {
        let before = self.rows[at];
        let after = before.after(what);
        self.due = self.due - before.phase.places() + after.phase.places();
        self.rows[at] = after;
    }
}

/// How many events there were after the last Wake or Done, with the event, which makes them `events`.
pub fn woken_after(what: &What, woken: u32, events: u32) -> u32
    ensures { result ≡ (if wakes what.now then events else woken) }
{
    if wakes(what) { events } else { woken }
}

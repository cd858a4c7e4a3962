//! The table of a multi handle: the result of its events.
ghost use Rattle.std.specs.Prelude.{◌≡◌, ◌++◌, ◌∷◌, [], List, length, true, false, map, IfOk, IfSome, IfNone, nat_le};
ghost use Rattle.std.specs.List.{list_any};
ghost use Rattle.std.specs.Option.{option_map};
ghost use Rattle.mx_types.specs.declared.event.Event.{Event};
ghost use Rattle.mx_history.specs.History.{added, beyond, waiting, running, due, has_ticket, same_ticket, may_follow, is_maker, made_by};
ghost use Rattle.mx_history.specs.Answers.{ticket_of, handle_of, is_ready, state_of, look_of};
ghost use Rattle.mx_history.specs.Slots.{slot_of};
ghost use Rattle.mx_history.specs.Table.{IsTableOf, IsRow, empty_table, has_space_for, has_space, table_after};

use crate::makers::MakerCounts;
use crate::rows::{Rows, woken_after};
use crate::waits;
use mx_history::Row;
use mx_history::definitions::{greater, past};
use mx_types::{
    AddedHandles, Event, HandleId, Look, MOST_HANDLES, OutOfMemory, State, Ticket, What, Who,
};
use std::alloc::Global;
use std::marker::Model;

/// The fold of events: the added handles in order with their tickets, slots and phases, the tickets whose message
/// waits to be read, in order, how many events there were, and who made how many; and one more than the greatest ticket
/// that was given. Each answer is true of any events that have this table.
#[derive(Drop)]
pub struct Table {
    rows: Rows,
    waiting: Vec<Ticket>,
    beyond: u64,
    events: u32,
    woken: u32,
    makers: MakerCounts,
}

impl Model for Table {
    ghost use Rattle.std.specs.Prelude.{◌≤◌, vec_capacity};
    ghost use Rattle.mx_types.specs.Limits.{most_handles};
    ghost use Rattle.mx_history.specs.Table.{TableView};

    ghost Value = { TableView };

    ghost view = { λ t. record { rows = t.rows; waiting = t.waiting.items; beyond = t.beyond; events = t.events; woken = t.woken; makers = t.makers } };

    ghost invariant = { λ t. most_handles ≤ vec_capacity t.waiting };
}

impl Table {
    /// The table of no events, with space for all the rows and all the waiting tickets that it can ever have.
    pub fn new(alloc: Global) -> Result<Table, OutOfMemory>
        ensures empty { IfOk result (λ t. IsTableOf [] t) }
        ensures fresh { IfOk result (λ t. t ≡ empty_table) }
    {
        Ok(Table {
            rows: Rows::new(alloc)?,
            waiting: Vec::with_capacity(alloc, MOST_HANDLES)?,
            beyond: 0,
            events: 0,
            woken: 0,
            makers: MakerCounts::new(),
        })
    }

    // rule core-done-stays-added
    /// The row of a handle that is added.
    pub fn row_of_handle(&self, handle: HandleId) -> Option<Row>
        ensures ticket { (j : List Event) → IsTableOf j self.now → option_map (λ r. r.ticket) result ≡ ticket_of handle j }
        ensures slot { (j : List Event) → IsTableOf j self.now → IfSome result (λ r. slot_of r.ticket j ≡ Some r.slot) }
        ensures row { (j : List Event) → IsTableOf j self.now → IfSome result (IsRow j) }
        ensures same { IfSome result (λ r. r.handle ≡ handle) }
    {
        self.rows.row_of_handle(handle)
    }

    /// The row of a ticket that is added.
    pub fn row_of_ticket(&self, ticket: Ticket) -> Option<Row>
        ensures handle { (j : List Event) → IsTableOf j self.now → option_map (λ r. r.handle) result ≡ handle_of ticket j }
        ensures slot { (j : List Event) → IsTableOf j self.now → option_map (λ r. r.slot) result ≡ slot_of ticket j }
        ensures row { (j : List Event) → IsTableOf j self.now → IfSome result (IsRow j) }
        ensures same { IfSome result (λ r. r.ticket ≡ ticket) }
        ensures none { (j : List Event) → IsTableOf j self.now → IfNone result (has_ticket ticket (running j) ≡ false) }
    {
        self.rows.row_of_ticket(ticket)
    }

    /// Whether there is a row of the ticket.
    pub fn has_ticket(&self, ticket: Ticket) -> bool
        ensures { result ≡ list_any (λ r. same_ticket ticket r.ticket) self.now.rows }
    {
        self.rows.has_ticket(ticket)
    }

    /// The state of a handle.
    pub fn state(&self, handle: HandleId) -> State
        ensures { (j : List Event) → IsTableOf j self.now → result ≡ state_of handle j }
    {
        match self.row_of_handle(handle) {
            None => State::NotAdded,
            Some(row) => row.state(),
        }
    }

    /// What a worker sees of a ticket.
    pub fn look(&self, ticket: Ticket) -> Look
        ensures { (j : List Event) → IsTableOf j self.now → result ≡ look_of ticket j }
    {
        match self.row_of_ticket(ticket) {
            Some(row) if row.phase.is_paused() => Look::Paused,
            Some(row) if row.phase.is_open() => Look::Go,
            _ => Look::Gone,
        }
    }

    /// The handles that are added, in order.
    pub fn handles(&self) -> AddedHandles
        ensures { (j : List Event) → IsTableOf j self.now → result ≡ map (λ a. a.handle) (added j) }
    {
        AddedHandles::new(self.rows.handles())
    }

    /// The tickets whose message waits to be read, in the order of their ends: at most [`MOST_HANDLES`], each once.
    pub fn waiting(&self) -> &[Ticket]
        ensures { (j : List Event) → IsTableOf j self.now → result.now ≡ map (λ m. m.ticket) (waiting j) }
    {
        &self.waiting
    }

    /// How many transfers run, paused ones too.
    pub fn running(&self) -> u32
        ensures { (j : List Event) → IsTableOf j self.now → result ≡ length (running j) }
    {
        self.rows.running()
    }

    /// Whether as many handles are added as can be.
    pub fn is_full(&self) -> bool
        ensures { (j : List Event) → IsTableOf j self.now → result ≡ nat_le MOST_HANDLES (length (added j)) }
    {
        self.rows.len() >= MOST_HANDLES
    }

    /// How many events the added handles have to come.
    pub fn due(&self) -> u32
        ensures { (j : List Event) → IsTableOf j self.now → result ≡ due j }
    {
        self.rows.due()
    }

    /// One more than the greatest ticket that an addition was given, or 0 where none was.
    pub fn beyond(&self) -> u64
        ensures { (j : List Event) → IsTableOf j self.now → result ≡ beyond j }
    {
        self.beyond
    }

    /// How many events there were.
    pub fn len(&self) -> u32
        ensures { (j : List Event) → IsTableOf j self.now → result ≡ length j }
    {
        self.events
    }

    /// Whether a Wake or a Done is at or after the mark, so that a poll with it may return.
    pub fn is_ready(&self, mark: u32) -> bool
        ensures { (j : List Event) → IsTableOf j self.now → result ≡ is_ready mark j }
    {
        mark < self.woken
    }

    /// How many events the maker made.
    pub fn made(&self, who: Who) -> u32
        requires { is_maker who ≡ true }
        ensures { (j : List Event) → IsTableOf j self.now → result ≡ made_by who j }
    {
        self.makers.get(who)
    }

    /// Who made how many events: a copy of the counts.
    pub fn makers(&self) -> MakerCounts
        ensures { result ≡ self.now.makers }
    {
        self.makers.copied()
    }

    /// Makes it the table of no events. It keeps its space, so that it takes in the next events without growing.
    pub fn clear(&mut self)
        ensures { self.new ≡ empty_table }
    {
        self.rows.clear();
        self.waiting.clear();
        self.beyond = 0;
        self.events = 0;
        self.woken = 0;
        self.makers = MakerCounts::new();
    }

    // Whether there is space for a row or a waiting ticket, where the event brings one.
    fn has_space_for(&self, what: &What) -> bool
        ensures { result ≡ has_space_for self.now what.now }
    {
        match what {
            What::Added(..) => self.rows.len() < MOST_HANDLES,
            What::Done(..) => self.waiting.len() < MOST_HANDLES,
            _ => true,
        }
    }

    fn has_space(&self, what: &What) -> bool
        ensures { result ≡ has_space self.now what.now }
    {
        if !self.has_space_for(what) {
            return false;
        }
        self.events < u32::MAX
    }

    /// Takes in any event that there is space for. An event that may follow has space, so the table is then that of the events with this
    /// one at the end (`mx_history::laws::table_follows`).
    pub fn apply(&mut self, event: Event)
        ensures { self.new ≡ table_after self.old event }
    {
        if !self.has_space(&event.what) {
            return;
        }
        self.events += 1;
        self.woken = woken_after(&event.what, self.woken, self.events);
        self.beyond = greater(self.beyond, past(&event.what));
        self.makers.count(event.who);
        self.rows.enter(&event.what);
        waits::enter(&mut self.waiting, &event.what);
    }
}

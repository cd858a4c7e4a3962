//! What was done at an engine: for contracts alone.
ghost use Rattle.std.specs.Prelude.{◌≡◌, option_map};
ghost use Rattle.mx_turn.specs.Workers.{claims, looks, notes, finishes, gives_back, recorded, stale, lacking, unseated, returned, ended_before, unreturned};

use crate::engine::{Claimed, Finished, Right};
use mx_link::Link;
use mx_sink::Delivery;
use mx_types::{Look, Ticket};
use std::marker::Model;
use std::snapshot::Snapshot;

// One operation, on such transfers, ends and rights.
#[derive(Drop)]
pub(crate) enum Note<H, F, C> {
    Claims(Snapshot<Option<H>>),
    Looks(Ticket, Option<Look>),
    Notes(Snapshot<C>, u32),
    Recorded(Snapshot<F>),
    Stale(Snapshot<F>),
    Lacking(Snapshot<F>),
    Unseated(Snapshot<F>),
    Returned(Snapshot<H>),
    EndedBefore(Snapshot<H>),
    Unreturned(Snapshot<H>),
}

/// One operation at an engine, with its result.
pub struct Done<L: Link, C: Right, D: Delivery> {
    note: Note<Claimed<L, C, D>, Finished<C, D>, C>,
}

// Written out, and not derived: a crate that drops one cites its proof.
impl<L: Link, C: Right, D: Delivery> Drop for Done<L, C, D> {
    fn drop(self) {
        let Done { note } = self;
        drop(note);
    }
}

impl<L: Link, C: Right, D: Delivery> Model for Done<L, C, D> {
    ghost use Rattle.mx_turn.specs.Workers.{Deed};
    ghost use Rattle.mx_turn.specs.Deeds.{done_by};

    ghost Value = { Deed L };

    ghost view = { λ d. done_by C.ticket_of C.slot_of d.note };
}

impl<L: Link, C: Right, D: Delivery> Done<L, C, D> {
    /// It asked for a transfer.
    pub fn claims(held: &Option<Claimed<L, C, D>>) -> Done<L, C, D>
        ensures { result ≡ claims (option_map (λ h. h.held) held.now) }
    {
        Done {
            note: Note::Claims(Snapshot::of(held)),
        }
    }

    /// It looked at a ticket.
    pub fn looks(ticket: Ticket, seen: Option<Look>) -> Done<L, C, D>
        ensures { result ≡ looks ticket seen }
    {
        Done {
            note: Note::Looks(ticket, seen),
        }
    }

    /// It noted a count of bytes.
    pub fn notes(right: &C, count: u32) -> Done<L, C, D>
        ensures { result ≡ notes (C.ticket_of right.now) (C.slot_of right.now) count }
    {
        Done {
            note: Note::Notes(Snapshot::of(right), count),
        }
    }

    /// It handed in an end, which was recorded.
    pub fn recorded(finished: Snapshot<Finished<C, D>>) -> Done<L, C, D>
        ensures { result ≡ finishes finished.value.end.ticket finished.value.end.outcome recorded }
    {
        Done {
            note: Note::Recorded(finished),
        }
    }

    /// It handed in an end, which was stale.
    pub fn stale(finished: Snapshot<Finished<C, D>>) -> Done<L, C, D>
        ensures { result ≡ finishes finished.value.end.ticket finished.value.end.outcome stale }
    {
        Done {
            note: Note::Stale(finished),
        }
    }

    /// It handed in an end, for which memory was refused.
    pub fn lacking(finished: Snapshot<Finished<C, D>>) -> Done<L, C, D>
        ensures { result ≡ finishes finished.value.end.ticket finished.value.end.outcome lacking }
    {
        Done {
            note: Note::Lacking(finished),
        }
    }

    /// It handed in an end, but its seat was another handle's.
    pub fn unseated(finished: Snapshot<Finished<C, D>>) -> Done<L, C, D>
        ensures { result ≡ finishes finished.value.end.ticket finished.value.end.outcome unseated }
    {
        Done {
            note: Note::Unseated(finished),
        }
    }

    /// It gave a transfer back, which went back to the queue.
    pub fn returned(held: Snapshot<Claimed<L, C, D>>) -> Done<L, C, D>
        ensures { result ≡ gives_back held.value.held returned }
    {
        Done {
            note: Note::Returned(held),
        }
    }

    /// It gave a transfer back, which had ended before.
    pub fn ended_before(held: Snapshot<Claimed<L, C, D>>) -> Done<L, C, D>
        ensures { result ≡ gives_back held.value.held ended_before }
    {
        Done {
            note: Note::EndedBefore(held),
        }
    }

    /// It gave a transfer back, but its seat was another handle's.
    pub fn unreturned(held: Snapshot<Claimed<L, C, D>>) -> Done<L, C, D>
        ensures { result ≡ gives_back held.value.held unreturned }
    {
        Done {
            note: Note::Unreturned(held),
        }
    }
}

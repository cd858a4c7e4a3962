//! An addition whose end is awaited.
ghost use Rattle.std.specs.Prelude.{◌≡◌, ◌==◌, ◌&&◌};
ghost use Rattle.mx_desk.specs.Additions.{is_at};

use mx_request::Request;
use mx_types::Ticket;
use std::marker::Model;
use std::snapshot::Snapshot;

/// An addition to a multi handle: its ticket, whether it was made at the seat beside the first one, and for contracts alone its request.
#[derive(Drop)]
pub struct Addition {
    ticket: Ticket,
    is_beside: bool,
    request: Snapshot<Request>,
}

impl Model for Addition {
    ghost use Rattle.mx_desk.specs.Additions.{AdditionView};

    ghost Value = { AdditionView };

    ghost view = { λ a. record { ticket = a.ticket; beside = a.is_beside; request = a.request.value } };
}

impl Addition {
    pub fn new(ticket: Ticket, is_beside: bool, request: Snapshot<Request>) -> Addition
        ensures { result ≡ record { ticket = ticket; beside = is_beside; request = request.value } }
    {
        Addition {
            ticket,
            is_beside,
            request,
        }
    }

    /// Its number.
    pub fn ticket(&self) -> Ticket
        ensures { result ≡ self.now.ticket }
    {
        self.ticket
    }

    /// Whether it was made at the seat beside the first one.
    pub fn is_beside(&self) -> bool
        ensures { result ≡ self.now.beside }
    {
        self.is_beside
    }

    /// Whether it is the addition of this ticket at that seat, which is the one beside the first one or the first one.
    pub fn is_of(&self, ticket: Ticket, is_beside: bool) -> bool
        ensures { result ≡ ((self.now.ticket.0 == ticket.0) && is_at is_beside self.now) }
    {
        let is_there = if is_beside {
            self.is_beside
        } else {
            !self.is_beside
        };
        self.ticket == ticket && is_there
    }
}

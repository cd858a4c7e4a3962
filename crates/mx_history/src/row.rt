//! The rows of the table.
ghost use Rattle.std.specs.Prelude.{◌≡◌, ◌≤◌};
ghost use Rattle.mx_history.specs.Answers.{state_at};
ghost use Rattle.mx_history.specs.Rows.{is_paused, ended_phase, is_open, places_of, phase_after, turned};

use mx_types::{Code, HandleId, State, Ticket, What};

/// The phase of an addition.
#[derive(Clone, Copy)]
pub enum Phase {
    Running,
    Paused,
    /// Its transfer ended, and the message waits to be read.
    Done(Code),
    /// The message was read.
    Read(Code),
}

/// An added handle in the table: its ticket, its slot from 0 to 255, and its phase.
#[derive(Clone, Copy)]
pub struct Row {
    pub handle: HandleId,
    pub ticket: Ticket,
    pub slot: u8,
    pub phase: Phase,
}

impl Phase {
    /// Whether the transfer has not ended.
    pub fn is_open(self) -> bool
        ensures { result ≡ is_open self }
    {
        match self {
            Phase::Running | Phase::Paused => true,
            Phase::Done(_) | Phase::Read(_) => false,
        }
    }

    /// Whether the transfer has not ended and is paused.
    pub fn is_paused(self) -> bool
        ensures { result ≡ is_paused self }
    {
        matches!(self, Phase::Paused)
    }

    /// How many events an addition in this phase has to come.
    pub fn places(self) -> u32
        ensures value { result ≡ places_of self }
        ensures few { result ≤ 3 }
    {
        match self {
            Phase::Running | Phase::Paused => 3,
            Phase::Done(_) => 2,
            Phase::Read(_) => 1,
        }
    }

    /// The phase of the ticket's addition after the event.
    pub fn after(self, ticket: Ticket, what: &What) -> Phase
        ensures { result ≡ phase_after ticket what.now self }
    {
        match what {
            What::Done(other, code, _) if ticket == *other => self.ended(Phase::Done(*code)),
            What::Paused(other) if ticket == *other => self.ended(Phase::Paused),
            What::Resumed(other) if ticket == *other => self.ended(Phase::Running),
            What::Read(other) if ticket == *other => match self {
                Phase::Done(code) => Phase::Read(code),
                other => other,
            },
            _ => self,
        }
    }

    /// The state of a handle that is added under the ticket, in this phase.
    pub fn state(self, ticket: Ticket) -> State
        ensures { result ≡ state_at ticket self }
    {
        match self {
            Phase::Running => State::Running(ticket),
            Phase::Paused => State::Paused(ticket),
            Phase::Done(code) => State::Done(ticket, code),
            Phase::Read(code) => State::Read(ticket, code),
        }
    }

    fn ended(self, new: Phase) -> Phase
        ensures { result ≡ ended_phase new self }
    {
        if self.is_open() { new } else { self }
    }
}

impl Row {
    /// The state of the row's handle.
    pub fn state(self) -> State
        ensures { result ≡ state_at self.ticket self.phase }
    {
        self.phase.state(self.ticket)
    }

    /// The row after an event that adds and removes nothing.
    pub fn after(self, what: &What) -> Row
        ensures { result ≡ turned what.now self }
    {
        Row {
            phase: self.phase.after(self.ticket, what),
            ..self
        }
    }
}

//! What a gate was asked, and what it answered: for contracts alone.
ghost use Rattle.std.specs.Prelude.{◌≡◌, Ok};
ghost use Rattle.mx_gate.specs.Said.{told, asked, opened, lacked, waited, numbered, is_stop};

use crate::gate::Turn;
use mx_link::Link;
use mx_request::Endpoint;
use mx_types::Code;
use std::marker::Model;
use std::snapshot::Snapshot;

#[derive(Drop)]
pub(crate) enum Note {
    Told(u64),
    Asked(Snapshot<Endpoint>, bool),
    Opened(Snapshot<Endpoint>, Result<u64, Code>),
    Lacked(bool),
    Waited(u32, bool),
}

/// One thing that a gate was asked, with its answer.
pub struct Said {
    note: Note,
}

// Written out, and not derived: a crate that drops one cites its proof.
impl Drop for Said {
    fn drop(self) {
        let Said { note } = self;
        drop(note);
    }
}

impl Model for Said {
    ghost use Rattle.mx_gate.specs.Said.{Said as OneSaid};
    ghost use Rattle.mx_gate.specs.Notes.{said_by};

    ghost Value = { OneSaid };

    ghost view = { λ s. said_by s.note };
}

impl Said {
    /// It gave this moment.
    pub fn told(moment: u64) -> Said
        ensures { result ≡ told moment }
    {
        Said {
            note: Note::Told(moment),
        }
    }

    /// It could open a link to the endpoint, or could not yet.
    pub fn asked(endpoint: &Endpoint, can: bool) -> Said
        ensures { result ≡ asked endpoint.now can }
    {
        Said {
            note: Note::Asked(Snapshot::of(endpoint), can),
        }
    }

    /// It opened this link for the endpoint, or couldn't.
    pub fn opened<L: Link>(endpoint: &Endpoint, answer: &Result<L, Code>) -> Said
        ensures { result ≡ opened endpoint.now (numbered L.token_of answer.now) }
    {
        let number = match answer {
            Ok(link) => Ok(link.token()),
            Err(code) => Err(*code),
        };
        Said::opened_under(endpoint, number)
    }

    /// It opened a link of this number for the endpoint, or couldn't.
    pub fn opened_under(endpoint: &Endpoint, number: Result<u64, Code>) -> Said
        ensures { result ≡ opened endpoint.now number }
    {
        Said {
            note: Note::Opened(Snapshot::of(endpoint), number),
        }
    }

    /// Too many files were open for the last link that it couldn't open, or it had another cause.
    pub fn lacked(files: bool) -> Said
        ensures { result ≡ lacked files }
    {
        Said {
            note: Note::Lacked(files),
        }
    }

    /// It was to wait so many milliseconds, and then answered this.
    pub fn waited(wait_ms: u32, turn: Turn) -> Said
        ensures { result ≡ waited wait_ms (is_stop turn) }
    {
        Said {
            note: Note::Waited(wait_ms, matches!(turn, Turn::Stop)),
        }
    }
}

//! The exit status of a run whose URLs end in any order.
ghost use Rattle.std.specs.Prelude.{◌≡◌, ◌<◌, None};
ghost use Rattle.mx_save_rules.specs.Codes.{save_number};
ghost use Rattle.mx_save_rules.specs.Status.{first_of, after_note, status_of};

use crate::code::SaveCode;

/// A code's number, and the place of its URL among all of the run, from 0 on.
#[derive(Clone, Copy)]
pub struct PlacedCode {
    pub place: u64,
    pub number: u8,
}

/// What the exit status will be, of the ends that came so far: the first code that isn't 0, in the order of the URLs.
#[derive(Clone, Copy)]
pub struct ExitStatus {
    first: Option<PlacedCode>,
}

impl ExitStatus {
    /// No end has come.
    pub fn new() -> ExitStatus
        ensures { first_of result ≡ None }
    {
        ExitStatus { first: None }
    }

    // rule save-exit-status
    /// Notes the code with which the URL at that place ended. The ends may come in any order.
    pub fn note(&mut self, place: u64, code: SaveCode)
        ensures { first_of self.new ≡ after_note (first_of self.old) (record { place = place; number = save_number code }) }
    {
        let number = code.number();
        if number == 0 {
            return;
        }
        let new = PlacedCode { place, number };
        self.first = match self.first {
            Some(first) if first.place <= place => Some(first),
            _ => Some(new),
        };
    }

    /// The exit status: 0 where each code was 0.
    pub fn status(&self) -> u8
        ensures { result ≡ status_of (first_of self.now) }
    {
        match self.first {
            Some(first) => first.number,
            None => 0,
        }
    }
}

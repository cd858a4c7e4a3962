//! A log that nobody reads.
ghost use Rattle.std.specs.Prelude.{◌≡◌, []};

use mx_history::Log;
use mx_types::{Event, History, OutOfMemory};
use std::marker::Model;

/// A log whose events stand in contracts alone: it takes no memory, and refuses nothing.
#[derive(Drop)]
pub(crate) struct Quiet {
    events: History<Event>,
}

impl Model for Quiet {
    ghost use Rattle.std.specs.Prelude.{List};
    ghost use Rattle.mx_types.specs.declared.event.Event.{Event as OneEvent};

    ghost Value = { List OneEvent };

    ghost view = { λ q. q.events };
}

impl Quiet {
    pub fn new() -> Quiet
        ensures { result ≡ [] }
    {
        Quiet {
            events: History::new(),
        }
    }
}

impl Log for Quiet {
    ghost events = { λ q. q };

    ghost may_refuse = { λ _. ⊥ };

    fn append(&mut self, event: Event) -> Result<(), OutOfMemory> {
        self.events.note(event);
        Ok(())
    }
}

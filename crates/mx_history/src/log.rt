//! Logs, to which events are appended.
ghost use Rattle.std.specs.Prelude.{◌≡◌, ◌++◌, ◌∷◌, [], List, ℕ, OnOk, OnErr, IfOk};
ghost use Rattle.mx_types.specs.declared.event.Event.{Event};

use mx_types::{Event, OutOfMemory};
use std::alloc::Global;

/// A list of events that only grows.
pub trait Log {
    ghost events: { Self → List Event };

    /// Which log it is, for contracts alone: appending keeps that.
    ghost name: { Self → List ℕ } = { λ log. [] };

    /// Whether an append may be refused now, for contracts alone. A log that takes the default says nothing of it.
    ghost may_refuse: { Self → Type 0 } = { λ log. Unit {0} };

    /// Appends the event, or changes nothing where memory is refused.
    fn append(&mut self, event: Event) -> Result<(), OutOfMemory>
        ensures ok { OnOk result (events self.new ≡ events self.old ++ event ∷ []) }
        ensures err { OnErr result (events self.new ≡ events self.old) }
        ensures refused { OnErr result (may_refuse self.old) }
        ensures same { name self.new ≡ name self.old };
}

/// A log in a vector.
#[derive(Drop)]
pub struct VecLog {
    list: Vec<Event>,
}

impl std::marker::Model for VecLog {
    ghost use Rattle.std.specs.Prelude.{List};
    ghost use Rattle.mx_types.specs.declared.event.Event.{Event};

    ghost Value = { List Event };

    ghost view = { λ l. l.list.items };
}

impl VecLog {
    /// No event; those that come take memory from `alloc`.
    pub fn new(alloc: Global) -> VecLog
        ensures { result ≡ [] }
    {
        VecLog {
            list: Vec::new(alloc),
        }
    }

    /// The events, in order.
    pub fn events(&self) -> &[Event]
        ensures { result.now ≡ self.now }
    {
        self.list.as_slice()
    }

    /// Drops all events, and keeps the capacity.
    pub fn clear(&mut self)
        ensures { self.new ≡ [] }
    {
        self.list.clear();
    }
}

impl Log for VecLog {
    ghost events = { λ l. l };

    fn append(&mut self, event: Event) -> Result<(), OutOfMemory> {
        self.list.push(event)?;
        Ok(())
    }
}

//! What a table of names was asked: for contracts alone.
ghost use Rattle.std.specs.Prelude.{◌≡◌};

use crate::entry::Entry;
use std::marker::Model;
use std::snapshot::Snapshot;

/// One question that a table of names was asked: since which moment, at which moment, and what was known of hosts then. For contracts alone.
#[derive(Drop)]
pub struct Asked {
    since: u64,
    now: u64,
    known: Snapshot<Vec<Entry>>,
}

impl Model for Asked {
    ghost use Rattle.std.specs.Prelude.{vec_items};
    ghost use Rattle.mx_names.specs.Asked.{AskedState};

    ghost Value = { AskedState };

    ghost view = { λ a. record { since = a.since; now = a.now; known = vec_items a.known.value } };
}

impl Asked {
    // Where these are known.
    pub(crate) fn of(entries: &Vec<Entry>, since: u64, now: u64) -> Asked
        ensures { result ≡ record { since = since; now = now; known = entries.now.items } }
    {
        Asked {
            since,
            now,
            known: Snapshot::of(entries),
        }
    }
}

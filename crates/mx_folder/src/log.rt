//! The steps of a folder.
ghost use Rattle.std.specs.Prelude.{◌≡◌, [], ◌∷◌, ◌++◌};
ghost use Rattle.mx_folder.specs.Parts.{told};

use crate::errors::FolderError;
use crate::past::Past;
use crate::steps::{FolderCall, Step};
use std::marker::Model;

/// The calls of a part that were refused, with the answers, the newest first.
pub(crate) type Refusals = Past<(FolderCall, FolderError)>;

// What a folder notes.
#[derive(Drop)]
enum Entry {
    Step(Step),
    // What was refused to a part of this name.
    Refused(Past<u8>, Refusals),
}

/// What was done to a folder so far, the newest first, for contracts alone.
#[derive(Drop)]
pub(crate) struct StepLog {
    all: Past<Entry>,
}

impl Model for StepLog {
    ghost use Rattle.std.specs.Prelude.{List, flat_map};
    ghost use Rattle.mx_folder.specs.declared.steps.Step.{Step as OneStep};
    ghost use Rattle.mx_folder.specs.Log.{steps_of};

    ghost Value = { List OneStep };

    ghost view = { λ l. flat_map steps_of l.all };
}

impl StepLog {
    /// Nothing yet.
    pub(crate) fn new() -> StepLog
        ensures { result ≡ [] }
    {
        StepLog { all: Past::new() }
    }

    /// Adds a step.
    pub(crate) fn note(&mut self, step: Step)
        ensures { self.new ≡ step ∷ self.old }
    {
        self.all.note(Entry::Step(step));
    }

    /// Adds what was refused to a part that came back.
    pub(crate) fn tell(&mut self, name: Past<u8>, refused: Refusals)
        ensures { self.new ≡ told name refused ++ self.old }
    {
        self.all.note(Entry::Refused(name, refused));
    }
}

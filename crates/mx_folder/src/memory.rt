//! A folder in memory.
ghost use Rattle.std.specs.Prelude.{◌≡◌, ◌<◌, false, [], ◌∷◌, ◌++◌, option_map, IfOk, OnOk, OnErr};
ghost use Rattle.mx_folder.specs.Files.{file};
ghost use Rattle.mx_folder.specs.Memory.{step_of, steps_of, none, kept_bytes, kind_of, ChangesNone};
ghost use Rattle.mx_folder.specs.Parts.{told_of, untold};
ghost use Rattle.mx_folder.specs.Steps as spec;
ghost use Rattle.mx_folder.specs.declared.steps.Step.TheVariants as steps;

use crate::errors::FolderError;
use crate::folders::{Folder, PartFile, Unplaced};
use crate::log::{Refusals, StepLog};
use crate::past::{Past, bytes_of, note_all};
use crate::steps::{FolderCall, Kind, Step, refused};
use crate::{FileName, PartName};
use mx_types::{History, OutOfMemory};
use std::alloc::{AllocError, Global};
use std::marker::Model;
use std::mem;

// What was done, with its bytes.
#[derive(Drop)]
enum Done {
    Created(Vec<u8>),
    // The part, its final name, its bytes, and whether they are flushed.
    Placed(Vec<u8>, Vec<u8>, Vec<u8>, bool),
    Removed(Vec<u8>),
}

// How many calls there were, and which fail.
#[derive(Clone, Copy)]
struct Calls {
    made: u64,
    fails_at: u64,
    fails_on: bool,
    error: FolderError,
}

impl Calls {
    // The error of the next call, if it is one that fails.
    fn next(&mut self) -> Option<FolderError> {
        let is_refused = self.made == self.fails_at || self.fails_on && self.made > self.fails_at;
        self.made = self.made.saturating_add(1);
        is_refused.then_some(self.error)
    }
}

/// A part of a folder in memory, which has its bytes. It counts its calls on from those of the folder when that made it, and fails as the
/// folder does.
#[derive(Drop)]
pub struct MemoryPart {
    name: Vec<u8>,
    bytes: Vec<u8>,
    flushed: bool,
    refused: Refusals,
    calls: Calls,
    most: usize,
}

impl Model for MemoryPart {
    ghost use Rattle.std.specs.Prelude.{◌<◌};
    ghost use Rattle.mx_folder.specs.Parts.{PartValue};

    ghost Value = { PartValue };

    ghost view = { λ p. record { name = p.name.items; bytes = p.bytes.items; flushed = p.flushed; refused = p.refused } };

    ghost invariant = { λ p. 0 < p.most };
}

impl MemoryPart {
    // Writes these bytes, where no call fails.
    fn write(&mut self, bytes: &[u8]) -> Result<(), FolderError>
        ensures written { OnOk result (self.new ≡ record self.old { bytes = self.old.bytes ++ bytes.now; flushed = false }) }
        ensures same { OnErr result (self.new ≡ self.old) }
    {
        if let Some(error) = self.calls.next() {
            return Err(error);
        }
        if self.bytes.extend_from_slice(bytes).is_err() {
            return Err(FolderError::OutOfMemory);
        }
        self.flushed = false;
        Ok(())
    }
}

impl PartFile for MemoryPart {
    ghost value = { λ part. part };

    fn append(&mut self, bytes: &[u8]) -> Result<usize, FolderError> {
        let n = bytes.len().min(self.most);
        match self.write(&bytes[..n]) {
            Ok(()) => Ok(n),
            Err(error) => {
                self.refused.note((FolderCall::Append, error));
                Err(error)
            }
        }
    }

    fn flush(&mut self) -> Result<(), FolderError> {
        match self.calls.next() {
            None => {
                self.flushed = true;
                Ok(())
            }
            Some(error) => {
                self.refused.note((FolderCall::Flush, error));
                Err(error)
            }
        }
    }
}

/// A folder in memory that was empty at first. Contracts see what was done to it, the newest first. It keeps the bytes of each file, and
/// replays the calls when it is asked what a name holds: it is for tests.
///
/// A write takes at most so many bytes as it was made with, and the call of the number that it was made with fails, where the first has
/// number 0; after [`failing_on`](MemoryFolder::failing_on) each later one, too. The calls of a part count; the folder knows of them once it
/// gets the part back. A call that is refused memory fails with `OutOfMemory`.
#[derive(Drop)]
pub struct MemoryFolder {
    alloc: Global,
    done: Vec<Done>,
    steps: StepLog,
    calls: Calls,
    most: usize,
}

impl Model for MemoryFolder {
    ghost use Rattle.std.specs.Prelude.{◌≡◌, ℕ, ◌<◌, List, None};
    ghost use Rattle.mx_folder.specs.declared.steps.Step.{Step as OneStep};
    ghost use Rattle.mx_folder.specs.Files.{file};
    ghost use Rattle.mx_folder.specs.Memory.{Replays};

    ghost Value = { List OneStep };

    ghost view = { λ f. f.steps };

    ghost invariant = { λ f. record {
      replays : Replays f.done.items f.steps;
      most : 0 < f.most;
    } };
}

// rule file-steps
// The bytes of this name, by what is kept of the calls: none of a part's.
fn replay(alloc: Global, done: &[Done], name: &[u8]) -> Result<Option<Vec<u8>>, AllocError>
    ensures { IfOk result (λ held. option_map (λ v. v.items) held ≡ option_map kept_bytes (file none (steps_of done.now) name.now)) }
{
    let Some((newest, before)) = done.split_last() else {
        return Ok(None);
    };
    match newest {
        Done::Created(part) => {
            if name == part.as_slice() {
                return Ok(Some(Vec::new(alloc)));
            }
            replay(alloc, before, name)
        }
        Done::Placed(part, last, bytes, _) => {
            if name == last.as_slice() {
                return Ok(Some(Vec::from_slice(alloc, bytes.as_slice())?));
            }
            if name == part.as_slice() {
                return Ok(None);
            }
            replay(alloc, before, name)
        }
        Done::Removed(part) => {
            if name == part.as_slice() {
                return Ok(None);
            }
            replay(alloc, before, name)
        }
    }
}

// What a call did, from what is kept of it.
fn step_of(done: &Done) -> Step
    ensures { result ≡ step_of done.now }
{
    match done {
        Done::Created(part) => Step::Created(bytes_of(part.as_slice())),
        Done::Placed(part, last, bytes, flushed) => {
            let mut all = History::new();
            note_all(&mut all, bytes.as_slice());
            Step::Placed(
                bytes_of(part.as_slice()),
                bytes_of(last.as_slice()),
                all,
                *flushed,
            )
        }
        Done::Removed(part) => Step::Removed(bytes_of(part.as_slice())),
    }
}

impl MemoryFolder {
    /// An empty folder, the calls of which succeed but for that of the number `fails_at`, which gives `error`, if memory is available. A
    /// write takes at most `most` bytes.
    pub fn new(alloc: Global, most: usize, fails_at: u64, error: FolderError) -> MemoryFolder
        requires { 0 < most }
        ensures { result ≡ [] }
    {
        MemoryFolder {
            alloc,
            done: Vec::new(alloc),
            steps: StepLog::new(),
            calls: Calls {
                made: 0,
                fails_at,
                fails_on: false,
                error,
            },
            most,
        }
    }

    /// The same folder, where each call after the one that fails does so, too.
    pub fn failing_on(self) -> MemoryFolder
        ensures { result ≡ self }
    {
        let calls = Calls {
            fails_on: true,
            ..self.calls
        };
        MemoryFolder { calls, ..self }
    }

    /// How many calls there were, with those of the parts that it got back.
    pub fn calls(&self) -> u64 {
        self.calls.made
    }

    /// The bytes of the file of this name, and none of a part; `None` where nothing has that name.
    ///
    /// Returns `OutOfMemory` where memory for them is refused.
    pub fn held(&self, alloc: Global, name: &str) -> Result<Option<Vec<u8>>, OutOfMemory>
        ensures { IfOk result (λ held. option_map (λ v. v.items) held ≡ option_map kept_bytes (file none self.now name.now)) }
    {
        Ok(replay(alloc, self.done.as_slice(), name.as_bytes())?)
    }

    // The bytes of a name that nothing has yet, twice.
    fn vacant(&self, name: &str) -> Result<(Vec<u8>, Vec<u8>), FolderError>
        ensures { IfOk result (λ names. (names.0.items ≡ name.now) × (names.1.items ≡ name.now)) }
    {
        match self.held(self.alloc, name) {
            Ok(None) => Ok((
                copied(self.alloc, name.as_bytes())?,
                copied(self.alloc, name.as_bytes())?,
            )),
            Ok(Some(_)) => Err(FolderError::AlreadyThere),
            Err(OutOfMemory) => Err(FolderError::OutOfMemory),
        }
    }

    fn refuse(&mut self, step: Step, error: FolderError) -> FolderError
        ensures error { result ≡ error }
        ensures told { self.new ≡ spec.refused step error ∷ self.old }
    {
        self.steps.note(refused(step, error));
        error
    }

    fn act(&mut self, next: Done) -> Result<(), FolderError>
        ensures { self.new ≡ spec.done result (step_of next) ∷ self.old }
    {
        let step = step_of(&next);
        if let Some(error) = self.calls.next() {
            return Err(self.refuse(step, error));
        }
        if self.done.push(next).is_err() {
            return Err(self.refuse(step, FolderError::OutOfMemory));
        }
        self.steps.note(step);
        Ok(())
    }

    // Counts the calls of a part that came back, and notes those that were refused.
    fn take_back(&mut self, part: &mut MemoryPart)
        ensures told { self.new ≡ told_of part.old ++ self.old }
        ensures part { part.new ≡ untold part.old }
    {
        self.calls.made = self.calls.made.max(part.calls.made);
        let refused = mem::replace(&mut part.refused, Past::new());
        self.steps.tell(bytes_of(part.name.as_slice()), refused);
    }

    // A step that changes no file.
    fn pass(&mut self, step: Step) -> Result<(), FolderError>
        requires { ChangesNone step }
        ensures { self.new ≡ spec.done result step ∷ self.old }
    {
        if let Some(error) = self.calls.next() {
            return Err(self.refuse(step, error));
        }
        self.steps.note(step);
        Ok(())
    }
}

// These bytes, kept.
fn copied(alloc: Global, bytes: &[u8]) -> Result<Vec<u8>, FolderError>
    ensures { IfOk result (λ copy. copy.items ≡ bytes.now) }
{
    match Vec::from_slice(alloc, bytes) {
        Ok(copy) => Ok(copy),
        Err(_) => Err(FolderError::OutOfMemory),
    }
}

// What is kept of a call that gives a part this name.
fn placing(alloc: Global, part: &MemoryPart, name: &str) -> Result<Done, FolderError>
    ensures { IfOk result (λ next. step_of next ≡ steps.Placed part.now.name name.now part.now.bytes part.now.flushed) }
{
    Ok(Done::Placed(
        copied(alloc, part.name.as_slice())?,
        copied(alloc, name.as_bytes())?,
        copied(alloc, part.bytes.as_slice())?,
        part.flushed,
    ))
}

impl Folder for MemoryFolder {
    type Part = MemoryPart;

    ghost steps = { λ folder. folder };

    fn create(&mut self, part: &PartName) -> Result<MemoryPart, FolderError> {
        let (kept, name) = match self.vacant(part.as_str()) {
            Ok(names) => names,
            Err(error) => {
                let step = Step::Created(bytes_of(part.as_str().as_bytes()));
                return Err(self.refuse(step, error));
            }
        };
        self.act(Done::Created(kept))?;
        Ok(MemoryPart {
            name,
            bytes: Vec::new(self.alloc),
            flushed: false,
            refused: Past::new(),
            calls: self.calls,
            most: self.most,
        })
    }

    fn place(&mut self, mut part: MemoryPart, name: &FileName) -> Result<(), Unplaced<MemoryPart>> {
        self.take_back(&mut part);
        let placed = match placing(self.alloc, &part, name.as_str()) {
            Ok(next) => self.act(next),
            Err(error) => {
                let own = bytes_of(part.name.as_slice());
                self.steps
                    .note(Step::Refused(FolderCall::Place, own, error));
                Err(error)
            }
        };
        match placed {
            Ok(()) => Ok(()),
            Err(error) => Err(Unplaced { part, error }),
        }
    }

    fn remove(&mut self, mut part: MemoryPart) -> Result<(), FolderError> {
        self.take_back(&mut part);
        self.act(Done::Removed(part.name))
    }

    fn remove_dropped(&mut self, part: &PartName) -> Result<(), FolderError> {
        match copied(self.alloc, part.as_str().as_bytes()) {
            Ok(name) => self.act(Done::Removed(name)),
            Err(error) => {
                let step = Step::Removed(bytes_of(part.as_str().as_bytes()));
                Err(self.refuse(step, error))
            }
        }
    }

    fn look(&mut self, name: &FileName) -> Result<Kind, FolderError>
        ensures told { self.new ≡ spec.looked result name.now ∷ self.old }
        ensures kind { IfOk result (λ kind. kind ≡ kind_of (file none self.old name.now)) }
    {
        let kind = match self.held(self.alloc, name.as_str()) {
            Ok(None) => Kind::Absent,
            Ok(Some(_)) => Kind::File,
            Err(OutOfMemory) => {
                let step = Step::Looked(bytes_of(name.as_str().as_bytes()), Kind::Absent);
                return Err(self.refuse(step, FolderError::OutOfMemory));
            }
        };
        match self.pass(Step::Looked(bytes_of(name.as_str().as_bytes()), kind)) {
            Ok(()) => Ok(kind),
            Err(error) => Err(error),
        }
    }

    fn flush_folder(&mut self) -> Result<(), FolderError> {
        self.pass(Step::FolderFlushed)
    }
}

//! The saves of a run.
ghost use Rattle.std.specs.Prelude.{◌≡◌, ◌≢◌, ◌<◌, ◌≤◌, ◌+◌, false, true, [], ◌∷◌, ◌++◌, map, Some, None, IsOk, IsErr, IfOk, IfErr, OnOk, OnErr};
ghost use Rattle.std.specs.List.{Contains};
ghost use Rattle.mx_folder.specs.Names.{part_of};
ghost use Rattle.mx_folder.specs.Parts.{empty_part, told_of};
ghost use Rattle.mx_folder.specs.Steps.{refusals, refused_calls, done, looked};
ghost use Rattle.mx_folder.specs.Moments.{IsLater};
ghost use Rattle.mx_folder.specs.declared.steps.FolderCall.TheVariants as calls;
ghost use Rattle.mx_folder.specs.declared.steps.Step.TheVariants as steps;
ghost use Rattle.mx_save.specs.Bodies.{FilesAreKept, left_of};
ghost use Rattle.mx_save.specs.Ledgers.{LedgerValue, IsLedger, IsFresh, is_taken, most_parts};
ghost use Rattle.mx_save.specs.Made.{without};
ghost use Rattle.mx_save.specs.Sweeps.{IsSwept, IsSweptOnce};
ghost use Rattle.mx_save.specs.Tries.{AreTried, IsRefusedBy, IsRefusedOnce, next_number, refusal_of, removal_of, removed_by};
ghost use Rattle.mx_save.specs.declared.error.SaveError.TheVariants as errors;

use crate::body::Body;
use crate::error::{Discarded, PartError, SaveError, Unsaved};
use crate::made::Made;
use crate::parts_out::Out;
use crate::save::{place_part, remove_part};
use mx_folder::{FileName, Folder, FolderError, Kind, PartName, Past};
use std::alloc::Global;
use std::marker::Model;
use std::snapshot::Snapshot;

// How many names are tried for a part, where each is taken.
const PART_TRIES: u32 = u32::MAX;

// rule file-no-part-left
// Notes the name of a part if it is left.
fn note_left(all: &mut Past<Snapshot<PartName>>, part: &PartName, left: Option<FolderError>)
    ensures { map (λ p. p.value) all.new ≡ left_of part.now left ++ map (λ p. p.value) all.old }
{
    if left.is_some() {
        all.note(Snapshot::of(part));
    }
}

// A body that was saved, and its name, for contracts alone.
#[derive(Drop)]
struct SavedBody<B> {
    name: Snapshot<FileName>,
    body: Snapshot<B>,
}

/// A folder, and what a run saved in it. A body is saved by two calls: [`make_part`](Ledger::make_part) makes a part, which is then written,
/// and [`keep`](Ledger::keep) gives the part its final name. [`discard`](Ledger::discard) and [`give_up`](Ledger::give_up) remove a part instead.
/// Until one of these is called, the part is out. Many parts may be out at once. A run that ends early drops its parts, and removes them by
/// [`sweep`](Ledger::sweep).
///
/// Contracts see what had been done to the folder when the run began, and what has been done to it by now, the newest first; the bodies that
/// were saved, each with its name, the newest first; whether they are flushed; the numbers of the parts that are out, the newest first; the
/// names of the parts that are left, the newest first; and the process for which parts are named, with the number of the next.
///
/// Since the run began, each file of the folder was at each moment what it was before the run, or the whole body that was saved under its
/// name. Each body that was saved is under its name now, and no two have the same name. The name of each part holds what it held before
/// the run, or nothing, except for parts that are out, and parts that the folder refused to remove.
#[derive(Drop)]
pub struct Ledger<F: Folder, B: Body> {
    number: u64,
    flush: bool,
    folder: F,
    start: Snapshot<F>,
    saved: Past<SavedBody<B>>,
    out: Out,
    left: Past<Snapshot<PartName>>,
}

impl<F: Folder, B: Body> Model for Ledger<F, B> {
    ghost use Rattle.std.specs.Prelude.{map};
    ghost use Rattle.mx_save.specs.Ledgers.{LedgerValue, IsLedger};

    ghost Value = { LedgerValue B };

    ghost view = { λ l. record {
      start = F.steps l.start.value;
      steps = F.steps l.folder;
      entries = map (λ e. (e.name.value, e.body.value)) l.saved;
      flush = l.flush;
      out = l.out.numbers;
      left = map (λ p. p.value) l.left;
      process = l.out.process;
      number = l.number;
    } };

    ghost invariant = { λ l. IsLedger B.content (record {
      start = F.steps l.start.value;
      steps = F.steps l.folder;
      entries = map (λ e. (e.name.value, e.body.value)) l.saved;
      flush = l.flush;
      out = l.out.numbers;
      left = map (λ p. p.value) l.left;
      process = l.out.process;
      number = l.number;
    }) };
}

impl<F: Folder, B: Body> Ledger<F, B> {
    /// A run in which nothing is saved yet. Its parts are named for this process. Bodies are flushed to the disk if `flush` is true.
    pub fn new(alloc: Global, process: u32, folder: F, flush: bool) -> Ledger<F, B>
        ensures { result ≡ record {
          start = F.steps folder;
          steps = F.steps folder;
          entries = [];
          flush = flush;
          out = [];
          left = [];
          process = process;
          number = 0;
        } }
    {
        let start = Snapshot::of(&folder);
        Ledger {
            number: 0,
            flush,
            folder,
            start,
            saved: Past::new(),
            out: Out::new(alloc, process),
            left: Past::new(),
        }
    }

    /// What holds of every ledger. It does nothing: a call gives its caller's proof the law.
    pub fn know(&self)
        ensures { IsLedger B.content self.now }
    {
        // proof: what holds of a ledger
        let _flush = self.flush;
    }

    /// Whether a part has this number, and the process of this ledger.
    pub fn is_of(&self, made: &Made<F::Part>, number: u64) -> bool
        ensures process { result ≡ true → made.now.process ≡ self.now.process }
        ensures number { result ≡ true → made.now.number ≡ number }
        ensures same { (made.now.process ≡ self.now.process) × (made.now.number ≡ number) → result ≡ true }
    {
        made.process() == self.out.process() && made.number() == number
    }

    // The number of the next part.
    fn next_number(&mut self) -> u64
        ensures number { result ≡ self.old.number }
        ensures next { self.new ≡ record self.old { number = next_number self.old.number } }
    {
        let number = self.number;
        self.number = number.wrapping_add(1);
        number
    }

    // Makes the next part.
    fn make_next(&mut self) -> Result<Made<F::Part>, Unsaved>
        ensures of { IfOk result (λ made. made.process ≡ self.old.process) }
        ensures numbered { IfOk result (λ made. made.number ≡ self.old.number) }
        ensures part { IfOk result (λ made. made.part ≡ empty_part (part_of self.old.process made.number)) }
        ensures out { IfOk result (λ made. self.new.out ≡ made.number ∷ self.old.out) }
        ensures none_out { OnErr result (self.new.out ≡ self.old.out) }
        ensures none_left { IfErr result (λ u. u.left ≡ None) }
        ensures entries { self.new.entries ≡ self.old.entries }
        ensures left { self.new.left ≡ self.old.left }
        ensures start { self.new.start ≡ self.old.start }
        ensures flush { self.new.flush ≡ self.old.flush }
        ensures next { (self.new.process ≡ self.old.process) × (self.new.number ≡ next_number self.old.number) }
        ensures files { FilesAreKept self.old.steps self.new.steps }
        ensures later { IsLater self.old.steps self.new.steps }
        ensures cause { IfErr result (λ u. u.error ≢ errors.OutOfMemory → refusals self.old.steps < refusals self.new.steps) }
        ensures sound { OnOk result (refused_calls self.new.steps ≡ refused_calls self.old.steps) }
        ensures refused_by { IfErr result (λ u. IsRefusedOnce self.old self.new u.error u.part None) }
    {
        let number = self.next_number();
        // The name is put in first: once the folder has made the part, no memory is needed to know that it is out.
        let Ok(()) = self.out.put(number) else {
            return Err(Unsaved {
                error: SaveError::OutOfMemory,
                part: None,
                left: None,
            });
        };
        let name = self.out.newest();
        // proof: what holds of the name of a part
        name.know();
        match self.folder.create(name) {
            Ok(file) => Ok(Made::new(self.out.process(), number, file)),
            // Nothing is removed: a file of that name may be somebody else's.
            Err(error) => Err(Unsaved {
                error: SaveError::Create(error),
                part: Some(self.out.take(number)),
                left: None,
            }),
        }
    }

    // rule file-part-that-exists
    /// Makes an empty part. If its name is taken, the next number is tried, and it fails for that only once 2^32 - 1 names in a row were taken.
    /// The numbers go on from one part to the next, so that each name that is taken is tried once in a run.
    ///
    /// An error names the call that the folder refused, with the folder's error, or says that there was no memory for the name. The folder
    /// refused no other call but to make parts whose names were taken. No more parts are out or left than before, and each file is as it was.
    pub fn make_part(&mut self) -> Result<Made<F::Part>, Unsaved>
        ensures of { IfOk result (λ made. made.process ≡ self.old.process) }
        ensures part { IfOk result (λ made. made.part ≡ empty_part (part_of self.old.process made.number)) }
        ensures out { IfOk result (λ made. self.new.out ≡ made.number ∷ self.old.out) }
        ensures none_out { OnErr result (self.new.out ≡ self.old.out) }
        ensures none_left { IfErr result (λ u. u.left ≡ None) }
        ensures entries { self.new.entries ≡ self.old.entries }
        ensures left { self.new.left ≡ self.old.left }
        ensures start { self.new.start ≡ self.old.start }
        ensures flush { self.new.flush ≡ self.old.flush }
        ensures process { self.new.process ≡ self.old.process }
        ensures files { FilesAreKept self.old.steps self.new.steps }
        ensures later { IsLater self.old.steps self.new.steps }
        ensures cause { IfErr result (λ u. u.error ≢ errors.OutOfMemory → refusals self.old.steps < refusals self.new.steps) }
        ensures tried { IfErr result (λ u. is_taken u.error u.left ≡ true → refusals self.old.steps + most_parts ≤ refusals self.new.steps) }
        ensures made_by { IfOk result (λ made. AreTried self.old self.new (part_of self.old.process made.number) []) }
        ensures refused_by { IfErr result (λ u. IsRefusedBy self.old self.new u.error u.part None) }
    {
        for tried in 1..PART_TRIES {
            match self.make_next() {
                Ok(made) => return Ok(made),
                Err(unsaved) => {
                    if !unsaved.is_taken() {
                        return Err(unsaved);
                    }
                }
            }
        }
        self.make_next()
    }

    // rule file-whole-body
    // rule file-refused-save
    // rule file-no-part-left
    /// Saves a body that was written to a part, all of it and no more, under a name that no body before has: flushes the part to the disk if bodies
    /// are flushed, and gives it its final name. What was under that name before stays until that moment.
    ///
    /// An error names the call that the folder refused, with the folder's error. The folder refused no other call but the removal of the part.
    /// An error leaves each file as it was. The part is left only if the folder refused to remove it, and then the error says why.
    pub fn keep(
        &mut self,
        name: &FileName,
        made: Made<F::Part>,
        body: Snapshot<B>,
    ) -> Result<(), Unsaved>
        requires fresh { IsFresh name.now self.old.entries }
        requires of { made.process ≡ self.old.process }
        requires out { Contains self.old.out made.number }
        requires whole { made.part.bytes ≡ B.content body.value }
        requires unflushed { made.part.flushed ≡ false }
        requires sound { made.part.refused ≡ [] }
        ensures saved { OnOk result (self.new.entries ≡ (name.now, body.value) ∷ self.old.entries) }
        ensures kept { OnErr result (self.new.entries ≡ self.old.entries) }
        ensures files { OnErr result (FilesAreKept self.old.steps self.new.steps) }
        ensures none_left { OnOk result (self.new.left ≡ self.old.left) }
        ensures left { IfErr result (λ u. self.new.left ≡ left_of made.part.name u.left ++ self.old.left) }
        ensures part { IfErr result (λ u. u.part ≡ Some made.part.name) }
        ensures known { IfErr result (λ u. u.error ≢ errors.OutOfMemory) }
        ensures cause { IsErr result → refusals self.old.steps < refusals self.new.steps }
        ensures none_refused { OnOk result (refused_calls self.new.steps ≡ refused_calls self.old.steps) }
        ensures refused { IfErr result (λ u. refused_calls self.new.steps
            ≡ (removal_of made.part.name u.left ++ refusal_of made.part.name u.error) ++ refused_calls self.old.steps) }
        ensures out { self.new.out ≡ without made.number self.old.out }
        ensures start { self.new.start ≡ self.old.start }
        ensures flush { self.new.flush ≡ self.old.flush }
        ensures process { self.new.process ≡ self.old.process }
        ensures number { self.new.number ≡ self.old.number }
        ensures later { IsLater self.old.steps self.new.steps }
    {
        // proof: what holds of the part
        made.know();
        let (part, file) = made.come_back(&mut self.out);
        // proof: what holds of both names
        part.know();
        name.know();
        match place_part(&mut self.folder, file, name, self.flush) {
            Ok(()) => {
                self.saved.note(SavedBody {
                    name: Snapshot::of(name),
                    body,
                });
                Ok(())
            }
            Err(PartError { error, left }) => {
                drop(body);
                note_left(&mut self.left, &part, left);
                Err(Unsaved {
                    error,
                    part: Some(part),
                    left,
                })
            }
        }
    }

    // rule file-no-part-left
    /// Removes a part whose body isn't to be saved, whatever it has. The part is left only if the folder refuses to remove it, and then the result
    /// says why. Each file is as it was.
    pub fn discard(&mut self, made: Made<F::Part>) -> Discarded
        requires of { made.process ≡ self.old.process }
        requires out { Contains self.old.out made.number }
        ensures part { result.part ≡ made.part.name }
        ensures removed { self.new.steps ≡ removed_by result.left made.part.name ∷ (told_of made.part ++ self.old.steps) }
        ensures left { self.new.left ≡ left_of made.part.name result.left ++ self.old.left }
        ensures out { self.new.out ≡ without made.number self.old.out }
        ensures entries { self.new.entries ≡ self.old.entries }
        ensures start { self.new.start ≡ self.old.start }
        ensures flush { self.new.flush ≡ self.old.flush }
        ensures process { self.new.process ≡ self.old.process }
        ensures number { self.new.number ≡ self.old.number }
        ensures files { FilesAreKept self.old.steps self.new.steps }
        ensures later { IsLater self.old.steps self.new.steps }
    {
        // proof: what holds of the part
        made.know();
        let (part, file) = made.come_back(&mut self.out);
        // proof: what holds of its name
        part.know();
        let left = remove_part(&mut self.folder, file);
        note_left(&mut self.left, &part, left);
        Discarded { part, left }
    }

    // rule file-refused-save
    // rule file-no-part-left
    /// Removes a part after a write to it was refused with this error. The result has the error, and the name of the part. The part is left only
    /// if the folder refuses to remove it, and then the result says why. The folder refused no other call, and each file is as it was.
    pub fn give_up(&mut self, made: Made<F::Part>, error: FolderError) -> Unsaved
        requires of { made.process ≡ self.old.process }
        requires out { Contains self.old.out made.number }
        requires refused { made.part.refused ≡ (calls.Append, error) ∷ [] }
        ensures error { result.error ≡ errors.Write error }
        ensures part { result.part ≡ Some made.part.name }
        ensures left { self.new.left ≡ left_of made.part.name result.left ++ self.old.left }
        ensures cause { refusals self.old.steps < refusals self.new.steps }
        ensures refused { refused_calls self.new.steps
            ≡ (removal_of made.part.name result.left ++ refusal_of made.part.name result.error) ++ refused_calls self.old.steps }
        ensures out { self.new.out ≡ without made.number self.old.out }
        ensures entries { self.new.entries ≡ self.old.entries }
        ensures start { self.new.start ≡ self.old.start }
        ensures flush { self.new.flush ≡ self.old.flush }
        ensures process { self.new.process ≡ self.old.process }
        ensures number { self.new.number ≡ self.old.number }
        ensures files { FilesAreKept self.old.steps self.new.steps }
        ensures later { IsLater self.old.steps self.new.steps }
    {
        let Discarded { part, left } = self.discard(made);
        Unsaved {
            error: SaveError::Write(error),
            part: Some(part),
            left,
        }
    }

    // rule file-no-part-left
    // Removes the newest part that is out, whose value was dropped. Returns whether there was one.
    fn sweep_one(&mut self) -> bool
        ensures none { result ≡ false → (self.old.out ≡ []) × (self.new ≡ self.old) }
        ensures one { result ≡ true → IsSweptOnce self.old self.new }
        ensures files { FilesAreKept self.old.steps self.new.steps }
    {
        let Some((_, part)) = self.out.take_newest() else {
            return false;
        };
        // proof: what holds of its name
        part.know();
        let left = self.folder.remove_dropped(&part).err();
        note_left(&mut self.left, &part, left);
        true
    }

    // rule file-no-part-left
    /// Removes each part that is out, by its name, the newest first. It is for a run that ends early, once its parts were dropped, so that nothing
    /// writes to them any more. A part is left only if the folder refuses to remove it, and then its name is noted. Each file is as it was.
    pub fn sweep(&mut self)
        ensures out { self.new.out ≡ [] }
        ensures swept { IsSwept self.old self.new }
        ensures entries { self.new.entries ≡ self.old.entries }
        ensures start { self.new.start ≡ self.old.start }
        ensures flush { self.new.flush ≡ self.old.flush }
        ensures process { self.new.process ≡ self.old.process }
        ensures number { self.new.number ≡ self.old.number }
        ensures files { FilesAreKept self.old.steps self.new.steps }
        ensures later { IsLater self.old.steps self.new.steps }
    {
        while self.sweep_one() {}
    }

    /// Looks up what is under a name. A link isn't followed.
    pub fn look(&mut self, name: &FileName) -> Result<Kind, FolderError>
        ensures { self.new ≡ record self.old { steps = looked result name.now ∷ self.old.steps } }
    {
        self.folder.look(name)
    }

    /// Ends the run: flushes the names of the folder to the disk if bodies are flushed, and returns the folder, in which all bodies that were
    /// saved still are.
    pub fn finish(self) -> (F, Result<(), FolderError>)
        ensures run { IsLedger B.content (record self { steps = F.steps result.0 }) }
        ensures asked { self.flush ≡ true → F.steps result.0 ≡ done result.1 steps.FolderFlushed ∷ self.steps }
        ensures unasked { self.flush ≡ false → (F.steps result.0 ≡ self.steps) × IsOk result.1 }
        ensures later { IsLater self.steps (F.steps result.0) }
    {
        let Ledger {
            mut folder,
            flush,
            ..
        } = self;
        if !flush {
            return (folder, Ok(()));
        }
        let flushed = folder.flush_folder();
        (folder, flushed)
    }
}

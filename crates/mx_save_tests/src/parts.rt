//! Parts that a ledger makes, what is written to them, and what becomes of them.
ghost use Rattle.std.specs.Prelude.{◌≡◌, ◌≢◌, ◌∷◌, [], false, true, ℕ, List, None, IfOk, IfSome, OnErr};
ghost use Rattle.std.specs.List.{Contains};
ghost use Rattle.mx_folder.specs.declared.steps.FolderCall.TheVariants as calls;
ghost use Rattle.mx_save.specs.Ledgers.{IsFresh};

use crate::sink_bodies::give;
use mx_folder::{FileName, Folder, FolderError, PartFile};
use mx_save::{Body, Discarded, Ledger, Made, PartSink, SaveError, Unfinished, Unsaved};
use mx_sink::Sink;
use std::alloc::{AllocError, Global};
use std::snapshot::Snapshot;

/// The body that is in a part, for contracts alone.
#[derive(Drop)]
pub struct Contained<P: PartFile> {
    part: Snapshot<Made<P>>,
}

impl<P: PartFile> Body for Contained<P> {
    ghost content = { λ b. b.part.value.part.bytes };
}

/// A ledger of such bodies.
pub type Parts<F> = Ledger<F, Contained<<F as Folder>::Part>>;

/// A part to which a body is written, and its number.
#[derive(Drop)]
pub struct OpenPart<P: PartFile> {
    pub number: u64,
    pub sink: PartSink<Made<P>>,
}

impl<P: PartFile> OpenPart<P> {
    /// Whether another has another number.
    pub fn is_apart(&self, other: &OpenPart<P>) -> bool
        ensures { result ≡ true → other.now.number ≢ self.now.number }
    {
        self.number != other.number
    }
}

/// Gives a sink these pieces.
pub fn give_all<S: Sink>(sink: &mut S, pieces: &[&[u8]]) {
    for piece in pieces {
        let _taken = give(sink, *piece, usize::MAX);
    }
}

/// What is done with a part, once all was given to its sink.
#[derive(Clone, Copy)]
pub enum How {
    /// It gets its name, or is given up where a write was refused.
    Keep,
    /// It is discarded, with all that the sink took.
    Discard,
    /// It is discarded as it is: what the sink gathered isn't written.
    PutAway,
}

/// What is told of a part.
#[derive(Drop)]
pub enum Told {
    Saved,
    Unsaved(Unsaved),
    Discarded(Discarded),
}

/// What is told of a part, in words.
pub fn words_of(alloc: Global, told: &Told) -> Result<String, AllocError> {
    match told {
        Told::Saved => String::from_str(alloc, "saved"),
        Told::Unsaved(unsaved) => format!(in alloc; "{unsaved}"),
        Told::Discarded(discarded) => format!(in alloc; "discarded{discarded}"),
    }
}

// What is told of a part that another ledger made. No row waits for it.
fn of_another() -> Unsaved {
    Unsaved {
        error: SaveError::Write(FolderError::NotOpen),
        part: None,
        left: None,
    }
}

/// Makes a part.
pub fn make<F: Folder>(alloc: Global, ledger: &mut Parts<F>) -> Result<OpenPart<F::Part>, Unsaved>
    ensures out { IfOk result (λ part. Contains ledger.new.out part.number) }
    ensures others { (other : ℕ) → Contains ledger.old.out other → Contains ledger.new.out other }
    ensures entries { ledger.new.entries ≡ ledger.old.entries }
{
    match ledger.make_part() {
        Ok(made) => {
            // proof: what holds of the part
            made.know();
            let number = made.number();
            Ok(OpenPart {
                number,
                sink: PartSink::new(alloc, made),
            })
        }
        Err(unsaved) => Err(unsaved),
    }
}

// The part of a sink, with all that this took, and why a write was refused, if one was.
fn finished<P: PartFile>(sink: PartSink<P>) -> (P, Option<FolderError>)
    ensures unflushed { result.1 ≡ None → (P.value result.0).flushed ≡ false }
    ensures sound { result.1 ≡ None → (P.value result.0).refused ≡ [] }
    ensures refused { IfSome result.1 (λ e. (P.value result.0).refused ≡ (calls.Append, e) ∷ []) }
{
    match sink.finish() {
        Ok(part) => (part, None),
        Err(Unfinished { part, error }) => (part, Some(error)),
    }
}

/// Gives a part its name, or gives it up where a write was refused.
pub fn keep<F: Folder>(
    ledger: &mut Parts<F>,
    part: OpenPart<F::Part>,
    name: &FileName,
) -> Result<(), Unsaved>
    requires out { Contains ledger.old.out part.number }
    requires fresh { IsFresh name.now ledger.old.entries }
    ensures others { (other : ℕ) → other ≢ part.number → Contains ledger.old.out other → Contains ledger.new.out other }
    ensures kept { OnErr result (ledger.new.entries ≡ ledger.old.entries) }
    ensures fresh { (other : List ℕ) → other ≢ name.now → IsFresh other ledger.old.entries → IsFresh other ledger.new.entries }
{
    let OpenPart { number, sink } = part;
    let (made, refused) = finished(sink);
    if !ledger.is_of(&made, number) {
        return Err(of_another());
    }
    match refused {
        None => {
            let body = Snapshot::of(&Contained {
                part: Snapshot::of(&made),
            });
            ledger.keep(name, made, body)
        }
        Some(error) => Err(ledger.give_up(made, error)),
    }
}

// Discards a part, with all that its sink took or as it is.
fn discard<F: Folder>(
    ledger: &mut Parts<F>,
    part: OpenPart<F::Part>,
    is_finished: bool,
) -> Result<Discarded, Unsaved>
    requires out { Contains ledger.old.out part.number }
    ensures others { (other : ℕ) → other ≢ part.number → Contains ledger.old.out other → Contains ledger.new.out other }
    ensures entries { ledger.new.entries ≡ ledger.old.entries }
{
    let OpenPart { number, sink } = part;
    let made = if is_finished {
        finished(sink).0
    } else {
        sink.into_part()
    };
    if !ledger.is_of(&made, number) {
        return Err(of_another());
    }
    Ok(ledger.discard(made))
}

fn told_of_keep(kept: Result<(), Unsaved>) -> Told {
    match kept {
        Ok(()) => Told::Saved,
        Err(unsaved) => Told::Unsaved(unsaved),
    }
}

fn told_of_discard(discarded: Result<Discarded, Unsaved>) -> Told {
    match discarded {
        Ok(discarded) => Told::Discarded(discarded),
        Err(unsaved) => Told::Unsaved(unsaved),
    }
}

/// Does that with a part.
pub fn end<F: Folder>(
    ledger: &mut Parts<F>,
    part: OpenPart<F::Part>,
    name: &FileName,
    how: How,
) -> Told
    requires out { Contains ledger.old.out part.number }
    requires fresh { IsFresh name.now ledger.old.entries }
    ensures others { (other : ℕ) → other ≢ part.number → Contains ledger.old.out other → Contains ledger.new.out other }
    ensures fresh { (other : List ℕ) → other ≢ name.now → IsFresh other ledger.old.entries → IsFresh other ledger.new.entries }
{
    match how {
        How::Keep => told_of_keep(keep(ledger, part, name)),
        How::Discard => told_of_discard(discard(ledger, part, true)),
        How::PutAway => told_of_discard(discard(ledger, part, false)),
    }
}

/// Saves a body: makes a part, gives its sink the pieces, and keeps it.
pub fn save<F: Folder>(
    alloc: Global,
    ledger: &mut Parts<F>,
    name: &FileName,
    pieces: &[&[u8]],
) -> Result<(), Unsaved>
    requires fresh { IsFresh name.now ledger.old.entries }
    ensures kept { OnErr result (ledger.new.entries ≡ ledger.old.entries) }
    ensures fresh { (other : List ℕ) → other ≢ name.now → IsFresh other ledger.old.entries → IsFresh other ledger.new.entries }
{
    match make(alloc, ledger) {
        Ok(mut part) => {
            give_all(&mut part.sink, pieces);
            keep(ledger, part, name)
        }
        Err(unsaved) => Err(unsaved),
    }
}

/// The same by a run of its own: what is told, whether the folder is flushed, and the folder.
pub fn save_alone<F: Folder>(
    alloc: Global,
    folder: F,
    name: &FileName,
    pieces: &[&[u8]],
    flush: bool,
) -> (Result<(), Unsaved>, Result<(), FolderError>, F) {
    let mut ledger = Ledger::new(alloc, 42, folder, flush);
    let saved = save(alloc, &mut ledger, name, pieces);
    let (folder, flushed) = ledger.finish();
    (saved, flushed, folder)
}

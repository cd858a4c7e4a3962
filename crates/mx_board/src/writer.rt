//! Where events are appended, and their table published.
ghost use Rattle.std.specs.Prelude.{◌≡◌, ◌++◌, ◌∷◌, ◌<◌, [], true, false, length, drop, IfOk, IfSome, OnOk, OnErr, MatchBool};
ghost use Rattle.std.specs.Mem.{manually_drop_value};
ghost use mathlib.Core.List.{IsPrefix};
ghost use Rattle.left_right.specs.Sides.{view};
ghost use Rattle.mx_history.specs.History.{is_legal, is_maker, made_by};
ghost use Rattle.mx_history.specs.Table.{IsTableOf, empty_table};
ghost use Rattle.mx_board.specs.Board.{mark_of};
ghost use Rattle.mx_board.specs.Published.{CaughtUp, IsSound, IsWaiting, operation, shown_by, view_of};

use crate::journal::JournalMark;
use crate::operation::Operation;
use crate::version::{CatchesUp, Tells, Version, VersionReader, VersionWriter};
use core::mem::replace_with;
use left_right::writer::Writer;
use mx_append_log::{AppendLog, Itself};
use mx_history::Log;
use mx_table::Table;
use mx_types::{Event, OutOfMemory, What, Who};
use std::alloc::Global;
use std::marker::Model;
use std::mem::ManuallyDrop;
use std::snapshot::Snapshot;
use std::sync::Wait;

/// The log of a multi handle, which publishes the table of its events to readers. Contracts see the events that were
/// appended, those that are published, and which journal it is.
///
/// One that is dropped keeps its memory: `close` frees it.
pub struct BoardWriter {
    writer: ManuallyDrop<VersionWriter>,
    journal: AppendLog<Event>,
    /// An event was refused after its operation was queued, which doesn't happen: no further one is taken.
    broken: bool,
}

// Written out, and not derived: a crate that drops a board cites its proof.
impl Drop for BoardWriter {
    fn drop(self) {
        let BoardWriter {
            writer,
            journal,
            broken: _,
        } = self;
        drop(writer);
        drop(journal);
    }
}

impl Model for BoardWriter {
    ghost use Rattle.std.specs.Prelude.{drop};
    ghost use Rattle.std.specs.Mem.{manually_drop_value};
    ghost use Rattle.mx_board.specs.Board.{BoardState};
    ghost use Rattle.mx_board.specs.Published.{IsBoard};

    ghost Value = { BoardState };

    ghost view = { λ w. record { events = w.journal.entries; published = (manually_drop_value w.writer).desk.shown.value.1.entries; book = w.journal.book } };

    ghost invariant = { λ w. IsBoard (manually_drop_value w.writer).desk.shown.value (manually_drop_value w.writer).desk.place.me.0.client (drop (manually_drop_value w.writer).behind (manually_drop_value w.writer).log.items) w.journal w.broken };
}

// The writer of the two copies isn't `Drop`: it ends by `take`, which waits.
fn hold(writer: VersionWriter) -> ManuallyDrop<VersionWriter>
    ensures { manually_drop_value result ≡ writer }
{
    unsafe { ManuallyDrop::new_unchecked(writer) }
}

// Publishes what waits, so that the version is that of these events.
fn publish_all<R: Wait>(
    rt: &R,
    writer: VersionWriter,
    events: &Snapshot<AppendLog<Event>>,
) -> VersionWriter
    requires sound { IsSound writer.desk.shown.value }
    requires waits { IsWaiting (drop writer.behind writer.log.items) writer.desk.shown.value.1 events.now.value.entries }
    requires legal { is_legal events.now.value.entries ≡ true }
    requires few { length events.now.value.entries < 4294967295 }
    ensures shown { result.desk.shown.value ≡ shown_by writer.desk.shown.value (drop writer.behind writer.log.items) }
    ensures none { drop result.behind result.log.items ≡ [] }
    ensures caught_up { CaughtUp (view writer.desk.place) result.desk.shown.value (view result.desk.place) }
{
    // proof: what holds of the snapshot
    let _ = events;
    writer.publish_as::<CatchesUp, R>(rt).0
}

// The two copies of the version, with no events.
fn first_versions(
    alloc: Global,
    journal: &AppendLog<Event>,
) -> Result<(Version, Version), OutOfMemory>
    requires { journal.now.entries ≡ [] }
    ensures are { IfOk result (λ v. (v.0 ≡ (empty_table, journal.now)) × (v.1 ≡ (empty_table, journal.now))) }
    ensures sound { IfOk result (λ v. IsSound v.0) }
{
    let first = Version::new(alloc, journal)?;
    let second = Version::new(alloc, journal)?;
    Ok((first, second))
}

// The writer of these copies.
fn first_writer(
    alloc: Global,
    journal: &AppendLog<Event>,
    readers: usize,
) -> Result<VersionWriter, OutOfMemory>
    requires readers { (0 < readers) × (readers < 65) }
    requires none { journal.now.entries ≡ [] }
    ensures shown { IfOk result (λ w. w.desk.shown.value ≡ (empty_table, journal.now)) }
    ensures sound { IfOk result (λ w. IsSound w.desk.shown.value) }
    ensures none { IfOk result (λ w. drop w.behind w.log.items ≡ []) }
{
    let (first, second) = first_versions(alloc, journal)?;
    Ok(VersionWriter::new(alloc, first, second, readers)?)
}

/// A board with no events, and places for so many readers at a time. It waits for nobody, since it has no readers yet. The one error is
/// that memory is refused.
pub fn board<R: Wait>(rt: &R, alloc: Global, readers: usize) -> Result<BoardWriter, OutOfMemory>
    requires { (0 < readers) × (readers < 65) }
    ensures { IfOk result (λ w. (w.events ≡ []) × (w.published ≡ [])) }
{
    let journal = AppendLog::new();
    let writer = first_writer(alloc, &journal, readers)?;
    // The writer's own place sees the empty journal.
    let events = Snapshot::of(&journal);
    let writer = publish_all(rt, writer, &events);
    Ok(BoardWriter {
        writer: hold(writer),
        journal,
        broken: false,
    })
}

// Appends these events to an empty board, and publishes each.
#[tactic(auto, using(crate::proofs::Filling::next_is_legal))]
fn fill<R: Wait>(rt: &R, board: &mut BoardWriter, events: &[Event]) -> Result<(), OutOfMemory>
    requires none { (board.old.events ≡ []) × (board.old.published ≡ []) }
    requires legal { is_legal events.now ≡ true }
    requires few { length events.now < 4294967295 }
    ensures { OnOk result ((board.new.events ≡ events.now) × (board.new.published ≡ events.now)) }
{
    for event in events {
        board.append(*event)?;
        board.publish(rt);
    }
    Ok(())
}

/// A board with these events, all of them published, and places for so many readers at a time. It waits for nobody, since
/// it has no readers yet. Where memory is refused, the board that was begun is closed, which no clause says.
pub fn board_of<R: Wait>(
    rt: &R,
    alloc: Global,
    readers: usize,
    events: &[Event],
) -> Result<BoardWriter, OutOfMemory>
    requires places { (0 < readers) × (readers < 65) }
    requires legal { is_legal events.now ≡ true }
    requires few { length events.now < 4294967295 }
    ensures { IfOk result (λ w. (w.events ≡ events.now) × (w.published ≡ events.now)) }
{
    let mut board = board(rt, alloc, readers)?;
    if fill(rt, &mut board, events).is_err() {
        drop(board.close(rt));
        return Err(OutOfMemory);
    }
    Ok(board)
}

// Has the operation of the event after this journal wait to be published. False, and nothing changes, where memory is refused.
fn queue(writer: &mut VersionWriter, journal: &AppendLog<Event>, event: Event) -> bool
    ensures desk { writer.new.desk ≡ writer.old.desk }
    ensures waits { MatchBool result (drop writer.new.behind writer.new.log.items ≡ drop writer.old.behind writer.old.log.items ++ operation event journal.now ∷ []) (drop writer.new.behind writer.new.log.items ≡ drop writer.old.behind writer.old.log.items) }
{
    let before = journal.counted();
    writer.append(Operation { event, before }).is_ok()
}

// The greatest length of a journal: the table counts its events in a u32.
const MOST_EVENTS: u64 = 4294967294;

impl Log for BoardWriter {
    ghost use Rattle.mx_board.specs.Board.{name_of};

    ghost events = { λ w. w.events };

    ghost name = { λ w. name_of w.book };

    /// `OutOfMemory` comes where memory is refused, where an appended event isn't published yet, and where the journal is as long as it can
    /// be. It would also come, from then on always, where something else had made the journal longer: nothing does, but no clause rules it
    /// out.
    ///
    /// No clause says that it leaves the published events as they were.
    fn append(&mut self, event: Event) -> Result<(), OutOfMemory> {
        if self.broken || self.writer.has_pending_operations() {
            return Err(OutOfMemory);
        }
        if self.journal.len() >= MOST_EVENTS {
            return Err(OutOfMemory);
        }
        if !queue(&mut self.writer, &self.journal, event) {
            return Err(OutOfMemory);
        }
        if self.journal.try_add::<Event, Itself>(&event) {
            return Ok(());
        }
        self.broken = true;
        Err(OutOfMemory)
    }
}

impl BoardWriter {
    // Publishes what waits, where something does.
    fn published<R: Wait>(self, rt: &R) -> (BoardWriter, ())
        requires { is_legal self.events ≡ true }
        ensures { result.0 ≡ record { events = self.events; published = self.events; book = self.book } }
    {
        if self.broken || !self.writer.has_pending_operations() {
            return (self, ());
        }
        let BoardWriter {
            writer,
            journal,
            broken,
        } = self;
        let events = Snapshot::of(&journal);
        let writer = publish_all(rt, ManuallyDrop::into_inner(writer), &events);
        let board = BoardWriter {
            writer: hold(writer),
            journal,
            broken,
        };
        (board, ())
    }

    // rule board-published
    /// Publishes what was appended: it waits for the readers that still read the copy that it changes. Where nothing waits
    /// to be published, it does nothing.
    pub fn publish<R: Wait>(&mut self, rt: &R)
        requires { is_legal self.old.events ≡ true }
        ensures { self.new ≡ record { events = self.old.events; published = self.old.events; book = self.old.book } }
    {
        replace_with(self, rt, BoardWriter::published::<R>)
    }

    /// The published version: the table of the published events.
    pub fn table(&self) -> &Table
        ensures { IsTableOf self.now.published result.now }
    {
        self.writer.published().table()
    }

    /// A mark of all events.
    pub fn mark(&self) -> JournalMark
        ensures { result ≡ mark_of self.now.events self.now.book }
    {
        self.journal.counted()
    }

    // The events of a mark of this journal are its first ones.
    pub(crate) fn covers_mark<R: Wait>(&self, rt: &R, mark: &JournalMark)
        requires { mark.now.book ≡ self.now.book }
        ensures { IsPrefix mark.now.entries self.now.events }
    {
        // A look at the journal has to name an event, which isn't appended.
        let unused = Event {
            who: Who::Seat(0),
            what: What::Wake,
        };
        self.journal.covers::<Event, Itself, R>(rt, mark, &unused);
    }

    /// Ends the board: it waits for the readers that read, gives its memory back, and hands out the table that was
    /// published last. From then on every read answers None.
    pub fn close<R: Wait>(self, rt: &R) -> Table
        ensures { IsTableOf self.published result }
    {
        let BoardWriter {
            writer,
            journal,
            broken: _,
        } = self;
        drop(journal);
        let version = ManuallyDrop::into_inner(writer).take(rt);
        Box::into_inner(version).into_table()
    }

    // A place for a reader, which has seen what is published. None where every place is in use.
    pub(crate) fn place(&mut self) -> Option<VersionReader>
        ensures same { self.new ≡ self.old }
        ensures seen { IfSome result (λ r. view r.place ≡ view_of (mark_of self.old.published self.old.book)) }
    {
        match self.writer.factory().reader() {
            Ok(mut reader) => {
                reader.learn::<Tells>(self.writer.tell::<Tells>());
                Some(reader)
            }
            Err(_) => None,
        }
    }

    /// How many of the published events the maker made.
    pub fn made(&self, who: Who) -> u32
        requires { is_maker who ≡ true }
        ensures { result ≡ made_by who self.now.published }
    {
        self.table().made(who)
    }

    // How many events are published.
    pub(crate) fn cut(&self) -> u32
        ensures { result ≡ length self.now.published }
    {
        self.table().len()
    }
}

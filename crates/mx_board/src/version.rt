//! What readers take: a table, and its journal.
ghost use Rattle.std.specs.Prelude.{◌≡◌, ◌++◌, [], IfOk};
ghost use Rattle.std.specs.Option.{option_to_list};
ghost use Rattle.mx_history.specs.Table.{empty_table};
ghost use Rattle.mx_board.specs.Board.{mark_of};
ghost use Rattle.mx_board.specs.Published.{IsSound};

use crate::journal::JournalMark;
use crate::operation::Operation;
use crate::view::ReaderView;
use atomic_table::{Join, Split};
use crossbeam_utils::rule::{Outcome, Protocol};
use left_right::Absorb;
use left_right::reader::Reader;
use left_right::writer::Writer;
use mx_append_log::AppendLog;
use mx_table::Table;
use mx_types::{Event, OutOfMemory};
use std::alloc::{AllocError, Global};
use std::marker::Model;

/// The table of a journal, which is that of the mark and, where there is one, the event after it. (The mark of all the
/// events is made only once their operation waits, so a version can't have it.)
#[derive(Drop)]
pub struct Version {
    table: Table,
    before: JournalMark,
    last: Option<Event>,
}

impl Model for Version {
    ghost use Rattle.std.specs.Prelude.{◌++◌};
    ghost use Rattle.std.specs.Option.{option_to_list};
    ghost use Rattle.mx_board.specs.Board.{mark_of};
    ghost use Rattle.mx_board.specs.Published.{Shown};

    ghost Value = { Shown };

    ghost view = { λ v. (v.table, mark_of (v.before.entries ++ option_to_list v.last) v.before.book) };
}

impl Version {
    /// The table of a journal with no events.
    pub fn new(alloc: Global, journal: &AppendLog<Event>) -> Result<Version, OutOfMemory>
        requires { journal.now.entries ≡ [] }
        ensures is { IfOk result (λ v. v ≡ (empty_table, journal.now)) }
        ensures sound { IfOk result (λ v. IsSound v) }
    {
        let table = Table::new(alloc)?;
        Ok(Version {
            table,
            before: journal.counted(),
            last: None,
        })
    }

    /// A mark, and the event after it: together the version's journal.
    pub fn journal(&self) -> (JournalMark, Option<Event>)
        ensures { mark_of (result.0.entries ++ option_to_list result.1) result.0.book ≡ self.now.1 }
    {
        (self.before.again(), self.last)
    }

    pub fn table(&self) -> &Table
        ensures { result.now ≡ self.now.0 }
    {
        &self.table
    }

    pub fn into_table(self) -> Table
        ensures { result ≡ self.0 }
    {
        let Version { table, .. } = self;
        table
    }
}

// Sets a mark: it drops the old one where there is nothing else.
fn set_mark(mark: &mut JournalMark, to: &JournalMark)
    ensures { mark.new ≡ to.now }
{
    *mark = to.again();
}

impl Absorb<Operation> for Version {
    ghost use Rattle.mx_board.specs.Published.{shown_after};

    type State = (Table, JournalMark);

    ghost state = { λ v. v };

    ghost applied = { λ s o. shown_after s o };

    ghost never_fails = { Unit {0} };

    fn absorb_first(&mut self, operation: &Operation, _other: &Version) -> Result<(), AllocError> {
        self.table.apply(operation.event);
        set_mark(&mut self.before, &operation.before);
        self.last = Some(operation.event);
        Ok(())
    }
}

/// The rule of the published versions.
pub struct BoardRule;

impl Protocol<Version, ReaderView> for BoardRule {
    ghost use Rattle.mx_board.specs.Published.{Keeps, first_view};

    ghost holds = { Keeps };

    ghost first = { first_view };
}

/// What an enter and a publish show.
pub struct CatchesUp;

impl Outcome<Version, ReaderView> for CatchesUp {
    ghost use Rattle.mx_board.specs.Published.{CaughtUp};

    ghost then = { λ v x y w. CaughtUp v y w };
}

/// A new reader learns what the writer knows.
pub struct Tells;

impl Split<ReaderView> for Tells {
    ghost right = { λ known. known };

    ghost left = { λ known. known };
}

impl Join<ReaderView> for Tells {
    ghost use Rattle.mx_board.specs.Published.{first_view};

    ghost spent = { first_view };

    ghost both = { λ _ told. told };
}

pub type VersionReader = Reader<Version, ReaderView, BoardRule>;

pub type VersionWriter = Writer<Version, Operation, ReaderView, BoardRule>;

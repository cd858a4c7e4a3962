//! The growing end of a list.
ghost use Rattle.std.specs.Prelude.{◌≡◌, ◌++◌, ◌∷◌, [], None, length, MatchBool};
ghost use Rattle.std.specs.Bool.{OnTrue};
ghost use mathlib.Core.List.{IsPrefix};

use crate::mark::{CountedMark, LogMark};
use crate::rule::{Append, LogRule, Look};
use logbook::{Offer, Plain, Seen, Start, Word};
use std::marker::Model;
use std::sync::Wait;

/// The growing end of the list: its length, which one atomic step raises, and the mark of all of it. Contracts see its entries, and which
/// list it is.
#[derive(Drop)]
pub struct AppendLog<T> {
    word: Word<T, u64, LogRule>,
    count: u64,
    seen: Seen<T, u64, LogRule>,
}

impl<T> Model for AppendLog<T> {
    ghost use Rattle.std.specs.Prelude.{◌≡◌, length};
    ghost use Rattle.mx_append_log.specs.Log.{Mark, first_word};

    ghost Value = { Mark T };

    ghost view = { λ l. record { entries = l.seen.log; book = l.seen.book } };

    ghost invariant = { λ l. (l.count ≡ length l.seen.log) × (l.word ≡ first_word l.seen.book) };
}

// The most entries that a list can have.
const MOST_ENTRIES: u64 = 1 << 61;

impl<T> AppendLog<T> {
    /// A new list, with no entries.
    pub fn new() -> AppendLog<T>
        ensures { result.entries ≡ [] }
    {
        let (seen, mut of_length, _of_second_word) = Seen::open(Start::alone(), 0, 0);
        let word = Word::tracked(0, &mut of_length);
        AppendLog {
            word,
            count: 0,
            seen,
        }
    }

    /// A mark of all of it, without its number.
    pub fn mark(&self) -> LogMark<T>
        ensures { result ≡ self.now }
    {
        LogMark {
            seen: self.seen.again(),
        }
    }

    /// A mark of all of it.
    pub fn counted(&self) -> CountedMark<T>
        ensures { result ≡ self.now }
    {
        CountedMark {
            count: self.count,
            mark: self.mark(),
        }
    }

    /// How many entries it has.
    pub fn len(&self) -> u64
        ensures { result ≡ length self.now.entries }
    {
        self.count
    }

    /// Appends an entry. False, and nothing changes, where the list has more entries than were seen here, or as many as
    /// it can have: 2^61. No clause says that it isn't false otherwise.
    pub fn try_add<X, M: Plain<X, T, u64>>(&mut self, about: &X) -> bool
        requires { M.state about.now ≡ None }
        ensures { MatchBool result ((self.new.book ≡ self.old.book) × (self.new.entries ≡ self.old.entries ++ M.ask about.now ∷ [])) (self.new ≡ self.old) }
    {
        let known = self.count;
        if known >= MOST_ENTRIES {
            return false;
        }
        let mut seen = self.seen.again();
        let mut nothing = seen.no_pen();
        let mut offer: Offer<T, u64, LogRule, Append> = seen.plain::<Append, X, M>(about);
        let found = self
            .word
            .compare_exchange::<Append, Append>(
                known,
                known + 1,
                &mut seen,
                &mut offer,
                &mut nothing,
            );
        if found != known {
            return false;
        }
        self.seen = seen;
        self.count = known + 1;
        true
    }

    /// Appends an entry. It would wait for ever where the list had more entries than were seen here, or as many as it can
    /// have; none are put in elsewhere.
    pub fn add<X, M: Plain<X, T, u64>, R: Wait>(&mut self, rt: &R, about: &X)
        requires { M.state about.now ≡ None }
        ensures book { self.new.book ≡ self.old.book }
        ensures entries { self.new.entries ≡ self.old.entries ++ M.ask about.now ∷ [] }
    {
        for _ in rt.forever() {
            if self.try_add::<X, M>(about) {
                return;
            }
        }
        unreachable!()
    }

    // rule board-marks
    /// The entries of a mark of this list are its first ones. A step has to name an entry, by `about`, which isn't put in. It would wait for
    /// ever where the list had more entries than were seen here; none are put in elsewhere.
    pub fn covers<X, M: Plain<X, T, u64>, R: Wait>(&self, rt: &R, mark: &CountedMark<T>, about: &X)
        requires book { mark.now.book ≡ self.now.book }
        requires plain { M.state about.now ≡ None }
        ensures { IsPrefix mark.now.entries self.now.entries }
    {
        for _ in rt.forever() {
            if self.is_whole::<X, M>(mark, about) {
                return;
            }
        }
        unreachable!()
    }

    // Whether the list has no more entries than were seen here. Then they include those of the mark.
    fn is_whole<X, M: Plain<X, T, u64>>(&self, mark: &CountedMark<T>, about: &X) -> bool
        requires book { mark.now.book ≡ self.now.book }
        requires plain { M.state about.now ≡ None }
        ensures { OnTrue result (IsPrefix mark.now.entries self.now.entries) }
    {
        let mut seen = self.seen.again();
        seen.learn(&mark.mark.seen);
        let mut offer: Offer<T, u64, LogRule, Append> = seen.plain::<Append, X, M>(about);
        let found = self.word.load::<Look, Append>(&mut seen, &mut offer);
        found == self.count
    }
}

//! Tokens of a list: how much of it was seen, and which list it is.
ghost use Rattle.std.specs.Prelude.{◌≡◌, length, MatchBool, nat_le};
ghost use mathlib.Core.List.{IsPrefix};
ghost use Rattle.mx_append_log.specs.Log.{AreOfOneList};

use crate::rule::LogRule;
use logbook::Seen;
use std::marker::Model;

/// A prefix of the list that was reached. It has no size.
#[derive(Drop)]
pub struct LogMark<T> {
    pub(crate) seen: Seen<T, u64, LogRule>,
}

impl<T> Model for LogMark<T> {
    ghost use Rattle.mx_append_log.specs.Log.{Mark};

    ghost Value = { Mark T };

    ghost view = { λ m. record { entries = m.seen.log; book = m.seen.book } };
}

/// A prefix of the list that was reached, with the number of its entries.
#[derive(Drop)]
pub struct CountedMark<T> {
    pub(crate) count: u64,
    pub(crate) mark: LogMark<T>,
}

impl<T> Model for CountedMark<T> {
    ghost use Rattle.std.specs.Prelude.{◌≡◌, length};
    ghost use Rattle.mx_append_log.specs.Log.{Mark};

    ghost Value = { Mark T };

    ghost view = { λ m. m.mark };

    ghost invariant = { λ m. m.count ≡ length m.mark.entries };
}

impl<T> LogMark<T> {
    /// A copy.
    pub fn again(&self) -> LogMark<T>
        ensures { result ≡ self.now }
    {
        LogMark {
            seen: self.seen.again(),
        }
    }

    /// Afterwards it has all that the other has.
    pub fn learn(&mut self, other: &LogMark<T>)
        requires { other.now.book ≡ self.old.book }
        ensures book { self.new.book ≡ self.old.book }
        ensures grown { IsPrefix self.old.entries self.new.entries }
        ensures all { IsPrefix other.now.entries self.new.entries }
    {
        self.seen.learn(&other.seen);
    }

    /// Of two marks of one list, one is a prefix of the other.
    pub fn are_of_one_list(&self, other: &LogMark<T>)
        requires { other.now.book ≡ self.now.book }
        ensures { AreOfOneList self.now.entries other.now.entries }
    {
        let mut joined = other.again();
        joined.learn(self);
    }
}

impl<T> CountedMark<T> {
    /// A copy.
    pub fn again(&self) -> CountedMark<T>
        ensures { result ≡ self.now }
    {
        CountedMark {
            count: self.count,
            mark: self.mark.again(),
        }
    }

    /// How many entries it has.
    pub fn len(&self) -> u64
        ensures { result ≡ length self.now.entries }
    {
        self.count
    }

    // rule board-marks
    /// Whether the other, a mark of the same list, has no more entries. Of two prefixes of one list the shorter is a prefix of the longer.
    pub fn reaches(&self, other: &CountedMark<T>) -> bool
        requires { other.now.book ≡ self.now.book }
        ensures begins { MatchBool result (IsPrefix other.now.entries self.now.entries) (IsPrefix self.now.entries other.now.entries) }
        ensures longer { result ≡ nat_le (length other.now.entries) (length self.now.entries) }
    {
        // proof: one of the marks is a prefix of the other
        other.mark.are_of_one_list(&self.mark);
        other.count <= self.count
    }
}

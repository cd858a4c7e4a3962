//! The rule of such a list, and its two kinds of steps.

use logbook::{Gain, Plain, Play, Rule};

/// The invariant of the list: its word is its length. Those who step keep nothing beside it.
pub struct LogRule;

impl<T> Rule<T, u64> for LogRule {
    ghost use Rattle.std.specs.Prelude.{[]};
    ghost use base.Fml.{ftrue};
    ghost use Rattle.mx_append_log.specs.Log.{IsKept};

    ghost moves = { λ _ _ _ _. Unit {0} };

    ghost keeps = { λ _ _. ftrue };

    ghost shows = { λ _. [] };

    ghost hinted = { λ _ _. Unit {0} };

    ghost holds = { IsKept };

    ghost first = { [] };
}

/// A step that adds: an entry is put after all that were seen.
pub struct Append;

impl<T> Play<T, u64> for Append {
    ghost use Rattle.mx_append_log.specs.Log.{Appends};

    ghost then = { Appends };
}

impl<T> Gain<T, u64> for Append {
    ghost use base.Fml.{ftrue};

    ghost after = { λ _ _ _. ftrue };
}

/// A step that looks: all entries that there are were then seen.
pub struct Look;

impl<T> Play<T, u64> for Look {
    ghost use Rattle.mx_append_log.specs.Log.{Looks};

    ghost then = { Looks };
}

/// An entry that is given as it is.
pub struct Itself;

impl<T> Plain<T, T, u64> for Itself {
    ghost use Rattle.std.specs.Prelude.{None};

    ghost state = { λ _. None };

    ghost ask = { λ entry. entry };
}

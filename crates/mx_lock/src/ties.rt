//! The request of each addition: a list that only grows, and exists in contracts alone.
ghost use Rattle.std.specs.Prelude.{◌≡◌};
ghost use Rattle.mx_journal.specs.Replies.{origins_added};

use logbook::Plain;
use mx_append_log::{AppendLog, LogMark};
use mx_journal::AddReply;
use mx_types::{Origin, Work};
use std::snapshot::Snapshot;
use std::sync::Wait;

/// The growing end of the list: the ties so far, and which list it is.
pub type TieLog = AppendLog<Origin>;

/// A prefix of the list that was reached. It has no size.
pub type TieMark = LogMark<Origin>;

/// The tie of an addition: its work's request.
pub struct TiesAddition;

impl<Q: Work> Plain<Snapshot<Q>, Origin, u64> for TiesAddition {
    ghost use Rattle.std.specs.Prelude.{None};

    ghost state = { λ _. None };

    ghost ask = { λ x. Q.origin x.value };
}

// rule multi-origins
/// Puts in the tie of an addition, where there was one.
pub(crate) fn tie_addition<Q: Work, R: Wait>(
    rt: &R,
    ties: &mut TieLog,
    answer: &AddReply<Q>,
    work: &Snapshot<Q>,
)
    ensures book { ties.new.book ≡ ties.old.book }
    ensures ties { ties.new.entries ≡ origins_added answer.now ties.old.entries (Q.origin work.now.value) }
{
    if let AddReply::Added(_) = answer {
        ties.add::<Snapshot<Q>, TiesAddition, R>(rt, work);
    }
}

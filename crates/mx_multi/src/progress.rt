//! Progress of transfers: words that workers note and seats read, without a lock.
ghost use Rattle.std.specs.Prelude.{◌≡◌};
ghost use Rattle.mx_multi.specs.Progress.{ProgressNeverFalls, SaysWord};

use mx_board::{Found, NoteSeat, Progress, ProgressTable, progress_by};

// The progress of an addition, by the word of its slot.
pub(crate) fn read_word(words: &ProgressTable, notes: &mut NoteSeat, found: Found) -> Progress
    requires { notes.old.of ≡ words.now.id }
    ensures { SaysWord found.ticket found.slot notes.old notes.new result }
{
    let (noted, count) = words.read(notes, found.slot);
    progress_by(found.ticket, noted, count)
}

// rule multi-progress-never-falls
/// Of two answers of `Seated::progress` to one seat, both of the bytes of one ticket, the later is no less: the ticket keeps its slot as
/// long as its handle is added, and no word that is read for a slot is less than those that the seat had read there.
pub fn progress_never_falls()
    ensures { ProgressNeverFalls }
{}

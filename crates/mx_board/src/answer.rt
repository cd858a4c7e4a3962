//! The progress of a transfer, by the progress word of its addition's slot.
ghost use Rattle.std.specs.Prelude.{◌≡◌, if◌then◌else◌, nat_lt};
ghost use Rattle.mx_board.specs.Answer.{progress_of};

use mx_types::Ticket;

/// The progress of a handle's transfer.
#[derive(Clone, Copy, PartialEq, Eq)]
pub enum Progress {
    /// The ticket of its addition, and how many bytes of its response were received; 0 where none were noted for it.
    Bytes(Ticket, u32),
    /// The handle isn't added.
    NotAdded,
    /// The slot of its addition is another's by now: the version that was read is older than the word.
    Replaced,
}

// rule multi-progress
/// The progress of a ticket by a word that has the ticket `noted` and so many bytes.
pub fn progress_by(ticket: Ticket, noted: Ticket, count: u32) -> Progress
    ensures { result ≡ progress_of ticket noted count }
{
    if noted.0 != ticket.0 {
        return progress_by_another(ticket, noted);
    }
    Progress::Bytes(ticket, count)
}

// The progress of a ticket by the word of another: nothing was noted for it yet, or its slot is the other's by now.
fn progress_by_another(ticket: Ticket, noted: Ticket) -> Progress
    ensures { result ≡ (if nat_lt noted.0 ticket.0 then Progress.Bytes ticket 0 else Progress.Replaced) }
{
    if noted.0 < ticket.0 {
        return Progress::Bytes(ticket, 0);
    }
    Progress::Replaced
}

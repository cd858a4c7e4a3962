//! Progress words: how many bytes each transfer has received, noted and read in single atomic steps, with no lock.
ghost use Rattle.std.specs.Prelude.{◌≡◌, ◌+◌, ◌-◌, ◌<◌, ◌++◌, ◌∷◌, [], length, replicate, IfOk};
ghost use Rattle.std.specs.List.{All};
ghost use Rattle.mx_board.specs.Progress.{ReadsWord, new_seat, note, word_of};

use crate::note::NoteView;
use atomic_table::{Join, Play, Seat, Split, Table, TableRule};
use mx_types::{MOST_HANDLES, OutOfMemory, Ticket};
use std::alloc::Global;
use std::marker::Model;

/// The rule of the words.
pub struct NoteRule;

impl TableRule<(), NoteView, u64> for NoteRule {
    ghost use Rattle.mx_board.specs.Progress.{IsKept, first_seat};

    ghost holds = { λ seats s. IsKept seats s.words s.views };

    ghost first = { first_seat };
}

/// A word is raised.
pub struct Raises;

impl Play<(), NoteView> for Raises {
    ghost use Rattle.mx_board.specs.Progress.{Notes};

    ghost then = { Notes };
}

/// A word is read.
pub struct Loads;

impl Play<(), NoteView> for Loads {
    ghost use Rattle.mx_board.specs.Progress.{Looks};

    ghost then = { Looks };
}

/// One of the seats is split off, and two are joined.
pub struct Seats;

impl Split<NoteView> for Seats {
    ghost use Rattle.mx_board.specs.Progress.{one_of, without_one};

    ghost left = { without_one };

    ghost right = { one_of };
}

impl Join<NoteView> for Seats {
    ghost use Rattle.mx_board.specs.Progress.{both_of, spent_seat};

    ghost both = { both_of };

    ghost spent = { spent_seat };
}

/// The progress words of a multi handle, one for each slot from 0 to 255. A word is the greatest that was noted for its slot,
/// or 0: first by ticket, then by count. Contracts see which table it is, and with how many seats it was made.
#[derive(Drop)]
pub struct ProgressTable {
    table: Table<(), NoteView, u64, NoteRule, Global>,
}

impl Model for ProgressTable {
    ghost use Rattle.std.specs.Prelude.{◌≡◌};
    ghost use Rattle.mx_types.specs.Limits.{most_handles};
    ghost use Rattle.mx_board.specs.Progress.{ProgressState};

    ghost Value = { ProgressState };

    ghost view = { λ t. record { id = t.table.shared.table_id; seats = t.table.shared.key } };

    ghost invariant = { λ t. (t.table.shared.table_id.words ≡ most_handles) × (t.table.shared.table_id.slots ≡ 0) };
}

/// The right to note and to read progress words. Contracts see its table, and what it has noted and read.
#[derive(Drop)]
pub struct NoteSeat {
    seat: Seat<(), NoteView>,
}

impl Model for NoteSeat {
    ghost use Rattle.std.specs.Prelude.{◌≡◌, ◌<◌, []};
    ghost use Rattle.mx_board.specs.Progress.{NoteState, state_of};

    ghost Value = { NoteState };

    ghost view = { λ s. state_of s.seat.table_id s.seat.me.0 };

    ghost invariant = { λ s. (s.seat.me.1 ≡ []) × (0 < s.seat.me.0.joined) };
}

impl ProgressTable {
    /// A table with words of 0, and its seats.
    pub fn new(alloc: Global, seats: u8) -> Result<(ProgressTable, Vec<NoteSeat>), OutOfMemory>
        requires { (0 < seats) × (seats < 33) }
        ensures table { IfOk result (λ r. r.0.seats ≡ seats) }
        ensures each { IfOk result (λ r. (length r.1.items ≡ seats) × All (λ s. s ≡ new_seat r.0) r.1.items) }
    {
        let mut all = Vec::new(alloc);
        let words = [0; MOST_HANDLES];
        let (progress, mut first) = ProgressTable::open(alloc, &words, u64::from(seats))?;
        for made in 1..seats {
            all.push(progress.split(&mut first))?;
        }
        all.push(first)?;
        Ok((progress, all))
    }

    // A table of these words, with one seat in which all are joined.
    fn open(
        alloc: Global,
        words: &[u64],
        seats: u64,
    ) -> Result<(ProgressTable, NoteSeat), OutOfMemory>
        requires words { words.now ≡ replicate MOST_HANDLES 0 }
        requires seats { 0 < seats }
        ensures { IfOk result (λ r. (r.0.seats ≡ seats) × (r.1 ≡ record { of = r.0.id; seats = seats; joined = seats; noted = []; read = [] })) }
    {
        let (table, seat) = Table::of_words(alloc, words, &seats)?;
        Ok((ProgressTable { table }, NoteSeat { seat }))
    }

    // rule board-progress-word
    /// Notes that the ticket's transfer, which has the slot, has received so many bytes. Where a greater word was noted, the
    /// word stays as it was.
    pub fn note(&self, seat: &mut NoteSeat, slot: u8, ticket: Ticket, count: u32)
        requires { seat.old.of ≡ self.now.id }
        ensures { seat.new ≡ record seat.old { noted = seat.old.noted ++ note slot (word_of ticket count) ∷ [] } }
    {
        // Packed in one number, so that one `fetch_max` raises both.
        let word = u64::from(ticket.0) * 4294967296 + u64::from(count);
        self.table
            .shared
            .fetch_max::<Raises>(&mut seat.seat, usize::from(slot), word);
    }

    // rule board-progress-word
    /// The ticket and the count of the slot's word.
    pub fn read(&self, seat: &mut NoteSeat, slot: u8) -> (Ticket, u32)
        requires { seat.old.of ≡ self.now.id }
        ensures word { ReadsWord seat.old slot (word_of result.0 result.1) }
        ensures seat { seat.new ≡ record seat.old { read = seat.old.read ++ note slot (word_of result.0 result.1) ∷ [] } }
    {
        let word = self
            .table
            .shared
            .load::<Loads>(&mut seat.seat, usize::from(slot));
        (
            Ticket((word / 4294967296) as u32),
            (word % 4294967296) as u32,
        )
    }

    /// Splits a new seat off one in which several are joined.
    pub fn split(&self, seat: &mut NoteSeat) -> NoteSeat
        requires of { seat.old.of ≡ self.now.id }
        requires several { 1 < seat.old.joined }
        ensures seat { seat.new ≡ record seat.old { joined = seat.old.joined - 1 } }
        ensures new { result ≡ record { of = self.now.id; seats = seat.old.seats; joined = 1; noted = []; read = [] } }
    {
        NoteSeat {
            seat: self.table.shared.split_seat::<Seats>(&mut seat.seat),
        }
    }

    /// Joins another seat in a seat, which has then noted and read what both had.
    pub fn join(&self, seat: &mut NoteSeat, other: NoteSeat)
        requires one { seat.old.of ≡ self.now.id }
        requires other { other.of ≡ self.now.id }
        ensures { seat.new ≡ record seat.old { joined = seat.old.joined + other.joined; noted = seat.old.noted ++ other.noted; read = seat.old.read ++ other.read } }
    {
        let NoteSeat { seat: other } = other;
        self.table.shared.join_seat::<Seats>(&mut seat.seat, other);
    }
}

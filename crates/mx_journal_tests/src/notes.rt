//! The result of the notes of two threads.
ghost use Rattle.std.specs.Prelude.{◌≡◌, ◌++◌, ◌∷◌, [], max};
ghost use Rattle.mx_board.specs.Progress.{new_seat, note, word_of};

use mx_board::{NoteSeat, ProgressTable};
use mx_types::Ticket;
use std::thread::{Threads, join};

/// How many bytes the ticket's transfer has received.
#[derive(Clone, Copy)]
pub struct Count {
    pub ticket: Ticket,
    pub bytes: u32,
}

/// Two threads, each with one of the two seats, note for one slot: the word is then the greater of their notes.
pub fn note_in_two_threads<R: Threads + Sync>(
    rt: &R,
    table: &ProgressTable,
    seats: (NoteSeat, NoteSeat),
    slot: u8,
    counts: (Count, Count),
) -> (Ticket, u32)
    requires seats { (seats.0 ≡ new_seat table.now) × (seats.1 ≡ new_seat table.now) }
    requires all { table.now.seats ≡ 2 }
    ensures { word_of result.0 result.1 ≡ max (word_of counts.0.ticket counts.0.bytes) (word_of counts.1.ticket counts.1.bytes) }
{
    let (one, two) = seats;
    let (first, second) = counts;
    let (mut one, two) = join(
        rt,
        || note_once(table, one, slot, first),
        || note_once(table, two, slot, second),
    );
    table.join(&mut one, two);
    table.read(&mut one, slot)
}

fn note_once(table: &ProgressTable, mut seat: NoteSeat, slot: u8, count: Count) -> NoteSeat
    requires { seat ≡ new_seat table.now }
    ensures { result ≡ record { of = table.now.id; seats = table.now.seats; joined = 1; noted = note slot (word_of count.ticket count.bytes) ∷ []; read = [] } }
{
    table.note(&mut seat, slot, count.ticket, count.bytes);
    seat
}

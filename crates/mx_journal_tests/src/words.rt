//! Progress words by their worked examples.
ghost use Rattle.std.specs.Prelude.{◌≡◌, IfOk, IfSome};
ghost use Rattle.std.specs.List.{All};
ghost use Rattle.mx_board.specs.Progress.{new_seat};

use crate::notes::{Count, note_in_two_threads};
use mx_board::{NoteSeat, ProgressTable};
use mx_types::{OutOfMemory, Ticket};
use std::alloc::Global;
use std::thread::Threads;

// Takes two seats off the list.
fn two(table: &ProgressTable, mut seats: Vec<NoteSeat>) -> Option<(NoteSeat, NoteSeat)>
    requires { All (λ s. s ≡ new_seat table.now) seats.items }
    ensures { IfSome result (λ r. (r.0 ≡ new_seat table.now) × (r.1 ≡ new_seat table.now)) }
{
    let _ = table;
    let last = seats.pop()?;
    let first = seats.pop()?;
    Some((first, last))
}

// Notes with each of two seats, and reads in between. It answers what was read of slot 0, and of slot 255.
fn note_and_read(
    table: &ProgressTable,
    one: &mut NoteSeat,
    other: &mut NoteSeat,
) -> ([(Ticket, u32); 4], (Ticket, u32))
    requires one { one.old ≡ new_seat table.now }
    requires other { other.old ≡ new_seat table.now }
{
    let begun = table.read(one, 0);
    table.note(one, 0, Ticket(3), 5);
    let noted = table.read(one, 0);
    table.note(other, 0, Ticket(2), 900);
    let older = table.read(other, 0);
    table.note(other, 255, Ticket(4294967295), 4294967295);
    let last = table.read(one, 255);
    let first = table.read(one, 0);
    ([begun, noted, older, first], last)
}

// A table of two seats, made again where memory was refused; and whether it was.
fn table(alloc: Global) -> Result<(ProgressTable, Vec<NoteSeat>, bool), OutOfMemory>
    ensures { IfOk result (λ r. All (λ s. s ≡ new_seat r.0) r.1.items) }
{
    match ProgressTable::new(alloc, 2) {
        Ok((table, seats)) => Ok((table, seats, false)),
        Err(OutOfMemory) => {
            let (table, seats) = ProgressTable::new(alloc, 2)?;
            Ok((table, seats, true))
        }
    }
}

/// A word is the greatest that was noted: whether it is, and whether memory was refused.
pub fn greatest(alloc: Global) -> Result<(bool, bool), OutOfMemory> {
    let (table, seats, is_refused) = table(alloc)?;
    let Some((mut one, mut other)) = two(&table, seats) else {
        return Ok((false, is_refused));
    };
    let (first, last) = note_and_read(&table, &mut one, &mut other);
    let greatest = (Ticket(3), 5);
    let is_so = first == [(Ticket(0), 0), greatest, greatest, greatest]
        && last == (Ticket(4294967295), 4294967295);
    Ok((is_so, is_refused))
}

/// Two threads note for one slot, an older ticket and a newer: whether the word is the newer.
pub fn two_threads<R: Threads + Sync>(rt: &R, alloc: Global) -> Result<bool, OutOfMemory> {
    let (table, seats) = ProgressTable::new(alloc, 2)?;
    let Some(seats) = two(&table, seats) else {
        return Ok(false);
    };
    let older = Count {
        ticket: Ticket(6),
        bytes: 4000,
    };
    let newer = Count {
        ticket: Ticket(7),
        bytes: 1,
    };
    let word = note_in_two_threads(rt, &table, seats, 9, (older, newer));
    Ok(word == (Ticket(7), 1))
}

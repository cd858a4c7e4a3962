//! Room for the bytes of an exchange.

ghost use Rattle.std.specs.Prelude.{◌≡◌, ◌+◌, ◌<◌, ◌≤◌, ◌++◌, max, vec_len, vec_capacity, OnOk, OnErr};
ghost use Rattle.mx_head.specs.Limits.{most_bytes};

use crate::limits::MOST_BYTES;
use mx_types::OutOfMemory;

/// From this much room on, a body of unknown length gets all that a response may need: room that isn't touched costs address space alone.
const LARGE: usize = 1_048_576;

/// How many bytes are copied at a time to memory of their own. The C library copies longer pieces by a repeated move, which isn't faster
/// and counts as an instruction a byte.
const PIECE: usize = 2_048;

/// The best size of the room, where there has to be more than there is.
fn best_room(room: usize, told: usize) -> usize
    ensures { result ≤ max told (most_bytes + 1) }
{
    if told > 0 {
        told
    } else if room < LARGE {
        (room * 2).min(LARGE)
    } else {
        MOST_BYTES + 1
    }
}

/// Copies bytes to the end of those that are there, a piece at a time.
fn copy(bytes: &[u8], to: &mut Vec<u8>) -> Result<(), OutOfMemory>
    ensures { OnOk result (to.new.items ≡ to.old.items ++ bytes.now) }
{
    let mut copied = 0;
    while copied < bytes.len() {
        let len = PIECE.min(bytes.len() - copied);
        to.extend_from_slice(&bytes[copied..copied + len])?;
        copied += len;
    }
    Ok(())
}

/// Moves the bytes to memory of their own, with room for `more` after them. The system gives large pages to memory that is allocated at
/// once, not to memory that grew. A refusal leaves the bytes where they are.
fn move_to_room(wire: &mut Vec<u8>, more: usize) -> Result<(), OutOfMemory>
    ensures items { wire.new.items ≡ wire.old.items }
    ensures room { OnOk result (vec_capacity wire.new ≡ vec_len wire.old + more) }
    ensures refused { OnErr result (vec_capacity wire.new ≡ vec_capacity wire.old) }
{
    let Some(room) = wire.len().checked_add(more) else {
        return Err(OutOfMemory);
    };
    let mut moved = Vec::with_capacity(*wire.allocator(), room)?;
    copy(wire, &mut moved)?;
    // The copy fitted, so the capacity is as asked for; no clause of the library says so.
    if moved.capacity() != room {
        return Err(OutOfMemory);
    }
    *wire = moved;
    Ok(())
}

/// Adds room for `more` bytes, in place where it can be, or elsewhere. A refusal leaves the bytes as they were.
fn add_room(wire: &mut Vec<u8>, more: usize, elsewhere: bool) -> Result<(), OutOfMemory>
    requires { vec_capacity wire.old < vec_len wire.old + more }
    ensures items { wire.new.items ≡ wire.old.items }
    ensures room { OnOk result (vec_capacity wire.new ≡ vec_len wire.old + more) }
    ensures refused { OnErr result (vec_capacity wire.new ≡ vec_capacity wire.old) }
{
    if elsewhere {
        return move_to_room(wire, more);
    }
    wire.reserve_exact(more)?;
    Ok(())
}

/// Makes room for `more` bytes after those that are there. `told` is how many there will be in all, where a head says so, else 0. A refusal
/// leaves the bytes as they were.
///
/// A length that is known is reserved at once. Else the room doubles, up to a mebibyte, and then is one byte more than a response may have.
/// Where that is refused, only the needed bytes are asked for.
fn make_room(wire: &mut Vec<u8>, more: usize, told: usize) -> Result<(), OutOfMemory>
    ensures items { wire.new.items ≡ wire.old.items }
    ensures room { OnOk result (vec_len wire.new + more ≤ vec_capacity wire.new) }
    ensures bounded { vec_capacity wire.new
        ≤ max (vec_capacity wire.old) (max (vec_len wire.old + more) (max told (most_bytes + 1))) }
    ensures full { OnErr result (vec_capacity wire.old < vec_len wire.old + more) }
{
    let len = wire.len();
    let room = wire.capacity();
    if more <= room - len {
        return Ok(());
    }
    let wanted = best_room(room, told).saturating_sub(len).max(more);
    if add_room(wire, wanted, told == 0 && room >= LARGE).is_ok() {
        return Ok(());
    }
    wire.reserve_exact(more)?;
    Ok(())
}

/// Puts a piece after the bytes that are there, with room as `make_room` makes it. A refusal leaves the bytes as they were.
pub(crate) fn append(wire: &mut Vec<u8>, piece: &[u8], told: usize) -> Result<(), OutOfMemory>
    ensures ok { OnOk result (wire.new.items ≡ wire.old.items ++ piece.now) }
    ensures refused { OnErr result (wire.new.items ≡ wire.old.items) }
{
    make_room(wire, piece.len(), told)?;
    wire.extend_from_slice(piece)?;
    Ok(())
}

//! Pieces that are gathered for a write.
ghost use Rattle.std.specs.Prelude.{◌≡◌, ◌+◌, ◌≤◌, ◌++◌, true, length, take, IfOk, OnOk, IsErr};
ghost use Rattle.mx_run_io.specs.Ends.{has_failed_write, Wrote};
ghost use Rattle.mx_run_local.specs.BodyTexts.{Holds};

use mx_run_io::{Output, WriteFailed};
use std::io::Write;

/// Puts a piece after the bytes that are held at the front of the buffer. The answer is how many are held then.
fn put(buffer: &mut [u8], held: usize, piece: &[u8]) -> usize
    requires room { held + length piece.now ≤ length buffer.old }
    ensures held { result ≡ held + length piece.now }
    ensures len { length buffer.new ≡ length buffer.old }
    ensures bytes { take result buffer.new ≡ take held buffer.old ++ piece.now }
{
    let end = held + piece.len();
    if piece.len() == 1 {
        // without the call of a copy
        buffer[held] = piece[0];
    } else {
        buffer[held..end].copy_from_slice(piece);
    }
    end
}

/// Prints a piece after the bytes that are held at the front of the buffer, or holds it too. The answer is how many are
/// held then.
pub(crate) fn gather<W: Write>(
    output: &mut Output<W>,
    buffer: &mut [u8],
    held: usize,
    piece: &[u8],
) -> Result<usize, WriteFailed>
    requires held { held ≤ length buffer.old }
    ensures len { length buffer.new ≡ length buffer.old }
    ensures within { IfOk result (λ n. n ≤ length buffer.old) }
    ensures bytes { IfOk result (λ n. Holds (Wrote W.contents output.old output.new)
        (take held buffer.old ++ piece.now) (take n buffer.new)) }
    ensures failed { IsErr result → has_failed_write output.new ≡ true }
    ensures kept { OnOk result (has_failed_write output.new ≡ has_failed_write output.old) }
{
    if piece.len() <= buffer.len() - held {
        return Ok(put(buffer, held, piece));
    }
    output.write_all(&buffer[..held])?;
    if piece.len() <= buffer.len() {
        return Ok(put(buffer, 0, piece));
    }
    output.write_all(piece)?;
    Ok(0)
}

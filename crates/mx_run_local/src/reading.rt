//! Reading an input, and decoding it as it comes.
ghost use Rattle.std.specs.Prelude.{◌≡◌, ◌≢◌, ◌+◌, ◌<◌, ◌≤◌, ◌↔◌, ◌⊎◌, ℕ, List, [], length, true, Some, Err, IfOk, OnErr};
ghost use Rattle.mx_head.specs.Limits.{most_bytes};
ghost use Rattle.mx_run_io.specs.Ends.{reader_of, reads_of, most_reads_of, has_failed_read};
ghost use Rattle.mx_run_local.specs.Reading.{ReadsUpTo, WasFed, IsReceived, IsRead};
ghost use Rattle.mx_run_local.specs.declared.reading.InputError.TheVariants.{Failed, OutOfMemory};

use mx_body::laws::{complete_stays_same, fault_stays_same};
use mx_body::{Decoder, MOST_BYTES};
use mx_run_io::Input;
use mx_types::Method;
use std::alloc::Global;
use std::io::Read;

/// Why an input wasn't read whole.
#[derive(Clone, Copy)]
pub enum InputError {
    /// A read failed.
    Failed,
    /// Memory for what was read, or for the pieces of its body, was refused.
    OutOfMemory,
}

/// What was read, decoded.
#[derive(Drop)]
pub struct Received {
    /// It has decided, and has the bytes up to those that decided.
    pub decoder: Decoder,
    /// How many bytes were read.
    pub len: usize,
}

/// How many bytes one read asks for.
const READ_SIZE: usize = 65536;

/// Decides on what was read, where there is no more.
fn decide(mut decoder: Decoder, len: usize) -> Result<Received, InputError>
    ensures decided { IfOk result (λ r. (bytes : List ℕ) → WasFed decoder bytes → length bytes ≡ len → IsReceived decoder.method bytes r) }
    ensures memory { OnErr result ((bytes : List ℕ) → WasFed decoder bytes → bytes ≢ []) }
    ensures failed { result ≢ Err Failed }
{
    // proof: a fault stays the same with more bytes, and so does a complete response
    fault_stays_same();
    complete_stays_same();
    match decoder.end() {
        Ok(_) => Ok(Received { decoder, len }),
        Err(_) => Err(InputError::OutOfMemory),
    }
}

// rule program-body-reads
/// Reads to the end of the input, or until there are more bytes than a response may have, and then no further than
/// that. What comes is decoded as it comes, up to the bytes that decide; those after them are only counted.
pub fn receive<R: Read>(
    alloc: Global,
    method: Method,
    input: &mut Input<R>,
) -> Result<Received, InputError>
    requires room { reads_of input.old + (most_bytes + 2) ≤ most_reads_of input.old }
    ensures received { IfOk result (IsRead method (R.remaining (reader_of input.old)) (R.remaining (reader_of input.new))) }
    ensures left { ReadsUpTo most_bytes (has_failed_read input.new)
        (R.remaining (reader_of input.old)) (R.remaining (reader_of input.new)) }
    ensures memory { result ≡ Err OutOfMemory → R.remaining (reader_of input.old) ≢ Some [] }
    ensures failed { (result ≡ Err Failed) ↔ (has_failed_read input.new ≡ true) }
    ensures asked { has_failed_read input.new ≡ true
        → (has_failed_read input.old ≡ true) ⊎ (reads_of input.old < reads_of input.new) }
    ensures reads { reads_of input.new ≤ reads_of input.old + (most_bytes + 2) }
{
    let mut decoder = Decoder::new(alloc, method);
    let mut len: usize = 0;
    let mut buffer = [0u8; READ_SIZE];
    while len <= MOST_BYTES {
        let room = READ_SIZE.min(MOST_BYTES + 1 - len);
        let count = match input.read(&mut buffer[..room]) {
            Ok(count) => count,
            Err(_) => return Err(InputError::Failed),
        };
        if count == 0 {
            return decide(decoder, len);
        }
        match decoder.feed(&buffer[..count]) {
            Ok(_) => {}
            Err(_) => return Err(InputError::OutOfMemory),
        }
        len += count;
    }
    decide(decoder, len)
}

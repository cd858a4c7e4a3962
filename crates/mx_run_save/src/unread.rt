//! Files that are read.
ghost use Rattle.std.specs.Prelude.{◌≡◌, ◌⊎◌, IfErr};

use crate::status::{OUT_OF_MEMORY, UNREAD};
use std::alloc::AllocGlobal;
use std::fs::File;
use std::io;
use std::io::{ErrorKind, Read};
use std::rt::Files;

/// Reports on standard error that a file can't be read, and why. The answer is the exit status.
pub fn tell_unread(rt: &impl Eprint, path: &str, error: io::Error) -> u8
    ensures { (result ≡ UNREAD) ⊎ (result ≡ OUT_OF_MEMORY) }
{
    let kind = error.kind();
    let _ = eprintln!(rt; "mxfetch: {path} can't be read: {error}");
    match kind {
        ErrorKind::OutOfMemory => OUT_OF_MEMORY,
        _ => UNREAD,
    }
}

// The bytes of a file, up to so many.
fn read_front<R: Files + AllocGlobal>(rt: &R, path: &str, most: u64) -> io::Result<Vec<u8>> {
    let file = File::open(rt, path)?;
    let mut bytes = Vec::new(rt.alloc());
    file.take(most).read_to_end(&mut bytes)?;
    Ok(bytes)
}

/// The bytes of a file, of which so many are read at most, or the exit status where they can't be had, which is told.
pub fn read_file<R: Files + AllocGlobal + Eprint>(
    rt: &R,
    path: &str,
    most: u64,
) -> Result<Vec<u8>, u8>
    ensures { IfErr result (λ status. (status ≡ UNREAD) ⊎ (status ≡ OUT_OF_MEMORY)) }
{
    match read_front(rt, path, most) {
        Ok(bytes) => Ok(bytes),
        Err(error) => Err(tell_unread(rt, path, error)),
    }
}

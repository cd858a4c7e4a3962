//! Writes to a part.
ghost use Rattle.std.specs.Prelude.{◌≡◌, ◌≤◌, false, ◌++◌, length, take, None};
ghost use Rattle.mx_save.specs.PartSinks.{refused_by, told_as};

use mx_folder::{FolderError, PartFile};
use mx_sink::SinkError;

// The sink's error for a write that the part refused with this one.
pub(crate) fn told_as(error: FolderError) -> SinkError
    ensures { result ≡ told_as error }
{
    match error {
        FolderError::OutOfMemory => SinkError::OutOfMemory,
        _ => SinkError::WriteError,
    }
}

// Writes these bytes at the end of a part, until a write is refused. Returns how many bytes the part took, and why the next write was refused.
// The part took all of them if none was.
pub(crate) fn append_until<P: PartFile>(part: &mut P, bytes: &[u8]) -> (usize, Option<FolderError>)
    requires { (P.value part.old).flushed ≡ false }
    ensures bytes { (P.value part.new).bytes ≡ (P.value part.old).bytes ++ take result.0 bytes.now }
    ensures unflushed { (P.value part.new).flushed ≡ false }
    ensures name { (P.value part.new).name ≡ (P.value part.old).name }
    ensures refused { (P.value part.new).refused ≡ refused_by result.1 ++ (P.value part.old).refused }
    ensures within { result.0 ≤ length bytes.now }
    ensures all { result.1 ≡ None → result.0 ≡ length bytes.now }
{
    let mut written = 0;
    while written < bytes.len() {
        match part.append(&bytes[written..]) {
            Ok(n) => written += n,
            Err(error) => return (written, Some(error)),
        }
    }
    (written, None)
}

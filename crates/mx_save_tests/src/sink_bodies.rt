//! A body, how it is given to a sink, and what is compared.
ghost use Rattle.std.specs.Prelude.{◌<◌};

use mx_sink::{Sink, SinkError};
use mx_types::OutOfMemory;
use std::alloc::{AllocError, Global};
use std::test::Fail;

/// Fails with the row in which something else comes, if there is one.
pub fn none_of(wrong: Result<Option<&'static str>, OutOfMemory>) -> Result<(), Fail> {
    match wrong {
        Ok(None) => Ok(()),
        Ok(Some(row)) => Err(row.into()),
        Err(OutOfMemory) => Err(OutOfMemory.into()),
    }
}

/// A body of so many bytes, which repeats itself after 251 of them.
pub fn body_of(alloc: Global, len: usize) -> Result<Vec<u8>, AllocError> {
    let mut body = vec![in alloc; 0; len]?;
    let mut next = 0;
    for byte in body.iter_mut() {
        *byte = next;
        next = if next < 250 { next + 1 } else { 0 };
    }
    Ok(body)
}

/// Gives a body to a sink, in pieces of this length, until all of it is taken, the sink has no room, or an error comes: how many bytes it
/// took, and the error.
pub fn give<S: Sink>(sink: &mut S, body: &[u8], piece: usize) -> (usize, Option<SinkError>)
    requires { 0 < piece }
{
    let mut at = 0;
    while at < body.len() && sink.has_room() {
        let rest = &body[at..];
        match sink.put(&rest[..piece.min(rest.len())]) {
            Ok(n) => at += n,
            Err(error) => return (at, Some(error)),
        }
    }
    (at, None)
}

/// Whether these are the same bytes. This loop is proved in a fraction of the time that `==` takes for slices.
pub fn is_same(bytes: &[u8], wanted: &[u8]) -> bool {
    if bytes.len() != wanted.len() {
        return false;
    }
    for i in 0..bytes.len() {
        if bytes[i] != wanted[i] {
            return false;
        }
    }
    true
}

//! Bodies of pieces, names, and what is compared.

use mx_folder::{FileName, file_name};
use mx_types::OutOfMemory;
use std::alloc::Global;
use std::test::Fail;

/// Fails with the row in which something else comes, if there is one.
pub fn none_of(wrong: Result<Option<&'static str>, OutOfMemory>) -> Result<(), Fail> {
    match wrong {
        Ok(None) => Ok(()),
        Ok(Some(row)) => Err(row.into()),
        Err(OutOfMemory) => Err(OutOfMemory.into()),
    }
}

/// A body, by its pieces.
pub type Pieces = &'static [&'static [u8]];

/// Its pieces are gathered: there are no more writes than the bytes need.
pub const HELLO: Pieces = &[b"h", b"e", b"l", b"l", b"o", b" ", b"", b"you"];

/// It has one piece.
pub const BYE: Pieces = &[b"bye"];

/// The name of a file that this URL gives.
pub fn name_of(alloc: Global, url: &str) -> Result<FileName, OutOfMemory> {
    file_name(alloc, url.as_bytes(), 0)
}

/// Whether these are the same bytes. This loop is proved in a fraction of the time that `==` takes for slices.
pub fn is_same(bytes: &[u8], wanted: &[u8]) -> bool {
    if bytes.len() != wanted.len() {
        return false;
    }
    for i in 0..bytes.len() {
        if bytes[i] != wanted[i] {
            return false;
        }
    }
    true
}

/// Whether this line was printed.
pub fn was_printed(printed: &[u8], line: &[u8]) -> bool {
    for at in 0..printed.len() {
        let rest = &printed[at..];
        if rest.len() >= line.len() && is_same(&rest[..line.len()], line) {
            return true;
        }
    }
    false
}

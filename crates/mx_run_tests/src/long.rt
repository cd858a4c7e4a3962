//! Long inputs.

use std::alloc::{AllocError, Global};

/// A front, a unit with how often it comes, and an end.
pub(crate) type Long<'a> = (&'a [u8], &'a [u8], usize, &'a [u8]);

/// Adds all of its bytes.
pub(crate) fn add_long(bytes: &mut Vec<u8>, long: Long<'_>) -> Result<(), AllocError> {
    let (front, unit, count, end) = long;
    bytes.extend_from_slice(front)?;
    for _ in 0..count {
        bytes.extend_from_slice(unit)?;
    }
    bytes.extend_from_slice(end)
}

/// Its bytes.
pub(crate) fn bytes_of(alloc: Global, long: Long<'_>) -> Result<Vec<u8>, AllocError> {
    let mut bytes = Vec::new(alloc);
    add_long(&mut bytes, long)?;
    Ok(bytes)
}

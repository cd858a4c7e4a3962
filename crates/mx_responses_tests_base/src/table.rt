//! The table of all responses.

use crate::bodies::{captures, chunked, counted, sizes, uncounted};
use crate::heads::{interim, limits, refused};
use crate::response::Response;

/// All responses, by what they are about. Naming a long table makes a proof longer by its rows, so each part of it is named in one
/// function. Those with bodies come first: a test that goes through all with each growth of memory refused in turn is stopped after some
/// hundred of them.
pub fn responses() -> [&'static [Response]; 8] {
    [
        counted(),
        chunked(),
        uncounted(),
        refused(),
        limits(),
        interim(),
        sizes(),
        captures(),
    ]
}

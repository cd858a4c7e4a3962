//! What became of an addition.
use mx_request::Request;

/// What became of an addition. One that was not made hands the request and its delivery back.
#[derive(Drop)]
pub enum Adding<A, D> {
    /// It was made, and this is known of it.
    Made(A),
    /// It was refused, for another reason than memory.
    Refused(Request, D),
    /// It was refused, since memory for it was.
    OutOfMemory(Request, D),
}

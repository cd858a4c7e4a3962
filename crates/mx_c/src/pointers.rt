//! Pointers for C.

/// The place of bytes that are lent. It is good for as long as what they lie in stays as it is, which C has to see to.
pub(crate) fn pointer_to(bytes: &[u8]) -> *const u8 {
    bytes.as_ptr()
}

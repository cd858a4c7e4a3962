//! The structs of the header.

/// How a transfer is to be made.
#[repr(C)]
#[derive(Clone, Copy)]
pub struct mx_how {
    /// 1: there is a body.
    pub flags: u32,
    /// The longest that it may take, all its hops together, in milliseconds; 0 for no limit.
    pub timeout_ms: u32,
    /// How many redirects are followed, 255 at most.
    pub max_redirects: u32,
    /// 0.
    pub reserved: u32,
}

/// A message.
#[repr(C)]
#[derive(Clone, Copy)]
pub struct mx_message {
    pub handle: u32,
    pub ticket: u32,
    /// What the transfer ended with.
    pub code: u32,
    /// How many messages are left.
    pub left: u32,
}

/// The state of a handle.
#[repr(C)]
#[derive(Clone, Copy)]
pub struct mx_state {
    pub state: u32,
    pub ticket: u32,
    /// What its transfer ended with.
    pub code: u32,
}

/// What an outcome tells in numbers.
#[repr(C)]
#[derive(Clone, Copy)]
pub struct mx_end {
    /// What the transfer ended with.
    pub code: u32,
    /// The status of the last response, 0 without one.
    pub status: u32,
    /// How many requests were made: one more than redirects were followed.
    pub hops: u32,
    /// 0.
    pub reserved: u32,
    /// The length of the body.
    pub body: u64,
}

//! The answer to one who asks for a host.
use crate::addresses::Addresses;
use mx_types::Code;

/// The answer to one who asks for a host's addresses.
#[derive(Drop)]
pub enum HostAnswer {
    /// The addresses.
    Known(Addresses),
    /// The lookup failed: `CouldntResolveHost`, or `OutOfMemory` where memory was refused.
    Failed(Code),
    /// Nothing is known yet: ask again.
    NotYet,
}

//! The codes of what the system refuses.
ghost use Rattle.std.specs.Prelude.{◌≡◌};
ghost use Rattle.mx_names.specs.Faults.{fault_code, is_memory};

use mx_types::Code;
use std::io;

fn is_memory(kind: io::ErrorKind) -> bool
    ensures { result ≡ is_memory kind }
{
    matches!(kind, io::ErrorKind::OutOfMemory)
}

/// The code of what the system refuses: `OutOfMemory` where memory was refused, else this other one.
pub fn fault_code(other: Code, error: &io::Error) -> Code
    ensures { result ≡ fault_code other error.now }
{
    if is_memory(error.kind()) {
        Code::OutOfMemory
    } else {
        other
    }
}

// rule gate-codes
/// The code of a lookup that failed: `OutOfMemory` where memory was refused, else `CouldntResolveHost`.
pub fn lookup_code(error: &io::Error) -> Code
    ensures { result ≡ fault_code Code.CouldntResolveHost error.now }
{
    fault_code(Code::CouldntResolveHost, error)
}

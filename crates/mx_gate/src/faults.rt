//! The codes of what the system refuses.
ghost use Rattle.std.specs.Prelude.{◌≡◌, ◌↔◌, IsTrue};
ghost use Rattle.mx_names.specs.Faults.{fault_code};
ghost use Rattle.mx_gate.specs.Faults.{IsFileLimit, MeetsFileLimit};

use mx_names::fault_code;
use mx_types::Code;
use std::io;

// Whether as many files are open as the system, or the process, may have: ENFILE and EMFILE of errno(3).
fn is_file_limit(number: i32) -> bool
    ensures { IsTrue result ↔ IsFileLimit number }
{
    number == 23 || number == 24
}

// rule gate-file-limit
/// Whether a socket is refused since too many files are open.
pub fn meets_file_limit(error: &io::Error) -> bool
    ensures { IsTrue result ↔ MeetsFileLimit error.now }
{
    match error.raw_os_error() {
        Some(number) => is_file_limit(number),
        None => false,
    }
}

// rule gate-codes
/// The code of a socket, or of a poll of sockets, that is refused: `OutOfMemory` where memory was refused, else
/// `CouldntConnect`.
pub fn connect_code(error: &io::Error) -> Code
    ensures { result ≡ fault_code Code.CouldntConnect error.now }
{
    fault_code(Code::CouldntConnect, error)
}

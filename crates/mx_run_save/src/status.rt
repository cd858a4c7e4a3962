//! The exit status of a run that saves.
ghost use Rattle.std.specs.Prelude.{◌≡◌, ◌≢◌, IfErr, IsErr, OnOk, Ok};
ghost use Rattle.mx_run_save.specs.Status.{stop_number};

use mx_folder::FolderError;
use mx_run_io::{Stop, UNWRITTEN};

/// The exit status where the folder can't be made, or flushed.
pub const UNMADE: u8 = 23;

/// The exit status where the list of URLs, or the file of the body, can't be read.
pub const UNREAD: u8 = 26;

/// The exit status where a header field, the user agent or the body is refused.
pub const REFUSED: u8 = 120;

/// The exit status where memory, a thread, a poll, a clock or a transfer is refused.
pub const OUT_OF_MEMORY: u8 = 27;

/// The exit status of a run that stopped.
pub fn stop_status(stop: Stop) -> u8
    ensures { result ≡ stop_number stop }
{
    match stop {
        Stop::Unwritten => UNWRITTEN,
        Stop::Unread => UNREAD,
        _ => OUT_OF_MEMORY,
    }
}

/// The exit status of a run, by that of the codes that were printed, by why it stopped before all URLs had ended, if it did, and by whether
/// the folder was flushed.
pub fn status_of(codes: u8, stopped: Result<(), Stop>, flushed: Result<(), FolderError>) -> u8
    ensures stopped { IfErr stopped (λ stop. result ≡ stop_number stop) }
    ensures failed { OnOk stopped (codes ≢ 0 → result ≡ codes) }
    ensures unflushed { OnOk stopped (codes ≡ 0 → IsErr flushed → result ≡ UNMADE) }
    ensures well { OnOk stopped (OnOk flushed (result ≡ codes)) }
{
    match stopped {
        Err(stop) => stop_status(stop),
        Ok(()) if codes == 0 && flushed.is_err() => UNMADE,
        Ok(()) => codes,
    }
}

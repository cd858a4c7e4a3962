//! The limit of the system on the size of a file.
ghost use Rattle.std.specs.Prelude.{◌≡◌, take};

use libc::getrlimit;
use libc::types::rlimit;

// What getrlimit(2) is asked: how many bytes a file may have that the process writes.
const RLIMIT_FSIZE: i32 = 1;

/// How many bytes a file of this process may have: `u64::MAX` where there is no limit, or where the system doesn't tell it. A write beyond
/// it raises SIGXFSZ, which ends the process.
pub fn most_bytes() -> u64 {
    let mut limit = rlimit {
        rlim_cur: u64::MAX,
        rlim_max: u64::MAX,
    };
    if getrlimit(RLIMIT_FSIZE, &mut limit) < 0 {
        return u64::MAX;
    }
    limit.rlim_cur
}

// rule file-size-limit
/// At most so many bytes, from the front.
pub fn front(bytes: &[u8], most: u64) -> &[u8]
    ensures { result.now ≡ take most bytes.now }
{
    match usize::try_from(most) {
        Ok(most) => &bytes[..bytes.len().min(most)],
        Err(_) => bytes,
    }
}

//! What an outcome tells.
ghost use Rattle.std.specs.Prelude.{◌≡◌};
ghost use Rattle.mx_c.specs.Answers.{IsEndOf, status_at};

use crate::structs::mx_end;
use mx_embedded::Ended;

/// What it tells in numbers.
pub(crate) fn end_of(ended: &Ended) -> mx_end
    ensures { IsEndOf ended.now result }
{
    let outcome = ended.outcome();
    mx_end {
        code: outcome.code().number(),
        status: u32::from(outcome.status()),
        hops: u32::try_from(outcome.hops()).unwrap_or(u32::MAX),
        reserved: 0,
        body: u64::from(outcome.body_len()),
    }
}

/// The status of a hop, 0 where there is none.
pub(crate) fn status_of(ended: &Ended, hop: u32) -> u32
    ensures { result ≡ status_at ended.now hop }
{
    match ended.outcome().hop_status(hop as usize) {
        Some(status) => u32::from(status),
        None => 0,
    }
}

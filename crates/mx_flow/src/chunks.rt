//! The bytes of a chunked body, whose data are handed on.

ghost use Rattle.std.specs.Prelude.{◌≡◌, ◌+◌, ◌<◌, ◌≤◌, ◌++◌, length, take, true, false, IfOk, OnErr};
ghost use Rattle.mx_body.specs.ChunkedPlace.{place_after, is_settled, data_left};
ghost use Rattle.mx_flow.specs.Data.{data_from};
ghost use Rattle.mx_flow.specs.Steps.{place_of};
ghost use Rattle.mx_flow.specs.Runs.{HasRun};

use crate::place::{WidePlace, behind};
use mx_types::OutOfMemory;

/// How far a reader of a chunked body came in a piece.
#[derive(Clone, Copy)]
pub(crate) struct Run {
    pub(crate) place: WidePlace,
    /// The place before the last byte that it took, where that byte settles what they are.
    pub(crate) before: WidePlace,
    /// How many bytes of the piece it took.
    pub(crate) len: usize,
    /// How many bytes of content may still come.
    pub(crate) room: u64,
    /// The last byte that it took is one of content too many.
    pub(crate) over: bool,
}

/// Goes over the next byte, or over the data that are there, as far as there is room, and hands these on.
fn pass_run(
    limit: u64,
    place: WidePlace,
    room: u64,
    input: &[u8],
    out: &mut Vec<u8>,
) -> Result<Run, OutOfMemory>
    requires some { 0 < length input.now }
    requires room { 0 < data_left (place_of place) → 0 < room }
    ensures moved { IfOk result (λ r. 0 < r.len) }
    ensures within { IfOk result (λ r. r.len ≤ length input.now) }
    ensures place { IfOk result (λ r. place_of r.place ≡ place_after limit (place_of place) (take r.len input.now)) }
    ensures given { IfOk result (λ r. out.new.items ≡ out.old.items ++ data_from limit (place_of place) (take r.len input.now)) }
    ensures room { IfOk result (λ r. r.room + length (data_from limit (place_of place) (take r.len input.now)) ≡ room) }
    // what settles the bytes is one byte, so that nothing was settled before it
    ensures by_one_byte { IfOk result (λ r. is_settled (place_of r.place) ≡ true → r.len ≡ 1) }
    ensures before { IfOk result (λ r. r.before ≡ place) }
    ensures over { IfOk result (λ r. r.over ≡ false) }
    ensures refused { OnErr result (out.new.items ≡ out.old.items) }
{
    let left = place.data_left();
    if left == 0 {
        return Ok(Run {
            place: place.step(limit, input[0]),
            before: place,
            len: 1,
            room,
            over: false,
        });
    }
    let n = (input.len() as u64).min(left).min(room);
    out.extend_from_slice(&input[..n as usize])?;
    Ok(Run {
        place: behind(left, n),
        before: place,
        len: n as usize,
        room: room - n,
        over: false,
    })
}

/// Goes over bytes of a chunked body from a place that settles nothing, up to the byte that settles them or is one of content too many, and
/// hands the data on for which there is room.
///
/// `OutOfMemory` hands nothing on.
pub(crate) fn pass_on(
    limit: u64,
    from: WidePlace,
    room: u64,
    input: &[u8],
    out: &mut Vec<u8>,
) -> Result<Run, OutOfMemory>
    requires going { is_settled (place_of from) ≡ false }
    ensures run { IfOk result (λ r. HasRun limit (place_of from) room input.now r out.old.items out.new.items) }
    ensures refused { OnErr result (out.new.items ≡ out.old.items) }
{
    let count = out.len();
    let mut place = from;
    let mut before = from;
    let mut left = room;
    let mut read = 0;
    while read < input.len() {
        if left == 0 && place.data_left() > 0 {
            return Ok(Run {
                place,
                before: place,
                len: read + 1,
                room: 0,
                over: true,
            });
        }
        match pass_run(limit, place, left, &input[read..], out) {
            Ok(run) => {
                before = run.before;
                place = run.place;
                left = run.room;
                read += run.len;
            }
            Err(error) => {
                out.truncate(count);
                return Err(error);
            }
        }
        if place.is_settled() {
            return Ok(Run {
                place,
                before,
                len: read,
                room: left,
                over: false,
            });
        }
    }
    Ok(Run {
        place,
        before,
        len: read,
        room: left,
        over: false,
    })
}

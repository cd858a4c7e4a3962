//! Reading a chunked body as its bytes come: each byte once, and no byte of data.

ghost use Rattle.std.specs.Prelude.{◌≡◌, [], ◌+◌, ◌<◌, ◌^◌, ℕ, length, false, Ok, IfOk, OnOk, OnErr};
ghost use Rattle.mx_head.specs.Limits.{most_bytes};
ghost use Rattle.mx_body.specs.ChunkedPlace.{is_settled};
ghost use Rattle.mx_body.specs.declared.chunked.place.ChunkedPlace.TheVariants.{Start};
ghost use Rattle.mx_body.specs.ChunkedScan.{IsChunkedScan};
ghost use Rattle.mx_body.specs.declared.chunked.scan.ChunkedScan.TheVariants.{Whole, Short};
ghost use Rattle.mx_body.specs.ChunkedReader.{HasRead};

use crate::Part;
use crate::chunked::chunks::pass;
use crate::chunked::place::ChunkedPlace;
use crate::chunked::scan::ChunkedScan;
use mx_types::OutOfMemory;
use std::alloc::Global;

/// How far a chunked body has been read, and where the data of its chunks are.
#[derive(Drop)]
pub(crate) struct ChunkedReader {
    /// The offset at which the body begins.
    pub(crate) at: u32,
    pub(crate) place: ChunkedPlace,
    /// How many bytes of the body were read.
    pub(crate) read: usize,
    /// One for each chunk whose size line was read, even where its data are still to come.
    pub(crate) parts: Vec<Part>,
}

impl ChunkedReader {
    /// Before the first byte of a body that begins at that offset. It takes no memory.
    pub(crate) fn new(alloc: Global, at: u32) -> ChunkedReader
        ensures at { result.at ≡ at }
        ensures place { result.place ≡ Start }
        ensures read { result.read ≡ 0 }
        ensures parts { result.parts.items ≡ [] }
    {
        ChunkedReader {
            at,
            place: ChunkedPlace::Start,
            read: 0,
            parts: Vec::new(alloc),
        }
    }

    fn go_to(&mut self, place: ChunkedPlace, read: usize)
        ensures { self.new ≡ record self.old { place = place; read = read } }
    {
        self.place = place;
        self.read = read;
    }

    /// Reads on in a body that has grown. A refusal of memory leaves the reader as it was.
    pub(crate) fn read_on(&mut self, body: &[u8]) -> Result<ChunkedScan, OutOfMemory>
        requires read { HasRead most_bytes body.now self.old }
        requires goes_on { is_settled self.old.place ≡ false }
        requires room { self.old.at + length body.now + most_bytes < 2 ^ 32 }
        ensures read { OnOk result (HasRead most_bytes body.now self.new) }
        ensures scan { IfOk result (IsChunkedScan most_bytes body.now) }
        ensures whole { IfOk result (λ s. (len : ℕ) → s ≡ Whole len → len ≡ self.new.read) }
        ensures goes_on { IfOk result (λ s. s ≡ Short → is_settled self.new.place ≡ false) }
        ensures all { IfOk result (λ s. s ≡ Short → self.new.read ≡ length body.now) }
        ensures at { self.new.at ≡ self.old.at }
        ensures refused_place { OnErr result (self.new.place ≡ self.old.place) }
        ensures refused_read { OnErr result (self.new.read ≡ self.old.read) }
        ensures refused_parts { OnErr result (self.new.parts.items ≡ self.old.parts.items) }
    {
        let count = self.parts.len();
        let mut place = self.place;
        let mut read = self.read;
        while read < body.len() {
            match pass(&mut self.parts, self.at, body, place, read) {
                Ok((next, end)) => {
                    place = next;
                    read = end;
                }
                Err(error) => {
                    self.parts.truncate(count);
                    return Err(error);
                }
            }
            match place {
                ChunkedPlace::Done => {
                    self.go_to(place, read);
                    return Ok(ChunkedScan::Whole { len: read });
                }
                ChunkedPlace::Bad => {
                    self.go_to(place, read);
                    return Ok(ChunkedScan::Bad);
                }
                ChunkedPlace::TooLarge => {
                    self.go_to(place, read);
                    return Ok(ChunkedScan::TooLarge);
                }
                _ => {}
            }
        }
        self.go_to(place, read);
        Ok(ChunkedScan::Short)
    }
}

//! Calls that may be refused memory. One of a sink in memory that was is made again, and has then to answer as if it had been the first;
//! only then does the test fail, by a text of its own. What a test needs for itself is refused as any allocation is. A sink that writes to
//! a part does without memory to gather pieces. Without a refusal each test passes.

use crate::sink_bodies::{body_of, give, is_same};
use mx_folder::{Folder, FolderError, MemoryFolder, MemoryPart, file_name, part_name};
use mx_save::PartSink;
use mx_sink::{MemorySink, SinkError};
use mx_types::OutOfMemory;
use std::alloc::Global;
use std::test::Fail;

/// What a test ends with in which a call was refused memory.
const AGAIN: &str = "memory was refused, and the call answered when it was made again";

// Puts all of a body into a sink, again where memory was refused: whether it was, and whether the sink has the body then.
fn put_again(sink: &mut MemorySink, body: &[u8]) -> (bool, bool) {
    match give(sink, body, 4) {
        (taken, Some(SinkError::OutOfMemory)) if taken < body.len() => {
            let same = is_same(sink.as_slice(), &body[..taken]);
            let (more, error) = give(sink, &body[taken..], 4);
            let all = error.is_none() && more == body.len() - taken;
            (true, same && all && is_same(sink.as_slice(), body))
        }
        (_, error) => (false, error.is_none() && is_same(sink.as_slice(), body)),
    }
}

// Of such a sink.
fn memory_again(alloc: Global) -> Result<(bool, bool), OutOfMemory> {
    let body = body_of(alloc, 100)?;
    let mut sink = MemorySink::new(alloc, 1_000);
    Ok(put_again(&mut sink, body.as_slice()))
}

#[test]
fn refused_bytes_are_put_again(rt: HostRuntime) -> Result<(), Fail> {
    match memory_again(rt.alloc()) {
        Ok((lacked, is_right)) => {
            assert!(rt; is_right);
            if lacked {
                return Err(AGAIN.into());
            }
            Ok(())
        }
        Err(OutOfMemory) => Err(OutOfMemory.into()),
    }
}

// Gives a body to the sink of a part: whether it took all.
fn is_given(sink: &mut PartSink<MemoryPart>, body: &[u8]) -> Result<bool, OutOfMemory> {
    match give(sink, body, 7) {
        (taken, None) => Ok(taken == body.len()),
        (_, Some(SinkError::OutOfMemory)) => Err(OutOfMemory),
        (_, Some(SinkError::WriteError)) => Ok(false),
    }
}

// Whether a part that was finished and placed has the body.
fn is_placed(
    alloc: Global,
    folder: &mut MemoryFolder,
    sink: PartSink<MemoryPart>,
    body: &[u8],
) -> Result<bool, OutOfMemory> {
    let name = file_name(alloc, b"http://h/x", 0)?;
    let Ok(part) = sink.finish() else {
        return Err(OutOfMemory);
    };
    if folder.place(part, &name).is_err() {
        return Err(OutOfMemory);
    }
    match folder.held(alloc, "x")? {
        Some(held) => Ok(is_same(held.as_slice(), body)),
        None => Ok(false),
    }
}

fn part_again(alloc: Global, folder: &mut MemoryFolder, body: &[u8]) -> Result<bool, OutOfMemory> {
    let name = part_name(alloc, 42, 0)?;
    let Ok(part) = folder.create(&name) else {
        return Err(OutOfMemory);
    };
    let mut sink = PartSink::new(alloc, part);
    if !is_given(&mut sink, body)? {
        return Ok(false);
    }
    is_placed(alloc, folder, sink, body)
}

fn is_whole(alloc: Global) -> Result<bool, OutOfMemory> {
    let body = body_of(alloc, 100)?;
    let mut folder = MemoryFolder::new(alloc, usize::MAX, u64::MAX, FolderError::Full);
    part_again(alloc, &mut folder, body.as_slice())
}

#[test]
fn refused_memory_to_gather_pieces_is_done_without(rt: HostRuntime) -> Result<(), Fail> {
    match is_whole(rt.alloc()) {
        Ok(is_right) => {
            assert!(rt; is_right);
            Ok(())
        }
        Err(OutOfMemory) => Err(OutOfMemory.into()),
    }
}

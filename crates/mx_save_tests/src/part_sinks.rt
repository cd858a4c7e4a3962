//! A sink that writes to a part of a folder in memory, whose calls are counted.

use crate::sink_bodies::{body_of, give, is_same, none_of};
use mx_folder::{
    FileName, Folder, FolderError, MemoryFolder, MemoryPart, Unplaced, file_name, part_name,
};
use mx_save::{PartSink, Unfinished};
use mx_sink::SinkError;
use mx_types::OutOfMemory;
use std::alloc::Global;
use std::test::Fail;

// What such a run comes to.
#[derive(Clone, Copy, PartialEq, Eq)]
enum SinkEnd {
    // The part has its final name, and the whole body.
    Placed,
    // This many bytes were taken when the sink failed.
    Failed(usize),
    // All was taken, and what was gathered couldn't be written.
    Unfinished,
}

// A body that is given to the sink of a part: how long it and its pieces are, how many bytes a write takes at most, which call of the
// folder is refused and why, and what comes of it. The calls are the part's creation, its writes, and its placing or removal.
struct SinkRow {
    name: &'static str,
    len: usize,
    piece: usize,
    most: usize,
    fails_at: u64,
    error: FolderError,
    end: SinkEnd,
    calls: u64,
}

// Pieces of one byte, none of which is refused.
const BYTES: SinkRow = SinkRow {
    name: "100,000 pieces of one byte are two writes",
    len: 100_000,
    piece: 1,
    most: usize::MAX,
    fails_at: u64::MAX,
    error: FolderError::Full,
    end: SinkEnd::Placed,
    calls: 4,
};

static WHOLE: [SinkRow; 7] = [
    BYTES,
    SinkRow {
        name: "no piece is no write",
        len: 0,
        calls: 2,
        ..BYTES
    },
    SinkRow {
        name: "pieces of 16 KiB are gathered",
        len: 131_072,
        piece: 16_384,
        calls: 4,
        ..BYTES
    },
    SinkRow {
        name: "pieces of 64 KiB are written as they are",
        len: 131_072,
        piece: 65_536,
        calls: 4,
        ..BYTES
    },
    SinkRow {
        name: "a smaller one is gathered",
        len: 65_535,
        piece: 65_535,
        calls: 3,
        ..BYTES
    },
    SinkRow {
        name: "a write takes a third of a piece, and the rest is gathered",
        len: 150_000,
        piece: 150_000,
        most: 50_000,
        calls: 5,
        ..BYTES
    },
    SinkRow {
        name: "a write takes less than is gathered",
        piece: 1_000,
        most: 30_000,
        calls: 7,
        ..BYTES
    },
];

static REFUSED: [SinkRow; 6] = [
    SinkRow {
        name: "the first write is refused",
        fails_at: 1,
        end: SinkEnd::Failed(65_536),
        calls: 3,
        ..BYTES
    },
    SinkRow {
        name: "the first write lacks memory",
        fails_at: 1,
        error: FolderError::OutOfMemory,
        end: SinkEnd::Failed(65_536),
        calls: 3,
        ..BYTES
    },
    SinkRow {
        name: "the second write is refused at the end",
        fails_at: 2,
        end: SinkEnd::Unfinished,
        calls: 4,
        ..BYTES
    },
    SinkRow {
        name: "the second write of what is gathered is refused",
        piece: 1_000,
        most: 30_000,
        fails_at: 2,
        end: SinkEnd::Failed(65_000),
        calls: 4,
        ..BYTES
    },
    SinkRow {
        name: "the second write of a piece is refused",
        len: 150_000,
        piece: 150_000,
        most: 50_000,
        fails_at: 2,
        end: SinkEnd::Failed(50_000),
        calls: 4,
        ..BYTES
    },
    SinkRow {
        name: "the only write is refused at the end",
        len: 10,
        fails_at: 1,
        end: SinkEnd::Unfinished,
        calls: 3,
        ..BYTES
    },
];

// The code of such an error.
fn code_of(error: FolderError) -> SinkError {
    match error {
        FolderError::OutOfMemory => SinkError::OutOfMemory,
        _ => SinkError::WriteError,
    }
}

// Whether a sink that was given a body took this many bytes, and failed or didn't. One that failed fails again.
fn is_taken(sink: &mut PartSink<MemoryPart>, body: &[u8], row: &SinkRow) -> bool {
    let piece = row.piece.max(1);
    let (taken, error) = give(sink, body, piece);
    match row.end {
        SinkEnd::Failed(wanted) => {
            let (again, same) = give(sink, body, piece);
            let code = Some(code_of(row.error));
            taken == wanted && error == code && again == 0 && same == code
        }
        SinkEnd::Placed | SinkEnd::Unfinished => taken == body.len() && error.is_none(),
    }
}

// Places the part of a sink that was given all, or removes it where it can't be finished: whether that ends as the row says.
fn is_ended(
    folder: &mut MemoryFolder,
    sink: PartSink<MemoryPart>,
    name: &FileName,
    row: &SinkRow,
) -> bool {
    match sink.finish() {
        Ok(part) => match folder.place(part, name) {
            Ok(()) => row.end == SinkEnd::Placed,
            Err(Unplaced { .. }) => false,
        },
        Err(Unfinished { part, error }) => {
            folder.remove(part).is_ok() && error == row.error && row.end != SinkEnd::Placed
        }
    }
}

// Whether this name holds the body where it was placed, and nothing else has a name.
fn is_held(
    alloc: Global,
    folder: &MemoryFolder,
    body: &[u8],
    row: &SinkRow,
) -> Result<bool, OutOfMemory> {
    let part = folder.held(alloc, ".mxfetch-42-0.part")?;
    match folder.held(alloc, "x")? {
        Some(held) => Ok(
            part.is_none() && row.end == SinkEnd::Placed && is_same(held.as_slice(), body),
        ),
        None => Ok(part.is_none() && row.end != SinkEnd::Placed),
    }
}

// Whether a folder comes to what the row says, when a body is given to a sink of it.
fn is_run(
    alloc: Global,
    folder: &mut MemoryFolder,
    body: &[u8],
    row: &SinkRow,
) -> Result<bool, OutOfMemory> {
    let part = part_name(alloc, 42, 0)?;
    let name = file_name(alloc, b"http://h/x", 0)?;
    let Ok(part) = folder.create(&part) else {
        return Err(OutOfMemory);
    };
    let mut sink = PartSink::new(alloc, part);
    let taken = is_taken(&mut sink, body, row);
    let ended = is_ended(folder, sink, &name, row);
    Ok(taken && ended && folder.calls() == row.calls)
}

fn is_right(alloc: Global, row: &SinkRow) -> Result<bool, OutOfMemory> {
    let body = body_of(alloc, row.len)?;
    let mut folder = MemoryFolder::new(alloc, row.most.max(1), row.fails_at, row.error);
    let ran = is_run(alloc, &mut folder, body.as_slice(), row);
    let held = is_held(alloc, &folder, body.as_slice(), row);
    drop(folder);
    Ok(ran? && held?)
}

// The first row that comes to something else.
fn wrong_of(alloc: Global, rows: &[SinkRow]) -> Result<Option<&'static str>, OutOfMemory> {
    for row in rows {
        if !is_right(alloc, row)? {
            return Ok(Some(row.name));
        }
    }
    Ok(None)
}

#[test]
fn a_part_has_what_its_sink_took_or_is_handed_back(rt: HostRuntime) -> Result<(), Fail> {
    none_of(wrong_of(rt.alloc(), &WHOLE))?;
    none_of(wrong_of(rt.alloc(), &REFUSED))
}

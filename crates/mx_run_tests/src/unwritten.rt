//! Writers to which a command can't write its output, with a buffer before them and without one.
use crate::fakes::{Full, Pipe};
use crate::tally::RowTally;
use crate::{body, play};
use std::alloc::{AllocError, Global};
use std::io::{BufWriter, Write};

/// A command.
#[derive(Clone, Copy)]
pub(crate) enum Command {
    Body,
    Play,
}

/// Whether a command ends with the status of an output that couldn't be written, where it writes to this.
fn is_unwritten<W: Write + Drop>(alloc: Global, command: Command, writer: W) -> bool {
    match command {
        Command::Body => body::is_unwritten(alloc, writer),
        Command::Play => play::is_unwritten(alloc, writer),
    }
}

/// Whether it does with a buffer before it.
fn is_unwritten_behind<W: Write + Drop>(alloc: Global, command: Command, writer: W) -> bool {
    match BufWriter::new(alloc, writer) {
        Ok(writer) => is_unwritten(alloc, command, writer),
        Err(_) => false,
    }
}

/// Whether it does with a buffer before a writer that takes so many writes.
fn is_full_behind(alloc: Global, command: Command, writes: u8) -> bool {
    let mut taken = Vec::new(alloc);
    let taken = &mut taken;
    is_unwritten_behind(alloc, command, Full { taken, writes })
}

/// A writer that takes each write, and whose flush fails.
const UNFLUSHED: Pipe = Pipe {
    writes: usize::MAX,
    is_flushed: false,
};

// rule program-unwritten
/// Goes through the writers.
pub(crate) fn see_buffers(
    alloc: Global,
    command: Command,
    tally: &mut RowTally,
) -> Result<(), AllocError> {
    tally.hold(
        "a buffer before a full disk",
        is_full_behind(alloc, command, 0),
    )?;
    tally.hold(
        "a buffer before a disk that is full after a write",
        is_full_behind(alloc, command, 1),
    )?;
    tally.hold(
        "a flush that fails",
        is_unwritten(alloc, command, UNFLUSHED),
    )?;
    tally.hold(
        "a flush that fails behind a buffer",
        is_unwritten_behind(alloc, command, UNFLUSHED),
    )
}

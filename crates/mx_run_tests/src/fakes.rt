//! Readers and writers that fail.
use std::io;
use std::io::{Error, ErrorKind, Read, Write};

/// Gives at most so many of its bytes a read, and then ends; but after so many reads it fails.
#[derive(Drop)]
pub(crate) struct PieceReader<'a> {
    pub(crate) bytes: &'a [u8],
    pub(crate) most: usize,
    pub(crate) reads: usize,
}

impl Read for PieceReader<'_> {
    fn read(&mut self, buffer: &mut [u8]) -> io::Result<usize> {
        if self.reads == 0 {
            return Err(Error::from(ErrorKind::ConnectionReset));
        }
        self.reads -= 1;
        let count = self.bytes.len().min(buffer.len()).min(self.most);
        buffer[..count].copy_from_slice(&self.bytes[..count]);
        self.bytes = &self.bytes[count..];
        Ok(count)
    }
}

/// Gives what pieces give, but has nothing now every other time if it is late.
#[derive(Drop)]
pub(crate) struct Stalling<'a> {
    pub(crate) pieces: PieceReader<'a>,
    pub(crate) is_late: bool,
    pub(crate) stalls: bool,
}

impl Read for Stalling<'_> {
    fn read(&mut self, buffer: &mut [u8]) -> io::Result<usize> {
        self.stalls = self.is_late && !self.stalls;
        if self.stalls {
            return Err(Error::from(ErrorKind::WouldBlock));
        }
        self.pieces.read(buffer)
    }
}

/// Gives its first bytes, and then so many of the letter `v`, as many as each read asks for.
#[derive(Drop)]
pub(crate) struct Filler<'a> {
    pub(crate) first: &'a [u8],
    pub(crate) letters: usize,
}

impl Read for Filler<'_> {
    fn read(&mut self, buffer: &mut [u8]) -> io::Result<usize> {
        if self.first.is_empty() {
            let count = self.letters.min(buffer.len());
            buffer[..count].fill(b'v');
            self.letters -= count;
            return Ok(count);
        }
        let count = self.first.len().min(buffer.len());
        buffer[..count].copy_from_slice(&self.first[..count]);
        self.first = &self.first[count..];
        Ok(count)
    }
}

/// Takes so many writes, and then fails. So does its flush then.
#[derive(Drop)]
pub(crate) struct Full<'a> {
    pub(crate) taken: &'a mut Vec<u8>,
    pub(crate) writes: u8,
}

impl Write for Full<'_> {
    fn write(&mut self, bytes: &[u8]) -> io::Result<usize> {
        if self.writes == 0 {
            return Err(Error::from(ErrorKind::StorageFull));
        }
        self.writes -= 1;
        self.taken.write(bytes)
    }

    fn flush(&mut self) -> io::Result<()> {
        if self.writes == 0 {
            return Err(Error::from(ErrorKind::StorageFull));
        }
        Ok(())
    }
}

/// Takes so many writes, and then fails; its flush fails, or it doesn't, whatever was written.
#[derive(Drop)]
pub(crate) struct Pipe {
    pub(crate) writes: usize,
    pub(crate) is_flushed: bool,
}

impl Write for Pipe {
    fn write(&mut self, bytes: &[u8]) -> io::Result<usize> {
        if self.writes == 0 {
            return Err(Error::from(ErrorKind::StorageFull));
        }
        self.writes -= 1;
        Ok(bytes.len())
    }

    fn flush(&mut self) -> io::Result<()> {
        if self.is_flushed {
            Ok(())
        } else {
            Err(Error::from(ErrorKind::StorageFull))
        }
    }
}

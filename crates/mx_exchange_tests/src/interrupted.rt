//! A link over a stream whose reads and writes are interrupted (EINTR).

use mx_link::{Called, Stream, StreamLink};
use mx_types::History;
use std::io::ErrorKind;

/// A stream whose next so many reads and writes are interrupted. After them it gives and takes one byte at a time.
#[derive(Drop)]
pub(crate) struct Interrupts {
    left: u32,
    results: History<Called>,
}

impl Stream for Interrupts {
    ghost results = { λ stream. stream.results };

    fn take_error(&mut self) -> Result<Option<ErrorKind>, ErrorKind> {
        self.results.note(Called::Error(Ok(None)));
        Ok(None)
    }

    fn find_peer(&mut self) -> Result<(), ErrorKind> {
        self.results.note(Called::Peer(Ok(())));
        Ok(())
    }

    fn read(&mut self, buffer: &mut [u8]) -> Result<usize, ErrorKind> {
        let n = buffer.len().min(1);
        buffer[..n].fill(b'x');
        let result = if self.left == 0 {
            Ok(n)
        } else {
            Err(ErrorKind::Interrupted)
        };
        self.left = self.left.saturating_sub(1);
        self.results.note(Called::to_read(result, buffer));
        result
    }

    fn write(&mut self, bytes: &[u8]) -> Result<usize, ErrorKind> {
        let result = if self.left == 0 {
            Ok(bytes.len().min(1))
        } else {
            Err(ErrorKind::Interrupted)
        };
        self.left = self.left.saturating_sub(1);
        self.results.note(Called::to_write(result, bytes));
        result
    }
}

/// A link over a stream that is interrupted so often.
pub(crate) fn interrupted(interruptions: u32) -> StreamLink<Interrupts> {
    let stream = Interrupts {
        left: interruptions,
        results: History::new(),
    };
    StreamLink::over(stream, 3)
}

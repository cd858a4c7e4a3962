//! Readers of the system that don't wait.
use libc::net::{POLLIN, poll};
use libc::types::pollfd;
use std::io;
use std::io::{Error, ErrorKind, Read};
use std::os::fd::{AsRawFd, RawFd};

/// A reader that doesn't wait: where a read would, it answers `WouldBlock`. What it reads is known to no clause.
#[derive(Drop)]
pub struct Polled<R> {
    reader: R,
}

// Whether a read is answered at once, be it by bytes, by the end or by an error (poll(2)).
fn is_ready(fd: RawFd) -> bool {
    let mut asked = [pollfd {
        fd,
        events: POLLIN,
        revents: 0,
    }];
    poll(&mut asked, 0) != 0
}

impl<R> Polled<R> {
    pub fn new(reader: R) -> Polled<R> {
        Polled { reader }
    }
}

impl<R: Read + AsRawFd> Read for Polled<R> {
    fn read(&mut self, buffer: &mut [u8]) -> io::Result<usize> {
        if !is_ready(self.reader.as_raw_fd()) {
            return Err(Error::from(ErrorKind::WouldBlock));
        }
        self.reader.read(buffer)
    }
}

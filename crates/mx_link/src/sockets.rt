//! A link over a TCP stream.
ghost use Rattle.std.specs.Prelude.{◌≡◌, []};
ghost use Rattle.mx_link.specs.Streams.{by_kind};

use crate::streams::{Called, Stream, StreamLink};
use mio::net::TcpStream;
use mio::{Interest, Registry, Token};
use mx_types::History;
use std::io;
use std::io::{ErrorKind, Read as _, Write as _};
use std::marker::Model;

// The stream is handed to nobody: a read that bypasses the link would be in no list of results. A poll gets it by `register`.
/// A TCP stream, with its system calls and their results for contracts alone. Contracts see these; what a socket gives and
/// takes, and when, no contract can say.
pub struct TcpSocket {
    stream: TcpStream,
    results: History<Called>,
}

// Written out, and not derived: a crate that drops a socket cites its proof.
impl Drop for TcpSocket {
    fn drop(self) {
        let TcpSocket { stream, results } = self;
        drop(stream);
        drop(results);
    }
}

impl Model for TcpSocket {
    ghost use Rattle.std.specs.Prelude.{List};
    ghost use Rattle.mx_link.specs.declared.streams.Called.{Called as Results};

    ghost Value = { List Results };

    ghost view = { λ s. s.results };
}

/// A link over a TCP stream.
pub type TcpLink = StreamLink<TcpSocket>;

impl StreamLink<TcpSocket> {
    /// A link over `stream`, whose readiness is reported under `token`. The stream may still be connecting.
    pub fn new(stream: TcpStream, token: u64) -> StreamLink<TcpSocket>
        ensures { result ≡ record { stream = []; token = token; history = []; asked = [] } }
    {
        let socket = TcpSocket {
            stream,
            results: History::new(),
        };
        StreamLink::over(socket, token)
    }

    /// Has the registry's poll report, under the link's token, when there is something to read or room to write.
    ///
    /// A link that is registered already gives `AlreadyExists`; other errors are those of epoll_ctl(2). The link
    /// stays as it was.
    pub fn register(&mut self, registry: &Registry) -> io::Result<()>
        ensures { self.new ≡ self.old }
    {
        let token = Token(self.token as usize);
        self.stream.register(registry, token)
    }
}

impl TcpSocket {
    fn register(&mut self, registry: &Registry, token: Token) -> io::Result<()>
        ensures { self.new ≡ self.old }
    {
        registry.register(
            &mut self.stream,
            token,
            Interest::READABLE | Interest::WRITABLE,
        )
    }
}

// A count, or the kind of its error.
fn by_kind(count: io::Result<usize>) -> Result<usize, ErrorKind>
    ensures { result ≡ by_kind count }
{
    match count {
        Ok(n) => Ok(n),
        Err(error) => Err(error.kind()),
    }
}

impl Stream for TcpSocket {
    ghost results = { λ socket. socket };

    fn take_error(&mut self) -> Result<Option<ErrorKind>, ErrorKind> {
        let result = match self.stream.take_error() {
            Ok(None) => Ok(None),
            Ok(Some(error)) => Ok(Some(error.kind())),
            Err(error) => Err(error.kind()),
        };
        self.results.note(Called::Error(result));
        result
    }

    fn find_peer(&mut self) -> Result<(), ErrorKind> {
        let result = match self.stream.peer_addr() {
            Ok(_) => Ok(()),
            Err(error) => Err(error.kind()),
        };
        self.results.note(Called::Peer(result));
        result
    }

    fn read(&mut self, buffer: &mut [u8]) -> Result<usize, ErrorKind> {
        let result = by_kind(self.stream.read(buffer));
        self.results.note(Called::to_read(result, buffer));
        result
    }

    fn write(&mut self, bytes: &[u8]) -> Result<usize, ErrorKind> {
        let result = by_kind(self.stream.write(bytes));
        self.results.note(Called::to_write(result, bytes));
        result
    }
}

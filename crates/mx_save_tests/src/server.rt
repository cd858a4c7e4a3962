//! A server on a port of this machine, in a thread of its own, which answers one request on each connection.

use std::alloc::AllocGlobal;
use std::io::{Read as _, Write as _};
use std::net::{Net, SocketAddr, TcpListener, TcpStream};
use std::test::Fail;
use std::thread;
use std::thread::{JoinHandle, Threads};

/// The most bytes of a request that are read.
const MOST: u32 = 1000;

/// The byte after `GET /` of the next request on a connection; None where there is none.
pub fn next_request(stream: &mut TcpStream) -> Option<u8> {
    let mut path = b' ';
    let mut last = [0; 4];
    for at in 0..MOST {
        let mut byte = [0; 1];
        if stream.read_exact(&mut byte).is_err() {
            return None;
        }
        if at == 5 {
            path = byte[0];
        }
        last = [last[1], last[2], last[3], byte[0]];
        if last == *b"\r\n\r\n" {
            return Some(path);
        }
    }
    None
}

/// How many bytes the long body has, each of which is the letter l.
pub const LONG: u32 = 1_000_000;

// How many of them are written at a time.
const PIECE: u32 = 10_000;

// The head of the answer to a path that begins with this byte: not found, not now, nothing to save, a long body, or one of three bytes.
fn head_of(path: u8) -> &'static [u8] {
    match path {
        b'n' => b"HTTP/1.1 404 Not Found\r\nContent-Length: 3\r\nConnection: close\r\n\r\n",
        b'u' => {
            b"HTTP/1.1 503 Service Unavailable\r\nContent-Length: 3\r\nConnection: close\r\n\r\n"
        }
        b'v' => b"HTTP/1.1 204 No Content\r\nConnection: close\r\n\r\n",
        b'l' => b"HTTP/1.1 200 OK\r\nContent-Length: 1000000\r\nConnection: close\r\n\r\n",
        _ => b"HTTP/1.1 200 OK\r\nContent-Length: 3\r\nConnection: close\r\n\r\n",
    }
}

// Writes the long body, until its reader takes no more.
fn write_long(stream: &mut TcpStream) {
    for _ in 0..LONG / PIECE {
        if stream.write_all(&[b'l'; PIECE as usize]).is_err() {
            return;
        }
    }
}

// Answers a path that begins with this byte: whether that goes well, which isn't asked of the long body. A body of three bytes is the byte
// three times.
fn answer(stream: &mut TcpStream, path: u8) -> bool {
    if stream.write_all(head_of(path)).is_err() {
        return false;
    }
    match path {
        b'v' => true,
        b'l' => {
            write_long(stream);
            true
        }
        _ => stream.write_all(&[path, path, path]).is_ok(),
    }
}

// Serves so many connections, and says on how many of them a request was answered.
fn serve(listener: &TcpListener, connections: u32) -> u32 {
    let mut served: u32 = 0;
    for _ in 0..connections {
        let Ok((mut stream, _)) = listener.accept() else {
            return served;
        };
        if let Some(path) = next_request(&mut stream) {
            served = served.saturating_add(u32::from(answer(&mut stream, path)));
        }
    }
    served
}

/// A running server.
#[derive(Drop)]
pub struct Server {
    pub address: SocketAddr,
    connections: u32,
    thread: JoinHandle<u32>,
}

impl Server {
    /// It ends after so many connections.
    pub fn start<R: Threads + Net<Listener = TcpListener, Stream = TcpStream> + AllocGlobal>(
        rt: &R,
        connections: u32,
    ) -> Result<Server, Fail> {
        let listener = TcpListener::bind(rt, "127.0.0.1:0")?;
        let address = listener.local_addr()?;
        let thread = thread::spawn(rt, move || serve(&listener, connections))?;
        Ok(Server {
            address,
            connections,
            thread,
        })
    }

    /// Ends it, by as many connections as it serves at most, and answers on how many of them a request was answered.
    pub fn end<R: Threads + Net<Stream = TcpStream>>(self, rt: &R) -> u32 {
        for _ in 0..self.connections {
            let _last = TcpStream::connect(rt, self.address);
        }
        self.thread.join(rt)
    }
}

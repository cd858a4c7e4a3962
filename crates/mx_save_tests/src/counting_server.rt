//! A server on a port of this machine, in a thread of its own, that counts its connections.

use crate::server::next_request;
use std::alloc::AllocGlobal;
use std::io::Write as _;
use std::net::{Net, SocketAddr, TcpListener, TcpStream};
use std::sync::Arc;
use std::sync::atomic::{AtomicBool, Ordering};
use std::test::Fail;
use std::thread;
use std::thread::{JoinHandle, Threads};

/// The most connections that the server takes, and the most requests on one.
const MOST: u32 = 1000;

// What is answered to a path that begins with this byte: a body, another body, a redirect to the first, one to itself, or a head that says
// more than comes.
fn response_to(path: u8) -> &'static [u8] {
    match path {
        b'o' => b"HTTP/1.1 200 OK\r\nContent-Length: 3\r\n\r\none",
        b't' => b"HTTP/1.1 404 Not Found\r\nContent-Length: 3\r\n\r\ntwo",
        b'm' => b"HTTP/1.1 302 Found\r\nLocation: /one\r\nContent-Length: 0\r\n\r\n",
        b'l' => b"HTTP/1.1 302 Found\r\nLocation: /loop\r\nContent-Length: 0\r\n\r\n",
        _ => b"HTTP/1.1 200 OK\r\nContent-Length: 9\r\nConnection: close\r\n\r\nshort",
    }
}

// Answers the requests on a connection until its peer ends it, or one was answered short. It says whether there was one.
fn answer_all(stream: &mut TcpStream) -> bool {
    for at in 0..MOST {
        let Some(path) = next_request(stream) else {
            return at > 0;
        };
        if stream.write_all(response_to(path)).is_err() || path == b's' {
            return true;
        }
    }
    true
}

// Serves one connection after another until it is stopped, and says on how many of them a request came.
fn serve(listener: &TcpListener, is_over: &AtomicBool) -> u32 {
    let mut served: u32 = 0;
    for _ in 0..MOST {
        let Ok((mut stream, _)) = listener.accept() else {
            return served;
        };
        if is_over.load(Ordering::SeqCst) {
            return served;
        }
        if answer_all(&mut stream) {
            served = served.saturating_add(1);
        }
    }
    served
}

/// A running server.
#[derive(Drop)]
pub struct CountingServer {
    pub address: SocketAddr,
    is_over: Arc<AtomicBool>,
    thread: JoinHandle<u32>,
}

impl CountingServer {
    pub fn start<R: Threads + Net<Listener = TcpListener, Stream = TcpStream> + AllocGlobal>(
        rt: &R,
    ) -> Result<CountingServer, Fail> {
        let is_over = Arc::new(rt.alloc(), AtomicBool::new(false))?;
        let is_over_there = Arc::try_clone(&is_over)?;
        let listener = TcpListener::bind(rt, "127.0.0.1:0")?;
        let address = listener.local_addr()?;
        let thread = thread::spawn(rt, move || serve(&listener, &is_over_there))?;
        Ok(CountingServer {
            address,
            is_over,
            thread,
        })
    }

    /// Ends it by one more connection, and answers on how many a request came.
    pub fn end<R: Threads + Net<Stream = TcpStream>>(self, rt: &R) -> Result<u32, Fail> {
        let CountingServer {
            address,
            is_over,
            thread,
        } = self;
        is_over.store(true, Ordering::SeqCst);
        let _last = TcpStream::connect(rt, address)?;
        Ok(thread.join(rt))
    }
}

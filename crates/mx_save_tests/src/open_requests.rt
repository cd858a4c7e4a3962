//! A server on a port of this machine that serves its connections at the same time, and counts how many requests are open.

use crate::server::next_request;
use std::alloc::AllocGlobal;
use std::io::Write as _;
use std::net::{Net, SocketAddr, TcpListener, TcpStream};
use std::rt::Clock;
use std::sync::Arc;
use std::sync::atomic::{AtomicBool, AtomicU64, Ordering};
use std::test::Fail;
use std::thread;
use std::thread::{JoinHandle, Threads};
use std::time::Duration;

/// The most connections that are served at a time.
const THREADS: u32 = 20;

/// The most connections that a thread takes, and the most requests on one.
const MOST: u32 = 1000;

/// How long a request is held at least before it is answered, in milliseconds.
const HELD_MS: u64 = 10;

/// How long it is held for others at most, in milliseconds.
const LONGEST_MS: u64 = 5000;

// What its threads share: how many requests are open, the most that were, and how many are waited for.
#[derive(Drop)]
struct Shared {
    listener: TcpListener,
    is_over: AtomicBool,
    open: AtomicU64,
    most: AtomicU64,
    wanted: u64,
}

// Holds a request until as many as are waited for were open, and a little longer.
fn hold<R: Clock>(rt: &R, shared: &Shared) {
    let before = shared.open.fetch_add(1, Ordering::SeqCst);
    shared
        .most
        .fetch_max(before.saturating_add(1), Ordering::SeqCst);
    for _ in 0..LONGEST_MS {
        if shared.most.load(Ordering::SeqCst) >= shared.wanted {
            break;
        }
        thread::sleep(rt, Duration::from_millis(1));
    }
    thread::sleep(rt, Duration::from_millis(HELD_MS));
    shared.open.fetch_sub(1, Ordering::SeqCst);
}

// Answers the requests on a connection until its peer ends it: the body is the byte after `GET /`.
fn answer_all<R: Clock>(rt: &R, shared: &Shared, stream: &mut TcpStream) {
    for _ in 0..MOST {
        let Some(path) = next_request(stream) else {
            return;
        };
        hold(rt, shared);
        let head = b"HTTP/1.1 200 OK\r\nContent-Length: 1\r\n\r\n";
        if stream.write_all(head).is_err() || stream.write_all(&[path]).is_err() {
            return;
        }
    }
}

// Serves one connection after another until it is stopped.
fn serve<R: Clock>(rt: &R, shared: &Shared) {
    for _ in 0..MOST {
        let Ok((mut stream, _)) = shared.listener.accept() else {
            return;
        };
        if shared.is_over.load(Ordering::SeqCst) {
            return;
        }
        answer_all(rt, shared, &mut stream);
    }
}

/// A running server.
#[derive(Drop)]
pub struct Counting {
    pub address: SocketAddr,
    shared: Arc<Shared>,
    threads: Vec<JoinHandle<()>>,
}

impl Counting {
    /// It holds requests until so many have been open at a time.
    pub fn start<
        R: Threads
            + Net<Listener = TcpListener, Stream = TcpStream>
            + Clock
            + AllocGlobal
            + Copy
            + Send
            + Drop
            + 'static,
    >(rt: &R, wanted: u64) -> Result<Counting, Fail> {
        let listener = TcpListener::bind(rt, "127.0.0.1:0")?;
        let address = listener.local_addr()?;
        let shared = Arc::new(
            rt.alloc(),
            Shared {
                listener,
                is_over: AtomicBool::new(false),
                open: AtomicU64::new(0),
                most: AtomicU64::new(0),
                wanted,
            },
        )?;
        let mut threads = Vec::new(rt.alloc());
        for _ in 0..THREADS {
            let rt_there = *rt;
            let shared_there = Arc::try_clone(&shared)?;
            threads.push(thread::spawn(rt, move || serve(&rt_there, &shared_there))?)?;
        }
        Ok(Counting {
            address,
            shared,
            threads,
        })
    }

    /// Ends it by a connection for each of its threads, and answers how many requests were open at a time, at most.
    pub fn end<R: Threads + Net<Stream = TcpStream>>(self, rt: &R) -> Result<u64, Fail> {
        let Counting {
            address,
            shared,
            threads,
        } = self;
        shared.is_over.store(true, Ordering::SeqCst);
        for _ in 0..THREADS {
            let _last = TcpStream::connect(rt, address)?;
        }
        for thread in threads {
            thread.join(rt);
        }
        Ok(shared.most.load(Ordering::SeqCst))
    }
}

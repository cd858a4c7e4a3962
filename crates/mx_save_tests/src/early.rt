//! What `get` has printed and asked for by the time that a flush fails.
use crate::counting_server::CountingServer;
use mx_run_get::{Runtime, run_get};
use mx_run_io::{Options, Output};
use std::alloc::Global;
use std::io;
use std::io::{Error, ErrorKind, Write};
use std::net::{Net, TcpListener, TcpStream};
use std::test::Fail;

/// Takes all that is written, and so many flushes; then each further one fails.
#[derive(Drop)]
struct Flushed<'a> {
    taken: &'a mut Vec<u8>,
    flushes: u32,
}

impl Write for Flushed<'_> {
    fn write(&mut self, bytes: &[u8]) -> io::Result<usize> {
        self.taken.write(bytes)
    }

    fn flush(&mut self) -> io::Result<()> {
        if self.flushes == 0 {
            return Err(Error::from(ErrorKind::StorageFull));
        }
        self.flushes -= 1;
        Ok(())
    }
}

/// How many flushes are taken, the exit status, what is printed, and how many requests come, each on a connection of its own.
type Flushing = (u32, u8, &'static str, u32);

// rule get-at-once
/// Each end is printed and flushed before the next URL is added, and a flush that fails ends the run.
static FLUSHES: [Flushing; 3] = [
    (0, 121, "transfer 0 code 0 status 404 length 3\ntwo\n", 1),
    (
        1,
        121,
        "transfer 0 code 0 status 404 length 3\ntwo\ntransfer 1 code 0 status 200 length 3\none\n",
        2,
    ),
    (
        9,
        0,
        "transfer 0 code 0 status 404 length 3\ntwo\ntransfer 1 code 0 status 200 length 3\none\ntransfer 2 code 0 status 404 length 3\ntwo\n",
        3,
    ),
];

/// One worker, which keeps no idle links.
const OPTIONS: Options = Options {
    workers: 1,
    at_once: 1,
    timeout_ms: 20_000,
    max_connects: 0,
    max_redirects: 0,
};

/// What `get` prints of three URLs at this port, and its exit status.
fn get<R: Runtime + Net<Listener = TcpListener, Stream = TcpStream>>(
    rt: &R,
    port: u16,
    flushes: u32,
) -> Result<(Vec<u8>, u8), Fail> {
    let alloc: Global = rt.alloc();
    let one = format!(in alloc; "http://127.0.0.1:{port}/one")?;
    let two = format!(in alloc; "http://127.0.0.1:{port}/two")?;
    let urls = [two.as_str(), one.as_str(), two.as_str()];
    let mut taken = Vec::new(alloc);
    let output = Output::new(Flushed {
        taken: &mut taken,
        flushes,
    });
    let status = run_get(rt, &urls, OPTIONS, output).status;
    Ok((taken, status))
}

/// Whether the URLs end as the row says.
fn holds<R: Runtime + Net<Listener = TcpListener, Stream = TcpStream>>(
    rt: &R,
    row: Flushing,
) -> Result<bool, Fail> {
    let (flushes, wanted, text, requests) = row;
    let server = CountingServer::start(rt)?;
    let (printed, status) = get(rt, server.address.port(), flushes)?;
    let connections = server.end(rt)?;
    Ok(printed.as_slice() == text.as_bytes() && status == wanted && connections == requests)
}

#[test]
fn a_flush_that_fails_ends_the_run(rt: HostRuntime) -> Result<(), Fail> {
    for row in &FLUSHES {
        if !holds(&rt, *row)? {
            return Err(Fail::new(format_args!("{} flushes", row.0)));
        }
    }
    Ok(())
}

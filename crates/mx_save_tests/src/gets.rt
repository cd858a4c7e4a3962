//! What `get` prints of some URLs, each row with a server of its own.
use crate::counting_server::CountingServer;
use mx_run_get::{Runtime, run_get, run_get_explained};
use mx_run_io::{Options, Output};
use std::alloc::Global;
use std::net::{Net, TcpListener, TcpStream};
use std::test::Fail;

/// URLs, and their results. `PORT` stands for the server's port.
#[derive(Clone, Copy)]
struct GetRow {
    /// What it is about.
    name: &'static str,
    max_connects: u8,
    max_redirects: u8,
    urls: &'static [&'static str],
    printed: &'static str,
    /// What is reported on standard error, where that is asked for.
    told: Option<&'static str>,
    /// The exit status.
    status: u8,
    /// On how many connections requests come, where that is certain.
    connections: Option<u32>,
}

static ROWS: [GetRow; 6] = [
    // rule turn-links
    // rule get-ends
    GetRow {
        name: "both bodies in the order of the URLs, over one connection",
        max_connects: 4,
        max_redirects: 0,
        urls: &["http://127.0.0.1:PORT/one", "http://127.0.0.1:PORT/two"],
        printed: "transfer 0 code 0 status 200 length 3\none\ntransfer 1 code 0 status 404 length 3\ntwo\n",
        told: None,
        status: 0,
        connections: Some(1),
    },
    GetRow {
        name: "a worker that keeps no idle links makes a connection for each",
        max_connects: 0,
        max_redirects: 0,
        urls: &["http://127.0.0.1:PORT/two", "http://127.0.0.1:PORT/one"],
        printed: "transfer 0 code 0 status 404 length 3\ntwo\ntransfer 1 code 0 status 200 length 3\none\n",
        told: None,
        status: 0,
        connections: Some(2),
    },
    GetRow {
        name: "a body that ends before its length is not printed, and its code is the exit status",
        max_connects: 4,
        max_redirects: 0,
        urls: &["http://127.0.0.1:PORT/short", "http://127.0.0.1:PORT/one"],
        printed: "transfer 0 code 18 status 200 length 0\n\ntransfer 1 code 0 status 200 length 3\none\n",
        told: None,
        status: 18,
        connections: None,
    },
    // rule redirect-outcome
    // rule redirect-idle-link
    GetRow {
        name: "a redirect is followed, and one that leads to itself ends with 47 past the limit, over one connection",
        max_connects: 4,
        max_redirects: 2,
        urls: &["http://127.0.0.1:PORT/moved", "http://127.0.0.1:PORT/loop"],
        printed: "transfer 0 code 0 status 200 length 3\none\ntransfer 1 code 47 status 302 length 0\n\n",
        told: None,
        status: 47,
        connections: Some(1),
    },
    GetRow {
        name: "a redirect is a response as any other where none is followed",
        max_connects: 4,
        max_redirects: 0,
        urls: &["http://127.0.0.1:PORT/moved", "http://127.0.0.1:PORT/one"],
        printed: "transfer 0 code 0 status 302 length 0\n\ntransfer 1 code 0 status 200 length 3\none\n",
        told: None,
        status: 0,
        connections: Some(1),
    },
    GetRow {
        name: "each URL that failed is told of, in their order: one cut short, one that nothing serves, and three that are refused",
        max_connects: 4,
        max_redirects: 0,
        urls: &[
            "http://127.0.0.1:PORT/one",
            "http://127.0.0.1:PORT/short",
            "http://127.0.0.1:1/",
            "https://a/",
            "localhost:7401/a b",
            "127.0.0.1/",
        ],
        printed: "transfer 0 code 0 status 200 length 3\none\ntransfer 1 code 18 status 200 length 0\n\ntransfer 2 code 7 status 0 length 0\n\ntransfer 3 code 1 status 0 length 0\n\ntransfer 4 code 1 status 0 length 0\n\ntransfer 5 code 3 status 0 length 0\n\n",
        told: Some(
            "mxfetch: http://127.0.0.1:PORT/short: the response ended within its body: 5 of 9 bytes of the body came (18)\nmxfetch: http://127.0.0.1:1/: the connection was refused, or could not be made (7)\nmxfetch: https://a/: the scheme isn't http (1)\n  hint: there is no TLS here, so https can't be fetched\nmxfetch: localhost:7401/a%20b: the scheme isn't http (1)\n  hint: a URL begins with http://\nmxfetch: 127.0.0.1/: the URL doesn't parse, or has a user name or a password (3)\n  hint: a URL begins with http://\n",
        ),
        status: 18,
        connections: None,
    },
];

impl GetRow {
    /// With one worker.
    fn options(&self) -> Options {
        Options {
            workers: 1,
            at_once: 256,
            timeout_ms: 0,
            max_connects: self.max_connects,
            max_redirects: self.max_redirects,
        }
    }
}

/// The text with this port.
fn with_port(alloc: Global, text: &str, port: u16) -> Result<String, Fail> {
    let mut whole = String::new(alloc);
    for (at, part) in text.split("PORT").enumerate() {
        if at > 0 {
            whole.push_str(format!(in alloc; "{port}")?.as_str())?;
        }
        whole.push_str(part)?;
    }
    Ok(whole)
}

/// What `get` printed and reported, and its exit status; 255 where it isn't run.
#[derive(Drop)]
struct GetOutput {
    printed: Vec<u8>,
    told: Vec<u8>,
    status: u8,
}

fn run<R: Runtime + Net<Listener = TcpListener, Stream = TcpStream>>(
    rt: &R,
    urls: &[&str],
    options: Options,
    is_explained: bool,
) -> GetOutput {
    let mut printed = Vec::new(rt.alloc());
    let mut told = Vec::new(rt.alloc());
    let status = if !options.are_within() {
        255
    } else if is_explained {
        run_get_explained(
            rt,
            urls,
            options,
            Output::new(&mut printed),
            &mut Output::new(&mut told),
        )
        .status
    } else {
        run_get(rt, urls, options, Output::new(&mut printed)).status
    };
    GetOutput {
        printed,
        told,
        status,
    }
}

fn run_row<R: Runtime + Net<Listener = TcpListener, Stream = TcpStream>>(
    rt: &R,
    row: &GetRow,
    port: u16,
) -> Result<GetOutput, Fail> {
    let mut urls = Vec::new(rt.alloc());
    for url in row.urls {
        urls.push(with_port(rt.alloc(), *url, port)?)?;
    }
    let mut words = Vec::new(rt.alloc());
    for url in &urls {
        words.push(url.as_str())?;
    }
    Ok(run(rt, words.as_slice(), row.options(), row.told.is_some()))
}

/// Whether the URLs of a server at this port have these results.
fn is_as_planned(alloc: Global, row: &GetRow, port: u16, ran: &GetOutput) -> Result<bool, Fail> {
    let printed = with_port(alloc, row.printed, port)?;
    let told = with_port(alloc, row.told.unwrap_or(""), port)?;
    Ok(
        ran.printed.as_slice() == printed.as_bytes()
            && ran.told.as_slice() == told.as_bytes()
            && ran.status == row.status,
    )
}

/// Whether the URLs have the results of their row.
fn holds<R: Runtime + Net<Listener = TcpListener, Stream = TcpStream>>(
    rt: &R,
    row: &GetRow,
) -> Result<bool, Fail> {
    let server = CountingServer::start(rt)?;
    let port = server.address.port();
    let ran = run_row(rt, row, port)?;
    let connections = server.end(rt)?;
    let are_right = match row.connections {
        Some(wanted) => connections == wanted,
        None => true,
    };
    Ok(is_as_planned(rt.alloc(), row, port, &ran)? && are_right)
}

/// Fails with the first row whose URLs have other results.
fn try_each<R: Runtime + Net<Listener = TcpListener, Stream = TcpStream>>(
    rt: &R,
) -> Result<(), Fail> {
    for row in &ROWS {
        if !holds(rt, row)? {
            return Err(row.name.into());
        }
    }
    Ok(())
}

#[test]
fn what_get_prints(rt: HostRuntime) -> Result<(), Fail> {
    try_each(&rt)
}

//! Exchanges that hand the content of their response on, over scripted links. What each turn hands on is compared, and the end.

use crate::replay::{Stop, holds};
use mx_exchange::{Exchange, Hop, Turned};
use mx_link::{ScriptLink, ScriptRead};
use mx_request::{Request, RequestError};
use mx_sink::Window;
use mx_types::{Code, Method, Settings};
use std::alloc::Global;

/// What an exchange is made of, and what is seen of it.
#[derive(Clone, Copy)]
struct Flowing {
    /// What it is about.
    name: &'static str,
    method: Method,
    /// The most bytes of content.
    most_bytes: Option<u64>,
    /// What its link answers to reads, and then the end.
    reads: &'static [ScriptRead<'static>],
    /// What each turn hands on. The last of them ends it.
    handed: &'static [&'static [u8]],
    code: Code,
    /// The status of its final head.
    status: u16,
    /// The bytes that it keeps.
    heads: &'static [u8],
    /// How many bytes its link gave.
    received: u32,
    /// Its link may serve again.
    gives_link: bool,
}

/// A response with a length, in one turn.
const COUNTED: Flowing = Flowing {
    name: "length_in_one_turn",
    method: Method::Get,
    most_bytes: None,
    reads: &[ScriptRead::Bytes(b"HTTP/1.1 200 OK\r\nContent-Length: 5\r\n\r\nhello")],
    handed: &[b"hello"],
    code: Code::Ok,
    status: 200,
    heads: b"HTTP/1.1 200 OK\r\nContent-Length: 5\r\n\r\n",
    received: 43,
    gives_link: true,
};

static COUNTED_ROWS: [Flowing; 6] = [
    COUNTED,
    Flowing {
        name: "length_in_three_turns",
        reads: &[
            ScriptRead::Bytes(b"HTTP/1.1 200 OK\r\nContent-Le"),
            ScriptRead::WouldBlock,
            ScriptRead::Bytes(b"ngth: 5\r\n\r\nhe"),
            ScriptRead::WouldBlock,
            ScriptRead::Bytes(b"l"),
            ScriptRead::Bytes(b"lo"),
        ],
        handed: &[b"", b"he", b"llo"],
        ..COUNTED
    },
    Flowing {
        name: "length_over_its_limit",
        most_bytes: Some(4),
        handed: &[b""],
        code: Code::FilesizeExceeded,
        gives_link: false,
        ..COUNTED
    },
    Flowing {
        name: "no_body_of_a_head",
        method: Method::Head,
        reads: &[ScriptRead::Bytes(b"HTTP/1.1 200 OK\r\nContent-Length: 5\r\n\r\n")],
        handed: &[b""],
        received: 38,
        ..COUNTED
    },
    Flowing {
        name: "bytes_behind_a_length",
        reads: &[ScriptRead::Bytes(b"HTTP/1.1 200 OK\r\nContent-Length: 5\r\n\r\nhello!")],
        received: 44,
        gives_link: false,
        ..COUNTED
    },
    Flowing {
        name: "end_within_a_length",
        reads: &[
            ScriptRead::Bytes(b"HTTP/1.1 200 OK\r\nContent-Length: 5\r\n\r\nhel"),
            ScriptRead::WouldBlock,
            ScriptRead::End,
        ],
        handed: &[b"hel", b""],
        code: Code::PartialFile,
        received: 41,
        gives_link: false,
        ..COUNTED
    },
];

/// Chunks behind an interim head, which come in two turns.
const CHUNKED: Flowing = Flowing {
    name: "chunks_in_two_turns",
    method: Method::Get,
    most_bytes: None,
    reads: &[
        ScriptRead::Bytes(
            b"HTTP/1.1 103 Early Hints\r\n\r\nHTTP/1.1 200 OK\r\nTransfer-Encoding: chunked\r\n\r\n2\r\nh",
        ),
        ScriptRead::WouldBlock,
        ScriptRead::Bytes(b"e\r\n3\r\nllo\r\n0\r\n\r\n"),
    ],
    handed: &[b"h", b"ello"],
    code: Code::Ok,
    status: 200,
    heads: b"HTTP/1.1 103 Early Hints\r\n\r\nHTTP/1.1 200 OK\r\nTransfer-Encoding: chunked\r\n\r\n",
    received: 95,
    gives_link: true,
};

static OTHER_ROWS: [Flowing; 6] = [
    CHUNKED,
    Flowing {
        name: "chunks_over_their_limit",
        most_bytes: Some(4),
        handed: &[b"h", b"ell"],
        code: Code::FilesizeExceeded,
        gives_link: false,
        ..CHUNKED
    },
    Flowing {
        name: "fault_within_chunks",
        reads: &[
            ScriptRead::Bytes(
                b"HTTP/1.1 103 Early Hints\r\n\r\nHTTP/1.1 200 OK\r\nTransfer-Encoding: chunked\r\n\r\n2\r\nh",
            ),
            ScriptRead::WouldBlock,
            ScriptRead::Bytes(b"ee\r\n"),
        ],
        handed: &[b"h", b"e"],
        code: Code::RecvError,
        received: 83,
        gives_link: false,
        ..CHUNKED
    },
    Flowing {
        name: "link_fails_within_chunks",
        reads: &[
            ScriptRead::Bytes(
                b"HTTP/1.1 103 Early Hints\r\n\r\nHTTP/1.1 200 OK\r\nTransfer-Encoding: chunked\r\n\r\n2\r\nh",
            ),
            ScriptRead::WouldBlock,
            ScriptRead::Fault,
        ],
        handed: &[b"h", b""],
        code: Code::RecvError,
        received: 79,
        gives_link: false,
        ..CHUNKED
    },
    Flowing {
        name: "body_that_the_end_ends",
        method: Method::Get,
        most_bytes: None,
        reads: &[
            ScriptRead::Bytes(b"HTTP/1.1 200 OK\r\n\r\nhel"),
            ScriptRead::WouldBlock,
            ScriptRead::Bytes(b"lo"),
            ScriptRead::End,
        ],
        handed: &[b"hel", b"lo"],
        code: Code::Ok,
        status: 200,
        heads: b"HTTP/1.1 200 OK\r\n\r\n",
        received: 24,
        gives_link: false,
    },
    Flowing {
        name: "no_head",
        method: Method::Get,
        most_bytes: None,
        reads: &[ScriptRead::Bytes(b"HTTP/1.1 2")],
        handed: &[b""],
        code: Code::WeirdServerReply,
        status: 0,
        heads: b"",
        received: 10,
        gives_link: false,
    },
];

/// Fails unless it has ended as the row says. An end with `OutOfMemory` is reported as that.
fn check_end(exchange: &mut Exchange<ScriptLink>, hop: &Hop, row: &Flowing) -> Result<(), Stop> {
    if hop.code() == Code::OutOfMemory {
        return Err(Stop::Memory);
    }
    holds(hop.code() == row.code, "the code")?;
    holds(hop.status() == row.status, "the status")?;
    holds(hop.kept() == row.heads, "the heads")?;
    holds(hop.part_count() == 0, "the parts")?;
    holds(exchange.received() == row.received, "the bytes received")?;
    let link = exchange.take_link();
    let is_given = link.is_some();
    drop(link);
    holds(is_given == row.gives_link, "the link")
}

/// Takes one turn, and fails unless it hands that on. Where it ends the exchange, that is as the row says.
fn turn(
    alloc: Global,
    exchange: &mut Exchange<ScriptLink>,
    row: &Flowing,
    handed: &[u8],
) -> Result<(), Stop> {
    if exchange.spent() {
        return Err(Stop::Part("when it ends"));
    }
    let mut out = Window::new(alloc);
    let turned = exchange.turn(&mut out);
    let is_so = out.as_slice() == handed;
    drop(out);
    let Turned::Ended(hop) = turned else {
        return holds(is_so, "what a turn hands on");
    };
    let ended = check_end(exchange, &hop, row);
    drop(hop);
    ended?;
    holds(is_so, "what the last turn hands on")
}

/// Fails unless the exchange of the row goes so.
fn play(alloc: Global, row: &Flowing) -> Result<(), Stop> {
    let request = match Request::build(alloc, row.method, "http://h/", Settings::new(alloc)) {
        Ok(request) => request,
        Err(RequestError::OutOfMemory) => return Err(Stop::Memory),
        Err(_) => return Err(Stop::Part("the request")),
    };
    let link = ScriptLink::new(alloc, row.reads, &[])?;
    let mut exchange = Exchange::flowing(alloc, request, row.most_bytes);
    exchange.attach(link, false);
    for handed in row.handed {
        turn(alloc, &mut exchange, row, *handed)?;
    }
    holds(exchange.spent(), "that it ends")
}

/// Fails with the first row that isn't so, and names it.
pub(crate) fn are_so(alloc: Global) -> Result<(), Stop> {
    for rows in [&COUNTED_ROWS, &OTHER_ROWS] {
        for row in rows {
            match play(alloc, row) {
                Ok(()) => {}
                Err(Stop::Part(part)) => return Err(Stop::Row(row.name, row.method, part)),
                Err(stop) => return Err(stop),
            }
        }
    }
    Ok(())
}

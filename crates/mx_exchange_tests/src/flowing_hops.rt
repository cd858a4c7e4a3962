//! Chains of hops that hand the content of their response on, over scripted links. What each turn hands on is compared, and the end.

ghost use Rattle.std.specs.Prelude.{◌≡◌};

use crate::replay::{Stop, holds};
use mx_chain::{Chain, ChainEnd, Stepped};
use mx_link::{ScriptLink, ScriptRead};
use mx_request::{Request, RequestError};
use mx_sink::Window;
use mx_types::{Code, Method, Settings};
use std::alloc::Global;

/// What a chain is made of, and what is seen of it.
#[derive(Clone, Copy)]
struct FlowingChain {
    /// What it is about.
    name: &'static str,
    /// The most redirects that it follows.
    most: u8,
    /// What the link of each hop answers to reads, and then the end.
    links: &'static [&'static [ScriptRead<'static>]],
    /// What each turn hands on. The last of them ends it.
    handed: &'static [&'static [u8]],
    code: Code,
    /// The status of the last hop's final head.
    status: u16,
    /// The heads of the last hop.
    heads: &'static [u8],
    /// How many hops there are.
    hops: usize,
    /// How many bytes the links gave.
    received: u32,
}

/// 55 bytes of a head, and then five of a body.
const FOUND: &[u8] = b"HTTP/1.1 302 Found\r\nLocation: /b\r\nContent-Length: 5\r\n\r\nmoved";

const FOUND_HEAD: &[u8] = b"HTTP/1.1 302 Found\r\nLocation: /b\r\nContent-Length: 5\r\n\r\n";

/// The same response, without a location.
const NOWHERE: &[u8] = b"HTTP/1.1 302 Found\r\nContent-Length: 5\r\n\r\nmoved";

const NOWHERE_HEAD: &[u8] = b"HTTP/1.1 302 Found\r\nContent-Length: 5\r\n\r\n";

const FINAL: &[u8] = b"HTTP/1.1 200 OK\r\nContent-Length: 5\r\n\r\nhello";

const FINAL_HEAD: &[u8] = b"HTTP/1.1 200 OK\r\nContent-Length: 5\r\n\r\n";

/// A redirect that is followed: its body is dropped, and that of the next hop is handed on.
const FOLLOWED: FlowingChain = FlowingChain {
    name: "redirect_that_is_followed",
    most: 1,
    links: &[&[ScriptRead::Bytes(FOUND)], &[ScriptRead::Bytes(FINAL)]],
    handed: &[b"", b"hello"],
    code: Code::Ok,
    status: 200,
    heads: FINAL_HEAD,
    hops: 2,
    received: 103,
};

// rule redirect-content
static ROWS: [FlowingChain; 8] = [
    FOLLOWED,
    FlowingChain {
        name: "redirect_in_pieces",
        links: &[
            &[
                ScriptRead::Bytes(
                    b"HTTP/1.1 302 Found\r\nLocation: /b\r\nContent-Length: 5\r\n\r\nmo",
                ),
                ScriptRead::WouldBlock,
                ScriptRead::Bytes(b"v"),
                ScriptRead::WouldBlock,
                ScriptRead::Bytes(b"ed"),
            ],
            &[
                ScriptRead::Bytes(b"HTTP/1.1 200 OK\r\nContent-Length: 5\r\n\r\nhe"),
                ScriptRead::WouldBlock,
                ScriptRead::Bytes(b"llo"),
            ],
        ],
        handed: &[b"", b"", b"", b"he", b"llo"],
        ..FOLLOWED
    },
    FlowingChain {
        name: "redirect_where_none_is_followed",
        most: 0,
        links: &[&[ScriptRead::Bytes(FOUND)]],
        handed: &[b"moved"],
        status: 302,
        heads: FOUND_HEAD,
        hops: 1,
        received: 60,
        ..FOLLOWED
    },
    FlowingChain {
        name: "redirect_without_a_location",
        links: &[&[ScriptRead::Bytes(NOWHERE)]],
        handed: &[b"moved"],
        status: 302,
        heads: NOWHERE_HEAD,
        hops: 1,
        received: 46,
        ..FOLLOWED
    },
    FlowingChain {
        name: "one_redirect_too_many",
        links: &[&[ScriptRead::Bytes(FOUND)], &[ScriptRead::Bytes(FOUND)]],
        handed: &[b"", b""],
        code: Code::TooManyRedirects,
        status: 302,
        heads: FOUND_HEAD,
        received: 120,
        ..FOLLOWED
    },
    FlowingChain {
        name: "redirect_that_is_cut_off",
        links: &[&[
            ScriptRead::Bytes(b"HTTP/1.1 302 Found\r\nLocation: /b\r\nContent-Length: 5\r\n\r\nmo"),
            ScriptRead::WouldBlock,
            ScriptRead::End,
        ]],
        handed: &[b"", b""],
        code: Code::PartialFile,
        status: 302,
        heads: FOUND_HEAD,
        hops: 1,
        received: 57,
        ..FOLLOWED
    },
    FlowingChain {
        name: "interim_location",
        links: &[&[ScriptRead::Bytes(
            b"HTTP/1.1 103 Early Hints\r\nLocation: /b\r\n\r\nHTTP/1.1 302 Found\r\nContent-Length: 5\r\n\r\nmoved",
        )]],
        handed: &[b"moved"],
        status: 302,
        heads: b"HTTP/1.1 103 Early Hints\r\nLocation: /b\r\n\r\nHTTP/1.1 302 Found\r\nContent-Length: 5\r\n\r\n",
        hops: 1,
        received: 88,
        ..FOLLOWED
    },
    FlowingChain {
        name: "last_hop_is_cut_off",
        links: &[
            &[ScriptRead::Bytes(FOUND)],
            &[
                ScriptRead::Bytes(b"HTTP/1.1 200 OK\r\nContent-Length: 5\r\n\r\nhe"),
                ScriptRead::WouldBlock,
                ScriptRead::End,
            ],
        ],
        handed: &[b"", b"he", b""],
        code: Code::PartialFile,
        received: 100,
        ..FOLLOWED
    },
];

/// Fails unless it has ended as the row says. An end with `OutOfMemory` is reported as that.
fn check_end(end: &ChainEnd, received: u32, row: &FlowingChain) -> Result<(), Stop> {
    if end.code() == Code::OutOfMemory {
        return Err(Stop::Memory);
    }
    holds(end.code() == row.code, "the code")?;
    holds(end.status() == row.status, "the status")?;
    holds(end.heads() == row.heads, "the heads")?;
    holds(end.hops() == row.hops, "the hops")?;
    holds(received == row.received, "the bytes received")
}

/// Takes one turn, and fails unless it hands that on. Where it ends the chain, that is as the row says.
fn turn(
    alloc: Global,
    chain: &mut Chain<ScriptLink>,
    row: &FlowingChain,
    handed: &[u8],
) -> Result<(), Stop>
    ensures { chain.new.now.limit ≡ chain.old.now.limit }
{
    if chain.spent() {
        return Err(Stop::Part("when it ends"));
    }
    let mut out = Window::new(alloc);
    let stepped = chain.turn(&mut out);
    let is_so = out.as_slice() == handed;
    drop(out);
    let Stepped::Ended(end) = stepped else {
        return holds(is_so, "what a turn hands on");
    };
    let ended = check_end(&end, chain.received(), row);
    drop(end);
    ended?;
    holds(is_so, "what the last turn hands on")
}

/// A request for that URL, which follows so many redirects.
fn request_of(alloc: Global, most: u8) -> Result<Request, Stop> {
    let mut settings = Settings::new(alloc);
    settings.max_redirects = most;
    match Request::build(alloc, Method::Get, "http://h/", settings) {
        Ok(request) => Ok(request),
        Err(RequestError::OutOfMemory) => Err(Stop::Memory),
        Err(_) => Err(Stop::Part("the request")),
    }
}

/// Hands over a link with that script, where the chain wants one.
fn supply(
    alloc: Global,
    chain: &mut Chain<ScriptLink>,
    reads: Option<&&'static [ScriptRead<'static>]>,
) -> Result<(), Stop> {
    let Some(reads) = reads else {
        return Err(Stop::Part("how many links it wants"));
    };
    let link = ScriptLink::new(alloc, *reads, &[])?;
    if chain.wants().is_none() {
        drop(link);
        return Err(Stop::Part("when it wants a link"));
    }
    chain.attach(link, false);
    Ok(())
}

/// Fails unless the chain of the row goes so.
fn play(alloc: Global, row: &FlowingChain) -> Result<(), Stop> {
    let mut chain = Chain::flowing(alloc, request_of(alloc, row.most)?, None);
    let mut links = row.links.iter();
    for handed in row.handed {
        if chain.wants().is_some() {
            supply(alloc, &mut chain, links.next())?;
        }
        turn(alloc, &mut chain, row, *handed)?;
    }
    holds(chain.spent(), "that it ends")
}

/// A chain whose content can't be written: it ends with 23 at its next turn, and its link isn't asked again.
fn play_failure(alloc: Global) -> Result<(), Stop> {
    let row = FlowingChain {
        name: "content_that_could_not_be_written",
        handed: &[],
        code: Code::WriteError,
        hops: 1,
        received: 40,
        ..FOLLOWED
    };
    let mut chain = Chain::flowing(alloc, request_of(alloc, 0)?, None);
    let link = ScriptLink::new(
        alloc,
        &[
            ScriptRead::Bytes(b"HTTP/1.1 200 OK\r\nContent-Length: 5\r\n\r\nhe"),
            ScriptRead::WouldBlock,
            ScriptRead::Bytes(b"llo"),
        ],
        &[],
    )?;
    chain.attach(link, false);
    turn(alloc, &mut chain, &row, b"he")?;
    if chain.spent() {
        return Err(Stop::Part("when it ends"));
    }
    chain.fail(Code::WriteError);
    turn(alloc, &mut chain, &row, b"")?;
    holds(chain.spent(), "that it ends")
}

/// Fails with the first row that isn't so, and names it.
pub(crate) fn are_so(alloc: Global) -> Result<(), Stop> {
    for row in &ROWS {
        match play(alloc, row) {
            Ok(()) => {}
            Err(Stop::Part(part)) => return Err(Stop::Row(row.name, Method::Get, part)),
            Err(stop) => return Err(stop),
        }
    }
    play_failure(alloc)
}

//! The lines, objects, decisions and exit statuses of `save`.
use crate::fakes::Pipe;
use crate::tally::RowTally;
use mx_run_io::Output;
use mx_save_rules::{
    Decision, End, ExitStatus, FramingWord, JsonError, SaveCode, Transferred, print_json,
    print_line, verdict_of,
};
use mx_types::{Code, Method};
use std::alloc::{AllocError, Global};

/// The end of a URL.
#[derive(Clone, Copy)]
enum Came {
    /// Its body is in that file.
    Saved(&'static str),
    Done,
    /// That file is there.
    Skipped(&'static str),
    /// Its response is one of failure, with these words.
    Missing(&'static str),
    /// It isn't a URL.
    Malformed,
}

/// The end of a URL, its line, and the two halves of its object.
struct Row {
    name: &'static str,
    url: &'static [u8],
    came: Came,
    transferred: Transferred,
    line: &'static [u8],
    front: &'static [u8],
    back: &'static [u8],
}

const NOTHING: Transferred = Transferred {
    status: 0,
    length: 0,
    framing: None,
    hops: 0,
    tries: 0,
};

// rule save-lines
static ENDS: [Row; 7] = [
    Row {
        name: "saved",
        url: b"http://example.com/",
        came: Came::Saved("index.html"),
        transferred: Transferred {
            status: 200,
            length: 1256,
            framing: Some(FramingWord::Length),
            hops: 1,
            tries: 1,
        },
        line: b"saved 0 200 1256 index.html http://example.com/\n",
        front: b"{\"url\":\"http://example.com/\",\"verdict\":\"saved\",\"code\":0,\"status\":200,\"length\":1256",
        back: b",\"file\":\"index.html\",\"hops\":1,\"tries\":1,\"framing\":\"length\",\"error\":null}\n",
    },
    Row {
        name: "saved up to the end of the connection",
        url: b"http://a/-",
        came: Came::Saved("-"),
        transferred: Transferred {
            status: 200,
            length: 4_294_967_295,
            framing: Some(FramingWord::Close),
            hops: 11,
            tries: 256,
        },
        line: b"saved 0 200 4294967295 - http://a/-\n",
        front: b"{\"url\":\"http://a/-\",\"verdict\":\"saved\",\"code\":0,\"status\":200,\"length\":4294967295",
        back: b",\"file\":\"-\",\"hops\":11,\"tries\":256,\"framing\":\"close\",\"error\":null}\n",
    },
    Row {
        name: "saved, of the greatest length",
        url: b"http://a/x",
        came: Came::Saved("x"),
        transferred: Transferred {
            status: 200,
            length: u64::MAX,
            framing: Some(FramingWord::Chunked),
            hops: 1,
            tries: 1,
        },
        line: b"saved 0 200 18446744073709551615 x http://a/x\n",
        front: b"{\"url\":\"http://a/x\",\"verdict\":\"saved\",\"code\":0,\"status\":200,\"length\":18446744073709551615",
        back: b",\"file\":\"x\",\"hops\":1,\"tries\":1,\"framing\":\"chunked\",\"error\":null}\n",
    },
    Row {
        name: "done",
        url: b"http://a/x",
        came: Came::Done,
        transferred: Transferred {
            status: 204,
            hops: 1,
            tries: 1,
            ..NOTHING
        },
        line: b"done 0 204 0 - http://a/x\n",
        front: b"{\"url\":\"http://a/x\",\"verdict\":\"done\",\"code\":0,\"status\":204,\"length\":0",
        back: b",\"file\":null,\"hops\":1,\"tries\":1,\"framing\":null,\"error\":null}\n",
    },
    Row {
        name: "skipped",
        url: b"http://a/x",
        came: Came::Skipped("x#1"),
        transferred: NOTHING,
        line: b"skipped 0 0 0 x#1 http://a/x\n",
        front: b"{\"url\":\"http://a/x\",\"verdict\":\"skipped\",\"code\":0,\"status\":0,\"length\":0",
        back: b",\"file\":\"x#1\",\"hops\":0,\"tries\":0,\"framing\":null,\"error\":null}\n",
    },
    Row {
        name: "failed",
        url: b"http://a/x",
        came: Came::Missing("not \"there\"\n"),
        transferred: Transferred {
            status: 404,
            length: 99,
            framing: Some(FramingWord::Chunked),
            hops: 2,
            tries: 3,
        },
        line: b"failed 22 404 0 - http://a/x\n",
        front: b"{\"url\":\"http://a/x\",\"verdict\":\"failed\",\"code\":22,\"status\":404,\"length\":0",
        back: b",\"file\":null,\"hops\":2,\"tries\":3,\"framing\":\"chunked\",\"error\":\"not \\\"there\\\"\\n\"}\n",
    },
    Row {
        name: "a line of a list that tries to forge another line, and that isn't UTF-8",
        url: b"http://a/\" %\r\x7f\xff\\~!\nsaved 0 200 1 x y",
        came: Came::Malformed,
        transferred: NOTHING,
        line: b"failed 3 0 0 - http://a/\"%20%%0D%7F%FF\\~!%0Asaved%200%20200%201%20x%20y\n",
        front: b"{\"url\":\"http://a/\\\"%20%%0D%7F%FF\\\\~!%0Asaved%200%20200%201%20x%20y\",\"verdict\":\"failed\",\"code\":3,\"status\":0,\"length\":0",
        back: b",\"file\":null,\"hops\":0,\"tries\":0,\"framing\":null,\"error\":null}\n",
    },
];

fn end_of(alloc: Global, row: &Row) -> Result<End, AllocError> {
    let url = Vec::from_slice(alloc, row.url)?;
    Ok(match row.came {
        Came::Saved(file) => End::saved(url, String::from_str(alloc, file)?, row.transferred),
        Came::Done => End::done(url, row.transferred),
        Came::Skipped(file) => End::skipped(url, String::from_str(alloc, file)?),
        Came::Missing(said) => End::failed(
            url,
            SaveCode::HttpReturnedError,
            row.transferred,
            Some(String::from_str(alloc, said)?),
        ),
        Came::Malformed => End::failed(
            url,
            SaveCode::Transfer(Code::UrlMalformat),
            row.transferred,
            None,
        ),
    })
}

/// Whether the line of an end is that one.
fn is_line(alloc: Global, end: &End, row: &Row) -> bool {
    let mut line = Vec::new(alloc);
    let _ = print_line(&mut Output::new(&mut line), end);
    line.as_slice() == row.line
}

/// Whether its object is that one.
fn is_object(alloc: Global, end: &End, row: &Row) -> bool {
    let mut object = Vec::new(alloc);
    let _ = print_json(alloc, &mut Output::new(&mut object), end);
    match object.as_slice().strip_prefix(row.front) {
        Some(back) => back == row.back,
        None => false,
    }
}

/// A writer that takes nothing.
const FULL: Pipe = Pipe {
    writes: 0,
    is_flushed: true,
};

/// Whether a line and an object that can't be written give that error.
fn is_unwritten(alloc: Global, end: &End) -> bool {
    let line = print_line(&mut Output::new(FULL), end);
    let object = print_json(alloc, &mut Output::new(FULL), end);
    line.is_err() && matches!(object, Err(JsonError::Unwritten))
}

fn see_end(alloc: Global, tally: &mut RowTally, row: &Row) -> Result<(), AllocError> {
    let end = end_of(alloc, row)?;
    let is_printed = is_line(alloc, &end, row) && is_object(alloc, &end, row);
    let is_unwritten = is_unwritten(alloc, &end);
    drop(end);
    tally.see(is_printed, row.name, "printed otherwise\n")?;
    tally.see(is_unwritten, row.name, "a write that fails\n")
}

fn see_ends(alloc: Global, tally: &mut RowTally) -> Result<(), AllocError> {
    for row in &ENDS {
        see_end(alloc, tally, row)?;
    }
    Ok(())
}

/// The code of a transfer, the method of the last request, the status, whether responses of failure are asked for, and what is done.
type Case = (Code, Method, u16, bool, Decision);

const REFUSED: Decision = Decision::Fail(SaveCode::HttpReturnedError);

// rule save-decision
static CASES: [Case; 17] = [
    (Code::Ok, Method::Get, 200, false, Decision::Save),
    (Code::Ok, Method::Get, 299, false, Decision::Save),
    (Code::Ok, Method::Post, 201, false, Decision::Save),
    (Code::Ok, Method::Get, 199, false, REFUSED),
    (Code::Ok, Method::Get, 300, false, REFUSED),
    (Code::Ok, Method::Get, 404, false, REFUSED),
    (Code::Ok, Method::Head, 404, false, REFUSED),
    (Code::Ok, Method::Get, 304, false, REFUSED),
    (Code::Ok, Method::Head, 200, false, Decision::Done),
    (Code::Ok, Method::Get, 204, false, Decision::Done),
    (Code::Ok, Method::Get, 205, false, Decision::Done),
    (Code::Ok, Method::Get, 404, true, Decision::Save),
    (Code::Ok, Method::Get, 301, true, Decision::Save),
    (Code::Ok, Method::Head, 404, true, Decision::Done),
    (Code::Ok, Method::Get, 304, true, Decision::Done),
    (
        Code::PartialFile,
        Method::Get,
        200,
        true,
        Decision::Fail(SaveCode::Transfer(Code::PartialFile)),
    ),
    (
        Code::RecvError,
        Method::Get,
        404,
        false,
        Decision::Fail(SaveCode::Transfer(Code::RecvError)),
    ),
];

/// Counts a row of this name.
fn hold(
    tally: &mut RowTally,
    name: Result<String, AllocError>,
    is_right: bool,
) -> Result<(), AllocError> {
    let name = name?;
    let held = tally.hold(name.as_str(), is_right);
    drop(name);
    held
}

fn see_decisions(alloc: Global, tally: &mut RowTally) -> Result<(), AllocError> {
    for case in &CASES {
        let (code, method, status, content_on_error, decision) = *case;
        let is_right = verdict_of(code, method, status, content_on_error) == decision;
        let name = format!(in alloc; "the decision on {} {status}", method.as_str());
        hold(tally, name, is_right)?;
    }
    Ok(())
}

const FINE: SaveCode = SaveCode::Transfer(Code::Ok);

const NO_HOST: SaveCode = SaveCode::Transfer(Code::CouldntResolveHost);

/// How the URLs of a run end, in this order: the place and the code of each; and the status of the run.
type RunEnds = (&'static [(u64, SaveCode)], u8);

// rule save-exit-status
static RUNS: [RunEnds; 6] = [
    (&[], 0),
    (&[(0, FINE), (1, FINE)], 0),
    (&[(2, SaveCode::WriteError), (0, FINE), (1, NO_HOST)], 6),
    (&[(1, NO_HOST), (2, SaveCode::WriteError), (0, FINE)], 6),
    (&[(0, SaveCode::HttpReturnedError), (1, NO_HOST)], 22),
    (&[(1, NO_HOST), (0, SaveCode::HttpReturnedError)], 22),
];

fn status_after(ends: &[(u64, SaveCode)]) -> u8 {
    let mut status = ExitStatus::new();
    for end in ends {
        let (place, code) = *end;
        status.note(place, code);
    }
    status.status()
}

fn see_statuses(alloc: Global, tally: &mut RowTally) -> Result<(), AllocError> {
    for (at, row) in RUNS.iter().enumerate() {
        let name = format!(in alloc; "exit status {at}");
        hold(tally, name, status_after(row.0) == row.1)?;
    }
    Ok(())
}

/// Goes through all of them.
pub(crate) fn see_all(alloc: Global, tally: &mut RowTally) -> Result<(), AllocError> {
    see_ends(alloc, tally)?;
    see_decisions(alloc, tally)?;
    see_statuses(alloc, tally)
}

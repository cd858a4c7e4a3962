//! What `get` prints.
use crate::fakes::Pipe;
use crate::tally::RowTally;
use crate::transfers::{Planned, fetch_all};
use mx_reason::{Cut, Defect, Fault, Reason};
use mx_run_io::Output;
use mx_text::{Fetched, print_get};
use mx_types::Code;
use std::alloc::{AllocError, Global};
use std::io;

/// Some GETs with their ends, the exit status, and all that is printed.
#[derive(Clone, Copy)]
struct Row {
    name: &'static str,
    planned: &'static [Planned],
    status: u8,
    printed: &'static [u8],
}

static PRINTED: [Row; 4] = [
    Row {
        name: "nothing is printed of no handles",
        planned: &[],
        status: 0,
        printed: b"",
    },
    // rule get-output
    Row {
        name: "bodies stand behind their lines",
        planned: &[
            Planned::Response(b"HTTP/1.1 200 OK\r\nContent-Length: 5\r\n\r\nhello"),
            Planned::Response(
                b"HTTP/1.1 404 Not Found\r\nTransfer-Encoding: chunked\r\n\r\n2\r\nab\r\n3\r\nc\nd\r\n0\r\n\r\n",
            ),
            Planned::Response(b"HTTP/1.1 204 No Content\r\n\r\n"),
        ],
        status: 0,
        printed: b"transfer 0 code 0 status 200 length 5\nhello\n\
          transfer 1 code 0 status 404 length 5\nabc\nd\n\
          transfer 2 code 0 status 204 length 0\n\n",
    },
    Row {
        name: "the first fault is the exit status",
        planned: &[
            Planned::Response(b"HTTP/1.0 200 OK\r\n\r\nabc"),
            Planned::Response(b"HTTP/1.1 200 OK\r\nContent-Length: 5\r\n\r\nhell"),
            Planned::Refused(Code::UrlMalformat),
        ],
        status: 18,
        printed: b"transfer 0 code 0 status 200 length 3\nabc\n\
          transfer 1 code 18 status 200 length 0\n\n\
          transfer 2 code 3 status 0 length 0\n\n",
    },
    Row {
        name: "faults have no body",
        planned: &[
            Planned::Refused(Code::UnsupportedProtocol),
            Planned::Response(b""),
            Planned::Response(b"HTTP/1.1 20"),
            Planned::Refused(Code::OutOfMemory),
        ],
        status: 1,
        printed: b"transfer 0 code 1 status 0 length 0\n\n\
          transfer 1 code 52 status 0 length 0\n\n\
          transfer 2 code 8 status 0 length 0\n\n\
          transfer 3 code 27 status 0 length 0\n\n",
    },
];

fn is_printed(alloc: Global, fetched: &[Fetched], row: Row) -> bool {
    let mut written = Vec::new(alloc);
    let status = print_get(&mut Output::new(&mut written), fetched);
    status == row.status && written.as_slice() == row.printed
}

/// Of a failure the code, the status, how many bytes came, and the reason.
type ReportedFailure = (Code, u16, usize, Option<Reason>);

/// A GET with its end, and what is reported of it, if it is a failure.
type Failing = (&'static str, Planned, Option<ReportedFailure>);

// rule get-failures
static FAILING: [Failing; 6] = [
    (
        "no failure",
        Planned::Response(b"HTTP/1.1 200 OK\r\nContent-Length: 5\r\n\r\nhello"),
        None,
    ),
    (
        "a body that is cut",
        Planned::Response(b"HTTP/1.1 200 OK\r\nContent-Length: 5\r\n\r\nhell"),
        Some((
            Code::PartialFile,
            200,
            42,
            Some(Reason {
                at: 42,
                what: Defect::Cut(Cut::Counted { came: 4, of: 5 }),
            }),
        )),
    ),
    (
        "a head that is cut",
        Planned::Response(b"HTTP/1.1 20"),
        Some((
            Code::WeirdServerReply,
            0,
            11,
            Some(Reason {
                at: 11,
                what: Defect::Cut(Cut::Head),
            }),
        )),
    ),
    (
        "no byte",
        Planned::Response(b""),
        Some((
            Code::GotNothing,
            0,
            0,
            Some(Reason {
                at: 0,
                what: Defect::Cut(Cut::Head),
            }),
        )),
    ),
    (
        "a field line without a colon",
        Planned::Response(b"HTTP/1.1 200 OK\r\nNo Colon\r\n\r\n"),
        Some((
            Code::WeirdServerReply,
            0,
            29,
            Some(Reason {
                at: 20,
                what: Defect::Fault(Fault::FieldLine),
            }),
        )),
    ),
    (
        "a URL that is refused",
        Planned::Refused(Code::UrlMalformat),
        None,
    ),
];

fn told_of(end: &Fetched) -> Option<ReportedFailure> {
    match end {
        Fetched::Failed(failure) => Some((
            failure.code(),
            failure.status(),
            failure.wire_len(),
            failure.reason(),
        )),
        _ => None,
    }
}

/// How many writes are taken, whether the flush succeeds, and the exit status.
static PIPES: [(usize, bool, u8); 7] = [
    (1000, true, 3),
    (1000, false, 121),
    (0, true, 121),
    (1, true, 121),
    (2, true, 121),
    (3, true, 121),
    (4, true, 121),
];

/// The exit status over a writer that takes so many writes.
fn status_of(fetched: &[Fetched], writes: usize, is_flushed: bool) -> u8 {
    print_get(&mut Output::new(Pipe { writes, is_flushed }), fetched)
}

/// What is written to each of the pipes.
static PIPED: [Planned; 2] = [
    Planned::Response(b"HTTP/1.1 200 OK\r\nContent-Length: 5\r\n\r\nhello"),
    Planned::Refused(Code::UrlMalformat),
];

fn see_pipes(tally: &mut RowTally, fetched: &[Fetched]) -> Result<(), AllocError> {
    for row in &PIPES {
        let (writes, is_flushed, status) = *row;
        let is_right = status_of(fetched, writes, is_flushed) == status;
        tally.hold("a write that fails", is_right)?;
    }
    Ok(())
}

/// What is to be seen of some GETs.
#[derive(Clone, Copy)]
enum ExpectedGet {
    /// What is printed.
    Printed(Row),
    /// What is reported of the only one.
    Failing(&'static str, Option<ReportedFailure>),
    /// The exit status for each of the pipes.
    Pipes,
}

fn see_ends(
    alloc: Global,
    tally: &mut RowTally,
    fetched: &[Fetched],
    seen: ExpectedGet,
) -> Result<(), AllocError> {
    match seen {
        ExpectedGet::Printed(row) => tally.hold(row.name, is_printed(alloc, fetched, row)),
        ExpectedGet::Failing(name, told) => {
            let is_told = fetched.len() == 1 && told_of(&fetched[0]) == told;
            tally.hold(name, is_told)
        }
        ExpectedGet::Pipes => see_pipes(tally, fetched),
    }
}

/// Goes through what is to be seen of these GETs, whose ends it adds.
fn see_into(
    alloc: Global,
    tally: &mut RowTally,
    planned: &[Planned],
    seen: ExpectedGet,
    fetched: &mut Vec<Fetched>,
) -> io::Result<()> {
    fetch_all(alloc, planned, fetched)?;
    see_ends(alloc, tally, fetched.as_slice(), seen)?;
    Ok(())
}

/// Goes through what is to be seen of these GETs.
fn see(
    alloc: Global,
    tally: &mut RowTally,
    planned: &[Planned],
    seen: ExpectedGet,
) -> io::Result<()> {
    let mut fetched = Vec::new(alloc);
    let ended = see_into(alloc, tally, planned, seen, &mut fetched);
    drop(fetched);
    ended
}

fn see_by(alloc: Global, tally: &mut RowTally) -> io::Result<()> {
    for row in &PRINTED {
        see(alloc, tally, row.planned, ExpectedGet::Printed(*row))?;
    }
    for row in &FAILING {
        let (name, planned, told) = *row;
        see(alloc, tally, &[planned], ExpectedGet::Failing(name, told))?;
    }
    tally.hold("nothing to write", status_of(&[], 0, true) == 0)?;
    see(alloc, tally, &PIPED, ExpectedGet::Pipes)
}

/// Goes through all of them.
pub(crate) fn see_all(rt: &HostRuntime, tally: &mut RowTally) -> io::Result<()> {
    see_by(rt.alloc(), tally)
}

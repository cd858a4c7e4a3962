//! What `save` tries again, and when.
use crate::tally::RowTally;
use mx_save_rules::{Wait, Waiting, delay_ms, is_retried};
use mx_types::{Code, Method};
use std::alloc::{AllocError, Global};

// rule save-retries
static TRANSIENT: [Code; 7] = [
    Code::CouldntResolveHost,
    Code::CouldntConnect,
    Code::PartialFile,
    Code::OperationTimedout,
    Code::GotNothing,
    Code::SendError,
    Code::RecvError,
];

static LASTING: [Code; 10] = [
    Code::Ok,
    Code::UnsupportedProtocol,
    Code::UrlMalformat,
    Code::WeirdServerReply,
    Code::WriteError,
    Code::OutOfMemory,
    Code::TooManyRedirects,
    Code::BadContentEncoding,
    Code::FilesizeExceeded,
    Code::TooLarge,
];

// rule save-retries
/// Each method, and whether it is tried again: a request that may change something isn't repeated.
static METHODS: [(Method, bool); 6] = [
    (Method::Get, true),
    (Method::Head, true),
    (Method::Post, false),
    (Method::Put, false),
    (Method::Delete, false),
    (Method::Options, false),
];

// rule save-retries
/// The statuses of responses that are tried again though they are whole.
static STATUSES: [u16; 6] = [408, 429, 500, 502, 503, 504];

/// Whether the codes are all tried again by that method, or none of them is.
fn all_are(codes: &[Code], method: Method, are: bool) -> bool {
    for code in codes {
        if is_retried(method, *code, 200) != are {
            return false;
        }
    }
    true
}

fn see_codes(tally: &mut RowTally) -> Result<(), AllocError> {
    for row in &METHODS {
        let (method, is_repeated) = *row;
        let are_right = all_are(&TRANSIENT, method, is_repeated);
        tally.see(are_right, method.as_str(), "transient codes\n")?;
        let are_right = all_are(&LASTING, method, false);
        tally.see(are_right, method.as_str(), "lasting codes\n")?;
        let is_right = is_retried(method, Code::Ok, 503) == is_repeated;
        tally.see(is_right, method.as_str(), "status 503\n")?;
    }
    Ok(())
}

/// Counts a row whose name has a number.
fn hold_number(
    alloc: Global,
    tally: &mut RowTally,
    name: &str,
    number: u64,
    is_right: bool,
) -> Result<(), AllocError> {
    let name = format!(in alloc; "{name} {number}")?;
    let held = tally.hold(name.as_str(), is_right);
    drop(name);
    held
}

fn see_statuses(alloc: Global, tally: &mut RowTally) -> Result<(), AllocError> {
    for status in 0..1_000u16 {
        let is_right = is_retried(Method::Get, Code::Ok, status) == STATUSES.contains(&status);
        hold_number(alloc, tally, "status", u64::from(status), is_right)?;
    }
    Ok(())
}

// rule save-retries
/// After how many tries there is which delay, in milliseconds.
static DELAYS: [(u32, u64); 8] = [
    (1, 1_000),
    (2, 2_000),
    (3, 4_000),
    (4, 8_000),
    (5, 16_000),
    (6, 32_000),
    (7, 60_000),
    (256, 60_000),
];

fn see_delays(alloc: Global, tally: &mut RowTally) -> Result<(), AllocError> {
    for row in &DELAYS {
        let (tries, delay) = *row;
        let is_right = tries >= 1 && delay_ms(tries) == delay;
        hold_number(alloc, tally, "delay", u64::from(tries), is_right)?;
    }
    Ok(())
}

/// The moment and the number of each job, out of order.
static JOBS: [(u64, u64); 4] = [(30, 1), (10, 2), (20, 3), (10, 4)];

/// Which job comes out at which moment, one after another.
static DUE: [(u64, Option<u64>); 6] = [
    (9, None),
    (10, Some(2)),
    (25, Some(4)),
    (25, Some(3)),
    (29, None),
    (30, Some(1)),
];

fn add_jobs(waiting: &mut Waiting) -> Result<(), AllocError> {
    for job in &JOBS {
        let (moment, job) = *job;
        waiting.add(Wait { moment, job })?;
    }
    Ok(())
}

fn see_waiting(
    alloc: Global,
    tally: &mut RowTally,
    waiting: &mut Waiting,
) -> Result<(), AllocError> {
    add_jobs(waiting)?;
    tally.hold("the next moment", waiting.next() == Some(10))?;
    for row in &DUE {
        let (moment, job) = *row;
        let is_right = waiting.pop_due(moment) == job;
        hold_number(alloc, tally, "due at", moment, is_right)?;
    }
    tally.hold("no next moment", waiting.next().is_none())
}

// rule save-waiting
fn see_due(alloc: Global, tally: &mut RowTally) -> Result<(), AllocError> {
    let mut waiting = Waiting::new(alloc);
    let seen = see_waiting(alloc, tally, &mut waiting);
    drop(waiting);
    seen
}

/// Goes through all of them.
pub(crate) fn see_all(alloc: Global, tally: &mut RowTally) -> Result<(), AllocError> {
    see_codes(tally)?;
    see_statuses(alloc, tally)?;
    see_delays(alloc, tally)?;
    see_due(alloc, tally)
}

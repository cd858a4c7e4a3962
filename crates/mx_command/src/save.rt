//! What `save` is asked for.
ghost use Rattle.std.specs.Prelude.{◌↔◌, IsTrue, IfSome};
ghost use Rattle.mx_command.specs.Saving.{AreSaveNumbers, IsBodyLimit};

pub(crate) mod help;
pub(crate) mod options;
pub(crate) mod read;

use mx_run_io::Options;
use mx_types::{LEAST_HISTORY, MOST_HISTORY, Method};

/// Where further URLs are read, one a line.
#[derive(Clone, Copy)]
pub enum ListSource<'a> {
    /// From that file.
    File(&'a str),
    /// From standard input.
    Standard,
}

/// The body of the requests.
#[derive(Clone, Copy)]
pub enum BodySource<'a> {
    /// The text itself.
    Text(&'a str),
    /// The bytes of that file.
    File(&'a str),
}

/// A header field of the requests: its name, and its value without blanks at its ends. Whether a request may have it isn't checked here.
#[derive(Clone, Copy)]
pub struct Header<'a> {
    pub name: &'a str,
    pub value: &'a str,
}

/// The numbers of `save`.
#[derive(Clone, Copy)]
pub struct SaveNumbers {
    /// How the URLs are fetched. `at_once` says how many transfers run, whatever the workers, and `timeout_ms` is of each try.
    pub options: Options,
    /// How many further tries there are: 0 to 255.
    pub retries: u8,
    /// The events of the multi handle: 4 to 1,048,576.
    pub history: u32,
    /// The most bytes that a body may have, where there is a limit: 1 to 9,223,372,036,854,775,807.
    pub most_bytes: Option<u64>,
}

/// The greatest limit of the bytes of a body.
pub(crate) const GREATEST_LIMIT: u64 = 9_223_372_036_854_775_807;

// rule save-limit
// Whether a body may have that limit, or there is none.
fn is_limit(most_bytes: Option<u64>) -> bool
    ensures { IsTrue result ↔ IfSome most_bytes IsBodyLimit }
{
    match most_bytes {
        Some(limit) => (1..=GREATEST_LIMIT).contains(&limit),
        None => true,
    }
}

impl SaveNumbers {
    /// Whether each number is within its limits.
    pub fn are_within(&self) -> bool
        ensures { IsTrue result ↔ AreSaveNumbers self.now }
    {
        self.options.are_within()
            && (LEAST_HISTORY..=MOST_HISTORY).contains(&self.history)
            && is_limit(self.most_bytes)
    }
}

/// What `save` does or leaves.
#[derive(Clone, Copy)]
pub struct SaveFlags {
    /// A URL whose file is there isn't asked for.
    pub skip_existing: bool,
    /// Responses whose status isn't 2xx are saved, too.
    pub content_on_error: bool,
    /// Each file is flushed to the disk before it gets its name.
    pub fsync: bool,
    /// A JSON object is printed for each URL, in place of a line.
    pub json: bool,
    /// Whether progress is shown, where that is asked for or forbidden; else it is where standard error is a terminal.
    pub progress: Option<bool>,
}

/// What `save` is asked for.
#[derive(Drop)]
pub struct Save<'a> {
    pub numbers: SaveNumbers,
    pub flags: SaveFlags,
    /// The folder that files are saved in.
    pub into: &'a str,
    /// Where further URLs are read, after those of the command line.
    pub input: Option<ListSource<'a>>,
    /// The URLs of the command line, as they were written. Where there is none, there is an input.
    pub urls: Vec<&'a str>,
    /// The method of the requests: GET, or POST with a body, unless another was given.
    pub method: Method,
    /// The header fields of the requests, in their order.
    pub headers: Vec<Header<'a>>,
    /// The body of the requests.
    pub body: Option<BodySource<'a>>,
    /// The field User-Agent of the requests.
    pub user_agent: Option<&'a str>,
}

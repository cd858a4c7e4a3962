//! What a command line asks for.
use crate::save::Save;
use crate::task::Task;
use mx_run_io::Options;
use mx_types::Method;

/// What `get` is asked for.
#[derive(Drop)]
pub struct Get<'a> {
    /// How the URLs are fetched.
    pub options: Options,
    /// The URLs, as they were written. There may be too many.
    pub urls: Vec<&'a str>,
    /// What failed is reported on standard error.
    pub explain: bool,
    /// The body of the URL is written as it comes, and nothing else. There should be one URL.
    pub body: bool,
}

/// What a command line asks for.
#[derive(Drop)]
pub enum Asked<'a> {
    /// A task over standard input.
    Task(Task),
    /// To decode the response that is read, as the answer to that method, and to report on standard error why it isn't whole.
    Explain(Method),
    /// To fetch.
    Get(Get<'a>),
    /// To save.
    Save(Save<'a>),
}

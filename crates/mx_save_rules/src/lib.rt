//! The rules of `mxfetch save`: lists of URLs, one a line, that are read as the work goes on; what is asked of each URL; after which ends a body
//! is saved, or the URL is tried again, and after how long; what is printed, a line for each URL; and the exit status.
#![tactic(auto)]

mod asking;
mod code;
mod decision;
mod end;
mod entry;
pub mod laws;
mod line;
mod list;
mod object;
mod open_line;
mod retry_rules;
mod status;
mod waiting;

pub use crate::asking::Asking;
pub use crate::code::SaveCode;
pub use crate::decision::{Decision, verdict_of};
pub use crate::end::{End, FramingWord, Transferred, Verdict};
pub use crate::entry::{Entry, MOST_LINE};
pub use crate::line::print_line;
pub use crate::list::{ListError, UrlList};
pub use crate::object::{JsonError, print_json};
pub use crate::retry_rules::{delay_ms, is_retried};
pub use crate::status::ExitStatus;
pub use crate::waiting::{Wait, Waiting};

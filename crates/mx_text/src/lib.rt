//! What the commands print: failures in words (the code, where the bytes of a response are refused and by which rule, or how much of one came),
//! the request that `mxfetch get` makes for a URL, and a line and the body of each of its transfers.
#![tactic(auto)]

mod asking;
mod code;
mod failure;
mod fetched;
mod hint;
pub mod laws;
mod line;
mod reason;
mod report;
mod run;
mod text;

pub use crate::asking::build_get;
pub use crate::code::code_words;
pub use crate::failure::{Failure, flowing_why_of, last_method, why_of};
pub use crate::fetched::Fetched;
pub use crate::hint::{Hint, body_hint, file_limit_hint, url_hint};
pub use crate::line::{
    print_body_failure, print_cause, print_failure, print_file_limit, print_words, shown,
};
pub use crate::reason::fault_words;
pub use crate::report::FailureReport;
pub use crate::run::print_get;
pub use crate::text::print_transfer;

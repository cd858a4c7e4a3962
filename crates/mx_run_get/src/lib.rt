//! `mxfetch get`: URLs are fetched by workers on threads, and what each ended with is printed.
#![tactic(auto)]

mod end;
mod error;
mod explain;
mod explained;
mod fetch;
mod getting;
mod place;
mod printed;
mod printer;
mod run;
mod taker;

pub use crate::error::FetchError;
pub use crate::explain::run_get_explained;
pub use crate::explained::print_end;
pub use crate::fetch::{MOST_URLS, fetch_all};
pub use crate::printed::told_of;
pub use crate::run::{GetEnd, run_get, try_get};
pub use mx_crew::Runtime;

//! `mxfetch get --body`: the body of one URL is written as it comes.
#![tactic(auto)]

mod body;
mod fetching;
mod run;
mod writer_sink;

pub use crate::body::{BodyEnd, fetch_body};
pub use crate::run::run_get_body;
pub use crate::writer_sink::WriterSink;

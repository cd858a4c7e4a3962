//! What the parts of `mxfetch` share: an input whose reads are counted, an output that remembers a failed
//! write, the end of a run by a fault, why one stops, and how URLs are fetched.
#![tactic(auto)]

mod faults;
mod input;
mod options;
mod output;
mod stop;

pub use crate::faults::end_with;
pub use crate::input::{Input, ReadFailed};
pub use crate::options::Options;
pub use crate::output::{Output, UNWRITTEN, WriteFailed};
pub use crate::stop::Stop;

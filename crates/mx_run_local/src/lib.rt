//! The commands of `mxfetch` without a network, over any reader and writer: `body`, a whole HTTP/1.1 response from its bytes, and `play`, a
//! script of calls on the control core of a multi handle, on one thread.
#![tactic(auto)]

mod body;
mod body_text;
mod claims;
mod explain;
mod gather;
mod player;
mod reading;
mod reply;
mod run;
mod script;
mod session;
mod text;

pub use crate::body::{MOST_BODY_READS, run_body, run_body_explained};
pub use crate::run::run_play;
pub use crate::session::MOST_SCRIPT_READS;

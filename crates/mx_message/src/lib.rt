//! The next message of a multi handle of transfers, with all that is promised of it.
#![tactic(auto)]

mod next;

pub use crate::next::{
    Message, NoMessage, next_end, next_end_within, next_message, next_message_within,
};

//! The types that every layer uses: methods, codes, events, calls and replies, limits, and the error of a refused allocation.
#![tactic(auto)]

mod call;
mod code;
mod event;
mod history;
mod limits;
mod memory;
mod method;
mod multi_code;
mod names;
mod origin;
mod reply;
mod settings;
mod work;

pub use crate::call::{Call, Receipt};
pub use crate::code::Code;
pub use crate::event::{Event, What, Who};
pub use crate::history::History;
pub use crate::limits::{
    GREATEST_TICKET, LEAST_HISTORY, MOST_HANDLES, MOST_HISTORY, MOST_SEATS, MOST_TRANSFERS,
};
pub use crate::memory::{OUT_OF_MEMORY, OutOfMemory};
pub use crate::method::{Method, ParseMethodError};
pub use crate::multi_code::MCode;
pub use crate::names::{HandleId, Ticket};
pub use crate::origin::Origin;
pub use crate::reply::{AddedHandles, Look, Reply, State};
pub use crate::settings::Settings;
pub use crate::work::{Ending, Work};

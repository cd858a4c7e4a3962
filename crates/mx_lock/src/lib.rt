//! The lock of a multi handle: what it protects, its rule, and how it is taken and released. It is generic in the work that is added and in
//! the endings that are recorded.
#![tactic(auto)]

mod claim;
mod deeds;
mod engine;
mod key_view;
mod lock;
mod rule;
mod taken;
mod ties;

pub use crate::claim::TiedClaim;
pub use crate::deeds::{
    Addition, Deed, Finishing, Pausing, Reading, Removal, Waking, lets_polls_return,
};
pub use crate::engine::{Engine, Parts};
pub use crate::key_view::{BookName, EngineName, KeyView};
pub use crate::lock::{EmptyLock, Key, Lock};
pub use crate::taken::Taken;
pub use crate::ties::{TieLog, TieMark};

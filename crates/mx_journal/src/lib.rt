//! The control core of a multi handle on one thread: its table, its queue of work, its endings and its journal.
#![tactic(auto)]

mod claim;
mod control;
mod origins;
mod pairs;
mod replies;
mod retiring;

pub use crate::claim::Claim;
pub use crate::control::Control;
pub use crate::replies::{
    AddReply, FinishReply, GiveBackReply, InfoReply, PauseReply, RemoveReply, RetireReply,
    WakeupReply,
};
pub use mx_history::{Log, Phase, Row, VecLog, definitions, laws};
pub use mx_table::Table;

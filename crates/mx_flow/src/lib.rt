//! Bodies of any size: the content of a body is handed on as it comes, and nothing of it is kept.
//!
//! `Flow` is a body. At each moment what it handed on is a prefix of the content of every body that the bytes may still become, and once
//! they are a whole body it is all of it. `Stream` is a response from its first byte on, of which the same holds: it keeps its heads. `laws`
//! has what follows from the definitions alone.
#![tactic(auto)]

mod chunks;
mod flow;
pub mod laws;
mod place;
mod stage;
mod stream;
mod stream_state;

pub use crate::flow::{BodyState, Flow};
pub use crate::stream::Stream;
pub use crate::stream_state::StreamState;

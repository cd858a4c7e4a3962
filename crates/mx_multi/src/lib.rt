//! One multi handle for many threads: a lock with a rule, seats, and the calls. It is generic in the work that is added
//! and in the endings that are recorded.
//!
//! A caller, with work and endings of its own (`Job`, `End`); `mx_multi_tests` runs it:
//!
//! ```text
//! let (multi, mut seats, mut workers) = Multi::<Job, End>::open(rt, rt.alloc(), limits)?;
//! let mut seat = multi.shared().at(seats.pop()?);
//! let mut worker = multi.shared().at(workers.pop()?);
//! let _added = seat.add(rt, HandleId(1), Job)?;
//! let (claim, _work) = worker.claim(rt)?;
//! let _recorded = worker.finish(rt, claim, End::new(Code::Ok, 5))?;
//! let _woken = seat.poll(rt)?;
//! let message = seat.info_read(rt)?;
//! multi.close(rt);
//! ```
//!
//! Each `?` stands for what a caller does where a call is refused. A seat and a worker's seat may go to threads of their own.
#![tactic(auto)]

mod founding;
mod laws;
mod meet;
mod multi;
mod open;
mod owned;
mod progress;
mod retire;
mod seat;
mod seated;

pub use crate::laws::run_two;
pub use crate::multi::{HandleList, Multi, WrongSeat};
pub use crate::open::{Limits, MOST_CONNECTS, OpenError};
pub use crate::owned::OwnedMulti;
pub use crate::progress::progress_never_falls;
pub use crate::retire::{Handle, Refusal, Retiring};
pub use crate::seat::{Application, AtWork, HistoryUse, Seat, SeatOf, WorkerSeat};
pub use crate::seated::Seated;
pub use mx_board::Progress;

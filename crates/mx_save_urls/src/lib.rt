//! A run that saves: its URLs are read, added at a desk as there is room, and tried again, and what each ended with is saved and printed.
#![tactic(auto)]

mod adding;
mod feed;
mod plan;
mod requests;
mod run;
mod saving;
mod timer;
mod turns;
mod watch;
mod work;

pub use crate::feed::{Ahead, Feed};
pub use crate::plan::{MOST_PENDING, Plan};
pub use crate::saving::{Ended, save_all};
pub use crate::timer::Timer;
pub use crate::watch::{Nobody, Standing, Watch};
pub use crate::work::Work;

//! How a run fetches.
ghost use Rattle.std.specs.Prelude.{◌≡◌, true};
ghost use Rattle.mx_multi.specs.Opening.{are_within as are_limits_within};
ghost use Rattle.mx_save_urls.specs.Plans.{IsPlan, IsRoomOf, may_fill};

use mx_fetch::Room;
use mx_multi::Limits;
use mx_run_io::Options;

// rule save-places: At most 4,096 URLs of a run have been read and have no end yet: those that run, and those that wait to be tried again.
// While there are so many no further one is read.
/// The greatest number of URLs that were read and have no end yet.
pub const MOST_PENDING: usize = 4_096;

/// How the URLs of a run are fetched.
#[derive(Clone, Copy)]
pub struct Plan {
    /// The workers, how many transfers run at a time (`at_once`, whatever the workers), and the limits of each.
    pub options: Options,
    /// The events that the history of a multi handle has room for: 4 to 1,048,576.
    pub history: u32,
}

impl Plan {
    /// What a multi handle is opened with: a seat that adds, and as many workers as the plan has.
    pub fn limits(&self) -> Limits
        requires { IsPlan self.now }
        ensures value { result ≡ record { seats = 1; workers = self.now.options.workers; history = self.now.history; max_connects = self.now.options.max_connects } }
        ensures within { are_limits_within result ≡ true }
    {
        Limits {
            seats: 1,
            workers: self.options.workers,
            history: self.history,
            max_connects: self.options.max_connects,
        }
    }

    /// Whether a history may be full before all of so many URLs have ended, each of which has so many further tries: where it isn't known how
    /// many URLs there are, or where there is no room for the four events of each try, its addition, its end, the reading of its message and
    /// its removal.
    pub fn may_fill(self, urls: Option<u64>, retries: u8) -> bool
        ensures { result ≡ may_fill self.history urls retries }
    {
        let Some(urls) = urls else {
            return true;
        };
        let each = 4 * (1 + u64::from(retries));
        u64::from(self.history) < urls.saturating_mul(each)
    }

    // rule save-places
    /// The same as `limits`, with numbers for as many URLs as may have no end yet, of which as many are fetched at a time as the plan says.
    pub fn room(&self) -> Room
        requires { IsPlan self.now }
        ensures limits { IsRoomOf self.now result }
        ensures numbers { result.numbers ≡ MOST_PENDING }
        ensures within { are_limits_within result.limits ≡ true }
    {
        Room {
            limits: self.limits(),
            numbers: MOST_PENDING,
            width: usize::from(self.options.at_once),
        }
    }
}

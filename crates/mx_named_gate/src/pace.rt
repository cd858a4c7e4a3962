//! How many links were opened to an endpoint of late.
ghost use Rattle.std.specs.Prelude.{◌≡◌, ◌+◌, ◌<◌, nat_le};
ghost use Rattle.mx_named_gate.specs.Pace.{allows, first_pace, is_renewed, opens_one, passes, place_of, places, waits};

use mx_request::Endpoint;
use std::marker::Model;

// How many links are opened to an endpoint at a time.
const MOST_NEW: u8 = 4;

/// After a wait of so many milliseconds so many more may be opened.
pub(crate) const VAIN_MS: u32 = 2;

// After so many milliseconds so many more may be opened in any case.
const RENEWAL_MS: u64 = 16;

// How many places the table has. Endpoints that share one share what may be opened.
const PLACES: usize = 64;

// The place of an endpoint.
fn place_of(endpoint: &Endpoint) -> usize
    ensures place { result ≡ place_of endpoint.now }
    ensures within { result < places }
{
    let mut sum = usize::from(endpoint.port) % PLACES;
    for byte in endpoint.host.as_bytes() {
        sum = (sum * 31 + usize::from(*byte)) % PLACES;
    }
    sum
}

// Whether so many milliseconds have passed from one moment to another.
fn has_passed(milliseconds: u64, from: u64, to: u64) -> bool
    ensures { result ≡ nat_le (from + milliseconds) to }
{
    match from.checked_add(milliseconds) {
        Some(end) => end <= to,
        None => false,
    }
}

// rule gate-pace
// Whether links are counted anew from the moment `now` on.
fn is_renewed(has_waited: bool, moment: u64, since: u64, now: u64) -> bool
    ensures { result ≡ is_renewed has_waited moment since now }
{
    (has_waited && has_passed(u64::from(VAIN_MS), moment, now))
        || has_passed(RENEWAL_MS, since, now)
}

/// How many links were opened to the endpoints of each place. Contracts see that, the moments, and whether the gate has waited.
#[derive(Drop)]
pub(crate) struct Pace {
    moment: u64,
    since: u64,
    has_waited: bool,
    opened: [u8; PLACES],
}

impl Model for Pace {
    ghost use Rattle.mx_named_gate.specs.Pace.{Pace as PaceValue};

    ghost Value = { PaceValue };

    ghost view = { λ p. record { moment = p.moment; since = p.since; has_waited = p.has_waited; opened = p.opened } };
}

impl Pace {
    /// None was opened.
    pub fn new() -> Pace
        ensures { result ≡ first_pace }
    {
        Pace {
            moment: 0,
            since: 0,
            has_waited: false,
            opened: [0; PLACES],
        }
    }

    /// The clock goes on.
    pub fn pass(&mut self, moment: u64)
        ensures { self.new ≡ passes moment self.old }
    {
        if is_renewed(self.has_waited, self.moment, self.since, moment) {
            self.since = moment;
            self.opened = [0; PLACES];
        }
        self.moment = moment;
        self.has_waited = false;
    }

    /// The gate has waited.
    pub fn wait(&mut self)
        ensures { self.new ≡ waits self.old }
    {
        self.has_waited = true;
    }

    // rule gate-pace
    /// Whether one more may be opened.
    pub fn allows(&self, endpoint: &Endpoint) -> bool
        ensures { result ≡ allows endpoint.now self.now }
    {
        self.opened[place_of(endpoint)] < MOST_NEW
    }

    /// One was opened.
    pub fn note(&mut self, endpoint: &Endpoint)
        ensures { self.new ≡ opens_one endpoint.now self.old }
    {
        let place = place_of(endpoint);
        if self.opened[place] < MOST_NEW {
            self.opened[place] += 1;
        }
    }
}

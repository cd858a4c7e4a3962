//! Who made how many events.
ghost use Rattle.std.specs.Prelude.{◌≡◌, ◌<◌, ◌+◌, if◌then◌else◌, true};
ghost use Rattle.mx_history.specs.History.{is_maker, same_maker};
ghost use Rattle.mx_history.specs.Table.{count_of, count_one, counts_after, no_counts};
ghost use Rattle.mx_types.specs.declared.event.Who.{Who};

use mx_types::{MOST_SEATS, Who};
use std::marker::Model;

/// How many events each seat and each worker made, each held at the greatest `u32`.
#[derive(Drop)]
pub struct MakerCounts {
    seats: [u32; MOST_SEATS],
    workers: [u32; MOST_SEATS],
}

impl Model for MakerCounts {
    ghost use Rattle.mx_history.specs.Table.{Counts};

    ghost Value = { Counts };

    ghost view = { λ c. record { seats = c.seats; workers = c.workers } };
}

impl MakerCounts {
    /// None of any maker.
    pub fn new() -> MakerCounts
        ensures zero { (w : Who) → is_maker w ≡ true → count_of w result ≡ 0 }
        ensures none { result ≡ no_counts }
    {
        MakerCounts {
            seats: [0; MOST_SEATS],
            workers: [0; MOST_SEATS],
        }
    }

    /// The same counts again.
    pub fn copied(&self) -> MakerCounts
        ensures { result ≡ self.now }
    {
        MakerCounts {
            seats: self.seats,
            workers: self.workers,
        }
    }

    /// How many events the maker made.
    pub fn get(&self, who: Who) -> u32
        requires { is_maker who ≡ true }
        ensures { result ≡ count_of who self.now }
    {
        match who {
            Who::Seat(n) => self.seats[n as usize],
            Who::Worker(n) => self.workers[n as usize],
        }
    }

    /// One more event of the maker, where it is one and its count can rise.
    pub fn count(&mut self, who: Who)
        ensures { self.new ≡ counts_after who self.old }
    {
        match who {
            Who::Seat(n) => count_one(&mut self.seats, n),
            Who::Worker(n) => count_one(&mut self.workers, n),
        }
    }
}

fn count_one(counts: &mut [u32; MOST_SEATS], n: u8)
    ensures { counts.new ≡ count_one n counts.old }
{
    let at = n as usize;
    if at < MOST_SEATS {
        if counts[at] < u32::MAX {
            counts[at] += 1;
        }
    }
}

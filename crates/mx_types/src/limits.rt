//! The limits of a multi handle. libcurl has none of them; they are the engine's own.

/// The most handles that are added at one time, and so the number of slots.
pub const MOST_HANDLES: usize = 256;

/// The fewest events that a history may have room for: one addition needs four.
pub const LEAST_HISTORY: u32 = 4;

/// The most events that a history may have room for.
pub const MOST_HISTORY: u32 = 1_048_576;

/// The most seats of a kind: of application threads, and of workers.
pub const MOST_SEATS: usize = 16;

/// The most transfers that a worker holds at one time.
pub const MOST_TRANSFERS: usize = 64;

/// The greatest ticket: after it `add` is refused.
pub const GREATEST_TICKET: u32 = 4_294_967_294;

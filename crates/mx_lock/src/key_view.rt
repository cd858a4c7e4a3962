use mx_types::{Event, Ticket};
use std::collections::LinkedList;

/// The name of a list that only grows. It exists in contracts alone.
pub struct BookName {
    pub number: u64,
    pub log_name: u64,
    pub cells_name: u64,
}

/// Which engine: its journal, its list of ties, and what it was opened with; the last two are the base of its tickets, and how many events
/// were kept at the last retiring. It exists in contracts alone.
pub struct EngineName {
    pub journal: BookName,
    pub ties: BookName,
    pub history: u64,
    pub first: u64,
    pub from: u64,
}

/// What a key of the lock knows. It exists in contracts alone.
pub struct KeyView {
    /// The number of the key.
    pub number: u64,
    /// The number of the next key where this one may make keys, else 0.
    pub next: u64,
    /// Whether it knows which engine it is.
    pub told: bool,
    pub engine: EngineName,
    /// Whether it has taken the engine.
    pub holding: bool,
    /// The journal that it found there, and the tickets that were claimed.
    pub held: LinkedList<Event>,
    pub found: LinkedList<Ticket>,
    /// The journal that it left last.
    pub seen: LinkedList<Event>,
    /// The tickets that it has claimed.
    pub claims: LinkedList<Ticket>,
}

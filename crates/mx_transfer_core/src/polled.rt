//! What a poll of a transfer comes to.
use mx_chain::Outcome;
use mx_sink::{Delivery, Held};

/// The result of a poll, for who polls transfers without a task of their own.
#[derive(Drop)]
pub enum Polled<D: Delivery = Held> {
    /// It waits: for a link, for the one that it has, or for its deadline.
    Waits,
    /// It asks for another poll at once.
    Asks,
    /// It has ended.
    Ended(Outcome<D>),
}

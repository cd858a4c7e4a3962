//! How a run leaves a desk.
/// How a run left its desk.
#[derive(Clone, Copy)]
pub enum Turned {
    /// All requests were added and have ended: nothing is added there.
    AllEnded,
    /// The history of the multi handle has no room for the next request, which waits, and nothing is added there.
    HistoryFull,
    /// The history has no room for the next request, which waits, while a transfer may still be added there.
    Held,
}

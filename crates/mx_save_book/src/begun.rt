//! What comes of a part that is to be made.
use mx_sink::Delivery;

/// What comes of a URL that waits, for whose body a part is to be made.
#[derive(Drop)]
pub enum Begun<D: Delivery> {
    /// A delivery for its transfer, and the number of its part.
    Spool(D, u64),
    /// It has ended, since the part couldn't be made.
    Ended,
    /// It waits for a further try, for so many milliseconds.
    Waits(u64),
    /// It waits for the same try: too many files are open now, some of them for transfers that are added.
    Busy,
}

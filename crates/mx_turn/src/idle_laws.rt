//! What holds of every cache. Each law is a function that does nothing: its contract is the law.
ghost use Rattle.mx_turn.specs.IdleLaws.{TakeGivesWhatWasPut};

/// A take that comes right after a put of the same endpoint gives the link that was put, and leaves all others, where
/// the limit is at least 1.
pub fn take_gives_what_was_put<L>()
    ensures { TakeGivesWhatWasPut L }
{}

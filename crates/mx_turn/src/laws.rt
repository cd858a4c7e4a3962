//! What holds of every turn and of every run of a worker. Each law is a function that does nothing: its contract is the law.
ghost use Rattle.mx_turn.specs.Laws.{AtMost64, ClaimsNoneOnceStopping, EachClaimIsAccounted, EachIsLookedAt, HoldsWhatHasStarted};

use mx_link::Link;

/// By the time that a worker's run is over each claim that it made has come to one end: it was recorded, or stale, or given back, or gone,
/// or its seat was another handle's.
pub fn each_claim_is_accounted<L: Link>()
    ensures { EachClaimIsAccounted L.history L.token_of }
{}

/// A worker has at most 64 transfers and unrecorded ends in flight.
pub fn at_most_64<L: Link>()
    ensures { AtMost64 L.history L.token_of }
{}

/// In each turn a worker looks once at each transfer that it holds, and at no other.
pub fn each_is_looked_at<L: Link>()
    ensures { EachIsLookedAt L.history L.token_of }
{}

/// A worker that was told to stop claims nothing more.
pub fn claims_none_once_stopping<L: Link>()
    ensures { ClaimsNoneOnceStopping L.history L.token_of }
{}

/// A worker that is told to stop gives back what has not started.
pub fn holds_what_has_started<L: Link>()
    ensures { HoldsWhatHasStarted L.history L.token_of }
{}

//! What holds of every script, and of every history of answers. Each law is a function that does nothing: its contract
//! is the law.

ghost use Rattle.mx_link.specs.Laws.{ReadsLoseNothing, ReadsGiveTheScript, FaultsAreCounted, WaitsAreCounted};

/// Whatever the lengths of the buffers are, what the reads of a script give, and after it what is left, is all that
/// was planned: nothing is lost, added or moved.
pub fn reads_lose_nothing()
    ensures { ReadsLoseNothing }
{}

/// Whatever the lengths of the buffers are, the reads of a script, joined, give back its bytes up to the first entry
/// that isn't bytes: a prefix of these so far, and all of them once a read answers something else.
pub fn reads_give_the_script()
    ensures { ReadsGiveTheScript }
{}

/// `failures` rises in a call only where it answers a fault, and at each fault by one, until it is 2^64 - 1.
pub fn faults_are_counted()
    ensures { FaultsAreCounted }
{}

/// The calls that would have waited have a count of their own, for contracts alone: it rises by one at each, and at no
/// other call.
pub fn waits_are_counted()
    ensures { WaitsAreCounted }
{}

//! What holds of every list of addresses, and of every list of answers. Each law is a function that does nothing: its contract is the law.
ghost use Rattle.mx_gate.specs.Laws.{FirstIsChosen};
ghost use Rattle.mx_gate.specs.Ready.{WaitsTellNothing};

/// The chosen address is in the list, with no IPv4 address before it; one that isn't IPv4 is the first of a list without any. Only from the
/// empty list none is chosen.
pub fn first_is_chosen()
    ensures { FirstIsChosen }
{}

/// Two lists of answers that differ only in those that a call would have waited give and take the same bytes, and have as many faults.
pub fn waits_tell_nothing()
    ensures { WaitsTellNothing }
{}

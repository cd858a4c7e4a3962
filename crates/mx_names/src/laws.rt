//! What holds of every host, and of every table. Each law is a function that does nothing: its contract is the law.
ghost use Rattle.mx_names.specs.Laws.{BracketsAreTaken, FailuresAreTold};

/// A host in brackets loses these, whatever is between them; any other host stays as it is.
pub fn brackets_are_taken()
    ensures { BracketsAreTaken }
{}

/// Who asks for a host since a moment gets the failure of a lookup that ended since, less than 60 seconds ago, and begins no other.
pub fn failures_are_told()
    ensures { FailuresAreTold }
{}

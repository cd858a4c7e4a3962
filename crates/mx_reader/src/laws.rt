//! Laws of the definitions. The functions do nothing: a call gives its caller's proof the law.

ghost use Rattle.mx_reader.specs.Laws.{HasOneJudgement, WholeHasAll, MoreIsUndecided, CodesAreListed};

/// The bytes alone decide: of one method and limit they have one judgement, however they were cut into pieces.
pub fn bytes_decide()
    ensures { HasOneJudgement }
{}

/// A whole response has all its content: the bytes at its parts where it is held, else what was handed on.
pub fn whole_has_all()
    ensures { WholeHasAll }
{}

/// More is to come where nothing is decided, and the bytes have not ended.
pub fn more_is_undecided()
    ensures { MoreIsUndecided }
{}

/// A fault has one of the codes that the bytes of an exchange can give.
pub fn codes_are_listed()
    ensures { CodesAreListed }
{}

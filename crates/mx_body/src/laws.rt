//! Laws of the definitions that the contract of `decode_whole` rests on. The functions do nothing: a call
//! gives its caller's proof the law.

ghost use Rattle.mx_types.specs.declared.method.Method.{Method};
ghost use Rattle.mx_head.specs.Laws.{HasOneCodePerLine, ShortestComesFirst, FirstIsShortest, FirstHasShortest, HasOneFirst};
ghost use Rattle.mx_body.specs.Causes.{cause_code, cause_line, Meets};
ghost use Rattle.mx_body.specs.Laws.{HasOneVerdict, HasOneResponse, HasOneStatus, HasOneLocation, CompleteHasStatus, FaultStaysSame, FaultIsHopeless, CompleteStaysSame, ResponseStaysSame, ResponsesArePrefixFree, ResponseMeetsNothing, CompleteHasContent};

/// An input has one verdict: it begins with one response at most, and no two verdicts hold for it.
pub fn one_verdict()
    ensures verdict { HasOneVerdict }
    ensures response { HasOneResponse }
{}

/// An input has one status, and a complete response's is the verdict's.
pub fn one_status()
    ensures one { HasOneStatus }
    ensures complete { CompleteHasStatus }
{}

/// An input has one location at most.
pub fn one_location()
    ensures { HasOneLocation }
{}

/// The fault of an input that hasn't ended is the same whatever follows, and no continuation begins with a
/// response. So bytes can be decoded as they come, however they are cut.
pub fn fault_stays_same()
    ensures same { FaultStaysSame }
    ensures hopeless { FaultIsHopeless }
{}

/// A response that doesn't need the end of the input is the same whatever follows.
pub fn complete_stays_same()
    ensures same { CompleteStaysSame }
    ensures response { ResponseStaysSame }
{}

/// The fault is that of the shortest prefix that meets a cause, and of the upper line's where it meets two.
/// Causes in one line of the table have one code.
pub fn first_fault_is_shortest()
    ensures one_code { HasOneCodePerLine cause_code cause_line }
    ensures one { (m : Method) → HasOneFirst cause_code cause_line (Meets m) }
    ensures shortest_first { (m : Method) → ShortestComesFirst cause_code cause_line (Meets m) }
    ensures first_shortest { (m : Method) → FirstIsShortest cause_code cause_line (Meets m) }
    ensures has_shortest { (m : Method) → FirstHasShortest cause_code cause_line (Meets m) }
{}

/// The parts of a complete response are not empty and are in order within it. Their bytes, joined, are its content.
pub fn parts_are_content()
    ensures { CompleteHasContent }
{}

/// A response that doesn't need the end of the input is no proper prefix of another.
pub fn responses_are_prefix_free()
    ensures { ResponsesArePrefixFree }
{}

/// No prefix of a response meets a cause of a fault.
pub fn response_meets_nothing()
    ensures { ResponseMeetsNothing }
{}

//! Laws of the definitions that the contracts of this crate rest on. The functions do nothing: a call gives
//! its caller's proof the law.

ghost use Rattle.mx_head.specs.Faults.{head_code, head_line, MeetsAtHead};
ghost use Rattle.mx_head.specs.Laws.{HasOneCodePerLine, ScanStaysTrue, ShortestComesFirst, FirstIsShortest, FirstHasShortest, HasOneFirst, HasOneStep, HasOneHead, HeadsArePrefixFree, HeadMeetsNothing, StepStaysSame, SummaryDecides};

/// An input has one answer of `read_head`.
pub fn one_step()
    ensures { HasOneStep }
{}

/// A head and a fault stay the same whatever follows the input.
pub fn step_stays_same()
    ensures { StepStaysSame }
{}

/// What a scan has seen of an input stays true with whatever bytes follow.
pub fn scan_stays_true()
    ensures { ScanStaysTrue }
{}

/// What is kept of a head decides as the head itself does how its body ends, and whether its connection is kept.
pub fn summary_decides()
    ensures { SummaryDecides }
{}

/// An input begins with one head at most, and no head is a proper prefix of another.
pub fn one_head()
    ensures one { HasOneHead }
    ensures prefix_free { HeadsArePrefixFree }
{}

/// Where an input begins with a head, no prefix of it meets a cause of a fault. So it makes no difference
/// whether the head or the causes are tried first.
pub fn head_meets_nothing()
    ensures { HeadMeetsNothing }
{}

/// The fault that comes first is that of the shortest prefix that meets a cause, and of two causes in one
/// line of the table each has the same code.
pub fn first_fault_is_shortest()
    ensures one_code { HasOneCodePerLine head_code head_line }
    ensures one { HasOneFirst head_code head_line MeetsAtHead }
    ensures shortest_first { ShortestComesFirst head_code head_line MeetsAtHead }
    ensures first_shortest { FirstIsShortest head_code head_line MeetsAtHead }
    ensures has_shortest { FirstHasShortest head_code head_line MeetsAtHead }
{}

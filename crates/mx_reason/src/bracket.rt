//! The shortest prefix of a wire that is refused.
ghost use Rattle.std.specs.Prelude.{◌≡◌, ◌-◌, ◌<◌, ◌≤◌, false, length};
ghost use Rattle.mx_body.specs.Decision.{IsVerdict};
ghost use Rattle.mx_body.specs.declared.verdict.Verdict.TheVariants as verdict;
ghost use Rattle.mx_reason.specs.Reasons.{DecidesAt};
ghost use Rattle.mx_reason.specs.Steps.{IsStanding, IsBracket};

use mx_body::{Verdict, decode_whole};
use mx_types::{Code, Method};
use std::alloc::Global;

/// What bytes decide that may be followed by others.
#[derive(Clone, Copy)]
pub(crate) enum Standing {
    /// Nothing yet.
    Open,
    Fault(Code),
    /// They begin with a whole response.
    Whole,
}

/// What the bytes decide. Memory for the parts of a whole response may be refused: it is whole all the same.
pub(crate) fn judge(alloc: Global, method: Method, bytes: &[u8]) -> Standing
    ensures { IsStanding method bytes.now result }
{
    match decode_whole(alloc, method, bytes, false) {
        Ok(Verdict::More) => Standing::Open,
        Ok(Verdict::Fault(code)) => Standing::Fault(code),
        _ => Standing::Whole,
    }
}

/// How many bytes of a wire decide nothing yet, and a greater number that is refused.
#[derive(Clone, Copy)]
struct Bracket {
    undecided: usize,
    decided: usize,
}

impl Bracket {
    /// No bytes, and all of them.
    fn new(method: Method, wire: &[u8], code: Code) -> Bracket
        requires { IsVerdict method wire.now false (verdict.Fault code) }
        ensures { IsBracket method wire.now code result }
    {
        Bracket {
            undecided: 0,
            decided: wire.len(),
        }
    }

    /// The same with this number for one of them, if it is between.
    fn narrow(self, alloc: Global, method: Method, wire: &[u8], code: Code, probe: usize) -> Bracket
        requires { IsBracket method wire.now code self }
        ensures bracket { IsBracket method wire.now code result }
        ensures narrower { self.undecided < probe → probe < self.decided → result.decided - result.undecided < self.decided - self.undecided }
    {
        if probe <= self.undecided || self.decided <= probe {
            return self;
        }
        match judge(alloc, method, &wire[..probe]) {
            Standing::Open => Bracket {
                undecided: probe,
                decided: self.decided,
            },
            _ => Bracket {
                undecided: self.undecided,
                decided: probe,
            },
        }
    }
}

/// After how many bytes the wire is refused, which is looked for at the guess first, and then by halves.
pub(crate) fn shortest(
    alloc: Global,
    method: Method,
    wire: &[u8],
    code: Code,
    guess: usize,
) -> usize
    requires { IsVerdict method wire.now false (verdict.Fault code) }
    ensures { DecidesAt method wire.now result code }
{
    let whole = Bracket::new(method, wire, code);
    let above = whole.narrow(alloc, method, wire, code, guess);
    let mut bracket = above.narrow(alloc, method, wire, code, guess.saturating_sub(1));
    while bracket.decided - bracket.undecided > 1 {
        let half = bracket.undecided + (bracket.decided - bracket.undecided) / 2;
        bracket = bracket.narrow(alloc, method, wire, code, half);
    }
    bracket.decided
}

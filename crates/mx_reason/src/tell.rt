//! Why the bytes of an exchange are no whole response.
ghost use Rattle.std.specs.Prelude.{false, IfSome, IfNone};
ghost use Rattle.mx_body.specs.Decision.{IsVerdict};
ghost use Rattle.mx_body.specs.declared.verdict.Verdict.TheVariants as verdict;
ghost use Rattle.mx_reason.specs.Reasons.{IsReason, BeginsWithAny};

use crate::bracket::{Standing, judge, shortest};
use crate::cut::cut_of;
use crate::fault::fault_of;
use crate::guess::guess;
use crate::reason::{Defect, Reason};
use mx_types::{Code, Method};
use std::alloc::Global;

/// Why a wire is refused with that code.
fn refusal(alloc: Global, method: Method, wire: &[u8], code: Code) -> Reason
    requires { IsVerdict method wire.now false (verdict.Fault code) }
    ensures { IsReason method wire.now result }
{
    let at = shortest(alloc, method, wire, code, guess(method, wire));
    Reason {
        at,
        what: Defect::Fault(fault_of(method, &wire[..at], code)),
    }
}

// rule reason-refused
/// Why the bytes that the exchange for a request of that method gave aren't a whole response. `None` where they begin with one.
///
/// Where they are refused, whatever follows, it says after how many bytes that is decided, by the fault of `mx_body`'s `decode_whole`, and
/// what is wrong at the end of these. Where nothing is decided, it says where they end.
///
/// No clause bounds the time. It tries a likely place first, then bisects, and each step decides anew over all bytes up to its place.
pub fn reason_of(alloc: Global, method: Method, wire: &[u8]) -> Option<Reason>
    ensures some { IfSome result (IsReason method wire.now) }
    ensures none { IfNone result (BeginsWithAny method wire.now) }
{
    match judge(alloc, method, wire) {
        Standing::Whole => None,
        Standing::Open => Some(Reason {
            at: wire.len(),
            what: Defect::Cut(cut_of(method, wire)),
        }),
        Standing::Fault(code) => Some(refusal(alloc, method, wire, code)),
    }
}

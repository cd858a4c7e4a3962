//! Where bytes end that decide nothing.
ghost use Rattle.std.specs.Prelude.{false};
ghost use Rattle.mx_body.specs.Decision.{IsVerdict};
ghost use Rattle.mx_body.specs.declared.verdict.Verdict.TheVariants.{More};
ghost use Rattle.mx_reason.specs.Cuts.{IsCutIn};

use crate::reason::Cut;
use crate::walk::{Walked, walk};
use mx_head::{Framing, framing};
use mx_types::Method;

// rule reason-truncated
/// Where the wire ends.
pub(crate) fn cut_of(method: Method, wire: &[u8]) -> Cut
    requires { IsVerdict method wire.now false More }
    ensures { IsCutIn method wire.now result }
{
    match walk(wire) {
        Walked::Open { .. } => Cut::Head,
        Walked::Refused { .. } => unreachable!(),
        Walked::Final { head, end } => match framing(method, &head) {
            Ok(Framing::Counted(of)) => Cut::Counted {
                came: wire.len() - end,
                of,
            },
            Ok(Framing::Chunked) => Cut::Chunked,
            Ok(Framing::Close) => Cut::Close,
            Ok(Framing::Empty) => unreachable!(),
            Err(_) => unreachable!(),
        },
    }
}

//! What a chain ends with.
ghost use Rattle.std.specs.Prelude.{◌≡◌, ◌++◌, true, length};
ghost use Rattle.mx_body.specs.Decision.{HasHeads, HasStatus};
ghost use Rattle.mx_exchange.specs.Hops as hop;
ghost use Rattle.mx_chain.specs.Outcomes.{IsChainEnd, hops_of, limit_by, outcome_of, settled, is_outcome_code};
ghost use Rattle.mx_types.specs.declared.code.Code.TheVariants as code;

use crate::followed::{Hops, heads_of};
use crate::outcomes::Outcome;
use mx_exchange::Hop;
use mx_sink::{Delivery, Window};
use mx_types::Code;
use std::marker::Model;

// rule redirect-outcome
/// What a chain ended with: its hops, of which each but the last was followed, and its code. The response is the last hop's: it is held, or
/// its content was handed on. For contracts alone it has what was handed on.
pub struct ChainEnd {
    earlier: Hops,
    last: Hop,
    code: Code,
}

// Written out, and not derived: a crate that drops one cites its proof.
impl Drop for ChainEnd {
    fn drop(self) {
        let ChainEnd {
            earlier,
            last,
            code: _,
        } = self;
        drop(earlier);
        drop(last);
    }
}

impl Model for ChainEnd {
    ghost use Rattle.mx_chain.specs.Outcomes.{OutcomeValue, IsChainEnd, outcome_of};

    ghost Value = { OutcomeValue };

    ghost view = { λ o. outcome_of o.earlier.heads_alone o.earlier.all o.last o.code };

    ghost invariant = { λ o. IsChainEnd (outcome_of o.earlier.heads_alone o.earlier.all o.last o.code) };
}

impl ChainEnd {
    pub(crate) fn new(earlier: Hops, last: Hop, code: Code) -> ChainEnd
        requires { IsChainEnd (outcome_of earlier.heads_alone earlier.all last code) }
        ensures { result ≡ outcome_of earlier.heads_alone earlier.all last code }
    {
        ChainEnd {
            earlier,
            last,
            code,
        }
    }

    /// What holds of the end of every chain. It does nothing: a call gives its caller's proof the law.
    pub fn know(&self)
        ensures { IsChainEnd self.now }
    {
        // proof: what holds of the end of a chain
        let _code = self.code;
    }

    /// How many hops it has: one more than redirects were followed.
    pub fn hops(&self) -> usize
        ensures { result ≡ length (hops_of self.now) }
    {
        self.earlier.len() + 1
    }

    /// The code: the last hop's, or why no other followed it. Where it is `Ok`, the response is whole, and the bytes at its parts, joined,
    /// and then what was handed on are its content: one of the two is empty.
    pub fn code(&self) -> Code
        ensures code { result ≡ self.now.code }
        ensures whole { result ≡ code.Ok → hop.IsWhole self.now.last }
        ensures body { result ≡ code.Ok → hop.HasBody self.now.last }
        ensures handed { result ≡ code.Ok → self.now.content ≡ self.now.last.content }
        ensures listed { is_outcome_code result self.now.last.limit ≡ true }
    {
        let ended = self.last.code();
        // proof: the code is the last hop's
        let _ended = ended;
        self.code
    }

    /// The status of the last hop's final head, 0 where none was read.
    pub fn status(&self) -> u16
        ensures status { result ≡ self.now.status }
        ensures wire { HasStatus self.now.wire result }
    {
        self.last.status()
    }

    /// The heads of the last hop's response: its interim heads and its final head (RFC 9112, section 2.1), and no bytes where it has no
    /// final head.
    pub fn heads(&self) -> &[u8]
        ensures { HasHeads self.now.wire result.now }
    {
        heads_of(&self.last)
    }

    /// What its transfer ended with, by move: with its delivery, and the content that the delivery had no room for, in order.
    pub fn deliver<D: Delivery>(self, delivery: D, rest: Window) -> Outcome<D>
        requires limit { self.last.limit ≡ limit_by (D.flows delivery) }
        requires content { self.content ≡ D.handed delivery ++ rest.items }
        ensures { result ≡ settled (D.fault delivery) self }
    {
        let ChainEnd {
            earlier,
            last,
            code,
        } = self;
        Outcome {
            earlier,
            last,
            code,
            delivery,
            rest,
        }
    }
}

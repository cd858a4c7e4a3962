//! What a worker has claimed.
ghost use Rattle.std.specs.Prelude.{◌≡◌, IfSome};
ghost use Rattle.mx_types.specs.Origin.{no_request};

use crate::sample::Job;
use mx_lock::{TieMark, TiedClaim};
use mx_types::OutOfMemory;
use std::alloc::Global;
use std::marker::Model;

/// Claims on additions of this crate's work, of one multi handle, in the order in which they came. Contracts see of which list of ties
/// they are.
#[derive(Drop)]
pub struct Hand {
    /// For contracts alone: it has no size.
    of: TieMark,
    claims: Vec<TiedClaim<Job>>,
}

impl Model for Hand {
    ghost use Rattle.std.specs.List.{All};
    ghost use Rattle.logbook.specs.Pages.{Book};
    ghost use Rattle.mx_multi_tests_base.specs.Hands.{IsOf};

    ghost Value = { Book };

    ghost view = { λ h. h.of.book };

    ghost invariant = { λ h. All (IsOf h.of.book) h.claims.items };
}

impl Hand {
    /// No claim yet.
    pub fn new(alloc: Global, of: TieMark) -> Hand
        ensures { result ≡ of.book }
    {
        Hand {
            of,
            claims: Vec::new(alloc),
        }
    }

    /// Keeps a claim, after the others.
    #[tactic(auto, using(crate::proofs::Hands::kept_more))]
    pub fn keep(&mut self, claim: TiedClaim<Job>) -> Result<(), OutOfMemory>
        requires of { claim.of ≡ self.old }
        requires origin { claim.origin ≡ no_request }
        ensures same { self.new ≡ self.old }
    {
        self.claims.push(claim)?;
        Ok(())
    }

    /// Takes the last claim.
    pub fn take(&mut self) -> Option<TiedClaim<Job>>
        ensures same { self.new ≡ self.old }
        ensures of { IfSome result (λ c. c.of ≡ self.old) }
        ensures origin { IfSome result (λ c. c.origin ≡ no_request) }
    {
        let claim = self.claims.pop()?;
        Some(claim)
    }

    /// The claims, in the order in which they came.
    pub fn claims(&self) -> &[TiedClaim<Job>] {
        self.claims.as_slice()
    }
}

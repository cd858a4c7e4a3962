//! What a URL ended with, with its truth.
ghost use Rattle.std.specs.Prelude.{◌≡◌};
ghost use Rattle.mx_text.specs.Fetched.{fetched_of};
ghost use Rattle.mx_text.specs.declared.fetched.Fetched.TheVariants as fetched;
ghost use Rattle.mx_run_get.specs.Asked.{IsEnd};

use mx_text::Fetched;
use mx_transfer_core::Outcome;
use mx_types::Code;
use std::alloc::Global;
use std::marker::Model;

/// What a URL ended with. Contracts see it, and know that it is an outcome where a transfer ended.
#[derive(Drop)]
pub struct UrlEnd {
    fetched: Fetched,
}

impl Model for UrlEnd {
    ghost use Rattle.mx_text.specs.declared.fetched.Fetched.{Fetched};
    ghost use Rattle.mx_run_get.specs.Asked.{IsEnd};

    ghost Value = { Fetched };

    ghost view = { λ e. e.fetched };

    ghost invariant = { λ e. IsEnd e.fetched };
}

impl UrlEnd {
    /// The URL was refused.
    pub fn refused(code: Code) -> UrlEnd
        ensures { result ≡ fetched.Refused code }
    {
        UrlEnd {
            fetched: Fetched::Refused(code),
        }
    }

    /// A transfer of the URL's request ended. The bytes of a failed one are dropped.
    pub fn ended(alloc: Global, outcome: Outcome) -> UrlEnd
        ensures { result ≡ fetched_of outcome }
    {
        // proof: what holds of an outcome, and of its code
        outcome.know();
        let _code = outcome.code();
        UrlEnd {
            fetched: Fetched::of(alloc, outcome),
        }
    }

    /// What holds of every end. It does nothing: a call gives its caller's proof the law.
    pub fn know(&self)
        ensures { IsEnd self.now }
    {
        // proof: what holds of the end
        let _fetched = &self.fetched;
    }

    pub fn into_fetched(self) -> Fetched
        ensures same { result ≡ self }
        ensures end { IsEnd result }
    {
        self.fetched
    }
}

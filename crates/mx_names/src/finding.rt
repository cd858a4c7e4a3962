//! The result of the lookup of a host.
ghost use Rattle.std.specs.Prelude.{◌≡◌, Err, string_bytes};
ghost use Rattle.mx_types.specs.declared.code.Code.TheVariants as codes;
ghost use Rattle.mx_names.specs.Names.{IsOutcome};

use crate::addresses::Addresses;
use crate::lookup::Lookup;
use mx_types::Code;
use std::alloc::Global;
use std::marker::{Model, PhantomData};

/// The result of the lookup of a host: all addresses that it gave, the IPv4 ones first, or the code of why there are none. Contracts see
/// the host and the result.
#[derive(Drop)]
pub struct Finding<L: Lookup> {
    host: String,
    outcome: Result<Addresses, Code>,
    by: PhantomData<L>,
}

impl<L: Lookup> Model for Finding<L> {
    ghost use Rattle.std.specs.Prelude.{string_bytes};
    ghost use Rattle.mx_names.specs.Names.{FindingState, IsOutcome};

    ghost Value = { FindingState };

    ghost view = { λ f. record { host = string_bytes f.host; outcome = f.outcome } };

    ghost invariant = { λ f. IsOutcome L.gives (string_bytes f.host) f.outcome };
}

// The result of a lookup: all addresses that it gave, the IPv4 ones first.
fn outcome<L: Lookup>(lookup: &L, alloc: Global, host: &str) -> Result<Addresses, Code>
    ensures { IsOutcome L.gives host.now result }
{
    let given = lookup.look_up(host)?;
    match given.in_order(alloc) {
        Ok(addresses) => Ok(addresses),
        Err(_) => Err(Code::OutOfMemory),
    }
}

impl<L: Lookup> Finding<L> {
    /// Looks the host up. It takes as long as the lookup does.
    pub fn by(lookup: &L, alloc: Global, host: String) -> Finding<L>
        ensures { result.host ≡ string_bytes host }
    {
        let outcome = outcome(lookup, alloc, host.as_str());
        Finding {
            host,
            outcome,
            by: PhantomData,
        }
    }

    /// No lookup of the host could be made, as memory was refused.
    pub fn without_memory(host: String) -> Finding<L>
        ensures host { result.host ≡ string_bytes host }
        ensures outcome { result.outcome ≡ Err codes.OutOfMemory }
    {
        Finding {
            host,
            outcome: Err(Code::OutOfMemory),
            by: PhantomData,
        }
    }

    // The host.
    pub(crate) fn host(&self) -> &str
        ensures { result.now ≡ self.now.host }
    {
        self.host.as_str()
    }

    // The result of the lookup.
    pub(crate) fn into_outcome(self) -> Result<Addresses, Code>
        ensures is { result ≡ self.outcome }
        ensures of { IsOutcome L.gives self.host result }
    {
        self.outcome
    }
}

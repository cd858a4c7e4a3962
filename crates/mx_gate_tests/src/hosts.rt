//! What lookups of the tests' own give.
ghost use Rattle.std.specs.Prelude.{◌≡◌, true, IfOk, IfErr};
ghost use Rattle.mx_names.specs.Addresses.{is_lookup_code};

use mx_names::Addresses;
use mx_types::Code;
use std::alloc::Global;
use std::net::SocketAddr;

/// These addresses, as a lookup gives them. The errors are those of a lookup.
pub fn addresses(alloc: Global, all: &[SocketAddr]) -> Result<Addresses, Code>
    ensures all { IfOk result (λ addresses. addresses ≡ all.now) }
    ensures code { IfErr result (λ code. is_lookup_code code ≡ true) }
{
    let Ok(all) = Vec::from_slice(alloc, all) else {
        return Err(Code::OutOfMemory);
    };
    match Addresses::new(all) {
        Some(addresses) => Ok(addresses),
        None => Err(Code::CouldntResolveHost),
    }
}

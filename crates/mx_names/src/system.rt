//! The system's lookup.
ghost use Rattle.mx_names.specs.System.{SystemGives};

use crate::addresses::Addresses;
use crate::faults::lookup_code;
use crate::lookup::Lookup;
use mx_types::Code;
use std::alloc::AllocGlobal;
use std::net::{Net, SocketAddr, ToSocketAddrs};

/// The system's lookup, by whatever it is set up for: a file of hosts, name servers. A host that spells an address has that one; what a name
/// has std doesn't promise, so no clause says it. It blocks as long as the system's lookup does, though it has no bound `Wait`.
#[derive(Clone, Copy)]
pub struct SystemLookup<R> {
    rt: R,
}

impl<R> SystemLookup<R> {
    /// A lookup by the system, through this runtime.
    pub fn new(rt: R) -> SystemLookup<R> {
        SystemLookup { rt }
    }
}

impl<R: Net + AllocGlobal + Drop> Lookup for SystemLookup<R> {
    ghost gives = { SystemGives };

    /// `CouldntResolveHost` comes where the lookup fails or gives nothing.
    #[tactic(auto, using(crate::proofs::GivenLemmas::none_given, crate::proofs::GivenLemmas::unfound, crate::proofs::GivenLemmas::out_of_memory))]
    fn look_up(&self, host: &str) -> Result<Addresses, Code> {
        let found = match (host, 0).to_socket_addrs(&self.rt) {
            Ok(found) => found,
            Err(error) => return Err(lookup_code(&error)),
        };
        let Ok(all) = found.collect::<Vec<SocketAddr>>(self.rt.alloc()) else {
            return Err(Code::OutOfMemory);
        };
        match Addresses::new(all) {
            Some(addresses) => Ok(addresses),
            None => Err(Code::CouldntResolveHost),
        }
    }
}

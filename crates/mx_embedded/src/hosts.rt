//! Hosts whose addresses the caller has.
ghost use Rattle.std.specs.Prelude.{◌≡◌, ◌≢◌, ℕ, List, [], None, OnErr, OnOk, option_copied, string_bytes};
ghost use Rattle.mx_embedded.specs.Hosts.{Puts, table_of};

use mx_types::OutOfMemory;
use std::alloc::Global;
use std::collections::BTreeMap;
use std::marker::Model;
use std::net::SocketAddr;

/// Hosts, each with the addresses at which its links are opened. Contracts see the hosts in their order, with their addresses.
#[derive(Drop)]
pub struct Hosts {
    addresses: BTreeMap<String, Vec<SocketAddr>>,
}

impl Model for Hosts {
    ghost use Rattle.std.specs.Prelude.{map};
    ghost use Rattle.std.specs.String.{string_bytes};
    ghost use Rattle.mx_embedded.specs.Hosts.{HostsValue};

    ghost Value = { HostsValue };

    ghost view = { λ h. map (λ e. (string_bytes e.0, e.1.items)) h.addresses.entries };
}

impl Hosts {
    /// No host.
    pub fn new(alloc: Global) -> Hosts
        ensures { (host : List ℕ) → table_of result host ≡ None }
    {
        Hosts {
            addresses: BTreeMap::new(alloc),
        }
    }

    /// The addresses of a host that is in it.
    pub fn find(&self, host: &str) -> Option<&[SocketAddr]>
        ensures { option_copied result ≡ table_of self.now host.now }
    {
        match self.addresses.get(host) {
            Some(addresses) => Some(addresses.as_slice()),
            None => None,
        }
    }

    // Takes a host out.
    fn take_out(&mut self, host: &str)
        ensures { Puts (table_of self.old) host.now [] (table_of self.new) }
    {
        let before = self.addresses.remove(host);
        drop(before);
    }

    // Puts in these addresses, of which there is one at least.
    fn put_some(&mut self, host: String, addresses: Vec<SocketAddr>) -> Result<(), OutOfMemory>
        requires { addresses.items ≢ [] }
        ensures put { OnOk result (Puts (table_of self.old) (string_bytes host) addresses.items (table_of self.new)) }
        ensures refused { OnErr result (self.new ≡ self.old) }
    {
        match self.addresses.insert(host, addresses) {
            Ok(before) => {
                drop(before);
                return Ok(());
            }
            Err(refused) => drop(refused),
        }
        Err(OutOfMemory)
    }

    /// Puts in these addresses of a host in place of those that stand there. Without an address it takes the host out.
    ///
    /// Returns `OutOfMemory` where memory is refused, and then drops what it was given.
    pub fn put(&mut self, host: String, addresses: Vec<SocketAddr>) -> Result<(), OutOfMemory>
        ensures put { OnOk result (Puts (table_of self.old) (string_bytes host) addresses.items (table_of self.new)) }
        ensures refused { OnErr result (self.new ≡ self.old) }
    {
        if addresses.is_empty() {
            drop(addresses);
            self.take_out(host.as_str());
            return Ok(());
        }
        self.put_some(host, addresses)
    }
}

//! A gate over sockets that has the addresses of some hosts.
ghost use Rattle.std.specs.Prelude.{◌≡◌, ◌≤◌, ◌<◌, true, [], ◌∷◌, ◌++◌, length, IfErr, IfOk};
ghost use Rattle.mx_types.specs.Code.{is_link_code};
ghost use Rattle.mx_gate.specs.Dialling.{addresses_of};
ghost use Rattle.mx_gate.specs.Said.{asked, is_stop, lacked, numbered, opened, told, waited};
ghost use Rattle.mx_embedded.specs.Hosts.{AreGivenFor, table_of};

use crate::hosts::Hosts;
use mx_gate::{Gate, SocketGate, SocketLink, Turn};
use mx_request::Endpoint;
use mx_types::Code;
use std::net::Net;
use std::rt::Clock;

/// A gate over sockets that opens the links of some hosts at addresses that stand in a table. Contracts see the gate within and the table.
pub struct HostGate<'t, 'r, R> {
    gate: SocketGate<'r, R>,
    hosts: &'t Hosts,
}

// Written out, and not derived: a crate that drops a gate cites its proof.
impl<'t, 'r, R> Drop for HostGate<'t, 'r, R> {
    fn drop(self) {
        let HostGate { gate, hosts: _ } = self;
        drop(gate);
    }
}

impl<'t, 'r, R: Net + Clock> HostGate<'t, 'r, R> {
    /// A gate with this one within, and this table.
    pub fn over(gate: SocketGate<'r, R>, hosts: &'t Hosts) -> HostGate<'t, 'r, R>
        ensures within { result.gate ≡ gate.entry }
        ensures hosts { result.hosts.now ≡ hosts.now }
    {
        HostGate { gate, hosts }
    }

    /// The gate within.
    pub fn into_gate(self) -> SocketGate<'r, R>
        ensures { result ≡ self.entry.gate }
    {
        let HostGate { gate, hosts: _ } = self;
        gate
    }
}

impl<'t, 'r, R: Net + Clock> Gate for HostGate<'t, 'r, R> {
    type Link = SocketLink<'r, R>;

    ghost said = { λ gate. gate.gate.said };

    ghost latest = { λ gate. gate.gate.latest };

    fn now(&mut self) -> u64
        ensures told { result ≡ self.new.gate.latest }
        ensures rises { self.old.gate.latest ≤ self.new.gate.latest }
        ensures noted { self.new.gate.said ≡ self.old.gate.said ++ told result ∷ [] }
    {
        self.gate.now()
    }

    fn can_open(&mut self, endpoint: &Endpoint) -> bool
        ensures moment { self.new.gate.latest ≡ self.old.gate.latest }
        ensures noted { self.new.gate.said ≡ self.old.gate.said ++ asked endpoint.now result ∷ [] }
    {
        self.gate.can_open(endpoint)
    }

    /// Begins to connect: where the host of the endpoint is in the table to the addresses that stand there, at the endpoint's port, and looks
    /// nothing up; else as the gate within.
    fn open(&mut self, endpoint: &Endpoint) -> Result<SocketLink<'r, R>, Code>
        ensures fresh { IfOk result (λ link. link.history ≡ []) }
        ensures code { IfErr result (λ code. is_link_code code ≡ true) }
        ensures addresses { IfOk result (λ link. AreGivenFor (table_of self.old.hosts.now) endpoint.now (addresses_of link.link) self.old.gate.found self.new.gate.found) }
        ensures some { IfOk result (λ link. 0 < length link.link.dialled) }
        ensures moment { self.new.gate.latest ≡ self.old.gate.latest }
        ensures noted { self.new.gate.said ≡ self.old.gate.said ++ opened endpoint.now (numbered (λ link. link.link.token) result) ∷ [] }
    {
        match self.hosts.find(endpoint.host.as_str()) {
            Some(addresses) => self.gate.open_at(endpoint, addresses),
            None => self.gate.open(endpoint),
        }
    }

    fn lacks_files(&mut self) -> bool
        ensures moment { self.new.gate.latest ≡ self.old.gate.latest }
        ensures noted { self.new.gate.said ≡ self.old.gate.said ++ lacked result ∷ [] }
    {
        self.gate.lacks_files()
    }

    fn turn(&mut self, wait_ms: u32) -> Turn
        ensures moment { self.new.gate.latest ≡ self.old.gate.latest }
        ensures noted { self.new.gate.said ≡ self.old.gate.said ++ waited wait_ms (is_stop result) ∷ [] }
    {
        self.gate.turn(wait_ms)
    }
}

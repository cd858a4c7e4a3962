//! A multi handle over sockets.
ghost use Rattle.std.specs.Prelude.{◌≡◌, ◌≤◌, ◌⊎◌, ℕ, List, All, IfErr, IfOk, IsSome, OnErr, None, length, map, true};
ghost use Rattle.std.specs.Char.{to_ascii_lowercase};
ghost use Rattle.std.specs.declared.net.SocketAddr.{SocketAddr};
ghost use Rattle.mx_types.specs.Limits.{IsHistory};
ghost use Rattle.mx_types.specs.declared.code.Code.TheVariants as code;
ghost use Rattle.mx_gate.specs.Gates.{is_start_code};
ghost use Rattle.mx_history.specs.History.{running};
ghost use Rattle.mx_turn.specs.Workers.{starts};
ghost use Rattle.mx_solo.specs.Seats.{Performs, WaitsNoLonger, new_core};
ghost use Rattle.mx_embedded.specs.Hosts.{AreAddressesIn, CantBeResolved, Puts, table_of};
ghost use Rattle.mx_embedded.specs.Multis.{gate_in};

use crate::addresses::resolution_of;
use crate::host_gate::HostGate;
use crate::hosts::Hosts;
use mx_gate::{Gate, SocketGate, SocketLink};
use mx_host::Host;
use mx_link::Link;
use mx_solo::Solo;
use mx_types::Code;
use std::alloc::Global;
use std::os::fd::RawFd;
use std::sync::Arc;
use std::sync::atomic::AtomicBool;

/// A link over a socket of this host.
pub type HostLink = SocketLink<'static, Host>;

/// The network and the clock of all multi handles.
static HOST: Host = Host;

/// A multi handle on one thread, its gate to the network, and the hosts whose addresses the caller has. No call waits, but for the lookup of a
/// name.
pub struct SocketMulti {
    pub solo: Solo<HostLink>,
    // There but while the worker takes its turns.
    gate: Option<SocketGate<'static, Host>>,
    hosts: Hosts,
    ghost has_gate: { IsSome gate },
}

// Written out, and not derived: a crate that drops one cites its proof.
impl Drop for SocketMulti {
    fn drop(self) {
        let SocketMulti { solo, gate, hosts } = self;
        drop(solo);
        drop(gate);
        drop(hosts);
    }
}

/// Names the links of a multi handle. It does nothing: the prover reads a type where a function names it.
pub fn name_link<L: Link>() {}

// A gate whose caller waits by itself.
fn gate_of(alloc: Global) -> Result<SocketGate<'static, Host>, Code>
    ensures { IfErr result (λ code. is_start_code code ≡ true) }
{
    let Ok(stop) = Arc::new(alloc, AtomicBool::new(false)) else {
        return Err(Code::OutOfMemory);
    };
    let mut gate = SocketGate::new(&HOST, alloc, stop)?;
    gate.wait_elsewhere();
    Ok(gate)
}

impl SocketMulti {
    /// A multi handle with nothing added, with room for so many events and idle links, and without a host.
    ///
    /// `CouldntConnect` comes where the system gives no poll or no clock, `OutOfMemory` where memory is refused.
    pub fn open(alloc: Global, history: u32, max_connects: u8) -> Result<SocketMulti, Code>
        requires { IsHistory history }
        ensures new { IfOk result (λ m. (m.solo.core ≡ new_core history) × (m.solo.worker ≡ starts max_connects)) }
        ensures hosts { IfOk result (λ m. (host : List ℕ) → table_of m.hosts host ≡ None) }
        ensures code { IfErr result (λ code. is_start_code code ≡ true) }
    {
        let gate = gate_of(alloc)?;
        match Solo::new(alloc, history, max_connects) {
            Ok(solo) => Ok(SocketMulti {
                solo,
                gate: Some(gate),
                hosts: Hosts::new(alloc),
            }),
            Err(_) => {
                drop(gate);
                Err(Code::OutOfMemory)
            }
        }
    }

    /// Has the links to a host be opened at these addresses, at the port of its URL, in place of those that stood for it: it isn't looked up.
    /// The host is as the field Host has it, without a port, in any case; the addresses are as `addresses_in` reads them. Without an address
    /// the host is looked up again. Links that are open stay, and serve transfers that follow.
    ///
    /// `UrlMalformat` comes where the host isn't UTF-8 or a piece between commas is no address, `OutOfMemory` where memory is refused.
    pub fn resolve(&mut self, alloc: Global, host: &[u8], addresses: &[u8]) -> Result<(), Code>
        ensures put { IfOk result (λ _. (given : List SocketAddr) × AreAddressesIn addresses.now given
            × Puts (table_of self.old.hosts) (map to_ascii_lowercase host.now) given (table_of self.new.hosts)) }
        ensures refused { IfErr result (λ c. (c ≡ code.OutOfMemory) ⊎ ((c ≡ code.UrlMalformat) × CantBeResolved host.now addresses.now)) }
        ensures unchanged { OnErr result (self.new.hosts ≡ self.old.hosts) }
        ensures same { (self.new.solo ≡ self.old.solo) × (self.new.gate ≡ self.old.gate) }
    {
        // proof: the type of the links
        name_link::<HostLink>();
        match resolution_of(alloc, host, addresses) {
            Ok((host, addresses)) => match self.hosts.put(host, addresses) {
                Ok(()) => Ok(()),
                Err(_) => Err(Code::OutOfMemory),
            },
            Err(code) => Err(code),
        }
    }

    /// A descriptor to wait for (`SocketGate::descriptor`).
    pub fn descriptor(&self) -> RawFd {
        let Some(gate) = &self.gate else {
            unreachable!()
        };
        gate.descriptor()
    }

    /// Looks at the sockets, and takes turns (`Solo::perform`). The answer is how many transfers run then.
    pub fn perform(&mut self) -> u32
        ensures performs { Performs (λ link. link.history) (λ link. link.link.token) self.old.solo self.new.solo (gate_in self.old.gate).said (gate_in self.new.gate).said }
        ensures origins { self.new.solo.core.origins ≡ self.old.solo.core.origins }
        ensures runs { result ≡ length (running self.new.solo.core.journal) }
        ensures hosts { self.new.hosts ≡ self.old.hosts }
    {
        let Some(mut gate) = self.gate.take() else {
            unreachable!()
        };
        gate.look_now();
        let mut gate = HostGate::over(gate, &self.hosts);
        let running = self.solo.perform(&mut gate);
        self.gate = Some(gate.into_gate());
        running
    }

    /// How many milliseconds a wait for the descriptor may last (`Solo::timeout`).
    pub fn timeout(&mut self) -> Option<u64>
        ensures wait { All (λ h. WaitsNoLonger result (gate_in self.new.gate).latest h.transfer.now.deadline) self.old.solo.worker.held }
        ensures rises { (gate_in self.old.gate).latest ≤ (gate_in self.new.gate).latest }
        ensures same { (self.new.solo ≡ self.old.solo) × (self.new.hosts ≡ self.old.hosts) }
    {
        let Some(gate) = &mut self.gate else {
            unreachable!()
        };
        let now = gate.now();
        self.solo.timeout(now)
    }
}

//! Where a request goes.
ghost use Rattle.std.specs.Prelude.{◌≡◌, ◌↔◌, ◌∷◌, IsTrue, IfOk, string_bytes};
ghost use Rattle.std.specs.Cmp.{on_equiv, on_per, partial_equiv_from_equiv};
ghost use Rattle.std.specs.Cmp.Lexicographic.{nat_list_eq_equiv};
ghost use Rattle.mx_request.specs.Endpoint.{HostAndPort, is_same_endpoint};

use mx_types::OutOfMemory;
use std::alloc::Global;
use std::marker::Model;

/// Where a request goes: a host and a TCP port (RFC 9110, section 4.3.1). Contracts see it as the bytes of
/// the host and the port.
#[derive(Drop)]
pub struct Endpoint {
    /// The host as its URL writes it: a name, an IPv4 address, or an IPv6 address in brackets.
    pub host: String,
    /// The port, 80 where the URL gives none.
    pub port: u16,
}

impl Model for Endpoint {
    ghost Value = { HostAndPort };

    ghost view = { λ e. record { host = string_bytes e.host; port = e.port } };
}

impl Endpoint {
    /// An equal endpoint, in memory of its own. The one error is that memory was refused.
    pub fn copy(&self, alloc: Global) -> Result<Endpoint, OutOfMemory>
        ensures { IfOk result (λ copy. copy ≡ self.now) }
    {
        let host = String::from_str(alloc, self.host.as_str())?;
        Ok(Endpoint {
            host,
            port: self.port,
        })
    }
}

/// Two endpoints are equal where their hosts have the same bytes and their ports are the same.
impl PartialEq for Endpoint {
    ghost eq = { is_same_endpoint };

    ghost laws = { on_per (λ e. e.port ∷ e.host) (partial_equiv_from_equiv nat_list_eq_equiv) };

    fn eq(&self, other: &Endpoint) -> bool
        ensures value { result ≡ is_same_endpoint self.now other.now }
        ensures same { IsTrue result ↔ (self.now ≡ other.now) }
    {
        self.port == other.port && self.host == other.host
    }
}

impl Eq for Endpoint {
    ghost laws = { on_equiv (λ e. e.port ∷ e.host) nat_list_eq_equiv };
}

//! The addresses of a host.
ghost use Rattle.std.specs.Prelude.{◌≡◌, ◌<◌, [], ◌∷◌, length, IfOk, MatchOption};
ghost use Rattle.mx_names.specs.Addresses.{in_order};

use mx_types::OutOfMemory;
use std::alloc::Global;
use std::marker::Model;
use std::net::SocketAddr;

/// The addresses of a host, at least one. Contracts see them as a list.
#[derive(Drop)]
pub struct Addresses {
    all: Vec<SocketAddr>,
}

impl Model for Addresses {
    ghost use Rattle.std.specs.Prelude.{List, ◌<◌, length};
    ghost use Rattle.std.specs.declared.net.SocketAddr.{SocketAddr as Address};

    ghost Value = { List Address };

    ghost view = { λ a. a.all.items };

    ghost invariant = { λ a. 0 < length a.all.items };
}

// rule name-ipv4-first
/// The IPv4 addresses first, then the others; within each kind the order stays.
pub fn in_order(alloc: Global, all: &[SocketAddr]) -> Result<Vec<SocketAddr>, OutOfMemory>
    ensures { IfOk result (λ ordered. ordered.items ≡ in_order all.now) }
{
    let first = all.iter().filter(|a| a.is_ipv4());
    let then = all.iter().filter(|a| !a.is_ipv4());
    let ordered = first
        .chain(then)
        .copied()
        .collect::<Vec<SocketAddr>>(alloc)?;
    Ok(ordered)
}

impl Addresses {
    /// These addresses, unless there are none.
    pub fn new(all: Vec<SocketAddr>) -> Option<Addresses>
        ensures { MatchOption result (all.items ≡ []) (λ addresses. addresses ≡ all.items) }
    {
        if all.is_empty() {
            None
        } else {
            Some(Addresses { all })
        }
    }

    /// One address.
    pub fn one(alloc: Global, address: SocketAddr) -> Result<Addresses, OutOfMemory>
        ensures { IfOk result (λ addresses. addresses ≡ address ∷ []) }
    {
        let mut all = Vec::new(alloc);
        all.push(address)?;
        Ok(Addresses { all })
    }

    /// The addresses, at least one.
    pub fn as_slice(&self) -> &[SocketAddr]
        ensures all { result.now ≡ self.now }
        ensures some { 0 < length self.now }
    {
        self.all.as_slice()
    }

    /// The same addresses, in memory of their own.
    pub fn copy(&self, alloc: Global) -> Result<Addresses, OutOfMemory>
        ensures { IfOk result (λ copy. copy ≡ self.now) }
    {
        let all = self.all.iter().copied().collect::<Vec<SocketAddr>>(alloc)?;
        Ok(Addresses { all })
    }

    /// The same addresses in the order of [`in_order`].
    pub fn in_order(&self, alloc: Global) -> Result<Addresses, OutOfMemory>
        ensures { IfOk result (λ ordered. ordered ≡ in_order self.now) }
    {
        let all = in_order(alloc, self.all.as_slice())?;
        Ok(Addresses { all })
    }
}

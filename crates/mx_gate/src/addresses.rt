//! The addresses that are dialled for an endpoint.
ghost use Rattle.std.specs.Prelude.{◌≡◌, ◌<◌, ℕ, true, ◌∷◌, ◌++◌, [], vec_items, length, IfOk, IfErr, OnErr};
ghost use Rattle.std.specs.declared.net.IpAddr.{IpAddr};
ghost use Rattle.std.specs.Net.Grammar.{IsIpText};
ghost use Rattle.mx_types.specs.declared.code.Code.TheVariants as codes;
ghost use Rattle.mx_names.specs.Addresses.{in_order, is_lookup_code};
ghost use Rattle.mx_names.specs.Hosts.{unbracketed};
ghost use Rattle.mx_gate.specs.Dials.{IsAt, AreAt, AreFound, AreAddressesOf};

use mx_names::{Addresses, Lookup, SystemLookup, in_order, spelled, unbracketed};
use mx_request::Endpoint;
use mx_types::{Code, History, OutOfMemory};
use std::alloc::Global;
use std::marker::Model;
use std::net::{Net, SocketAddr};
use std::snapshot::Snapshot;

/// A host that was looked up, and the addresses that its lookup found, for contracts alone.
#[derive(Drop)]
pub struct Found {
    endpoint: Snapshot<Endpoint>,
    addresses: Snapshot<Addresses>,
}

impl Model for Found {
    ghost use Rattle.mx_names.specs.Hosts.{unbracketed};
    ghost use Rattle.mx_gate.specs.Gates.{FoundState};

    ghost Value = { FoundState };

    ghost view = { λ f. record { host = unbracketed f.endpoint.value.host; addresses = f.addresses.value } };
}

// rule gate-own-addresses
// The addresses that the lookup of the endpoint's host gives, which are noted with the host.
fn look_up<L: Lookup>(
    lookup: &L,
    endpoint: &Endpoint,
    found: &mut History<Found>,
) -> Result<Addresses, Code>
    ensures gives { L.gives (unbracketed endpoint.now.host) result }
    ensures found { IfOk result (λ addresses. found.new ≡ found.old ++ record { host = unbracketed endpoint.now.host; addresses = addresses } ∷ []) }
    ensures none { OnErr result (found.new ≡ found.old) }
    ensures code { IfErr result (λ code. is_lookup_code code ≡ true) }
{
    match lookup.look_up(unbracketed(endpoint.host.as_str())) {
        Ok(addresses) => {
            found.note(Found {
                endpoint: Snapshot::of(endpoint),
                addresses: Snapshot::of(&addresses),
            });
            Ok(addresses)
        }
        Err(code) => Err(code),
    }
}

// rule gate-first-address
// The address, at this port.
fn set_port(mut address: SocketAddr, port: u16) -> SocketAddr
    ensures { IsAt port address result }
{
    address.set_port(port);
    address
}

// These addresses, at this port.
pub(crate) fn at_port(
    alloc: Global,
    addresses: &[SocketAddr],
    port: u16,
) -> Result<Vec<SocketAddr>, OutOfMemory>
    ensures { IfOk result (λ all. AreAt port addresses.now all.items) }
{
    let mut all = Vec::new(alloc);
    for address in addresses {
        let there = set_port(*address, port);
        all.push(there)?;
    }
    Ok(all)
}

// The addresses that a lookup gave, in the order in which they are dialled, at this port.
fn order_at(
    alloc: Global,
    addresses: &[SocketAddr],
    port: u16,
) -> Result<Vec<SocketAddr>, OutOfMemory>
    ensures { IfOk result (λ all. AreAt port (in_order addresses.now) all.items) }
{
    let ordered = in_order(alloc, addresses)?;
    let all = at_port(alloc, ordered.as_slice(), port)?;
    Ok(all)
}

// What the lookup of the endpoint's host gives, in the order of dialling, at its port.
fn find<L: Lookup>(
    lookup: &L,
    alloc: Global,
    endpoint: &Endpoint,
    found: &mut History<Found>,
) -> Result<Vec<SocketAddr>, Code>
    ensures found { IfOk result (λ all. AreFound L.gives (unbracketed endpoint.now.host) found.old found.new endpoint.now.port all.items) }
    ensures some { IfOk result (λ all. 0 < length all.items) }
    ensures code { IfErr result (λ code. is_lookup_code code ≡ true) }
{
    let addresses = look_up(lookup, endpoint, found)?;
    let Ok(all) = order_at(alloc, addresses.as_slice(), endpoint.port) else {
        return Err(Code::OutOfMemory);
    };
    if all.is_empty() {
        return Err(Code::CouldntResolveHost);
    }
    Ok(all)
}

// The one address.
fn only(alloc: Global, address: SocketAddr) -> Result<Vec<SocketAddr>, Code>
    ensures one { IfOk result (λ all. all.items ≡ address ∷ []) }
    ensures code { IfErr result (λ code. code ≡ codes.OutOfMemory) }
{
    let mut all = Vec::new(alloc);
    if all.push(address).is_err() {
        return Err(Code::OutOfMemory);
    }
    Ok(all)
}

// rule gate-spelled-address
/// The addresses of an endpoint, at least one, in the order in which they are dialled. A host that spells an address has that one, and
/// isn't looked up; of any other they are all that the system's lookup of it gives, the IPv4 ones first, and are added to those found, with
/// the host.
///
/// `CouldntResolveHost` comes where the lookup fails or gives nothing, `OutOfMemory` where memory is refused.
pub fn addresses_of<R: Net>(
    rt: &R,
    alloc: Global,
    endpoint: &Endpoint,
    found: &mut History<Found>,
) -> Result<Vec<SocketAddr>, Code>
    ensures of { IfOk result (λ all. AreAddressesOf endpoint.now all.items found.old found.new) }
    ensures some { IfOk result (λ all. 0 < length all.items) }
    ensures spelled { (ip : IpAddr) → IsIpText (unbracketed endpoint.now.host) ip → IfErr result (λ code. code ≡ codes.OutOfMemory) }
    ensures code { IfErr result (λ code. is_lookup_code code ≡ true) }
{
    let host = unbracketed(endpoint.host.as_str());
    // std's lookup parses addresses as well; here the clause `spelled` rests on the parser alone.
    match spelled(host) {
        Some(ip) => match only(alloc, SocketAddr::new(ip, endpoint.port)) {
            Ok(all) => Ok(all),
            Err(code) => Err(code),
        },
        None => match find(&SystemLookup::new((rt, alloc)), alloc, endpoint, found) {
            Ok(all) => Ok(all),
            Err(code) => Err(code),
        },
    }
}

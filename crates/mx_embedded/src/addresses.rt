//! Addresses from text.
ghost use Rattle.std.specs.Prelude.{◌≡◌, ◌<◌, ◌⊎◌, [], ◌∷◌, ◌++◌, length, map, string_bytes, IfErr, IfOk, IfSome, MatchOption};
ghost use Rattle.std.specs.Char.{to_ascii_lowercase};
ghost use Rattle.std.specs.List.{AllZip, slice_split};
ghost use Rattle.std.specs.declared.net.SocketAddr.{SocketAddr};
ghost use Rattle.std.specs.Net.ToAddrs.{IsHostAndPort};
ghost use Rattle.mx_names.specs.Names.{SpellsNone};
ghost use Rattle.mx_types.specs.declared.code.Code.TheVariants as code;
ghost use Rattle.mx_embedded.specs.Hosts.{AreAddressesIn, AreNoAddresses, CantBeResolved, is_comma};

use mx_names::spelled;
use mx_types::Code;
use std::alloc::Global;
use std::net::SocketAddr;

// Adds the address that the text spells.
fn push_address(all: &mut Vec<SocketAddr>, text: &str) -> Result<(), Code>
    ensures pushed { IfOk result (λ _. (a : SocketAddr) × IsHostAndPort text.now 0 a × (all.new.items ≡ all.old.items ++ a ∷ [])) }
    ensures refused { IfErr result (λ c. (c ≡ code.OutOfMemory) ⊎ ((c ≡ code.UrlMalformat) × SpellsNone text.now)) }
{
    let Some(ip) = spelled(text) else {
        return Err(Code::UrlMalformat);
    };
    match all.push(SocketAddr::new(ip, 0)) {
        Ok(()) => Ok(()),
        Err(_) => Err(Code::OutOfMemory),
    }
}

// What is before the first comma, and what is behind it, where there is one.
#[tactic(auto, using(crate::proofs::LineLemmas::first_between_commas, crate::proofs::LineLemmas::last_between_commas))]
fn cut_piece(text: &str) -> Option<(&str, &str)>
    ensures pieces { MatchOption result (slice_split is_comma text.now ≡ text.now ∷ []) (λ cut. slice_split is_comma text.now ≡ cut.0.now ∷ slice_split is_comma cut.1.now) }
    ensures less { IfSome result (λ cut. length cut.1.now < length text.now) }
{
    text.split_once(',')
}

// Adds the addresses between commas.
fn push_all(all: &mut Vec<SocketAddr>, text: &str) -> Result<(), Code>
    requires { all.old.items ≡ [] }
    ensures pushed { IfOk result (λ _. AllZip (λ piece address. IsHostAndPort piece 0 address) (slice_split is_comma text.now) all.new.items) }
    ensures refused { IfErr result (λ c. (c ≡ code.OutOfMemory) ⊎ ((c ≡ code.UrlMalformat) × AreNoAddresses text.now)) }
{
    let mut rest = text;
    while let Some((piece, after)) = cut_piece(rest) {
        match push_address(all, piece) {
            Ok(()) => rest = after,
            Err(code) => return Err(code),
        }
    }
    push_address(all, rest)
}

/// The addresses in a text, in their order, at port 0: each is an IPv4 address, or an IPv6 address without brackets, with a comma between
/// any two. The empty text has none.
///
/// The errors are `UrlMalformat`, where a piece between commas is no address, and `OutOfMemory`.
pub fn addresses_in(alloc: Global, text: &str) -> Result<Vec<SocketAddr>, Code>
    ensures addresses { IfOk result (λ all. AreAddressesIn text.now all.items) }
    ensures refused { IfErr result (λ c. (c ≡ code.OutOfMemory) ⊎ ((c ≡ code.UrlMalformat) × AreNoAddresses text.now)) }
{
    let mut all = Vec::new(alloc);
    if text.is_empty() {
        return Ok(all);
    }
    match push_all(&mut all, text) {
        Ok(()) => Ok(all),
        Err(code) => Err(code),
    }
}

/// A host in lower case, and the addresses in a text.
///
/// The errors are `UrlMalformat`, where one of them isn't UTF-8 or a piece between commas is no address, and `OutOfMemory`.
pub(crate) fn resolution_of(
    alloc: Global,
    host: &[u8],
    addresses: &[u8],
) -> Result<(String, Vec<SocketAddr>), Code>
    ensures host { IfOk result (λ r. string_bytes r.0 ≡ map to_ascii_lowercase host.now) }
    ensures addresses { IfOk result (λ r. AreAddressesIn addresses.now r.1.items) }
    ensures refused { IfErr result (λ c. (c ≡ code.OutOfMemory) ⊎ ((c ≡ code.UrlMalformat) × CantBeResolved host.now addresses.now)) }
{
    let Ok(host) = std::str::from_utf8(host) else {
        return Err(Code::UrlMalformat);
    };
    let Ok(addresses) = std::str::from_utf8(addresses) else {
        return Err(Code::UrlMalformat);
    };
    match addresses_in(alloc, addresses) {
        Ok(all) => match host.to_ascii_lowercase(alloc) {
            Ok(host) => Ok((host, all)),
            Err(_) => {
                drop(all);
                Err(Code::OutOfMemory)
            }
        },
        Err(code) => Err(code),
    }
}

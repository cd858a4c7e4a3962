//! Hosts that are addresses, and hosts that are names.
ghost use Rattle.std.specs.Prelude.{◌≡◌, MatchOption};
ghost use Rattle.std.specs.Net.Grammar.{IsIpText};
ghost use Rattle.mx_names.specs.Hosts.{unbracketed};
ghost use Rattle.mx_names.specs.Names.{SpellsNone};

use std::net::IpAddr;

/// The host without the brackets round an IPv6 address (RFC 3986, section 3.2.2); any other host is as it is.
pub fn unbracketed(host: &str) -> &str
    ensures { result.now ≡ unbracketed host.now }
{
    match host.strip_prefix('[') {
        Some(rest) => match rest.strip_suffix(']') {
            Some(inner) => inner,
            None => host,
        },
        None => host,
    }
}

/// The IP address that the text spells, if it spells one.
pub fn spelled(text: &str) -> Option<IpAddr>
    ensures { MatchOption result (SpellsNone text.now) (IsIpText text.now) }
{
    match text.parse::<IpAddr>() {
        Ok(ip) => Some(ip),
        Err(_) => None,
    }
}

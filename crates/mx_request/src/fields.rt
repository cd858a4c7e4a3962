//! Which header fields a caller may add to a request (RFC 9110, sections 5.1, 5.5 and 5.6).
ghost use Rattle.std.specs.Prelude.{◌≡◌, ◌==◌, ◌&&◌, not, true, false, nat_le, length, option_copied, option_map, string_bytes};
ghost use Rattle.std.specs.List.{list_all, list_any};
ghost use Rattle.std.specs.Option.{option_map_or};
ghost use Rattle.std.specs.Str.{str_eq_ignore_ascii_case};
ghost use Rattle.mx_types.specs.Settings.{field_of};
ghost use Rattle.mx_request.specs.Fields as spec;
ghost use Rattle.mx_request.specs.Limits.{most_fields};
ghost use Rattle.mx_request.specs.RequestBytes.{is_private_name};

use mx_types::Settings;

/// The names of the fields that the engine sets itself, or that speak of the connection.
const RESERVED: [&str; 9] = [
    "Host",
    "User-Agent",
    "Content-Length",
    "Transfer-Encoding",
    "Connection",
    "Expect",
    "Upgrade",
    "TE",
    "Trailer",
];

// rule request-field-count
/// The most fields that a caller may add.
const MOST_FIELDS: usize = 64;

// rule request-field-values
/// The most bytes of a field's value.
const MOST_VALUE: usize = 8_192;

/// Whether two names are the same, in any letter case.
pub fn is_same_name(one: &str, other: &str) -> bool
    ensures { result ≡ str_eq_ignore_ascii_case one.now other.now }
{
    one.eq_ignore_ascii_case(other)
}

/// Whether a field of that name is for the first endpoint of a chain alone.
pub fn is_private(name: &str) -> bool
    ensures { result ≡ is_private_name name.now }
{
    is_same_name(name, "Authorization") || is_same_name(name, "Cookie")
}

fn is_token_byte(byte: u8) -> bool
    ensures { result ≡ spec.is_token_byte byte }
{
    byte.is_ascii_alphanumeric() || b"!#$%&'*+-.^_`|~".contains(&byte)
}

fn are_token_bytes(bytes: &[u8]) -> bool
    ensures { result ≡ list_all spec.is_token_byte bytes.now }
{
    bytes.iter().all(|byte| is_token_byte(*byte))
}

fn is_token(name: &str) -> bool
    ensures { result ≡ spec.is_token name.now }
{
    !name.is_empty() && are_token_bytes(name.as_bytes())
}

fn is_one_of(name: &str, names: &[&str]) -> bool
    ensures { result ≡ list_any (λ one. str_eq_ignore_ascii_case name.now one.now) names.now }
{
    names.iter().any(|one| is_same_name(name, one))
}

fn is_reserved(name: &str) -> bool
    ensures { result ≡ spec.is_reserved name.now }
{
    is_one_of(name, &RESERVED)
}

// rule request-field-names
#[tactic(auto, unfolding(crate::specs::Fields::is_field_name))]
fn is_field_name(name: &str) -> bool
    ensures { result ≡ spec.is_field_name name.now }
{
    is_token(name) && !is_reserved(name)
}

fn is_printable(byte: u8) -> bool
    ensures { result ≡ (nat_le 32 byte && not (byte == 127)) }
{
    byte >= 32 && byte != 127
}

fn is_value_byte(byte: u8) -> bool
    ensures { result ≡ spec.is_value_byte byte }
{
    byte == b'\t' || is_printable(byte)
}

fn is_blank(byte: u8) -> bool
    ensures { result ≡ spec.is_blank byte }
{
    byte == b' ' || byte == b'\t'
}

/// Whether the byte, where there is one, is SP or HTAB.
fn is_some_blank(byte: Option<&u8>) -> bool
    ensures { result ≡ option_map_or spec.is_blank (option_copied byte.entry) false }
{
    match byte {
        Some(byte) => is_blank(*byte),
        None => false,
    }
}

fn are_value_bytes(bytes: &[u8]) -> bool
    ensures { result ≡ list_all spec.is_value_byte bytes.now }
{
    bytes.iter().all(|byte| is_value_byte(*byte))
}

// rule request-field-values
#[tactic(auto, unfolding(crate::specs::Fields::is_field_value))]
fn is_field_value(value: &str) -> bool
    ensures { result ≡ spec.is_field_value value.now }
{
    let bytes = value.as_bytes();
    bytes.len() <= MOST_VALUE
        && are_value_bytes(bytes)
        && !is_some_blank(bytes.first())
        && !is_some_blank(bytes.last())
}

#[tactic(auto, unfolding(crate::specs::Fields::is_field))]
fn is_field(name: &str, value: &str) -> bool
    ensures { result ≡ spec.is_field (record { name = name.now; value = value.now }) }
{
    is_field_name(name) && is_field_value(value)
}

fn are_all_fields(fields: &[(String, String)]) -> bool
    ensures { result ≡ list_all (λ pair. spec.is_field (field_of pair)) fields.now }
{
    fields
        .iter()
        .all(|field| is_field(field.0.as_str(), field.1.as_str()))
}

fn are_extra_fields(fields: &[(String, String)]) -> bool
    ensures { result ≡ (nat_le (length fields.now) most_fields
        && list_all (λ pair. spec.is_field (field_of pair)) fields.now) }
{
    fields.len() <= MOST_FIELDS && are_all_fields(fields)
}

fn is_user_agent(agent: &Option<String>) -> bool
    ensures { result ≡ option_map_or spec.is_field_value (option_map string_bytes agent.now) true }
{
    match agent {
        Some(agent) => is_field_value(agent.as_str()),
        None => true,
    }
}

/// Whether all that the settings would add to the head may be sent.
pub fn are_fields(settings: &Settings) -> bool
    ensures { result ≡ spec.are_fields settings.now }
{
    are_extra_fields(settings.fields.as_slice()) && is_user_agent(&settings.user_agent)
}

//! The bytes of a request (RFC 9112, sections 2.1, 3 and 5).
ghost use Rattle.std.specs.Prelude.{◌≡◌, ◌==◌, ◌++◌, ◌||◌, not, [], ◌∷◌, map, option_map, string_bytes, unwrap_or, OnOk, IfOk};
ghost use Rattle.std.specs.List.{list_any};
ghost use Rattle.mx_types.specs.Settings.{field_of};
ghost use Rattle.mx_request.specs.RequestBytes as spec;
ghost use Rattle.url.specs.Parts.{IsValid};

use crate::Endpoint;
use crate::fields::{is_private, is_same_name};
use mx_types::{Method, Settings};
use std::alloc::{AllocError, Global};
use url::Url;

/// The port of `http` URLs that name none (RFC 9110, section 4.2.1).
const HTTP_PORT: u16 = 80;

/// Where a request for the URL goes.
pub fn endpoint_of(alloc: Global, url: &Url) -> Result<Endpoint, AllocError>
    ensures value { IfOk result (λ endpoint. endpoint ≡ spec.endpoint_of url.now) }
    ensures valid { IsValid url.now }
{
    let port = url.port().unwrap_or(HTTP_PORT);
    let host = String::from_str(alloc, url.host_str().unwrap_or(""))?;
    Ok(Endpoint { host, port })
}

// rule request-host
fn put_target(out: &mut Vec<u8>, url: &Url) -> Result<(), AllocError>
    ensures { OnOk result (out.new.items ≡ out.old.items ++ spec.target url.now) }
{
    out.extend_from_slice(url.path().as_bytes())?;
    if let Some(query) = url.query() {
        out.extend_from_slice(b"?")?;
        out.extend_from_slice(query.as_bytes())?;
    }
    Ok(())
}

/// Adds the request line and its end.
fn put_request_line(out: &mut Vec<u8>, method: Method, url: &Url) -> Result<(), AllocError>
    ensures { OnOk result
        (out.new.items ≡ out.old.items ++ spec.ended (spec.request_line method url.now)) }
{
    out.extend_from_slice(method.as_str().as_bytes())?;
    out.extend_from_slice(b" ")?;
    put_target(out, url)?;
    out.extend_from_slice(b" HTTP/1.1\r\n")
}

/// Adds the line of a field and its end.
fn put_field(out: &mut Vec<u8>, name: &str, value: &str) -> Result<(), AllocError>
    ensures { OnOk result (out.new.items ≡ out.old.items
        ++ spec.field_lines (record { name = name.now; value = value.now } ∷ [])) }
{
    out.extend_from_slice(name.as_bytes())?;
    out.extend_from_slice(b": ")?;
    out.extend_from_slice(value.as_bytes())?;
    out.extend_from_slice(b"\r\n")
}

/// Whether the port isn't the default of `http` URLs.
fn has_port(endpoint: &Endpoint) -> bool
    ensures { result ≡ not (endpoint.now.port == 80) }
{
    endpoint.port != HTTP_PORT
}

// rule request-host
/// Adds the line of the host.
fn put_host(alloc: Global, out: &mut Vec<u8>, endpoint: &Endpoint) -> Result<(), AllocError>
    ensures { OnOk result (out.new.items ≡ out.old.items
        ++ spec.field_lines (spec.host_field endpoint.now ∷ [])) }
{
    out.extend_from_slice(b"Host: ")?;
    out.extend_from_slice(endpoint.host.as_bytes())?;
    if has_port(endpoint) {
        out.extend_from_slice(b":")?;
        out.extend_from_slice(endpoint.port.to_string(alloc)?.as_bytes())?;
    }
    out.extend_from_slice(b"\r\n")
}

/// Adds the line of the user agent, where one is set.
fn put_user_agent(out: &mut Vec<u8>, agent: &Option<String>) -> Result<(), AllocError>
    ensures { OnOk result (out.new.items ≡ out.old.items
        ++ spec.field_lines (spec.user_agent_fields (option_map string_bytes agent.now))) }
{
    match agent {
        Some(agent) => put_field(out, "User-Agent", agent.as_str()),
        None => Ok(()),
    }
}

/// Whether one of the caller's fields says what is accepted.
fn says_accept(fields: &[(String, String)]) -> bool
    ensures { result ≡ list_any (λ pair. spec.is_accept (field_of pair)) fields.now }
{
    fields
        .iter()
        .any(|field| is_same_name(field.0.as_str(), "Accept"))
}

// rule request-accept
/// Adds the line that anything is accepted, unless the caller says what is.
fn put_accept(out: &mut Vec<u8>, fields: &[(String, String)]) -> Result<(), AllocError>
    ensures { OnOk result (out.new.items ≡ out.old.items
        ++ spec.field_lines (spec.accept_fields (map field_of fields.now))) }
{
    if says_accept(fields) {
        return Ok(());
    }
    put_field(out, "Accept", "*/*")
}

// rule redirect-private-fields
/// Whether an endpoint is sent the field: unless it is private and the endpoint isn't the first of its chain.
fn is_told(name: &str, is_first: bool) -> bool
    ensures { result ≡ (is_first || not (spec.is_private_name name.now)) }
{
    is_first || !is_private(name)
}

/// Adds the line of a field, if the endpoint is sent it.
fn put_told(out: &mut Vec<u8>, name: &str, value: &str, is_first: bool) -> Result<(), AllocError>
    ensures { OnOk result (out.new.items ≡ out.old.items
        ++ spec.field_lines (spec.told_fields is_first (record { name = name.now; value = value.now } ∷ []))) }
{
    if is_told(name, is_first) {
        return put_field(out, name, value);
    }
    Ok(())
}

/// Adds the lines of the caller's fields that the endpoint is sent, in order.
fn put_fields(
    out: &mut Vec<u8>,
    fields: &[(String, String)],
    is_first: bool,
) -> Result<(), AllocError>
    ensures { OnOk result (out.new.items ≡ out.old.items
        ++ spec.field_lines (spec.told_fields is_first (map field_of fields.now))) }
{
    for field in fields {
        put_told(out, field.0.as_str(), field.1.as_str(), is_first)?;
    }
    Ok(())
}

// rule request-body-length
/// Adds the line of the body's length, where there is a body.
fn put_length(alloc: Global, out: &mut Vec<u8>, body: &Option<Vec<u8>>) -> Result<(), AllocError>
    ensures { OnOk result (out.new.items ≡ out.old.items
        ++ spec.field_lines (spec.length_fields (option_map (λ bytes. bytes.items) body.now))) }
{
    match body {
        Some(body) => put_field(out, "Content-Length", body.len().to_string(alloc)?.as_str()),
        None => Ok(()),
    }
}

/// Adds the body, where there is one.
fn put_body(out: &mut Vec<u8>, body: &Option<Vec<u8>>) -> Result<(), AllocError>
    ensures { OnOk result (out.new.items ≡ out.old.items
        ++ unwrap_or (option_map (λ bytes. bytes.items) body.now) []) }
{
    match body {
        Some(body) => out.extend_from_slice(body.as_slice()),
        None => Ok(()),
    }
}

/// Adds the lines of all that the settings add to the head.
fn put_settings(
    alloc: Global,
    out: &mut Vec<u8>,
    agent: &Option<String>,
    fields: &[(String, String)],
    body: &Option<Vec<u8>>,
    is_first: bool,
) -> Result<(), AllocError>
    ensures { OnOk result (out.new.items ≡ out.old.items ++ spec.field_lines
        (spec.user_agent_fields (option_map string_bytes agent.now)
        ++ (spec.accept_fields (map field_of fields.now)
        ++ (spec.told_fields is_first (map field_of fields.now)
        ++ spec.length_fields (option_map (λ bytes. bytes.items) body.now))))) }
{
    put_user_agent(out, agent)?;
    put_accept(out, fields)?;
    put_fields(out, fields, is_first)?;
    put_length(alloc, out, body)
}

/// Adds the request line, the fields and the empty line.
fn put_head(
    alloc: Global,
    out: &mut Vec<u8>,
    method: Method,
    url: &Url,
    endpoint: &Endpoint,
    settings: &Settings,
    is_first: bool,
) -> Result<(), AllocError>
    requires { endpoint.now ≡ spec.endpoint_of url.now }
    ensures { OnOk result (out.new.items ≡ out.old.items ++ spec.request_head method url.now
        (record settings.now { fields = spec.told_fields is_first settings.now.fields })) }
{
    put_request_line(out, method, url)?;
    put_host(alloc, out, endpoint)?;
    put_settings(
        alloc,
        out,
        &settings.user_agent,
        settings.fields.as_slice(),
        &settings.body,
        is_first,
    )?;
    out.extend_from_slice(b"\r\n")?;
    Ok(())
}

/// The bytes of a request: its head and its body. Private fields are left out unless the endpoint is the first of its chain.
pub fn request_bytes(
    alloc: Global,
    method: Method,
    url: &Url,
    endpoint: &Endpoint,
    settings: &Settings,
    is_first: bool,
) -> Result<Vec<u8>, AllocError>
    requires { endpoint.now ≡ spec.endpoint_of url.now }
    ensures { IfOk result (λ v. v.items ≡ spec.request_bytes method url.now
        (record settings.now { fields = spec.told_fields is_first settings.now.fields })) }
{
    let mut out = Vec::new(alloc);
    put_head(alloc, &mut out, method, url, endpoint, settings, is_first)?;
    put_body(&mut out, &settings.body)?;
    Ok(out)
}

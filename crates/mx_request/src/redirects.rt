//! What a redirect makes of a request's method and settings (RFC 9110, section 15.4).
ghost use Rattle.std.specs.Prelude.{◌≡◌, ◌==◌, ◌&&◌, not, map, option_map, string_bytes, None, IfOk, if◌then◌else◌};
ghost use Rattle.mx_types.specs.Method.{is_head};
ghost use Rattle.mx_types.specs.Settings.{field_of};
ghost use Rattle.mx_request.specs.Redirects as spec;

use mx_types::{Method, Settings};
use std::alloc::{AllocError, Global};

/// Whether responses of that status send a request on, where they have a Location.
pub fn is_redirect(status: u16) -> bool
    ensures { result ≡ spec.is_redirect_status status }
{
    matches!(status, 301 | 302 | 303 | 307 | 308)
}

fn is_moved(status: u16) -> bool
    ensures { result ≡ spec.is_moved status }
{
    status == 301 || status == 302
}

fn is_post(method: Method) -> bool
    ensures { result ≡ spec.is_post method }
{
    matches!(method, Method::Post)
}

/// Whether the status is 303 and makes a GET of the method.
fn sees_other(status: u16, method: Method) -> bool
    ensures { result ≡ (status == 303 && not (is_head method)) }
{
    status == 303 && !method.is_head()
}

/// Whether the status is 301 or 302 and makes a GET of the method.
fn moves_post(status: u16, method: Method) -> bool
    ensures { result ≡ (spec.is_moved status && spec.is_post method) }
{
    is_moved(status) && is_post(method)
}

// rule redirect-method
/// Whether the next request is a GET without a body, whatever this one is.
fn becomes_get(status: u16, method: Method) -> bool
    ensures { result ≡ spec.becomes_get status method }
{
    sees_other(status, method) || moves_post(status, method)
}

/// The method of the next request.
pub fn next_method(status: u16, method: Method) -> Method
    ensures { result ≡ spec.next_method status method }
{
    if becomes_get(status, method) {
        Method::Get
    } else {
        method
    }
}

fn copy_text(alloc: Global, text: &Option<String>) -> Result<Option<String>, AllocError>
    ensures { IfOk result (λ copy. option_map string_bytes copy ≡ option_map string_bytes text.now) }
{
    match text {
        Some(text) => Ok(Some(String::from_str(alloc, text.as_str())?)),
        None => Ok(None),
    }
}

fn copy_fields(
    alloc: Global,
    fields: &[(String, String)],
) -> Result<Vec<(String, String)>, AllocError>
    ensures { IfOk result (λ copy. map field_of copy.items ≡ map field_of fields.now) }
{
    let mut copy = Vec::new(alloc);
    for field in fields {
        let name = String::from_str(alloc, field.0.as_str())?;
        let value = String::from_str(alloc, field.1.as_str())?;
        copy.push((name, value))?;
    }
    Ok(copy)
}

fn copy_body(alloc: Global, body: &Option<Vec<u8>>) -> Result<Option<Vec<u8>>, AllocError>
    ensures { IfOk result (λ copy. option_map (λ bytes. bytes.items) copy ≡ option_map (λ bytes. bytes.items) body.now) }
{
    match body {
        Some(body) => {
            let mut copy = Vec::new(alloc);
            copy.extend_from_slice(body.as_slice())?;
            Ok(Some(copy))
        }
        None => Ok(None),
    }
}

/// The body of the next request, in memory of its own.
fn next_body(
    alloc: Global,
    status: u16,
    method: Method,
    body: &Option<Vec<u8>>,
) -> Result<Option<Vec<u8>>, AllocError>
    ensures { IfOk result (λ next. option_map (λ bytes. bytes.items) next
        ≡ if spec.becomes_get status method then None else option_map (λ bytes. bytes.items) body.now) }
{
    if becomes_get(status, method) {
        return Ok(None);
    }
    copy_body(alloc, body)
}

/// Settings with these parts, and with how long these may take and how many redirects they follow.
fn settings_with(
    settings: &Settings,
    user_agent: Option<String>,
    fields: Vec<(String, String)>,
    body: Option<Vec<u8>>,
) -> Settings
    ensures { result ≡ record {
      user_agent = option_map string_bytes user_agent;
      fields = map field_of fields.items;
      body = option_map (λ bytes. bytes.items) body;
      timeout_ms = settings.now.timeout_ms;
      max_redirects = settings.now.max_redirects;
    } }
{
    Settings {
        user_agent,
        fields,
        body,
        timeout_ms: settings.timeout_ms,
        max_redirects: settings.max_redirects,
    }
}

/// The settings of the next request, in memory of their own.
pub fn next_settings(
    alloc: Global,
    status: u16,
    method: Method,
    settings: &Settings,
) -> Result<Settings, AllocError>
    ensures { IfOk result (λ next. next ≡ spec.next_settings status method settings.now) }
{
    let user_agent = copy_text(alloc, &settings.user_agent)?;
    let fields = copy_fields(alloc, settings.fields.as_slice())?;
    let body = next_body(alloc, status, method, &settings.body)?;
    Ok(settings_with(settings, user_agent, fields, body))
}

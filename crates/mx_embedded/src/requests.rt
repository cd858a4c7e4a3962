//! Requests from bytes.
ghost use Rattle.std.specs.Prelude.{◌≡◌, ◌⊎◌, IfErr, IfOk, option_copied};
ghost use Rattle.mx_types.specs.declared.code.Code.TheVariants as code;
ghost use Rattle.mx_embedded.specs.Words.{AreNoFields, AreSettings, IsRequestOf, RefusesWords};

use crate::fields::{copy_bytes, put_fields};
use mx_request::Request;
use mx_types::{Code, Method, Settings};
use std::alloc::Global;

/// What a request is made of, as bytes.
#[derive(Clone, Copy)]
pub struct Words<'b> {
    /// The method in capitals.
    pub method: &'b [u8],
    pub url: &'b [u8],
    /// Lines `Name: value`, which end with LF or CRLF.
    pub fields: &'b [u8],
    pub body: Option<&'b [u8]>,
    /// 0 for no limit.
    pub timeout_ms: u32,
    /// How many redirects are followed: 255 at most.
    pub max_redirects: u32,
}

// The settings of a request.
fn settings_of(alloc: Global, words: Words<'_>) -> Result<Settings, Code>
    ensures set { IfOk result (AreSettings words.entry.fields.now (option_copied words.entry.body) words.entry.timeout_ms words.entry.max_redirects) }
    ensures refused { IfErr result (λ c. (c ≡ code.OutOfMemory) ⊎ ((c ≡ code.UrlMalformat) × AreNoFields words.entry.fields.now)) }
{
    let Ok(fields) = std::str::from_utf8(words.fields) else {
        return Err(Code::UrlMalformat);
    };
    let mut settings = Settings::new(alloc);
    put_fields(alloc, &mut settings, fields)?;
    settings.body = match words.body {
        Some(body) => Some(copy_bytes(alloc, body)?),
        None => None,
    };
    settings.timeout_ms = words.timeout_ms;
    settings.max_redirects = u8::try_from(words.max_redirects).unwrap_or(u8::MAX);
    Ok(settings)
}

/// The request, by `Request::build`, with the URL in the text.
///
/// Where it can't be built the error is the code of `RequestError`; `UnsupportedProtocol` where the method is none of the six, `UrlMalformat`
/// where the URL or the fields aren't UTF-8, or a line of the fields has no colon; `OutOfMemory` in place of any where memory is refused.
pub fn request_of(alloc: Global, words: Words<'_>) -> Result<Request, Code>
    ensures built { IfOk result (IsRequestOf words.entry.method.now words.entry.url.now words.entry.fields.now (option_copied words.entry.body) words.entry.timeout_ms words.entry.max_redirects) }
    ensures refused { IfErr result (RefusesWords words.entry.method.now words.entry.url.now words.entry.fields.now (option_copied words.entry.body) words.entry.timeout_ms words.entry.max_redirects) }
{
    let Ok(Ok(method)) = std::str::from_utf8(words.method).map(|text| text.parse::<Method>()) else {
        return Err(Code::UnsupportedProtocol);
    };
    let Ok(url) = std::str::from_utf8(words.url) else {
        return Err(Code::UrlMalformat);
    };
    let settings = settings_of(alloc, words)?;
    match Request::build(alloc, method, url, settings) {
        Ok(request) => Ok(request),
        Err(refused) => Err(refused.code()),
    }
}

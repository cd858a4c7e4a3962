//! Requests, and what they are built from.
ghost use Rattle.std.specs.Prelude.{◌≡◌, ◌<◌, ◌⊎◌, IsTrue, bytes_eq, codes, length, option_map, Ok, Err, None, MatchResult, IfOk};
ghost use Rattle.mx_request.specs.Endpoint.{is_same_endpoint};
ghost use Rattle.mx_request.specs.Limits.{most_text};
ghost use Rattle.mx_request.specs.Request as spec;
ghost use Rattle.mx_request.specs.Redirects.{is_redirect_status, short_url, joined_url, next_request};
ghost use Rattle.mx_request.specs.Request.{RequestValue, IsBuiltFrom, IsRequest, checked_url, url_of, chained, request_of};
ghost use Rattle.mx_request.specs.declared.error.RequestError.TheVariants as refusal;
ghost use Rattle.url.specs.Parts.{IsValid, has_credentials};

use crate::fields::are_fields;
use crate::redirects::{next_method, next_settings};
use crate::wire::{endpoint_of, request_bytes};
use crate::{Endpoint, RequestError};
use mx_types::{Method, Settings};
use std::alloc::{AllocError, Global};
use std::marker::Model;
use url::{ParseError, Url};

// rule request-url-size
/// The most bytes of a URL's text.
const MOST_TEXT: usize = 65_536;

// rule request-body-size
/// The most bytes of a body.
const MOST_BODY: usize = 1_048_576;

/// A request: its method, its URL, where it goes, the bytes that go there, and how long it may take; and what a request that follows
/// it is made from: its settings, and the endpoint of the first request of its chain. Contracts see it as these.
pub struct Request {
    method: Method,
    url: Url,
    settings: Settings,
    first: Endpoint,
    endpoint: Endpoint,
    bytes: Vec<u8>,
}

// Written out, and not derived: a crate that drops a request cites its proof.
impl Drop for Request {
    fn drop(self) {
        let Request {
            method: _,
            url,
            settings,
            first,
            endpoint,
            bytes,
        } = self;
        drop(url);
        drop(settings);
        drop(first);
        drop(endpoint);
        drop(bytes);
    }
}

impl Model for Request {
    ghost use Rattle.mx_request.specs.Request.{RequestValue, IsRequest};

    ghost Value = { RequestValue };

    ghost view = { λ r. record {
      method = r.method;
      url = r.url;
      settings = r.settings;
      first = r.first;
      endpoint = r.endpoint;
      bytes = r.bytes.items;
      timeout_ms = r.settings.timeout_ms;
    } };

    ghost invariant = { λ r. IsRequest (record {
      method = r.method;
      url = r.url;
      settings = r.settings;
      first = r.first;
      endpoint = r.endpoint;
      bytes = r.bytes.items;
      timeout_ms = r.settings.timeout_ms;
    }) };
}

impl Request {
    /// The method.
    pub fn method(&self) -> Method
        ensures { result ≡ self.now.method }
    {
        self.method
    }

    /// Where the request goes.
    pub fn endpoint(&self) -> &Endpoint
        ensures { result.now ≡ self.now.endpoint }
    {
        &self.endpoint
    }

    /// The bytes that go out: the head and the body.
    pub fn bytes(&self) -> &[u8]
        ensures { result.now ≡ self.now.bytes }
    {
        self.bytes.as_slice()
    }

    /// The longest that the transfer may take, in milliseconds; 0 for no limit.
    pub fn timeout_ms(&self) -> u32
        ensures { result ≡ self.now.timeout_ms }
    {
        self.settings.timeout_ms
    }

    /// How many redirects are followed from the first request of its chain on; 0 for none.
    pub fn max_redirects(&self) -> u8
        ensures { result ≡ self.now.settings.max_redirects }
    {
        self.settings.max_redirects
    }

    /// What holds of every request. It does nothing: a call gives its caller's proof the law.
    pub fn know(&self)
        ensures { IsRequest self.now }
    {
        // proof: what holds of a request
        let _method = self.method;
    }
}

fn is_http(url: &Url) -> bool
    ensures { result ≡ bytes_eq url.now.scheme (codes "http") }
{
    url.scheme() == "http"
}

fn has_credentials(url: &Url) -> bool
    ensures { result ≡ has_credentials url.now }
{
    !url.username().is_empty() || url.password().is_some()
}

/// Tests a URL's scheme, and then that it has no user name and no password.
fn check_url(url: Url) -> Result<Url, RequestError>
    ensures { result ≡ checked_url (Ok url) }
{
    if !is_http(&url) {
        return Err(RequestError::Scheme);
    }
    if has_credentials(&url) {
        return Err(RequestError::UserInfo);
    }
    Ok(url)
}

// rule request-url-size
/// Parses a text without a base, and tests the URL.
fn parse_url(alloc: Global, text: &str) -> Result<Url, RequestError>
    ensures answer { MatchResult result (λ url. url_of text.now ≡ Ok url)
        (λ e. (url_of text.now ≡ Err e) ⊎ (e ≡ refusal.OutOfMemory)) }
    ensures too_long { most_text < length text.now → result ≡ Err refusal.Malformed }
{
    if text.len() > MOST_TEXT {
        return Err(RequestError::Malformed);
    }
    match Url::parse(alloc, text) {
        Ok(url) => check_url(url),
        // `Overflow` is a URL of over 4 GB, which a text of at most 65,536 bytes can't become.
        Err(ParseError::OutOfMemory | ParseError::Overflow) => Err(RequestError::OutOfMemory),
        Err(_) => Err(RequestError::Malformed),
    }
}

/// Whether the body has more bytes than a request may have.
fn is_body_too_large(body: &Option<Vec<u8>>) -> bool
    ensures { result ≡ spec.is_body_too_large (option_map (λ bytes. bytes.items) body.now) }
{
    match body {
        Some(body) => body.len() > MOST_BODY,
        None => false,
    }
}

// rule request-refusals
/// Why the settings are refused, if they are: the fields first, then the body.
fn refusal_of(settings: &Settings) -> Option<RequestError>
    ensures { result ≡ spec.refusal_of settings.now }
{
    if !are_fields(settings) {
        return Some(RequestError::BadField);
    }
    if is_body_too_large(&settings.body) {
        return Some(RequestError::BodyTooLarge);
    }
    None
}

// rule redirect-private-fields
/// Whether an endpoint is the first of its chain.
fn is_first(endpoint: &Endpoint, first: &Endpoint) -> bool
    ensures { result ≡ is_same_endpoint endpoint.now first.now }
{
    *endpoint == *first
}

/// The request of a method to a URL that was checked, by settings that aren't refused, in a chain whose first request went to `first`.
fn request_in_chain(
    alloc: Global,
    first: Endpoint,
    method: Method,
    url: Url,
    settings: Settings,
) -> Result<Request, AllocError>
    requires checked { checked_url (Ok url) ≡ Ok url }
    requires allowed { spec.refusal_of settings ≡ None }
    ensures value { IfOk result (λ r. r ≡ chained first method url settings) }
{
    let endpoint = endpoint_of(alloc, &url)?;
    let is_first = is_first(&endpoint, &first);
    let bytes = request_bytes(alloc, method, &url, &endpoint, &settings, is_first)?;
    Ok(Request {
        method,
        url,
        settings,
        first,
        endpoint,
        bytes,
    })
}

/// Tests a URL that was joined: its length, then its scheme, and then that it has no user name and no password.
fn check_joined(url: Url) -> Result<Url, RequestError>
    ensures { result ≡ short_url (Ok url) }
{
    if url.as_str().len() > MOST_TEXT {
        return Err(RequestError::Malformed);
    }
    check_url(url)
}

// rule redirect-next-url
/// The URL that a Location leads to, tested.
fn join_url(base: &Url, location: &[u8]) -> Result<Url, RequestError>
    ensures { MatchResult result (λ url. joined_url base.now location.now ≡ Ok url)
        (λ e. (joined_url base.now location.now ≡ Err e) ⊎ (e ≡ refusal.OutOfMemory)) }
{
    let Ok(text) = str::from_utf8(location) else {
        return Err(RequestError::Malformed);
    };
    match base.join(text) {
        Ok(url) => check_joined(url),
        Err(ParseError::Overflow | ParseError::OutOfMemory) => Err(RequestError::OutOfMemory),
        Err(_) => Err(RequestError::Malformed),
    }
}

impl Request {
    // rule request-refusals
    /// Builds the request of a method for the URL in the text (URL Standard, section 4.4, without a base).
    ///
    /// # Errors
    ///
    /// The first that applies, in this order:
    ///
    /// - `Malformed`: the text is over 65,536 bytes, or it is no URL;
    /// - `Scheme`: the URL's scheme isn't `http`;
    /// - `UserInfo`: the URL has a user name or a password;
    /// - `BadField`: there are more than 64 fields, or a name or a value, the user agent's too, can't be sent;
    /// - `BodyTooLarge`: the body is over 1,048,576 bytes.
    ///
    /// `OutOfMemory` comes in place of any of these, or of the request, where a growth was refused; a text
    /// over 65,536 bytes is refused before anything grows. A refusal drops the settings.
    pub fn build(
        alloc: Global,
        method: Method,
        text: &str,
        settings: Settings,
    ) -> Result<Request, RequestError>
        // the request, or just the refusal that the definition gives, `OutOfMemory` aside
        ensures answer { MatchResult result (λ r. request_of method text.now settings ≡ Ok r)
            (λ e. (request_of method text.now settings ≡ Err e) ⊎ (e ≡ refusal.OutOfMemory)) }
        ensures built { IfOk result (IsBuiltFrom method text.now settings) }
        ensures too_long { most_text < length text.now → result ≡ Err refusal.Malformed }
    {
        let url = parse_url(alloc, text)?;
        if let Some(refused) = refusal_of(&settings) {
            return Err(refused);
        }
        let first = endpoint_of(alloc, &url)?;
        Ok(request_in_chain(alloc, first, method, url, settings)?)
    }

    /// The request that follows this one where its response has that status and that Location (RFC 9110, section 15.4). The URL is the
    /// join of the Location with this request's. 303 makes each method but HEAD a GET without a body, 301 and 302 make POST one; all else
    /// keeps method and body. The fields Authorization and Cookie are sent only to the endpoint of the first request of the chain.
    ///
    /// # Errors
    ///
    /// The first that applies, in this order:
    ///
    /// - `Malformed`: the Location isn't UTF-8, its join is no URL, or that URL is over 65,536 bytes;
    /// - `Scheme`: the URL's scheme isn't `http`;
    /// - `UserInfo`: the URL has a user name or a password.
    ///
    /// `OutOfMemory` comes in place of any of these, or of the request, where a growth was refused.
    pub fn follow(
        &self,
        alloc: Global,
        status: u16,
        location: &[u8],
    ) -> Result<Request, RequestError>
        requires { IsTrue (is_redirect_status status) }
        ensures { MatchResult result (λ r. next_request self.now status location.now ≡ Ok r)
            (λ e. (next_request self.now status location.now ≡ Err e) ⊎ (e ≡ refusal.OutOfMemory)) }
    {
        let url = match join_url(&self.url, location) {
            Ok(url) => url,
            Err(refused) => return Err(refused),
        };
        let first = self.first.copy(alloc)?;
        let settings = next_settings(alloc, status, self.method, &self.settings)?;
        Ok(request_in_chain(
            alloc,
            first,
            next_method(status, self.method),
            url,
            settings,
        )?)
    }
}

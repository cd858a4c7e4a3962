//! What is asked of each URL.
ghost use Rattle.std.specs.Prelude.{◌≡◌, ◌⊎◌, Ok, Err, IfOk, MatchResult, map, option_map, string_bytes};
ghost use Rattle.mx_types.specs.Settings.{field_of};
ghost use Rattle.mx_request.specs.Request.{IsRequest, request_of};
ghost use Rattle.mx_request.specs.declared.error.RequestError.TheVariants as refusal;

use mx_request::{Request, RequestError};
use mx_types::{Method, Settings};
use std::alloc::{AllocError, Global};

/// What is asked of each URL of a run, and what is done with its response.
#[derive(Drop)]
pub struct Asking {
    /// The method of the requests.
    pub method: Method,
    /// Their settings.
    pub settings: Settings,
    /// How many further tries a URL has.
    pub retries: u8,
    /// The most bytes that a body may have, where there is a limit.
    pub most_bytes: Option<u64>,
    /// A URL whose file is there isn't asked for.
    pub skip_existing: bool,
    /// Responses whose status isn't 2xx are saved, too.
    pub content_on_error: bool,
}

fn copy_text(alloc: Global, text: &Option<String>) -> Result<Option<String>, AllocError>
    ensures { IfOk result (λ copy. option_map string_bytes copy ≡ option_map string_bytes text.now) }
{
    match text {
        Some(text) => Ok(Some(String::from_str(alloc, text.as_str())?)),
        None => Ok(None),
    }
}

fn copy_fields(
    alloc: Global,
    fields: &[(String, String)],
) -> Result<Vec<(String, String)>, AllocError>
    ensures { IfOk result (λ copy. map field_of copy.items ≡ map field_of fields.now) }
{
    let mut copy = Vec::new(alloc);
    for field in fields {
        let name = String::from_str(alloc, field.0.as_str())?;
        let value = String::from_str(alloc, field.1.as_str())?;
        copy.push((name, value))?;
    }
    Ok(copy)
}

fn copy_body(alloc: Global, body: &Option<Vec<u8>>) -> Result<Option<Vec<u8>>, AllocError>
    ensures { IfOk result (λ copy. option_map (λ bytes. bytes.items) copy ≡ option_map (λ bytes. bytes.items) body.now) }
{
    match body {
        Some(body) => Ok(Some(Vec::from_slice(alloc, body.as_slice())?)),
        None => Ok(None),
    }
}

fn copy_settings(alloc: Global, settings: &Settings) -> Result<Settings, AllocError>
    ensures { IfOk result (λ copy. copy ≡ settings.now) }
{
    let user_agent = copy_text(alloc, &settings.user_agent)?;
    let fields = copy_fields(alloc, settings.fields.as_slice())?;
    let body = copy_body(alloc, &settings.body)?;
    Ok(Settings {
        user_agent,
        fields,
        body,
        timeout_ms: settings.timeout_ms,
        max_redirects: settings.max_redirects,
    })
}

// Returns what was built, and gives the proof the fact that it is a request.
fn known(built: Result<Request, RequestError>) -> Result<Request, RequestError>
    ensures same { result ≡ built }
    ensures known { IfOk result IsRequest }
{
    if let Ok(request) = &built {
        // proof: what holds of a request
        request.know();
    }
    built
}

impl Asking {
    /// The request of a URL, or why it is refused. `OutOfMemory` may come in place of either.
    pub fn request(&self, alloc: Global, url: &str) -> Result<Request, RequestError>
        ensures known { IfOk result IsRequest }
        ensures answer { MatchResult result (λ r. request_of self.now.method url.now self.now.settings ≡ Ok r)
            (λ e. (request_of self.now.method url.now self.now.settings ≡ Err e) ⊎ (e ≡ refusal.OutOfMemory)) }
    {
        let Ok(settings) = copy_settings(alloc, &self.settings) else {
            return Err(RequestError::OutOfMemory);
        };
        known(Request::build(alloc, self.method, url, settings))
    }
}

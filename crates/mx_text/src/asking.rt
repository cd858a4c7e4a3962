//! The request of a URL.
ghost use Rattle.std.specs.Prelude.{◌≡◌, ◌⊎◌, Ok, Err, MatchResult};
ghost use Rattle.mx_request.specs.RequestError.{refusal_code};
ghost use Rattle.mx_request.specs.declared.error.RequestError.TheVariants as refusal;
ghost use Rattle.mx_text.specs.Asking.{asked_for};

use mx_request::{Request, RequestError};
use mx_types::{Method, Settings};
use std::alloc::Global;

/// The GET of a URL, which may take so many milliseconds and follow so many redirects.
///
/// # Errors
///
/// `RequestError` as `Request::build` has it.
pub fn build_get(
    alloc: Global,
    url: &str,
    timeout_ms: u32,
    max_redirects: u8,
) -> Result<Request, RequestError>
    ensures { MatchResult result (λ r. asked_for timeout_ms max_redirects url.now ≡ Ok r)
        (λ e. (asked_for timeout_ms max_redirects url.now ≡ Err (refusal_code e)) ⊎ (e ≡ refusal.OutOfMemory)) }
{
    let mut settings = Settings::new(alloc);
    settings.timeout_ms = timeout_ms;
    settings.max_redirects = max_redirects;
    Request::build(alloc, Method::Get, url, settings)
}

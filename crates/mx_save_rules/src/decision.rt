//! What is done with the response that a transfer ended with.
ghost use Rattle.std.specs.Prelude.{◌≡◌};
ghost use Rattle.mx_save_rules.specs.Decisions.{is_success, has_no_file, IsDecision};
ghost use Rattle.mx_types.specs.Code.{code_number};

use crate::code::SaveCode;
use mx_types::{Code, Method};

/// What is done with a response.
#[derive(Clone, Copy, PartialEq, Eq)]
pub enum Decision {
    /// Its body is saved.
    Save,
    /// It is whole, and there is nothing to save.
    Done,
    /// The URL has failed with this code, and nothing is saved.
    Fail(SaveCode),
}

/// Whether the status is one of success (RFC 9110, section 15.3): 200 to 299.
fn is_success(status: u16) -> bool
    ensures { result ≡ is_success status }
{
    200 <= status && status <= 299
}

/// Whether a response has no body by its request or its status: an answer to HEAD, 204, 205 and 304 (RFC 9110, sections 9.3.2, 15.3.5,
/// 15.3.6 and 15.4.5).
fn has_no_file(method: Method, status: u16) -> bool
    ensures { result ≡ has_no_file method status }
{
    method.is_head() || status == 204 || status == 205 || status == 304
}

// rule save-decision
/// What is done with what a transfer ended with: its code, the status of the last response, and the method of the last request. A transfer
/// that failed has its own code; a status that isn't 2xx fails with 22, for HEAD as well, unless `content_on_error` asks for such responses
/// too; else the body is saved, where there can be one.
pub fn verdict_of(code: Code, method: Method, status: u16, content_on_error: bool) -> Decision
    ensures { IsDecision code method status content_on_error result }
{
    if !matches!(code, Code::Ok) {
        return Decision::Fail(SaveCode::Transfer(code));
    }
    if !is_success(status) && !content_on_error {
        return Decision::Fail(SaveCode::HttpReturnedError);
    }
    if has_no_file(method, status) {
        return Decision::Done;
    }
    Decision::Save
}

//! After which ends a URL is tried again, and after how long.
ghost use Rattle.std.specs.Prelude.{◌≡◌, ◌*◌, ◌≤◌};
ghost use Rattle.mx_save_rules.specs.Rules.{is_transient_code, is_transient_status, is_retried, delay_seconds};

use mx_types::{Code, Method};

/// Whether the code is of a fault that may pass: 6, 7, 18, 28, 52, 55 or 56.
fn is_transient_code(code: Code) -> bool
    ensures { result ≡ is_transient_code code }
{
    matches!(
        code,
        Code::CouldntResolveHost
            | Code::CouldntConnect
            | Code::PartialFile
            | Code::OperationTimedout
            | Code::GotNothing
            | Code::SendError
            | Code::RecvError
    )
}

/// Whether the status is of a fault that may pass: 408, 429, 500, 502, 503 or 504 (RFC 9110, section 15; RFC 6585, section 4).
fn is_transient_status(status: u16) -> bool
    ensures { result ≡ is_transient_status status }
{
    matches!(status, 408 | 429 | 500 | 502 | 503 | 504)
}

// rule save-retries
/// Whether a URL that was fetched by that method and ended with that code and that status may be tried again: the method is GET or HEAD,
/// and the code or the status is one that may pass. The method is the one that was given, not that of a request that a redirect led to.
pub fn is_retried(method: Method, code: Code, status: u16) -> bool
    ensures { result ≡ is_retried method code status }
{
    method.is_repeatable() && (is_transient_code(code) || is_transient_status(status))
}

// rule save-retries
/// How long a URL waits after so many tries, in milliseconds: 1, 2, 4, 8, 16 and 32 seconds after the first six, and 60 after each further
/// one.
pub fn delay_ms(tries: u32) -> u64
    requires { 1 ≤ tries }
    ensures { result ≡ 1000 * delay_seconds tries }
{
    match tries {
        1 => 1_000,
        2 => 2_000,
        3 => 4_000,
        4 => 8_000,
        5 => 16_000,
        6 => 32_000,
        _ => 60_000,
    }
}

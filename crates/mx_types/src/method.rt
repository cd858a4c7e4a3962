//! The methods of requests.
ghost use Rattle.std.specs.Prelude.{◌≡◌, Some};
ghost use Rattle.mx_types.specs.Method.{method_name, IsMethodOf, is_head, is_repeatable};

use std::error::Error;
use std::fmt;
use std::str::FromStr;

/// The method of a request (RFC 9110, section 9.3).
#[derive(Clone, Copy, PartialEq, Eq)]
pub enum Method {
    Get,
    Head,
    Post,
    Put,
    Delete,
    Options,
}

impl Method {
    /// The name in the request line: capitals.
    pub fn as_str(self) -> &'static str
        ensures { result.now ≡ method_name self }
    {
        match self {
            Method::Get => "GET",
            Method::Head => "HEAD",
            Method::Post => "POST",
            Method::Put => "PUT",
            Method::Delete => "DELETE",
            Method::Options => "OPTIONS",
        }
    }

    /// Whether it is HEAD, whose responses have no body (RFC 9110, section 9.3.2).
    pub fn is_head(self) -> bool
        ensures { result ≡ is_head self }
    {
        matches!(self, Method::Head)
    }

    // rule exchange-retry
    // rule save-retries
    /// Whether a request of that method may be sent again without being asked to: GET and HEAD, which change nothing at the server
    /// (RFC 9110, section 9.2.1).
    pub fn is_repeatable(self) -> bool
        ensures { result ≡ is_repeatable self }
    {
        matches!(self, Method::Get | Method::Head)
    }
}

/// Reads a method's name, which is case-sensitive (RFC 9110, section 9.1).
impl FromStr for Method {
    type Err = ParseMethodError;

    ghost from_str_gives = { IsMethodOf };

    fn from_str(text: &str) -> Result<Method, ParseMethodError> {
        match text {
            "GET" => Ok(Method::Get),
            "HEAD" => Ok(Method::Head),
            "POST" => Ok(Method::Post),
            "PUT" => Ok(Method::Put),
            "DELETE" => Ok(Method::Delete),
            "OPTIONS" => Ok(Method::Options),
            _ => Err(ParseMethodError),
        }
    }
}

impl fmt::Display for Method {
    ghost output = { λ m. Some (method_name m) };

    fn fmt<W: fmt::Write>(&self, f: &mut fmt::Formatter<W>) -> fmt::Result {
        f.pad(self.as_str())
    }
}

/// The text is the name of no method that the engine sends.
#[derive(Clone, Copy, Debug)]
pub struct ParseMethodError;

impl fmt::Display for ParseMethodError {
    fn fmt<W: fmt::Write>(&self, f: &mut fmt::Formatter<W>) -> fmt::Result {
        write!(f, "not a method: GET, HEAD, POST, PUT, DELETE or OPTIONS")
    }
}

impl Error for ParseMethodError {}

//! Requests from URLs: which are built, the bytes that go out, and where they go.
#![tactic(auto)]

mod endpoint;
mod error;
mod fields;
pub mod laws;
mod redirects;
mod request;
mod wire;

pub use crate::endpoint::Endpoint;
pub use crate::error::RequestError;
pub use crate::redirects::is_redirect;
pub use crate::request::Request;

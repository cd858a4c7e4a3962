//! Which request an addition is of, for contracts.
use crate::method::Method;
use crate::settings::Settings;
use std::collections::LinkedList;

/// The whole of a request, as contracts compare it: its method, its URL as it is written out, its settings (how many redirects are
/// followed is one of them), and the endpoint at which its chain began. Requests of one origin are the same request, and so are those
/// that follow them. It exists in contracts alone.
pub struct Origin {
    pub method: Method,
    pub url: LinkedList<u8>,
    pub settings: Settings,
    pub first_host: LinkedList<u8>,
    pub first_port: u16,
}

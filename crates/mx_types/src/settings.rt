//! What a caller sets for a request.
ghost use Rattle.std.specs.Prelude.{◌≡◌, map, option_map, string_bytes};
ghost use Rattle.mx_types.specs.Settings.{SettingsValue, field_of, no_settings};

use std::alloc::Global;
use std::marker::Model;

/// What a caller sets for a request, beside its method and its URL. Contracts see it as bytes, lists of bytes
/// and numbers.
#[derive(Drop)]
pub struct Settings {
    /// The value of `User-Agent`; without one no such field is sent.
    pub user_agent: Option<String>,
    /// Further header fields, each a name and a value, in the order in which they are sent.
    pub fields: Vec<(String, String)>,
    /// The body, an empty one too; without one no `Content-Length` is sent.
    pub body: Option<Vec<u8>>,
    /// The longest that the transfer may take, all its hops together, in milliseconds; 0 for no limit.
    pub timeout_ms: u32,
    /// How many redirects are followed; 0 for none. What a chain holds grows with it: the request and the wire of every hop are held until
    /// the outcome is dropped. A wire has up to 64 MiB, and a request has its body twice.
    pub max_redirects: u8,
}

impl Model for Settings {
    ghost Value = { SettingsValue };

    ghost view = { λ s. record {
      user_agent = option_map string_bytes s.user_agent;
      fields = map field_of s.fields.items;
      body = option_map (λ bytes. bytes.items) s.body;
      timeout_ms = s.timeout_ms;
      max_redirects = s.max_redirects;
    } };
}

impl Settings {
    /// No user agent, no field, no body, no limit of time, and no redirect followed. It takes no memory.
    pub fn new(alloc: Global) -> Settings
        ensures { result ≡ no_settings }
    {
        Settings {
            user_agent: None,
            fields: Vec::new(alloc),
            body: None,
            timeout_ms: 0,
            max_redirects: 0,
        }
    }
}

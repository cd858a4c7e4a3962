//! The trait that every lookup has.
ghost use Rattle.std.specs.Prelude.{◌≡◌, ℕ, List, Result, true, IfErr};
ghost use Rattle.std.specs.declared.net.SocketAddr.{SocketAddr as Address};
ghost use Rattle.mx_types.specs.declared.code.Code.{Code as OneCode};
ghost use Rattle.mx_names.specs.Addresses.{is_lookup_code};

use crate::addresses::Addresses;
use mx_types::Code;

/// A way to look a host up.
pub trait Lookup {
    // What the lookup of a host may give.
    // A relation of the type, not of a value, so that it holds for what is behind a lock, too.
    ghost gives: { List ℕ → Result (List Address) OneCode → Type 0 };

    /// The addresses of the host. It may take as long as it likes.
    ///
    /// The errors are `CouldntResolveHost`, and `OutOfMemory` where memory was refused.
    fn look_up(&self, host: &str) -> Result<Addresses, Code>
        ensures gives { gives host.now result }
        ensures code { IfErr result (λ code. is_lookup_code code ≡ true) };
}

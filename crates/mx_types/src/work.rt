//! What a multi handle has to know of the work that is put into it, and of the endings that come out.
ghost use Rattle.std.specs.Prelude.{◌≡◌, ℕ};
ghost use Rattle.mx_types.specs.declared.code.Code.{Code};
ghost use Rattle.mx_types.specs.declared.origin.Origin.{Origin};

use crate::code::Code;

/// Work for a worker: a transfer that is to be made.
pub trait Work {
    /// The request that it is about, for contracts alone.
    ghost origin: { Self → Origin };
}

/// How a transfer ended.
pub trait Ending {
    /// The request that it is about, for contracts alone.
    ghost origin: { Self → Origin };

    /// The code and the length of the body, for contracts alone.
    ghost code_of: { Self → Code };

    ghost size_of: { Self → ℕ };

    /// The code that the transfer ended with.
    fn code(&self) -> Code
        ensures { result ≡ code_of self.now };

    /// The length of the body in bytes.
    fn size(&self) -> u32
        ensures { result ≡ size_of self.now };
}

//! Bodies that are saved.
ghost use Rattle.std.specs.Prelude.{ℕ, List};

/// A body, for contracts alone: its bytes are written to a part as they come.
pub trait Body: Drop {
    /// Its bytes.
    ghost content: { Self → List ℕ };
}

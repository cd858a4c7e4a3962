//! A task over standard input.
use mx_types::Method;

/// What a command line asks for, over standard input.
#[derive(Clone, Copy, PartialEq, Eq)]
pub enum Task {
    /// Decode the response that is read, as the answer to that method.
    Body(Method),
    /// Play the script that is read, on a control core.
    Play {
        /// How many events its history has room for.
        history: u32,
        /// The ticket of its first addition. At 4294967295 no ticket is left.
        first: u32,
    },
}

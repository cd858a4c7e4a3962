//! The state of the bytes of a response.

ghost use Rattle.std.specs.Prelude.{◌≡◌};
ghost use Rattle.mx_flow.specs.Stages as stages;

use crate::flow::BodyState;
use mx_types::Code;

/// The state of the bytes of a response.
#[derive(Clone, Copy, PartialEq, Eq)]
pub enum StreamState {
    /// Nothing is decided yet.
    More,
    /// They are a whole response.
    Whole,
    /// They begin no response, and never will.
    Fault(Code),
}

// The state of the bytes of a response, by that of its body's.
pub(crate) fn stand_of(state: BodyState) -> StreamState
    ensures { result ≡ stages.stand_of state }
{
    match state {
        BodyState::More => StreamState::More,
        BodyState::Whole => StreamState::Whole,
        BodyState::Bad => StreamState::Fault(Code::RecvError),
        BodyState::TooLarge => StreamState::Fault(Code::FilesizeExceeded),
    }
}

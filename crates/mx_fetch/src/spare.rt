//! Gates for the workers of a second multi handle.
use mx_crew::Crew;

/// A crew, and the gates of its workers, which have ended. No clause says how many gates these are.
#[derive(Drop)]
pub(crate) struct Spare<G> {
    pub crew: Crew,
    pub gates: Vec<G>,
}

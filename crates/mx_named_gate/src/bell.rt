//! What a resolver rings when a lookup has ended.
use mx_gate::Bell;
use mx_names::Ring;

/// The bell of a gate, for a resolver to ring.
pub struct NameBell {
    bell: Bell,
}

// Written out, and not derived: a crate that drops a bell cites its proof.
impl Drop for NameBell {
    fn drop(self) {
        let NameBell { bell } = self;
        drop(bell);
    }
}

impl NameBell {
    /// This bell.
    pub fn of(bell: Bell) -> NameBell {
        NameBell { bell }
    }
}

impl Ring for NameBell {
    /// Ends the wait of its gate that is under way, else the next one, where the system allows it.
    fn ring(&self) {
        // Where the bell can't be rung, its gate waits to the end of its timeout.
        let _ = self.bell.ring();
    }
}

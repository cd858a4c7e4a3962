//! The rule of the lock, and what its steps show.

use crate::engine::Engine;
use crate::key_view::KeyView;
use crossbeam_channel::protocol::{Lesson, Outcome, Protocol, Split};
use mx_types::{Ending, Work};

/// The rule of the lock.
pub struct LockRule;

impl<Q: Work + Drop, O: Ending + Drop> Protocol<Engine<Q, O>, KeyView> for LockRule {
    ghost use Rattle.mx_lock.specs.Engine.{content};
    ghost use Rattle.mx_lock.specs.Lock.{Keeps, first_key};

    ghost holds = { Keeps content };

    ghost first = { first_key };
}

/// What a taking shows.
pub struct Takes;

impl<Q: Work + Drop, O: Ending + Drop> Outcome<Engine<Q, O>, KeyView> for Takes {
    ghost use Rattle.mx_lock.specs.Engine.{content};
    ghost use Rattle.mx_lock.specs.Lock.{Took};

    ghost then = { λ v x w. Took content v x w };
}

impl<Q: Work + Drop, O: Ending + Drop> Lesson<Engine<Q, O>, KeyView> for Takes {
    ghost fact = { λ v items. Unit {0} };
}

/// What a giving back shows: the key has seen the journal.
pub struct Gives;

impl<Q: Work + Drop, O: Ending + Drop> Outcome<Engine<Q, O>, KeyView> for Gives {
    ghost use Rattle.std.specs.Prelude.{◌≡◌};
    ghost use Rattle.mx_lock.specs.Engine.{content};
    ghost use Rattle.mx_lock.specs.Lock.{given};

    ghost then = { λ v x w. w ≡ given v (content x) };
}

impl<Q: Work + Drop, O: Ending + Drop> Lesson<Engine<Q, O>, KeyView> for Gives {
    ghost fact = { λ v items. Unit {0} };
}

/// What a putting back shows: the journal is as it was found, and the key has seen no more than before.
pub struct PutsBack;

impl<Q: Work + Drop, O: Ending + Drop> Outcome<Engine<Q, O>, KeyView> for PutsBack {
    ghost use Rattle.std.specs.Prelude.{◌≡◌};
    ghost use Rattle.mx_lock.specs.Lock.{released};

    ghost then = { λ v x w. w ≡ released v };
}

impl<Q: Work + Drop, O: Ending + Drop> Lesson<Engine<Q, O>, KeyView> for PutsBack {
    ghost fact = { λ v items. Unit {0} };
}

/// What the first giving shows.
pub struct Founds;

impl<Q: Work + Drop, O: Ending + Drop> Outcome<Engine<Q, O>, KeyView> for Founds {
    ghost use Rattle.std.specs.Prelude.{◌≡◌};
    ghost use Rattle.mx_lock.specs.Engine.{content};
    ghost use Rattle.mx_lock.specs.Lock.{founded};

    ghost then = { λ v x w. w ≡ founded (content x) };
}

impl<Q: Work + Drop, O: Ending + Drop> Lesson<Engine<Q, O>, KeyView> for Founds {
    ghost fact = { λ v items. Unit {0} };
}

/// A new key has seen what the key that made it has seen.
pub struct NewKey;

impl Split<KeyView> for NewKey {
    ghost use Rattle.mx_lock.specs.Lock.{parent, child};

    ghost left = { λ v. parent v };

    ghost right = { λ v. child v };
}

//! The owner of a multi handle: who opened it ends it.
ghost use Rattle.std.specs.Prelude.{◌≡◌, false, true};
ghost use Rattle.crossbeam_channel.specs.Claims.{view};
ghost use Rattle.mx_lock.specs.Lock.{IsKeyOf};

use crate::multi::Multi;
use mx_lock::Key;
use mx_types::{Ending, Work};
use std::marker::Model;
use std::sync::Wait;

/// A multi handle, for the one that opened it, who lends it by [`OwnedMulti::shared`] and ends it by [`OwnedMulti::close`] or
/// [`OwnedMulti::retire`]. It isn't `Drop`: a program that does neither doesn't compile. Contracts see which multi handle it is.
pub struct OwnedMulti<Q: Work + Drop, O: Ending + Drop> {
    multi: Multi<Q, O>,
    /// A key of its lock, which is no seat's: the one that made the keys of the seats.
    key: Key<Q, O>,
}

impl<Q: Work + Drop, O: Ending + Drop> Model for OwnedMulti<Q, O> {
    ghost use Rattle.std.specs.Prelude.{◌≡◌, false, true};
    ghost use Rattle.mx_lock.specs.Lock.{IsKeyOf};
    ghost use Rattle.mx_multi.specs.Seats.{MultiView};

    ghost Value = { MultiView Q O };

    ghost view = { λ m. m.multi };

    ghost invariant = { λ m. IsKeyOf (record { table = m.multi.table; keys = m.multi.keys }) m.key × (m.key.me.0.client.holding ≡ false) × (m.key.me.0.client.told ≡ true) };
}

impl<Q: Work + Drop, O: Ending + Drop> OwnedMulti<Q, O> {
    // The owner of a multi handle, by a key that is free.
    pub(crate) fn with_key(multi: Multi<Q, O>, key: Key<Q, O>) -> OwnedMulti<Q, O>
        requires own { IsKeyOf (record { table = multi.table; keys = multi.keys }) key }
        requires free { ((view key).holding ≡ false) × ((view key).told ≡ true) }
        ensures { result ≡ multi }
    {
        OwnedMulti { multi, key }
    }

    /// The multi handle, which seats and threads share.
    pub fn shared(&self) -> &Multi<Q, O>
        ensures { result.now ≡ self.now }
    {
        &self.multi
    }

    /// Ends the multi handle, and gives all memory back, with the work that waits and the endings that were not read; of that no clause says
    /// anything. No call is under way then, and no seat can make one, a read neither, as the multi handle is gone.
    pub fn close<R: Wait>(self, rt: &R) {
        let OwnedMulti { multi, mut key } = self;
        multi.end(rt, &mut key);
        drop(multi);
        drop(key);
    }

    // Lets a multi handle go whose engine was taken out for good.
    pub(crate) fn release(self) {
        let OwnedMulti { multi, key } = self;
        drop(multi);
        drop(key);
    }
}

//! Lists that contracts alone read.
ghost use Rattle.std.specs.Prelude.{◌≡◌, List, [], ◌∷◌, ◌++◌};

use std::marker::Model;
use std::mem;
use std::snapshot::Snapshot;

// What came before the last item, and the last item. Neither is there in a chain of none.
#[derive(Drop)]
struct Chain<T> {
    before: Option<Snapshot<Chain<T>>>,
    last: Option<Snapshot<T>>,
}

impl<T> Model for Chain<T> {
    ghost use Rattle.std.specs.Prelude.{◌≡◌, None, List, [], ◌∷◌, ◌++◌, length, unwrap_or, option_map};
    ghost use Rattle.std.proofs.Common.{arith, length-append};

    ghost Value = { List T };

    ghost view = { λ c. unwrap_or (option_map (λ s. s.value) c.before) [] ++ unwrap_or (option_map (λ x. x.value ∷ []) c.last) [] };

    ghost invariant = { λ c. c.last ≡ None → c.before ≡ None };

    ghost size = { length };

    ghost size_decreases = { λ a h. Prim.grind (arith, length-append) };
}

impl<T: Drop> Chain<T> {
    fn empty() -> Chain<T>
        ensures { result ≡ [] }
    {
        Chain {
            before: None,
            last: None,
        }
    }
}

/// A list of what came so far, in order, for contracts alone. It has no bytes, so a running program keeps nothing.
#[derive(Drop)]
pub struct History<T> {
    all: Snapshot<Chain<T>>,
}

impl<T> Model for History<T> {
    ghost Value = { List T };

    ghost view = { λ h. h.all.value };
}

impl<T: Drop> History<T> {
    /// Nothing yet.
    pub fn new() -> History<T>
        ensures { result ≡ [] }
    {
        History {
            all: Snapshot::of(&Chain::empty()),
        }
    }

    /// Adds what came next.
    pub fn note(&mut self, next: T)
        ensures { self.new ≡ self.old ++ next ∷ [] }
    {
        self.show(&next);
    }

    /// Adds what came next, which the caller keeps.
    pub fn show(&mut self, next: &T)
        ensures { self.new ≡ self.old ++ next.now ∷ [] }
    {
        let before = mem::replace(&mut self.all, Snapshot::of(&Chain::empty()));
        let chain = Chain {
            before: Some(before),
            last: Some(Snapshot::of(next)),
        };
        self.all = Snapshot::of(&chain);
    }
}

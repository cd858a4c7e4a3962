//! The names of a run.
ghost use Rattle.std.specs.Prelude.{◌≡◌, ◌++◌, [], ◌∷◌, IfOk, OnOk, OnErr};
ghost use Rattle.std.specs.String.{string_bytes};
ghost use Rattle.mx_folder.specs.Names.{base_name, numbered, count_of};

use crate::names::{FileName, base_name, named};
use mx_types::{History, OutOfMemory};
use std::alloc::Global;
use std::collections::BTreeMap;
use std::marker::Model;
use std::snapshot::Snapshot;

// rule file-names-size, unproved: A name takes at most 64 bytes beside its text: in the tree a text's three words and a count are 28, nodes of
// 432 bytes have 15 such pairs, 7 of them taken at least, and those above the leaves 16 edges.
/// The names of a run. It keeps each name once, without its number, with how many times it was given. Contracts see the names that the
/// URLs gave, without their numbers, in their order.
#[derive(Drop)]
pub struct Names {
    counts: BTreeMap<String, u32>,
    given: History<Snapshot<String>>,
}

impl Model for Names {
    ghost use Rattle.std.specs.Prelude.{ℕ, List, map};
    ghost use Rattle.std.specs.String.{string_bytes};
    ghost use Rattle.mx_folder.specs.Counts.{Counts};

    ghost Value = { List (List ℕ) };

    ghost view = { λ n. map (λ base. string_bytes base.value) n.given };

    ghost invariant = { λ n. Counts n.counts (map (λ base. string_bytes base.value) n.given) };
}

impl Names {
    /// No name yet.
    pub fn new(alloc: Global) -> Names
        ensures { result ≡ [] }
    {
        Names {
            counts: BTreeMap::new(alloc),
            given: History::new(),
        }
    }

    // How many times this name was given.
    fn count(&self, base: &str) -> u32
        ensures { result ≡ count_of self.now base.now }
    {
        self.counts.get(base).copied().unwrap_or(0)
    }

    // Notes a name that was given so many times before.
    fn note(&mut self, base: String, count: u32) -> Result<(), OutOfMemory>
        requires { count ≡ count_of self.old (string_bytes base) }
        ensures noted { OnOk result (self.new ≡ self.old ++ string_bytes base ∷ []) }
        ensures err { OnErr result (self.new ≡ self.old) }
    {
        let Some(next) = count.checked_add(1) else {
            return Err(OutOfMemory);
        };
        let shown = Snapshot::of(&base);
        self.counts.insert(base, next)?;
        self.given.note(shown);
        Ok(())
    }

    // rule file-numbered-name
    /// The name of the next URL, by its text: with the number of the URLs before it that gave the same.
    ///
    /// Returns `OutOfMemory` where memory for it is refused, and where 2^32 - 1 URLs gave the same; then no name was given.
    pub fn next(&mut self, alloc: Global, url: &[u8]) -> Result<FileName, OutOfMemory>
        ensures name { IfOk result (λ name. name ≡ numbered (base_name url.now) (count_of self.old (base_name url.now))) }
        ensures noted { OnOk result (self.new ≡ self.old ++ base_name url.now ∷ []) }
        ensures err { OnErr result (self.new ≡ self.old) }
    {
        let base = base_name(alloc, url)?;
        let count = self.count(base.as_str());
        let name = named(alloc, base.as_str(), u64::from(count))?;
        self.note(base, count)?;
        Ok(name)
    }
}

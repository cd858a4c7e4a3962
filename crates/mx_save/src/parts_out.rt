//! The parts that are out: they were made, and have been neither kept nor removed.
ghost use Rattle.std.specs.Prelude.{◌≡◌, ◌≢◌, ℕ, ◌<◌, ◌∷◌, [], length, slice_index, IfSome, IfNone, OnOk, OnErr};
ghost use Rattle.std.specs.List.{Contains};
ghost use Rattle.mx_folder.specs.Names.{part_of};
ghost use Rattle.mx_save.specs.Made.{without};

use mx_folder::{PartName, part_name};
use mx_types::OutOfMemory;
use std::alloc::Global;
use std::collections::VecDeque;
use std::marker::Model;

// A part that is out: its number, and its name.
#[derive(Drop)]
struct OutPart {
    number: u64,
    name: PartName,
}

/// The parts of a process that are out, each with its name. Contracts see the process, and the numbers, the newest first.
pub(crate) struct Out {
    alloc: Global,
    process: u32,
    // A call may search all of them: a run has hundreds of parts out, not millions.
    parts: VecDeque<OutPart>,
}

impl Drop for Out {
    fn drop(self) {
        let Out {
            alloc: _,
            process: _,
            parts,
        } = self;
        drop(parts);
    }
}

impl Model for Out {
    ghost use Rattle.std.specs.Prelude.{map};
    ghost use Rattle.mx_save.specs.Out.{OutValue, AreNamed};

    ghost Value = { OutValue };

    ghost view = { λ o. record { process = o.process; numbers = map (λ p. p.number) o.parts.items } };

    ghost invariant = { λ o. AreNamed o.process o.parts.items };
}

impl Out {
    /// No parts.
    pub(crate) fn new(alloc: Global, process: u32) -> Out
        ensures { result ≡ record { process = process; numbers = [] } }
    {
        Out {
            alloc,
            process,
            parts: VecDeque::new(alloc),
        }
    }

    /// The process for which they are named.
    pub(crate) fn process(&self) -> u32
        ensures { result ≡ self.now.process }
    {
        self.process
    }

    /// Adds a part of this number, with its name. Returns `OutOfMemory` if there is no memory for that, and adds none.
    pub(crate) fn put(&mut self, number: u64) -> Result<(), OutOfMemory>
        ensures put { OnOk result (self.new ≡ record self.old { numbers = number ∷ self.old.numbers }) }
        ensures refused { OnErr result (self.new ≡ self.old) }
    {
        let name = part_name(self.alloc, self.process, number)?;
        self.parts.push_front(OutPart { number, name })?;
        Ok(())
    }

    /// The name of the newest part.
    pub(crate) fn newest(&self) -> &PartName
        requires { 0 < length self.now.numbers }
        ensures { result.now ≡ part_of self.now.process (slice_index self.now.numbers 0) }
    {
        &self.parts[0].name
    }

    // The place of the newest part of this number.
    fn place_of(&self, number: u64) -> usize
        requires { Contains self.now.numbers number }
        ensures within { result < length self.now.numbers }
        ensures there { slice_index self.now.numbers result ≡ number }
        ensures first { (k : ℕ) → k < result → slice_index self.now.numbers k ≢ number }
    {
        let mut place = 0;
        while self.parts[place].number != number {
            place += 1;
        }
        place
    }

    /// Removes the newest part of this number, and returns its name.
    pub(crate) fn take(&mut self, number: u64) -> PartName
        requires { Contains self.old.numbers number }
        ensures out { self.new ≡ record self.old { numbers = without number self.old.numbers } }
        ensures name { result ≡ part_of self.old.process number }
    {
        let place = self.place_of(number);
        match self.parts.remove(place) {
            Some(part) => part.name,
            None => unreachable!(),
        }
    }

    /// Removes the newest part, if there is one, and returns its number and its name.
    pub(crate) fn take_newest(&mut self) -> Option<(u64, PartName)>
        ensures none { IfNone result ((self.old.numbers ≡ []) × (self.new ≡ self.old)) }
        ensures out { IfSome result (λ part. self.old ≡ record self.new { numbers = part.0 ∷ self.new.numbers }) }
        ensures name { IfSome result (λ part. part.1 ≡ part_of self.old.process part.0) }
    {
        let OutPart { number, name } = self.parts.pop_front()?;
        Some((number, name))
    }
}

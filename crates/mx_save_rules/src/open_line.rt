//! The line that is being read.
ghost use Rattle.std.specs.Prelude.{◌≡◌, ◌≤◌, true, length};
ghost use Rattle.mx_save_rules.specs.Entries.{is_unended};

use crate::entry::{Entry, MOST_LINE, entry_of_front};
use std::alloc::{AllocError, Global};

/// The front of the line that is being read, at most `MOST_LINE + 1` bytes, and whether the line is the first of the list.
#[derive(Drop)]
pub(crate) struct OpenLine {
    pub(crate) bytes: Vec<u8>,
    pub(crate) is_first: bool,
    ghost unended: { is_unended bytes.items ≡ true },
    ghost short: { length bytes.items ≤ 65537 },
}

impl OpenLine {
    ghost use Rattle.std.specs.Prelude.{◌≡◌, ◌≢◌, ℕ, List, ◌∷◌, [], IfOk, OnOk, OnErr};
    ghost use Rattle.mx_save_rules.specs.Entries.{Told, told_if, entries_of};
    ghost use Rattle.mx_save_rules.specs.Left.{entries_after, then};

    /// The first line, of which nothing was read.
    pub(crate) fn new(alloc: Global) -> OpenLine
        ensures { (rest : List ℕ) → entries_after result rest ≡ entries_of rest }
    {
        OpenLine {
            bytes: Vec::new(alloc),
            is_first: true,
        }
    }

    /// Ends the line: the answer is what it said, if anything, and the next one is open.
    ///
    /// An error says that memory was refused, and leaves the line open.
    pub(crate) fn end(&mut self, alloc: Global) -> Result<Option<Entry>, AllocError>
        ensures next { IfOk result (λ said. (rest : List ℕ) → entries_after self.old (10 ∷ rest) ≡ then said (entries_after self.new rest)) }
        ensures last { IfOk result (λ said. entries_after self.old [] ≡ then said []) }
        ensures empty { IfOk result (λ said. entries_after self.new [] ≡ []) }
        ensures kept { OnErr result (self.new ≡ self.old) }
    {
        let said = entry_of_front(alloc, self.is_first, self.bytes.as_slice())?;
        self.bytes.clear();
        self.is_first = false;
        Ok(said)
    }

    /// Takes in a byte that ends no line.
    fn push(&mut self, byte: u8) -> Result<(), AllocError>
        requires { byte ≢ 10 }
        ensures pushed { OnOk result ((rest : List ℕ) → entries_after self.old (byte ∷ rest) ≡ entries_after self.new rest) }
        ensures kept { OnErr result ((rest : List ℕ) → entries_after self.new rest ≡ entries_after self.old rest) }
    {
        if self.bytes.len() <= MOST_LINE {
            self.bytes.push(byte)?;
        }
        Ok(())
    }

    /// Takes in a byte: the answer is what the line said that it ended, if anything.
    ///
    /// An error says that memory was refused, and the byte isn't taken in.
    pub(crate) fn take(&mut self, alloc: Global, byte: u8) -> Result<Option<Entry>, AllocError>
        ensures taken { IfOk result (λ said. (rest : List ℕ) → entries_after self.old (byte ∷ rest) ≡ then said (entries_after self.new rest)) }
        ensures kept { OnErr result ((rest : List ℕ) → entries_after self.new rest ≡ entries_after self.old rest) }
    {
        if byte == b'\n' {
            return self.end(alloc);
        }
        self.push(byte)?;
        Ok(None)
    }
}

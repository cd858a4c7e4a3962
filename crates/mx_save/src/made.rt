//! A part that a ledger made.
ghost use Rattle.std.specs.Prelude.{◌≡◌, ◌<◌, ◌^◌};
ghost use Rattle.std.specs.List.{Contains};
ghost use Rattle.mx_folder.specs.Names.{part_of};
ghost use Rattle.mx_save.specs.Made.{without};

use crate::parts_out::Out;
use mx_folder::{FolderError, PartFile, PartName};
use std::marker::Model;

/// A part that a ledger made, whose name has the ledger's process and a number. The ledger gives it its final name, or removes it. A part that
/// is dropped stays in its folder until [`sweep`](crate::Ledger::sweep). Contracts see the process, the number, and the part.
#[derive(Drop)]
pub struct Made<P: PartFile> {
    process: u32,
    number: u64,
    file: P,
}

impl<P: PartFile> Model for Made<P> {
    ghost use Rattle.std.specs.Prelude.{◌≡◌};
    ghost use Rattle.mx_folder.specs.Names.{part_of};
    ghost use Rattle.mx_save.specs.Made.{MadeValue};

    ghost Value = { MadeValue };

    ghost view = { λ m. record { process = m.process; number = m.number; part = P.value m.file } };

    ghost invariant = { λ m. (P.value m.file).name ≡ part_of m.process m.number };
}

impl<P: PartFile> Made<P> {
    /// A part whose name has this process and this number.
    pub(crate) fn new(process: u32, number: u64, file: P) -> Made<P>
        requires { (P.value file).name ≡ part_of process number }
        ensures { result ≡ record { process = process; number = number; part = P.value file } }
    {
        Made {
            process,
            number,
            file,
        }
    }

    /// What holds of every part that a ledger made. It does nothing: a call gives its caller's proof the law.
    pub fn know(&self)
        ensures name { self.now.part.name ≡ part_of self.now.process self.now.number }
        ensures process { self.now.process < 2 ^ 32 }
        ensures number { self.now.number < 2 ^ 64 }
    {
        // proof: what holds of a part that a ledger made
        let _process = self.process;
        let _number = self.number;
    }

    /// The process in its name.
    pub(crate) fn process(&self) -> u32
        ensures { result ≡ self.now.process }
    {
        self.process
    }

    /// The number in its name.
    pub fn number(&self) -> u64
        ensures { result ≡ self.now.number }
    {
        self.number
    }

    /// Takes it from the parts that are out. Returns its name, and the file.
    pub(crate) fn come_back(self, out: &mut Out) -> (PartName, P)
        requires of { self.process ≡ out.old.process }
        requires out { Contains out.old.numbers self.number }
        ensures out { out.new ≡ record out.old { numbers = without self.number out.old.numbers } }
        ensures name { result.0 ≡ self.part.name }
        ensures part { P.value result.1 ≡ self.part }
    {
        let Made { number, file, .. } = self;
        let name = out.take(number);
        (name, file)
    }
}

impl<P: PartFile> PartFile for Made<P> {
    ghost value = { λ m. m.part };

    fn append(&mut self, bytes: &[u8]) -> Result<usize, FolderError> {
        self.file.append(bytes)
    }

    fn flush(&mut self) -> Result<(), FolderError> {
        self.file.flush()
    }
}

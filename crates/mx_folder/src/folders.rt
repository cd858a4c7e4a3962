//! The traits that every folder and its parts have.
ghost use Rattle.std.specs.Prelude.{◌≡◌, ◌<◌, ◌≤◌, List, ◌∷◌, ◌++◌, length, IfOk, IfErr};

use crate::errors::FolderError;
use crate::steps::Kind;
use crate::{FileName, PartName};

/// A part: a file that a folder made, which is to get its final name once it is whole. It is a value of its own, so the folder can be used
/// while it is written. One that is dropped stays in its folder.
pub trait PartFile: Drop {
    ghost use Rattle.mx_folder.specs.Parts.{PartValue, appended, flushed_by};

    /// Its name, its bytes, whether they are all on the disk, and the calls of it that were refused and that its folder doesn't know of.
    ghost value: { Self → PartValue };

    /// Writes a prefix of `bytes`, which isn't empty, at its end: at least one byte. The answer is how many. An error adds none.
    fn append(&mut self, bytes: &[u8]) -> Result<usize, FolderError>
        requires { 0 < length bytes.now }
        ensures told { value self.new ≡ appended result bytes.now (value self.old) }
        ensures some { IfOk result (λ n. 0 < n) }
        ensures within { IfOk result (λ n. n ≤ length bytes.now) };

    /// Flushes all that it has to the disk.
    fn flush(&mut self) -> Result<(), FolderError>
        ensures { value self.new ≡ flushed_by result (value self.old) };
}

/// A part that didn't get its final name: the part, which is closed, and why.
#[derive(Drop)]
pub struct Unplaced<P> {
    /// The part, which still has its own name.
    pub part: P,
    /// Why the folder refused.
    pub error: FolderError,
}

/// A folder whose files nobody else changes. All that is known of it follows from its steps, the list of what was done to it so far.
/// Each call is one step: it is done, or it is refused and changes nothing. What its parts hold they know themselves, and what was refused to
/// one the folder knows once it gets the part back.
pub trait Folder: Drop {
    type Part: PartFile;

    ghost use Rattle.mx_folder.specs.declared.steps.Step.{Step};
    ghost use Rattle.mx_folder.specs.declared.steps.Step.TheVariants.{Created, Removed, FolderFlushed};
    ghost use Rattle.mx_folder.specs.Parts.{empty_part, told_of, untold};
    ghost use Rattle.mx_folder.specs.Steps.{done, looked, placed};

    /// What was done so far, the newest first.
    ghost steps: { Self → List Step };

    /// Makes an empty file under the name of a part, and opens it. Where something is under that name, it is refused.
    fn create(&mut self, part: &PartName) -> Result<Self::Part, FolderError>
        ensures noted { steps self.new ≡ done result (Created part.now) ∷ steps self.old }
        ensures made { IfOk result (λ made. Self.Part.value made ≡ empty_part part.now) };

    /// Closes a part of this folder, and gives it its final name, in place of what has that name: atomically, so that one or the other is
    /// always there. An error hands the part back, to be removed.
    fn place(&mut self, part: Self::Part, name: &FileName) -> Result<(), Unplaced<Self::Part>>
        ensures noted { steps self.new ≡ placed result (Self.Part.value part) name.now ∷ (told_of (Self.Part.value part) ++ steps self.old) }
        ensures unplaced { IfErr result (λ e. Self.Part.value e.part ≡ untold (Self.Part.value part)) };

    /// Closes a part of this folder, and removes it.
    fn remove(&mut self, part: Self::Part) -> Result<(), FolderError>
        ensures { steps self.new ≡ done result (Removed (Self.Part.value part).name) ∷ (told_of (Self.Part.value part) ++ steps self.old) };

    /// Removes a part of this folder that was dropped, by its name. Nothing is known of what that has.
    fn remove_dropped(&mut self, part: &PartName) -> Result<(), FolderError>
        ensures { steps self.new ≡ done result (Removed part.now) ∷ steps self.old };

    /// Looks up what is under a name. A link isn't followed.
    fn look(&mut self, name: &FileName) -> Result<Kind, FolderError>
        ensures { steps self.new ≡ looked result name.now ∷ steps self.old };

    /// Flushes the names of the folder to the disk.
    fn flush_folder(&mut self) -> Result<(), FolderError>
        ensures { steps self.new ≡ done result FolderFlushed ∷ steps self.old };
}

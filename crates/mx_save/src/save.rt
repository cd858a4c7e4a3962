//! How a part gets its final name, or is removed.
ghost use Rattle.std.specs.Prelude.{◌≡◌, ◌≢◌, ◌++◌, ◌∷◌, false, [], None, IfErr, OnOk, OnErr};
ghost use Rattle.mx_folder.specs.Safe.{IsPartName};
ghost use Rattle.mx_folder.specs.declared.steps.FolderCall.TheVariants as calls;
ghost use Rattle.mx_folder.specs.Steps.{refused_calls};
ghost use Rattle.mx_folder.specs.Moments.{AtEachMoment};
ghost use Rattle.mx_folder.specs.Parts.{told_of};
ghost use Rattle.mx_save.specs.Bodies.{Holds, FilesAreKept, IsBeforeOrAfter, IsGone};
ghost use Rattle.mx_save.specs.declared.error.SaveError.TheVariants as errors;
ghost use Rattle.mx_save.specs.Tries.{EndsWithRemoval, refusal_of, removal_of, removed_by};

use crate::error::{PartError, SaveError};
use mx_folder::{FileName, Folder, FolderError, PartFile};

// Flushes the part to the disk if `flush` is true.
fn flush_part<P: PartFile>(part: &mut P, flush: bool) -> Result<(), FolderError>
    requires unflushed { (P.value part.old).flushed ≡ false }
    requires sound { (P.value part.old).refused ≡ [] }
    ensures named { (P.value part.new).name ≡ (P.value part.old).name }
    ensures bytes { (P.value part.new).bytes ≡ (P.value part.old).bytes }
    ensures flushed { OnOk result ((P.value part.new).flushed ≡ flush) }
    ensures sound { OnOk result ((P.value part.new).refused ≡ []) }
    ensures refused { IfErr result (λ e. (P.value part.new).refused ≡ (calls.Flush, e) ∷ []) }
{
    if !flush {
        return Ok(());
    }
    part.flush()
}

// rule file-no-part-left
// Removes the part. Returns why the folder refused, if it did.
pub(crate) fn remove_part<F: Folder>(folder: &mut F, part: F::Part) -> Option<FolderError>
    ensures { F.steps folder.new ≡ removed_by result (F.Part.value part).name ∷ (told_of (F.Part.value part) ++ F.steps folder.old) }
{
    folder.remove(part).err()
}

// rule file-whole-body
// rule file-refused-save
/// Gives a part that has a whole body its final name, after it was flushed to the disk if `flush` is true. What was under that name before
/// stays until that moment.
///
/// An error names the call that the folder refused, with the folder's error. It leaves each file as it was, at each moment. The part is left
/// only if the folder refused to remove it, and then the error says why. No other call is refused.
pub(crate) fn place_part<F: Folder>(
    folder: &mut F,
    mut part: F::Part,
    name: &FileName,
    flush: bool,
) -> Result<(), PartError>
    requires hidden { IsPartName (F.Part.value part).name }
    requires unflushed { (F.Part.value part).flushed ≡ false }
    requires sound { (F.Part.value part).refused ≡ [] }
    ensures saved { OnOk result (Holds name.now (F.Part.value part).bytes flush (F.steps folder.new)) }
    ensures kept { OnErr result (AtEachMoment (FilesAreKept (F.steps folder.old)) (F.steps folder.old) (F.steps folder.new)) }
    ensures any_moment { AtEachMoment (IsBeforeOrAfter (F.Part.value part).name name.now (F.Part.value part).bytes flush (F.steps folder.old))
        (F.steps folder.old) (F.steps folder.new) }
    ensures away { OnOk result (IsGone (F.Part.value part).name (F.steps folder.new)) }
    ensures gone { IfErr result (λ e. e.left ≡ None → IsGone (F.Part.value part).name (F.steps folder.new)) }
    ensures none { OnOk result (refused_calls (F.steps folder.new) ≡ refused_calls (F.steps folder.old)) }
    ensures calls { IfErr result (λ e. refused_calls (F.steps folder.new)
        ≡ (removal_of (F.Part.value part).name e.left ++ refusal_of (F.Part.value part).name e.error) ++ refused_calls (F.steps folder.old)) }
    ensures removal { IfErr result (λ e. EndsWithRemoval (F.steps folder.old) (F.steps folder.new) (F.Part.value part).name e.left) }
    ensures known { IfErr result (λ e. e.error ≢ errors.OutOfMemory) }
{
    // proof: what holds of the name
    name.know();
    match flush_part(&mut part, flush) {
        Err(error) => {
            let left = remove_part(folder, part);
            return Err(PartError {
                error: SaveError::Flush(error),
                left,
            });
        }
        Ok(()) => {}
    }
    match folder.place(part, name) {
        Err(unplaced) => {
            let left = remove_part(folder, unplaced.part);
            Err(PartError {
                error: SaveError::Place(unplaced.error),
                left,
            })
        }
        Ok(()) => Ok(()),
    }
}

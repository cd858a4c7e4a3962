//! What is done to a folder.
ghost use Rattle.std.specs.Prelude.{◌≡◌};
ghost use Rattle.mx_folder.specs.Steps as spec;

use crate::errors::FolderError;
use crate::past::Past;
use mx_types::History;

/// What was done to a folder by one call, with names and bytes for contracts alone.
#[derive(Drop)]
pub enum Step {
    /// A new empty file under this name.
    Created(Past<u8>),
    /// The part of the first name has the second in place of the first, and what the second named is gone. It has these bytes, and they are
    /// all on the disk where that is said.
    Placed(Past<u8>, Past<u8>, History<u8>, bool),
    /// Nothing is under this name any more.
    Removed(Past<u8>),
    /// What is under this name was looked at, and this was there.
    Looked(Past<u8>, Kind),
    /// The names that the folder has are on the disk.
    FolderFlushed,
    /// This call, of this name, failed, and changed nothing that a name holds. The flush of a folder has no name. A call of a part stands
    /// here from when its folder gets the part back.
    Refused(FolderCall, Past<u8>, FolderError),
}

/// What a folder, or a part of it, is asked to do.
#[derive(Clone, Copy, PartialEq, Eq)]
pub enum FolderCall {
    /// To make a part.
    Create,
    /// To write at the end of a part.
    Append,
    /// To flush a part.
    Flush,
    /// To give a part its final name.
    Place,
    /// To remove a part.
    Remove,
    /// To look up what is under a name.
    Look,
    /// To flush the names of the folder.
    FlushFolder,
}

/// What is under a name. A link isn't followed: it is `Other`.
#[derive(Clone, Copy, PartialEq, Eq)]
pub enum Kind {
    /// Nothing.
    Absent,
    /// A regular file.
    File,
    /// Anything else: a folder, a link, a device.
    Other,
}

// The refusal of a step.
pub(crate) fn refused(step: Step, error: FolderError) -> Step
    ensures { result ≡ spec.refused step error }
{
    match step {
        Step::Created(part) => Step::Refused(FolderCall::Create, part, error),
        Step::Placed(part, _, _, _) => Step::Refused(FolderCall::Place, part, error),
        Step::Removed(part) => Step::Refused(FolderCall::Remove, part, error),
        Step::Looked(name, _) => Step::Refused(FolderCall::Look, name, error),
        Step::FolderFlushed => Step::Refused(FolderCall::FlushFolder, Past::new(), error),
        Step::Refused(call, name, _) => Step::Refused(call, name, error),
    }
}

// What a look did.
pub(crate) fn looked(answer: &Result<Kind, FolderError>, name: Past<u8>) -> Step
    ensures { result ≡ spec.looked answer.now name }
{
    match answer {
        Ok(kind) => Step::Looked(name, *kind),
        Err(error) => Step::Refused(FolderCall::Look, name, *error),
    }
}

// What a call did.
pub(crate) fn done<T>(answer: &Result<T, FolderError>, step: Step) -> Step
    ensures { result ≡ spec.done answer.now step }
{
    match answer {
        Ok(_) => step,
        Err(error) => refused(step, *error),
    }
}

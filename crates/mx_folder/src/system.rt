//! A folder of the system.
ghost use Rattle.std.specs.Prelude.{◌≡◌, ◌<◌, ◌≤◌, [], ◌++◌, length, IfOk};
ghost use Rattle.mx_folder.specs.Parts.{empty_part, told_of, untold};
ghost use Rattle.mx_folder.specs.declared.steps.Step.TheVariants as steps;

use crate::errors::FolderError;
use crate::folders::{Folder, PartFile, Unplaced};
use crate::limit::{front, most_bytes};
use crate::log::{Refusals, StepLog};
use crate::past::{Past, bytes_of, note_all};
use crate::steps::{FolderCall, Kind, Step, done, looked};
use crate::{FileName, PartName};
use mx_types::History;
use std::alloc::Global;
use std::fs::{File, OpenFile};
use std::io::{ErrorKind, Write};
use std::marker::Model;
use std::rt::Files;
use std::{fs, io, mem};

// As many files as a process, or the system, may have are open: ENFILE and EMFILE of errno(3).
const TOO_MANY_OPEN: [i32; 2] = [23, 24];

// The number of errno(3) for a file that would be larger than the limit: EFBIG.
const FILE_TOO_LARGE: i32 = 27;

/// A part of a folder of the system. Contracts see its name, what the system reported to have written and flushed, and what it refused; no
/// contract can say that the system did so.
#[derive(Drop)]
pub struct SystemPart<F> {
    name: String,
    // At hand, so that no memory is needed to remove it.
    path: String,
    // `None` once it is closed.
    file: Option<F>,
    // How many more bytes it may have.
    left: u64,
    bytes: History<u8>,
    flushed: bool,
    refused: Refusals,
}

impl<F> Model for SystemPart<F> {
    ghost use Rattle.std.specs.String.{string_bytes};
    ghost use Rattle.mx_folder.specs.Parts.{PartValue};

    ghost Value = { PartValue };

    ghost view = { λ p. record { name = string_bytes p.name; bytes = p.bytes; flushed = p.flushed; refused = p.refused } };
}

/// A folder of the system. Contracts see what the system reported to have done, the newest first; no contract can say that the system did so.
/// Nor does a clause say that a call of this folder makes the system call that its step names.
#[derive(Drop)]
pub struct SystemFolder<'a, R: Files> {
    alloc: Global,
    files: &'a R,
    path: String,
    // A descriptor that is closed where a part lacks one.
    spare: Option<R::File>,
    steps: StepLog,
}

impl<'a, R: Files> Model for SystemFolder<'a, R> {
    ghost use Rattle.std.specs.Prelude.{List};
    ghost use Rattle.mx_folder.specs.declared.steps.Step.{Step as OneStep};

    ghost Value = { List OneStep };

    ghost view = { λ f. f.steps };
}

// Why the system refused.
fn reason(error: io::Error) -> FolderError {
    if let Some(number) = error.raw_os_error() {
        if TOO_MANY_OPEN.contains(&number) {
            return FolderError::TooManyOpen;
        }
        if number == FILE_TOO_LARGE {
            return FolderError::TooLarge;
        }
    }
    match error.kind() {
        ErrorKind::AlreadyExists | ErrorKind::IsADirectory => FolderError::AlreadyThere,
        ErrorKind::NotFound | ErrorKind::NotADirectory => FolderError::NotThere,
        ErrorKind::PermissionDenied | ErrorKind::ReadOnlyFilesystem => FolderError::Denied,
        ErrorKind::StorageFull | ErrorKind::QuotaExceeded => FolderError::Full,
        ErrorKind::OutOfMemory => FolderError::OutOfMemory,
        _ => FolderError::Failed,
    }
}

// The path of a name in a folder.
fn path_in(alloc: Global, folder: &str, name: &str) -> Result<String, FolderError> {
    match format!(in alloc; "{folder}/{name}") {
        Ok(path) => Ok(path),
        Err(_) => Err(FolderError::OutOfMemory),
    }
}

fn create_part<R: Files>(
    alloc: Global,
    files: &R,
    folder: &str,
    part: &str,
) -> Result<SystemPart<R::File>, FolderError>
    ensures { IfOk result (λ made. made ≡ empty_part part.now) }
{
    let path = path_in(alloc, folder, part)?;
    let Ok(name) = String::from_str(alloc, part) else {
        return Err(FolderError::OutOfMemory);
    };
    match File::create_new(files, path.as_str()) {
        Ok(file) => Ok(SystemPart {
            name,
            path,
            file: Some(file),
            left: most_bytes(),
            bytes: History::new(),
            flushed: false,
            refused: Past::new(),
        }),
        Err(error) => Err(reason(error)),
    }
}

// rule file-size-limit, unproved: A write stays within the limit of file sizes, beyond which the system ends the process; where no byte is
// left, it fails (`TooLarge`).
fn write_some<F: Write>(file: &mut F, bytes: &[u8], left: u64) -> Result<usize, FolderError>
    ensures some { IfOk result (λ n. 0 < n) }
    ensures within { IfOk result (λ n. n ≤ length bytes.now) }
{
    if left == 0 {
        return Err(FolderError::TooLarge);
    }
    match file.write(front(bytes, left)) {
        Ok(0) => Err(FolderError::Full),
        Ok(n) => Ok(n),
        Err(error) => Err(reason(error)),
    }
}

impl<F: Drop> SystemPart<F> {
    // The step that gives it a final name.
    fn placed(self, own: Past<u8>, name: Past<u8>) -> Step
        ensures { result ≡ steps.Placed own name self.bytes self.flushed }
    {
        let SystemPart { bytes, flushed, .. } = self;
        Step::Placed(own, name, bytes, flushed)
    }
}

impl<F: Write + OpenFile> SystemPart<F> {
    // Writes some of these bytes.
    fn write(&mut self, bytes: &[u8]) -> Result<usize, FolderError>
        ensures same { self.new ≡ self.old }
        ensures some { IfOk result (λ n. 0 < n) }
        ensures within { IfOk result (λ n. n ≤ length bytes.now) }
    {
        let left = self.left;
        let Some(file) = self.file.as_mut() else {
            return Err(FolderError::NotOpen);
        };
        let written = write_some(file, bytes, left)?;
        self.left = left.saturating_sub(written as u64);
        Ok(written)
    }

    // Flushes what was written.
    fn sync(&self) -> Result<(), FolderError> {
        match self.file.as_ref() {
            Some(file) => file.sync_all().map_err(reason),
            None => Err(FolderError::NotOpen),
        }
    }
}

impl<F: Write + OpenFile + Drop> PartFile for SystemPart<F> {
    ghost value = { λ part. part };

    fn append(&mut self, bytes: &[u8]) -> Result<usize, FolderError> {
        let written = self.write(bytes);
        match written {
            Ok(n) => {
                note_all(&mut self.bytes, &bytes[..n]);
                self.flushed = false;
            }
            Err(error) => self.refused.note((FolderCall::Append, error)),
        }
        written
    }

    fn flush(&mut self) -> Result<(), FolderError> {
        let flushed = self.sync();
        match flushed {
            Ok(()) => self.flushed = true,
            Err(error) => self.refused.note((FolderCall::Flush, error)),
        }
        flushed
    }
}

// By rename(2), and not link(2), which refuses a name that is taken, and which some file systems don't have.
// rule file-links-and-folders, unproved: A link under the name is replaced and not followed; a folder under the name makes the call fail
// (`AlreadyThere`).
fn rename_part<R: Files>(
    alloc: Global,
    files: &R,
    folder: &str,
    path: &str,
    name: &str,
) -> Result<(), FolderError> {
    let to = path_in(alloc, folder, name)?;
    fs::rename(files, path, to.as_str()).map_err(reason)
}

fn remove_at<R: Files>(
    alloc: Global,
    files: &R,
    folder: &str,
    part: &str,
) -> Result<(), FolderError> {
    let path = path_in(alloc, folder, part)?;
    fs::remove_file(files, path.as_str()).map_err(reason)
}

fn kind_at<R: Files>(
    alloc: Global,
    files: &R,
    folder: &str,
    name: &str,
) -> Result<Kind, FolderError> {
    let path = path_in(alloc, folder, name)?;
    match fs::symlink_metadata(files, path.as_str()) {
        Ok(found) if found.is_file() => Ok(Kind::File),
        Ok(_) => Ok(Kind::Other),
        Err(error) if error.kind() == ErrorKind::NotFound => Ok(Kind::Absent),
        Err(error) => Err(reason(error)),
    }
}

fn flush_names<R: Files>(files: &R, folder: &str) -> Result<(), FolderError> {
    match File::open(files, folder) {
        Ok(folder) => folder.sync_all().map_err(reason),
        Err(error) => Err(reason(error)),
    }
}

impl<'a, R: Files> SystemFolder<'a, R> {
    /// The folder of this path, which is made, with those above it, where it isn't there. A link at the path is followed, here and at each
    /// call. Where the folder can't be made, the error says why; folders above it may have been made.
    pub fn open(alloc: Global, files: &'a R, path: &str) -> Result<SystemFolder<'a, R>, FolderError>
        ensures { IfOk result (λ folder. folder ≡ []) }
    {
        let Ok(owned) = String::from_str(alloc, path) else {
            return Err(FolderError::OutOfMemory);
        };
        match fs::create_dir_all(files, path) {
            Ok(()) => Ok(SystemFolder {
                alloc,
                files,
                path: owned,
                spare: File::open(files, path).ok(),
                steps: StepLog::new(),
            }),
            Err(error) => Err(reason(error)),
        }
    }

    // Closes a part that came back, and notes what was refused to it.
    fn take_back(&mut self, part: &mut SystemPart<R::File>)
        ensures told { self.new ≡ told_of part.old ++ self.old }
        ensures part { part.new ≡ untold part.old }
    {
        // The result of the close is lost: std's `File` reports none.
        part.file = None;
        self.keep_spare();
        let refused = mem::replace(&mut part.refused, Past::new());
        self.steps.tell(bytes_of(part.name.as_bytes()), refused);
    }

    // Opens the spare descriptor, where there is none, if one is free.
    fn keep_spare(&mut self)
        ensures { self.new ≡ self.old }
    {
        if self.spare.is_none() {
            self.spare = File::open(self.files, self.path.as_str()).ok();
        }
    }

    // rule file-descriptors
    // Makes a part: by the spare descriptor, where too many files are open.
    fn make(&mut self, part: &str) -> Result<SystemPart<R::File>, FolderError>
        ensures same { self.new ≡ self.old }
        ensures made { IfOk result (λ made. made ≡ empty_part part.now) }
    {
        let made = create_part(self.alloc, self.files, self.path.as_str(), part);
        match made {
            Err(FolderError::TooManyOpen) if self.spare.is_some() => {
                self.spare = None;
                create_part(self.alloc, self.files, self.path.as_str(), part)
            }
            made => made,
        }
    }
}

impl<'a, R: Files> Folder for SystemFolder<'a, R> {
    type Part = SystemPart<R::File>;

    ghost steps = { λ folder. folder };

    fn create(&mut self, part: &PartName) -> Result<SystemPart<R::File>, FolderError> {
        let made = self.make(part.as_str());
        self.steps.note(done(&made, Step::Created(bytes_of(part.as_str().as_bytes()))));
        made
    }

    fn place(
        &mut self,
        mut part: SystemPart<R::File>,
        name: &FileName,
    ) -> Result<(), Unplaced<SystemPart<R::File>>> {
        self.take_back(&mut part);
        let renamed = rename_part(
            self.alloc,
            self.files,
            self.path.as_str(),
            part.path.as_str(),
            name.as_str(),
        );
        let own = bytes_of(part.name.as_bytes());
        match renamed {
            Ok(()) => {
                self.steps
                    .note(part.placed(own, bytes_of(name.as_str().as_bytes())));
                Ok(())
            }
            Err(error) => {
                self.steps
                    .note(Step::Refused(FolderCall::Place, own, error));
                Err(Unplaced { part, error })
            }
        }
    }

    // rule file-no-part-left
    // No memory is needed to remove a part.
    fn remove(&mut self, mut part: SystemPart<R::File>) -> Result<(), FolderError> {
        self.take_back(&mut part);
        let removed = fs::remove_file(self.files, part.path.as_str()).map_err(reason);
        self.steps.note(done(&removed, Step::Removed(bytes_of(part.name.as_bytes()))));
        removed
    }

    // rule file-no-part-left
    fn remove_dropped(&mut self, part: &PartName) -> Result<(), FolderError> {
        let removed = remove_at(self.alloc, self.files, self.path.as_str(), part.as_str());
        self.steps.note(done(&removed, Step::Removed(bytes_of(part.as_str().as_bytes()))));
        removed
    }

    fn look(&mut self, name: &FileName) -> Result<Kind, FolderError> {
        let kind = kind_at(self.alloc, self.files, self.path.as_str(), name.as_str());
        self.steps
            .note(looked(&kind, bytes_of(name.as_str().as_bytes())));
        kind
    }

    fn flush_folder(&mut self) -> Result<(), FolderError> {
        let flushed = flush_names(self.files, self.path.as_str());
        self.steps.note(done(&flushed, Step::FolderFlushed));
        flushed
    }
}

//! Why a folder refuses.
ghost use Rattle.std.specs.Prelude.{◌≡◌};
ghost use Rattle.mx_folder.specs.Words.{folder_words};

use mx_types::OUT_OF_MEMORY;
use std::error::Error;
use std::fmt;

/// Why a folder refuses.
#[derive(Clone, Copy, Debug, PartialEq, Eq)]
pub enum FolderError {
    /// Something is under that name.
    AlreadyThere,
    /// The folder, or what is under that name, isn't there.
    NotThere,
    /// The folder may not be written.
    Denied,
    /// The disk is full, or a quota is used up.
    Full,
    /// The process, or the system, has as many open files as it may.
    TooManyOpen,
    /// The file has as many bytes as one of this process may.
    TooLarge,
    /// That part isn't open.
    NotOpen,
    /// Memory was refused.
    OutOfMemory,
    /// Anything else.
    Failed,
}

impl FolderError {
    /// The error in words, with no capital and no full stop.
    pub fn words(self) -> &'static str
        ensures { result.now ≡ folder_words self }
    {
        match self {
            FolderError::AlreadyThere => "something else has that name",
            FolderError::NotThere => "no such file or folder",
            FolderError::Denied => "the folder may not be written",
            FolderError::Full => "the disk is full",
            FolderError::TooManyOpen => "too many files are open: ulimit -n allows more",
            FolderError::TooLarge =>
                "the file is over the limit of file sizes: ulimit -f allows more",
            FolderError::NotOpen => "the file is not open",
            FolderError::OutOfMemory => OUT_OF_MEMORY,
            FolderError::Failed => "the system could not do it",
        }
    }
}

impl fmt::Display for FolderError {
    fn fmt<W: fmt::Write>(&self, f: &mut fmt::Formatter<W>) -> fmt::Result {
        write!(f, "{}", self.words())
    }
}

impl Error for FolderError {}

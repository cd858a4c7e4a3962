//! Why a body wasn't saved.
ghost use Rattle.std.specs.Prelude.{◌≡◌, true};
ghost use Rattle.mx_folder.specs.declared.errors.FolderError.TheVariants as whys;
ghost use Rattle.mx_save.specs.Ledgers.{is_taken};
ghost use Rattle.mx_save.specs.Words.{save_words, is_create};
ghost use Rattle.mx_save.specs.declared.error.SaveError.TheVariants as errors;

use mx_folder::{FolderError, PartName};
use std::error::Error;
use std::fmt;

/// Why a body wasn't saved: which call failed, and the folder's error.
#[derive(Clone, Copy, Debug, PartialEq, Eq)]
pub enum SaveError {
    /// The part couldn't be made.
    Create(FolderError),
    /// The part couldn't be written.
    Write(FolderError),
    /// The part couldn't be flushed.
    Flush(FolderError),
    /// The part couldn't be given its final name.
    Place(FolderError),
    /// Out of memory.
    OutOfMemory,
}

impl SaveError {
    /// The folder's error in words, with no capital and no full stop.
    pub fn words(self) -> &'static str
        ensures { result.now ≡ save_words self }
    {
        match self {
            SaveError::Create(error)
            | SaveError::Write(error)
            | SaveError::Flush(error)
            | SaveError::Place(error) => error.words(),
            SaveError::OutOfMemory => FolderError::OutOfMemory.words(),
        }
    }

    // Whether the part couldn't be made.
    fn is_create(self) -> bool
        ensures { result ≡ is_create self }
    {
        matches!(self, SaveError::Create(_))
    }
}

impl fmt::Display for SaveError {
    fn fmt<W: fmt::Write>(&self, f: &mut fmt::Formatter<W>) -> fmt::Result {
        write!(f, "{}", self.words())
    }
}

impl Error for SaveError {}

/// Why a part didn't get its final name, and why it is left, if it is.
#[derive(Clone, Copy)]
pub(crate) struct PartError {
    /// Which call failed, and why.
    pub(crate) error: SaveError,
    /// Why the folder refused to remove the part, which is left; `None` if the part was removed.
    pub(crate) left: Option<FolderError>,
}

/// A body that wasn't saved: why, the name of its part, and why the part is left, if it is.
#[derive(Drop)]
pub struct Unsaved {
    /// Which call failed, and why.
    pub error: SaveError,
    /// The name of its part; `None` if there was no memory for the name.
    pub part: Option<PartName>,
    /// Why the folder refused to remove the part, which is left; `None` if no part was made, or it was removed.
    pub left: Option<FolderError>,
}

impl Unsaved {
    // Whether the part couldn't be made because its name is taken.
    pub(crate) fn is_taken(&self) -> bool
        ensures { result ≡ is_taken self.now.error self.now.left }
    {
        match (self.error, self.left) {
            (SaveError::Create(error), None) => matches!(error, FolderError::AlreadyThere),
            _ => false,
        }
    }

    /// Whether its part couldn't be made because too many files are open.
    pub fn is_file_limit(&self) -> bool
        ensures limit { result ≡ true → self.now.error ≡ errors.Create whys.TooManyOpen }
        ensures same { self.now.error ≡ errors.Create whys.TooManyOpen → result ≡ true }
    {
        matches!(self.error, SaveError::Create(FolderError::TooManyOpen))
    }
}

// The text about a part that is left; empty if it isn't.
#[derive(Clone, Copy)]
struct LeftText<'a> {
    part: &'a str,
    left: Option<FolderError>,
}

impl<'a> fmt::Display for LeftText<'a> {
    ghost use Rattle.std.specs.Prelude.{Some};
    ghost use Rattle.mx_save.specs.Words.{left_text};

    ghost output = { λ t. Some (left_text t.part.now t.left) };

    fn fmt<W: fmt::Write>(&self, f: &mut fmt::Formatter<W>) -> fmt::Result {
        let part = self.part;
        match self.left {
            Some(left) => {
                let why = left.words();
                write!(f, "; the part {part} is left: {why}")
            }
            None => f.write_str(""),
        }
    }
}

/// A part whose body isn't saved: its name, and why it is left, if it is.
#[derive(Drop)]
pub struct Discarded {
    /// The name of the part.
    pub part: PartName,
    /// Why the folder refused to remove the part, which is left; `None` if the part was removed.
    pub left: Option<FolderError>,
}

/// The text that follows the reason why a body isn't saved: it names the part if that is left, and else is empty.
impl fmt::Display for Discarded {
    ghost use Rattle.std.specs.Prelude.{Some};
    ghost use Rattle.mx_save.specs.Words.{left_text};

    ghost output = { λ d. Some (left_text d.part d.left) };

    // rule file-no-part-left
    fn fmt<W: fmt::Write>(&self, f: &mut fmt::Formatter<W>) -> fmt::Result {
        let left = LeftText {
            part: self.part.as_str(),
            left: self.left,
        };
        write!(f, "{left}")
    }
}

/// The error in words, with the name of the part if it couldn't be made, or is left.
impl fmt::Display for Unsaved {
    ghost use Rattle.std.specs.Prelude.{Some};
    ghost use Rattle.mx_save.specs.Words.{unsaved_text};

    ghost output = { λ u. Some (unsaved_text u.error u.part u.left) };

    // rule file-part-that-exists
    // rule file-no-part-left
    fn fmt<W: fmt::Write>(&self, f: &mut fmt::Formatter<W>) -> fmt::Result {
        let why = self.error.words();
        let Some(part) = &self.part else {
            return f.write_str(why);
        };
        let part = part.as_str();
        if self.error.is_create() {
            return write!(f, "the part {part} can't be made: {why}");
        }
        let left = LeftText {
            part,
            left: self.left,
        };
        write!(f, "{why}{left}")
    }
}

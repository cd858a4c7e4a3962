//! Folders: where bodies are written, and the safe names that the paths of URLs give their files. Each operation on a folder is in a list that
//! contracts alone read.
#![tactic(auto)]

mod errors;
mod folders;
pub mod laws;
mod limit;
mod log;
mod memory;
mod names;
mod past;
mod paths;
mod run;
mod steps;
mod system;

pub use crate::errors::FolderError;
pub use crate::folders::{Folder, PartFile, Unplaced};
pub use crate::memory::{MemoryFolder, MemoryPart};
pub use crate::names::{FileName, PartName, file_name, part_name};
pub use crate::past::{Past, bytes_of};
pub use crate::paths::path_of;
pub use crate::run::Names;
pub use crate::steps::{FolderCall, Kind, Step};
pub use crate::system::{SystemFolder, SystemPart};

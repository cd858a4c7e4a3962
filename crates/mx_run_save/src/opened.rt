//! What a run reads its URLs from, and what it saves in.
ghost use Rattle.std.specs.Prelude.{◌≡◌, ◌⊎◌, [], IfErr, IfOk, IsErr, IsSome, is_some};

use crate::polled::Polled;
use crate::status::{OUT_OF_MEMORY, UNMADE, UNREAD};
use crate::unbegun::tell_out_of_memory;
use crate::unread::tell_unread;
use either::{Either, Left, Right};
use mx_command::ListSource;
use mx_folder::{FolderError, SystemFolder};
use mx_save_rules::UrlList;
use std::alloc::AllocGlobal;
use std::fs::File;
use std::io::{Input, StdinLock};
use std::rt::Files;

/// What a list is read from, without waiting.
pub type ListReader = Either<Polled<File>, Polled<StdinLock<'static>>>;

// A list, on the heap: its buffers, of 12 KiB together, would be in the frame of each function that it is moved through.
fn boxed<R: AllocGlobal + Eprint>(
    rt: &R,
    list: UrlList<ListReader>,
) -> Result<Box<UrlList<ListReader>>, u8>
    ensures { IfErr result (λ status. status ≡ OUT_OF_MEMORY) }
{
    match Box::new(rt.alloc(), list) {
        Ok(list) => Ok(list),
        Err(_) => Err(tell_out_of_memory(rt)),
    }
}

// The list of URLs that is read from there; or the exit status where it can't be opened, or memory for it was refused, which is reported.
fn open_list<R: Files<File = File> + Input<Reader = StdinLock<'static>> + AllocGlobal + Eprint>(
    rt: &R,
    source: ListSource<'_>,
) -> Result<Box<UrlList<ListReader>>, u8>
    ensures { IfErr result (λ status. (status ≡ UNREAD) ⊎ (status ≡ OUT_OF_MEMORY)) }
{
    let reader = match source {
        ListSource::Standard => Right(Polled::new(rt.reader())),
        ListSource::File(path) => match File::open(rt, path) {
            Ok(file) => Left(Polled::new(file)),
            Err(error) => return Err(tell_unread(rt, path, error)),
        },
    };
    Ok(boxed(rt, UrlList::new(rt.alloc(), reader))?)
}

/// The list of URLs, exactly where one is asked for; or the exit status where it can't be opened, or memory for it was refused, which is
/// reported.
pub fn list_of<R: Files<File = File> + Input<Reader = StdinLock<'static>> + AllocGlobal + Eprint>(
    rt: &R,
    input: Option<ListSource<'_>>,
) -> Result<Option<Box<UrlList<ListReader>>>, u8>
    ensures asked { IfOk result (λ list. is_some list ≡ is_some input.entry) }
    ensures opened { IsErr result → IsSome input.entry }
    ensures status { IfErr result (λ status. (status ≡ UNREAD) ⊎ (status ≡ OUT_OF_MEMORY)) }
{
    match input {
        Some(source) => Ok(Some(open_list(rt, source)?)),
        None => Ok(None),
    }
}

/// The folder of the files, which is made where it isn't there; or the exit status where it can't be, which is reported.
pub fn folder_of<'a, R: Files + AllocGlobal + Eprint>(
    rt: &'a R,
    path: &str,
) -> Result<SystemFolder<'a, R>, u8>
    ensures folder { IfOk result (λ folder. folder ≡ []) }
    ensures status { IfErr result (λ status. (status ≡ UNMADE) ⊎ (status ≡ OUT_OF_MEMORY)) }
{
    match SystemFolder::open(rt.alloc(), rt, path) {
        Ok(folder) => Ok(folder),
        Err(error) => {
            let _ = eprintln!(rt; "mxfetch: nothing can be saved in {path}: {error}");
            Err(match error {
                FolderError::OutOfMemory => OUT_OF_MEMORY,
                _ => UNMADE,
            })
        }
    }
}

//! Saving to a folder in memory.
ghost use Rattle.std.specs.Prelude.{◌<◌, ◌≢◌};

use crate::bodies::{BYE, HELLO, is_same, name_of, none_of};
use crate::parts::{save, save_alone};
use mx_folder::{FileName, Folder, FolderError, Kind, MemoryFolder, PartName, part_name};
use mx_save::{Ledger, SaveError, Unsaved};
use mx_types::OutOfMemory;
use std::alloc::{AllocError, Global};
use std::test::Fail;

fn is_wanted(bytes: &[u8], wanted: Option<&[u8]>) -> bool {
    match wanted {
        Some(wanted) => is_same(bytes, wanted),
        None => false,
    }
}

/// Whether the name holds these bytes, or nothing where there are none.
pub fn holds(
    alloc: Global,
    folder: &MemoryFolder,
    name: &str,
    wanted: Option<&[u8]>,
) -> Result<bool, OutOfMemory> {
    match folder.held(alloc, name)? {
        Some(bytes) => Ok(is_wanted(bytes.as_slice(), wanted)),
        None => Ok(wanted.is_none()),
    }
}

/// A folder whose writes take so many bytes, and whose call of that number fails, as each later one does where that is said.
pub fn failing(
    alloc: Global,
    most: usize,
    fails_at: u64,
    fails_on: bool,
    error: FolderError,
) -> MemoryFolder
    requires { 0 < most }
{
    let folder = MemoryFolder::new(alloc, most, fails_at, error);
    if fails_on {
        folder.failing_on()
    } else {
        folder
    }
}

// A save by writes of 4 bytes whose call of this number fails: whether it is flushed, and what it answers.
struct Fault {
    name: &'static str,
    flush: bool,
    call: u64,
    saved: Result<(), SaveError>,
}

// rule file-steps
// rule file-whole-body
static FAULTS: [Fault; 13] = [
    Fault {
        name: "flushed, no part can be made",
        flush: true,
        call: 0,
        saved: Err(SaveError::Create(FolderError::Full)),
    },
    Fault {
        name: "flushed, the first write fails",
        flush: true,
        call: 1,
        saved: Err(SaveError::Write(FolderError::Full)),
    },
    Fault {
        name: "flushed, the second write fails",
        flush: true,
        call: 2,
        saved: Err(SaveError::Write(FolderError::Full)),
    },
    Fault {
        name: "flushed, the third write fails",
        flush: true,
        call: 3,
        saved: Err(SaveError::Write(FolderError::Full)),
    },
    Fault {
        name: "flushed, the flush fails",
        flush: true,
        call: 4,
        saved: Err(SaveError::Flush(FolderError::Full)),
    },
    Fault {
        name: "flushed, the part can't be renamed",
        flush: true,
        call: 5,
        saved: Err(SaveError::Place(FolderError::Full)),
    },
    Fault {
        name: "flushed, no call fails",
        flush: true,
        call: 7,
        saved: Ok(()),
    },
    Fault {
        name: "not flushed, no part can be made",
        flush: false,
        call: 0,
        saved: Err(SaveError::Create(FolderError::Full)),
    },
    Fault {
        name: "not flushed, the first write fails",
        flush: false,
        call: 1,
        saved: Err(SaveError::Write(FolderError::Full)),
    },
    Fault {
        name: "not flushed, the second write fails",
        flush: false,
        call: 2,
        saved: Err(SaveError::Write(FolderError::Full)),
    },
    Fault {
        name: "not flushed, the third write fails",
        flush: false,
        call: 3,
        saved: Err(SaveError::Write(FolderError::Full)),
    },
    Fault {
        name: "not flushed, the part can't be renamed",
        flush: false,
        call: 4,
        saved: Err(SaveError::Place(FolderError::Full)),
    },
    Fault {
        name: "not flushed, no call fails",
        flush: false,
        call: 5,
        saved: Ok(()),
    },
];

// Why a body wasn't saved, and why its part is left, if it is.
type Refusal = (SaveError, Option<FolderError>);

fn refusal_of(saved: &Result<(), Unsaved>) -> Option<Refusal> {
    match saved {
        Ok(()) => None,
        Err(unsaved) => Some((unsaved.error, unsaved.left)),
    }
}

// Whether a save answers that, and no part is left.
fn is_answered(saved: &Result<(), Unsaved>, wanted: Result<(), SaveError>) -> bool {
    match wanted {
        Ok(()) => saved.is_ok(),
        Err(error) => refusal_of(saved) == Some((error, None)),
    }
}

// Whether the folder has no part, and the whole body under its name, or nothing where it wasn't saved.
fn is_left(
    alloc: Global,
    folder: &MemoryFolder,
    part: &PartName,
    name: &FileName,
    is_saved: bool,
) -> Result<bool, OutOfMemory> {
    let bytes = is_saved.then_some(b"hello you".as_slice());
    Ok(holds(alloc, folder, part.as_str(), None)? && holds(alloc, folder, name.as_str(), bytes)?)
}

// Whether a save answers what its row says, and leaves that.
fn is_right(
    alloc: Global,
    part: &PartName,
    name: &FileName,
    row: &Fault,
) -> Result<bool, OutOfMemory> {
    let folder = MemoryFolder::new(alloc, 4, row.call, FolderError::Full);
    let (saved, flushed, folder) = save_alone(alloc, folder, name, HELLO, row.flush);
    let left = is_left(alloc, &folder, part, name, saved.is_ok());
    drop(folder);
    Ok(left? && flushed.is_ok() && is_answered(&saved, row.saved))
}

// The first save that leaves something else: the answer, no part, and the whole body under its name or nothing.
fn wrong_of_faults(alloc: Global) -> Result<Option<&'static str>, OutOfMemory> {
    let part = part_name(alloc, 42, 0)?;
    let name = name_of(alloc, "http://h/x")?;
    for row in FAULTS.iter() {
        if !is_right(alloc, &part, &name, row)? {
            return Ok(Some(row.name));
        }
    }
    Ok(None)
}

// A save by writes of 4 bytes, not flushed, each call of which fails from this number on: what it answers, and whether its part is left.
struct Left {
    name: &'static str,
    call: u64,
    refusal: Refusal,
    is_left: bool,
}

// rule file-no-part-left
static LEFT: [Left; 3] = [
    Left {
        name: "no call is done",
        call: 0,
        refusal: (SaveError::Create(FolderError::Denied), None),
        is_left: false,
    },
    Left {
        name: "the second write fails, and the part can't be removed",
        call: 2,
        refusal: (
            SaveError::Write(FolderError::Denied),
            Some(FolderError::Denied),
        ),
        is_left: true,
    },
    Left {
        name: "the part can be neither renamed nor removed",
        call: 4,
        refusal: (
            SaveError::Place(FolderError::Denied),
            Some(FolderError::Denied),
        ),
        is_left: true,
    },
];

// Whether such a save answers what its row says, and leaves that.
fn is_left_so(
    alloc: Global,
    part: &PartName,
    name: &FileName,
    row: &Left,
) -> Result<bool, OutOfMemory> {
    let folder = MemoryFolder::new(alloc, 4, row.call, FolderError::Denied).failing_on();
    let (saved, _, folder) = save_alone(alloc, folder, name, HELLO, false);
    let there = folder.held(alloc, part.as_str());
    let saved_there = folder.held(alloc, name.as_str());
    drop(folder);
    Ok(
        there?.is_some() == row.is_left
            && saved_there?.is_none()
            && refusal_of(&saved) == Some(row.refusal),
    )
}

// The first of these saves that answers or leaves something else.
fn wrong_of_left(alloc: Global) -> Result<Option<&'static str>, OutOfMemory> {
    let part = part_name(alloc, 42, 0)?;
    let name = name_of(alloc, "http://h/x")?;
    for row in LEFT.iter() {
        if !is_left_so(alloc, &part, &name, row)? {
            return Ok(Some(row.name));
        }
    }
    Ok(None)
}

// A run of two saves whose call of this number fails: whether each is reported as saved, and whether the folder is flushed.
struct Two {
    name: &'static str,
    call: u64,
    told: (bool, bool, bool),
}

// rule file-refused-save
static RUNS_OF_TWO: [Two; 12] = [
    Two {
        name: "the first part can't be made",
        call: 0,
        told: (false, true, true),
    },
    Two {
        name: "the first write of the first body fails",
        call: 1,
        told: (false, true, true),
    },
    Two {
        name: "the second write of the first body fails",
        call: 2,
        told: (false, true, true),
    },
    Two {
        name: "the third write of the first body fails",
        call: 3,
        told: (false, true, true),
    },
    Two {
        name: "the flush of the first body fails",
        call: 4,
        told: (false, true, true),
    },
    Two {
        name: "the first part can't be renamed",
        call: 5,
        told: (false, true, true),
    },
    Two {
        name: "the second part can't be made",
        call: 6,
        told: (true, false, true),
    },
    Two {
        name: "the write of the second body fails",
        call: 7,
        told: (true, false, true),
    },
    Two {
        name: "the flush of the second body fails",
        call: 8,
        told: (true, false, true),
    },
    Two {
        name: "the second part can't be renamed",
        call: 9,
        told: (true, false, true),
    },
    Two {
        name: "the folder can't be flushed",
        call: 10,
        told: (true, true, false),
    },
    Two {
        name: "no call of a run of two fails",
        call: 11,
        told: (true, true, true),
    },
];

// Whether the folder has what was reported, no more and no less.
fn has_told(
    alloc: Global,
    folder: &MemoryFolder,
    one: bool,
    two: bool,
) -> Result<bool, OutOfMemory> {
    let first = one.then_some(b"hello you".as_slice());
    let second = two.then_some(b"bye".as_slice());
    Ok(
        holds(alloc, folder, "x", first)?
            && holds(alloc, folder, "y", second)?
            && holds(alloc, folder, ".mxfetch-42-0.part", None)?
            && holds(alloc, folder, ".mxfetch-42-1.part", None)?,
    )
}

// Whether such a run reports what its row says, and leaves that.
fn is_told(
    alloc: Global,
    first: &FileName,
    second: &FileName,
    row: &Two,
) -> Result<bool, OutOfMemory>
    requires { second.now ≢ first.now }
{
    let folder = MemoryFolder::new(alloc, 4, row.call, FolderError::Full);
    let mut ledger = Ledger::new(alloc, 42, folder, true);
    let one = save(alloc, &mut ledger, first, HELLO).is_ok();
    let two = save(alloc, &mut ledger, second, BYE).is_ok();
    let (folder, flushed) = ledger.finish();
    let left = has_told(alloc, &folder, one, two);
    drop(folder);
    Ok(left? && (one, two, flushed.is_ok()) == row.told)
}

// The first of these runs that reports something else.
fn wrong_of_two(alloc: Global) -> Result<Option<&'static str>, OutOfMemory> {
    let first = name_of(alloc, "http://h/x")?;
    let second = name_of(alloc, "http://h/y")?;
    if second.is_same(&first) {
        return Ok(Some("the names of a run of two"));
    }
    for row in RUNS_OF_TWO.iter() {
        if !is_told(alloc, &first, &second, row)? {
            return Ok(Some(row.name));
        }
    }
    Ok(None)
}

// How many names of parts are taken, and what is said of a second save whose write fails, as each later call does.
struct Taken {
    name: &'static str,
    count: u32,
    words: &'static str,
}

// rule file-part-that-exists
// rule file-no-part-left
static TAKEN: [Taken; 3] = [
    Taken {
        name: "one part is there",
        count: 1,
        words: "the disk is full; the part .mxfetch-42-2.part is left: the disk is full",
    },
    Taken {
        name: "eight parts are there",
        count: 8,
        words: "the disk is full; the part .mxfetch-42-9.part is left: the disk is full",
    },
    Taken {
        name: "forty parts are there",
        count: 40,
        words: "the disk is full; the part .mxfetch-42-41.part is left: the disk is full",
    },
];

fn add_part(alloc: Global, folder: &mut MemoryFolder, number: u32) -> Result<(), OutOfMemory> {
    let part = part_name(alloc, 42, u64::from(number))?;
    match folder.create(&part) {
        Ok(_) => Ok(()),
        Err(_) => Err(OutOfMemory),
    }
}

// Gives the first parts of process 42 their names.
fn add_parts(alloc: Global, folder: &mut MemoryFolder, count: u32) -> Result<(), OutOfMemory> {
    for number in 0..count {
        add_part(alloc, folder, number)?;
    }
    Ok(())
}

// What is said of a save.
fn words_of(alloc: Global, saved: Result<(), Unsaved>) -> Result<String, AllocError> {
    match saved {
        Ok(()) => String::from_str(alloc, "saved"),
        Err(unsaved) => format!(in alloc; "{unsaved}"),
    }
}

// Two saves into a folder: whether the first went well, the answer of the second, and the folder.
fn save_beside(
    alloc: Global,
    first: &FileName,
    second: &FileName,
    folder: MemoryFolder,
) -> (bool, Result<(), Unsaved>, MemoryFolder)
    requires { second.now ≢ first.now }
{
    let mut ledger = Ledger::new(alloc, 42, folder, false);
    let one = save(alloc, &mut ledger, first, HELLO).is_ok();
    let two = save(alloc, &mut ledger, second, BYE);
    (one, two, ledger.finish().0)
}

// Whether the first of two saves goes well where so many names of parts are taken, and the last of these still is there; and whether the
// second takes the number behind that of the first, and says what its row says.
fn is_beside(
    alloc: Global,
    first: &FileName,
    second: &FileName,
    row: &Taken,
) -> Result<bool, OutOfMemory>
    requires { second.now ≢ first.now }
{
    let last = part_name(alloc, 42, u64::from(row.count.saturating_sub(1)))?;
    // the first save makes a part, a write and a name, and the second a part
    let fails_at = u64::from(row.count) + 4;
    let mut folder = MemoryFolder::new(alloc, 100, fails_at, FolderError::Full).failing_on();
    let added = add_parts(alloc, &mut folder, row.count);
    let (one, two, folder) = save_beside(alloc, first, second, folder);
    let left = holds(alloc, &folder, last.as_str(), Some(b""));
    drop(folder);
    added?;
    let words = words_of(alloc, two)?;
    Ok(left? && one && is_same(words.as_bytes(), row.words.as_bytes()))
}

// The first row of these whose save answers something else, or touches the last part.
fn wrong_of_taken(alloc: Global) -> Result<Option<&'static str>, OutOfMemory> {
    let first = name_of(alloc, "http://h/x")?;
    let second = name_of(alloc, "http://h/y")?;
    if second.is_same(&first) {
        return Ok(Some("the names of two saves"));
    }
    for row in TAKEN.iter() {
        if !is_beside(alloc, &first, &second, row)? {
            return Ok(Some(row.name));
        }
    }
    Ok(None)
}

// Whether the body is under its name. Where memory is refused, it is looked for once more.
fn is_saved(alloc: Global, folder: &MemoryFolder) -> Result<bool, OutOfMemory> {
    match holds(alloc, folder, "x", Some(b"hello you")) {
        Ok(is_there) => Ok(is_there),
        Err(OutOfMemory) => holds(alloc, folder, "x", Some(b"hello you")),
    }
}

// A save, and where it was refused memory the same one again: whether the first and the last went well, and the folder.
fn save_twice(alloc: Global, name: &FileName) -> (bool, bool, MemoryFolder) {
    let folder = MemoryFolder::new(alloc, 4, u64::MAX, FolderError::Full);
    let mut ledger = Ledger::new(alloc, 42, folder, true);
    let first = save(alloc, &mut ledger, name, HELLO);
    let last = match first {
        Ok(()) => Ok(()),
        Err(_) => save(alloc, &mut ledger, name, HELLO),
    };
    (first.is_ok(), last.is_ok(), ledger.finish().0)
}

// Whether the body is there then. After that `OutOfMemory` is returned.
fn is_saved_at_last(alloc: Global) -> Result<bool, OutOfMemory> {
    let name = name_of(alloc, "http://h/x")?;
    let (first, last, folder) = save_twice(alloc, &name);
    let found = is_saved(alloc, &folder);
    drop(folder);
    let is_there = found? && last;
    if is_there && !first {
        return Err(OutOfMemory);
    }
    Ok(is_there)
}

fn wrong_of_want(alloc: Global) -> Result<Option<&'static str>, OutOfMemory> {
    Ok((!is_saved_at_last(alloc)?).then_some("a save after memory was refused"))
}

// What looks find before and after a save.
fn kinds(alloc: Global, name: &FileName) -> [Result<Kind, FolderError>; 2] {
    let folder = MemoryFolder::new(alloc, 4, u64::MAX, FolderError::Full);
    let mut ledger = Ledger::new(alloc, 42, folder, false);
    let before = ledger.look(name);
    let _ = save(alloc, &mut ledger, name, BYE);
    let after = ledger.look(name);
    drop(ledger);
    [before, after]
}

// Whether a look finds nothing under a name before it is saved, and a file after.
fn wrong_of_looks(alloc: Global) -> Result<Option<&'static str>, OutOfMemory> {
    let name = name_of(alloc, "http://h/x")?;
    let [before, after] = kinds(alloc, &name);
    if before != Ok(Kind::Absent) {
        return Ok(Some("a look before the save"));
    }
    Ok((after != Ok(Kind::File)).then_some("a look after the save"))
}

// What is said of a part that couldn't be made.
fn is_part_named(alloc: Global, error: FolderError, wanted: &str) -> Result<bool, OutOfMemory> {
    let unsaved = Unsaved {
        error: SaveError::Create(error),
        part: Some(part_name(alloc, 42, 7)?),
        left: None,
    };
    let words = format!(in alloc; "{unsaved}")?;
    Ok(is_same(words.as_bytes(), wanted.as_bytes()))
}

fn wrong_of_named(alloc: Global) -> Result<Option<&'static str>, OutOfMemory> {
    let taken = "the part .mxfetch-42-7.part can't be made: something else has that name";
    let unopened =
        "the part .mxfetch-42-7.part can't be made: too many files are open: ulimit -n allows more";
    if !is_part_named(alloc, FolderError::AlreadyThere, taken)? {
        return Ok(Some(taken));
    }
    Ok((!is_part_named(alloc, FolderError::TooManyOpen, unopened)?).then_some(unopened))
}

// An error of a save, and its words.
static WORDS: [(SaveError, &str); 5] = [
    (
        SaveError::Create(FolderError::Denied),
        "the folder may not be written",
    ),
    (SaveError::Write(FolderError::Full), "the disk is full"),
    (
        SaveError::Place(FolderError::AlreadyThere),
        "something else has that name",
    ),
    (
        SaveError::Write(FolderError::TooLarge),
        "the file is over the limit of file sizes: ulimit -f allows more",
    ),
    (SaveError::OutOfMemory, "out of memory"),
];

// The first words that aren't those of their error.
fn wrong_words() -> Option<&'static str> {
    for (error, wanted) in WORDS.iter() {
        if !is_same(error.words().as_bytes(), wanted.as_bytes()) {
            return Some(*wanted);
        }
    }
    None
}

/// How many parts the rows have.
const PARTS: u32 = 8;

// The first row of a part in which something else comes.
fn wrong_of(alloc: Global, number: u32) -> Result<Option<&'static str>, OutOfMemory> {
    match number {
        0 => wrong_of_faults(alloc),
        1 => wrong_of_left(alloc),
        2 => wrong_of_two(alloc),
        3 => wrong_of_taken(alloc),
        4 => wrong_of_want(alloc),
        5 => wrong_of_looks(alloc),
        6 => wrong_of_named(alloc),
        _ => Ok(wrong_words()),
    }
}

// Fails with the first row of all.
fn are_right(alloc: Global) -> Result<(), Fail> {
    for number in 0..PARTS {
        none_of(wrong_of(alloc, number))?;
    }
    Ok(())
}

#[test]
fn each_row(rt: HostRuntime) -> Result<(), Fail> {
    are_right(rt.alloc())
}

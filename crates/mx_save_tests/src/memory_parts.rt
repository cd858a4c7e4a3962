//! What becomes of parts of a folder in memory: what is told of them, and what is left.

use crate::bodies::{BYE, HELLO, Pieces, is_same, name_of, none_of};
use crate::memory::{failing, holds};
use crate::parts::{How, Told, end, give_all, make, words_of};
use crate::three_parts::{
    Order, Three, is_told, save_one_of_three, save_three, save_two_of_three, three_names,
};
use mx_folder::{FileName, FolderError, MemoryFolder};
use mx_save::Ledger;
use mx_types::OutOfMemory;
use std::alloc::Global;
use std::test::Fail;

// A body of nine bytes, whose part is written by writes of 4: what is done with the part, whether it is flushed, which call fails, and
// whether each later one does; what is told of it, whether it is left, and how many calls there were.
struct OneRow {
    name: &'static str,
    how: How,
    flush: bool,
    fails_at: u64,
    fails_on: bool,
    told: &'static str,
    is_left: bool,
    calls: u64,
}

// It is made, written by three writes, and gets its name.
const KEPT: OneRow = OneRow {
    name: "it gets its name",
    how: How::Keep,
    flush: false,
    fails_at: u64::MAX,
    fails_on: false,
    told: "saved",
    is_left: false,
    calls: 5,
};

// It is made, written and removed.
const DISCARDED: OneRow = OneRow {
    name: "it is discarded",
    how: How::Discard,
    told: "discarded",
    ..KEPT
};

// rule file-refused-save
// rule file-no-part-left
static ONE_PART: [OneRow; 16] = [
    KEPT,
    OneRow {
        name: "it is flushed, and gets its name",
        flush: true,
        calls: 7,
        ..KEPT
    },
    OneRow {
        name: "it can't be made",
        fails_at: 0,
        told: "the part .mxfetch-42-0.part can't be made: the disk is full",
        calls: 1,
        ..KEPT
    },
    OneRow {
        name: "its second write is refused, and it is given up",
        fails_at: 2,
        told: "the disk is full",
        calls: 4,
        ..KEPT
    },
    OneRow {
        name: "its second write is refused, and so is its removal",
        fails_at: 2,
        fails_on: true,
        told: "the disk is full; the part .mxfetch-42-0.part is left: the disk is full",
        is_left: true,
        calls: 4,
        ..KEPT
    },
    OneRow {
        name: "its flush is refused",
        flush: true,
        fails_at: 4,
        told: "the disk is full",
        calls: 7,
        ..KEPT
    },
    OneRow {
        name: "its flush is refused, and so is its removal",
        flush: true,
        fails_at: 4,
        fails_on: true,
        told: "the disk is full; the part .mxfetch-42-0.part is left: the disk is full",
        is_left: true,
        calls: 7,
        ..KEPT
    },
    OneRow {
        name: "its name is refused",
        fails_at: 4,
        told: "the disk is full",
        calls: 6,
        ..KEPT
    },
    OneRow {
        name: "its name is refused, and so is its removal",
        fails_at: 4,
        fails_on: true,
        told: "the disk is full; the part .mxfetch-42-0.part is left: the disk is full",
        is_left: true,
        calls: 6,
        ..KEPT
    },
    DISCARDED,
    OneRow {
        name: "its second write is refused, and it is discarded",
        fails_at: 2,
        calls: 4,
        ..DISCARDED
    },
    OneRow {
        name: "it is discarded, and its removal is refused",
        fails_at: 4,
        told: "discarded; the part .mxfetch-42-0.part is left: the disk is full",
        is_left: true,
        ..DISCARDED
    },
    OneRow {
        name: "its second write is refused, it is discarded, and its removal is refused",
        fails_at: 2,
        fails_on: true,
        told: "discarded; the part .mxfetch-42-0.part is left: the disk is full",
        is_left: true,
        calls: 4,
        ..DISCARDED
    },
    OneRow {
        name: "it is discarded as it is, and no write is made",
        how: How::PutAway,
        calls: 2,
        ..DISCARDED
    },
    OneRow {
        name: "it is discarded as it is, and its removal is refused",
        how: How::PutAway,
        fails_at: 1,
        told: "discarded; the part .mxfetch-42-0.part is left: the disk is full",
        is_left: true,
        calls: 2,
        ..DISCARDED
    },
    OneRow {
        name: "it can't be made, and there is nothing to discard",
        fails_at: 0,
        told: "the part .mxfetch-42-0.part can't be made: the disk is full",
        calls: 1,
        ..DISCARDED
    },
];

// Makes a part in a folder, has its body written, and does with it what the row says: what is told, and the folder.
fn run_one(alloc: Global, name: &FileName, row: &OneRow) -> (Told, MemoryFolder) {
    let folder = failing(alloc, 4, row.fails_at, row.fails_on, FolderError::Full);
    let mut ledger = Ledger::new(alloc, 42, folder, row.flush);
    let told = match make(alloc, &mut ledger) {
        Ok(mut part) => {
            give_all(&mut part.sink, HELLO);
            end(&mut ledger, part, name, row.how)
        }
        Err(unsaved) => Told::Unsaved(unsaved),
    };
    (told, ledger.finish().0)
}

// Whether a folder has the part of that number, which counts for no bytes, or hasn't.
fn has_part(
    alloc: Global,
    folder: &MemoryFolder,
    part: &str,
    is_left: bool,
) -> Result<bool, OutOfMemory> {
    holds(alloc, folder, part, is_left.then_some(b"".as_slice()))
}

// Whether a folder has the body where it is told to be saved, and the part where it is left, after so many calls.
fn is_left_so(
    alloc: Global,
    folder: &MemoryFolder,
    told: &Told,
    row: &OneRow,
) -> Result<bool, OutOfMemory> {
    let body = matches!(told, Told::Saved).then_some(b"hello you".as_slice());
    Ok(
        holds(alloc, folder, "x", body)?
            && has_part(alloc, folder, ".mxfetch-42-0.part", row.is_left)?
            && folder.calls() == row.calls,
    )
}

fn is_right_of_one(alloc: Global, name: &FileName, row: &OneRow) -> Result<bool, OutOfMemory> {
    let (told, folder) = run_one(alloc, name, row);
    let left = is_left_so(alloc, &folder, &told, row);
    drop(folder);
    let words = words_of(alloc, &told)?;
    Ok(left? && is_same(words.as_bytes(), row.told.as_bytes()))
}

// The first row of one part in which something else comes.
fn wrong_of_one(alloc: Global) -> Result<Option<&'static str>, OutOfMemory> {
    let name = name_of(alloc, "http://h/x")?;
    for row in ONE_PART.iter() {
        if !is_right_of_one(alloc, &name, row)? {
            return Ok(Some(row.name));
        }
    }
    Ok(None)
}

// Three parts that are out at a time, in a folder whose call of that number fails, and each later one where that is said: what is told of
// each, in the order in which they come back; the bytes under the three names; and which parts are left.
//
// A part counts its calls on from those of the folder when it was made. So the write of the first has the number 1, those of the second 2
// and 3, and those of the third 3, 4 and 5; and the next call of the folder has the number 3, until a part comes back that has counted
// further.
struct ThreeRow {
    name: &'static str,
    three: Three<'static>,
    fails_at: u64,
    fails_on: bool,
    told: &'static str,
    files: &'static [Option<&'static [u8]>; 3],
    left: [bool; 3],
}

const SECOND: Pieces = &[b"se", b"", b"con", b"d"];

const KEEPING: Three<'static> = Three {
    bodies: [BYE, SECOND, HELLO],
    hows: [How::Keep, How::Keep, How::Keep],
    order: Order::FirstSecondThird,
};

const ALL_KEPT: ThreeRow = ThreeRow {
    name: "three are kept in their order",
    three: KEEPING,
    fails_at: u64::MAX,
    fails_on: false,
    told: "saved\nsaved\nsaved\n",
    files: &[Some(b"bye"), Some(b"second"), Some(b"hello you")],
    left: [false, false, false],
};

// rule file-whole-body
// rule file-refused-save
// rule file-no-part-left
static THREE_PARTS: [ThreeRow; 10] = [
    ALL_KEPT,
    ThreeRow {
        name: "the last that was made is kept first",
        three: Three {
            order: Order::ThirdSecondFirst,
            ..KEEPING
        },
        ..ALL_KEPT
    },
    ThreeRow {
        name: "the first that was made is kept last",
        three: Three {
            order: Order::SecondThirdFirst,
            ..KEEPING
        },
        ..ALL_KEPT
    },
    ThreeRow {
        name: "one is discarded between two that are kept",
        three: Three {
            hows: [How::Keep, How::Discard, How::Keep],
            order: Order::ThirdSecondFirst,
            ..KEEPING
        },
        told: "saved\ndiscarded\nsaved\n",
        files: &[Some(b"bye"), None, Some(b"hello you")],
        ..ALL_KEPT
    },
    ThreeRow {
        name: "one is discarded as it is before two are kept",
        three: Three {
            hows: [How::Keep, How::PutAway, How::Keep],
            order: Order::SecondThirdFirst,
            ..KEEPING
        },
        told: "discarded\nsaved\nsaved\n",
        files: &[Some(b"bye"), None, Some(b"hello you")],
        ..ALL_KEPT
    },
    ThreeRow {
        name: "all are discarded",
        three: Three {
            hows: [How::PutAway, How::Discard, How::Discard],
            ..KEEPING
        },
        told: "discarded\ndiscarded\ndiscarded\n",
        files: &[None, None, None],
        ..ALL_KEPT
    },
    ThreeRow {
        name: "a write of one is refused, and it is given up between two that are kept",
        three: Three {
            order: Order::SecondThirdFirst,
            ..KEEPING
        },
        fails_at: 5,
        told: "saved\nthe disk is full\nsaved\n",
        files: &[Some(b"bye"), Some(b"second"), None],
        ..ALL_KEPT
    },
    ThreeRow {
        name: "the removal of one is refused between two that are kept",
        three: Three {
            hows: [How::Keep, How::Discard, How::Keep],
            order: Order::ThirdSecondFirst,
            ..KEEPING
        },
        fails_at: 7,
        told: "saved\ndiscarded; the part .mxfetch-42-1.part is left: the disk is full\nsaved\n",
        files: &[Some(b"bye"), None, Some(b"hello you")],
        left: [false, true, false],
        ..ALL_KEPT
    },
    ThreeRow {
        name: "the name of one is refused between two that are kept",
        three: Three {
            order: Order::ThirdSecondFirst,
            ..KEEPING
        },
        fails_at: 7,
        told: "saved\nthe disk is full\nsaved\n",
        files: &[Some(b"bye"), None, Some(b"hello you")],
        ..ALL_KEPT
    },
    ThreeRow {
        name: "a write of the third is refused, and so is each later call",
        three: Three {
            order: Order::ThirdSecondFirst,
            ..KEEPING
        },
        fails_at: 5,
        fails_on: true,
        told: "the disk is full; the part .mxfetch-42-2.part is left: the disk is full\n\
          the disk is full; the part .mxfetch-42-1.part is left: the disk is full\n\
          the disk is full; the part .mxfetch-42-0.part is left: the disk is full\n",
        files: &[None, None, None],
        left: [true, true, true],
        ..ALL_KEPT
    },
];

// Whether a folder has these bytes under the names of three bodies, and these of their parts.
fn has_three(
    alloc: Global,
    folder: &MemoryFolder,
    files: &[Option<&'static [u8]>; 3],
    left: &[bool; 3],
) -> Result<bool, OutOfMemory> {
    let [x, y, z] = *files;
    let [one, two, three] = *left;
    Ok(
        holds(alloc, folder, "x", x)?
            && holds(alloc, folder, "y", y)?
            && holds(alloc, folder, "z", z)?
            && has_part(alloc, folder, ".mxfetch-42-0.part", one)?
            && has_part(alloc, folder, ".mxfetch-42-1.part", two)?
            && has_part(alloc, folder, ".mxfetch-42-2.part", three)?,
    )
}

fn is_right_of_three(
    alloc: Global,
    names: &[FileName; 3],
    row: &ThreeRow,
) -> Result<bool, OutOfMemory> {
    let folder = failing(alloc, 4, row.fails_at, row.fails_on, FolderError::Full);
    let (told, folder) = save_three(alloc, folder, names, &row.three);
    let left = has_three(alloc, &folder, row.files, &row.left);
    drop(folder);
    Ok(left? && is_told(alloc, &told, row.told)?)
}

// The first row of three parts in which something else comes.
fn wrong_of_three(alloc: Global) -> Result<Option<&'static str>, OutOfMemory> {
    let names = three_names(alloc)?;
    for row in THREE_PARTS.iter() {
        if !is_right_of_three(alloc, &names, row)? {
            return Ok(Some(row.name));
        }
    }
    Ok(None)
}

// A run that keeps the first of three parts and sweeps the two others, which were dropped, in a folder whose call of that number fails, and
// each later one where that is said: which parts are left. The first gets its name by the call of number 3; the next two
// remove the third part, and then the second.
struct SweptRow {
    name: &'static str,
    fails_at: u64,
    fails_on: bool,
    left: [bool; 3],
}

// rule file-no-part-left
static SWEPT: [SweptRow; 4] = [
    SweptRow {
        name: "both are swept",
        fails_at: u64::MAX,
        fails_on: false,
        left: [false, false, false],
    },
    SweptRow {
        name: "the removal of the third is refused, and the second is swept",
        fails_at: 4,
        fails_on: false,
        left: [false, false, true],
    },
    SweptRow {
        name: "the third is swept, and the removal of the second is refused",
        fails_at: 5,
        fails_on: false,
        left: [false, true, false],
    },
    SweptRow {
        name: "both removals are refused",
        fails_at: 4,
        fails_on: true,
        left: [false, true, true],
    },
];

fn is_right_of_swept(
    alloc: Global,
    names: &[FileName; 3],
    row: &SweptRow,
) -> Result<bool, OutOfMemory> {
    let folder = failing(alloc, 4, row.fails_at, row.fails_on, FolderError::Full);
    let (told, folder) = save_one_of_three(alloc, folder, &names[0], &[BYE, SECOND, HELLO]);
    let files = [Some(b"bye".as_slice()), None, None];
    let left = has_three(alloc, &folder, &files, &row.left);
    drop(folder);
    Ok(left? && matches!(told, Some(Told::Saved)))
}

// The first row of parts that are swept in which something else comes.
fn wrong_of_swept(alloc: Global) -> Result<Option<&'static str>, OutOfMemory> {
    let names = three_names(alloc)?;
    for row in SWEPT.iter() {
        if !is_right_of_swept(alloc, &names, row)? {
            return Ok(Some(row.name));
        }
    }
    Ok(None)
}

// rule file-descriptors
// What is told of a part that can't be made while another is out, and of that and one more, which are kept.
const AROUND: &str =
    "the part .mxfetch-42-1.part can't be made: too many files are open: ulimit -n allows more\nsaved\nsaved\n";

// Whether that is told, and is so. The first body is empty, so its part makes no call before the second is refused.
fn wrong_of_around(alloc: Global) -> Result<Option<&'static str>, OutOfMemory> {
    let names = three_names(alloc)?;
    let folder = failing(alloc, 4, 1, false, FolderError::TooManyOpen);
    let (told, folder) = save_two_of_three(alloc, folder, &names, &[&[], BYE, HELLO]);
    let files = [Some(b"".as_slice()), None, Some(b"hello you".as_slice())];
    let left = has_three(alloc, &folder, &files, &[false, false, false]);
    drop(folder);
    let is_right = left? && is_told(alloc, &told, AROUND)?;
    Ok((!is_right).then_some("a part can't be made while another is out"))
}

#[test]
fn what_becomes_of_one(rt: HostRuntime) -> Result<(), Fail> {
    none_of(wrong_of_one(rt.alloc()))
}

#[test]
fn what_becomes_of_three(rt: HostRuntime) -> Result<(), Fail> {
    none_of(wrong_of_three(rt.alloc()))
}

#[test]
fn what_becomes_of_parts_that_are_swept(rt: HostRuntime) -> Result<(), Fail> {
    none_of(wrong_of_swept(rt.alloc()))
}

#[test]
fn what_becomes_of_two_around_one(rt: HostRuntime) -> Result<(), Fail> {
    none_of(wrong_of_around(rt.alloc()))
}

//! Saving to a folder of the system: scenarios, each a list of steps.

use crate::bodies::{BYE, HELLO, Pieces, is_same, name_of};
use crate::parts::{How, save_alone};
use crate::three_parts::{Order, Three, is_told, save_three, three_names};
use mx_folder::{
    FileName, Folder, FolderError, Kind, PartFile, PartName, SystemFolder, Unplaced, part_name,
};
use mx_save::{SaveError, Unsaved};
use mx_types::OutOfMemory;
use std::alloc::Global;
use std::fs;
use std::fs::File;
use std::os::unix::fs::symlink;
use std::rt::Files;
use std::test::Fail;

// A step over files, by their paths.
enum OnFiles {
    MakeFolder(&'static str),
    MakeFile(&'static str, &'static str),
    // What the link leads to, and the link.
    MakeLink(&'static str, &'static str),
    RemoveFolder(&'static str),
    RemoveFile(&'static str),
    // The text of a file.
    Holds(&'static str, &'static str),
    // Nothing is there.
    Lacks(&'static str),
}

// A save by a run of its own, flushed or not, and what it answers.
struct SaveCall {
    folder: &'static str,
    url: &'static str,
    body: Pieces,
    flush: bool,
    answer: Result<(), SaveError>,
}

// Three saves by a run of its own, whose parts are out at a time, and what is told of them, in the order in which the parts come back.
struct ThreeSaves {
    folder: &'static str,
    three: Three<'static>,
    told: &'static str,
}

// A call of the folder that is open.
enum OnOpen {
    // The URL that gives the name, and what is answered.
    Look(&'static str, Result<Kind, FolderError>),
    // A save, flushed, by a run of its own.
    Save(&'static str, Pieces, Result<(), SaveError>),
}

impl OnOpen {
    fn url(&self) -> &'static str {
        match self {
            OnOpen::Look(url, _) | OnOpen::Save(url, _, _) => *url,
        }
    }
}

enum SystemStep {
    Files(OnFiles),
    Save(SaveCall),
    Three(&'static ThreeSaves),
    // Opens the folder of this path.
    Open(&'static str),
    Folder(OnOpen),
}

// What is removed before the steps, if it is there, and the steps, each of which has to answer what it says.
struct Scenario {
    name: &'static str,
    root: &'static str,
    steps: &'static [SystemStep],
}

static SCENARIOS: [Scenario; 7] = [
    Scenario {
        name: "a folder is made",
        root: "made-by-a-test",
        steps: &[
            SystemStep::Save(SaveCall {
                folder: "made-by-a-test/a/b",
                url: "http://h/x",
                body: &[b"o", b"ne"],
                flush: false,
                answer: Ok(()),
            }),
            SystemStep::Files(OnFiles::Holds("made-by-a-test/a/b/x", "one")),
            SystemStep::Save(SaveCall {
                folder: "made-by-a-test/a/b",
                url: "http://h/x",
                body: &[b"other"],
                flush: true,
                answer: Ok(()),
            }),
            SystemStep::Files(OnFiles::Holds("made-by-a-test/a/b/x", "other")),
            SystemStep::Files(OnFiles::RemoveFolder("made-by-a-test")),
        ],
    },
    // rule file-part-that-exists
    Scenario {
        name: "a part that is there isn't touched, and the next number is taken",
        root: "part-of-a-test",
        steps: &[
            SystemStep::Files(OnFiles::MakeFolder("part-of-a-test")),
            SystemStep::Files(OnFiles::MakeFile("part-of-a-test/.mxfetch-42-0.part", "mine")),
            SystemStep::Save(SaveCall {
                folder: "part-of-a-test",
                url: "http://h/x",
                body: &[b"o", b"ne"],
                flush: false,
                answer: Ok(()),
            }),
            SystemStep::Files(OnFiles::Holds("part-of-a-test/x", "one")),
            SystemStep::Files(OnFiles::Holds("part-of-a-test/.mxfetch-42-0.part", "mine")),
            SystemStep::Files(OnFiles::Lacks("part-of-a-test/.mxfetch-42-1.part")),
            SystemStep::Files(OnFiles::RemoveFolder("part-of-a-test")),
        ],
    },
    // rule file-links-and-folders
    Scenario {
        name: "a folder is in the way, and a link is replaced",
        root: "way-of-a-test",
        steps: &[
            SystemStep::Files(OnFiles::MakeFolder("way-of-a-test")),
            SystemStep::Files(OnFiles::MakeFolder("way-of-a-test/x")),
            SystemStep::Files(OnFiles::MakeFile("way-of-a-test/far", "far")),
            SystemStep::Files(OnFiles::MakeLink("far", "way-of-a-test/y")),
            SystemStep::Save(SaveCall {
                folder: "way-of-a-test",
                url: "http://h/x",
                body: &[b"o", b"ne"],
                flush: false,
                answer: Err(SaveError::Place(FolderError::AlreadyThere)),
            }),
            SystemStep::Files(OnFiles::Lacks("way-of-a-test/.mxfetch-42-0.part")),
            SystemStep::Save(SaveCall {
                folder: "way-of-a-test",
                url: "http://h/y",
                body: &[b"other"],
                flush: false,
                answer: Ok(()),
            }),
            SystemStep::Files(OnFiles::Holds("way-of-a-test/y", "other")),
            SystemStep::Files(OnFiles::Holds("way-of-a-test/far", "far")),
            SystemStep::Files(OnFiles::RemoveFolder("way-of-a-test")),
        ],
    },
    Scenario {
        name: "looks",
        root: "look-of-a-test",
        steps: &[
            SystemStep::Files(OnFiles::MakeFolder("look-of-a-test")),
            SystemStep::Files(OnFiles::MakeFile("look-of-a-test/file", "")),
            SystemStep::Files(OnFiles::MakeFolder("look-of-a-test/folder")),
            SystemStep::Files(OnFiles::MakeLink("file", "look-of-a-test/link")),
            SystemStep::Open("look-of-a-test"),
            SystemStep::Folder(OnOpen::Look("http://h/absent", Ok(Kind::Absent))),
            SystemStep::Folder(OnOpen::Look("http://h/file", Ok(Kind::File))),
            SystemStep::Folder(OnOpen::Look("http://h/folder", Ok(Kind::Other))),
            SystemStep::Folder(OnOpen::Look("http://h/link", Ok(Kind::Other))),
            SystemStep::Files(OnFiles::RemoveFolder("look-of-a-test")),
        ],
    },
    // rule file-whole-body
    // rule file-no-part-left
    Scenario {
        name: "three parts are out at a time, come back in another order, and leave two files",
        root: "three-of-a-test",
        steps: &[
            SystemStep::Files(OnFiles::MakeFolder("three-of-a-test")),
            SystemStep::Files(OnFiles::MakeFile("three-of-a-test/y", "before")),
            SystemStep::Files(OnFiles::MakeFile("three-of-a-test/z", "before")),
            SystemStep::Three(&ThreeSaves {
                folder: "three-of-a-test",
                three: Three {
                    bodies: [BYE, &[b"o", b"ne"], HELLO],
                    hows: [How::Keep, How::Discard, How::Keep],
                    order: Order::SecondThirdFirst,
                },
                told: "discarded\nsaved\nsaved\n",
            }),
            SystemStep::Files(OnFiles::Holds("three-of-a-test/x", "bye")),
            SystemStep::Files(OnFiles::Holds("three-of-a-test/y", "before")),
            SystemStep::Files(OnFiles::Holds("three-of-a-test/z", "hello you")),
            SystemStep::Files(OnFiles::Lacks("three-of-a-test/.mxfetch-42-0.part")),
            SystemStep::Files(OnFiles::Lacks("three-of-a-test/.mxfetch-42-1.part")),
            SystemStep::Files(OnFiles::Lacks("three-of-a-test/.mxfetch-42-2.part")),
            SystemStep::Files(OnFiles::RemoveFolder("three-of-a-test")),
        ],
    },
    // rule file-links-and-folders
    Scenario {
        name: "a folder is in the way of one of three, which are kept in another order",
        root: "three-ways-of-a-test",
        steps: &[
            SystemStep::Files(OnFiles::MakeFolder("three-ways-of-a-test")),
            SystemStep::Files(OnFiles::MakeFolder("three-ways-of-a-test/y")),
            SystemStep::Three(&ThreeSaves {
                folder: "three-ways-of-a-test",
                three: Three {
                    bodies: [BYE, &[b"o", b"ne"], HELLO],
                    hows: [How::Keep, How::Keep, How::Keep],
                    order: Order::ThirdSecondFirst,
                },
                told: "saved\nsomething else has that name\nsaved\n",
            }),
            SystemStep::Files(OnFiles::Holds("three-ways-of-a-test/x", "bye")),
            SystemStep::Files(OnFiles::Holds("three-ways-of-a-test/z", "hello you")),
            SystemStep::Files(OnFiles::Lacks("three-ways-of-a-test/.mxfetch-42-1.part")),
            SystemStep::Files(OnFiles::RemoveFolder("three-ways-of-a-test")),
        ],
    },
    Scenario {
        name: "a folder that is gone, and a file where the folder is to be",
        root: "gone-of-a-test",
        steps: &[
            SystemStep::Open("gone-of-a-test"),
            SystemStep::Files(OnFiles::RemoveFolder("gone-of-a-test")),
            SystemStep::Folder(OnOpen::Save(
                "http://h/x",
                &[b"o", b"ne"],
                Err(SaveError::Create(FolderError::NotThere)),
            )),
            SystemStep::Files(OnFiles::MakeFile("gone-of-a-test", "")),
            SystemStep::Save(SaveCall {
                folder: "gone-of-a-test",
                url: "http://h/x",
                body: &[b"o", b"ne"],
                flush: true,
                answer: Err(SaveError::Create(FolderError::AlreadyThere)),
            }),
            SystemStep::Files(OnFiles::RemoveFile("gone-of-a-test")),
        ],
    },
];

// Whether this file has this text.
fn holds<R: Files + AllocGlobal>(rt: &R, path: &str, wanted: &str) -> bool {
    match fs::read_to_string(rt, path).ok() {
        Some(text) => is_same(text.as_str().as_bytes(), wanted.as_bytes()),
        None => false,
    }
}

// Whether a step over files went well.
fn is_done<R: Files + AllocGlobal>(rt: &R, step: &OnFiles) -> bool {
    match step {
        OnFiles::MakeFolder(path) => fs::create_dir(rt, *path).is_ok(),
        OnFiles::MakeFile(path, text) => fs::write(rt, *path, *text).is_ok(),
        OnFiles::MakeLink(far, path) => symlink(rt, *far, *path).is_ok(),
        OnFiles::RemoveFolder(path) => fs::remove_dir_all(rt, *path).is_ok(),
        OnFiles::RemoveFile(path) => fs::remove_file(rt, *path).is_ok(),
        OnFiles::Holds(path, text) => holds(rt, *path, *text),
        OnFiles::Lacks(path) => matches!(fs::exists(rt, *path), Ok(false)),
    }
}

// Saves in a folder by a run of its own.
fn save_in<F: Folder>(
    alloc: Global,
    folder: F,
    name: &FileName,
    body: &[&[u8]],
    flush: bool,
) -> Result<(), SaveError> {
    let (saved, flushed, folder) = save_alone(alloc, folder, name, body, flush);
    drop(folder);
    match (saved, flushed) {
        (Ok(()), Ok(())) => Ok(()),
        (Ok(()), Err(error)) => Err(SaveError::Flush(error)),
        (Err(unsaved), _) => Err(unsaved.error),
    }
}

// Whether a save by a run of its own answers what it has to.
fn is_saved<R: Files<File = File> + AllocGlobal>(
    rt: &R,
    save: &SaveCall,
) -> Result<bool, OutOfMemory> {
    let name = name_of(rt.alloc(), save.url)?;
    let saved = match SystemFolder::open(rt.alloc(), rt, save.folder) {
        Ok(folder) => save_in(rt.alloc(), folder, &name, save.body, save.flush),
        Err(error) => Err(SaveError::Create(error)),
    };
    Ok(saved == save.answer)
}

// Whether that is told of three saves by a run of its own.
fn are_saved<R: Files<File = File> + AllocGlobal>(
    rt: &R,
    saves: &ThreeSaves,
) -> Result<bool, OutOfMemory> {
    let names = three_names(rt.alloc())?;
    match SystemFolder::open(rt.alloc(), rt, saves.folder) {
        Ok(folder) => {
            let (told, folder) = save_three(rt.alloc(), folder, &names, &saves.three);
            drop(folder);
            is_told(rt.alloc(), &told, saves.told)
        }
        Err(_) => Ok(false),
    }
}

// Whether a save answers that, and no part is left.
fn is_refused_so(saved: Result<(), Unsaved>, wanted: Result<(), SaveError>) -> bool {
    match saved {
        Ok(()) => wanted.is_ok(),
        Err(unsaved) => wanted == Err(unsaved.error) && unsaved.left.is_none(),
    }
}

// Whether a call of the folder that is open answers what it has to, and the folder.
fn is_answered<'a, R: Files<File = File>>(
    alloc: Global,
    mut folder: SystemFolder<'a, R>,
    name: &FileName,
    step: &OnOpen,
) -> (bool, SystemFolder<'a, R>) {
    match step {
        OnOpen::Look(_, wanted) => {
            let found = folder.look(name);
            (found == *wanted, folder)
        }
        OnOpen::Save(_, body, wanted) => {
            let (saved, _, folder) = save_alone(alloc, folder, name, *body, true);
            (is_refused_so(saved, *wanted), folder)
        }
    }
}

// The same, where one is open.
fn is_answered_if_open<R: Files<File = File>>(
    alloc: Global,
    open: &mut Option<SystemFolder<'_, R>>,
    step: &OnOpen,
) -> Result<bool, OutOfMemory> {
    let name = name_of(alloc, step.url())?;
    match open.take() {
        Some(folder) => {
            let (is_right, folder) = is_answered(alloc, folder, &name, step);
            *open = Some(folder);
            Ok(is_right)
        }
        None => Ok(false),
    }
}

// Whether a step answers what it has to.
fn is_right<'a, R: Files<File = File> + AllocGlobal>(
    rt: &'a R,
    open: &mut Option<SystemFolder<'a, R>>,
    step: &SystemStep,
) -> Result<bool, OutOfMemory> {
    match step {
        SystemStep::Files(step) => Ok(is_done(rt, step)),
        SystemStep::Save(save) => is_saved(rt, save),
        SystemStep::Three(saves) => are_saved(rt, *saves),
        SystemStep::Open(path) => {
            *open = SystemFolder::open(rt.alloc(), rt, *path).ok();
            Ok(open.is_some())
        }
        SystemStep::Folder(step) => is_answered_if_open(rt.alloc(), open, step),
    }
}

// The number of the first step, from 0 on, that answers something else.
fn wrong_step<R: Files<File = File> + AllocGlobal>(
    rt: &R,
    steps: &[SystemStep],
) -> Result<Option<usize>, OutOfMemory> {
    let mut open = None;
    for i in 0..steps.len() {
        if !is_right(rt, &mut open, &steps[i])? {
            return Ok(Some(i));
        }
    }
    Ok(None)
}

// Fails with the scenario where it has such a step, and with the number of that.
fn play<R: Files<File = File> + AllocGlobal>(rt: &R, row: &Scenario) -> Result<(), Fail> {
    let _ = fs::remove_dir_all(rt, row.root);
    let name = row.name;
    match wrong_step(rt, row.steps)? {
        Some(step) => Err(Fail::new(format_args!("{name}: step {step}"))),
        None => Ok(()),
    }
}

// Fails with the first that does.
fn play_each<R: Files<File = File> + AllocGlobal>(rt: &R) -> Result<(), Fail> {
    for row in &SCENARIOS {
        play(rt, row)?;
    }
    Ok(())
}

// Whether two parts take what is written to them in turns, and are flushed.
fn are_written<P: PartFile>(first: &mut P, second: &mut P) -> bool {
    first.append(b"a") == Ok(1)
        && second.append(b"b") == Ok(1)
        && first.append(b"cd") == Ok(2)
        && second.flush() == Ok(())
        && first.append(b"e") == Ok(1)
        && first.flush() == Ok(())
}

// Whether a part that was closed takes no more.
fn is_closed<P: PartFile>(part: &mut P) -> bool {
    part.append(b"f") == Err(FolderError::NotOpen) && part.flush() == Err(FolderError::NotOpen)
}

// Whether a part can't have a name that a folder has, is closed then, and can be removed.
fn is_taken_back<F: Folder>(folder: &mut F, part: F::Part, name: &FileName) -> bool {
    match folder.place(part, name) {
        Ok(()) => false,
        Err(unplaced) => {
            let Unplaced { mut part, error } = unplaced;
            let is_closed = is_closed(&mut part);
            let removed = folder.remove(part);
            error == FolderError::AlreadyThere && is_closed && removed == Ok(())
        }
    }
}

// Whether two parts that are open at once are written, and then one gets its name, and the other one can't.
fn are_apart<F: Folder>(
    folder: &mut F,
    parts: &[PartName; 2],
    name: &FileName,
    taken: &FileName,
) -> bool {
    let [one, two] = parts;
    let (Ok(mut first), Ok(mut second)) = (folder.create(one), folder.create(two)) else {
        return false;
    };
    let are_written = are_written(&mut first, &mut second);
    let is_taken_back = is_taken_back(folder, second, taken);
    let is_placed = folder.place(first, name).is_ok();
    are_written && is_taken_back && is_placed
}

// Whether two parts of this folder, in which a folder has one of the names, are apart.
fn are_apart_in<R: Files<File = File> + AllocGlobal>(
    rt: &R,
    path: &str,
) -> Result<bool, OutOfMemory> {
    let parts = [part_name(rt.alloc(), 42, 0)?, part_name(rt.alloc(), 42, 1)?];
    let name = name_of(rt.alloc(), "http://h/x")?;
    let taken = name_of(rt.alloc(), "http://h/y")?;
    match SystemFolder::open(rt.alloc(), rt, path) {
        Ok(mut folder) => Ok(are_apart(&mut folder, &parts, &name, &taken)),
        Err(_) => Ok(false),
    }
}

// Fails where they aren't, or their files are others.
fn play_parts<R: Files<File = File> + AllocGlobal>(rt: &R) -> Result<(), Fail> {
    let _ = fs::remove_dir_all(rt, "parts-of-a-test");
    let is_made = fs::create_dir_all(rt, "parts-of-a-test/y").is_ok();
    let are_apart = are_apart_in(rt, "parts-of-a-test")?;
    let are_left = holds(rt, "parts-of-a-test/x", "acde")
        && is_done(rt, &OnFiles::Lacks("parts-of-a-test/.mxfetch-42-0.part"))
        && is_done(rt, &OnFiles::Lacks("parts-of-a-test/.mxfetch-42-1.part"));
    let is_removed = fs::remove_dir_all(rt, "parts-of-a-test").is_ok();
    if is_made && are_apart && are_left && is_removed {
        Ok(())
    } else {
        Err("two parts that are open at once".into())
    }
}

#[test]
fn each_row(rt: HostRuntime) -> Result<(), Fail> {
    play_each(&rt)
}

#[test]
fn two_parts_are_apart(rt: HostRuntime) -> Result<(), Fail> {
    play_parts(&rt)
}

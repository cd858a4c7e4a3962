//! The names that URLs give, alone and in a run, and the names of parts.

use crate::bodies::{is_same, none_of};
use mx_folder::{FileName, Names, file_name, part_name, path_of};
use mx_types::OutOfMemory;
use std::alloc::Global;
use std::test::Fail;

// rule file-url-path
// rule file-base-name
// The text of a URL, which names the row, its path, and the name that it gives.
static OF_URLS: [(&str, &str, &str); 34] = [
    (
        "http://h/pub/dists.tar.gz",
        "/pub/dists.tar.gz",
        "dists.tar.gz",
    ),
    ("http://h/a%20b", "/a%20b", "a%20b"),
    ("http://h/a b", "/a b", "a_b"),
    ("http://h/a\tb\u{7f}c", "/a\tb\u{7f}c", "a_b_c"),
    ("http://h/\u{e9}", "/\u{e9}", "__"),
    ("http://h/..", "/..", "_."),
    ("http://h/.", "/.", "_"),
    ("http://h/...", "/...", "_.."),
    ("http://h/.bashrc", "/.bashrc", "_bashrc"),
    ("http://h/a/../../b", "/a/../../b", "b"),
    ("http://h/a/../..", "/a/../..", "_."),
    ("http://h/%2e%2e", "/%2e%2e", "%2e%2e"),
    ("http://h/..%2F..%2Fb", "/..%2F..%2Fb", "_.%2F..%2Fb"),
    ("http://h/a\u{0}b", "/a\u{0}b", "a_b"),
    ("http://h/..\\b", "/..\\b", "_.\\b"),
    (
        "http://h/.mxfetch-1-0.part",
        "/.mxfetch-1-0.part",
        "_mxfetch-1-0.part",
    ),
    ("http://h/-", "/-", "-"),
    ("http://h/_", "/_", "_"),
    ("http://h/a/", "/a/", "index.html"),
    ("http://h/", "/", "index.html"),
    ("http://h", "", "index.html"),
    ("http://h?a/b", "", "index.html"),
    ("http://h#a/b", "", "index.html"),
    ("http://h/x?a/b", "/x", "x"),
    ("http://h/x#a/b", "/x", "x"),
    ("http://h/x?a#b", "/x", "x"),
    ("http://h/x?http://g/y", "/x", "x"),
    ("http://h/x;a=b:c@d", "/x;a=b:c@d", "x;a=b:c@d"),
    ("http://u:p@h:80/x", "/x", "x"),
    ("http://[::1]:8080/x", "/x", "x"),
    ("HTTP://H/X", "/X", "X"),
    ("http:///h/x", "/x", "x"),
    ("http:h/x", "/x", "x"),
    ("h/x", "", "index.html"),
];

// The name that a URL gives. Where memory is refused, a further call gives it, and then `OutOfMemory` is returned.
fn is_given(alloc: Global, url: &str, wanted: &str) -> Result<bool, OutOfMemory> {
    match file_name(alloc, url.as_bytes(), 0) {
        Ok(name) => Ok(is_same(name.as_str().as_bytes(), wanted.as_bytes())),
        Err(OutOfMemory) => {
            let again = file_name(alloc, url.as_bytes(), 0)?;
            if is_same(again.as_str().as_bytes(), wanted.as_bytes()) {
                return Err(OutOfMemory);
            }
            Ok(false)
        }
    }
}

// The first URL whose path or name is another one.
fn wrong_of_urls(alloc: Global) -> Result<Option<&'static str>, OutOfMemory> {
    for (url, path, wanted) in OF_URLS.iter() {
        if !is_same(path_of(url.as_bytes()), path.as_bytes()) || !is_given(alloc, *url, *wanted)? {
            return Ok(Some(*url));
        }
    }
    Ok(None)
}

// rule file-numbered-name
// The URLs of a run in their order, and their names: these don't depend on whether a URL was saved.
static OF_A_RUN: [(&str, &str); 10] = [
    ("http://h/a/x", "x"),
    ("http://h/b/x", "x#1"),
    ("http://h/c/y", "y"),
    ("http://g/x?a", "x#2"),
    ("http://h/x%231", "x%231"),
    ("http://h/", "index.html"),
    ("http://h/index.html", "index.html#1"),
    ("http://h/.x", "_x"),
    ("http://h/_x", "_x#1"),
    ("http://h/X", "X"),
];

// The next name of a run; where memory is refused, a further call gives it, and then `OutOfMemory` is returned.
fn next_name(
    alloc: Global,
    names: &mut Names,
    url: &str,
    lacks: &mut bool,
) -> Result<FileName, OutOfMemory> {
    match names.next(alloc, url.as_bytes()) {
        Ok(name) => Ok(name),
        Err(OutOfMemory) => {
            *lacks = true;
            names.next(alloc, url.as_bytes())
        }
    }
}

// The first URL of the run with another name.
fn wrong_of_a_run(alloc: Global) -> Result<Option<&'static str>, OutOfMemory> {
    let mut names = Names::new(alloc);
    let mut lacks = false;
    for (url, wanted) in OF_A_RUN.iter() {
        let name = next_name(alloc, &mut names, *url, &mut lacks)?;
        if !is_same(name.as_str().as_bytes(), wanted.as_bytes()) {
            return Ok(Some(*url));
        }
    }
    if lacks { Err(OutOfMemory) } else { Ok(None) }
}

// rule file-name-size
// What follows the name of a segment of so many letters, and the length of the name, by the number that it is given.
static LONG: [(&str, u32, u64, usize); 2] = [
    ("300 letters, no number", 300, 0, 234),
    ("300 letters, the greatest number", 300, u64::MAX, 255),
];

// The first row of these whose name has another length.
fn wrong_of_long(alloc: Global) -> Result<Option<&'static str>, OutOfMemory> {
    for (row, letters, number, wanted) in LONG.iter() {
        let mut url = String::from_str(alloc, "http://h/")?;
        for _ in 0..*letters {
            url.push('a')?;
        }
        let name = file_name(alloc, url.as_bytes(), *number)?;
        if name.as_str().len() != *wanted {
            return Ok(Some(*row));
        }
    }
    Ok(None)
}

// How many names a run gives, which two URLs each give, and the last of them.
static MANY: [(&str, u32, &str); 1] = [("2,000 names", 2_000, "999#1")];

// The last of so many names, which half of its URLs give.
fn last_name(alloc: Global, count: u32) -> Result<Option<FileName>, OutOfMemory> {
    let mut names = Names::new(alloc);
    let mut last = None;
    for i in 0..count {
        let url = format!(in alloc; "http://h/{}/{}", i, i % (count / 2).max(1))?;
        last = Some(names.next(alloc, url.as_bytes())?);
    }
    Ok(last)
}

// The first row of these with another last name, or none.
fn wrong_of_many(alloc: Global) -> Result<Option<&'static str>, OutOfMemory> {
    for (row, count, wanted) in MANY.iter() {
        let Some(last) = last_name(alloc, *count)? else {
            return Ok(Some(*row));
        };
        if !is_same(last.as_str().as_bytes(), wanted.as_bytes()) {
            return Ok(Some(*row));
        }
    }
    Ok(None)
}

// A process, a number, and the name of that part.
static OF_PARTS: [(u32, u64, &str); 2] = [
    (42, 7, ".mxfetch-42-7.part"),
    (
        u32::MAX,
        u64::MAX,
        ".mxfetch-4294967295-18446744073709551615.part",
    ),
];

// The first part with another name.
fn wrong_of_parts(alloc: Global) -> Result<Option<&'static str>, OutOfMemory> {
    for (process, number, wanted) in OF_PARTS.iter() {
        let part = part_name(alloc, *process, *number)?;
        if !is_same(part.as_str().as_bytes(), wanted.as_bytes()) {
            return Ok(Some(*wanted));
        }
    }
    Ok(None)
}

/// How many parts the rows have.
const PARTS: u32 = 5;

// The first row of a part that has another name.
fn wrong_of(alloc: Global, number: u32) -> Result<Option<&'static str>, OutOfMemory> {
    match number {
        0 => wrong_of_urls(alloc),
        1 => wrong_of_a_run(alloc),
        2 => wrong_of_long(alloc),
        3 => wrong_of_many(alloc),
        _ => wrong_of_parts(alloc),
    }
}

// Fails with the first row of all.
fn are_right(alloc: Global) -> Result<(), Fail> {
    for number in 0..PARTS {
        none_of(wrong_of(alloc, number))?;
    }
    Ok(())
}

#[test]
fn each_row(rt: HostRuntime) -> Result<(), Fail> {
    are_right(rt.alloc())
}

//! Runs of `save` over loopback: what each leaves in a folder in memory, and what it prints.

use crate::bodies::was_printed;
use crate::memory::failing;
use crate::server::{LONG, Server};
use mx_command::{Save, SaveFlags, SaveNumbers};
use mx_crew::Runtime;
use mx_folder::{FolderError, MemoryFolder, part_name};
use mx_run_io::{Options, Output};
use mx_run_save::{Saved, save_in};
use mx_save_book::{Asking, Lines};
use mx_save_rules::UrlList;
use mx_save_urls::Nobody;
use mx_types::{LEAST_HISTORY, Method, OutOfMemory, Settings};
use std::alloc::{AllocError, Global};
use std::io;
use std::io::{Error, ErrorKind, Read};
use std::net::{Net, TcpListener, TcpStream};
use std::test::Fail;

/// What a run left: what was printed, the exit status by its codes, whether it came to its end and the folder was flushed, the bytes under
/// each name that was looked for, with a stroke after them, how many parts are left, and how many requests the server answered.
#[derive(Drop)]
pub(crate) struct Ran {
    pub printed: Vec<u8>,
    pub status: u8,
    pub is_whole: bool,
    pub held: Vec<u8>,
    left: u32,
    served: u32,
}

// A run of the URLs of the command line and those of a list, and what it leaves. An @ stands for the address of the server.
struct SaveRow {
    name: &'static str,
    urls: &'static [&'static str],
    list: &'static str,
    history: u32,
    // How many are fetched at a time. Where they are several, their lines come in any order.
    at_once: u16,
    // How many bytes a write of the folder takes, the call that fails, whether each later one does, and why.
    most: usize,
    fails_at: u64,
    fails_on: bool,
    error: FolderError,
    // How many further tries a URL has.
    retries: u8,
    // The most bytes that a body may have, where there is a limit.
    most_bytes: Option<u64>,
    // The names that are looked for, and the bytes under them, with a stroke after each; and how many parts are left.
    names: &'static [&'static str],
    held: &'static [u8],
    left: u32,
    printed: &'static str,
    status: u8,
    is_whole: bool,
    // How many requests the server answers, which are all.
    served: u32,
}

// Two bodies are saved.
const BOTH: SaveRow = SaveRow {
    name: "no call of the folder fails",
    urls: &[],
    list: "@a\n@b",
    history: 64,
    at_once: 1,
    most: 2,
    fails_at: u64::MAX,
    fails_on: false,
    error: FolderError::Full,
    retries: 0,
    most_bytes: None,
    names: &["a", "b"],
    held: b"aaa|bbb|",
    left: 0,
    printed: "saved 0 200 3 a @a\nsaved 0 200 3 b @b\n",
    status: 0,
    is_whole: true,
    served: 2,
};

// The first body can't be saved.
const FIRST_FAILS: SaveRow = SaveRow {
    held: b"|bbb|",
    printed: "failed 23 200 0 - @a\nsaved 0 200 3 b @b\n",
    status: 23,
    ..BOTH
};

// The second can't.
const SECOND_FAILS: SaveRow = SaveRow {
    held: b"aaa||",
    printed: "saved 0 200 3 a @a\nfailed 23 200 0 - @b\n",
    status: 23,
    ..BOTH
};

// No part can be made for the first body, so its URL isn't asked for.
const FIRST_UNASKED: SaveRow = SaveRow {
    printed: "failed 23 0 0 - @a\nsaved 0 200 3 b @b\n",
    served: 1,
    ..FIRST_FAILS
};

// None can be made for the second.
const SECOND_UNASKED: SaveRow = SaveRow {
    printed: "saved 0 200 3 a @a\nfailed 23 0 0 - @b\n",
    served: 1,
    ..SECOND_FAILS
};

// Three bodies are saved.
const THREE: SaveRow = SaveRow {
    name: "three are fetched, one after another",
    list: "@a\n@b\n@c",
    names: &["a", "b", "c"],
    held: b"aaa|bbb|ccc|",
    printed: "saved 0 200 3 a @a\nsaved 0 200 3 b @b\nsaved 0 200 3 c @c\n",
    served: 3,
    ..BOTH
};

// A body of a million bytes, which is written while it comes, and another one.
const LONG_AND_SHORT: SaveRow = SaveRow {
    name: "a long body is saved whole",
    list: "@long\n@b",
    most: 65_536,
    names: &["long", "b"],
    held: b"long|bbb|",
    printed: "saved 0 200 1000000 long @long\nsaved 0 200 3 b @b\n",
    ..BOTH
};

// A URL that isn't there, and another one.
const ABSENT: SaveRow = SaveRow {
    name: "the part of a URL that isn't there is removed",
    list: "@none\n@b",
    names: &["none", "b"],
    held: b"|bbb|",
    printed: "failed 22 404 0 - @none\nsaved 0 200 3 b @b\n",
    status: 22,
    ..BOTH
};

// A URL that has a further try, and fails in each, and another one.
const UNAVAILABLE: SaveRow = SaveRow {
    name: "each try has a part of its own, which is removed",
    list: "@unavailable\n@b",
    retries: 1,
    names: &["unavailable", "b"],
    held: b"|bbb|",
    printed: "saved 0 200 3 b @b\nfailed 22 503 0 - @unavailable\n",
    status: 22,
    served: 3,
    ..BOTH
};

// A URL whose response has nothing to save, and another one.
const NOTHING: SaveRow = SaveRow {
    name: "the part of a response that has nothing to save is removed",
    list: "@void\n@b",
    names: &["void", "b"],
    held: b"|bbb|",
    printed: "done 0 204 0 - @void\nsaved 0 200 3 b @b\n",
    ..BOTH
};

// rule save-each-once
// rule save-bodies
static ROWS: [SaveRow; 34] = [
    // rule save-each-once
    // rule save-requests
    SaveRow {
        name: "two are saved, one is refused, one isn't there",
        urls: &["@one", "ftp://a/"],
        list: "@none\n@two/one\n",
        names: &["one", "none", "one#1", "one#2"],
        held: b"ooo||ttt||",
        printed: "saved 0 200 3 one @one\nfailed 1 0 0 - ftp://a/\nfailed 22 404 0 - @none\nsaved 0 200 3 one#1 @two/one\n",
        status: 1,
        served: 3,
        ..BOTH
    },
    // rule save-long-runs
    // A multi handle has room for one URL: five URLs take five, one after another, at the same gates.
    SaveRow {
        name: "the least history",
        list: "@a\n@b\n@c\n@d\n@e",
        history: LEAST_HISTORY,
        names: &["a", "b", "c", "d", "e"],
        held: b"aaa|bbb|ccc|ddd|eee|",
        printed: "saved 0 200 3 a @a\nsaved 0 200 3 b @b\nsaved 0 200 3 c @c\nsaved 0 200 3 d @d\nsaved 0 200 3 e @e\n",
        served: 5,
        ..BOTH
    },
    SaveRow {
        name: "the first part can't be made",
        fails_at: 0,
        ..FIRST_UNASKED
    },
    SaveRow {
        name: "the first write of the first body fails",
        fails_at: 1,
        ..FIRST_FAILS
    },
    SaveRow {
        name: "the second write of the first body fails",
        fails_at: 2,
        ..FIRST_FAILS
    },
    SaveRow {
        name: "the flush of the first body fails",
        fails_at: 3,
        ..FIRST_FAILS
    },
    SaveRow {
        name: "the first part can't be renamed",
        fails_at: 4,
        ..FIRST_FAILS
    },
    SaveRow {
        name: "the second part can't be made",
        fails_at: 5,
        ..SECOND_UNASKED
    },
    SaveRow {
        name: "the first write of the second body fails",
        fails_at: 6,
        ..SECOND_FAILS
    },
    SaveRow {
        name: "the second write of the second body fails",
        fails_at: 7,
        ..SECOND_FAILS
    },
    SaveRow {
        name: "the flush of the second body fails",
        fails_at: 8,
        ..SECOND_FAILS
    },
    SaveRow {
        name: "the second part can't be renamed",
        fails_at: 9,
        ..SECOND_FAILS
    },
    SaveRow {
        name: "the folder can't be flushed",
        fails_at: 10,
        is_whole: false,
        ..BOTH
    },
    SaveRow {
        name: "the call behind the last fails",
        fails_at: 11,
        ..BOTH
    },
    SaveRow {
        name: "the second call behind the last fails",
        fails_at: 12,
        ..BOTH
    },
    // rule file-descriptors
    SaveRow {
        name: "no file can be opened for the first body, which has a further try",
        fails_at: 0,
        error: FolderError::TooManyOpen,
        retries: 1,
        printed: "saved 0 200 3 b @b\nsaved 0 200 3 a @a\n",
        ..BOTH
    },
    SaveRow {
        name: "no file can be opened for the first body, which has no further try",
        fails_at: 0,
        error: FolderError::TooManyOpen,
        ..FIRST_UNASKED
    },
    SaveRow {
        name: "the disk is full, and a further try isn't made",
        fails_at: 0,
        retries: 1,
        ..FIRST_UNASKED
    },
    THREE,
    SaveRow {
        name: "the part of the second of three can't be made",
        fails_at: 5,
        held: b"aaa||ccc|",
        printed: "saved 0 200 3 a @a\nfailed 23 0 0 - @b\nsaved 0 200 3 c @c\n",
        status: 23,
        served: 2,
        ..THREE
    },
    SaveRow {
        name: "three are fetched at a time",
        at_once: 3,
        ..THREE
    },
    SaveRow {
        name: "three are fetched at a time, of which the part of the first can't be made",
        at_once: 3,
        fails_at: 0,
        held: b"|bbb|ccc|",
        printed: "failed 23 0 0 - @a\nsaved 0 200 3 b @b\nsaved 0 200 3 c @c\n",
        status: 23,
        served: 2,
        ..THREE
    },
    LONG_AND_SHORT,
    // rule file-refused-save
    SaveRow {
        name: "the disk is full in the middle of a body",
        fails_at: 2,
        held: b"|bbb|",
        printed: "failed 23 200 0 - @long\nsaved 0 200 3 b @b\n",
        status: 23,
        ..LONG_AND_SHORT
    },
    SaveRow {
        name: "the disk is full in the middle of a body, and a further try isn't made",
        fails_at: 2,
        retries: 1,
        held: b"|bbb|",
        printed: "failed 23 200 0 - @long\nsaved 0 200 3 b @b\n",
        status: 23,
        ..LONG_AND_SHORT
    },
    // rule save-limit
    SaveRow {
        name: "a body of as many bytes as it may have is saved, and a longer one isn't, nor tried again",
        most_bytes: Some(3),
        retries: 1,
        held: b"|bbb|",
        printed: "failed 63 200 0 - @long\nsaved 0 200 3 b @b\n",
        status: 63,
        ..LONG_AND_SHORT
    },
    // rule file-no-part-left
    SaveRow {
        name: "each call of the folder fails from the middle of a body on",
        fails_at: 2,
        fails_on: true,
        held: b"||",
        left: 1,
        printed: "failed 23 200 0 - @long\nfailed 23 0 0 - @b\n",
        status: 23,
        is_whole: false,
        served: 1,
        ..LONG_AND_SHORT
    },
    ABSENT,
    SaveRow {
        name: "the part of a URL that isn't there can't be removed",
        fails_at: 1,
        left: 1,
        ..ABSENT
    },
    SaveRow {
        name: "the body of a URL that isn't there isn't written: the third call makes the next part",
        fails_at: 2,
        held: b"||",
        printed: "failed 22 404 0 - @none\nfailed 23 0 0 - @b\n",
        served: 1,
        ..ABSENT
    },
    UNAVAILABLE,
    SaveRow {
        name: "a part can't be removed, and a further try isn't made",
        fails_at: 1,
        left: 1,
        printed: "failed 23 503 0 - @unavailable\nsaved 0 200 3 b @b\n",
        status: 23,
        served: 2,
        ..UNAVAILABLE
    },
    NOTHING,
    SaveRow {
        name: "the part of a response that has nothing to save can't be removed",
        fails_at: 1,
        left: 1,
        printed: "failed 23 204 0 - @void\nsaved 0 200 3 b @b\n",
        status: 23,
        ..NOTHING
    },
];

const OPTIONS: Options = Options {
    workers: 2,
    at_once: 1,
    timeout_ms: 0,
    max_connects: 4,
    max_redirects: 0,
};

const FLAGS: SaveFlags = SaveFlags {
    skip_existing: false,
    content_on_error: false,
    fsync: true,
    json: false,
    progress: None,
};

fn asking(alloc: Global, retries: u8, most_bytes: Option<u64>) -> Asking {
    Asking {
        method: Method::Get,
        settings: Settings::new(alloc),
        retries,
        most_bytes,
        skip_existing: false,
        content_on_error: false,
    }
}

// What is asked for, with that history, so many at a time, so many further tries, that limit, and these URLs on the command line.
pub(crate) fn asked(
    alloc: Global,
    urls: &[String],
    history: u32,
    at_once: u16,
    retries: u8,
    most_bytes: Option<u64>,
) -> Result<Save<'_>, AllocError> {
    let mut given = Vec::new(alloc);
    for url in urls {
        given.push(url.as_str())?;
    }
    Ok(Save {
        numbers: SaveNumbers {
            options: Options { at_once, ..OPTIONS },
            retries,
            history,
            most_bytes,
        },
        flags: FLAGS,
        into: ".",
        input: None,
        urls: given,
        method: Method::Get,
        headers: Vec::new(alloc),
        body: None,
        user_agent: None,
    })
}

// Whether it is the long body.
fn is_long(bytes: &[u8]) -> bool {
    if bytes.len() != LONG as usize {
        return false;
    }
    for byte in bytes {
        if *byte != b'l' {
            return false;
        }
    }
    true
}

// The bytes under each name, with a stroke after them. The long body stands there by its name.
fn held(alloc: Global, folder: &MemoryFolder, names: &[&str]) -> Result<Vec<u8>, OutOfMemory> {
    let mut all = Vec::new(alloc);
    for name in names {
        if let Some(bytes) = folder.held(alloc, *name)? {
            let shown = if is_long(bytes.as_slice()) {
                b"long"
            } else {
                bytes.as_slice()
            };
            all.extend_from_slice(shown)?;
        }
        all.push(b'|')?;
    }
    Ok(all)
}

// How many parts are looked for: more than a run makes.
const MOST_PARTS: u64 = 8;

// How many parts of the run are left.
fn left_parts(alloc: Global, folder: &MemoryFolder) -> Result<u32, OutOfMemory> {
    let mut left: u32 = 0;
    for number in 0..MOST_PARTS {
        let part = part_name(alloc, 7, number)?;
        if folder.held(alloc, part.as_str())?.is_some() {
            left = left.saturating_add(1);
        }
    }
    Ok(left)
}

// A list that is read by at most 32 bytes, and has nothing now every other time.
#[derive(Drop)]
struct StallingList<'a> {
    bytes: &'a [u8],
    stalls: bool,
}

impl Read for StallingList<'_> {
    fn read(&mut self, buffer: &mut [u8]) -> io::Result<usize> {
        self.stalls = !self.stalls;
        if self.stalls {
            return Err(Error::from(ErrorKind::WouldBlock));
        }
        let count = self.bytes.len().min(buffer.len()).min(32);
        buffer[..count].copy_from_slice(&self.bytes[..count]);
        self.bytes = &self.bytes[count..];
        Ok(count)
    }
}

// rule save-stalled-lists
// A run over the URLs of the command line and those of a list, which saves in that folder, and looks for these names.
pub(crate) fn save<R: Runtime + Net<Listener = TcpListener, Stream = TcpStream>>(
    rt: &R,
    given: &Save<'_>,
    list: &[u8],
    names: &[&str],
    server: Server,
    folder: MemoryFolder,
) -> Result<Ran, Fail> {
    let alloc = rt.alloc();
    let mut printed = Vec::new(alloc);
    if !given.numbers.are_within() {
        return Ok(Ran {
            printed,
            status: 0,
            is_whole: false,
            held: Vec::new(alloc),
            left: 0,
            served: server.end(rt),
        });
    }
    let lines = Lines::new(alloc, Output::new(&mut printed), false);
    let list = UrlList::new(
        alloc,
        StallingList {
            bytes: list,
            stalls: false,
        },
    );
    let list = Box::new(alloc, list).map_err(AllocError::from)?;
    let Saved {
        folder,
        lines,
        stopped,
        flushed,
    } = save_in(
        rt,
        given,
        7,
        asking(alloc, given.numbers.retries, given.numbers.most_bytes),
        Some(list),
        folder,
        lines,
        Nobody,
    );
    let status = lines.status();
    drop(lines);
    Ok(Ran {
        printed,
        status,
        is_whole: stopped.is_ok() && flushed.is_ok(),
        held: held(alloc, &folder, names)?,
        left: left_parts(alloc, &folder)?,
        served: server.end(rt),
    })
}

// The texts of a row, with the address of the server.
#[derive(Drop)]
struct Texts {
    urls: Vec<String>,
    list: String,
    printed: String,
}

fn texts_of(alloc: Global, row: &SaveRow, port: u16) -> Result<Texts, AllocError> {
    let address = format!(in alloc; "http://127.0.0.1:{port}/")?;
    let mut urls = Vec::new(alloc);
    for url in row.urls {
        urls.push(url.replace(alloc, '@', address.as_str())?)?;
    }
    Ok(Texts {
        urls,
        list: row.list.replace(alloc, '@', address.as_str())?,
        printed: row.printed.replace(alloc, '@', address.as_str())?,
    })
}

// Whether these lines were printed, and no others: in that order, or in any where several URLs are fetched at a time.
fn are_printed(printed: &[u8], wanted: &str, at_once: u16) -> bool {
    if at_once == 1 {
        return printed == wanted.as_bytes();
    }
    for line in wanted.split("\n") {
        if !was_printed(printed, line.as_bytes()) {
            return false;
        }
    }
    printed.len() == wanted.len()
}

// Whether a run left what its row says.
fn is_left(row: &SaveRow, ran: &Ran) -> bool {
    ran.held.as_slice() == row.held
        && ran.left == row.left
        && ran.status == row.status
        && ran.is_whole == row.is_whole
        && ran.served == row.served
}

// Whether a run prints and leaves what its row says.
fn is_right<R: Runtime + Net<Listener = TcpListener, Stream = TcpStream>>(
    rt: &R,
    row: &SaveRow,
) -> Result<bool, Fail> {
    let alloc = rt.alloc();
    let server = Server::start(rt, row.served)?;
    let texts = texts_of(alloc, row, server.address.port())?;
    let urls = texts.urls.as_slice();
    let given = asked(
        alloc,
        urls,
        row.history,
        row.at_once,
        row.retries,
        row.most_bytes,
    )?;
    let list = texts.list.as_bytes();
    let folder = failing(
        alloc,
        row.most.max(1),
        row.fails_at,
        row.fails_on,
        row.error,
    );
    let ran = save(rt, &given, list, row.names, server, folder)?;
    let printed = ran.printed.as_slice();
    Ok(are_printed(printed, texts.printed.as_str(), row.at_once) && is_left(row, &ran))
}

// Fails with the first run that leaves something else.
fn try_each<R: Runtime + Net<Listener = TcpListener, Stream = TcpStream>>(
    rt: &R,
) -> Result<(), Fail> {
    for row in &ROWS {
        if !is_right(rt, row)? {
            return Err(row.name.into());
        }
    }
    Ok(())
}

#[test]
fn each_row(rt: HostRuntime) -> Result<(), Fail> {
    try_each(&rt)
}

//! A run in which a growth of memory may be refused, as `checks/refused-growths.sh` refuses each in turn.

use crate::bodies::{is_same, was_printed};
use crate::runs::{asked, save};
use crate::server::Server;
use mx_crew::Runtime;
use mx_folder::{FolderError, MemoryFolder};
use mx_types::OutOfMemory;
use std::alloc::{AllocError, Global};
use std::net::{Net, TcpListener, TcpStream};
use std::test::Fail;

// Whether a URL was printed as saved.
fn was_saved(alloc: Global, port: u16, printed: &[u8], name: &str) -> Result<bool, AllocError> {
    let line = format!(in alloc; "saved 0 200 3 {name} http://127.0.0.1:{port}/{name}\n")?;
    Ok(was_printed(printed, line.as_bytes()))
}

// What a folder may hold of two whole bodies, and which of them.
static HELD: [(&[u8], bool, bool); 4] = [
    (b"||", false, false),
    (b"aaa||", true, false),
    (b"|bbb|", false, true),
    (b"aaa|bbb|", true, true),
];

// Which of two whole bodies a folder holds; None where it holds something else.
fn bodies_in(held: &[u8]) -> Option<(bool, bool)> {
    for (bytes, one, two) in HELD.iter() {
        if is_same(held, *bytes) {
            return Some((*one, *two));
        }
    }
    None
}

// Whether a run of two URLs leaves only whole bodies, and one for each URL that it prints as saved. Where it doesn't save both, it was
// refused memory.
fn is_right<R: Runtime + Net<Listener = TcpListener, Stream = TcpStream>>(
    rt: &R,
) -> Result<bool, Fail> {
    let alloc = rt.alloc();
    let server = Server::start(rt, 2)?;
    let port = server.address.port();
    let list = format!(in alloc; "http://127.0.0.1:{port}/a\nhttp://127.0.0.1:{port}/b")?;
    let given = asked(alloc, &[], 64, 1, 0, None)?;
    let folder = MemoryFolder::new(alloc, 2, u64::MAX, FolderError::Full);
    let ran = save(rt, &given, list.as_bytes(), &["a", "b"], server, folder)?;
    let first = was_saved(alloc, port, ran.printed.as_slice(), "a")?;
    let second = was_saved(alloc, port, ran.printed.as_slice(), "b")?;
    let Some((one, two)) = bodies_in(ran.held.as_slice()) else {
        return Ok(false);
    };
    if (first && !one) || (second && !two) {
        return Ok(false);
    }
    if !ran.is_whole || ran.status != 0 {
        return Err(OutOfMemory.into());
    }
    Ok(first && second)
}

// Fails where that isn't so.
fn try_it<R: Runtime + Net<Listener = TcpListener, Stream = TcpStream>>(
    rt: &R,
) -> Result<(), Fail> {
    if is_right(rt)? {
        return Ok(());
    }
    Err("something else was printed, or is in the folder".into())
}

// rule save-bodies
/// Two bodies are saved. Where a growth is refused, the folder holds the whole bodies of those URLs that were printed as saved, and nothing
/// that isn't whole.
#[test]
fn what_is_told_is_there(rt: HostRuntime) -> Result<(), Fail> {
    try_it(&rt)
}

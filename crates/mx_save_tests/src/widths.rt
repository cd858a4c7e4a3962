//! How many requests are open at a time.
use crate::open_requests::Counting;
use mx_run_get::{Runtime, run_get};
use mx_run_io::{Options, Output};
use std::alloc::Global;
use std::net::{Net, TcpListener, TcpStream};
use std::test::Fail;

/// The URLs to fetch, a byte each.
const PATHS: &[u8] = b"abcdefghijklmnopqrst";

/// Workers, how many transfers are added at a time, and how many requests are open at a time, at most.
type Width = (u8, u16, u64);

// rule get-width
/// As many are open as the width, and never more; with one worker one URL is fetched after another, whatever the width.
static WIDTHS: [Width; 8] = [
    (2, 1, 1),
    (2, 3, 3),
    (2, 256, 20),
    (4, 1, 1),
    (4, 3, 3),
    (4, 256, 20),
    (1, 1, 1),
    (1, 256, 1),
];

/// The URLs of a server at this port.
fn urls(alloc: Global, port: u16) -> Result<Vec<String>, Fail> {
    let mut urls = Vec::new(alloc);
    for path in PATHS {
        let path = char::from(*path);
        urls.push(format!(in alloc; "http://127.0.0.1:{port}/{path}")?)?;
    }
    Ok(urls)
}

/// What is printed of them.
fn expected(alloc: Global) -> Result<String, Fail> {
    let mut all = String::new(alloc);
    for (handle, path) in PATHS.iter().enumerate() {
        let path = char::from(*path);
        let text = format!(in alloc; "transfer {handle} code 0 status 200 length 1\n{path}\n")?;
        all.push_str(text.as_str())?;
    }
    Ok(all)
}

/// What `get` prints of the URLs, and its exit status.
fn get<R: Runtime + Net<Listener = TcpListener, Stream = TcpStream>>(
    rt: &R,
    urls: &[String],
    options: Options,
) -> Result<(Vec<u8>, u8), Fail> {
    let mut words = Vec::new(rt.alloc());
    for url in urls {
        words.push(url.as_str())?;
    }
    let mut printed = Vec::new(rt.alloc());
    let status = if options.are_within() {
        run_get(rt, words.as_slice(), options, Output::new(&mut printed)).status
    } else {
        120
    };
    Ok((printed, status))
}

/// Whether the same is printed with that width as with any, and as many requests are open at a time, at most.
fn holds<R: Runtime + Net<Listener = TcpListener, Stream = TcpStream>>(
    rt: &R,
    width: Width,
) -> Result<bool, Fail> {
    let (workers, at_once, wanted) = width;
    let server = Counting::start(rt, wanted)?;
    let urls = urls(rt.alloc(), server.address.port())?;
    let options = Options {
        workers,
        at_once,
        timeout_ms: 20_000,
        max_connects: 4,
        max_redirects: 0,
    };
    let (printed, status) = get(rt, urls.as_slice(), options)?;
    let most = server.end(rt)?;
    let is_printed = printed.as_slice() == expected(rt.alloc())?.as_bytes();
    Ok(is_printed && status == 0 && most == wanted)
}

/// Fails with the width unless it is so.
fn fails_unless(is_so: bool, width: Width) -> Result<(), Fail> {
    if is_so {
        return Ok(());
    }
    let (workers, at_once, _) = width;
    Err(Fail::new(format_args!("{workers} workers, {at_once} at once")))
}

#[test]
fn as_many_are_open_as_the_width(rt: HostRuntime) -> Result<(), Fail> {
    for width in &WIDTHS {
        fails_unless(holds(&rt, *width)?, *width)?;
    }
    Ok(())
}

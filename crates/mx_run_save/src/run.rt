//! The run of what is asked for.
ghost use Rattle.std.specs.Prelude.{◌≡◌, ◌≢◌, [], IfErr, OnOk, IsErr, is_some};
ghost use Rattle.mx_command.specs.Saving.{AreSaveNumbers};
ghost use Rattle.mx_save_urls.specs.Feeds.{list_left};
ghost use Rattle.mx_run_save.specs.Asked.{IsAskedBy};
ghost use Rattle.mx_run_save.specs.Runs.{EndsSave, IsUnbegunBy};
ghost use Rattle.mx_run_save.specs.Saved.{SavesIn, TellsOfFolder, urls_of};
ghost use Rattle.mx_run_save.specs.Status.{codes_number, stop_number};

use crate::asked::asking_of;
use crate::opened::{folder_of, list_of};
use crate::status::{OUT_OF_MEMORY, UNMADE, status_of};
use crate::terminal::{Screen, Terminal};
use crate::unbegun::{end_unbegun, tell_out_of_memory};
use mx_command::Save;
use mx_crew::Runtime;
use mx_folder::{Folder, FolderError};
use mx_run_io::{Output, Stop};
use mx_save::Ledger;
use mx_save_book::{Asking, Lines};
use mx_save_rules::UrlList;
use mx_save_urls::{Ended, Feed, Plan, Watch, save_all};
use std::fs::File;
use std::io;
use std::io::{BufWriter, Input, IsTerminal, Read, StdinLock, Write};
use std::net::{Net, TcpListener, TcpStream};
use std::rt::Files;

/// What a run left: the folder that it saved in, what it printed of its URLs, why it stopped before all had ended, if it did, and whether
/// the folder was flushed, where that was asked for.
#[derive(Drop)]
pub struct Saved<F: Folder, W: Write> {
    pub folder: F,
    pub lines: Lines<W>,
    pub stopped: Result<(), Stop>,
    pub flushed: Result<(), FolderError>,
}

// rule save-each-once
/// Fetches the URLs of the command line and then those of a list, saves their bodies in a folder, and prints what each ended with. The
/// files that hold a part of a body are named for this process. It may wait.
pub fn save_in<
    R: Runtime + Net<Listener = TcpListener, Stream = TcpStream>,
    F: Folder,
    W: Write + Drop,
    Rd: Read + Drop,
    V: Watch + Drop,
>(
    rt: &R,
    save: &Save<'_>,
    process: u32,
    asking: Asking,
    list: Option<Box<UrlList<Rd>>>,
    folder: F,
    lines: Lines<W>,
    watch: V,
) -> Saved<F, W>
where
    F::Part: Send,
    requires numbers { AreSaveNumbers save.now.numbers }
    requires fresh { lines.told ≡ [] }
    ensures all { OnOk result.stopped (SavesIn save.now asking (urls_of save.now (list_left Rd.remaining list))
        (F.steps folder) (F.steps result.folder) result.lines.told) }
    ensures told { TellsOfFolder save.now asking (urls_of save.now (list_left Rd.remaining list)) (F.steps folder) (F.steps result.folder) result.lines }
    ensures lines { (result.lines.start ≡ lines.start) × (result.lines.json ≡ lines.json) }
{
    let ledger = Ledger::new(rt.alloc(), process, folder, save.flags.fsync);
    let feed = Feed::new(rt.alloc(), save.urls.as_slice(), list);
    let plan = Plan {
        options: save.numbers.options,
        history: save.numbers.history,
    };
    let Ended {
        mut ledger,
        lines,
        mut watch,
        stopped,
    } = save_all(rt, asking, ledger, lines, feed, watch, plan);
    watch.end();
    ledger.sweep();
    let (folder, flushed) = ledger.finish();
    Saved {
        folder,
        lines,
        stopped,
        flushed,
    }
}

// Reports on standard error why a run stopped, and why its folder wasn't flushed. The answer is the exit status.
fn end<F: Folder, W: Write>(rt: &impl Eprint, saved: &Saved<F, W>) -> u8
    ensures stopped { IfErr saved.now.stopped (λ stop. result ≡ stop_number stop) }
    ensures failed { OnOk saved.now.stopped (codes_number saved.now.lines.told ≢ 0 → result ≡ codes_number saved.now.lines.told) }
    ensures unflushed { OnOk saved.now.stopped (codes_number saved.now.lines.told ≡ 0 → IsErr saved.now.flushed → result ≡ UNMADE) }
    ensures well { OnOk saved.now.stopped (OnOk saved.now.flushed (result ≡ codes_number saved.now.lines.told)) }
{
    if let Err(stop) = saved.stopped {
        let _ = eprintln!(rt; "mxfetch: {stop}");
    }
    if let Err(error) = saved.flushed {
        let _ = eprintln!(rt; "mxfetch: the folder can't be flushed: {error}");
    }
    status_of(saved.lines.status(), saved.stopped, saved.flushed)
}

// Saves in a folder, and prints to standard output. The answer is the exit status.
fn save_aloud<
    R: Runtime + Net<Listener = TcpListener, Stream = TcpStream> + Print + Eprint,
    F: Folder,
    Rd: Read + Drop,
    V: Watch + Drop,
>(
    rt: &R,
    save: &Save<'_>,
    process: u32,
    asking: Asking,
    list: Option<Box<UrlList<Rd>>>,
    folder: F,
    watch: V,
) -> u8
where
    F::Part: Send,
    requires numbers { AreSaveNumbers save.now.numbers }
    requires asked { IsAskedBy save.now asking }
    requires listed { is_some list ≡ is_some save.now.input }
    ensures { EndsSave save.now (F.steps folder) result }
{
    match BufWriter::with_capacity(rt.alloc(), 65_536, io::writer(rt)) {
        Ok(writer) => {
            let lines = Lines::new(rt.alloc(), Output::new(writer), save.flags.json);
            let saved = save_in(rt, save, process, asking, list, folder, lines, watch);
            end(rt, &saved)
        }
        Err(_) => {
            let _ = tell_out_of_memory(rt);
            end_unbegun(rt, save.flags.json)
        }
    }
}

// The exit status of a run that can't begin, which was told: where it is out of memory, objects are told so, too.
fn unbegun(rt: &impl Print, save: &Save<'_>, status: u8) -> u8
    requires { IsUnbegunBy save.now status }
    ensures { IsUnbegunBy save.now result }
{
    if status == OUT_OF_MEMORY {
        return end_unbegun(rt, save.flags.json);
    }
    status
}

/// Saves what is asked for: its URLs are fetched, the bodies saved in its folder, and each URL printed on standard output as it ends. Why
/// the run can't begin, or stopped, is reported on standard error, and which URLs failed on `stderr`, where the run's standing is also
/// shown if that is asked for, or if it is a terminal and that isn't forbidden. The answer is the exit status. The files that hold a part
/// of a body are named for this process. It may wait.
///
/// Where the run began, [`save_in`] has the promise of it, over a folder where nothing was done yet. Where it couldn't begin, the exit status
/// says why; but no clause says that memory was refused, or that the folder couldn't be made. What is printed on standard error, and which
/// URLs a list has, is left to tests.
pub fn run_save<
    R: Runtime
        + Net<Listener = TcpListener, Stream = TcpStream>
        + Files<File = File>
        + Input<Reader = StdinLock<'static>>
        + Print
        + Eprint,
    E: Write + IsTerminal + Drop,
>(rt: &R, save: &Save<'_>, process: u32, stderr: E, screen: Screen) -> u8
    requires { AreSaveNumbers save.now.numbers }
    ensures { EndsSave save.now [] result }
{
    let asking = match asking_of(rt, save) {
        Ok(asking) => asking,
        Err(status) => return unbegun(rt, save, status),
    };
    let list = match list_of(rt, save.input) {
        Ok(list) => list,
        Err(status) => return unbegun(rt, save, status),
    };
    let shows = save.flags.progress.unwrap_or(stderr.is_terminal());
    let watch = Terminal::new(rt.alloc(), Output::new(stderr), screen, shows);
    match folder_of(rt, save.into) {
        Ok(folder) => save_aloud(rt, save, process, asking, list, folder, watch),
        Err(status) => unbegun(rt, save, status),
    }
}

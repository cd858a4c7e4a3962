//! `mxfetch`: fetches URLs over HTTP/1.1, and decodes responses from bytes to bodies.
#![tactic(auto)]

ghost use Rattle.std.specs.Prelude.{◌≡◌, ◌≢◌, ◌<◌, ◌⊎◌, true, IfErr, length};
ghost use Rattle.clap.specs.Values.{kind_of};
ghost use Rattle.clap.specs.declared.error.kind.ErrorKind.TheVariants as kinds;
ghost use Rattle.mx_run_io.specs.Options.{are_within};
ghost use Rattle.mx_command.specs.Asked.{IsTask};

mod task;

use crate::task::{most_reads, run_task};
use clap::Error;
use clap::error::ErrorKind;
use mx_command::{Asked, Get, Task, hint_of, read_command};
use mx_run_get::{MOST_URLS, Runtime, run_get, run_get_explained};
use mx_run_get_body::run_get_body;
use mx_run_io::{Input, Output, UNWRITTEN, end_with};
use mx_run_local::{MOST_BODY_READS, run_body_explained};
use mx_run_save::{REFUSED, Screen, refuse_save, run_save};
use mx_types::{Code, Method, OUT_OF_MEMORY};
use std::env::FillError;
use std::io::{BufWriter, IsTerminal, Write};
use std::net::{Net, TcpListener, TcpStream};
use std::process::ExitCode;
use std::rt::Env;
use std::{env, io, process};

/// How many columns a line has, where the environment doesn't say so.
const COLUMNS: u16 = 80;

/// Prints that there isn't enough memory, which takes none.
fn out_of_memory(rt: &impl Print) -> u8
    ensures { (result ≡ 27) ⊎ (result ≡ 121) }
{
    match end_with(&mut Output::new(io::writer(rt)), Code::OutOfMemory) {
        Ok(status) => status,
        Err(_) => UNWRITTEN,
    }
}

/// Whether that word of the command line is this one. It takes no memory.
fn is_word(rt: &impl Env, at: usize, word: &str) -> bool {
    let mut buffer = [0u8; 8];
    match rt.arg(at, &mut buffer) {
        Ok(length) => &buffer[..length] == word.as_bytes(),
        Err(_) => false,
    }
}

/// Whether the command line has that word. It takes no memory.
fn is_there(rt: &impl Env, at: usize) -> bool {
    !matches!(rt.arg(at, &mut [0u8; 8]), Err(FillError::NotPresent))
}

/// Whether a word is that flag, and is neither the value of `--data` nor behind `--`. It takes no memory.
fn has_flag(rt: &impl Env, flag: &str) -> bool {
    let mut is_value = false;
    for at in 2..usize::MAX {
        if !is_there(rt, at) || (!is_value && is_word(rt, at, "--")) {
            return false;
        }
        if !is_value && is_word(rt, at, flag) {
            return true;
        }
        is_value = !is_value && is_word(rt, at, "--data");
    }
    false
}

// rule save-unbegun
/// Ends a command that has no memory for its own command line.
fn end_unread(rt: &(impl Env + Print + Eprint)) -> u8
    ensures { (result ≡ 27) ⊎ (result ≡ 121) }
{
    if is_word(rt, 1, "save") {
        return refuse_save(rt, has_flag(rt, "--json"));
    }
    // What it writes is the body alone.
    if is_word(rt, 1, "get") && has_flag(rt, "--body") {
        let _ = eprintln!(rt; "mxfetch: {OUT_OF_MEMORY} (27)");
        return Code::OutOfMemory.number() as u8;
    }
    out_of_memory(rt)
}

/// Prints clap's text: help and the version on standard output, a refusal on standard error. The exit status says which it was.
fn explain(rt: &(impl Env + Print + Eprint), error: &Error) -> u8
    ensures any { (result ≡ 0) ⊎ ((result ≡ 120) ⊎ ((result ≡ 27) ⊎ (result ≡ 121))) }
    ensures memory { kind_of error.now ≡ kinds.OutOfMemory → (result ≡ 27) ⊎ (result ≡ 121) }
    ensures shown { (kind_of error.now ≡ kinds.DisplayHelp) ⊎ (kind_of error.now ≡ kinds.DisplayVersion) → (result ≡ 0) ⊎ (result ≡ 121) }
    ensures refused { kind_of error.now ≢ kinds.OutOfMemory → kind_of error.now ≢ kinds.DisplayHelp
        → kind_of error.now ≢ kinds.DisplayVersion → result ≡ REFUSED }
{
    if error.kind() == ErrorKind::OutOfMemory {
        return end_unread(rt);
    }
    let printed = error.print(rt).is_ok();
    if error.use_stderr() {
        REFUSED
    } else if printed {
        0
    } else {
        UNWRITTEN
    }
}

/// Adds to clap's words what was meant, or what is needed, where that is known.
fn hint(rt: &(impl Eprint + AllocGlobal), words: &[String], error: &Error) {
    if let Ok(Some(hint)) = hint_of(rt.alloc(), words, error.kind()) {
        let _ = eprintln!(rt; "  hint: {hint}");
    }
}

/// Runs a task from standard input to standard output.
fn run<R: io::Input + Print + AllocGlobal>(rt: &R, task: Task) -> u8
    requires { IsTask task }
{
    let mut input = Input::new(rt.reader(), most_reads(task));
    // Parts smaller than the buffer are gathered; larger ones are written directly.
    match BufWriter::with_capacity(rt.alloc(), 65_536, io::writer(rt)) {
        Ok(writer) => run_task(rt.alloc(), task, &mut input, &mut Output::new(writer)),
        Err(_) => out_of_memory(rt),
    }
}

/// Decodes a response from standard input to standard output, and reports on standard error why it isn't whole.
fn run_explained<R: io::Input + Print + AllocGlobal, E: Write + Drop>(
    rt: &R,
    method: Method,
    stderr: E,
) -> u8 {
    let mut input = Input::new(rt.reader(), MOST_BODY_READS);
    match BufWriter::with_capacity(rt.alloc(), 65_536, io::writer(rt)) {
        Ok(writer) => run_body_explained(
            rt.alloc(),
            method,
            &mut input,
            &mut Output::new(writer),
            &mut Output::new(stderr),
        ),
        Err(_) => out_of_memory(rt),
    }
}

/// Fetches what `get` is asked for. More URLs than it takes are refused.
fn fetch<
    R: Runtime + Net<Listener = TcpListener, Stream = TcpStream> + Print + Eprint,
    E: Write + Drop,
>(rt: &R, get: Get<'_>, stderr: E) -> u8
    requires { are_within get.options ≡ true }
    ensures many { MOST_URLS < length get.entry.urls.items → result ≡ REFUSED }
{
    if get.urls.len() > MOST_URLS {
        let _ = eprintln!(rt; "too many URLs");
        return REFUSED;
    }
    match BufWriter::with_capacity(rt.alloc(), 65_536, io::writer(rt)) {
        Ok(writer) if get.explain => {
            run_get_explained(
                rt,
                get.urls.as_slice(),
                get.options,
                Output::new(writer),
                &mut Output::new(stderr),
            )
            .status
        }
        Ok(writer) => { run_get(rt, get.urls.as_slice(), get.options, Output::new(writer)).status }
        Err(_) => out_of_memory(rt),
    }
}

/// Fetches the one URL that `get --body` is asked for, and writes its body. More URLs are refused.
fn fetch_body<
    R: Runtime + Net<Listener = TcpListener, Stream = TcpStream> + Eprint,
    W: Write + Send + Drop,
    E: Write + Drop,
>(rt: &R, get: Get<'_>, stdout: W, stderr: E) -> u8
    requires { are_within get.options ≡ true }
    ensures many { 1 < length get.entry.urls.items → result ≡ REFUSED }
{
    let [url] = get.urls.as_slice() else {
        let _ = eprintln!(rt; "--body takes one URL");
        return REFUSED;
    };
    run_get_body(rt, url, get.options, stdout, &mut Output::new(stderr))
}

/// The words of the command line, or the exit status where there are none: memory was refused, or a word isn't UTF-8.
fn words(rt: &HostRuntime) -> Result<Vec<String>, u8>
    ensures { IfErr result (λ status. (status ≡ 120) ⊎ ((status ≡ 27) ⊎ (status ≡ 121))) }
{
    match env::args(rt).and_then(|words| Ok(words.collect(rt.alloc())?)) {
        Ok(words) => Ok(words),
        Err(error) if error.kind() == io::ErrorKind::OutOfMemory => Err(end_unread(rt)),
        Err(_) => {
            let _ = eprintln!(rt; "error: a word of the command line is not UTF-8");
            Err(REFUSED)
        }
    }
}

/// How many columns a line of the terminal has, as far as the environment says so.
fn columns(rt: &(impl Env + AllocGlobal)) -> usize {
    let columns = match env::var(rt, "COLUMNS") {
        Ok(text) => text.parse::<u16>().unwrap_or(COLUMNS),
        Err(_) => COLUMNS,
    };
    usize::from(columns)
}

/// Where it is shown how a run of `save` stands.
fn screen(rt: &HostRuntime) -> Screen {
    Screen {
        columns: columns(rt),
        is_shared: rt.stdout().is_terminal() || !rt.stderr().is_terminal(),
    }
}

fn main(rt: HostRuntime) -> ExitCode {
    let words = match words(&rt) {
        Ok(words) => words,
        Err(status) => return ExitCode::from(status),
    };
    ExitCode::from(match read_command(rt.alloc(), words.as_slice()) {
        Ok(Asked::Task(task)) => run(&rt, task),
        Ok(Asked::Explain(method)) => run_explained(&rt, method, rt.stderr()),
        Ok(Asked::Get(get)) if get.body => fetch_body(&rt, get, rt.stdout(), rt.stderr()),
        Ok(Asked::Get(get)) => fetch(&rt, get, rt.stderr()),
        Ok(Asked::Save(save)) => {
            let process = process::id(rt.process());
            run_save(&rt, &save, process, rt.stderr(), screen(&rt))
        }
        Err(error) => {
            let status = explain(&rt, &error);
            hint(&rt, words.as_slice(), &error);
            status
        }
    })
}

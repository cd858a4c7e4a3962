//! Command lines that are run on an input.
ghost use Rattle.mx_types.specs.Limits.{IsHistory};
ghost use Rattle.mx_command.specs.Asked.{IsTask};

use crate::escapes::SeenText;
use crate::words::words_of;
use mx_command::{Asked, Task, read_command};
use mx_run_io::{Input, Output};
use mx_run_local::{MOST_BODY_READS, run_body, run_body_explained, run_play};
use mx_types::Method;
use std::alloc::{AllocError, Global};

/// What was written, and the exit status.
#[derive(Drop)]
struct RunOutput {
    written: Vec<u8>,
    told: Vec<u8>,
    status: u8,
}

fn decode(alloc: Global, method: Method, input: &[u8]) -> RunOutput {
    let mut written = Vec::new(alloc);
    let status = run_body(
        alloc,
        method,
        &mut Input::new(input, MOST_BODY_READS),
        &mut Output::new(&mut written),
    );
    RunOutput {
        written,
        told: Vec::new(alloc),
        status,
    }
}

fn play(alloc: Global, history: u32, first: u32, input: &[u8]) -> RunOutput
    requires { IsHistory history }
{
    let mut written = Vec::new(alloc);
    let status = run_play(
        alloc,
        history,
        first,
        &mut Input::new(input, mx_run_local::MOST_SCRIPT_READS),
        &mut Output::new(&mut written),
    );
    RunOutput {
        written,
        told: Vec::new(alloc),
        status,
    }
}

fn explain(alloc: Global, method: Method, input: &[u8]) -> RunOutput {
    let mut written = Vec::new(alloc);
    let mut told = Vec::new(alloc);
    let status = run_body_explained(
        alloc,
        method,
        &mut Input::new(input, MOST_BODY_READS),
        &mut Output::new(&mut written),
        &mut Output::new(&mut told),
    );
    RunOutput {
        written,
        told,
        status,
    }
}

fn add_run(seen: &mut SeenText, run: &RunOutput) -> Result<(), AllocError> {
    seen.see('>', run.written.as_slice())?;
    seen.see('!', run.told.as_slice())?;
    seen.end(run.status)
}

fn tell_run(alloc: Global, run: &RunOutput) -> Result<String, AllocError> {
    let mut seen = SeenText::new(alloc);
    add_run(&mut seen, run)?;
    Ok(seen.text)
}

/// Whether `body` prints and ends with this.
fn is_plain(alloc: Global, method: Method, input: &[u8], run: &RunOutput) -> bool {
    let plain = decode(alloc, method, input);
    let is_so = run.status == plain.status && run.written.as_slice() == plain.written.as_slice();
    drop(plain);
    is_so
}

/// What is seen of `body --explain`, which has to print and to end with what `body` does.
fn see_explained(alloc: Global, method: Method, input: &[u8]) -> Result<String, AllocError> {
    let explained = explain(alloc, method, input);
    let seen = if is_plain(alloc, method, input, &explained) {
        tell_run(alloc, &explained)
    } else {
        String::from_str(alloc, "> other than without --explain\n")
    };
    drop(explained);
    seen
}

/// What is seen of a task.
fn see_task(alloc: Global, task: Task, input: &[u8]) -> Result<String, AllocError>
    requires { IsTask task }
{
    let run = match task {
        Task::Body(method) => decode(alloc, method, input),
        Task::Play { history, first } => play(alloc, history, first, input),
    };
    let seen = tell_run(alloc, &run);
    drop(run);
    seen
}

/// What is seen of a command line that is run on an input.
fn see_words(alloc: Global, words: &[String], input: &[u8]) -> Result<String, AllocError> {
    match read_command(alloc, words) {
        Ok(Asked::Task(task)) => see_task(alloc, task, input),
        Ok(Asked::Explain(method)) => see_explained(alloc, method, input),
        _ => String::from_str(alloc, "> no run\n"),
    }
}

/// What is seen of a command line, after the name and a colon, that is run on an input.
pub(crate) fn see_run(alloc: Global, name: &str, input: &[u8]) -> Result<String, AllocError> {
    let line = match name.split_once(": ") {
        Some((_, line)) => line,
        None => name,
    };
    let words = words_of(alloc, line)?;
    let seen = see_words(alloc, words.as_slice(), input);
    drop(words);
    seen
}

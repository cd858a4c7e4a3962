//! Command lines, the answers to them, and the hints for those that are refused.
use crate::escapes::add_unescaped;
use crate::saves::tell_save;
use crate::tally::add_all;
use clap::Error;
use clap::error::ErrorKind;
use mx_command::{Asked, Get, Task, UsageHint, hint_of, read_command};
use std::alloc::{AllocError, Global};

/// The text of these bytes, or none where they aren't UTF-8.
fn text_or_empty(alloc: Global, bytes: Vec<u8>) -> String {
    match String::from_utf8(bytes) {
        Ok(text) => text,
        Err(error) => {
            drop(error);
            String::new(alloc)
        }
    }
}

/// A word without its escapes. One that isn't UTF-8 is empty.
fn word_of(alloc: Global, text: &str) -> Result<String, AllocError> {
    let mut bytes = Vec::new(alloc);
    add_unescaped(&mut bytes, text)?;
    Ok(text_or_empty(alloc, bytes))
}

fn add_word(alloc: Global, words: &mut Vec<String>, text: &str) -> Result<(), AllocError> {
    let word = word_of(alloc, text)?;
    words.push(word)?;
    Ok(())
}

/// Adds the words of a command line, with the program's name before them.
fn add_words(alloc: Global, words: &mut Vec<String>, line: &str) -> Result<(), AllocError> {
    add_word(alloc, words, "mxfetch")?;
    for word in line.split_whitespace() {
        add_word(alloc, words, word)?;
    }
    Ok(())
}

/// The words of a command line, with the program's name before them.
pub(crate) fn words_of(alloc: Global, line: &str) -> Result<Vec<String>, AllocError> {
    let mut words = Vec::new(alloc);
    add_words(alloc, &mut words, line)?;
    Ok(words)
}

/// The length in bytes of the longest line of a text.
fn longest_line(text: &str) -> usize {
    let mut longest = 0usize;
    let mut length = 0usize;
    for byte in text.as_bytes() {
        length = if *byte == b'\n' {
            0
        } else {
            length.saturating_add(1)
        };
        longest = longest.max(length);
    }
    longest
}

/// A refusal, or help that was asked for: short with a longest line of at most 40 bytes, and wide with one of more than 80.
pub(crate) fn tell_error(alloc: Global, error: &Error) -> Result<String, AllocError> {
    if error.use_stderr() {
        return String::from_str(alloc, "> refused\n");
    }
    let text = format!(in alloc; "{error}")?;
    let width = longest_line(text.as_str());
    drop(text);
    let told = if width <= 40 {
        "> short help\n"
    } else if width <= 80 {
        "> help\n"
    } else {
        "> wide help\n"
    };
    String::from_str(alloc, told)
}

fn tell_task(alloc: Global, task: Task) -> Result<String, AllocError> {
    match task {
        Task::Body(method) => format!(in alloc; "> body {}\n", method.as_str()),
        Task::Play { history, first } => {
            format!(in alloc; "> play history={history} first-ticket={first}\n")
        }
    }
}

fn add_urls(text: &mut String, get: &Get<'_>) -> Result<(), AllocError> {
    if get.explain {
        text.push_str(" explain")?;
    }
    for url in &get.urls {
        add_all(text, &[" [", *url, "]"])?;
    }
    text.push('\n')
}

fn tell_get(alloc: Global, get: &Get<'_>) -> Result<String, AllocError> {
    let options = get.options;
    let mut text = format!(in alloc;
        "> get workers={} at-once={} timeout-ms={} max-connects={} max-redirects={}",
        options.workers,
        options.at_once,
        options.timeout_ms,
        options.max_connects,
        options.max_redirects
    )?;
    add_urls(&mut text, get)?;
    Ok(text)
}

fn tell_asked(alloc: Global, asked: &Asked<'_>) -> Result<String, AllocError> {
    match asked {
        Asked::Task(task) => tell_task(alloc, *task),
        Asked::Explain(method) => format!(in alloc; "> body {} explain\n", method.as_str()),
        Asked::Get(get) => tell_get(alloc, get),
        Asked::Save(save) => tell_save(alloc, save),
    }
}

/// Tells the answer to the words of a command line, and drops it.
fn tell_answer(alloc: Global, words: &[String]) -> Result<String, AllocError> {
    match read_command(alloc, words) {
        Ok(asked) => {
            let told = tell_asked(alloc, &asked);
            drop(asked);
            told
        }
        Err(error) => {
            let told = tell_error(alloc, &error);
            drop(error);
            told
        }
    }
}

/// The answer to a command line.
pub(crate) fn see_command(alloc: Global, line: &str) -> Result<String, AllocError> {
    let words = words_of(alloc, line)?;
    let told = tell_answer(alloc, words.as_slice());
    drop(words);
    told
}

/// The kind of the refusal of a command line; none where it isn't refused.
fn kind_of(alloc: Global, words: &[String]) -> Option<ErrorKind> {
    match read_command(alloc, words) {
        Ok(asked) => {
            drop(asked);
            None
        }
        Err(error) => {
            let kind = error.kind();
            drop(error);
            Some(kind)
        }
    }
}

/// The hint after clap's words for a refusal of this kind, if it is one.
fn hint_for(
    alloc: Global,
    words: &[String],
    kind: Option<ErrorKind>,
) -> Result<Option<UsageHint>, AllocError> {
    match kind {
        Some(kind) => hint_of(alloc, words, kind),
        None => Ok(None),
    }
}

fn tell_hint(alloc: Global, words: &[String]) -> Result<String, AllocError> {
    match hint_for(alloc, words, kind_of(alloc, words))? {
        Some(hint) => format!(in alloc; "> {hint}\n"),
        None => String::from_str(alloc, "> nothing\n"),
    }
}

/// The hint after clap's words for a command line.
pub(crate) fn see_hint(alloc: Global, line: &str) -> Result<String, AllocError> {
    let words = words_of(alloc, line)?;
    let told = tell_hint(alloc, words.as_slice());
    drop(words);
    told
}

//! Command lines of `save`.
use crate::tally::add_all;
use crate::words::{tell_error, words_of};
use mx_command::{BodySource, ListSource, Save, read_save};
use std::alloc::{AllocError, Global};

fn tell_numbers(alloc: Global, save: &Save<'_>) -> Result<String, AllocError> {
    let numbers = save.numbers;
    let options = numbers.options;
    format!(in alloc;
        "> save at-once={} workers={} timeout-ms={} max-connects={} max-redirects={} retry={} history={}",
        options.at_once,
        options.workers,
        options.timeout_ms,
        options.max_connects,
        options.max_redirects,
        numbers.retries,
        numbers.history
    )
}

/// The text, or none of it.
fn if_so(is_so: bool, text: &'static str) -> &'static str {
    if is_so { text } else { "" }
}

fn tell_limit(alloc: Global, save: &Save<'_>) -> Result<String, AllocError> {
    match save.numbers.most_bytes {
        Some(limit) => format!(in alloc; " max-filesize={limit}"),
        None => Ok(String::new(alloc)),
    }
}

fn tell_flags(text: &mut String, save: &Save<'_>) -> Result<(), AllocError> {
    let flags = save.flags;
    let progress = match flags.progress {
        Some(true) => " progress",
        Some(false) => " quiet",
        None => "",
    };
    add_all(
        text,
        &[
            if_so(flags.skip_existing, " skip"),
            if_so(flags.content_on_error, " content"),
            if_so(flags.fsync, " fsync"),
            if_so(flags.json, " json"),
            progress,
        ],
    )
}

fn tell_places(text: &mut String, save: &Save<'_>) -> Result<(), AllocError> {
    let (mark, list) = match save.input {
        Some(ListSource::File(file)) => (" list=", file),
        Some(ListSource::Standard) => (" stdin", ""),
        None => ("", ""),
    };
    add_all(text, &[" into=", save.into, mark, list])?;
    for url in &save.urls {
        add_all(text, &[" ", *url])?;
    }
    Ok(())
}

fn tell_headers(text: &mut String, save: &Save<'_>) -> Result<(), AllocError> {
    add_all(text, &[" ", save.method.as_str()])?;
    for header in &save.headers {
        add_all(text, &[" [", header.name, "|", header.value, "]"])?;
    }
    Ok(())
}

fn tell_body(text: &mut String, save: &Save<'_>) -> Result<(), AllocError> {
    let (mark, body) = match save.body {
        Some(BodySource::Text(body)) => (" body=", body),
        Some(BodySource::File(file)) => (" file=", file),
        None => ("", ""),
    };
    let (agent_mark, agent) = match save.user_agent {
        Some(agent) => (" agent=", agent),
        None => ("", ""),
    };
    add_all(text, &[mark, body, agent_mark, agent, "\n"])
}

fn tell_rest(text: &mut String, save: &Save<'_>) -> Result<(), AllocError> {
    tell_flags(text, save)?;
    tell_places(text, save)?;
    tell_headers(text, save)?;
    tell_body(text, save)
}

pub(crate) fn tell_save(alloc: Global, save: &Save<'_>) -> Result<String, AllocError> {
    let mut text = tell_numbers(alloc, save)?;
    let limit = tell_limit(alloc, save)?;
    text.push_str(limit.as_str())?;
    tell_rest(&mut text, save)?;
    Ok(text)
}

/// Tells the answer to the words of a command line, and drops it.
fn tell_answer(alloc: Global, words: &[String]) -> Result<String, AllocError> {
    match read_save(alloc, words) {
        Ok(save) => {
            let told = tell_save(alloc, &save);
            drop(save);
            told
        }
        Err(error) => {
            let told = tell_error(alloc, &error);
            drop(error);
            told
        }
    }
}

/// The answer to a command line of the parser of `save` alone.
pub(crate) fn see_save(alloc: Global, line: &str) -> Result<String, AllocError> {
    let words = words_of(alloc, line)?;
    let told = tell_answer(alloc, words.as_slice());
    drop(words);
    told
}

//! What a command line of `save` asks for.
ghost use Rattle.std.specs.Prelude.{◌≡◌, IfOk, IfSome, codes, is_some, map};
ghost use Rattle.clap.specs.Words.{found_of, matched_of, one_text};
ghost use Rattle.mx_command.specs.Given.{AreFlagsOf, AreNumbersOf, IsProgressOf, default_method, progress_by};
ghost use Rattle.mx_command.specs.Given.{AreHeadersBy, IsBodyBy, IsBodyOf, IsHeaderBy, IsInputOf, IsMethodBy, IsSaveGiven, IsSaveOf, IsSourceOf};
ghost use Rattle.mx_command.specs.Given.{number_of, texts_of as given_texts};
ghost use Rattle.mx_command.specs.Saving.{AreSaveNumbers, IsSaveAsked};

use crate::given::{byte_of, flag_of, long_of, options_of, texts_of, word_of};
use crate::save::options::save_command;
use crate::save::{BodySource, Header, ListSource, Save, SaveFlags, SaveNumbers, help};
use clap::error::ErrorKind;
use clap::{ArgMatches, Command, Error};
use mx_types::Method;
use std::alloc::{AllocError, Global};

// The limit of the bytes of a body, if one was given. `None` where its value is no number of 64 bits.
fn limit_of(save: &ArgMatches<'_>) -> Option<Option<u64>>
    ensures { IfSome result (λ limit. number_of (found_of save.now) (codes "max-filesize") ≡ limit) }
{
    if !save.contains_id("max-filesize") {
        return Some(None);
    }
    let limit = long_of(save, "max-filesize")?;
    Some(Some(limit))
}

/// The numbers of `save`, if its values are there. Their ranges are tested here too, since clap's contract doesn't say that they were.
fn numbers_of(save: &ArgMatches<'_>) -> Option<SaveNumbers>
    ensures within { IfSome result AreSaveNumbers }
    ensures given { IfSome result (AreNumbersOf (found_of save.now)) }
{
    let options = options_of(save)?;
    let retries = byte_of(save, "retry")?;
    let history = word_of(save, "history")?;
    let most_bytes = limit_of(save)?;
    let numbers = SaveNumbers {
        options,
        retries,
        history,
        most_bytes,
    };
    if !numbers.are_within() {
        return None;
    }
    Some(numbers)
}

// Whether progress is shown, where that is asked for, and where it is forbidden.
fn progress_by(shown: bool, hidden: bool) -> Option<bool>
    ensures { result ≡ progress_by shown hidden }
{
    if shown {
        Some(true)
    } else if hidden {
        Some(false)
    } else {
        None
    }
}

fn progress_of(save: &ArgMatches<'_>) -> Option<bool>
    ensures { IsProgressOf (found_of save.now) result }
{
    progress_by(flag_of(save, "progress"), flag_of(save, "no-progress"))
}

fn flags_of(save: &ArgMatches<'_>) -> SaveFlags
    ensures { AreFlagsOf (found_of save.now) result }
{
    SaveFlags {
        skip_existing: flag_of(save, "skip-existing"),
        content_on_error: flag_of(save, "content-on-error"),
        fsync: flag_of(save, "fsync"),
        json: flag_of(save, "json"),
        progress: progress_of(save),
    }
}

fn source_of(text: &str) -> ListSource<'_>
    ensures { IsSourceOf text.now result }
{
    if text == "-" {
        ListSource::Standard
    } else {
        ListSource::File(text)
    }
}

fn input_of<'a>(save: &ArgMatches<'a>) -> Option<ListSource<'a>>
    ensures { IsInputOf (found_of save.now) result }
{
    match save.get_str("input") {
        Some(text) => Some(source_of(text)),
        None => None,
    }
}

fn body_by(text: &str) -> BodySource<'_>
    ensures { IsBodyBy text.now result }
{
    match text.strip_prefix('@') {
        Some(file) => BodySource::File(file),
        None => BodySource::Text(text),
    }
}

fn body_of<'a>(save: &ArgMatches<'a>) -> Option<BodySource<'a>>
    ensures { IsBodyOf (found_of save.now) result }
{
    match save.get_str("data") {
        Some(text) => Some(body_by(text)),
        None => None,
    }
}

fn default_method(has_body: bool) -> Method
    ensures { result ≡ default_method has_body }
{
    if has_body { Method::Post } else { Method::Get }
}

// The method that was given, else POST with a body, and GET without one.
fn method_of(save: &ArgMatches<'_>) -> Method
    ensures { IsMethodBy (one_text (found_of save.now) (codes "method"))
        (default_method (is_some (matched_of (found_of save.now) (codes "data")))) result }
{
    save.get_one::<Method>("method")
        .unwrap_or(default_method(save.contains_id("data")))
}

// The header field of a text, if it has a colon.
fn header_of(text: &str) -> Option<Header<'_>>
    ensures { IfSome result (IsHeaderBy text.now) }
{
    let (name, value) = text.split_once(':')?;
    Some(Header {
        name,
        value: value.trim_ascii(),
    })
}

/// The header fields, if each has a colon.
fn headers_of<'a>(
    alloc: Global,
    save: &ArgMatches<'a>,
) -> Result<Option<Vec<Header<'a>>>, AllocError>
    ensures { IfOk result (λ o. IfSome o (λ headers. AreHeadersBy (given_texts (found_of save.now) (codes "header")) headers.items)) }
{
    let texts = texts_of(alloc, save, "header")?;
    headers_by(alloc, texts.as_slice())
}

// The header fields of these texts, in their order, if each has a colon.
fn headers_by<'a>(alloc: Global, texts: &[&'a str]) -> Result<Option<Vec<Header<'a>>>, AllocError>
    ensures { IfOk result (λ o. IfSome o (λ headers. AreHeadersBy (map (λ t. t.now) texts.now) headers.items)) }
{
    let mut headers = Vec::new(alloc);
    for text in texts {
        let Some(header) = header_of(*text) else {
            return Ok(None);
        };
        headers.push(header)?;
    }
    Ok(Some(headers))
}

// rule save-folder-name
/// What `save` is asked for, or what is said where a value is missing, the folder has no name, or a header field has no colon.
fn save_of<'a>(
    alloc: Global,
    save: &ArgMatches<'a>,
) -> Result<Result<Save<'a>, &'static str>, AllocError>
    ensures asked { IfOk result (λ asked. IfOk asked IsSaveAsked) }
    ensures given { IfOk result (λ asked. IfOk asked (IsSaveOf (found_of save.now))) }
{
    let (Some(numbers), Some(into)) = (numbers_of(save), save.get_str("into")) else {
        return Ok(Err(help::NO_VALUE));
    };
    if into.is_empty() {
        return Ok(Err(help::NO_FOLDER));
    }
    let Some(headers) = headers_of(alloc, save)? else {
        return Ok(Err(help::NO_HEADER));
    };
    Ok(Ok(Save {
        numbers,
        flags: flags_of(save),
        into,
        input: input_of(save),
        urls: texts_of(alloc, save, "URL")?,
        method: method_of(save),
        headers,
        body: body_of(save),
        user_agent: save.get_str("user-agent"),
    }))
}

fn asked_of<'a>(
    alloc: Global,
    matches: &ArgMatches<'a>,
) -> Result<Result<Save<'a>, &'static str>, AllocError>
    ensures asked { IfOk result (λ asked. IfOk asked IsSaveAsked) }
    ensures given { IfOk result (λ asked. IfOk asked IsSaveGiven) }
{
    match matches.subcommand_matches("save") {
        Some(save) => save_of(alloc, save),
        None => Ok(Err(help::NO_VALUE)),
    }
}

fn mxfetch_command<'a>(alloc: Global) -> Result<Command<'a>, AllocError> {
    let save = save_command(alloc)?;
    Command::new(alloc, "mxfetch")
        .subcommand_required(true)
        .disable_help_subcommand(true)
        .subcommand(save)
}

// Reads the words at a command, which stays.
fn read_at<'a>(
    alloc: Global,
    command: &mut Command<'a>,
    words: &'a [String],
) -> Result<Save<'a>, Error>
    ensures asked { IfOk result IsSaveAsked }
    ensures given { IfOk result IsSaveGiven }
{
    let matches = command.try_get_matches_from_mut(words)?;
    let asked = asked_of(alloc, &matches);
    drop(matches);
    match asked? {
        Ok(save) => Ok(save),
        Err(words) => Err(command.error(ErrorKind::ValueValidation, words)?),
    }
}

/// Reads a command line of `save`, of which the first word is the program's name and the second `save`. An error is help that was asked
/// for, a refusal in clap's words, or `OutOfMemory`.
///
/// Its clause says that there are values under the names of the options by which each part of it is; no clause says that these are those of the
/// words: clap's says so of a command none of whose arguments takes a value that begins with a hyphen, as `--data` does.
pub fn read_save<'a>(alloc: Global, words: &'a [String]) -> Result<Save<'a>, Error>
    ensures asked { IfOk result IsSaveAsked }
    ensures given { IfOk result IsSaveGiven }
{
    let mut command = mxfetch_command(alloc)?;
    let read = read_at(alloc, &mut command, words);
    drop(command);
    read
}

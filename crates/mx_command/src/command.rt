//! The command line.
ghost use Rattle.std.specs.Prelude.{◌≡◌, true, IfOk, IfSome};
ghost use Rattle.mx_run_io.specs.Options.{are_within};
ghost use Rattle.clap.specs.Words.{found_of};
ghost use Rattle.mx_command.specs.Asked.{IsTask, IsAsked};
ghost use Rattle.mx_command.specs.Given.{AreOptionsOf, IsGetOf, IsGiven};

use crate::asked::{Asked, Get};
use crate::options::{OptionRow, Takes, method_arg, url_arg, with_options};
use crate::save::options::save_command;
use crate::save::read::read_save;
use crate::task::Task;
use crate::{given, help};
use clap::error::ErrorKind;
use clap::{Arg, ArgMatches, Command, Error};
use mx_run_io::Options;
use mx_types::{LEAST_HISTORY, MOST_HISTORY, Method};
use std::alloc::{AllocError, Global};

static GET: [OptionRow; 7] = [
    OptionRow {
        name: "workers",
        takes: Takes::Number(1, 16),
        default: Some("2"),
        help: "Threads that fetch: 1 to 16",
    },
    OptionRow {
        name: "at-once",
        takes: Takes::Number(1, 256),
        default: Some("256"),
        help: "Transfers at a time: 1 to 256",
    },
    OptionRow {
        name: "timeout-ms",
        takes: Takes::Number(0, u32::MAX),
        default: Some("0"),
        help: "Milliseconds a transfer may take; 0: any",
    },
    OptionRow {
        name: "max-connects",
        takes: Takes::Number(0, 64),
        default: Some("4"),
        help: "Idle connections of a worker: 0 to 64",
    },
    OptionRow {
        name: "max-redirects",
        takes: Takes::Number(0, 255),
        default: Some("0"),
        help: "Redirects that are followed: 0 to 255",
    },
    OptionRow {
        name: "explain",
        takes: Takes::Nothing,
        default: None,
        help: "Say on standard error what failed, and why",
    },
    OptionRow {
        name: "body",
        takes: Takes::NothingBeside("explain"),
        default: None,
        help: "Write one URL's body as it comes, and nothing else",
    },
];

static BODY: [OptionRow; 1] = [OptionRow {
    name: "explain",
    takes: Takes::Nothing,
    default: None,
    help: "Say on standard error what is wrong, and where",
}];

static PLAY: [OptionRow; 2] = [
    OptionRow {
        name: "history",
        takes: Takes::Number(LEAST_HISTORY, MOST_HISTORY),
        default: Some("1024"),
        help: "Events there is room for: 4 to 1048576",
    },
    OptionRow {
        name: "first-ticket",
        takes: Takes::Number(0, u32::MAX),
        default: Some("0"),
        help: "The ticket of the first addition",
    },
];

fn body_command<'a>(alloc: Global) -> Result<Command<'a>, AllocError> {
    let command = Command::new(alloc, "body")
        .about(help::BODY)
        .long_about(help::LONG_BODY)
        .after_help(help::MORE_BODY);
    with_options(alloc, command, &BODY)?.arg(method_arg(Arg::new(alloc, "METHOD").required(
        true,
    )).help("The request's method: GET, HEAD, POST, PUT, DELETE or OPTIONS"))
}

fn play_command<'a>(alloc: Global) -> Result<Command<'a>, AllocError> {
    let command = Command::new(alloc, "play")
        .about(help::PLAY)
        .long_about(help::LONG_PLAY)
        .after_help(help::MORE_PLAY);
    with_options(alloc, command, &PLAY)
}

fn get_command<'a>(alloc: Global) -> Result<Command<'a>, AllocError> {
    let command = Command::new(alloc, "get")
        .about(help::GET)
        .long_about(help::LONG_GET)
        .after_help(help::MORE_GET);
    with_options(alloc, command, &GET)?.arg(
        url_arg(alloc)
            .required(true)
            .help("What is fetched, by GET: 1 to 256 URLs of scheme http"),
    )
}

// The command with one below it, where that could be made.
fn with_command<'a>(
    command: Command<'a>,
    below: Result<Command<'a>, AllocError>,
) -> Result<Command<'a>, AllocError> {
    match below {
        Ok(below) => command.subcommand(below),
        Err(error) => {
            drop(command);
            Err(error)
        }
    }
}

fn mxfetch_command<'a>(alloc: Global) -> Result<Command<'a>, AllocError> {
    let command = Command::new(alloc, "mxfetch")
        .version("0.1.0")
        .about(help::MXFETCH)
        .after_help(help::MORE)
        .subcommand_required(true);
    let command = with_command(command, get_command(alloc))?;
    let command = with_command(command, save_command(alloc))?;
    let command = with_command(command, body_command(alloc))?;
    with_command(command, play_command(alloc))
}

// rule play-history
/// The task that the matches name, if they name one. The history's range is tested here too, since clap's contract doesn't say that it was.
fn task_of(matches: &ArgMatches<'_>) -> Option<Task>
    ensures { IfSome result IsTask }
{
    if let Some(body) = matches.subcommand_matches("body") {
        return Some(Task::Body(body.get_one::<Method>("METHOD")?));
    }
    let play = matches.subcommand_matches("play")?;
    let history = play.get_one::<u32>("history")?;
    if !(LEAST_HISTORY..=MOST_HISTORY).contains(&history) {
        return None;
    }
    let first = play.get_one::<u32>("first-ticket")?;
    Some(Task::Play { history, first })
}

// rule get-options
/// How the URLs of `get` are fetched, if its values are there. Their ranges are tested here too.
fn options_of(get: &ArgMatches<'_>) -> Option<Options>
    ensures within { IfSome result (λ options. are_within options ≡ true) }
    ensures given { IfSome result (AreOptionsOf (found_of get.now)) }
{
    let options = given::options_of(get)?;
    if !options.are_within() {
        return None;
    }
    Some(options)
}

/// What `get` is asked for, if its values are there.
fn get_of<'a>(alloc: Global, get: &ArgMatches<'a>) -> Result<Option<Get<'a>>, AllocError>
    ensures within { IfOk result (λ o. IfSome o (λ g. are_within g.options ≡ true)) }
    ensures given { IfOk result (λ o. IfSome o (IsGetOf (found_of get.now))) }
{
    let (Some(options), true) = (options_of(get), get.contains_id("URL")) else {
        return Ok(None);
    };
    let urls = given::texts_of(alloc, get, "URL")?;
    Ok(Some(Get {
        options,
        urls,
        explain: given::flag_of(get, "explain"),
        body: given::flag_of(get, "body"),
    }))
}

/// Whether `body` is to explain.
fn is_explained(matches: &ArgMatches<'_>) -> bool {
    match matches.subcommand_matches("body") {
        Some(body) => body.get_flag("explain"),
        None => false,
    }
}

/// What the matches ask for, if they name a command.
fn asked_of<'a>(alloc: Global, matches: &ArgMatches<'a>) -> Result<Option<Asked<'a>>, AllocError>
    ensures asked { IfOk result (λ o. IfSome o IsAsked) }
    ensures given { IfOk result (λ o. IfSome o IsGiven) }
{
    if let Some(get) = matches.subcommand_matches("get") {
        let Some(get) = get_of(alloc, get)? else {
            return Ok(None);
        };
        return Ok(Some(Asked::Get(get)));
    }
    Ok(match task_of(matches) {
        Some(Task::Body(method)) if is_explained(matches) => Some(Asked::Explain(method)),
        Some(task) => Some(Asked::Task(task)),
        None => None,
    })
}

// Reads the words at a command, which stays.
fn read_at<'a>(
    alloc: Global,
    command: &mut Command<'a>,
    words: &'a [String],
) -> Result<Asked<'a>, Error>
    ensures asked { IfOk result IsAsked }
    ensures given { IfOk result IsGiven }
{
    if words.len() < 2 {
        return Err(command.error(ErrorKind::MissingSubcommand, help::NO_COMMAND)?);
    }
    let matches = command.try_get_matches_from_mut(words)?;
    let asked = asked_of(alloc, &matches);
    drop(matches);
    match asked? {
        Some(asked) => Ok(asked),
        None => Err(command.error(ErrorKind::MissingSubcommand, help::NO_COMMAND)?),
    }
}

// Reads a command line at the commands of `mxfetch`.
fn read_below<'a>(alloc: Global, words: &'a [String]) -> Result<Asked<'a>, Error>
    ensures asked { IfOk result IsAsked }
    ensures given { IfOk result IsGiven }
{
    let mut command = mxfetch_command(alloc)?;
    let read = read_at(alloc, &mut command, words);
    drop(command);
    read
}

// Whether the words are those of `save`, which reads them itself.
fn is_save(words: &[String]) -> bool {
    match words.get(1) {
        Some(word) => word.as_str() == "save",
        None => false,
    }
}

/// Reads a command line, of which the first word is the program's name. An error is help that was asked for,
/// a refusal in clap's words, or `OutOfMemory`.
///
/// Its clause says that there are values under the names of the options by which it is; no clause says that these are those of the words.
pub fn read_command<'a>(alloc: Global, words: &'a [String]) -> Result<Asked<'a>, Error>
    ensures asked { IfOk result IsAsked }
    ensures given { IfOk result IsGiven }
{
    if !is_save(words) {
        return read_below(alloc, words);
    }
    match read_save(alloc, words) {
        Ok(save) => Ok(Asked::Save(save)),
        Err(error) => Err(error),
    }
}

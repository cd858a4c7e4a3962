//! The options of `save`.
use crate::options::{OptionRow, Takes, url_arg, with_arg, with_options};
use crate::save::help;
use clap::{Arg, ArgAction, Command};
use mx_types::{LEAST_HISTORY, MOST_HISTORY};
use std::alloc::{AllocError, Global};

static OPTIONS: [OptionRow; 19] = [
    OptionRow {
        name: "input",
        takes: Takes::Word("FILE"),
        default: None,
        help: "A list of URLs, one a line; - is standard input",
    },
    OptionRow {
        name: "into",
        takes: Takes::Word("DIR"),
        default: Some("."),
        help: "The folder of the files",
    },
    OptionRow {
        name: "at-once",
        takes: Takes::Number(1, 256),
        default: Some("8"),
        help: "Transfers at a time: 1 to 256",
    },
    OptionRow {
        name: "workers",
        takes: Takes::Number(1, 16),
        default: Some("2"),
        help: "Threads that fetch: 1 to 16",
    },
    OptionRow {
        name: "timeout-ms",
        takes: Takes::Number(0, u32::MAX),
        default: Some("600000"),
        help: "Milliseconds a try may take; 0: any",
    },
    OptionRow {
        name: "max-connects",
        takes: Takes::Number(0, 64),
        default: Some("4"),
        help: "Idle connections of a worker: 0 to 64",
    },
    OptionRow {
        name: "max-redirects",
        takes: Takes::Number(0, 255),
        default: Some("10"),
        help: "Redirects that are followed: 0 to 255",
    },
    OptionRow {
        name: "max-filesize",
        takes: Takes::Bytes,
        default: None,
        help: "Bytes a body may have; a longer one fails with 63",
    },
    OptionRow {
        name: "retry",
        takes: Takes::Number(0, 255),
        default: Some("0"),
        help: "Further tries of a GET or HEAD: 0 to 255",
    },
    OptionRow {
        name: "history",
        takes: Takes::Number(LEAST_HISTORY, MOST_HISTORY),
        default: Some("65536"),
        help: "Room for events: 4 to 1048576",
    },
    OptionRow {
        name: "skip-existing",
        takes: Takes::Nothing,
        default: None,
        help: "Don't ask for a URL whose file is there",
    },
    OptionRow {
        name: "content-on-error",
        takes: Takes::Nothing,
        default: None,
        help: "Save responses whose status isn't 2xx, too",
    },
    OptionRow {
        name: "fsync",
        takes: Takes::Nothing,
        default: None,
        help: "Flush each file to the disk before it is named",
    },
    OptionRow {
        name: "json",
        takes: Takes::Nothing,
        default: None,
        help: "Print a JSON object for each URL",
    },
    OptionRow {
        name: "progress",
        takes: Takes::Nothing,
        default: None,
        help: "Show progress on standard error",
    },
    OptionRow {
        name: "no-progress",
        takes: Takes::NothingBeside("progress"),
        default: None,
        help: "Show no progress",
    },
    OptionRow {
        name: "method",
        takes: Takes::Method,
        default: None,
        help: "GET, HEAD, POST, PUT, DELETE or OPTIONS",
    },
    OptionRow {
        name: "data",
        takes: Takes::Text("TEXT"),
        default: None,
        help: "The body of each request; of a file with @FILE",
    },
    OptionRow {
        name: "user-agent",
        takes: Takes::Word("TEXT"),
        default: None,
        help: "The field User-Agent of each request",
    },
];

fn header<'a>(alloc: Global) -> Result<Arg<'a>, AllocError> {
    Ok(
        Arg::new(alloc, "header")
            .short('H')
            .value_name("NAME: VALUE")
            .action(ArgAction::Append)
            .help("A header field of each request"),
    )
}

fn urls<'a>(alloc: Global) -> Result<Arg<'a>, AllocError> {
    url_arg(alloc)
        .help("What is saved: URLs of scheme http")
        .required_unless_present("input")
}

/// The command `save`, with its options and its help.
pub(crate) fn save_command<'a>(alloc: Global) -> Result<Command<'a>, AllocError> {
    let command = Command::new(alloc, "save")
        .about(help::SAVE)
        .long_about(help::LONG_SAVE)
        .after_help(help::MORE_SAVE);
    let command = with_options(alloc, command, &OPTIONS)?;
    let command = with_arg(command, header(alloc))?;
    with_arg(command, urls(alloc))
}

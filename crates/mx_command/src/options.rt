//! The options of a command, as the rows of a table.
use clap::{Arg, ArgAction, Command, value_parser};
use std::alloc::{AllocError, Global};

// The names of the methods.
static METHODS: [&str; 6] = ["GET", "HEAD", "POST", "PUT", "DELETE", "OPTIONS"];

/// What an option takes, with the help's name of a text.
#[derive(Clone, Copy)]
pub(crate) enum Takes {
    /// Nothing: it is given, or it isn't.
    Nothing,
    /// Nothing, and that option may not be given with it.
    NothingBeside(&'static str),
    /// A text that begins with no hyphen, unless it is one alone.
    Word(&'static str),
    /// Any text.
    Text(&'static str),
    /// A number from the first to the second.
    Number(u32, u32),
    /// A number of bytes from 1 to 9,223,372,036,854,775,807.
    Bytes,
    /// The name of a method.
    Method,
}

/// An option.
pub(crate) struct OptionRow {
    /// Its name, after two hyphens.
    pub name: &'static str,
    pub takes: Takes,
    /// The value that is meant where it isn't given.
    pub default: Option<&'static str>,
    /// What the help says of it.
    pub help: &'static str,
}

// An argument that takes nothing.
fn flag_arg<'a>(arg: Arg<'a>) -> Arg<'a> {
    arg.action(ArgAction::SetTrue)
}

// An argument that takes a number from the first to the second.
fn number_arg<'a>(arg: Arg<'a>, least: u32, most: u32) -> Arg<'a> {
    let numbers = value_parser!(u32).range(i64::from(least)..=i64::from(most));
    arg.value_name("N").value_parser(numbers)
}

// An argument that takes a number of bytes.
fn bytes_arg<'a>(arg: Arg<'a>) -> Arg<'a> {
    let numbers = value_parser!(u64).range(1..=i64::MAX);
    arg.value_name("N").value_parser(numbers)
}

/// An argument that takes the name of a method.
pub(crate) fn method_arg<'a>(arg: Arg<'a>) -> Arg<'a> {
    arg.value_parser(METHODS.as_slice())
        .hide_possible_values(true)
}

/// An argument that takes URLs, one or more.
pub(crate) fn url_arg<'a>(alloc: Global) -> Arg<'a> {
    Arg::new(alloc, "URL")
        .num_args(1..)
        .action(ArgAction::Append)
}

// An argument that takes this.
fn taking<'a>(arg: Arg<'a>, takes: Takes) -> Result<Arg<'a>, AllocError> {
    match takes {
        Takes::Nothing => Ok(flag_arg(arg)),
        Takes::NothingBeside(other) => flag_arg(arg).conflicts_with(other),
        Takes::Word(value) => Ok(arg.value_name(value)),
        Takes::Text(value) => Ok(arg.value_name(value).allow_hyphen_values(true)),
        Takes::Number(least, most) => Ok(number_arg(arg, least, most)),
        Takes::Bytes => Ok(bytes_arg(arg)),
        Takes::Method => Ok(method_arg(arg.value_name("M"))),
    }
}

// The argument of an option.
fn arg_of<'a>(alloc: Global, row: &'static OptionRow) -> Result<Arg<'a>, AllocError> {
    let named = Arg::new(alloc, row.name).long(row.name).help(row.help);
    let defaulted = match row.default {
        Some(value) => named.default_value(value),
        None => named,
    };
    taking(defaulted, row.takes)
}

/// The command with an argument, where that could be made.
pub(crate) fn with_arg<'a>(
    command: Command<'a>,
    arg: Result<Arg<'a>, AllocError>,
) -> Result<Command<'a>, AllocError> {
    match arg {
        Ok(arg) => command.arg(arg),
        Err(error) => {
            drop(command);
            Err(error)
        }
    }
}

/// The command with the options of the table.
pub(crate) fn with_options<'a>(
    alloc: Global,
    mut command: Command<'a>,
    rows: &'static [OptionRow],
) -> Result<Command<'a>, AllocError> {
    for row in rows {
        command = with_arg(command, arg_of(alloc, row))?;
    }
    Ok(command)
}

//! Tests of the commands of `mxfetch` over readers and writers in memory: the command line, `body`, `play`, and the texts of `get` and
//! `save`. They are rows of tables, those of text in `data/` and those of values here; of each table it is printed how many rows it has and
//! how many are wrong, and then each wrong row, by its name and with what was seen.
#![tactic(auto)]

mod body;
mod ends;
mod escapes;
mod fakes;
mod gets;
mod lists;
mod long;
mod play;
mod responses;
mod retries;
mod rows;
mod runs;
mod saves;
mod tally;
mod texts;
mod transfers;
mod unwritten;
mod words;

use crate::tally::RowTally;
use std::alloc::{AllocError, Global};
use std::{fs, io};

/// Where the rows of a table are.
#[derive(Clone, Copy)]
enum Table {
    /// In the file of its name.
    File,
    /// In `mx_responses_tests_base`.
    Responses,
    Body,
    Play,
    Get,
    Ends,
    Retries,
}

/// The tables by their names, as they are printed.
static TABLES: [(&str, Table); 11] = [
    ("commands", Table::File),
    ("hints", Table::File),
    ("scripts", Table::File),
    ("responses", Table::File),
    ("lists", Table::File),
    ("mx_responses_tests_base", Table::Responses),
    ("body", Table::Body),
    ("play", Table::Play),
    ("get", Table::Get),
    ("ends of save", Table::Ends),
    ("retries of save", Table::Retries),
];

/// Goes through the rows of a file.
fn see_file(rt: &HostRuntime, name: &str, tally: &mut RowTally) -> io::Result<()> {
    let text = fs::read_to_string(rt, name)?;
    let seen = texts::see_all(rt.alloc(), text.as_str(), tally);
    drop(text);
    seen?;
    Ok(())
}

/// Goes through the rows of a table of values.
fn see_values(alloc: Global, table: Table, tally: &mut RowTally) -> Result<(), AllocError> {
    match table {
        Table::Responses => responses::see_all(alloc, tally),
        Table::Body => body::see_all(alloc, tally),
        Table::Play => play::see_all(alloc, tally),
        Table::Ends => ends::see_all(alloc, tally),
        Table::Retries => retries::see_all(alloc, tally),
        Table::File | Table::Get => Ok(()),
    }
}

/// Goes through the rows of a table.
fn see(rt: &HostRuntime, name: &str, table: Table, tally: &mut RowTally) -> io::Result<()> {
    match table {
        Table::File => see_file(rt, name, tally),
        Table::Get => gets::see_all(rt, tally),
        _ => {
            see_values(rt.alloc(), table, tally)?;
            Ok(())
        }
    }
}

/// The result of a table. Of one of another crate it isn't said how many rows it has.
fn result_of(
    alloc: Global,
    name: &str,
    table: Table,
    tally: &RowTally,
) -> Result<String, AllocError> {
    let RowTally { rows, wrong, text } = tally;
    match table {
        Table::Responses => format!(in alloc; "{name}: {wrong} wrong\n{text}"),
        _ => format!(in alloc; "{name}: {rows} rows, {wrong} wrong\n{text}"),
    }
}

/// Prints a text.
fn print(rt: &HostRuntime, text: &str) -> io::Result<()> {
    print!(rt; "{text}")
}

/// Goes through the rows of a table, and prints its result.
fn try_table(rt: &HostRuntime, name: &str, table: Table) -> io::Result<()> {
    let mut tally = RowTally::new(rt.alloc());
    let seen = see(rt, name, table, &mut tally);
    let result = result_of(rt.alloc(), name, table, &tally);
    drop(tally);
    seen?;
    let result = result?;
    let printed = print(rt, result.as_str());
    drop(result);
    printed
}

fn main(rt: HostRuntime) -> io::Result<()> {
    for row in &TABLES {
        let (name, table) = *row;
        try_table(&rt, name, table)?;
    }
    Ok(())
}

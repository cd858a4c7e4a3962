//! Rows of text. A row begins with its kind and its name. In the lines after it `<` marks its input, `>` what is printed, `!` what is
//! reported on standard error, and `=` the exit status. Blank lines, and lines that begin with `#`, are ignored. In an input, and in what
//! is seen, bytes are escaped.
use crate::escapes::add_unescaped;
use std::alloc::{AllocError, Global};

#[derive(Drop)]
pub(crate) struct Row<'a> {
    /// Its first line, which has its kind and its name.
    pub(crate) title: &'a str,
    pub(crate) kind: &'a str,
    pub(crate) name: &'a str,
    pub(crate) input: Vec<u8>,
    /// What is to be seen, as it is written there.
    pub(crate) wanted: String,
}

fn row_of<'a>(alloc: Global, title: &'a str) -> Row<'a> {
    let (kind, name) = match title.split_once(' ') {
        Some(parts) => parts,
        None => (title, ""),
    };
    Row {
        title,
        kind,
        name,
        input: Vec::new(alloc),
        wanted: String::new(alloc),
    }
}

/// Adds a line of its input, after its mark and one space.
fn add_input(row: &mut Row<'_>, text: &str) -> Result<(), AllocError> {
    let text = text.strip_prefix(' ').unwrap_or(text);
    if add_unescaped(&mut row.input, text)? {
        return Ok(());
    }
    row.input.push(b'\n')?;
    Ok(())
}

fn add_wanted(row: &mut Row<'_>, line: &str) -> Result<(), AllocError> {
    row.wanted.push_str(line)?;
    row.wanted.push('\n')
}

/// Adds a line of the last row.
fn add_line(row: &mut Row<'_>, line: &str) -> Result<(), AllocError> {
    match line.strip_prefix('<') {
        Some(text) => add_input(row, text),
        None => add_wanted(row, line),
    }
}

/// Whether the line belongs to the row before it.
fn is_of_row(line: &str) -> bool {
    match line.as_bytes().first() {
        Some(mark) => b"<>!=".contains(mark),
        None => false,
    }
}

/// Adds a line to the last row, or a row that begins with it.
fn add<'a>(alloc: Global, rows: &mut Vec<Row<'a>>, line: &'a str) -> Result<(), AllocError> {
    match rows.last_mut() {
        Some(row) if is_of_row(line) => add_line(row, line),
        _ => {
            rows.push(row_of(alloc, line))?;
            Ok(())
        }
    }
}

/// Adds all rows of a text.
fn add_all<'a>(alloc: Global, rows: &mut Vec<Row<'a>>, text: &'a str) -> Result<(), AllocError> {
    for line in text.lines() {
        if !line.is_empty() && !line.starts_with('#') {
            add(alloc, rows, line)?;
        }
    }
    Ok(())
}

/// All rows of a text.
pub(crate) fn rows_of<'a>(alloc: Global, text: &'a str) -> Result<Vec<Row<'a>>, AllocError> {
    let mut rows = Vec::new(alloc);
    add_all(alloc, &mut rows, text)?;
    Ok(rows)
}

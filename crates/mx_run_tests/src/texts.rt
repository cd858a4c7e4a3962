//! What is seen of a row of text, by its kind.
use crate::lists::{see_failing_list, see_list};
use crate::rows::{Row, rows_of};
use crate::runs::see_run;
use crate::saves::see_save;
use crate::tally::RowTally;
use crate::words::{see_command, see_hint};
use std::alloc::{AllocError, Global};

fn see(alloc: Global, row: &Row<'_>) -> Result<String, AllocError> {
    match row.kind {
        "command" => see_command(alloc, row.name),
        "save" => see_save(alloc, row.name),
        "hint" => see_hint(alloc, row.name),
        "run" => see_run(alloc, row.name, row.input.as_slice()),
        "list" => see_list(alloc, row.input.as_slice()),
        "failing-list" => see_failing_list(alloc, row.name, row.input.as_slice()),
        _ => String::from_str(alloc, "> no such kind\n"),
    }
}

fn see_row(alloc: Global, row: &Row<'_>, tally: &mut RowTally) -> Result<(), AllocError> {
    let seen = see(alloc, row)?;
    let is_right = seen.as_str() == row.wanted.as_str();
    let noted = tally.see(is_right, row.title, seen.as_str());
    drop(seen);
    noted
}

fn see_rows(alloc: Global, rows: &[Row<'_>], tally: &mut RowTally) -> Result<(), AllocError> {
    for row in rows {
        see_row(alloc, row, tally)?;
    }
    Ok(())
}

/// Goes through the rows of a text.
pub(crate) fn see_all(alloc: Global, text: &str, tally: &mut RowTally) -> Result<(), AllocError> {
    let rows = rows_of(alloc, text)?;
    let seen = see_rows(alloc, rows.as_slice(), tally);
    drop(rows);
    seen
}

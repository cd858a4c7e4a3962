//! The results of the rows of a table.
use std::alloc::{AllocError, Global};

/// Adds all of these texts.
pub(crate) fn add_all(text: &mut String, parts: &[&str]) -> Result<(), AllocError> {
    for part in parts {
        text.push_str(*part)?;
    }
    Ok(())
}

/// How many rows were tried, how many of them are wrong, and what is said of these.
#[derive(Drop)]
pub(crate) struct RowTally {
    pub(crate) rows: u64,
    pub(crate) wrong: u64,
    pub(crate) text: String,
}

impl RowTally {
    /// The tally of no rows.
    pub(crate) fn new(alloc: Global) -> RowTally {
        RowTally {
            rows: 0,
            wrong: 0,
            text: String::new(alloc),
        }
    }

    /// Counts a row. For a wrong one it notes its name and what was seen.
    pub(crate) fn see(&mut self, is_right: bool, name: &str, seen: &str) -> Result<(), AllocError> {
        self.rows = self.rows.saturating_add(1);
        if is_right {
            return Ok(());
        }
        self.wrong = self.wrong.saturating_add(1);
        add_all(&mut self.text, &["WRONG: ", name, "\n", seen])
    }

    /// Counts a row of which only its name is noted if it is wrong.
    pub(crate) fn hold(&mut self, name: &str, is_right: bool) -> Result<(), AllocError> {
        self.see(is_right, name, "")
    }
}

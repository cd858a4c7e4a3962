//! Who watches a run.
use mx_save_book::Tally;
use mx_save_rules::End;

/// The standing of a run.
#[derive(Clone, Copy)]
pub struct Standing {
    /// How long it runs, in milliseconds.
    pub moment: u64,
    /// What has ended.
    pub tally: Tally,
    /// How many URLs there are, where that is known.
    pub known: Option<u64>,
    /// How many transfers run.
    pub running: usize,
    /// How many bytes these have received.
    pub arrived: u64,
}

/// Nobody watches.
#[derive(Clone, Copy)]
pub struct Nobody;

impl Watch for Nobody {
    fn period(&self) -> Option<u32> {
        None
    }

    fn show(&mut self, _standing: &Standing) {}

    fn hide(&mut self) {}

    fn show_again(&mut self) {}

    fn end(&mut self) {}

    fn say(&mut self, _end: &End) {}

    fn meet_file_limit(&mut self) {}
}

/// Who watches a run, shows its standing, and reports the end of each URL.
pub trait Watch {
    /// How many milliseconds are between two displays of the run's standing, at least 1; None where that isn't shown.
    fn period(&self) -> Option<u32>;

    /// Shows the run's standing.
    fn show(&mut self, standing: &Standing);

    /// Takes off what is shown, before something else is printed on standard output, if that would stand in its way.
    fn hide(&mut self);

    /// May show again what was taken off.
    fn show_again(&mut self);

    /// Takes off what is shown, since the run has ended.
    fn end(&mut self);

    /// Reports the end of a URL, where that is to be reported.
    fn say(&mut self, end: &End);

    /// Reports that a connection couldn't be begun since too many files were open, where that is to be reported.
    fn meet_file_limit(&mut self);
}

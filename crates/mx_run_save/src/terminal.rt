//! What is written of a run on standard error: which URLs failed, and its standing.
ghost use Rattle.std.specs.Prelude.{◌≡◌, ◌+◌, ◌-◌, ◌^◌, ◌<◌, ◌≤◌, IfOk, take};
ghost use Rattle.mx_run_save.specs.Screens.{period_ms, progress_line};

use mx_run_io::Output;
use mx_save_rules::{End, SaveCode};
use mx_save_urls::{Standing, Watch};
use mx_text::{print_failure, print_file_limit, print_words};
use std::alloc::{AllocError, Global};
use std::io::Write;

/// How many milliseconds lie between two moments at which it is shown how a run stands, at least.
const PERIOD_MS: u32 = 250;

/// What stands behind the text of the line: the rest of the line is erased, and the cursor goes to its start. So what is printed next, a
/// shell's prompt after an interrupt, too, begins a line.
const ERASE: &[u8] = b"\x1b[K\r";

/// Where it is shown how a run stands.
#[derive(Clone, Copy)]
pub struct Screen {
    /// How many columns a line has.
    pub columns: usize,
    /// Standard output may go there, too.
    pub is_shared: bool,
}

/// Standard error, or what stands for it. Each URL that failed has a line there; and, if asked for, a line that is removed again shows how
/// far the run is. Where memory is refused, that line is left out; a write that fails is ignored.
#[derive(Drop)]
pub struct Terminal<E: Write> {
    alloc: Global,
    output: Output<E>,
    screen: Screen,
    shows: bool,
    // The moment from which on the line may be drawn.
    next: u64,
    is_up: bool,
}

// A number of bytes in a unit in which it has few digits.
fn in_unit(bytes: u64) -> (u64, &'static str) {
    if bytes < 10_000 {
        (bytes, "B")
    } else if bytes < 10_000_000 {
        (bytes / 1_000, "kB")
    } else {
        (bytes / 1_000_000, "MB")
    }
}

// How many URLs are left, and how many seconds they take, where that is known.
fn left_of(standing: &Standing) -> Option<(u64, u64)> {
    let left = standing.known?.saturating_sub(standing.tally.ended);
    let seconds = left
        .saturating_mul(standing.moment / 1_000)
        .checked_div(standing.tally.ended)?;
    Some((left, seconds))
}

// The standing of a run, as a line.
fn text_of(alloc: Global, standing: &Standing) -> Result<String, AllocError> {
    let Standing {
        moment,
        tally,
        running,
        ..
    } = *standing;
    let bytes = tally.bytes.saturating_add(standing.arrived);
    let (amount, unit) = in_unit(bytes);
    let rate = bytes.saturating_mul(1_000).checked_div(moment);
    let (speed, speed_unit) = in_unit(rate.unwrap_or(0));
    let (ended, failed) = (tally.ended, tally.failed);
    match left_of(standing) {
        Some((left, seconds)) => format!(in alloc;
            "{ended} ended, {failed} of them failed, {running} run, {left} left; {amount} {unit}, {speed} {speed_unit}/s, {seconds} s left"
        ),
        None => format!(in alloc;
            "{ended} ended, {failed} of them failed, {running} run; {amount} {unit}, {speed} {speed_unit}/s"
        ),
    }
}

// What is shown of a text in ASCII on a line of so many columns, of which one is left free: behind it a line would end.
fn cut(text: &[u8], columns: usize) -> &[u8]
    ensures { result.now ≡ take (columns - 1) text.now }
{
    match text.get(..columns.saturating_sub(1)) {
        Some(front) => front,
        None => text,
    }
}

// rule save-progress
// The line of a text, which is drawn by one write.
fn line_of(alloc: Global, text: &str, columns: usize) -> Result<Vec<u8>, AllocError>
    ensures { IfOk result (λ line. line.items ≡ progress_line text.now columns) }
{
    let mut line = Vec::from_slice(alloc, cut(text.as_bytes(), columns))?;
    line.extend_from_slice(ERASE)?;
    Ok(line)
}

impl<E: Write> Terminal<E> {
    /// Nothing was written yet. `shows` says whether it is shown how far the run is.
    pub fn new(alloc: Global, output: Output<E>, screen: Screen, shows: bool) -> Terminal<E> {
        Terminal {
            alloc,
            output,
            screen,
            shows,
            next: 0,
            is_up: false,
        }
    }

    // Reports a URL that failed with that code, and flushes.
    fn tell(&mut self, url: &[u8], words: &str, code: SaveCode) {
        self.take_off();
        let _ = match code {
            SaveCode::Transfer(code) => print_failure(&mut self.output, url, words, code),
            _ => print_words(&mut self.output, url, words, u32::from(code.number())),
        };
        let _ = self.output.flush();
    }

    // Draws the line.
    fn draw(&mut self, standing: &Standing) {
        if let Ok(text) = text_of(self.alloc, standing) {
            if let Ok(line) = line_of(self.alloc, text.as_str(), self.screen.columns) {
                let _ = self.output.write_all(line.as_slice());
                let _ = self.output.flush();
                self.is_up = true;
            }
        }
    }

    // Takes the line off.
    fn take_off(&mut self) {
        if self.is_up {
            let _ = self.output.write_all(ERASE);
            let _ = self.output.flush();
            self.is_up = false;
        }
    }
}

impl<E: Write> Watch for Terminal<E> {
    fn period(&self) -> Option<u32> {
        if self.shows { Some(PERIOD_MS) } else { None }
    }

    // rule save-progress
    fn show(&mut self, standing: &Standing)
        ensures early { standing.now.moment < self.old.next → self.new ≡ self.old }
        ensures next { self.old.next ≤ standing.now.moment → standing.now.moment + period_ms < 2 ^ 64
            → self.new.next ≡ standing.now.moment + period_ms }
    {
        if standing.moment < self.next {
            return;
        }
        self.draw(standing);
        self.next = standing.moment.saturating_add(u64::from(PERIOD_MS));
    }

    fn hide(&mut self) {
        if self.screen.is_shared {
            self.take_off();
        }
    }

    // The line is drawn again as time goes by, and not at each end.
    fn show_again(&mut self) {}

    fn end(&mut self) {
        self.take_off();
    }

    fn say(&mut self, end: &End) {
        if let Some(words) = end.error() {
            self.tell(end.url(), words, end.code());
        }
    }

    fn meet_file_limit(&mut self) {
        self.take_off();
        let _ = print_file_limit(&mut self.output, true);
        let _ = self.output.flush();
    }
}

//! What is printed of URLs, as they end.
ghost use Rattle.std.specs.Prelude.{◌≡◌, ◌≢◌, ◌⊎◌, ◌++◌, ◌∷◌, [], true, false, map, option_map, None, OnOk, OnErr};
ghost use Rattle.mx_run_io.specs.Ends.{has_failed_write, is_pending, Wrote};
ghost use Rattle.mx_save_rules.specs.Ends.{IsEnd};
ghost use Rattle.mx_save_rules.specs.Status.{after_notes, status_of};
ghost use Rattle.mx_save_book.specs.Lines.{note_of, line_of, AreLines, IsFreshLines, last_of, tally_of};

use crate::tally::Tally;
use mx_run_io::{Output, Stop};
use mx_save_rules::{End, ExitStatus, JsonError, print_json, print_line};
use mx_types::History;
use std::alloc::Global;
use std::io::Write;
use std::marker::Model;
use std::snapshot::Snapshot;

/// What a URL ended with, and its place among the URLs of the run, for contracts alone.
#[derive(Drop)]
pub struct PrintedLine {
    place: u64,
    end: Snapshot<End>,
}

impl Model for PrintedLine {
    ghost use Rattle.mx_save_book.specs.Lines.{PrintedLineValue};

    ghost Value = { PrintedLineValue };

    ghost view = { λ t. record { place = t.place; end = t.end.value } };
}

/// What was printed of the URLs that have ended, in the order in which they ended: a line each, or an object in JSON. Contracts see the
/// ends, their tally and the last of them, and the output before the first was printed, and now.
#[derive(Drop)]
pub struct Lines<W: Write> {
    alloc: Global,
    json: bool,
    status: ExitStatus,
    output: Output<W>,
    start: Snapshot<Output<W>>,
    told: History<PrintedLine>,
    tally: Tally,
    last: Option<End>,
}

impl<W: Write> Model for Lines<W> {
    ghost use Rattle.mx_save_book.specs.Lines.{LinesValue, AreLines};

    ghost Value = { LinesValue W };

    ghost view = { λ l. record { json = l.json; status = l.status; output = l.output; start = l.start.value; told = l.told; tally = l.tally; last = l.last } };

    ghost invariant = { λ l. AreLines W.contents (record { json = l.json; status = l.status; output = l.output; start = l.start.value; told = l.told; tally = l.tally; last = l.last }) };
}

// Prints a line, or an object.
fn print_end<W: Write>(
    alloc: Global,
    output: &mut Output<W>,
    json: bool,
    end: &End,
) -> Result<(), Stop>
    ensures bytes { OnOk result (Wrote W.contents output.old output.new (line_of json end.now)) }
    ensures left { OnErr result ((output.new ≡ output.old) ⊎ (has_failed_write output.new ≡ true)) }
{
    if json {
        return match print_json(alloc, output, end) {
            Ok(()) => Ok(()),
            Err(JsonError::OutOfMemory) => Err(Stop::OutOfMemory),
            Err(JsonError::Unwritten) => Err(Stop::Unwritten),
        };
    }
    match print_line(output, end) {
        Ok(()) => Ok(()),
        Err(_) => Err(Stop::Unwritten),
    }
}

// The same, and flushes.
fn print_flushed<W: Write>(
    alloc: Global,
    output: &mut Output<W>,
    json: bool,
    end: &End,
) -> Result<(), Stop>
    ensures bytes { OnOk result (Wrote W.contents output.old output.new (line_of json end.now)) }
    ensures flushed { OnOk result (is_pending output.new ≡ false) }
    ensures left { OnErr result ((output.new ≡ output.old) ⊎ (has_failed_write output.new ≡ true)) }
{
    print_end(alloc, output, json, end)?;
    match output.flush() {
        Ok(()) => Ok(()),
        Err(_) => Err(Stop::Unwritten),
    }
}

impl<W: Write> Lines<W> {
    /// Nothing was printed yet. What was written into the output before was flushed.
    pub fn new(alloc: Global, output: Output<W>, json: bool) -> Lines<W>
        requires { is_pending output ≡ false }
        ensures { IsFreshLines json output result }
    {
        Lines {
            alloc,
            json,
            status: ExitStatus::new(),
            start: Snapshot::of(&output),
            output,
            told: History::new(),
            tally: Tally::new(),
            last: None,
        }
    }

    // Makes sure that no write has failed.
    fn ready(&mut self) -> Result<(), Stop>
        ensures told { self.new.told ≡ self.old.told }
        ensures same { (self.new.start ≡ self.old.start) × (self.new.json ≡ self.old.json) }
        ensures well { OnOk result (has_failed_write self.new.output ≢ true) }
    {
        match self.output.flush() {
            Ok(()) => Ok(()),
            Err(_) => Err(Stop::Unwritten),
        }
    }

    /// Prints what the URL at that place ended with, and flushes.
    ///
    /// An error is `OutOfMemory`, for a text in JSON and before anything was written, or says that the output couldn't be written.
    pub fn tell(&mut self, place: u64, end: End) -> Result<(), Stop>
        ensures told { OnOk result (self.new.told ≡ self.old.told ++ record { place = place; end = end } ∷ []) }
        ensures is { OnOk result (IsEnd end) }
        ensures kept { OnErr result (self.new.told ≡ self.old.told) }
        ensures same { (self.new.start ≡ self.old.start) × (self.new.json ≡ self.old.json) }
    {
        // proof: what holds of an end
        end.know();
        self.ready()?;
        print_flushed(self.alloc, &mut self.output, self.json, &end)?;
        self.status.note(place, end.code());
        self.told.note(PrintedLine {
            place,
            end: Snapshot::of(&end),
        });
        self.tally = self.tally.with(&end);
        self.last = Some(end);
        Ok(())
    }

    /// The progress of the run: the counts of what was printed.
    pub fn tally(&self) -> Tally
        ensures { result ≡ tally_of self.now.told }
    {
        self.tally
    }

    /// What was printed last, if anything was.
    pub fn last(&self) -> Option<&End>
        ensures { option_map (λ end. end.now) result ≡ last_of self.now.told }
    {
        self.last.as_ref()
    }

    /// What holds of every such list. It does nothing: a call gives its caller's proof the law.
    pub fn know(&self)
        ensures { AreLines W.contents self.now }
    {
        // proof: what holds of lines
        let _json = self.json;
    }

    /// The exit status by the codes that were printed: the first that isn't 0, in the order of the URLs.
    pub fn status(&self) -> u8
        ensures { result ≡ status_of (after_notes None (map note_of self.now.told)) }
    {
        self.status.status()
    }

    /// The output.
    pub fn into_output(self) -> Output<W>
        ensures { result ≡ self.output }
    {
        self.output
    }
}

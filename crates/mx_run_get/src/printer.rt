//! What prints the ends of URLs.
ghost use Rattle.std.specs.Prelude.{◌≡◌, ◌≢◌, ◌<◌, [], ◌∷◌, ◌++◌, true, IsErr, OnOk, if◌then◌else◌, ◌==◌};
ghost use Rattle.mx_types.specs.Code.{code_number};
ghost use Rattle.mx_run_io.specs.Ends.{has_failed_write, Wrote, writer_of};
ghost use Rattle.mx_text.specs.Texts.{texts_from, exit_status};

use crate::end::UrlEnd;
use crate::printed::PrintedEnd;
use crate::taker::TakeEnds;
use mx_run_io::{Output, Stop, UNWRITTEN};
use mx_text::{Fetched, print_transfer};
use mx_types::Code;
use std::alloc::Global;
use std::io::Write;
use std::marker::Model;
use std::snapshot::Snapshot;

// The exit status of ends that had this one, and of one more.
fn status_with(status: u8, code: Code) -> u8
    requires { status < UNWRITTEN }
    ensures value { result ≡ (if status == 0 then code_number code else status) }
    ensures small { result < UNWRITTEN }
{
    if status != 0 {
        return status;
    }
    code.number() as u8
}

/// An output to which the ends of URLs are printed, one after another, and what is left of those that were.
///
/// Unless a write failed, its output has had exactly the texts of these ends since it was begun, as far as std knows what the writer holds.
#[derive(Drop)]
pub(crate) struct Printer<W: Write + Drop> {
    output: Output<W>,
    begun: Snapshot<Output<W>>,
    printed: Vec<PrintedEnd>,
    status: u8,
}

impl<W: Write + Drop> Model for Printer<W> {
    ghost use Rattle.mx_run_get.specs.Printer.{PrinterValue, IsPrinter};

    ghost Value = { PrinterValue W };

    ghost view = { λ p. record { output = p.output; begun = p.begun.value; printed = p.printed.items; status = p.status } };

    ghost invariant = { λ p. IsPrinter W.contents (record { output = p.output; begun = p.begun.value; printed = p.printed.items; status = p.status }) };
}

impl<W: Write + Drop> Printer<W> {
    /// Nothing is printed yet.
    pub fn new(alloc: Global, output: Output<W>) -> Printer<W>
        ensures { result ≡ record { output = output; begun = output; printed = []; status = 0 } }
    {
        Printer {
            begun: Snapshot::of(&output),
            output,
            printed: Vec::new(alloc),
            status: 0,
        }
    }

    // Prints an end, and keeps what is left of it. Where there is no memory for that it prints nothing.
    fn print(&mut self, fetched: &Fetched) -> Result<(), Stop>
        ensures printed { OnOk result (self.new.printed ≡ self.old.printed ++ fetched.now ∷ []) }
        ensures refused { IsErr result → self.new.printed ≡ self.old.printed }
        ensures begun { self.new.begun ≡ self.old.begun }
    {
        self.printed.reserve(1)?;
        let handle = self.printed.len();
        let Ok(()) = print_transfer(&mut self.output, handle, fetched) else {
            return Err(Stop::Unwritten);
        };
        self.printed.push_reserved(PrintedEnd::of(fetched));
        self.status = status_with(self.status, fetched.code());
        Ok(())
    }

    /// The output, what is left of the ends that were printed, and their exit status.
    pub fn into_parts(self) -> (Output<W>, Vec<PrintedEnd>, u8)
        ensures output { result.0 ≡ self.output }
        ensures printed { result.1.items ≡ self.printed }
        ensures wrote { has_failed_write self.output ≢ true → Wrote W.contents self.begun self.output (texts_from 0 self.printed) }
        ensures status { result.2 ≡ exit_status self.printed }
        ensures small { result.2 < UNWRITTEN }
    {
        let Printer {
            output,
            begun,
            printed,
            status,
        } = self;
        drop(begun);
        (output, printed, status)
    }
}

impl<W: Write + Drop> TakeEnds for Printer<W> {
    ghost taken = { λ p. p.printed };

    ghost begun = { λ p. W.contents (writer_of p.begun) };

    fn count(&self) -> usize {
        self.printed.len()
    }

    fn take(&mut self, end: UrlEnd) -> Result<(), Stop> {
        let fetched = end.into_fetched();
        let printed = self.print(&fetched);
        drop(fetched);
        printed
    }

    fn flush(&mut self) -> Result<(), Stop> {
        match self.output.flush() {
            Ok(()) => Ok(()),
            Err(_) => Err(Stop::Unwritten),
        }
    }
}

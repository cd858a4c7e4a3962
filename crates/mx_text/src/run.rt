//! The text of a whole run of `get`.
ghost use Rattle.std.specs.Prelude.{◌≡◌, ◌≢◌, ◌<◌, true, IsErr, IfOk, OnOk};
ghost use Rattle.mx_run_io.specs.Ends.{has_failed_write, Wrote, EndsRun};
ghost use Rattle.mx_text.specs.Texts.{texts_from, exit_status};

use crate::fetched::Fetched;
use crate::text::print_transfer;
use mx_run_io::{Output, UNWRITTEN, WriteFailed};
use std::io::Write;

// rule get-output
/// The first code that isn't `Ok`, in the order of the handles, as the number that the program ends with.
pub fn exit_status(fetched: &[Fetched]) -> u8
    ensures value { result ≡ exit_status fetched.now }
    ensures small { result < UNWRITTEN }
{
    for one in fetched {
        let number = one.code().number();
        if number != 0 {
            return number as u8;
        }
    }
    0
}

// Prints the texts of all handles, and answers the exit status.
fn print_all<W: Write>(output: &mut Output<W>, fetched: &[Fetched]) -> Result<u8, WriteFailed>
    ensures bytes { OnOk result (Wrote W.contents output.old output.new (texts_from 0 fetched.now)) }
    ensures status { IfOk result (λ status. status ≡ exit_status fetched.now) }
    ensures small { IfOk result (λ status. status < UNWRITTEN) }
    ensures failed { IsErr result → has_failed_write output.new ≡ true }
{
    for (handle, one) in fetched.iter().enumerate() {
        print_transfer(output, handle, one)?;
    }
    Ok(exit_status(fetched))
}

// rule get-output
/// Prints what each handle ended with, in the order of the handles: a line, the body, and the end of a line. The
/// answer is the exit status: the number of the first code that isn't `Ok`, 0 where there is none, or 121 where
/// the output couldn't be written. All that is printed is flushed, unless the answer is 121. Bodies are written from the received bytes.
pub fn print_get<W: Write>(output: &mut Output<W>, fetched: &[Fetched]) -> u8
    ensures ends { EndsRun output.new result }
    ensures printed { has_failed_write output.new ≢ true → Wrote W.contents output.old output.new (texts_from 0 fetched.now) }
    ensures status { has_failed_write output.new ≢ true → result ≡ exit_status fetched.now }
{
    let status = print_all(output, fetched);
    output.end(status)
}

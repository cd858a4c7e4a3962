//! The text of one handle.
ghost use Rattle.std.specs.Prelude.{◌≡◌, ◌++◌, ◌↔◌, true, IsErr, OnOk, length};
ghost use Rattle.mx_types.specs.Code.{code_number};
ghost use Rattle.mx_body.specs.Parts.{joined};
ghost use Rattle.mx_run_io.specs.Ends.{has_failed_write, Wrote};
ghost use Rattle.mx_text.specs.Fetched.{content_of};
ghost use Rattle.mx_text.specs.Texts.{transfer_line, transfer_text};

use crate::failure::Failure;
use crate::fetched::Fetched;
use mx_chain::Outcome;
use mx_run_io::{Output, WriteFailed};
use mx_types::Code;
use std::io::Write;

// Prints the line of a handle.
fn print_line<W: Write>(
    output: &mut Output<W>,
    handle: usize,
    code: u32,
    status: u16,
    len: u32,
) -> Result<(), WriteFailed>
    ensures bytes { OnOk result (Wrote W.contents output.old output.new (transfer_line handle code status len)) }
    ensures failed { IsErr result ↔ (has_failed_write output.new ≡ true) }
    ensures stays { has_failed_write output.old ≡ true → has_failed_write output.new ≡ true }
{
    output.print(format_args!("transfer {handle} code {code} status {status} length {len}\n"))
}

// Prints the parts of a body.
fn print_parts<W: Write>(output: &mut Output<W>, outcome: &Outcome) -> Result<(), WriteFailed>
    ensures bytes { OnOk result (Wrote W.contents output.old output.new (joined outcome.now.wire outcome.now.parts)) }
    ensures failed { IsErr result → has_failed_write output.new ≡ true }
    ensures kept { OnOk result (has_failed_write output.new ≡ has_failed_write output.old) }
{
    for i in 0..outcome.part_count() {
        let Some(part) = outcome.part(i) else {
            unreachable!();
        };
        output.write_all(part)?;
    }
    Ok(())
}

// Prints the line and the body of a transfer that ended.
fn print_outcome<W: Write>(
    output: &mut Output<W>,
    handle: usize,
    outcome: &Outcome,
) -> Result<(), WriteFailed>
    ensures bytes { OnOk result (Wrote W.contents output.old output.new
        (transfer_line handle (code_number outcome.now.code) outcome.now.status (length (content_of outcome.now.code outcome.now))
        ++ content_of outcome.now.code outcome.now)) }
    ensures failed { IsErr result ↔ (has_failed_write output.new ≡ true) }
    ensures stays { has_failed_write output.old ≡ true → has_failed_write output.new ≡ true }
{
    let code = outcome.code();
    match code {
        Code::Ok => {
            print_line(output, handle, 0, outcome.status(), outcome.body_len())?;
            print_parts(output, outcome)
        }
        _ => print_line(output, handle, code.number(), outcome.status(), 0),
    }
}

// Prints the line of a transfer that failed.
fn print_failure<W: Write>(
    output: &mut Output<W>,
    handle: usize,
    failure: &Failure,
) -> Result<(), WriteFailed>
    ensures bytes { OnOk result (Wrote W.contents output.old output.new
        (transfer_line handle (code_number failure.now.code) failure.now.status (length (content_of failure.now.code failure.now))
        ++ content_of failure.now.code failure.now)) }
    ensures failed { IsErr result ↔ (has_failed_write output.new ≡ true) }
    ensures stays { has_failed_write output.old ≡ true → has_failed_write output.new ≡ true }
{
    let code = failure.code();
    print_line(output, handle, code.number(), failure.status(), 0)
}

/// Prints the text of a handle.
pub fn print_transfer<W: Write>(
    output: &mut Output<W>,
    handle: usize,
    fetched: &Fetched,
) -> Result<(), WriteFailed>
    ensures bytes { OnOk result (Wrote W.contents output.old output.new (transfer_text handle fetched.now)) }
    ensures failed { IsErr result ↔ (has_failed_write output.new ≡ true) }
    ensures stays { has_failed_write output.old ≡ true → has_failed_write output.new ≡ true }
{
    match fetched {
        Fetched::Refused(code) => print_line(output, handle, code.number(), 0, 0)?,
        Fetched::Ended(outcome) => print_outcome(output, handle, outcome)?,
        Fetched::Failed(failure) => print_failure(output, handle, failure)?,
    }
    output.write_all(b"\n")
}

//! Runs that end with a fault.
ghost use Rattle.std.specs.Prelude.{◌≡◌, true, IfOk, IsErr, ◌↔◌};
ghost use Rattle.mx_types.specs.Code.{code_number};
ghost use Rattle.mx_run_io.specs.Ends.{has_failed_write, Wrote};
ghost use Rattle.mx_run_io.specs.Faults.{PrintsFault};

use crate::output::{Output, WriteFailed};
use mx_types::Code;
use std::io::Write;

/// Prints the line of a fault, `FAULT C` with the number of its code, and answers that number: the exit status.
pub fn end_with<W: Write>(output: &mut Output<W>, code: Code) -> Result<u8, WriteFailed>
    ensures printed { IfOk result (PrintsFault (code_number code) (Wrote W.contents output.old output.new)) }
    ensures failed { IsErr result ↔ (has_failed_write output.new ≡ true) }
{
    let number = code.number();
    output.print(format_args!("FAULT {number}\n"))?;
    Ok(number as u8)
}

//! The lines that are printed.
ghost use Rattle.std.specs.Prelude.{◌≡◌, true, IsErr, OnOk, ◌↔◌, All, length};
ghost use Rattle.mx_run_io.specs.Ends.{has_failed_write, Wrote};
ghost use Rattle.mx_run_local.specs.BodyTexts.{response_line, yes_or_no, StandsWithin};
ghost use Rattle.mx_body.specs.Parts.{joined};

use crate::gather::gather;
use mx_body::Part;
use mx_run_io::{Output, WriteFailed};
use std::io::Write;

fn yes_or_no(b: bool) -> &'static str
    ensures { result.now ≡ yes_or_no b }
{
    if b { "yes" } else { "no" }
}

// rule program-response-line
/// Prints the line of a whole response.
pub fn print_response<W: Write>(
    output: &mut Output<W>,
    status: u16,
    body: usize,
    keep: bool,
    left: usize,
) -> Result<(), WriteFailed>
    ensures bytes { OnOk result (Wrote W.contents output.old output.new (response_line status body keep left)) }
    ensures failed { IsErr result ↔ (has_failed_write output.new ≡ true) }
{
    let keep = yes_or_no(keep);
    output.print(format_args!("OK status={status:03} body={body} keep={keep} left={left}\n"))
}

/// How many bytes of the pieces are gathered for a write.
const GATHERED: usize = 65536;

/// Prints the pieces of the input.
pub fn print_parts<W: Write>(
    output: &mut Output<W>,
    input: &[u8],
    parts: &[Part],
) -> Result<(), WriteFailed>
    requires { All (StandsWithin (length input.now)) parts.now }
    ensures bytes { OnOk result (Wrote W.contents output.old output.new (joined input.now parts.now)) }
    ensures failed { IsErr result → has_failed_write output.new ≡ true }
    ensures kept { OnOk result (has_failed_write output.new ≡ has_failed_write output.old) }
{
    let mut buffer = [0u8; GATHERED];
    let mut held = 0;
    for part in parts {
        let piece = &input[part.start as usize..part.end as usize];
        held = gather(output, &mut buffer, held, piece)?;
    }
    output.write_all(&buffer[..held])
}

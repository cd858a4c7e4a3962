//! Runs that are out of memory before they ask for a URL.
ghost use Rattle.std.specs.Prelude.{◌≡◌, ◌⊎◌, ◌↔◌, true, false, IsErr, OnOk};
ghost use Rattle.mx_run_io.specs.Ends.{has_failed_write, Wrote};
ghost use Rattle.mx_run_save.specs.Unbegun.{unbegun_line};

use crate::status::OUT_OF_MEMORY;
use mx_run_io::{Output, UNWRITTEN, WriteFailed};
use mx_types::OutOfMemory;
use std::io;
use std::io::Write;

/// The object of such a run.
const OBJECT: &str =
    "{\"url\":null,\"verdict\":\"failed\",\"code\":27,\"status\":0,\"length\":0,\"file\":null,\"hops\":0,\"tries\":0,\"framing\":null,\"error\":\"out of memory\"}\n";

/// Reports on standard error that memory was refused. The answer is the exit status.
pub fn tell_out_of_memory(rt: &impl Eprint) -> u8
    ensures { result ≡ OUT_OF_MEMORY }
{
    let _ = eprintln!(rt; "mxfetch: {}", OutOfMemory);
    OUT_OF_MEMORY
}

// rule save-unbegun
// Prints the object.
fn print_unbegun<W: Write>(output: &mut Output<W>) -> Result<(), WriteFailed>
    ensures bytes { OnOk result (Wrote W.contents output.old output.new unbegun_line) }
    ensures failed { IsErr result ↔ (has_failed_write output.new ≡ true) }
{
    output.write_all(OBJECT.as_bytes())
}

// rule save-unbegun
/// Ends a run that was out of memory before it asked for a URL: where it is to print objects, by one whose URL is null, and else by nothing on
/// standard output. It takes no memory. The answer is the exit status.
pub fn end_unbegun(rt: &impl Print, json: bool) -> u8
    ensures any { (result ≡ OUT_OF_MEMORY) ⊎ (result ≡ UNWRITTEN) }
    ensures lines { json ≡ false → result ≡ OUT_OF_MEMORY }
{
    if !json {
        return OUT_OF_MEMORY;
    }
    match print_unbegun(&mut Output::new(io::writer(rt))) {
        Ok(()) => OUT_OF_MEMORY,
        Err(_) => UNWRITTEN,
    }
}

/// Ends a run of `save` that has no memory for its own command line: that is told on standard error, and under `--json` by an object on standard
/// output. It takes no memory. The answer is the exit status.
pub fn refuse_save(rt: &(impl Print + Eprint), json: bool) -> u8
    ensures any { (result ≡ OUT_OF_MEMORY) ⊎ (result ≡ UNWRITTEN) }
    ensures lines { json ≡ false → result ≡ OUT_OF_MEMORY }
{
    let _ = tell_out_of_memory(rt);
    end_unbegun(rt, json)
}

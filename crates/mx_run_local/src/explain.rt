//! Why what was received isn't a whole response.
ghost use Rattle.std.specs.Prelude.{◌≡◌, ◌≢◌, ℕ, List, true, None, Option, Err, IfOk, OnOk, IsErr};
ghost use Rattle.mx_run_io.specs.Ends.{has_failed_write, Wrote};
ghost use Rattle.mx_text.specs.Lines.{body_lines};
ghost use Rattle.mx_run_local.specs.Reading.{IsReceived, IsRead};
ghost use Rattle.mx_run_local.specs.Explained.{IsWhyNone, IsTold, TellsRead, code_alone, told_lines};
ghost use Rattle.mx_run_local.specs.declared.reading.InputError.TheVariants.{Failed, OutOfMemory};

use crate::reading::{InputError, Received};
use mx_body::Verdict;
use mx_body::laws::one_verdict;
use mx_reason::{Reason, reason_of};
use mx_run_io::{Output, WriteFailed};
use mx_text::{FailureReport, print_body_failure};
use mx_types::{Code, Method};
use std::alloc::Global;
use std::io::Write;

// Why what was received isn't a whole response.
fn why(alloc: Global, method: Method, received: &Received) -> Option<Reason>
    ensures { (bytes : List ℕ) → IsReceived method bytes received.now → IsWhyNone method bytes result }
{
    // proof: bytes have one verdict
    one_verdict();
    reason_of(alloc, method, received.decoder.wire())
}

// What is reported of what was received, if it isn't a whole response.
fn told_of_verdict(alloc: Global, method: Method, received: &Received) -> Option<FailureReport>
    ensures { (bytes : List ℕ) → IsReceived method bytes received.now → IsTold method bytes received.now.decoder.verdict result }
{
    match received.decoder.verdict() {
        Verdict::Fault(code) => Some(FailureReport {
            code: *code,
            reason: why(alloc, method, received),
        }),
        _ => None,
    }
}

// What is reported of an input, if it isn't a whole response.
fn told_of(
    alloc: Global,
    method: Method,
    received: &Result<Received, InputError>,
) -> Option<FailureReport>
    ensures unread { received.now ≡ Err Failed → result ≡ code_alone Code.RecvError }
    ensures short { received.now ≡ Err OutOfMemory → result ≡ code_alone Code.OutOfMemory }
    ensures read { IfOk received.now (λ r. (bytes : List ℕ) → IsReceived method bytes r → IsTold method bytes r.decoder.verdict result) }
{
    match received {
        Ok(received) => told_of_verdict(alloc, method, received),
        Err(InputError::Failed) => Some(FailureReport::by_code(Code::RecvError)),
        Err(InputError::OutOfMemory) => Some(FailureReport::by_code(Code::OutOfMemory)),
    }
}

// Prints what is reported, if anything is.
fn print_told<E: Write>(
    output: &mut Output<E>,
    told: Option<FailureReport>,
) -> Result<(), WriteFailed>
    ensures told { OnOk result (Wrote E.contents output.old output.new (told_lines told)) }
    ensures failed { IsErr result → has_failed_write output.new ≡ true }
{
    match told {
        Some(told) => print_body_failure(output, told),
        None => Ok(()),
    }
}

// rule program-explain
/// Reports why what was received isn't a whole response, where it isn't one.
pub(crate) fn explain<E: Write>(
    alloc: Global,
    method: Method,
    received: &Result<Received, InputError>,
    output: &mut Output<E>,
) -> Result<(), WriteFailed>
    ensures unread { received.now ≡ Err Failed → OnOk result (Wrote E.contents output.old output.new (body_lines Code.RecvError None)) }
    ensures read { (known left : Option (List ℕ)) → IfOk received.now (IsRead method known left) → received.now ≢ Err Failed
        → OnOk result (TellsRead method known left (Wrote E.contents output.old output.new)) }
    ensures failed { IsErr result → has_failed_write output.new ≡ true }
{
    let told = told_of(alloc, method, received);
    print_told(output, told)
}

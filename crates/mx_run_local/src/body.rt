//! The command `body`: a whole response from its bytes.
ghost use Rattle.std.specs.Prelude.{◌≡◌, ◌≢◌, ℕ, List, ◌+◌, ◌<◌, ◌≤◌, ◌^◌, ◌++◌, ◌↔◌, ◌⊎◌, true, All, None, Err, IfOk, OnOk, IsErr, length, sum_by};
ghost use Rattle.mx_types.specs.Code.{code_number};
ghost use Rattle.mx_head.specs.Limits.{most_bytes};
ghost use Rattle.mx_run_io.specs.Ends.{reader_of, reads_of, most_reads_of, has_failed_read, has_failed_write, Wrote, EndsRun};
ghost use Rattle.mx_body.specs.Parts.{joined};
ghost use Rattle.mx_run_local.specs.BodyTexts.{part_len, response_line, StandsWithin};
ghost use Rattle.mx_run_io.specs.Faults.{PrintsFault};
ghost use Rattle.mx_text.specs.Lines.{body_lines};
ghost use Rattle.mx_run_local.specs.Reading.{ReadsUpTo, IsRead};
ghost use Rattle.mx_run_local.specs.Body.{text_of, exit_status, AnswersRead, FitsIn, PrintsReceived};
ghost use Rattle.mx_run_local.specs.Explained.{TellsRead};
ghost use Rattle.mx_run_local.specs.declared.reading.InputError.TheVariants.{Failed, OutOfMemory};

use crate::body_text::{print_parts, print_response};
use crate::explain::explain;
use crate::reading::{InputError, Received, receive};
use mx_body::laws::parts_are_content;
use mx_body::{Part, Verdict};
use mx_run_io::{Input, Output, WriteFailed, end_with};
use mx_types::{Code, Method};
use std::alloc::Global;
use std::io::{Read, Write};

// rule program-reads
/// The most reads that `run_body` makes: each but the last gives a byte.
pub const MOST_BODY_READS: u64 = 67_108_866;

/// How many bytes the pieces have together.
fn body_len(parts: &[Part]) -> usize
    requires ordered { All (λ part. part.start ≤ part.end) parts.now }
    requires small { sum_by part_len parts.now < 2 ^ 64 }
    ensures { result ≡ sum_by part_len parts.now }
{
    let mut total: usize = 0;
    for part in parts {
        total += (part.end - part.start) as usize;
    }
    total
}

/// Prints the line of a whole response, and then its body.
fn print_whole<W: Write>(
    output: &mut Output<W>,
    wire: &[u8],
    status: u16,
    parts: &[Part],
    keep: bool,
    left: usize,
) -> Result<(), WriteFailed>
    requires within { All (StandsWithin (length wire.now)) parts.now }
    requires small { sum_by part_len parts.now < 2 ^ 64 }
    ensures written { OnOk result (Wrote W.contents output.old output.new
        (response_line status (sum_by part_len parts.now) keep left ++ joined wire.now parts.now)) }
    ensures failed { IsErr result ↔ (has_failed_write output.new ≡ true) }
{
    print_response(output, status, body_len(parts), keep, left)?;
    print_parts(output, wire, parts)
}

/// Prints the text of a verdict, and answers its exit status. It is the verdict on `len` bytes, of which a prefix is there, with all that
/// it names.
fn print_verdict<W: Write>(
    output: &mut Output<W>,
    wire: &[u8],
    verdict: &Verdict,
    len: usize,
) -> Result<u8, WriteFailed>
    requires fits { FitsIn wire.now verdict.now }
    requires front { length wire.now ≤ len }
    ensures written { OnOk result ((behind : List ℕ) → len ≡ length (wire.now ++ behind)
        → Wrote W.contents output.old output.new (text_of (wire.now ++ behind) verdict.now)) }
    ensures status { IfOk result (λ status. status ≡ exit_status verdict.now) }
    ensures failed { IsErr result ↔ (has_failed_write output.new ≡ true) }
{
    match verdict {
        Verdict::Complete {
            status,
            len: end,
            parts,
            keep,
        } => {
            print_whole(output, wire, *status, parts, *keep, len - *end as usize)?;
            Ok(0)
        }
        Verdict::More => unreachable!(),
        Verdict::Fault(code) => end_with(output, *code),
    }
}

// rule program-failed-read
// Prints what was received, and answers the exit status.
fn print_received<W: Write>(
    output: &mut Output<W>,
    received: &Result<Received, InputError>,
) -> Result<u8, WriteFailed>
    requires fits { IfOk received.now (λ r. FitsIn r.decoder.wire r.decoder.verdict) }
    requires front { IfOk received.now (λ r. length r.decoder.wire ≤ r.len) }
    ensures unread { received.now ≡ Err Failed → IfOk result (PrintsFault (code_number Code.RecvError)
        (Wrote W.contents output.old output.new)) }
    ensures short { received.now ≡ Err OutOfMemory → IfOk result (PrintsFault (code_number Code.OutOfMemory)
        (Wrote W.contents output.old output.new)) }
    ensures printed { IfOk received.now (λ r. IfOk result (PrintsReceived r (Wrote W.contents output.old output.new))) }
    ensures small { IfOk result (λ status. status < 121) }
    ensures failed { IsErr result ↔ (has_failed_write output.new ≡ true) }
{
    match received {
        Ok(received) => print_verdict(
            output,
            received.decoder.wire(),
            received.decoder.verdict(),
            received.len,
        ),
        Err(InputError::Failed) => end_with(output, Code::RecvError),
        Err(InputError::OutOfMemory) => end_with(output, Code::OutOfMemory),
    }
}

/// What `run_body` prints, and its exit status, where each write succeeds; and what was received.
fn print_body<R: Read, W: Write>(
    alloc: Global,
    method: Method,
    input: &mut Input<R>,
    output: &mut Output<W>,
) -> (Result<u8, WriteFailed>, Result<Received, InputError>)
    requires room { reads_of input.old + (most_bytes + 2) ≤ most_reads_of input.old }
    ensures reads { reads_of input.new ≤ reads_of input.old + (most_bytes + 2) }
    ensures left { ReadsUpTo most_bytes (has_failed_read input.new)
        (R.remaining (reader_of input.old)) (R.remaining (reader_of input.new)) }
    ensures asked { has_failed_read input.new ≡ true
        → (has_failed_read input.old ≡ true) ⊎ (reads_of input.old < reads_of input.new) }
    ensures unread { has_failed_read input.new ≡ true → IfOk result.0 (PrintsFault (code_number Code.RecvError)
        (Wrote W.contents output.old output.new)) }
    ensures answered { has_failed_read input.new ≢ true → IfOk result.0 (AnswersRead method
        (R.remaining (reader_of input.old)) (R.remaining (reader_of input.new))
        (Wrote W.contents output.old output.new)) }
    ensures small { IfOk result.0 (λ status. status < 121) }
    ensures failed { IsErr result.0 ↔ (has_failed_write output.new ≡ true) }
    ensures received { IfOk result.1 (IsRead method (R.remaining (reader_of input.old)) (R.remaining (reader_of input.new))) }
    ensures unreceived { (result.1 ≡ Err Failed) ↔ (has_failed_read input.new ≡ true) }
{
    let received = receive(alloc, method, input);
    // proof: the parts of a response are its content
    parts_are_content();
    let printed = print_received(output, &received);
    (printed, received)
}

/// Reads a response whole, as the answer to a request of that method, and prints it: one line and the body,
/// or the line of a fault. The answer is the exit status: 0, the number of the fault's code, or 121 where the
/// output couldn't be written.
///
/// The input is read to its end, or until there are more than 67,108,864 bytes and then no further, by at most two
/// reads more than that: so many the input has to have left. A read that fails prints `FAULT 56`, whatever came
/// before it; where memory for what was read or for the pieces of its body is refused, `FAULT 27` is printed.
///
/// All that is printed is flushed, unless the answer is 121.
pub fn run_body<R: Read, W: Write>(
    alloc: Global,
    method: Method,
    input: &mut Input<R>,
    output: &mut Output<W>,
) -> u8
    requires room { reads_of input.old + (most_bytes + 2) ≤ most_reads_of input.old }
    ensures reads { reads_of input.new ≤ reads_of input.old + (most_bytes + 2) }
    ensures left { ReadsUpTo most_bytes (has_failed_read input.new)
        (R.remaining (reader_of input.old)) (R.remaining (reader_of input.new)) }
    ensures asked { has_failed_read input.new ≡ true
        → (has_failed_read input.old ≡ true) ⊎ (reads_of input.old < reads_of input.new) }
    ensures ends { EndsRun output.new result }
    ensures unread { has_failed_write output.new ≢ true → has_failed_read input.new ≡ true
        → PrintsFault (code_number Code.RecvError)
        (Wrote W.contents output.old output.new) result }
    ensures answered { has_failed_write output.new ≢ true → has_failed_read input.new ≢ true
        → AnswersRead method (R.remaining (reader_of input.old)) (R.remaining (reader_of input.new))
        (Wrote W.contents output.old output.new) result }
{
    let (printed, _received) = print_body(alloc, method, input, output);
    output.end(printed)
}

/// Does what `run_body` does, and reports why a response isn't whole: the line of its code, with the byte of the response at which it is
/// refused and what is wrong there, or how much of it came, and then a hint where there is one. A whole response has no report. The report
/// is written into an output of its own, once the other is flushed; whether that succeeds doesn't change the exit status.
pub fn run_body_explained<R: Read, W: Write, E: Write>(
    alloc: Global,
    method: Method,
    input: &mut Input<R>,
    output: &mut Output<W>,
    told: &mut Output<E>,
) -> u8
    requires room { reads_of input.old + (most_bytes + 2) ≤ most_reads_of input.old }
    ensures reads { reads_of input.new ≤ reads_of input.old + (most_bytes + 2) }
    ensures left { ReadsUpTo most_bytes (has_failed_read input.new)
        (R.remaining (reader_of input.old)) (R.remaining (reader_of input.new)) }
    ensures asked { has_failed_read input.new ≡ true
        → (has_failed_read input.old ≡ true) ⊎ (reads_of input.old < reads_of input.new) }
    ensures ends { EndsRun output.new result }
    ensures unread { has_failed_write output.new ≢ true → has_failed_read input.new ≡ true
        → PrintsFault (code_number Code.RecvError)
        (Wrote W.contents output.old output.new) result }
    ensures answered { has_failed_write output.new ≢ true → has_failed_read input.new ≢ true
        → AnswersRead method (R.remaining (reader_of input.old)) (R.remaining (reader_of input.new))
        (Wrote W.contents output.old output.new) result }
    ensures told_unread { has_failed_write told.new ≢ true → has_failed_read input.new ≡ true
        → Wrote E.contents told.old told.new (body_lines Code.RecvError None) }
    ensures told_read { has_failed_write told.new ≢ true → has_failed_read input.new ≢ true
        → TellsRead method (R.remaining (reader_of input.old)) (R.remaining (reader_of input.new))
        (Wrote E.contents told.old told.new) }
{
    let (printed, received) = print_body(alloc, method, input, output);
    let status = output.end(printed);
    let _ = explain(alloc, method, &received, told);
    status
}

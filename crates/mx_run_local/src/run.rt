//! The command `play`.
ghost use Rattle.std.specs.Prelude.{◌≡◌, ◌≢◌, ◌+◌, ◌≤◌, true, IsErr, IfOk};
ghost use Rattle.mx_types.specs.Limits.{IsHistory};
ghost use Rattle.mx_run_io.specs.Ends.{reader_of, reads_of, most_reads_of, has_failed_read, has_failed_write, Wrote, EndsRun};
ghost use Rattle.mx_run_local.specs.Run.{PrintsUnread, AnswersScript, WasAsked, fresh, most_script_reads};

use crate::player::Player;
use crate::session::{Session, Turn};
use mx_run_io::{Input, Output, WriteFailed, end_with};
use mx_types::Code;
use std::alloc::Global;
use std::io::{Read, Write};

/// The exit status after a bad line.
const BAD_LINE: u8 = 122;

// rule program-out-of-memory
/// What `run_play` prints, and its exit status, where each write succeeds.
fn play_script<R: Read, W: Write>(
    alloc: Global,
    history: u32,
    first: u32,
    input: &mut Input<R>,
    output: &mut Output<W>,
) -> Result<u8, WriteFailed>
    requires history { IsHistory history }
    requires allowed { most_reads_of input.old ≤ most_script_reads }
    ensures reads { reads_of input.new ≤ reads_of input.old + most_script_reads }
    ensures asked { has_failed_read input.new ≡ true → WasAsked (has_failed_read input.old)
        (most_reads_of input.old) (reads_of input.old) (reads_of input.new) }
    ensures unread { has_failed_read input.old ≢ true → has_failed_read input.new ≡ true
        → IfOk result (PrintsUnread (fresh history first)
        (R.remaining (reader_of input.old)) (R.remaining (reader_of input.new))
        (Wrote W.contents output.old output.new)) }
    ensures answered { has_failed_read input.new ≢ true → IfOk result (AnswersScript (fresh history first)
        (reads_of input.old) (reads_of input.new) (R.remaining (reader_of input.old)) (Wrote W.contents output.old output.new)) }
    ensures written { IfOk result (λ status. status ≢ 121) }
    ensures failed { IsErr result → has_failed_write output.new ≡ true }
{
    let Ok(player) = Player::new(alloc, history, first) else {
        return end_with(output, Code::OutOfMemory);
    };
    let mut session = Session::new(player);
    match session.play_all(input, output)? {
        Some(Turn::On) => Ok(0),
        Some(Turn::Bad) => Ok(BAD_LINE),
        Some(Turn::NoMemory) => end_with(output, Code::OutOfMemory),
        None => end_with(output, Code::RecvError),
    }
}

/// Plays a script of calls, as seat 0, on a control core with a history of so many events and `first` as its first ticket,
/// and prints what each line is answered. At a `first` of 4294967295 no ticket is left. The answer is the exit status: 0; 122
/// after a bad line, whose number is printed; 56 where a read failed, and 27 where memory was refused; 121 where the output
/// couldn't be written.
///
/// The script is read to its end or to a bad line, by at most 4,294,967,295 reads, and no more may be allowed to the
/// input: one more counts as failed. A read that fails prints `FAULT 56` after the replies to the lines that ended
/// before it. Where memory is refused it prints `FAULT 27`: before anything is read, where it was for the core; or after the replies to the
/// lines before one whose call makes an event.
///
/// All that is printed is flushed, unless the answer is 121.
pub fn run_play<R: Read, W: Write>(
    alloc: Global,
    history: u32,
    first: u32,
    input: &mut Input<R>,
    output: &mut Output<W>,
) -> u8
    requires history { IsHistory history }
    requires allowed { most_reads_of input.old ≤ most_script_reads }
    ensures reads { reads_of input.new ≤ reads_of input.old + most_script_reads }
    ensures asked { has_failed_read input.new ≡ true → WasAsked (has_failed_read input.old)
        (most_reads_of input.old) (reads_of input.old) (reads_of input.new) }
    ensures ends { EndsRun output.new result }
    ensures unread { has_failed_write output.new ≢ true
        → has_failed_read input.old ≢ true → has_failed_read input.new ≡ true
        → PrintsUnread (fresh history first) (R.remaining (reader_of input.old)) (R.remaining (reader_of input.new))
        (Wrote W.contents output.old output.new) result }
    ensures answered { has_failed_write output.new ≢ true → has_failed_read input.new ≢ true
        → AnswersScript (fresh history first) (reads_of input.old) (reads_of input.new) (R.remaining (reader_of input.old))
        (Wrote W.contents output.old output.new) result }
{
    let status = play_script(alloc, history, first, input, output);
    output.end(status)
}

//! The run of a task.
ghost use Rattle.std.specs.Prelude.{◌≡◌, ◌≢◌, ◌≤◌, true};
ghost use Rattle.mx_run_io.specs.Ends.{reader_of, reads_of, most_reads_of, has_failed_read, has_failed_write, Wrote, EndsRun};
ghost use Rattle.mx_run_local.specs.Run.{WasAsked};
ghost use Rattle.mx_command.specs.Asked.{IsTask};
ghost use Rattle.mxfetch.specs.Tasks.{most_reads, AnswersTask, PrintsFailedRead, StopsReading};

use mx_command::Task;
use mx_run_io::{Input, Output};
use mx_run_local::{run_body, run_play};
use std::alloc::Global;
use std::io::{Read, Write};

/// How often the run of a task reads at most.
pub(crate) fn most_reads(task: Task) -> u64
    ensures { result ≡ most_reads task }
{
    match task {
        Task::Body(_) => mx_run_local::MOST_BODY_READS,
        Task::Play { .. } => mx_run_local::MOST_SCRIPT_READS,
    }
}

/// Runs a task over an input that wasn't read yet, and that may be read as often as the task may need. The answer is the exit status, and
/// the output belongs to it: that of `run_body` for the task's method, or that of `run_play` for its history and first ticket; 121 exactly
/// where the output couldn't be written, and else nothing is left pending in it.
pub(crate) fn run_task<R: Read, W: Write>(
    alloc: Global,
    task: Task,
    input: &mut Input<R>,
    output: &mut Output<W>,
) -> u8
    requires task { IsTask task }
    requires unread { reads_of input.old ≡ 0 }
    requires allowed { most_reads_of input.old ≡ most_reads task }
    ensures reads { reads_of input.new ≤ most_reads task }
    ensures left { StopsReading task (has_failed_read input.new)
        (R.remaining (reader_of input.old)) (R.remaining (reader_of input.new)) }
    ensures asked { has_failed_read input.new ≡ true → WasAsked (has_failed_read input.old)
        (most_reads_of input.old) (reads_of input.old) (reads_of input.new) }
    ensures ends { EndsRun output.new result }
    ensures unread { has_failed_write output.new ≢ true
        → has_failed_read input.old ≢ true → has_failed_read input.new ≡ true
        → PrintsFailedRead task (R.remaining (reader_of input.old)) (R.remaining (reader_of input.new))
        (Wrote W.contents output.old output.new) result }
    ensures answered { has_failed_write output.new ≢ true → has_failed_read input.new ≢ true
        → AnswersTask task (reads_of input.old) (reads_of input.new)
        (R.remaining (reader_of input.old)) (R.remaining (reader_of input.new))
        (Wrote W.contents output.old output.new) result }
{
    match task {
        Task::Body(method) => run_body(alloc, method, input, output),
        Task::Play { history, first } => run_play(alloc, history, first, input, output),
    }
}

//! A run, from its URLs to their ends.
ghost use Rattle.std.specs.Prelude.{◌≡◌, [], false, All, IfOk, OnOk, length};
ghost use Rattle.mx_save_book.specs.Books.{HasNoneAdded};
ghost use Rattle.mx_save_book.specs.declared.job.Slot.TheVariants as slot;
ghost use Rattle.mx_save_urls.specs.Feeds.{left};
ghost use Rattle.mx_save_urls.specs.Works.{AreBroughtOn, IsSameWork};
ghost use Rattle.mx_save_urls.specs.Asked.{HasTurned};
ghost use Rattle.mx_fetch.specs.declared.turned.Turned.TheVariants as how;
ghost use Rattle.mx_save_urls.specs.Plans.{IsPlan};
ghost use Rattle.mx_save_urls.specs.Runs.{IsOneRun, SavesAll, TellsTruly};

use crate::feed::Feed;
use crate::plan::{MOST_PENDING, Plan};
use crate::run::{AtDesks, Run};
use crate::timer::Timer;
use crate::watch::Watch;
use crate::work::Work;
use mx_crew::Runtime;
use mx_fetch::{FetchEnd, fetch_over_sockets};
use mx_folder::Folder;
use mx_run_io::Stop;
use mx_save::Ledger;
use mx_save_book::{Asking, Book, Lines, Slot, free_slots};
use mx_save_end::{Spool, WholeBody};
use std::alloc::{AllocFailed, AllocGlobal};
use std::io::{Read, Write};
use std::net::{Net, TcpListener, TcpStream};
use std::rt::Clock;
use std::time::Instant;

// Reports that a connection couldn't be begun since too many files were open, where one couldn't.
fn report_file_limit<V: Watch>(watch: &mut V, was_met: bool) {
    if was_met {
        watch.meet_file_limit();
    }
}

// Fetches with workers over sockets. The run is in a box while it fetches, since it is moved through many frames of the stack. `may_fill` says
// whether the history of a multi handle may be full before all URLs have ended.
fn run_boxed<
    'a,
    R: Runtime + Net<Listener = TcpListener, Stream = TcpStream>,
    F: Folder,
    W: Write + Drop,
    Rd: Read + Drop,
    V: Watch + Drop,
>(
    rt: &R,
    run: Run<'a, F, W, Rd, V>,
    plan: Plan,
    may_fill: bool,
) -> (Run<'a, F, W, Rd, V>, Result<(), Stop>)
where
    F::Part: Send,
    requires plan { IsPlan plan }
    requires going { run.work.book.is_stopped ≡ false }
    requires none { HasNoneAdded run.work.book.slots }
    requires waits { AreBroughtOn run.work.book.slots run.work.waiting }
    ensures ended { OnOk result.1 (HasTurned result.0.work how.AllEnded) }
    ensures going { OnOk result.1 (result.0.work.book.is_stopped ≡ false) }
    ensures run { IsSameWork run.entry.work result.0.work }
{
    let start = run.timer.start();
    match Box::new(rt.alloc(), AtDesks { run }) {
        Ok(run) => {
            let end = fetch_over_sockets::<Spool<F>, R, AtDesks<Run<'a, F, W, Rd, V>>>(
                rt,
                run,
                start,
                plan.room(),
                may_fill,
            );
            let FetchEnd {
                errand,
                stopped,
                met_file_limit,
            } = end;
            let AtDesks { mut run } = Box::into_inner(errand);
            report_file_limit(&mut run.watch, met_file_limit);
            (run, stopped)
        }
        Err(AllocFailed { value }) => (value.run, Err(Stop::OutOfMemory)),
    }
}

// rule save-places
// The moment at which a run begins, and its slots: one for each URL that may have no end yet.
fn start_and_slots<R: AllocGlobal + Clock>(rt: &R) -> Result<(Instant, Vec<Slot>), Stop>
    ensures free { IfOk result (λ both. All (λ s. s ≡ slot.Free) both.1.items) }
    ensures count { IfOk result (λ both. length both.1.items ≡ MOST_PENDING) }
{
    match Instant::now(rt) {
        Ok(start) => Ok((start, free_slots(rt.alloc(), MOST_PENDING)?)),
        Err(_) => Err(Stop::NoClock),
    }
}

/// What a run left: what it saved, what it printed of its URLs, who watched it, and why it stopped before all had ended, if it did.
#[derive(Drop)]
pub struct Ended<F: Folder, W: Write, V> {
    pub ledger: Ledger<F, WholeBody<Spool<F>>>,
    pub lines: Lines<W>,
    pub watch: V,
    pub stopped: Result<(), Stop>,
}

// rule save-each-once
/// Workers over sockets fetch the URLs. It saves what is to be saved of each into the ledger's folder, and prints what each ended with. At
/// most `at_once` transfers run at a time. Where the history of a multi handle is full the run goes on with a new one, once all that were
/// added have ended. Where that takes more than half a second it opens one beside it, if it can have gates for its workers, and descriptors
/// for what these open. It opens no third one: where the history of the second is full, too, the run waits until all have ended that were
/// added there. Who watches gets each end, the run's standing, and a report where a connection couldn't be begun since too many files were
/// open. It may wait.
///
/// It stops before all URLs have ended where it is out of memory, where the output can't be written, where the list of URLs can't be read, or
/// where the system has no clock, no poll or no thread for it. What it has reported by then holds all the same, and parts may be out:
/// `Ledger::sweep` removes them. No clause says that the cause it names is the right one, or which URLs were read of a list whose bytes std
/// doesn't know.
pub fn save_all<
    'a,
    R: Runtime + Net<Listener = TcpListener, Stream = TcpStream>,
    F: Folder,
    W: Write + Drop,
    Rd: Read + Drop,
    V: Watch + Drop,
>(
    rt: &R,
    asking: Asking,
    ledger: Ledger<F, WholeBody<Spool<F>>>,
    lines: Lines<W>,
    feed: Feed<'a, Rd>,
    watch: V,
    plan: Plan,
) -> Ended<F, W, V>
where
    F::Part: Send,
    requires plan { IsPlan plan }
    requires fresh { (ledger.entries ≡ []) × (lines.told ≡ []) }
    requires none_out { ledger.out ≡ [] }
    ensures all { OnOk result.stopped (SavesAll asking (left Rd.remaining feed.entry) result.ledger result.lines) }
    ensures told { TellsTruly asking (left Rd.remaining feed.entry) result.ledger result.lines }
    ensures run { IsOneRun ledger lines result.ledger result.lines }
{
    let may_fill = plan.may_fill(feed.rest(), asking.retries);
    let (start, slots) = match start_and_slots(rt) {
        Ok(both) => both,
        Err(stop) => {
            drop(asking);
            drop(feed);
            return Ended {
                ledger,
                lines,
                watch,
                stopped: Err(stop),
            };
        }
    };
    let book = Book::new(rt.alloc(), asking, ledger, lines, slots);
    let work = Work::new(rt.alloc(), book, feed);
    let run = Run {
        work,
        watch,
        timer: Timer::new(start),
    };
    let (run, stopped) = run_boxed(rt, run, plan, may_fill);
    let Run {
        work,
        watch,
        timer: _,
    } = run;
    let (ledger, lines) = work.end().end();
    Ended {
        ledger,
        lines,
        watch,
        stopped,
    }
}

//! The turns of a run.
ghost use Rattle.std.specs.Prelude.{◌≡◌, false, true, IfOk, IfSome, OnOk};
ghost use Rattle.mx_save_book.specs.Books.{IsAwaited, IsClosed, IsJobFor, awaits_at};
ghost use Rattle.mx_save_urls.specs.Works.{AreBroughtOn, IsSameWork};
ghost use Rattle.mx_save_urls.specs.Asked.{AreAsked, HasTurned};

use crate::adding::{Attempt, begin};
use crate::requests::Requests;
use crate::timer::Timer;
use crate::watch::{Standing, Watch};
use crate::work::Work;
use mx_crew::Crew;
use mx_desk::Ended;
use mx_fetch::Turned;
use mx_folder::Folder;
use mx_run_io::Stop;
use mx_save_end::Spool;
use std::alloc::AllocGlobal;
use std::io::{Read, Write};
use std::rt::Clock;
use std::sync::Wait;

/// The longest that a run waits for a message, in milliseconds, before it looks again.
const LONGEST_WAIT_MS: u32 = 60_000;

/// The same, where a list has nothing now.
const LIST_WAIT_MS: u32 = 20;

/// The most messages that are taken before the next transfers are begun.
const MOST_ENDS: usize = 16;

// What was seen of a run: how many URLs had ended, when its standing is shown next, and since when the history has had no room.
#[derive(Clone, Copy)]
struct Seen {
    ended: u64,
    next: u64,
    full: Option<u64>,
}

// Reports the last end, if a URL has ended since so many had; at most one may have. Returns how many have ended.
fn report<'a, F: Folder, W: Write, Rd: Read + Drop, V: Watch>(
    work: &Work<'a, F, W, Rd>,
    watch: &mut V,
    ended: u64,
) -> u64 {
    let now = work.tally().ended;
    if now != ended {
        if let Some(end) = work.last() {
            watch.say(end);
        }
    }
    now
}

// Reports the end of a URL that has ended since, and shows the run's standing, where it is time.
fn look<'a, F: Folder, K: Requests<Spool<F>>, W: Write, Rd: Read + Drop, V: Watch>(
    desk: &mut K,
    work: &Work<'a, F, W, Rd>,
    watch: &mut V,
    seen: Seen,
    now: u64,
) -> Seen
    ensures { K.asked desk.new ≡ K.asked desk.old }
{
    let ended = report(work, watch, seen.ended);
    let mut next = seen.next;
    match watch.period() {
        Some(period) if now >= next => {
            next = now.saturating_add(u64::from(period));
            watch.show(&Standing {
                moment: now,
                tally: work.tally(),
                known: work.known(),
                running: desk.standing().len,
                arrived: desk.arrived(),
            });
        }
        _ => watch.show_again(),
    }
    let full = if desk.standing().is_full {
        Some(seen.full.unwrap_or(now))
    } else {
        None
    };
    Seen { ended, next, full }
}

// How many milliseconds are left until a run leaves a desk that takes no more, though something is added there, where it may.
fn left_ms(patience: Option<u32>, is_full: bool, since: Option<u64>, now: u64) -> u32 {
    match patience {
        Some(most) if is_full => {
            let passed = now.saturating_sub(since.unwrap_or(now));
            most.saturating_sub(u32::try_from(passed).unwrap_or(u32::MAX))
        }
        _ => u32::MAX,
    }
}

// How long a message may be waited for, where a transfer was begun or not: not at all where the next one may be begun now; and else until the
// run or its list is looked at, and until the next URL may be tried again, if one could be added then.
fn wait_ms(
    attempt: Attempt,
    period: Option<u32>,
    may_add: bool,
    next: Option<u64>,
    now: u64,
) -> u32 {
    let longest = match attempt {
        Attempt::Added | Attempt::Read => return 0,
        Attempt::NotYet => LIST_WAIT_MS,
        Attempt::Nothing => period.unwrap_or(LONGEST_WAIT_MS),
    };
    match next {
        Some(moment) if may_add => {
            let left = moment.saturating_sub(now);
            u32::try_from(left).unwrap_or(longest).min(longest)
        }
        _ => longest,
    }
}

// rule save-requests
// Ends the URL whose transfer has ended, or lets it wait, where it is to be tried again.
fn close<'a, F: Folder, W: Write, Rd: Read + Drop, R: Clock>(
    rt: &R,
    work: &mut Work<'a, F, W, Rd>,
    ended: Ended<Spool<F>>,
    timer: Timer,
) -> Result<(), Stop>
    requires going { work.old.book.is_stopped ≡ false }
    requires added { IsAwaited work.old.book.slots ended.at }
    requires asked { IsJobFor work.old.book.asking work.old.book.slots ended.at ended.outcome.request }
    requires waits { AreBroughtOn work.old.book.slots work.old.waiting }
    ensures waits { OnOk result (AreBroughtOn work.new.book.slots work.new.waiting) }
    ensures closed { OnOk result (IsClosed work.old.book.slots work.new.book.slots ended.at) }
    ensures going { OnOk result (work.new.book.is_stopped ≡ false) }
    ensures run { IsSameWork work.old work.new }
{
    let at = ended.at;
    if let Some(delay) = work.close(at, ended.outcome)? {
        let now = timer.now(rt)?;
        work.wait(at, now.saturating_add(delay))?;
    }
    Ok(())
}

// Ends the URL of a message. `NoMessage` comes where its transfer isn't the one that is awaited under that number.
fn end_one<'a, F: Folder, W: Write, Rd: Read + Drop, R: Clock, V: Watch>(
    rt: &R,
    work: &mut Work<'a, F, W, Rd>,
    watch: &mut V,
    ended: Ended<Spool<F>>,
    timer: Timer,
) -> Result<(), Stop>
    requires going { work.old.book.is_stopped ≡ false }
    requires asked { awaits_at work.old.book.slots ended.at ended.ticket ≡ true → IsJobFor work.old.book.asking work.old.book.slots ended.at ended.outcome.request }
    requires waits { AreBroughtOn work.old.book.slots work.old.waiting }
    ensures waits { OnOk result (AreBroughtOn work.new.book.slots work.new.waiting) }
    ensures closed { OnOk result (IsClosed work.old.book.slots work.new.book.slots ended.at) }
    ensures going { OnOk result (work.new.book.is_stopped ≡ false) }
    ensures run { IsSameWork work.old work.new }
{
    watch.hide();
    if work.awaits(ended.at, ended.ticket) {
        return close(rt, work, ended, timer);
    }
    drop(ended);
    Err(Stop::NoMessage)
}

// How many messages are taken at a time, where so many transfers are added: half of those at most, so that workers have the others meanwhile.
fn most_ends(added: usize) -> usize {
    (added / 2).max(1).min(MOST_ENDS)
}

// Waits for the next message for so many milliseconds at most, and ends its URL and those of the messages that are there by then, up to so
// many, so that the next transfers are begun, and workers woken, a few at a time. The answer is how many URLs have ended.
fn await_some<
    'a,
    F: Folder,
    K: Requests<Spool<F>>,
    W: Write,
    Rd: Read + Drop,
    R: Wait + AllocGlobal + Clock,
    V: Watch,
>(
    rt: &R,
    desk: &mut K,
    work: &mut Work<'a, F, W, Rd>,
    watch: &mut V,
    timer: Timer,
    milliseconds: u32,
    most: usize,
    ended: u64,
) -> Result<u64, Stop>
    requires going { work.old.book.is_stopped ≡ false }
    requires all { AreAsked work.old.book.asking work.old.book.slots (K.asked desk.old) }
    requires waits { AreBroughtOn work.old.book.slots work.old.waiting }
    ensures waits { OnOk result (AreBroughtOn work.new.book.slots work.new.waiting) }
    ensures all { OnOk result (AreAsked work.new.book.asking work.new.book.slots (K.asked desk.new)) }
    ensures going { OnOk result (work.new.book.is_stopped ≡ false) }
    ensures run { IsSameWork work.old work.new }
{
    let mut ended = ended;
    let mut wait = milliseconds;
    for _ in 0..most {
        let Some(message) = desk.next(rt, wait)? else {
            return Ok(ended);
        };
        end_one(rt, work, watch, message, timer)?;
        ended = report(work, watch, ended);
        wait = 0;
    }
    Ok(ended)
}

// Why the run leaves its desk, if it does, where so many milliseconds are left until it leaves one that takes no more.
fn how_turned<'a, F: Folder, K: Requests<Spool<F>>, W: Write, Rd: Read + Drop>(
    desk: &K,
    work: &Work<'a, F, W, Rd>,
    left: u32,
) -> Option<Turned>
    requires all { AreAsked work.now.book.asking work.now.book.slots (K.asked desk.now) }
    ensures { IfSome result (HasTurned work.now) }
{
    let standing = desk.standing();
    if standing.is_empty {
        if work.is_done() {
            return Some(Turned::AllEnded);
        }
        if standing.is_full {
            return Some(Turned::HistoryFull);
        }
        return None;
    }
    if standing.is_full && (left == 0 || standing.is_idle) {
        return Some(Turned::Held);
    }
    None
}

// rule save-stalled-lists, unproved: A list that has nothing now, or none but refused URLs, delays no transfer, no retry and no report.
//
// Begins transfers and waits for their ends, until nothing is left to do at the desk, or it is left early. The workers are woken where none
// can be added at once.
pub(crate) fn take_turns<
    'a,
    F: Folder,
    K: Requests<Spool<F>>,
    W: Write,
    Rd: Read + Drop,
    R: Wait + AllocGlobal + Clock,
    V: Watch,
>(
    rt: &R,
    crew: &Crew,
    desk: &mut K,
    work: &mut Work<'a, F, W, Rd>,
    watch: &mut V,
    timer: Timer,
    patience: Option<u32>,
) -> Result<Turned, Stop>
    requires going { work.old.book.is_stopped ≡ false }
    requires all { AreAsked work.old.book.asking work.old.book.slots (K.asked desk.old) }
    requires waits { AreBroughtOn work.old.book.slots work.old.waiting }
    ensures waits { OnOk result (AreBroughtOn work.new.book.slots work.new.waiting) }
    ensures turned { IfOk result (HasTurned work.new) }
    ensures all { OnOk result (AreAsked work.new.book.asking work.new.book.slots (K.asked desk.new)) }
    ensures going { OnOk result (work.new.book.is_stopped ≡ false) }
    ensures run { IsSameWork work.old work.new }
{
    let mut added = 0usize;
    let mut seen = Seen {
        ended: work.tally().ended,
        next: 0,
        full: None,
    };
    for _ in rt.forever() {
        let now = timer.now(rt)?;
        seen = look(desk, work, watch, seen, now);
        let attempt = begin(rt, desk, work, watch, now)?;
        // another may end while a message is awaited
        seen.ended = report(work, watch, seen.ended);
        if matches!(attempt, Attempt::Added) {
            added = added.saturating_add(1);
            continue;
        }
        if added > 0 {
            crew.wake(added);
            added = 0;
        }
        let standing = desk.standing();
        let left = left_ms(patience, standing.is_full, seen.full, now);
        if let Some(turned) = how_turned(desk, work, left) {
            return Ok(turned);
        }
        let may_add = standing.has_room && !standing.is_full;
        let milliseconds = wait_ms(attempt, watch.period(), may_add, work.next_moment(), now);
        let wait = milliseconds.min(left);
        let most = most_ends(standing.len);
        seen.ended = await_some(rt, desk, work, watch, timer, wait, most, seen.ended)?;
    }
    unreachable!()
}

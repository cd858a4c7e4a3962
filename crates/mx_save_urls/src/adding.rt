//! A URL's transfer, from the URL to the desk.
ghost use Rattle.std.specs.Prelude.{◌≡◌, ◌<◌, [], false, count_by, is_some, OnOk};
ghost use Rattle.mx_save.specs.PartSinks.{got_of};
ghost use Rattle.mx_save_book.specs.Books.{HasOpen, IsJobFor, Waits};
ghost use Rattle.mx_sink.specs.Outlets.{handed_of};
ghost use Rattle.mx_save_urls.specs.Works.{AreBroughtOn, IsSameWork, OthersAreBroughtOn};
ghost use Rattle.mx_save_urls.specs.Asked.{AreAsked};

use crate::feed::Ahead;
use crate::requests::Requests;
use crate::watch::Watch;
use crate::work::Work;
use mx_desk::Adding;
use mx_folder::Folder;
use mx_request::Request;
use mx_run_io::Stop;
use mx_save_book::Begun;
use mx_save_end::Spool;
use std::alloc::AllocGlobal;
use std::io::{Read, Write};
use std::sync::Wait;

// How many milliseconds a URL waits whose part can't be made while others have as many files open as may be, unless one ends before.
const BUSY_WAIT_MS: u64 = 20;

/// The result of an attempt to begin a transfer.
#[derive(Clone, Copy)]
pub(crate) enum Attempt {
    /// One is added.
    Added,
    /// None is, since the URL is refused or skipped, or no part can be made for its body, or what was read of the list says nothing yet: the
    /// next attempt may add one.
    Read,
    /// None is, since the list has nothing now.
    NotYet,
    /// None is, and none can be added now.
    Nothing,
}

// rule save-waiting
// Adds the transfer of the URL in that slot, which has a part. Where the multi handle takes no more the part is removed, and the URL waits.
fn add_open<'a, F: Folder, K: Requests<Spool<F>>, W: Write, Rd: Read + Drop, R: Wait + AllocGlobal>(
    rt: &R,
    desk: &mut K,
    work: &mut Work<'a, F, W, Rd>,
    at: usize,
    request: Request,
    spool: Spool<F>,
    now: u64,
) -> Result<Attempt, Stop>
    requires room { count_by is_some (K.asked desk.old) < K.width desk.old }
    requires going { work.old.book.is_stopped ≡ false }
    requires open { HasOpen work.old.book.slots at }
    requires asked { IsJobFor work.old.book.asking work.old.book.slots at request }
    requires none { handed_of (λ s. got_of s) spool ≡ [] }
    requires all { AreAsked work.old.book.asking work.old.book.slots (K.asked desk.old) }
    requires waits { OthersAreBroughtOn at work.old.book.slots work.old.waiting }
    ensures all { OnOk result (AreAsked work.new.book.asking work.new.book.slots (K.asked desk.new)) }
    ensures waits { OnOk result (AreBroughtOn work.new.book.slots work.new.waiting) }
    ensures going { OnOk result (work.new.book.is_stopped ≡ false) }
    ensures run { IsSameWork work.old work.new }
{
    match desk.add(rt, at, request, spool) {
        Adding::Made(ticket) => {
            work.add(at, ticket);
            Ok(Attempt::Added)
        }
        Adding::Refused(request, spool) => {
            drop(request);
            work.put_away(at, spool)?;
            work.wait(at, now)?;
            Ok(Attempt::Nothing)
        }
        Adding::OutOfMemory(request, spool) => {
            drop(request);
            work.put_away(at, spool)?;
            Err(Stop::OutOfMemory)
        }
    }
}

// Makes a part for the body of the URL in that slot, which waits, and adds its transfer. Where no part can be made the URL has ended, or waits.
fn add<'a, F: Folder, K: Requests<Spool<F>>, W: Write, Rd: Read + Drop, R: Wait + AllocGlobal>(
    rt: &R,
    desk: &mut K,
    work: &mut Work<'a, F, W, Rd>,
    at: usize,
    request: Request,
    now: u64,
) -> Result<Attempt, Stop>
    requires room { count_by is_some (K.asked desk.old) < K.width desk.old }
    requires going { work.old.book.is_stopped ≡ false }
    requires stands { Waits work.old.book.slots at }
    requires asked { IsJobFor work.old.book.asking work.old.book.slots at request }
    requires all { AreAsked work.old.book.asking work.old.book.slots (K.asked desk.old) }
    requires waits { OthersAreBroughtOn at work.old.book.slots work.old.waiting }
    ensures all { OnOk result (AreAsked work.new.book.asking work.new.book.slots (K.asked desk.new)) }
    ensures waits { OnOk result (AreBroughtOn work.new.book.slots work.new.waiting) }
    ensures going { OnOk result (work.new.book.is_stopped ≡ false) }
    ensures run { IsSameWork work.old work.new }
{
    match work.open(at)? {
        Begun::Spool(spool, _) => add_open(rt, desk, work, at, request, spool, now),
        Begun::Ended => {
            drop(request);
            Ok(Attempt::Read)
        }
        Begun::Waits(delay) => {
            drop(request);
            work.wait(at, now.saturating_add(delay))?;
            Ok(Attempt::Read)
        }
        Begun::Busy => {
            drop(request);
            work.wait(at, now.saturating_add(BUSY_WAIT_MS))?;
            Ok(Attempt::Nothing)
        }
    }
}

// Reads a URL, and adds its transfer, if it is to be fetched.
fn read<
    'a,
    F: Folder,
    K: Requests<Spool<F>>,
    W: Write,
    Rd: Read + Drop,
    R: Wait + AllocGlobal,
    V: Watch,
>(
    rt: &R,
    desk: &mut K,
    work: &mut Work<'a, F, W, Rd>,
    watch: &mut V,
    now: u64,
) -> Result<Attempt, Stop>
    requires room { count_by is_some (K.asked desk.old) < K.width desk.old }
    requires going { work.old.book.is_stopped ≡ false }
    requires all { AreAsked work.old.book.asking work.old.book.slots (K.asked desk.old) }
    requires waits { AreBroughtOn work.old.book.slots work.old.waiting }
    ensures all { OnOk result (AreAsked work.new.book.asking work.new.book.slots (K.asked desk.new)) }
    ensures waits { OnOk result (AreBroughtOn work.new.book.slots work.new.waiting) }
    ensures going { OnOk result (work.new.book.is_stopped ≡ false) }
    ensures run { IsSameWork work.old work.new }
{
    let Some(at) = work.free_slot() else {
        return Ok(Attempt::Nothing);
    };
    match work.look_ahead()? {
        Ahead::Url => {}
        Ahead::NotYet => return Ok(Attempt::NotYet),
        Ahead::Unended => return Ok(Attempt::Read),
        Ahead::End => return Ok(Attempt::Nothing),
    }
    watch.hide();
    let Some(request) = work.read(at)? else {
        return Ok(Attempt::Read);
    };
    add(rt, desk, work, at, request, now)
}

/// Begins a transfer, if there is room for one: that of a URL that has waited long enough, else of the next one that is read.
pub(crate) fn begin<
    'a,
    F: Folder,
    K: Requests<Spool<F>>,
    W: Write,
    Rd: Read + Drop,
    R: Wait + AllocGlobal,
    V: Watch,
>(
    rt: &R,
    desk: &mut K,
    work: &mut Work<'a, F, W, Rd>,
    watch: &mut V,
    now: u64,
) -> Result<Attempt, Stop>
    requires going { work.old.book.is_stopped ≡ false }
    requires all { AreAsked work.old.book.asking work.old.book.slots (K.asked desk.old) }
    requires waits { AreBroughtOn work.old.book.slots work.old.waiting }
    ensures all { OnOk result (AreAsked work.new.book.asking work.new.book.slots (K.asked desk.new)) }
    ensures waits { OnOk result (AreBroughtOn work.new.book.slots work.new.waiting) }
    ensures going { OnOk result (work.new.book.is_stopped ≡ false) }
    ensures run { IsSameWork work.old work.new }
{
    let standing = desk.standing();
    if standing.is_full || !standing.has_room {
        return Ok(Attempt::Nothing);
    }
    match work.again(now)? {
        Some((at, request)) => {
            // Where no part can be made, its line is printed.
            watch.hide();
            add(rt, desk, work, at, request, now)
        }
        None => read(rt, desk, work, watch, now),
    }
}

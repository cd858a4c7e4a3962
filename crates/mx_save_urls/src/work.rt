//! The work of a run: its URLs, from their reading to their ends.
ghost use Rattle.std.specs.Prelude.{◌≡◌, ◌++◌, ◌∷◌, [], true, false, count_by, List, IfErr, IfNone, IfOk, IfSome, IsSome, IsTrue, ◌↔◌, OnErr, OnOk, Some, option_map, slice_get};
ghost use Rattle.mx_request.specs.Request.{IsRequest};
ghost use Rattle.mx_save_book.specs.Books.{Begins, HasNoneAdded, HasOpen, IsAdded, IsAwaited, IsClosed, IsJobFor, IsSameRun, Waits, WaitsOn, awaits_at};
ghost use Rattle.mx_save_book.specs.Jobs.{is_taken, job_at};
ghost use Rattle.mx_save_book.specs.declared.job.Slot.TheVariants as slot;
ghost use Rattle.mx_run_io.specs.declared.stop.Stop.TheVariants as stop;
ghost use Rattle.mx_save_urls.specs.Feeds.{left, IsFed};
ghost use Rattle.mx_save_urls.specs.Works.{AddsNone, AreBroughtOn, IsSameWork, OthersAreBroughtOn};
ghost use Rattle.mx_save_book.specs.Lines.{last_of, tally_of};
ghost use Rattle.mx_save_rules.specs.declared.waiting.Wait.{Wait};

use crate::feed::{Ahead, Feed};
use mx_chain::Outcome;
use mx_folder::Folder;
use mx_request::Request;
use mx_run_io::Stop;
use mx_save_book::{Begun, Book, Tally};
use mx_save_end::Spool;
use mx_save_rules::{End, Wait, Waiting};
use mx_types::Ticket;
use std::alloc::Global;
use std::io::{Read, Write};
use std::marker::Model;
use std::snapshot::Snapshot;

/// The work of a run: the URLs that are to be read, those that were read, and which of these wait to be tried again, by their slots and the
/// moments until which they wait. Contracts see the book of the URLs, who waits until when, which URLs there were at first and which are left,
/// where that is known, and whether all were read.
#[derive(Drop)]
pub struct Work<'a, F: Folder, W: Write, R: Read + Drop> {
    book: Book<F, W>,
    feed: Feed<'a, R>,
    first: Snapshot<Feed<'a, R>>,
    waiting: Waiting,
    is_read: bool,
}

impl<'a, F: Folder, W: Write, R: Read + Drop> Model for Work<'a, F, W, R> {
    ghost use Rattle.mx_save_urls.specs.Feeds.{left, IsFed};
    ghost use Rattle.mx_save_urls.specs.Works.{WorkValue};

    ghost Value = { WorkValue W };

    ghost view = { λ w. record { book = w.book; waiting = w.waiting; first = left R.remaining w.first.value; left = left R.remaining w.feed; is_read = w.is_read } };

    ghost invariant = { λ w. IsFed (left R.remaining w.first.value) w.book.urls (left R.remaining w.feed) w.is_read };
}

// Takes a URL in, which stands in this slot then, if it is to be asked for.
fn take_in<F: Folder, W: Write>(
    book: &mut Book<F, W>,
    at: usize,
    url: Vec<u8>,
) -> Result<Option<Request>, Stop>
    requires going { book.old.is_stopped ≡ false }
    requires free { slice_get book.old.slots at ≡ Some slot.Free }
    ensures others { (waiting : List Wait) → AreBroughtOn book.old.slots waiting → OnOk result (OthersAreBroughtOn at book.new.slots waiting) }
    ensures none { (waiting : List Wait) → AreBroughtOn book.old.slots waiting → IfOk result (λ asked. IfNone asked (AreBroughtOn book.new.slots waiting)) }
    ensures urls { book.new.urls ≡ book.old.urls ++ url.items ∷ [] }
    ensures asked { IfOk result (λ asked. IfSome asked (λ r. IsJobFor book.new.asking book.new.slots at r × IsRequest r)) }
    ensures stands { IfOk result (λ asked. IfSome asked (λ _. Waits book.new.slots at)) }
    ensures added { OnOk result (AddsNone book.old.slots book.new.slots) }
    ensures going { OnOk result (book.new.is_stopped ≡ false) }
    ensures stopped { OnErr result (book.new.is_stopped ≡ true) }
    ensures run { IsSameRun book.old book.new }
{
    let Some(request) = book.admit(at, url)? else {
        return Ok(None);
    };
    if book.skip(at)? {
        return Ok(None);
    }
    Ok(Some(request))
}

impl<'a, F: Folder, W: Write, R: Read + Drop> Work<'a, F, W, R> {
    /// No URL was read yet.
    pub fn new(alloc: Global, book: Book<F, W>, feed: Feed<'a, R>) -> Work<'a, F, W, R>
        requires { book.urls ≡ [] }
        ensures { result ≡ record { book = book; waiting = []; first = left R.remaining feed.entry; left = left R.remaining feed.entry; is_read = false } }
    {
        Work {
            book,
            first: Snapshot::of(&feed),
            feed,
            waiting: Waiting::new(alloc),
            is_read: false,
        }
    }

    /// Has the next URL at hand, where it can be had without waiting for the list; where none is left, that is noted, and the list isn't read
    /// any more.
    pub fn look_ahead(&mut self) -> Result<Ahead, Stop>
        ensures book { self.new.book ≡ self.old.book }
        ensures waiting { self.new.waiting ≡ self.old.waiting }
        ensures run { IsSameWork self.old self.new }
    {
        if self.is_read {
            return Ok(Ahead::End);
        }
        let how = self.feed.look_ahead()?;
        if matches!(how, Ahead::End) {
            self.is_read = true;
        }
        Ok(how)
    }

    /// Reads the URL that is at hand, if one is. It stands in this slot then, which is free, if it is to be asked for: then its request comes
    /// back.
    pub fn read(&mut self, at: usize) -> Result<Option<Request>, Stop>
        requires going { self.old.book.is_stopped ≡ false }
        requires free { slice_get self.old.book.slots at ≡ Some slot.Free }
        requires waits { AreBroughtOn self.old.book.slots self.old.waiting }
        ensures others { OnOk result (OthersAreBroughtOn at self.new.book.slots self.new.waiting) }
        ensures none { IfOk result (λ asked. IfNone asked (AreBroughtOn self.new.book.slots self.new.waiting)) }
        ensures asked { IfOk result (λ asked. IfSome asked (λ r. IsJobFor self.new.book.asking self.new.book.slots at r × IsRequest r)) }
        ensures stands { IfOk result (λ asked. IfSome asked (λ _. Waits self.new.book.slots at)) }
        ensures added { OnOk result (AddsNone self.old.book.slots self.new.book.slots) }
        ensures going { OnOk result (self.new.book.is_stopped ≡ false) }
        ensures run { IsSameWork self.old self.new }
    {
        let Some(url) = self.feed.next()? else {
            return Ok(None);
        };
        take_in(&mut self.book, at, url)
    }

    /// A slot that is free, if there is one.
    pub fn free_slot(&self) -> Option<usize>
        ensures { IfSome result (λ at. slice_get self.now.book.slots at ≡ Some slot.Free) }
    {
        self.book.free_slot()
    }

    /// Makes a part for the body of the URL in that slot, which waits, as `Book::begin` does.
    pub fn open(&mut self, at: usize) -> Result<Begun<Spool<F>>, Stop>
        requires going { self.old.book.is_stopped ≡ false }
        requires stands { Waits self.old.book.slots at }
        ensures begun { IfOk result (Begins self.old.book self.new.book at) }
        ensures waiting { self.new.waiting ≡ self.old.waiting }
        ensures going { OnOk result (self.new.book.is_stopped ≡ false) }
        ensures run { IsSameWork self.old self.new }
    {
        self.book.begin(at)
    }

    /// Takes back a delivery to which no transfer was added, as `Book::put_away` does.
    pub fn put_away(&mut self, at: usize, spool: Spool<F>) -> Result<(), Stop>
        requires going { self.old.book.is_stopped ≡ false }
        requires open { HasOpen self.old.book.slots at }
        ensures waits { OnOk result (WaitsOn self.old.book.slots self.new.book.slots at) }
        ensures waiting { self.new.waiting ≡ self.old.waiting }
        ensures going { OnOk result (self.new.book.is_stopped ≡ false) }
        ensures run { IsSameWork self.old self.new }
    {
        self.book.put_away(at, spool)
    }

    /// Notes that the transfer of the URL in that slot is added under this ticket.
    pub fn add(&mut self, at: usize, ticket: Ticket)
        requires open { HasOpen self.old.book.slots at }
        requires waits { OthersAreBroughtOn at self.old.book.slots self.old.waiting }
        ensures waits { AreBroughtOn self.new.book.slots self.new.waiting }
        ensures added { IsAdded self.old.book.slots self.new.book.slots at ticket }
        ensures going { self.new.book.is_stopped ≡ self.old.book.is_stopped }
        ensures run { IsSameWork self.old self.new }
    {
        self.book.add(at, ticket);
    }

    /// Whether the addition of this ticket is that of the URL in that slot.
    pub fn awaits(&self, at: usize, ticket: Ticket) -> bool
        ensures { result ≡ awaits_at self.now.book.slots at ticket }
    {
        self.book.awaits(at, ticket)
    }

    /// Whether no transfer is added.
    pub fn has_none_added(&self) -> bool
        ensures { IsTrue result ↔ HasNoneAdded self.now.book.slots }
    {
        self.book.has_none_added()
    }

    /// Ends the URL in that slot, whose transfer ended so. Where it is to be tried again, the milliseconds until then come back.
    pub fn close(&mut self, at: usize, outcome: Outcome<Spool<F>>) -> Result<Option<u64>, Stop>
        requires going { self.old.book.is_stopped ≡ false }
        requires added { IsAwaited self.old.book.slots at }
        requires asked { IsJobFor self.old.book.asking self.old.book.slots at outcome.request }
        requires waits { AreBroughtOn self.old.book.slots self.old.waiting }
        ensures others { OnOk result (OthersAreBroughtOn at self.new.book.slots self.new.waiting) }
        ensures none { IfOk result (λ delay. IfNone delay (AreBroughtOn self.new.book.slots self.new.waiting)) }
        ensures closed { OnOk result (IsClosed self.old.book.slots self.new.book.slots at) }
        ensures going { OnOk result (self.new.book.is_stopped ≡ false) }
        ensures stopped { OnErr result (self.new.book.is_stopped ≡ true) }
        ensures run { IsSameWork self.old self.new }
    {
        self.book.close(at, outcome)
    }

    /// The slot of a URL whose wait is over, and its request. `OutOfMemory` alone is an error.
    pub fn again(&mut self, now: u64) -> Result<Option<(usize, Request)>, Stop>
        requires waits { AreBroughtOn self.old.book.slots self.old.waiting }
        ensures others { IfOk result (λ due. IfSome due (λ d. OthersAreBroughtOn d.0 self.new.book.slots self.new.waiting)) }
        ensures none { IfOk result (λ due. IfNone due (AreBroughtOn self.new.book.slots self.new.waiting)) }
        ensures asked { IfOk result (λ due. IfSome due (λ d. IsJobFor self.new.book.asking self.new.book.slots d.0 d.1 × IsRequest d.1)) }
        ensures stands { IfOk result (λ due. IfSome due (λ d. Waits self.new.book.slots d.0)) }
        ensures why { IfErr result (λ e. e ≡ stop.OutOfMemory) }
        ensures book { self.new.book ≡ self.old.book }
        ensures run { IsSameWork self.old self.new }
    {
        let Some(job) = self.waiting.pop_due(now) else {
            return Ok(None);
        };
        let at = job as usize;
        let request = self.book.request(at)?;
        Ok(Some((at, request)))
    }

    // rule save-waiting
    /// Has the URL in this slot wait until that moment. `OutOfMemory` alone is an error: however many wait, one more may.
    pub fn wait(&mut self, at: usize, moment: u64) -> Result<(), Stop>
        requires waits { OthersAreBroughtOn at self.old.book.slots self.old.waiting }
        ensures waits { OnOk result (AreBroughtOn self.new.book.slots self.new.waiting) }
        ensures book { self.new.book ≡ self.old.book }
        ensures run { IsSameWork self.old self.new }
        ensures why { IfErr result (λ e. e ≡ stop.OutOfMemory) }
    {
        self.waiting.add(Wait {
            moment,
            job: at as u64,
        })?;
        Ok(())
    }

    /// The moment until which a URL waits, the least of them.
    pub fn next_moment(&self) -> Option<u64> {
        self.waiting.next()
    }

    /// How many URLs there are, where that is known: with a list, at its end.
    pub fn known(&self) -> Option<u64> {
        match self.feed.rest() {
            Some(rest) => Some(self.book.read().saturating_add(rest)),
            None if self.is_read => Some(self.book.read()),
            None => None,
        }
    }

    /// The progress of the run: the counts of what was printed.
    pub fn tally(&self) -> Tally
        ensures { result ≡ tally_of self.now.book.lines.told }
    {
        self.book.tally()
    }

    /// What was printed last, if anything was.
    pub fn last(&self) -> Option<&End>
        ensures { option_map (λ end. end.now) result ≡ last_of self.now.book.lines.told }
    {
        self.book.last()
    }

    /// Whether all URLs were read and have ended.
    pub fn is_done(&self) -> bool
        ensures { result ≡ true → (self.now.is_read ≡ true) × (count_by is_taken self.now.book.slots ≡ 0) }
    {
        self.is_read && self.book.is_empty()
    }

    /// Ends the work.
    pub fn end(self) -> Book<F, W>
        ensures book { result ≡ self.entry.book }
        ensures fed { IsFed self.entry.first self.entry.book.urls self.entry.left self.entry.is_read }
    {
        self.book
    }
}

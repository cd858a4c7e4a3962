//! The URLs of a run, from their reading to their ends.
ghost use Rattle.std.specs.Prelude.{◌≡◌, ◌≢◌, ◌⊎◌, ◌+◌, ◌<◌, ◌≤◌, ◌^◌, ℕ, All, ◌++◌, ◌∷◌, [], true, false, if◌then◌else◌, count_by, IfErr, IfNone, IfOk, OnErr, OnOk, Some, None, IsSome, IsTrue, ◌↔◌, IfSome, MatchOption, MatchResult, Ok, Err, length, option_map, slice_get, slice_set};
ghost use Rattle.std.specs.List.{AllByRecursion, Contains};
ghost use Rattle.mx_types.specs.declared.code.Code.TheVariants as code;
ghost use Rattle.mx_types.specs.declared.names.Ticket.{Ticket as OneTicket};
ghost use Rattle.mx_request.specs.Request.{IsRequest};
ghost use Rattle.mx_request.specs.declared.error.RequestError.TheVariants as refusal;
ghost use Rattle.mx_folder.specs.Names.{part_of};
ghost use Rattle.mx_folder.specs.declared.errors.FolderError.TheVariants as folder;
ghost use Rattle.mx_folder.specs.declared.steps.Kind.TheVariants as kinds;
ghost use Rattle.mx_folder.specs.Steps.{refusals};
ghost use Rattle.mx_save.specs.PartSinks.{empty_sink};
ghost use Rattle.mx_save.specs.Made.{without};
ghost use Rattle.mx_save.specs.Tries.{IsRefusedBy};
ghost use Rattle.mx_save.specs.declared.error.SaveError.TheVariants as errors;
ghost use Rattle.mx_save_rules.specs.Ends.{skipped_end};
ghost use Rattle.mx_save_book.specs.Jobs.{AreWhole, Asks, CanAsk, HasRefused, IsLaterLedger, IsTold, LeavesPart, Refuses, is_taken, job_at, refused_end, told_refusals};
ghost use Rattle.mx_save_book.specs.Books.{Begins, Delays, HasNoneAdded, HasOpen, HaveEnded, IsAdded, IsAwaited, IsClosed, IsEndedBy, IsFoundAt, IsFreshBook, IsJobFor, IsOpened, IsOut, IsRefusedNow, IsSameRun, IsSkippedNow, IsUnmadeNow, LeavesSlot, LooksInVain, Retries, Skips, StandsAt, TellsNone, Waits, WaitsAgain, WaitsOn, awaits_at, delay_of, next_job};
ghost use Rattle.mx_save_book.specs.Lines.{last_of, tally_of};
ghost use Rattle.mx_save_book.specs.declared.job.Job.{Job as OneJob};
ghost use Rattle.mx_save_book.specs.declared.job.Slot.TheVariants as slot;

use crate::begun::Begun;
use crate::finish::{NotEnded, finish};
use crate::job::{Job, Slot};
use crate::lines::Lines;
use crate::tally::Tally;
use mx_chain::Outcome;
use mx_folder::{Folder, FolderError, Kind, Names};
use mx_request::{Request, RequestError};
use mx_run_io::Stop;
use mx_save::{Ledger, PartSink, SaveError, Unsaved};
use mx_save_end::{Spool, WholeBody, unsaved_end};
use mx_save_rules::{Asking, End, SaveCode, Transferred, delay_ms, is_retried};
use mx_sink::{Delivery, Outlet};
use mx_text::code_words;
use mx_types::{Code, History, OutOfMemory, Ticket};
use std::alloc::{AllocError, Global};
use std::io::Write;
use std::marker::Model;
use std::{mem, str};

/// The URLs of a run: those that have no end yet, each in a slot, and what the others ended with, which is printed and saved. Contracts see
/// it as `BookValue`.
///
/// What was reported holds: a body that was reported as saved is in its file, whole. Each body that was saved is whole. Each URL of the run is
/// in a slot, or was reported, once: once a call has answered an error, that isn't known any more.
#[derive(Drop)]
pub struct Book<F: Folder, W: Write> {
    alloc: Global,
    asking: Asking,
    ledger: Ledger<F, WholeBody<Spool<F>>>,
    lines: Lines<W>,
    names: Names,
    read: u64,
    slots: Vec<Slot>,
    is_stopped: bool,
    urls: History<Vec<u8>>,
    named: History<Vec<u8>>,
}

impl<F: Folder, W: Write> Model for Book<F, W> {
    ghost use Rattle.std.specs.Prelude.{map};
    ghost use Rattle.mx_save_book.specs.Jobs.{BookValue, IsAccount};

    ghost Value = { BookValue W };

    ghost view = { λ b. record {
      asking = b.asking;
      urls = map (λ u. u.items) b.urls;
      named = map (λ u. u.items) b.named;
      slots = b.slots.items;
      lines = b.lines;
      ledger = b.ledger;
      is_stopped = b.is_stopped;
    } };

    ghost invariant = { λ b. IsAccount (record {
      asking = b.asking;
      urls = map (λ u. u.items) b.urls;
      named = map (λ u. u.items) b.named;
      slots = b.slots.items;
      told = b.lines.told;
      ledger = b.ledger;
    }) b.is_stopped b.read b.names };
}

// The count of URLs with one more.
fn one_more(count: u64) -> Option<u64>
    ensures { IfSome result (λ n. (n ≡ count + 1) × (n < 2 ^ 64)) }
{
    count.checked_add(1)
}

// A URL of which no transfer was made in that try.
fn untransferred(tries: u32) -> Transferred
    ensures { result ≡ record { status = 0; length = 0; framing = None; hops = 0; tries = tries } }
{
    Transferred {
        status: 0,
        length: 0,
        framing: None,
        hops: 0,
        tries,
    }
}

// The end of a URL that is refused.
fn refused(alloc: Global, url: Vec<u8>, why: RequestError) -> Result<End, AllocError>
    ensures { IfOk result (λ end. end ≡ refused_end url.items why) }
{
    let code = why.code();
    let words = String::from_str(alloc, code_words(code))?;
    Ok(End::failed(url, SaveCode::Transfer(code), untransferred(0), Some(words)))
}

impl<F: Folder, W: Write> Book<F, W> {
    /// No URL was read yet, and nothing was saved or printed. The slots are free.
    pub fn new(
        alloc: Global,
        asking: Asking,
        ledger: Ledger<F, WholeBody<Spool<F>>>,
        lines: Lines<W>,
        slots: Vec<Slot>,
    ) -> Book<F, W>
        requires fresh { (ledger.entries ≡ []) × (lines.told ≡ []) }
        requires none_out { ledger.out ≡ [] }
        requires free { All (λ s. s ≡ slot.Free) slots.items }
        ensures { IsFreshBook asking ledger lines slots.items result }
    {
        Book {
            alloc,
            asking,
            ledger,
            lines,
            names: Names::new(alloc),
            read: 0,
            slots,
            is_stopped: false,
            urls: History::new(),
            named: History::new(),
        }
    }

    /// Reports a URL that is refused, which takes no name.
    fn refuse(&mut self, url: Vec<u8>, why: RequestError) -> Result<(), Stop>
        requires going { self.old.is_stopped ≡ false }
        requires why { Refuses self.old.asking url.items why }
        ensures urls { self.new.urls ≡ self.old.urls ++ url.items ∷ [] }
        ensures slots { OnOk result (self.new.slots ≡ self.old.slots) }
        ensures told { OnOk result (IsRefusedNow self.old self.new url.items) }
        ensures going { OnOk result (self.new.is_stopped ≡ false) }
        ensures stopped { OnErr result (self.new.is_stopped ≡ true) }
        ensures run { IsSameRun self.old self.new }
    {
        self.is_stopped = true;
        self.urls.show(&url);
        let Some(read) = one_more(self.read) else {
            return Err(Stop::OutOfMemory);
        };
        let end = refused(self.alloc, url, why)?;
        self.lines.tell(self.read, end)?;
        self.read = read;
        self.is_stopped = false;
        Ok(())
    }

    /// Gives a URL its name, and puts it into that slot, which is free.
    fn stand(&mut self, at: usize, url: Vec<u8>) -> Result<(), Stop>
        requires going { self.old.is_stopped ≡ false }
        requires asks { CanAsk self.old.asking url.items }
        requires free { slice_get self.old.slots at ≡ Some slot.Free }
        ensures urls { self.new.urls ≡ self.old.urls ++ url.items ∷ [] }
        ensures slots { OnOk result (StandsAt self.old.slots self.new.slots at url.items) }
        ensures told { TellsNone self.old self.new }
        ensures going { OnOk result (self.new.is_stopped ≡ false) }
        ensures stopped { OnErr result (self.new.is_stopped ≡ true) }
        ensures run { IsSameRun self.old self.new }
    {
        self.is_stopped = true;
        self.urls.show(&url);
        let Some(read) = one_more(self.read) else {
            return Err(Stop::OutOfMemory);
        };
        let name = self.names.next(self.alloc, url.as_slice())?;
        self.named.show(&url);
        self.slots[at] = Slot::Waiting(Job {
            place: self.read,
            url,
            name,
            tries: 1,
        });
        self.read = read;
        self.is_stopped = false;
        Ok(())
    }

    /// Takes a URL in: its request comes back, and it is in that slot, which was free. Where it is refused, that is reported, it takes no
    /// name, and nothing comes back.
    pub fn admit(&mut self, at: usize, url: Vec<u8>) -> Result<Option<Request>, Stop>
        requires going { self.old.is_stopped ≡ false }
        requires free { slice_get self.old.slots at ≡ Some slot.Free }
        ensures urls { self.new.urls ≡ self.old.urls ++ url.items ∷ [] }
        ensures stands { IfOk result (λ asked. MatchOption asked (self.new.slots ≡ self.old.slots) (λ _. StandsAt self.old.slots self.new.slots at url.items)) }
        ensures asked { IfOk result (λ asked. IfSome asked (λ r. Asks self.old.asking url.items r × IsRequest r)) }
        ensures told { IfOk result (λ asked. MatchOption asked (IsRefusedNow self.old self.new url.items) (λ _. TellsNone self.old self.new)) }
        ensures going { OnOk result (self.new.is_stopped ≡ false) }
        ensures stopped { OnErr result (self.new.is_stopped ≡ true) }
        ensures run { IsSameRun self.old self.new }
    {
        match build(self.alloc, &self.asking, url.as_slice()) {
            Ok(request) => with(self.stand(at, url), Some(request)),
            Err(RequestError::OutOfMemory) => {
                self.is_stopped = true;
                self.urls.show(&url);
                Err(Stop::OutOfMemory)
            }
            Err(why) => with(self.refuse(url, why), None),
        }
    }

    /// The request of the URL that waits in that slot, once more. No clause says when an error comes: it does when out of memory, or where no
    /// URL waits there, and it may where the run has stopped.
    pub fn request(&self, at: usize) -> Result<Request, OutOfMemory>
        ensures request { IfOk result (λ r. IsJobFor self.now.asking self.now.slots at r × IsRequest r) }
        ensures waits { OnOk result (Waits self.now.slots at) }
    {
        let Some(job) = waiting_job(self.slots.as_slice(), at) else {
            return Err(OutOfMemory);
        };
        match build(self.alloc, &self.asking, job.url.as_slice()) {
            Ok(request) => Ok(request),
            Err(why) => match why {
                RequestError::OutOfMemory => Err(OutOfMemory),
                _ if self.is_stopped => Err(OutOfMemory),
                _ => unreachable!(),
            },
        }
    }

    /// Where URLs are skipped whose file is there, looks for a regular file of the name of the URL that waits in that slot. Where it finds one,
    /// the URL has ended without a transfer, and that is reported.
    pub fn skip(&mut self, at: usize) -> Result<bool, Stop>
        requires going { self.old.is_stopped ≡ false }
        ensures slots { IfOk result (λ skipped. self.new.slots ≡ (if skipped then slice_set self.old.slots at slot.Free else self.old.slots)) }
        ensures told { IfOk result (Skips self.old self.new at) }
        ensures urls { self.new.urls ≡ self.old.urls }
        ensures going { OnOk result (self.new.is_stopped ≡ false) }
        ensures stopped { OnErr result (self.new.is_stopped ≡ true) }
        ensures run { IsSameRun self.old self.new }
    {
        if !self.asking.skip_existing {
            return Ok(false);
        }
        if !is_there(&mut self.ledger, self.slots.as_slice(), at) {
            return Ok(false);
        }
        self.pass_over(at)?;
        Ok(true)
    }

    // Ends the URL in that slot, which isn't asked for.
    fn pass_over(&mut self, at: usize) -> Result<(), Stop>
        requires going { self.old.is_stopped ≡ false }
        requires asked { self.old.asking.skip_existing ≡ true }
        requires found { IsFoundAt self.old.slots at self.old.ledger }
        ensures slots { OnOk result (self.new.slots ≡ slice_set self.old.slots at slot.Free) }
        ensures told { OnOk result (IsSkippedNow self.old self.new at) }
        ensures urls { self.new.urls ≡ self.old.urls }
        ensures going { OnOk result (self.new.is_stopped ≡ false) }
        ensures stopped { OnErr result (self.new.is_stopped ≡ true) }
        ensures run { IsSameRun self.old self.new }
    {
        self.is_stopped = true;
        let Some(job) = take_job(&mut self.slots, at) else {
            unreachable!();
        };
        let position = job.place;
        let end = skipped(self.alloc, job)?;
        self.lines.tell(position, end)?;
        self.is_stopped = false;
        Ok(())
    }

    /// Makes a part for the body of the URL that waits in that slot: a delivery with it comes back, which got nothing yet and has the limit that
    /// is asked for, and its number. Where the folder refuses to make the part, or is out of memory, the URL has ended, and that is reported. Where
    /// the folder refuses since too many files are open, the URL waits: for the same try while a transfer is added, which has files open itself;
    /// and else for a further try, if it has tries left, and the milliseconds until then come back.
    pub fn begin(&mut self, at: usize) -> Result<Begun<Spool<F>>, Stop>
        requires going { self.old.is_stopped ≡ false }
        requires waits { Waits self.old.slots at }
        ensures begun { IfOk result (Begins self.old self.new at) }
        ensures urls { self.new.urls ≡ self.old.urls }
        ensures process { self.new.ledger.process ≡ self.old.ledger.process }
        ensures going { OnOk result (self.new.is_stopped ≡ false) }
        ensures stopped { OnErr result (self.new.is_stopped ≡ true) }
        ensures run { IsSameRun self.old self.new }
    {
        match open(self.alloc, &mut self.ledger, self.asking.most_bytes) {
            Ok((spool, number)) => {
                set_open(&mut self.slots, at, number);
                Ok(Begun::Spool(spool, number))
            }
            Err(unsaved) => {
                if self.is_busy(unsaved.error) {
                    drop(unsaved);
                    return Ok(Begun::Busy);
                }
                match self.unmade(at, unsaved) {
                    Ok(Some(delay)) => Ok(Begun::Waits(delay)),
                    Ok(None) => Ok(Begun::Ended),
                    Err(stop) => Err(stop),
                }
            }
        }
    }

    // rule file-descriptors
    // Whether too many files are open to make a part, while transfers are added, which have files open.
    fn is_busy(&self, error: SaveError) -> bool
        ensures limit { result ≡ true → error ≡ errors.Create folder.TooManyOpen }
        ensures busy { result ≡ true → ¬ (HasNoneAdded self.now.slots) }
        ensures idle { result ≡ false → error ≡ errors.Create folder.TooManyOpen → HasNoneAdded self.now.slots }
    {
        is_file_limit(error) && !self.has_none_added()
    }

    // rule file-descriptors
    // How many milliseconds the URL in that slot waits for which no part could be made, if it is to be tried again.
    fn file_delay(&self, at: usize, error: SaveError) -> Option<u64>
        ensures limit { IsSome result → error ≡ errors.Create folder.TooManyOpen }
        ensures delays { error ≡ errors.Create folder.TooManyOpen → Delays self.now.asking self.now.slots at code.CouldntConnect 0 result }
    {
        if is_file_limit(error) {
            return self.delay(at, Code::CouldntConnect, 0);
        }
        None
    }

    // Ends the URL in that slot, for which no part could be made; or lets it wait, where too many files are open.
    fn unmade(&mut self, at: usize, unsaved: Unsaved) -> Result<Option<u64>, Stop>
        requires going { self.old.is_stopped ≡ false }
        requires waits { Waits self.old.slots at }
        requires left { unsaved.left ≡ None }
        requires cause { unsaved.error ≢ errors.OutOfMemory → refusals self.old.ledger.start < refusals self.old.ledger.steps }
        requires calls { HasRefused self.old.ledger (told_refusals unsaved.error unsaved.part None) }
        ensures left { IfOk result (LeavesSlot self.old.slots self.new.slots at) }
        ensures delays { IfOk result (λ delay. IsSome delay → Delays self.old.asking self.old.slots at code.CouldntConnect 0 delay) }
        ensures limit { IfOk result (λ delay. IsSome delay → unsaved.error ≡ errors.Create folder.TooManyOpen) }
        ensures told { IfOk result (λ delay. MatchOption delay (IsUnmadeNow self.old self.new at unsaved.error unsaved.part) (λ _. TellsNone self.old self.new)) }
        ensures ledger { self.new.ledger ≡ self.old.ledger }
        ensures urls { self.new.urls ≡ self.old.urls }
        ensures going { OnOk result (self.new.is_stopped ≡ false) }
        ensures stopped { OnErr result (self.new.is_stopped ≡ true) }
        ensures run { IsSameRun self.old self.new }
    {
        self.is_stopped = true;
        let delay = self.file_delay(at, unsaved.error);
        if delay.is_some() {
            set_waiting(&mut self.slots, at);
            self.is_stopped = false;
            return Ok(delay);
        }
        let Some(job) = take_job(&mut self.slots, at) else {
            unreachable!();
        };
        let place = job.place;
        let end = unsaved_end(self.alloc, job.url, untransferred(job.tries), &unsaved)?;
        self.lines.tell(place, end)?;
        self.is_stopped = false;
        Ok(None)
    }

    /// Notes that the transfer of the URL in that slot is added under this ticket. It writes the part that was made for the URL.
    pub fn add(&mut self, at: usize, ticket: Ticket)
        requires begun { HasOpen self.old.slots at }
        ensures added { IsAdded self.old.slots self.new.slots at ticket }
        ensures urls { self.new.urls ≡ self.old.urls }
        ensures going { self.new.is_stopped ≡ self.old.is_stopped }
        ensures run { IsSameRun self.old self.new }
        ensures ledger { self.new.ledger ≡ self.old.ledger }
    {
        set_added(&mut self.slots, at, ticket);
    }

    // rule file-no-part-left
    /// Takes a delivery back to which no transfer was added: its part is removed, and the URL in that slot waits for the same try. The part is
    /// left only where the folder refuses to remove it, and nothing is printed of that. `NoMessage` comes where the part isn't the URL's, which
    /// no clause says.
    pub fn put_away(&mut self, at: usize, spool: Spool<F>) -> Result<(), Stop>
        requires going { self.old.is_stopped ≡ false }
        requires begun { HasOpen self.old.slots at }
        ensures waits { OnOk result (WaitsOn self.old.slots self.new.slots at) }
        ensures left { (self.new.ledger.left ≡ self.old.ledger.left) ⊎ LeavesPart self.old.ledger self.new.ledger }
        ensures lines { self.new.lines ≡ self.old.lines }
        ensures urls { self.new.urls ≡ self.old.urls }
        ensures going { OnOk result (self.new.is_stopped ≡ false) }
        ensures stopped { OnErr result (self.new.is_stopped ≡ true) }
        ensures run { IsSameRun self.old self.new }
    {
        self.is_stopped = true;
        let Some((job, number)) = take_open(&mut self.slots, at) else {
            unreachable!();
        };
        if !discard(&mut self.ledger, spool, number) {
            return Err(Stop::NoMessage);
        }
        put(&mut self.slots, at, job);
        self.is_stopped = false;
        Ok(())
    }

    /// Whether the addition of this ticket is that of the URL in that slot.
    pub fn awaits(&self, at: usize, ticket: Ticket) -> bool
        ensures { result ≡ awaits_at self.now.slots at ticket }
    {
        match self.slots.get(at) {
            Some(slot) => slot.awaits(ticket),
            None => false,
        }
    }

    /// Ends the URL in that slot, whose transfer had this outcome: what is reported holds of that, and a body that is reported as saved is saved.
    /// Where the URL is to be tried again, by the code and the status, while it has tries left, its part is removed, nothing is reported, and the
    /// milliseconds until then come back. Where the folder refuses to remove the part the URL has ended, and the report names the part. An error
    /// stops the run: `NoMessage` comes where the delivery isn't that of the URL's part, which no clause says.
    pub fn close(&mut self, at: usize, outcome: Outcome<Spool<F>>) -> Result<Option<u64>, Stop>
        requires going { self.old.is_stopped ≡ false }
        requires added { IsAwaited self.old.slots at }
        requires asked { IsJobFor self.old.asking self.old.slots at outcome.request }
        ensures slots { OnOk result (IsClosed self.old.slots self.new.slots at) }
        ensures left { IfOk result (LeavesSlot self.old.slots self.new.slots at) }
        ensures retried { IfOk result (Retries self.old self.new at outcome) }
        ensures removed { IfOk result (λ delay. IfSome delay (λ _. self.new.ledger.left ≡ self.old.ledger.left)) }
        ensures told { IfOk result (λ delay. MatchOption delay (IsEndedBy self.old self.new at outcome) (λ _. TellsNone self.old self.new)) }
        ensures urls { self.new.urls ≡ self.old.urls }
        ensures going { OnOk result (self.new.is_stopped ≡ false) }
        ensures stopped { OnErr result (self.new.is_stopped ≡ true) }
        ensures run { IsSameRun self.old self.new }
    {
        self.is_stopped = true;
        let delay = self.delay(at, outcome.code(), outcome.status());
        let Some((job, number)) = take_open(&mut self.slots, at) else {
            unreachable!();
        };
        let place = job.place;
        let may_retry = delay.is_some();
        match finish(
            self.alloc,
            &self.asking,
            &mut self.ledger,
            job,
            number,
            outcome,
            may_retry,
        ) {
            Ok(end) => {
                self.lines.tell(place, end)?;
                self.is_stopped = false;
                Ok(None)
            }
            Err(NotEnded::Again(job)) => {
                put(&mut self.slots, at, again(job));
                self.is_stopped = false;
                Ok(delay)
            }
            Err(NotEnded::OutOfMemory) => Err(Stop::OutOfMemory),
            Err(NotEnded::NoPart) => Err(Stop::NoMessage),
        }
    }

    // How many milliseconds the URL in that slot waits, where it ended with that code and status and is to be tried again.
    fn delay(&self, at: usize, code: Code, status: u16) -> Option<u64>
        ensures { Delays self.now.asking self.now.slots at code status result }
    {
        let job = self.slots.get(at)?.job()?;
        delay_of(&self.asking, job.tries, code, status)
    }

    /// How many URLs were read.
    pub fn read(&self) -> u64
        ensures { self.now.is_stopped ≡ false → result ≡ length self.now.urls }
    {
        self.read
    }

    /// How far the run is: the counts of what was printed.
    pub fn tally(&self) -> Tally
        ensures { result ≡ tally_of self.now.lines.told }
    {
        self.lines.tally()
    }

    /// What was printed last, if anything was.
    pub fn last(&self) -> Option<&End>
        ensures { option_map (λ end. end.now) result ≡ last_of self.now.lines.told }
    {
        self.lines.last()
    }

    /// A slot that is free, if there is one.
    pub fn free_slot(&self) -> Option<usize>
        ensures free { IfSome result (λ at. slice_get self.now.slots at ≡ Some slot.Free) }
        ensures none { IfNone result ((i : ℕ) → slice_get self.now.slots i ≢ Some slot.Free) }
    {
        let mut at = 0usize;
        for slot in &self.slots {
            if !slot.is_taken() {
                return Some(at);
            }
            at += 1;
        }
        None
    }

    /// Whether no transfer is added.
    pub fn has_none_added(&self) -> bool
        ensures { IsTrue result ↔ HasNoneAdded self.now.slots }
    {
        for slot in &self.slots {
            if !slot.is_unadded() {
                return false;
            }
        }
        true
    }

    /// Whether all URLs that were read have ended.
    pub fn is_empty(&self) -> bool
        ensures { IsTrue result ↔ (count_by is_taken self.now.slots ≡ 0) }
    {
        for slot in &self.slots {
            if slot.is_taken() {
                return false;
            }
        }
        true
    }

    /// Ends the run.
    pub fn end(self) -> (Ledger<F, WholeBody<Spool<F>>>, Lines<W>)
        ensures ledger { result.0 ≡ self.ledger }
        ensures lines { result.1 ≡ self.lines }
        ensures told { AllByRecursion (IsTold self.asking self.urls self.ledger) self.lines.told }
        ensures whole { AreWhole self.ledger.entries }
        ensures ended { self.is_stopped ≡ false → count_by is_taken self.slots ≡ 0 → HaveEnded self.asking self.urls self.ledger self.lines.told }
        ensures none_out { self.is_stopped ≡ false → count_by is_taken self.slots ≡ 0 → self.ledger.out ≡ [] }
    {
        (self.ledger, self.lines)
    }
}

// How many milliseconds a URL waits after so many tries, if it is to be tried again.
fn delay_of(asking: &Asking, tries: u32, code: Code, status: u16) -> Option<u64>
    ensures { result ≡ delay_of asking.now tries code status }
{
    if tries <= u32::from(asking.retries) && is_retried(asking.method, code, status) {
        return Some(delay_ms(tries.max(1)));
    }
    None
}

// The value, where that went well. Else it is dropped.
fn with<T: Drop>(done: Result<(), Stop>, value: T) -> Result<T, Stop>
    ensures { MatchResult done (λ _. result ≡ Ok value) (λ stop. result ≡ Err stop) }
{
    match done {
        Ok(()) => Ok(value),
        Err(stop) => Err(stop),
    }
}

// The request of a URL by its text.
fn build(alloc: Global, asking: &Asking, url: &[u8]) -> Result<Request, RequestError>
    ensures made { IfOk result (λ r. Asks asking.now url.now r × IsRequest r) }
    ensures can { OnOk result (CanAsk asking.now url.now) }
    ensures why { IfErr result (λ e. CanAsk asking.now url.now → e ≡ refusal.OutOfMemory) }
    ensures refused { IfErr result (λ e. e ≢ refusal.OutOfMemory → Refuses asking.now url.now e) }
{
    match str::from_utf8(url) {
        Ok(text) => asking.request(alloc, text),
        Err(_) => Err(RequestError::Malformed),
    }
}

// The URL that waits in a slot.
fn waiting_job(slots: &[Slot], at: usize) -> Option<&Job>
    ensures job { IfSome result (λ job. job_at slots.now at ≡ Some job.now) }
    ensures waits { IfSome result (λ job. slice_get slots.now at ≡ Some (slot.Waiting job.now)) }
    ensures none { IfNone result ((job : OneJob) → slice_get slots.now at ≢ Some (slot.Waiting job)) }
{
    match slots.get(at) {
        Some(Slot::Waiting(job)) => Some(job),
        _ => None,
    }
}

// Whether it is a regular file.
fn is_file(kind: Kind) -> bool
    ensures { IsTrue result ↔ (kind ≡ kinds.File) }
{
    matches!(kind, Kind::File)
}

// Whether a regular file has the name of the URL that waits in a slot.
fn is_there<F: Folder, D: Delivery>(
    ledger: &mut Ledger<F, WholeBody<D>>,
    slots: &[Slot],
    at: usize,
) -> bool
    ensures found { result ≡ true → IsFoundAt slots.now at ledger.new }
    ensures vain { result ≡ false → LooksInVain slots.now at ledger.old ledger.new }
    ensures entries { ledger.new.entries ≡ ledger.old.entries }
    ensures out { ledger.new.out ≡ ledger.old.out }
    ensures run { IsLaterLedger ledger.old ledger.new }
{
    // proof: what holds of a ledger
    ledger.know();
    match waiting_job(slots, at) {
        Some(job) => match ledger.look(&job.name) {
            Ok(kind) => is_file(kind),
            Err(_) => false,
        },
        None => false,
    }
}

// The end of a URL that isn't asked for.
fn skipped(alloc: Global, job: Job) -> Result<End, AllocError>
    ensures { IfOk result (λ end. end ≡ skipped_end job.url.items job.name) }
{
    let file = String::from_str(alloc, job.name.as_str())?;
    Ok(End::skipped(job.url, file))
}

// rule save-limit
// Makes a part, and a delivery with it, of a body with that limit.
fn open<F: Folder, D: Delivery>(
    alloc: Global,
    ledger: &mut Ledger<F, WholeBody<D>>,
    most_bytes: Option<u64>,
) -> Result<(Spool<F>, u64), Unsaved>
    ensures spool { IfOk result (λ r. r.0
        ≡ record { sink = empty_sink (part_of ledger.old.process r.1); left = []; failure = None; count = 0; most_bytes = most_bytes }) }
    ensures out { IfOk result (λ r. ledger.new.out ≡ r.1 ∷ ledger.old.out) }
    ensures none_out { OnErr result (ledger.new.out ≡ ledger.old.out) }
    ensures none_left { IfErr result (λ u. u.left ≡ None) }
    ensures cause { IfErr result (λ u. u.error ≢ errors.OutOfMemory → refusals ledger.old.steps < refusals ledger.new.steps) }
    ensures since { refusals ledger.old.start ≤ refusals ledger.old.steps }
    ensures calls { IfErr result (λ u. HasRefused ledger.new (told_refusals u.error u.part None)) }
    ensures refused_by { IfErr result (λ u. IsRefusedBy ledger.old ledger.new u.error u.part None) }
    ensures entries { ledger.new.entries ≡ ledger.old.entries }
    ensures process { ledger.new.process ≡ ledger.old.process }
    ensures run { IsLaterLedger ledger.old ledger.new }
{
    // proof: what holds of a ledger
    ledger.know();
    match ledger.make_part() {
        Ok(made) => {
            // proof: what holds of the part
            made.know();
            let number = made.number();
            let sink = PartSink::new(alloc, made);
            Ok((Outlet::new(alloc, sink, most_bytes), number))
        }
        Err(unsaved) => Err(unsaved),
    }
}

// Whether no file could be opened for a part, since too many are open.
fn is_file_limit(error: SaveError) -> bool
    ensures { IsTrue result ↔ (error ≡ errors.Create folder.TooManyOpen) }
{
    matches!(error, SaveError::Create(FolderError::TooManyOpen))
}

// Removes the part of a delivery, where it is one of this number. The answer is whether it is.
fn discard<F: Folder, D: Delivery>(
    ledger: &mut Ledger<F, WholeBody<D>>,
    spool: Spool<F>,
    number: u64,
) -> bool
    requires out { Contains ledger.old.out number }
    ensures out { result ≡ true → ledger.new.out ≡ without number ledger.old.out }
    ensures left { (ledger.new.left ≡ ledger.old.left) ⊎ LeavesPart ledger.old ledger.new }
    ensures entries { ledger.new.entries ≡ ledger.old.entries }
    ensures run { IsLaterLedger ledger.old ledger.new }
{
    let (sink, left) = spool.into_parts();
    drop(left);
    let part = sink.into_part();
    if !ledger.is_of(&part, number) {
        return false;
    }
    let _left = ledger.discard(part);
    true
}

// Notes the part of the URL that waits in a slot.
fn set_open(slots: &mut Vec<Slot>, at: usize, number: u64)
    requires waits { Waits slots.old.items at }
    ensures { IsOpened slots.old.items slots.new.items at number }
{
    let Some(job) = take_job(slots, at) else {
        unreachable!();
    };
    slots[at] = Slot::Open(job, number);
}

// Notes that the transfer of the URL in a slot is added under this ticket.
fn set_added(slots: &mut Vec<Slot>, at: usize, ticket: Ticket)
    requires begun { HasOpen slots.old.items at }
    ensures { IsAdded slots.old.items slots.new.items at ticket }
{
    let Some((job, number)) = take_open(slots, at) else {
        unreachable!();
    };
    slots[at] = Slot::Added(job, ticket, number);
}

// Notes that the URL in a slot waits for a further try.
fn set_waiting(slots: &mut Vec<Slot>, at: usize)
    requires there { IsSome (job_at slots.old.items at) }
    ensures { WaitsAgain slots.old.items slots.new.items at }
{
    let Some(job) = take_job(slots, at) else {
        unreachable!();
    };
    slots[at] = Slot::Waiting(again(job));
}

// Puts a URL that was in a slot back there, to wait.
fn put(slots: &mut Vec<Slot>, at: usize, job: Job)
    requires { at < length slots.old.items }
    ensures { slots.new.items ≡ slice_set slots.old.items at (slot.Waiting job) }
{
    slots[at] = Slot::Waiting(job);
}

// Frees a slot. Its URL comes back.
fn take_job(slots: &mut Vec<Slot>, at: usize) -> Option<Job>
    ensures job { result ≡ job_at slots.old.items at }
    ensures free { slots.new.items ≡ slice_set slots.old.items at slot.Free }
{
    if at >= slots.len() {
        return None;
    }
    mem::replace(&mut slots[at], Slot::Free).into_job()
}

// Frees a slot of a URL with a part. The URL comes back, with the number of its part.
fn take_open(slots: &mut Vec<Slot>, at: usize) -> Option<(Job, u64)>
    ensures out { IfSome result (λ taken. IsOut slots.old.items at taken.0 taken.1) }
    ensures none { (job : OneJob) (number : ℕ) → result ≡ None → slice_get slots.old.items at ≡ Some (slot.Open job number) → ⊥ }
    ensures none_added { (job : OneJob) (ticket : OneTicket) (number : ℕ) → result ≡ None → slice_get slots.old.items at ≡ Some (slot.Added job ticket number) → ⊥ }
    ensures free { IsSome result → slots.new.items ≡ slice_set slots.old.items at slot.Free }
{
    if at >= slots.len() {
        return None;
    }
    match mem::replace(&mut slots[at], Slot::Free) {
        Slot::Open(job, number) | Slot::Added(job, _, number) => Some((job, number)),
        _ => None,
    }
}

// The URL before a further try.
fn again(mut job: Job) -> Job
    ensures { result ≡ next_job job }
{
    job.tries = job.tries.saturating_add(1);
    job
}

/// So many free slots.
pub fn free_slots(alloc: Global, count: usize) -> Result<Vec<Slot>, OutOfMemory>
    ensures free { IfOk result (λ slots. All (λ s. s ≡ slot.Free) slots.items) }
    ensures count { IfOk result (λ slots. length slots.items ≡ count) }
{
    let mut slots = Vec::with_capacity(alloc, count)?;
    for made in 0..count {
        // proof: the invariant counts by it
        let _ = made;
        slots.push(Slot::Free)?;
    }
    Ok(slots)
}

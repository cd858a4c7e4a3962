//! The control state of a multi handle.
ghost use Rattle.std.specs.Prelude.{map, ◌≡◌, ◌≤◌, ◌+◌, ◌-◌, ◌++◌, ◌∷◌, [], List, drop, length, nat_lt, replicate, true, false, IfOk, IfSome, IfNone, MatchOption, slice_get, vec_capacity};
ghost use Rattle.std.specs.List.{AllByRecursion};
ghost use Rattle.mx_types.specs.Limits.{IsHistory, greatest_ticket};
ghost use Rattle.mx_types.specs.Origin.{no_request};
ghost use Rattle.mx_types.specs.declared.call.Call.{Call};
ghost use Rattle.mx_history.specs.History.{HasRoomForDue, may_follow, has_room, needs, has_ticket, is_maker, made_by, running, added, retire, waiting};
ghost use Rattle.mx_history.specs.Answers.{answer, handle_of, is_ready, look_of, next_ticket, state_of};
ghost use Rattle.mx_journal.specs.Called.{Called};
ghost use Rattle.mx_journal.specs.Core.{claimed, queued, one_out, retired, still_running, still_waiting, origin_of, with_out, AreOwn, IsSound, IsTabled};
ghost use Rattle.mx_journal.specs.Replies.{pausing_call, is_back, queue_given, origins_given, IsGivenBack, IsRetiring, GiveBackUndoesClaim, is_pausing, answer_with_room, reply_of_info, ending_read, ending_recorded, IsHandedBack, reply_of_finish, origins_added, queue_added, handed_back, work_back, reply_of_add, reply_of_remove, reply_of_pause, reply_of_wakeup};
ghost use Rattle.mx_history.specs.Slots.{slot_of};

use crate::claim::Claim;
use crate::origins::Origins;
use crate::pairs::{drop_ticket, has_ticket, insert_ticket};
use crate::replies::{
    AddReply, FinishReply, GiveBackReply, InfoReply, PauseReply, RemoveReply, RetireReply,
    WakeupReply,
};
use crate::retiring::{keep_the_added, kept_of};
use mx_history::definitions::greater;
use mx_history::{Log, Row};
use mx_table::{MakerCounts, Table};
use mx_types::{
    AddedHandles, Ending, Event, GREATEST_TICKET, HandleId, Look, MOST_HANDLES, OutOfMemory, State,
    Ticket, What, Who, Work,
};
use std::alloc::Global;
use std::marker::Model;

/// A multi handle on one thread: which handles are added and the state of each, the work that waits for a worker, and the endings that wait
/// to be read. Old history is retired by `retire`.
#[derive(Drop)]
pub struct Control<Q: Work, O: Ending> {
    history: u32,
    /// The ticket from which on additions are numbered.
    first: u32,
    /// How many events of the journal were kept at the last retiring, and who made how many of them.
    from: u32,
    before: MakerCounts,
    journal: Vec<Event>,
    table: Table,
    /// For contracts alone: the works have no size.
    origins: Origins<Q>,
    queue: Vec<(Ticket, Q)>,
    endings: Vec<(Ticket, O)>,
    /// How many claims are out.
    out: u64,
}

impl<Q: Work, O: Ending> Model for Control<Q, O> {
    ghost use Rattle.std.specs.Prelude.{vec_capacity};
    ghost use Rattle.mx_journal.specs.Core.{Core, IsBegun, IsControl, IsTabled, KeepsOrigins};

    ghost Value = { Core Q O };

    ghost view = { λ c. record { opening = record { history = c.history; first = c.first; from = c.from }; journal = c.journal.items; origins = c.origins.all; queue = c.queue.items; endings = c.endings.items; out = c.out } };

    ghost invariant = { λ c. record {
      tabled : IsTabled c.history c.journal.items c.table (vec_capacity c.journal);
      kept : IsControl O.code_of O.size_of c.history c.journal.items c.queue.items c.endings.items (vec_capacity c.queue) (vec_capacity c.endings);
      begun : IsBegun (record { history = c.history; first = c.first; from = c.from }) c.journal.items c.before;
      origins : KeepsOrigins Q.origin (record { history = c.history; first = c.first; from = c.from }) c.journal.items c.origins c.queue.items;
    } };
}

impl<Q: Work + Drop, O: Ending + Drop> Control<Q, O> {
    /// An empty control state, with the space for so many events: from `mx_types::LEAST_HISTORY`, which one addition
    /// needs, to `mx_types::MOST_HISTORY`. Its first ticket is 0.
    ///
    /// # Errors
    ///
    /// `OutOfMemory` where that space is refused.
    pub fn new(alloc: Global, history: u32) -> Result<Control<Q, O>, OutOfMemory>
        requires { IsHistory history }
        ensures { IfOk result (λ c. c ≡ record { opening = record { history = history; first = 0; from = 0 }; journal = []; origins = []; queue = []; endings = []; out = 0 }) }
    {
        Control::starting(alloc, history, 0)
    }

    /// As `new`, but its first ticket is `first`. At one more than `mx_types::GREATEST_TICKET` no ticket is left.
    ///
    /// # Errors
    ///
    /// `OutOfMemory` where the space is refused.
    pub fn starting(alloc: Global, history: u32, first: u32) -> Result<Control<Q, O>, OutOfMemory>
        requires { IsHistory history }
        ensures { IfOk result (λ c. c ≡ record { opening = record { history = history; first = first; from = 0 }; journal = []; origins = replicate first no_request; queue = []; endings = []; out = 0 }) }
    {
        let journal = Vec::with_capacity(alloc, history as usize)?;
        let origins = Origins::new(alloc, first)?;
        let queue = Vec::with_capacity(alloc, MOST_HANDLES)?;
        let endings = Vec::with_capacity(alloc, MOST_HANDLES)?;
        let table = Table::new(alloc)?;
        let before = MakerCounts::new();
        Ok(Control {
            history,
            first,
            from: 0,
            before,
            journal,
            table,
            origins,
            queue,
            endings,
            out: 0,
        })
    }

    /// The invariant of every core: its journal is legal and has room for what is due; its queue has running tickets,
    /// each once, by ticket; its endings are those of the messages that wait, in their order; there is an origin for
    /// each ticket below the next one, and no ticket above the greatest was given; and its journal begins with what was
    /// kept of older history. That the table is the one of the journal is seen through `state`, `look`, `made` and the
    /// slots of claims.
    pub fn sound(&self)
        ensures sound { IsSound O.code_of O.size_of self.now.opening.history self.now.journal self.now.queue self.now.endings }
        ensures origins { (length self.now.origins ≡ (next_ticket self.now.opening self.now.journal).0) × AreOwn Q.origin self.now.origins self.now.queue }
        ensures tickets { (next_ticket self.now.opening self.now.journal).0 ≤ greatest_ticket + 1 }
        ensures begun { self.now.opening.from ≤ length self.now.journal }
    {
        // proof: what holds of a core
        let _ = &self.table;
    }

    // rule core-add-refusals
    /// Adds a handle under the next ticket, and puts its work at the end of the queue (curl_multi_add_handle(3)). A handle
    /// that is done stays added until it is removed.
    ///
    /// # Refusals
    ///
    /// The first that applies, in this order; each hands the work back and changes nothing, here and in the log:
    ///
    /// - `AddedAlready`: the handle is added;
    /// - `TableFull`: as many handles are added as can be;
    /// - `TicketsSpent`: the next ticket would be above the greatest, `mx_types::GREATEST_TICKET`;
    /// - `HistoryFull`: beside the events so far and those that are due there is no room for 4 more, the addition and
    ///   its end, reading and removal;
    /// - `OutOfMemory`: the log refused the event.
    pub fn add<L: Log>(&mut self, log: &mut L, who: Who, handle: HandleId, work: Q) -> AddReply<Q>
        requires { is_maker who ≡ true }
        ensures called { Called L.events L.name L.may_refuse who (Call.Add handle) self.old self.new log.old log.new (reply_of_add result) }
        ensures origins { self.new.origins ≡ origins_added result self.old.origins (Q.origin work) }
        ensures endings { self.new.endings ≡ self.old.endings }
        ensures queue { self.new.queue ≡ queue_added result self.old.queue work }
        ensures back { handed_back result ≡ work_back result work }
        ensures own { AreOwn O.origin self.old.origins self.old.endings → AreOwn O.origin self.new.origins self.new.endings }
    {
        if self.table.row_of_handle(handle).is_some() {
            return AddReply::AddedAlready(work);
        }
        if self.table.is_full() {
            return AddReply::TableFull(work);
        }
        let ticket = Ticket(self.next());
        if ticket.0 > GREATEST_TICKET {
            return AddReply::TicketsSpent(work);
        }
        if !self.has_room(4) {
            return AddReply::HistoryFull(work);
        }
        let event = Event {
            who,
            what: What::Added(handle, ticket),
        };
        if log.append(event).is_err() {
            return AddReply::OutOfMemory(work);
        }
        enter(self.history, &mut self.journal, &mut self.table, event);
        self.origins.push(&work);
        self.queue.push_reserved((ticket, work));
        AddReply::Added(ticket)
    }

    // rule core-done-stays-added
    /// Removes a handle, whether it runs or is done (curl_multi_remove_handle(3)). Its queued work and its unread ending are
    /// dropped; what still runs stays in the queue, and the endings whose messages still wait stay. It always finds
    /// room.
    ///
    /// # Refusals
    ///
    /// The first that applies, in this order; each changes nothing, here and in the log:
    ///
    /// - `NotAdded`: the handle isn't added, which is no fault;
    /// - `OutOfMemory`: the log refused the event.
    pub fn remove<L: Log>(&mut self, log: &mut L, who: Who, handle: HandleId) -> RemoveReply
        requires { is_maker who ≡ true }
        ensures called { Called L.events L.name L.may_refuse who (Call.Remove handle) self.old self.new log.old log.new (reply_of_remove result) }
        ensures origins { self.new.origins ≡ self.old.origins }
        ensures queue { self.new.queue ≡ still_running self.new.journal self.old.queue }
        ensures endings { self.new.endings ≡ still_waiting self.new.journal self.old.endings }
        ensures own { AreOwn O.origin self.old.origins self.old.endings → AreOwn O.origin self.new.origins self.new.endings }
    {
        let Some(row) = self.table.row_of_handle(handle) else {
            return RemoveReply::NotAdded;
        };
        let event = Event {
            who,
            what: What::Removed(handle, row.ticket),
        };
        if log.append(event).is_err() {
            return RemoveReply::OutOfMemory;
        }
        enter(self.history, &mut self.journal, &mut self.table, event);
        drop_ticket(&mut self.queue, row.ticket);
        drop_ticket(&mut self.endings, row.ticket);
        RemoveReply::Removed
    }

    /// Pauses a handle's transfer (curl_easy_pause(3)). Queued work stays in its place.
    ///
    /// # Refusals
    ///
    /// The first that applies, in this order; each changes nothing, here and in the log:
    ///
    /// - `NotAdded`: the handle isn't added;
    /// - `NotRunning`: its transfer ended;
    /// - `NoChange`: it is paused, which is no fault;
    /// - `HistoryFull`: there is no room for an event beside those so far and those that are due;
    /// - `OutOfMemory`: the log refused the event.
    pub fn pause<L: Log>(&mut self, log: &mut L, who: Who, handle: HandleId) -> PauseReply
        requires { is_maker who ≡ true }
        ensures called { Called L.events L.name L.may_refuse who (Call.Pause handle) self.old self.new log.old log.new (reply_of_pause result) }
        ensures origins { self.new.origins ≡ self.old.origins }
        ensures queue { self.new.queue ≡ self.old.queue }
        ensures endings { self.new.endings ≡ self.old.endings }
    {
        self.turn(log, who, handle, true)
    }

    /// Resumes a handle's transfer (curl_easy_pause(3)).
    ///
    /// # Refusals
    ///
    /// The first that applies, in this order; each changes nothing, here and in the log:
    ///
    /// - `NotAdded`: the handle isn't added;
    /// - `NotRunning`: its transfer ended;
    /// - `NoChange`: it isn't paused, which is no fault;
    /// - `HistoryFull`: there is no room for an event beside those so far and those that are due;
    /// - `OutOfMemory`: the log refused the event.
    pub fn unpause<L: Log>(&mut self, log: &mut L, who: Who, handle: HandleId) -> PauseReply
        requires { is_maker who ≡ true }
        ensures called { Called L.events L.name L.may_refuse who (Call.Unpause handle) self.old self.new log.old log.new (reply_of_pause result) }
        ensures origins { self.new.origins ≡ self.old.origins }
        ensures queue { self.new.queue ≡ self.old.queue }
        ensures endings { self.new.endings ≡ self.old.endings }
    {
        self.turn(log, who, handle, false)
    }

    // Pauses a handle's transfer, or resumes it.
    fn turn<L: Log>(&mut self, log: &mut L, who: Who, handle: HandleId, pauses: bool) -> PauseReply
        requires { is_maker who ≡ true }
        ensures called { Called L.events L.name L.may_refuse who (pausing_call pauses handle) self.old self.new log.old log.new (reply_of_pause result) }
        ensures origins { self.new.origins ≡ self.old.origins }
        ensures queue { self.new.queue ≡ self.old.queue }
        ensures endings { self.new.endings ≡ self.old.endings }
    {
        let Some(row) = self.table.row_of_handle(handle) else {
            return PauseReply::NotAdded;
        };
        if !row.phase.is_open() {
            return PauseReply::NotRunning;
        }
        if row.phase.is_paused() == pauses {
            return PauseReply::NoChange;
        }
        let what = if pauses {
            What::Paused(row.ticket)
        } else {
            What::Resumed(row.ticket)
        };
        self.append_pausing(log, Event { who, what })
    }

    // rule core-tickets
    // The number of the next ticket: one more than the greatest that was given, in older history too.
    fn next(&self) -> u32
        ensures { result ≡ (next_ticket self.now.opening self.now.journal).0 }
    {
        greater(u64::from(self.first), self.table.beyond()) as u32
    }

    // rule core-room
    // Whether there is room for so many events beside those so far and those that are due.
    fn has_room(&self, more: u32) -> bool
        requires { more ≤ 4 }
        ensures { result ≡ has_room self.now.opening.history self.now.journal more }
    {
        self.journal.len() as u32 + self.table.due() + more <= self.history
    }

    // rule core-room
    // Writes a pause or a resumption that may follow, where it has room: for each call whose answer that is.
    fn append_pausing<L: Log>(&mut self, log: &mut L, event: Event) -> PauseReply
        requires maker { is_maker event.who ≡ true }
        requires may { may_follow self.old.journal event.what ≡ true }
        requires kind { is_pausing event.what ≡ true }
        ensures called { (call : Call) → answer self.old.opening self.old.journal call ≡ answer_with_room (has_room self.old.opening.history self.old.journal 1) event.what → Called L.events L.name L.may_refuse event.who call self.old self.new log.old log.new (reply_of_pause result) }
        ensures origins { self.new.origins ≡ self.old.origins }
        ensures queue { self.new.queue ≡ self.old.queue }
        ensures endings { self.new.endings ≡ self.old.endings }
    {
        if !self.has_room(1) {
            return PauseReply::HistoryFull;
        }
        if log.append(event).is_err() {
            return PauseReply::OutOfMemory;
        }
        enter(self.history, &mut self.journal, &mut self.table, event);
        PauseReply::Changed
    }

    /// Reads the message that has waited longest, takes its ending out, and says how many are left
    /// (curl_multi_info_read(3)). The handle stays added. It always finds room.
    ///
    /// # Refusals
    ///
    /// The first that applies, in this order; each changes nothing, here and in the log:
    ///
    /// - `Empty`: no message waits, which is no fault;
    /// - `OutOfMemory`: the log refused the event; the message waits on.
    pub fn info_read<L: Log>(&mut self, log: &mut L, who: Who) -> InfoReply<O>
        requires { is_maker who ≡ true }
        ensures called { Called L.events L.name L.may_refuse who Call.InfoRead self.old self.new log.old log.new (reply_of_info O.code_of O.size_of result) }
        ensures origins { self.new.origins ≡ self.old.origins }
        ensures queue { self.new.queue ≡ self.old.queue }
        ensures endings { self.old.endings ≡ ending_read result ++ self.new.endings }
        ensures own { AreOwn O.origin self.old.origins self.old.endings → AreOwn O.origin self.new.origins self.new.endings × AreOwn O.origin self.old.origins (ending_read result) }
    {
        let Some(row) = self.oldest() else {
            return InfoReply::Empty;
        };
        let event = Event {
            who,
            what: What::Read(row.ticket),
        };
        if log.append(event).is_err() {
            return InfoReply::OutOfMemory;
        }
        enter(self.history, &mut self.journal, &mut self.table, event);
        let (_, ending) = self.endings.remove(0);
        let left = self.endings.len() as u32;
        InfoReply::Message {
            handle: row.handle,
            ticket: row.ticket,
            ending,
            left,
        }
    }

    // rule core-messages
    // The addition whose message has waited longest. None where no message waits.
    fn oldest(&self) -> Option<Row>
        ensures none { IfNone result (self.now.endings ≡ []) }
        ensures ticket { IfSome result (λ row. slice_get (queued self.now.endings) 0 ≡ Some row.ticket) }
        ensures handle { IfSome result (λ row. handle_of row.ticket self.now.journal ≡ Some row.handle) }
    {
        let first = self.endings.first()?;
        self.table.row_of_ticket(first.0)
    }

    /// Lets polls that wait return (curl_multi_wakeup(3)).
    ///
    /// # Refusals
    ///
    /// The first that applies, in this order; each changes nothing, here and in the log:
    ///
    /// - `Failure`: there is no room for an event beside those so far and those that are due;
    /// - `OutOfMemory`: the log refused the event.
    pub fn wakeup<L: Log>(&mut self, log: &mut L, who: Who) -> WakeupReply
        requires { is_maker who ≡ true }
        ensures called { Called L.events L.name L.may_refuse who Call.Wakeup self.old self.new log.old log.new (reply_of_wakeup result) }
        ensures origins { self.new.origins ≡ self.old.origins }
        ensures queue { self.new.queue ≡ self.old.queue }
        ensures endings { self.new.endings ≡ self.old.endings }
    {
        if !self.has_room(1) {
            return WakeupReply::Failure;
        }
        let event = Event {
            who,
            what: What::Wake,
        };
        if log.append(event).is_err() {
            return WakeupReply::OutOfMemory;
        }
        enter(self.history, &mut self.journal, &mut self.table, event);
        WakeupReply::Ok
    }

    // rule core-stale-completion
    /// Records the end of a claimed transfer: its message waits after those that wait (curl_multi_info_read(3)). The claim
    /// is spent, and one claim less is out. It always finds room.
    ///
    /// # Refusals
    ///
    /// The first that applies, in this order; each changes nothing, here and in the log:
    ///
    /// - `Stale`: the claimed addition was removed, or has ended; the ending is handed back, the claim is spent, one claim
    ///   less is out, and nothing else changes;
    /// - `OutOfMemory`: the log refused the event; claim and ending are handed back, and nothing changes.
    pub fn finish<L: Log>(
        &mut self,
        log: &mut L,
        who: Who,
        claim: Claim<Q>,
        ending: O,
    ) -> FinishReply<Claim<Q>, O>
        requires maker { is_maker who ≡ true }
        requires origin { O.origin ending ≡ claim.origin }
        ensures called { Called L.events L.name L.may_refuse who (Call.Finish claim.ticket (O.code_of ending) (O.size_of ending)) self.old self.new log.old log.new (reply_of_finish result) }
        ensures origins { self.new.origins ≡ self.old.origins }
        ensures queue { self.new.queue ≡ still_running self.new.journal self.old.queue }
        ensures endings { self.new.endings ≡ still_waiting self.new.journal self.old.endings ++ ending_recorded result claim.ticket ending }
        ensures back { IsHandedBack claim ending result }
        ensures own { AreOwn O.origin self.old.origins self.old.endings → origin_of claim.ticket self.old.origins ≡ Some claim.origin → AreOwn O.origin self.new.origins self.new.endings }
    {
        let ticket = claim.ticket();
        if !self.runs(&claim) {
            self.out = self.out.saturating_sub(1);
            return FinishReply::Stale(ending);
        }
        let event = Event {
            who,
            what: What::Done(ticket, ending.code(), ending.size()),
        };
        if log.append(event).is_err() {
            return FinishReply::OutOfMemory(claim, ending);
        }
        enter(self.history, &mut self.journal, &mut self.table, event);
        drop_ticket(&mut self.queue, ticket);
        self.endings.push_reserved((ticket, ending));
        self.out = self.out.saturating_sub(1);
        FinishReply::Recorded
    }

    /// Takes the work of the lowest ticket in the queue, paused or not; the ticket is then claimed, and one claim more is
    /// out, of which 2^64 - 1 are counted at most. None where the queue is empty. It makes no event.
    pub fn claim(&mut self) -> Option<(Claim<Q>, Q)>
        ensures opening { self.new.opening ≡ self.old.opening }
        ensures origins { self.new.origins ≡ self.old.origins }
        ensures journal { self.new.journal ≡ self.old.journal }
        ensures endings { self.new.endings ≡ self.old.endings }
        ensures out { MatchOption result (self.new.out ≡ self.old.out) (λ _. self.new.out ≡ one_out self.old.out) }
        ensures none { IfNone result ((self.old.queue ≡ []) × (self.new.queue ≡ [])) }
        ensures some { IfSome result (λ r. self.old.queue ≡ (r.0.ticket, r.1) ∷ self.new.queue) }
        ensures least { IfSome result (λ r. AllByRecursion (λ t. r.0.ticket.0 ≤ t.0) (queued self.old.queue)) }
        ensures claimed { IfSome result (λ r. has_ticket r.0.ticket (claimed self.new.journal self.new.queue) ≡ true) }
        ensures origin { IfSome result (λ r. r.0.origin ≡ Q.origin r.1) }
        ensures own { IfSome result (λ r. origin_of r.0.ticket self.new.origins ≡ Some r.0.origin) }
        ensures handle { IfSome result (λ r. handle_of r.0.ticket self.old.journal ≡ Some r.0.handle) }
        ensures slot { IfSome result (λ r. slot_of r.0.ticket self.old.journal ≡ Some r.0.slot) }
    {
        if self.queue.is_empty() {
            return None;
        }
        let (ticket, work) = self.queue.remove(0);
        let Some(row) = self.table.row_of_ticket(ticket) else {
            unreachable!()
        };
        self.out = self.out.saturating_add(1);
        let claim = Claim::of(row.handle, ticket, row.slot, &work);
        Some((claim, work))
    }

    // rule core-requeued-work
    /// Puts claimed work back into the queue, to the place of its ticket; one claim less is out. It makes no event, and needs no memory,
    /// since its place was kept.
    ///
    /// # Refusals
    ///
    /// `Stale`: the claimed addition was removed, or has ended, or its work is queued. The work is handed back, the claim is
    /// spent, one claim less is out, and nothing else changes.
    pub fn give_back(&mut self, claim: Claim<Q>, work: Q) -> GiveBackReply<Q>
        requires origin { Q.origin work ≡ claim.origin }
        ensures opening { self.new.opening ≡ self.old.opening }
        ensures journal { self.new.journal ≡ self.old.journal }
        ensures endings { self.new.endings ≡ self.old.endings }
        ensures back { is_back result ≡ has_ticket claim.ticket (claimed self.old.journal self.old.queue) }
        ensures queue { self.new.queue ≡ queue_given result self.old.queue claim.ticket work }
        ensures handed { IsGivenBack work result }
        ensures out { self.new.out ≡ self.old.out - 1 }
        ensures unchanged { is_back result ≡ false → self.new ≡ with_out (self.old.out - 1) self.old }
        ensures origins { self.new.origins ≡ origins_given result self.old.origins claim.ticket claim.origin }
        ensures same { origin_of claim.ticket self.old.origins ≡ Some claim.origin → self.new.origins ≡ self.old.origins }
        ensures own { AreOwn O.origin self.old.origins self.old.endings → AreOwn O.origin self.new.origins self.new.endings }
    {
        let ticket = claim.ticket();
        let is_claimed = self.is_claimed(&claim);
        self.out = self.out.saturating_sub(1);
        if !is_claimed {
            return GiveBackReply::Stale(work);
        }
        self.origins.set(ticket, &work);
        insert_ticket(&mut self.queue, ticket, work);
        GiveBackReply::Back
    }

    // Whether the claimed addition runs and its work isn't queued.
    fn is_claimed(&self, claim: &Claim<Q>) -> bool
        ensures { result ≡ has_ticket claim.now.ticket (claimed self.now.journal self.now.queue) }
    {
        self.runs(claim) && !has_ticket(&self.queue, claim.ticket())
    }

    // rule core-stale-completion
    // Whether the claimed addition runs: its handle may have been removed, and added anew.
    fn runs(&self, claim: &Claim<Q>) -> bool
        ensures { result ≡ has_ticket claim.now.ticket (running self.now.journal) }
    {
        let Some(row) = self.table.row_of_ticket(claim.ticket()) else {
            return false;
        };
        row.phase.is_open()
    }

    /// A law: work that is given back right after its claim is where it was, first in the queue.
    pub fn give_back_undoes_claim()
        ensures { GiveBackUndoesClaim Q }
    {}

    // rule core-poll
    /// Whether an event at or after the mark lets a poll return.
    pub fn poll_ready(&self, since: u32) -> bool
        ensures { result ≡ is_ready since self.now.journal }
    {
        self.table.is_ready(since)
    }

    /// The event at a place of the journal.
    pub fn event(&self, index: u32) -> Option<Event>
        ensures { result ≡ slice_get self.now.journal index }
    {
        self.journal.get(index as usize).copied()
    }

    /// The ticket from which on additions are numbered.
    pub fn first(&self) -> u32
        ensures { result ≡ self.now.opening.first }
    {
        self.first
    }

    /// How many events the journal has.
    pub fn len(&self) -> u32
        ensures { result ≡ length self.now.journal }
    {
        self.table.len()
    }

    /// The handles that are added, in the order of their addition.
    pub fn handles(&self) -> AddedHandles
        ensures { result ≡ map (λ a. a.handle) (added self.now.journal) }
    {
        self.table.handles()
    }

    /// The tickets whose message waits to be read, in the order of their ends.
    pub fn waiting(&self) -> &[Ticket]
        ensures { result.now ≡ map (λ m. m.ticket) (waiting self.now.journal) }
    {
        self.table.waiting()
    }

    /// How many transfers run, paused ones too.
    pub fn running(&self) -> u32
        ensures { result ≡ length (running self.now.journal) }
    {
        self.table.running()
    }

    /// The state of a handle.
    pub fn state(&self, handle: HandleId) -> State
        ensures { result ≡ state_of handle self.now.journal }
    {
        self.table.state(handle)
    }

    /// What a worker sees of a ticket.
    pub fn look(&self, ticket: Ticket) -> Look
        ensures { result ≡ look_of ticket self.now.journal }
    {
        self.table.look(ticket)
    }

    /// How many events the maker made since the last retiring, or since the beginning where there was none.
    pub fn made(&self, who: Who) -> u32
        requires { is_maker who ≡ true }
        ensures { result ≡ made_by who (drop self.now.opening.from self.now.journal) }
    {
        self.table.made(who) - self.before.get(who)
    }

    /// What retiring would keep: the events of the tickets that are added, in order.
    ///
    /// # Errors
    ///
    /// `OutOfMemory` where the space for them is refused.
    pub fn kept(&self, alloc: Global) -> Result<Vec<Event>, OutOfMemory>
        ensures { IfOk result (λ v. v.items ≡ retire self.now.journal) }
    {
        kept_of(alloc, &self.journal, &self.table)
    }

    /// Whether a claim is out, so that `retire` would be refused: one was made that hasn't come back, by `finish`, recorded
    /// or stale, or by `give_back`. Where each claim comes back to the control state that made it, that is exact.
    pub fn claim_out(&self) -> bool
        ensures { result ≡ nat_lt 0 self.now.out }
    {
        self.out > 0
    }

    // rule core-retire-claims
    /// Retires old history: of the journal it keeps the events of the tickets that are added, in order, and says how many they
    /// are. Handles, work and endings stay as they were, and so does the next ticket; makers' events are counted from there. It makes no
    /// event, and needs no memory.
    ///
    /// # Refusals
    ///
    /// `ClaimOut`: a claim is out (`claim_out`). Nothing changes.
    pub fn retire(&mut self) -> RetireReply
        ensures retired { IsRetiring self.old result self.new }
        ensures next { next_ticket self.new.opening self.new.journal ≡ next_ticket self.old.opening self.old.journal }
    {
        if self.claim_out() {
            return RetireReply::ClaimOut;
        }
        RetireReply::Retired(self.retire_beside_claims())
    }

    /// Retires old history as `retire` does, whether a claim is out or not, for who makes all calls on one thread. It says how many events are
    /// kept.
    pub fn retire_beside_claims(&mut self) -> u32
        ensures retired { self.new ≡ retired self.old }
        ensures kept { result ≡ length self.new.journal }
        ensures next { next_ticket self.new.opening self.new.journal ≡ next_ticket self.old.opening self.old.journal }
    {
        let first = self.next();
        keep_the_added(self.history, &mut self.journal, &mut self.table);
        self.before = self.table.makers();
        self.first = first;
        self.from = self.table.len();
        self.from
    }
}

// Writes an event that may follow into the journal and the table.
fn enter(history: u32, journal: &mut Vec<Event>, table: &mut Table, event: Event)
    requires kept { HasRoomForDue history journal.old.items }
    requires tabled { IsTabled history journal.old.items table.old (vec_capacity journal.old) }
    requires may { may_follow journal.old.items event.what ≡ true }
    requires room { has_room history journal.old.items (needs event.what) ≡ true }
    ensures items { journal.new.items ≡ journal.old.items ++ event ∷ [] }
    ensures tabled { IsTabled history journal.new.items table.new (vec_capacity journal.new) }
{
    table.apply(event);
    journal.push_reserved(event);
}

//! What one maker has seen of the journal, and its reads of the published versions.
ghost use Rattle.std.specs.Prelude.{◌≡◌, ◌++◌, ◌∷◌, ◌≤◌, [], true, length, map, slice_get, IfSome, MatchOption};
ghost use Rattle.std.specs.Option.{option_to_list};
ghost use mathlib.Core.List.{IsPrefix};
ghost use Rattle.left_right.specs.Sides.{view};
ghost use Rattle.mx_append_log.specs.Log.{DecidesBeginning};
ghost use Rattle.mx_history.specs.History.{added, is_maker, made_by, running};
ghost use Rattle.mx_history.specs.Answers.{look_of, state_of};
ghost use Rattle.mx_board.specs.Board.{AreOfOneJournal, ConfirmsAllButLast, IsFound, OneBeginsOther, Reads, caught_up, confirmed_of, mark_of};
ghost use Rattle.mx_board.specs.Published.{CaughtUp, Shown, view_of};

use crate::journal::JournalMark;
use crate::queries::{Find, Found, Handles, LookAt, Query, Running, StateOf};
use crate::same::same_event;
use crate::version::{CatchesUp, VersionReader};
use crate::writer::BoardWriter;
use mx_types::{AddedHandles, Event, HandleId, Look, State, Ticket, Who};
use std::marker::Model;
use std::sync::Wait;

/// A maker's reader of the published versions. Contracts see the maker, the events that it has seen, of which journal, and
/// how many of these are confirmed: by a place in the journal, and not by a read alone.
///
/// A read answers by a published version that begins with all that the reader has seen, and it has then seen that version.
/// It takes no lock and no memory, and waits for nobody. It answers None, and nothing changes, where the board is
/// closed, where the reader found no free place when it caught up, and where the version has an event of its maker that the
/// reader hasn't seen: after its own event a maker catches up before it reads.
///
/// No clause says when None comes, or that an answer is of a newer version than the one that the reader has seen.
pub struct BoardReader {
    place: Option<VersionReader>,
    mark: JournalMark,
    /// The event after the mark, which only a read has shown.
    unconfirmed: Option<Event>,
    who: Who,
    made: u32,
    cut: u32,
}

// Written out, and not derived: a crate that drops a reader cites its proof.
impl Drop for BoardReader {
    fn drop(self) {
        let BoardReader {
            place,
            mark,
            unconfirmed: _,
            who: _,
            made: _,
            cut: _,
        } = self;
        drop(place);
        drop(mark);
    }
}

impl Model for BoardReader {
    ghost use Rattle.std.specs.Prelude.{◌≡◌, ◌++◌, length, IfSome, true};
    ghost use Rattle.std.specs.Option.{option_to_list};
    ghost use Rattle.mx_history.specs.History.{is_maker, made_by};
    ghost use Rattle.mx_board.specs.Board.{ReaderState, mark_of};
    ghost use Rattle.mx_board.specs.Published.{HasSeen};

    ghost Value = { ReaderState };

    ghost view = { λ r. record { who = r.who; seen = r.mark.entries ++ option_to_list r.unconfirmed; book = r.mark.book; confirmed = length r.mark.entries } };

    ghost invariant = { λ r. IfSome r.place (λ x. HasSeen (mark_of (r.mark.entries ++ option_to_list r.unconfirmed) r.mark.book) x.place.me.0.client) × (r.made ≡ made_by r.who (r.mark.entries ++ option_to_list r.unconfirmed)) × (is_maker r.who ≡ true) × (r.cut ≡ length (r.mark.entries ++ option_to_list r.unconfirmed)) };
}

/// What a version shows: the answer, how many events the reader's maker made, how many there are, and the journal.
#[derive(Drop)]
struct VersionReading<A: Drop> {
    answer: A,
    made: u32,
    cut: u32,
    mark: JournalMark,
    last: Option<Event>,
}

// Asks the version that was published last, which begins with all that the place has seen.
fn look<Q: Query>(
    place: VersionReader,
    query: &Q,
    who: Who,
) -> (VersionReader, Option<VersionReading<Q::Answer>>)
    requires { is_maker who ≡ true }
    ensures { MatchOption result.1 (view result.0.place ≡ view place.place) (λ f. (x : Shown) × (x.1 ≡ mark_of (f.mark.entries ++ option_to_list f.last) f.mark.book) × CaughtUp (view place.place) x (view result.0.place) × Q.is_answer query.now x.1.entries f.answer × (f.made ≡ made_by who x.1.entries) × (f.cut ≡ length x.1.entries)) }
{
    match place.enter_as::<CatchesUp>() {
        Ok(entered) => {
            let version = entered.get();
            let answer = query.ask(version.table());
            let made = version.table().made(who);
            let cut = version.table().len();
            let (mark, last) = version.journal();
            let reading = VersionReading {
                answer,
                made,
                cut,
                mark,
                last,
            };
            (entered.leave(), Some(reading))
        }
        Err(place) => (place, None),
    }
}

// Whether the event follows the mark in the journal.
fn stands_next(event: Event, next: Option<Event>, mark: &JournalMark, all: &JournalMark) -> bool
    requires next { next ≡ slice_get all.now.entries (length mark.now.entries) }
    requires begins { IsPrefix mark.now.entries all.now.entries }
    ensures { DecidesBeginning result (mark.now.entries ++ event ∷ []) all.now.entries }
{
    // proof: what holds of both marks
    let _ = mark;
    let _ = all;
    match next {
        Some(there) => {
            if same_event(there, event) {
                return true;
            }
            false
        }
        None => false,
    }
}

impl BoardReader {
    /// Whose reader it is.
    pub fn who(&self) -> Who
        ensures is { result ≡ self.now.who }
        ensures maker { is_maker result ≡ true }
    {
        // proof: what holds of a reader
        let _ = &self.mark;
        self.who
    }

    /// How many events it has seen.
    pub fn cut(&self) -> u32
        ensures { result ≡ length self.now.seen }
    {
        self.cut
    }

    /// How many of these its maker made.
    pub fn made(&self) -> u32
        ensures { result ≡ made_by self.now.who self.now.seen }
    {
        self.made
    }

    /// How many of these are confirmed: all, or all but the last.
    pub fn confirmed(&self) -> u64
        ensures is { result ≡ self.now.confirmed }
        ensures but_last { ConfirmsAllButLast self.now }
    {
        // proof: what holds of a reader
        let _ = &self.unconfirmed;
        self.mark.len()
    }

    /// Whether the journal of `all` begins with what the reader has seen. `next` is its event after those that are
    /// confirmed.
    pub fn is_behind(&self, all: &JournalMark, next: Option<Event>) -> bool
        requires book { self.now.book ≡ all.now.book }
        requires next { next ≡ slice_get all.now.entries self.now.confirmed }
        ensures { DecidesBeginning result self.now.seen all.now.entries }
    {
        if all.reaches(&self.mark) {
            return match self.unconfirmed {
                None => true,
                Some(event) => stands_next(event, next, &self.mark, all),
            };
        }
        false
    }

    // rule board-reads
    // rule board-own-events
    // A read. Where it finds nothing new, what is confirmed stays so.
    fn ask<Q: Query>(&mut self, query: &Q) -> Option<Q::Answer>
        ensures { MatchOption result (self.new ≡ self.old) (λ a. Reads self.old self.new × Q.is_answer query.now self.new.seen a) }
    {
        let Some(place) = self.place.take() else {
            return None;
        };
        let (place, reading) = look(place, query, self.who);
        self.place = Some(place);
        let Some(reading) = reading else {
            return None;
        };
        let VersionReading {
            answer,
            made,
            cut,
            mark,
            last,
        } = reading;
        if made != self.made {
            return None;
        }
        if cut == self.cut {
            return Some(answer);
        }
        self.mark = mark;
        self.unconfirmed = last;
        self.cut = cut;
        Some(answer)
    }

    /// The added handles, in the order of their additions (curl_multi_get_handles(3)).
    pub fn handles(&mut self) -> Option<AddedHandles>
        ensures { MatchOption result (self.new ≡ self.old) (λ a. Reads self.old self.new × (a ≡ map (λ x. x.handle) (added self.new.seen))) }
    {
        self.ask(&Handles)
    }

    /// How many transfers run, paused ones too (curl_multi_perform(3)).
    pub fn running(&mut self) -> Option<u32>
        ensures { MatchOption result (self.new ≡ self.old) (λ a. Reads self.old self.new × (a ≡ length (running self.new.seen))) }
    {
        self.ask(&Running)
    }

    /// The state of a handle.
    pub fn state(&mut self, handle: HandleId) -> Option<State>
        ensures { MatchOption result (self.new ≡ self.old) (λ a. Reads self.old self.new × (a ≡ state_of handle self.new.seen)) }
    {
        self.ask(&StateOf(handle))
    }

    /// What a worker sees of a ticket.
    pub fn look(&mut self, ticket: Ticket) -> Option<Look>
        ensures { MatchOption result (self.new ≡ self.old) (λ a. Reads self.old self.new × (a ≡ look_of ticket self.new.seen)) }
    {
        self.ask(&LookAt(ticket))
    }

    /// Where a handle is found: the ticket and the slot of its addition, or None where it isn't added.
    pub fn find(&mut self, handle: HandleId) -> Option<Option<Found>>
        ensures { MatchOption result (self.new ≡ self.old) (λ a. Reads self.old self.new × IsFound handle self.new.seen a) }
    {
        self.ask(&Find(handle))
    }

    // rule board-catch-up
    /// Sees all that is published, and all of it is confirmed. It keeps its place where there was nothing new; else it gives
    /// it up and takes another, so that a board with as many places as readers has one for each. Where none is free,
    /// reads answer None until the reader catches up again.
    pub fn catch_up(&mut self, board: &mut BoardWriter)
        requires published { board.old.published ≡ board.old.events }
        requires book { self.old.book ≡ board.old.book }
        requires later { IsPrefix self.old.seen board.old.events }
        ensures same { board.new ≡ board.old }
        ensures is { self.new ≡ caught_up self.old.who board.old.events board.old.book }
    {
        if self.place.is_some() && board.cut() == self.cut {
            self.mark = board.mark();
            self.unconfirmed = None;
            return;
        }
        self.place = None;
        let place = board.place();
        *self = at_place(place, board, self.who);
    }
}

// A reader of all that is published, at a place that has seen it.
fn at_place(place: Option<VersionReader>, board: &BoardWriter, who: Who) -> BoardReader
    requires published { board.now.published ≡ board.now.events }
    requires maker { is_maker who ≡ true }
    requires place { IfSome place (λ r. view r.place ≡ view_of (mark_of board.now.published board.now.book)) }
    ensures { result ≡ caught_up who board.now.events board.now.book }
{
    BoardReader {
        place,
        mark: board.mark(),
        unconfirmed: None,
        who,
        made: board.made(who),
        cut: board.cut(),
    }
}

impl BoardWriter {
    /// A reader for a maker, which has seen all that is published. None where every place for a reader is in use.
    pub fn reader(&mut self, who: Who) -> Option<BoardReader>
        requires published { self.old.published ≡ self.old.events }
        requires maker { is_maker who ≡ true }
        ensures same { self.new ≡ self.old }
        ensures is { IfSome result (λ r. r ≡ caught_up who self.old.events self.old.book) }
    {
        let place = self.place()?;
        Some(at_place(Some(place), self, who))
    }

    // rule board-confirmed
    /// What is confirmed of what a reader of this board has seen are the first events of the board. It looks at the journal's length once,
    /// and would wait for ever where that had become longer elsewhere, which nothing does.
    pub fn covers<R: Wait>(&self, rt: &R, reader: &BoardReader)
        requires { reader.now.book ≡ self.now.book }
        ensures { IsPrefix (confirmed_of reader.now) self.now.events }
    {
        self.covers_mark(rt, &reader.mark)
    }
}

/// Of what two readers of one journal have seen, but for the last event of each, one is a prefix of the other. For what is confirmed this
/// holds for the last events, too.
pub fn are_of_one_journal(one: &BoardReader, two: &BoardReader)
    requires { one.now.book ≡ two.now.book }
    ensures seen { AreOfOneJournal one.now.seen two.now.seen }
    ensures confirmed { OneBeginsOther (confirmed_of one.now) (confirmed_of two.now) }
{
    one.mark.reaches(&two.mark);
}

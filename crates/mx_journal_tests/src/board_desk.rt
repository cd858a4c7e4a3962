//! A board beside the list of its events.
ghost use Rattle.std.specs.Prelude.{◌≡◌, ◌<◌, [], true, IfOk, IfSome, OnOk, length};
ghost use Rattle.mx_history.specs.History.{is_legal, is_maker};

use mx_board::{BoardReader, BoardWriter, board, board_of};
use mx_history::{Log, VecLog, definitions};
use mx_types::{Event, OutOfMemory, Who};
use std::alloc::Global;
use std::marker::Model;
use std::sync::Wait;

/// A board of legal events, made again where memory was refused; and whether it was.
pub fn board_again<R: Wait>(
    rt: &R,
    alloc: Global,
    events: &[Event],
) -> Result<(BoardWriter, bool), OutOfMemory>
    requires legal { is_legal events.now ≡ true }
    requires few { length events.now < 4294967295 }
    ensures { IfOk result (λ r. (r.0.events ≡ events.now) × (r.0.published ≡ events.now)) }
{
    if let Ok(board) = board_of(rt, alloc, 1, events) {
        return Ok((board, false));
    }
    Ok((board_of(rt, alloc, 1, events)?, true))
}

// An empty board for two readers, made again where memory was refused; and whether it was.
fn two_places<R: Wait>(rt: &R, alloc: Global) -> Result<(BoardWriter, bool), OutOfMemory>
    ensures { IfOk result (λ r. (r.0.events ≡ []) × (r.0.published ≡ [])) }
{
    if let Ok(board) = board(rt, alloc, 2) {
        return Ok((board, false));
    }
    Ok((board(rt, alloc, 2)?, true))
}

/// The board, whose events are all published, and the list of them; until an event is refused.
#[derive(Drop)]
pub struct Desk {
    list: VecLog,
    board: BoardWriter,
    is_whole: bool,
}

impl Model for Desk {
    ghost use Rattle.std.specs.Prelude.{◌≡◌, true};
    ghost use Rattle.mx_board.specs.Board.{BoardState};

    ghost Value = { BoardState };

    ghost view = { λ d. d.board };

    ghost invariant = { λ d. d.is_whole ≡ true → (d.list ≡ d.board.events) × (d.board.published ≡ d.board.events) };
}

// Appends an event to the list and to the board, and publishes it. It is refused where memory is, and where the event may not follow.
fn publish<R: Wait>(
    rt: &R,
    alloc: Global,
    list: &mut VecLog,
    board: &mut BoardWriter,
    event: Event,
) -> Result<(), OutOfMemory>
    requires { list.old ≡ board.old.events }
    ensures same { board.new.book ≡ board.old.book }
    ensures whole { OnOk result ((list.new ≡ board.new.events) × (board.new.published ≡ board.new.events)) }
{
    list.append(event)?;
    board.append(event)?;
    if !definitions::is_legal(alloc, list.events())? {
        return Err(OutOfMemory);
    }
    board.publish(rt);
    Ok(())
}

impl Desk {
    /// A desk of a new board, which is made again where memory was refused; and whether it was.
    pub fn new<R: Wait>(rt: &R, alloc: Global) -> Result<(Desk, bool), OutOfMemory> {
        let (board, is_refused) = two_places(rt, alloc)?;
        let list = VecLog::new(alloc);
        Ok((
            Desk {
                list,
                board,
                is_whole: true,
            },
            is_refused,
        ))
    }

    /// Appends an event and publishes it. It is refused where memory is, where the event may not follow, and after a refusal.
    pub fn tell<R: Wait>(&mut self, rt: &R, alloc: Global, event: Event) -> Result<(), OutOfMemory>
        ensures { self.new.book ≡ self.old.book }
    {
        if !self.is_whole {
            return Err(OutOfMemory);
        }
        self.is_whole = false;
        publish(rt, alloc, &mut self.list, &mut self.board, event)?;
        self.is_whole = true;
        Ok(())
    }

    /// A reader for a maker. None where every place for a reader is in use, and after a refusal.
    pub fn reader(&mut self, who: Who) -> Option<BoardReader>
        requires { is_maker who ≡ true }
        ensures same { self.new ≡ self.old }
        ensures book { IfSome result (λ r. r.book ≡ self.old.book) }
    {
        if !self.is_whole {
            return None;
        }
        self.board.reader(who)
    }

    /// The reader sees all that is published, where its events are the first of these.
    pub fn inform(&mut self, reader: &mut BoardReader) -> bool
        requires { reader.old.book ≡ self.old.book }
        ensures same { self.new ≡ self.old }
        ensures book { reader.new.book ≡ reader.old.book }
    {
        if !self.is_whole {
            return false;
        }
        let next = self.list.events().get(reader.confirmed() as usize).copied();
        if reader.is_behind(&self.board.mark(), next) {
            reader.catch_up(&mut self.board);
            return true;
        }
        false
    }

    /// Closes the board: how many events were published last.
    pub fn close<R: Wait>(self, rt: &R) -> u32 {
        let Desk { board, .. } = self;
        board.close(rt).len()
    }
}

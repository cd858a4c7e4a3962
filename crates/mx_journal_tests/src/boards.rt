//! What readers of a board see, by worked examples, on one thread and on three.
ghost use Rattle.std.specs.Prelude.{◌≡◌};
ghost use Rattle.std.specs.Option.{ForSome};

use crate::board_desk::{Desk, board_again};
use mx_board::{BoardReader, BoardWriter, Found};
use mx_history::definitions;
use mx_types::{Code, Event, HandleId, Look, OutOfMemory, State, Ticket, What, Who};
use std::alloc::Global;
use std::sync::Wait;
use std::sync::atomic::{AtomicBool, Ordering};
use std::thread::{Threads, for_each_mut};

/// What a reader answers.
#[derive(Clone, Copy)]
enum Told {
    Handles(&'static [HandleId]),
    /// How many events it has seen, how many of these are confirmed, and how many its maker made.
    Seen(u32, u64, u32),
    Running(Option<u32>),
    State(HandleId, State),
    Look(Ticket, Look),
    Find(HandleId, Option<Found>),
}

// Whether the reader answers this.
fn is_told(reader: &mut BoardReader, told: Told) -> bool
    ensures { reader.new.book ≡ reader.old.book }
{
    match told {
        Told::Handles(list) => match reader.handles() {
            Some(handles) => handles.as_slice() == list,
            None => false,
        },
        Told::Seen(cut, confirmed, made) => {
            reader.cut() == cut && reader.confirmed() == confirmed && reader.made() == made
        }
        Told::Running(count) => reader.running() == count,
        Told::State(handle, state) => reader.state(handle) == Some(state),
        Told::Look(ticket, look) => reader.look(ticket) == Some(look),
        Told::Find(handle, found) => reader.find(handle) == Some(found),
    }
}

// Whether the reader answers nothing.
fn is_silent(reader: BoardReader) -> bool {
    let mut reader = reader;
    reader.running().is_none()
}

/// What is done at a desk, and with the first of its readers, or the second.
#[derive(Clone, Copy)]
enum Step {
    /// There is no place for a reader more.
    Full,
    /// An event is told.
    Tell(Event),
    InformFirst,
    InformSecond,
    /// The first reader answers this.
    First(Told),
    Second(Told),
}

/// A desk with its readers.
#[derive(Drop)]
struct Readers {
    desk: Desk,
    first: BoardReader,
    second: Option<BoardReader>,
    ghost own: { (first.book ≡ desk.book) × ForSome second (λ r. r.book ≡ desk.book) },
}

impl Readers {
    // A reader for the first seat, and one for the second, if there is to be one.
    fn at(desk: Desk, are_two: bool) -> Option<Readers> {
        let mut desk = desk;
        let first = desk.reader(Who::Seat(0))?;
        let second = if are_two {
            desk.reader(Who::Seat(1))
        } else {
            None
        };
        Some(Readers {
            desk,
            first,
            second,
        })
    }

    // Whether the second reader is there, and is informed.
    fn inform_second(&mut self) -> bool {
        match &mut self.second {
            Some(reader) => self.desk.inform(reader),
            None => false,
        }
    }

    // Whether the second reader is there, and answers this.
    fn is_told_second(&mut self, told: Told) -> bool {
        match &mut self.second {
            Some(reader) => is_told(reader, told),
            None => false,
        }
    }

    // Takes a step: whether it is as it should be.
    fn take<R: Wait>(&mut self, rt: &R, alloc: Global, step: Step) -> Result<bool, OutOfMemory> {
        match step {
            Step::Full => Ok(self.desk.reader(Who::Seat(2)).is_none()),
            Step::Tell(event) => {
                self.desk.tell(rt, alloc, event)?;
                Ok(true)
            }
            Step::InformFirst => Ok(self.desk.inform(&mut self.first)),
            Step::InformSecond => Ok(self.inform_second()),
            Step::First(told) => Ok(is_told(&mut self.first, told)),
            Step::Second(told) => Ok(self.is_told_second(told)),
        }
    }

    // Takes all steps: whether each is as it should be.
    fn take_all<R: Wait>(
        &mut self,
        rt: &R,
        alloc: Global,
        steps: &[Step],
    ) -> Result<bool, OutOfMemory> {
        for step in steps {
            if !self.take(rt, alloc, *step)? {
                return Ok(false);
            }
        }
        Ok(true)
    }

    // Closes the board: how many events were published last. None where a reader answers then.
    fn close<R: Wait>(self, rt: &R) -> Option<u32> {
        let Readers {
            desk,
            first,
            second,
        } = self;
        let closed = desk.close(rt);
        let is_silent_first = is_silent(first);
        let is_silent_second = match second {
            Some(reader) => is_silent(reader),
            None => true,
        };
        (is_silent_first && is_silent_second).then_some(closed)
    }
}

// Takes all steps, and closes the board, which has published so many events then.
fn play_at<R: Wait>(
    rt: &R,
    alloc: Global,
    readers: Readers,
    steps: &[Step],
    events: u32,
) -> Result<bool, OutOfMemory> {
    let mut readers = readers;
    let played = readers.take_all(rt, alloc, steps);
    let closed = readers.close(rt);
    Ok(played? && closed == Some(events))
}

// The same of a new desk, with one reader or two: whether all is as it should be, and whether memory was refused.
fn play<R: Wait>(
    rt: &R,
    alloc: Global,
    are_two: bool,
    steps: &[Step],
    events: u32,
) -> Result<(bool, bool), OutOfMemory> {
    let (desk, is_refused) = Desk::new(rt, alloc)?;
    match Readers::at(desk, are_two) {
        Some(readers) => Ok((play_at(rt, alloc, readers, steps, events)?, is_refused)),
        None => Ok((false, is_refused)),
    }
}

/// Two seats add a handle each, there being no place for a third reader, and their readers are informed. Then each reader answers both
/// handles, and the first one what it knows of them, and of what isn't added. A read that finds nothing new leaves all confirmed.
static TWO_SEATS: [Step; 16] = [
    Step::Full,
    Step::Tell(Event {
        who: Who::Seat(0),
        what: What::Added(HandleId(1), Ticket(0)),
    }),
    Step::InformFirst,
    Step::Tell(Event {
        who: Who::Seat(1),
        what: What::Added(HandleId(2), Ticket(1)),
    }),
    Step::InformSecond,
    Step::First(Told::Handles(&[HandleId(1), HandleId(2)])),
    Step::First(Told::Seen(2, 1, 1)),
    Step::First(Told::Running(Some(2))),
    Step::First(Told::State(HandleId(2), State::Running(Ticket(1)))),
    Step::First(Told::State(HandleId(9), State::NotAdded)),
    Step::First(Told::Look(Ticket(1), Look::Go)),
    Step::First(Told::Look(Ticket(2), Look::Gone)),
    Step::First(Told::Find(
        HandleId(2),
        Some(Found {
            ticket: Ticket(1),
            slot: 1,
        }),
    )),
    Step::First(Told::Find(HandleId(9), None)),
    Step::Second(Told::Running(Some(2))),
    Step::Second(Told::Seen(2, 2, 1)),
];

/// Two seats add a handle each, and see both: whether all is as it should be, and whether memory was refused.
pub fn two_seats<R: Wait>(rt: &R, alloc: Global) -> Result<(bool, bool), OutOfMemory> {
    play(rt, alloc, true, &TWO_SEATS, 2)
}

/// A seat adds a handle: what its reader answers before it is informed of that and after.
static OWN_EVENT: [Step; 6] = [
    Step::Tell(Event {
        who: Who::Seat(0),
        what: What::Added(HandleId(1), Ticket(0)),
    }),
    Step::First(Told::Running(None)),
    Step::First(Told::Seen(0, 0, 0)),
    Step::InformFirst,
    Step::First(Told::Running(Some(1))),
    Step::First(Told::Seen(1, 1, 1)),
];

/// A reader waits for the event of its own seat: whether all is as it should be, and whether memory was refused.
pub fn own_event<R: Wait>(rt: &R, alloc: Global) -> Result<(bool, bool), OutOfMemory> {
    play(rt, alloc, false, &OWN_EVENT, 1)
}

/// How many handles are added while two readers read.
const ADDED: u32 = 60;

// Adds that many handles, each under its own ticket.
fn add_each<R: Wait>(rt: &R, alloc: Global, desk: &mut Desk) -> Result<(), OutOfMemory> {
    for n in 0..ADDED {
        let event = Event {
            who: Who::Worker(0),
            what: What::Added(HandleId(n), Ticket(n)),
        };
        desk.tell(rt, alloc, event)?;
    }
    Ok(())
}

// Reads until so many handles are added. Whether each read showed as many handles as the reader had then seen events, and no fewer than the
// one before.
fn read_all(reader: &mut BoardReader, ended: &AtomicBool) -> bool {
    let mut before = 0;
    for _ in 0..200000000 {
        let last = ended.load(Ordering::SeqCst);
        let Some(running) = reader.running() else {
            return false;
        };
        if running != reader.cut() || running < before {
            return false;
        }
        if running >= ADDED || last {
            return running == ADDED;
        }
        before = running;
    }
    false
}

/// What a thread does: it adds, or it reads; not where there was no place for its reader.
#[derive(Drop)]
enum Role {
    Adds(Desk),
    Reads(Option<BoardReader>),
}

/// A thread's part, and whether it came as it should.
#[derive(Drop)]
struct Part {
    role: Role,
    is_so: bool,
}

impl Part {
    fn new(role: Role) -> Part {
        Part { role, is_so: false }
    }

    // Plays it; the adder signals the readers that it has ended.
    fn play<R: Wait>(&mut self, rt: &R, alloc: Global, ended: &AtomicBool) {
        self.is_so = match &mut self.role {
            Role::Adds(desk) => {
                let added = add_each(rt, alloc, desk);
                ended.store(true, Ordering::SeqCst);
                added.is_ok()
            }
            Role::Reads(Some(reader)) => read_all(reader, ended),
            Role::Reads(None) => false,
        };
    }

    // Ends it, and closes the board: whether it came as it should.
    fn end<R: Wait>(self, rt: &R) -> bool {
        let Part { role, is_so } = self;
        match role {
            Role::Adds(desk) => is_so & (desk.close(rt) == ADDED),
            Role::Reads(reader) => {
                drop(reader);
                is_so
            }
        }
    }
}

// The parts of three threads: one adds, and two read.
fn parts_of<R: Wait>(rt: &R, alloc: Global) -> Result<Vec<Part>, OutOfMemory> {
    let (mut desk, _) = Desk::new(rt, alloc)?;
    let first = desk.reader(Who::Seat(0));
    let second = desk.reader(Who::Seat(1));
    Ok(vec![in alloc;
        Part::new(Role::Reads(first)),
        Part::new(Role::Reads(second)),
        Part::new(Role::Adds(desk)),
    ]?)
}

// Plays them at the same time: whether all is as it should be.
fn play_parts<R: Threads + Wait + Sync>(rt: &R, alloc: Global, parts: &mut Vec<Part>) -> bool {
    let ended = AtomicBool::new(false);
    for_each_mut(
        rt,
        parts.as_mut_slice(),
        3,
        &|_: usize, part: &mut Part| { part.play(rt, alloc, &ended) },
    );
    let mut is_so = parts.len() == 3;
    for _ in 0..3 {
        if let Some(part) = parts.pop() {
            is_so = part.end(rt) & is_so;
        }
    }
    is_so
}

/// Two threads read what a third adds: whether all is as it should be.
pub fn three_threads<R: Threads + Wait + Sync>(rt: &R, alloc: Global) -> Result<bool, OutOfMemory> {
    let mut parts = parts_of(rt, alloc)?;
    let is_so = play_parts(rt, alloc, &mut parts);
    drop(parts);
    Ok(is_so)
}

// A seat's addition, which ended, and another's, whose ticket isn't the next number.
static KEPT: [Event; 3] = [
    Event {
        who: Who::Seat(0),
        what: What::Added(HandleId(1), Ticket(4)),
    },
    Event {
        who: Who::Worker(0),
        what: What::Done(Ticket(4), Code::Ok, 5),
    },
    Event {
        who: Who::Seat(1),
        what: What::Added(HandleId(2), Ticket(7)),
    },
];

/// A new reader has seen all of it, confirmed, and with it the events of its maker.
static KEPT_IS_SEEN: [Told; 4] = [
    Told::Seen(3, 3, 1),
    Told::State(HandleId(1), State::Done(Ticket(4), Code::Ok)),
    Told::State(HandleId(2), State::Running(Ticket(7))),
    Told::Running(Some(1)),
];

// Whether the reader answers all of these.
fn are_told(reader: &mut BoardReader, all: &[Told]) -> bool {
    for told in all {
        if !is_told(reader, *told) {
            return false;
        }
    }
    true
}

// Whether a new reader of this board answers so, and the table is that of these events.
fn read_kept<R: Wait>(rt: &R, mut board: BoardWriter) -> bool
    requires { board.published ≡ board.events }
{
    let Some(mut reader) = board.reader(Who::Seat(1)) else {
        return false;
    };
    let are_told = are_told(&mut reader, &KEPT_IS_SEEN);
    drop(reader);
    let published = board.close(rt);
    are_told && published.len() == 3 && published.beyond() == 8
}

/// A history that was kept is read as it is: whether all is as it should be, and whether memory was refused.
pub fn kept<R: Wait>(rt: &R, alloc: Global) -> Result<(bool, bool), OutOfMemory> {
    if !definitions::is_legal(alloc, &KEPT)? {
        return Ok((false, false));
    }
    let (board, is_refused) = board_again(rt, alloc, &KEPT)?;
    Ok((read_kept(rt, board), is_refused))
}

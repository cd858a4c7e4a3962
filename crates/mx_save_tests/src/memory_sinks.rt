//! A sink in memory, and an outlet to one.
ghost use Rattle.std.specs.Prelude.{◌≡◌, ◌<◌, ◌&&◌, [], length, nat_lt, Some, None};

use crate::sink_bodies::{body_of, give, is_same, none_of};
use mx_sink::{Delivery, Held, MemorySink, Outlet, Sink, SinkError, Window};
use mx_types::OutOfMemory;
use std::alloc::Global;
use std::test::Fail;

// A body of 10 bytes that is given to a sink which takes this many.
struct MemorySinkRow {
    name: &'static str,
    most: usize,
    piece: usize,
    taken: usize,
    has_room: bool,
}

static ROWS: [MemorySinkRow; 6] = [
    MemorySinkRow {
        name: "more than the body",
        most: 11,
        piece: 3,
        taken: 10,
        has_room: true,
    },
    MemorySinkRow {
        name: "the very body",
        most: 10,
        piece: 1,
        taken: 10,
        has_room: false,
    },
    MemorySinkRow {
        name: "the very body, in one piece",
        most: 10,
        piece: 10,
        taken: 10,
        has_room: false,
    },
    MemorySinkRow {
        name: "it ends within a piece",
        most: 8,
        piece: 3,
        taken: 8,
        has_room: false,
    },
    MemorySinkRow {
        name: "it ends with a piece",
        most: 6,
        piece: 3,
        taken: 6,
        has_room: false,
    },
    MemorySinkRow {
        name: "it takes none",
        most: 0,
        piece: 3,
        taken: 0,
        has_room: false,
    },
];

// Whether a sink takes what its row says, and has that.
fn is_right(alloc: Global, body: &[u8], row: &MemorySinkRow) -> bool {
    let mut sink = MemorySink::new(alloc, row.most);
    let (taken, error) = give(&mut sink, body, row.piece.max(1));
    let has_room = sink.has_room();
    let held = sink.into_bytes();
    error.is_none()
        && has_room == row.has_room
        && taken == row.taken
        && taken <= body.len()
        && is_same(held.as_slice(), &body[..taken])
}

// The first row in which it takes something else.
fn wrong_of_rows(alloc: Global) -> Result<Option<&'static str>, OutOfMemory> {
    let body = body_of(alloc, 10)?;
    for row in ROWS.iter() {
        if !is_right(alloc, body.as_slice(), row) {
            return Ok(Some(row.name));
        }
    }
    Ok(None)
}

#[test]
fn a_sink_in_memory_takes_as_many_bytes_as_it_may(rt: HostRuntime) -> Result<(), Fail> {
    assert!(rt; SinkError::WriteError.code().number() == 23);
    assert!(rt; SinkError::OutOfMemory.code().number() == 27);
    none_of(wrong_of_rows(rt.alloc()))
}

// A sink in memory that first has room at one look, takes at most four bytes at a time, and fails at one call.
#[derive(Drop)]
struct ShortSink {
    sink: MemorySink,
    looks: u64,
    opens_at: u64,
    calls: u64,
    fails_at: u64,
    error: SinkError,
}

impl Sink for ShortSink {
    ghost got = { λ s. s.sink.got };

    ghost room = { λ s. nat_lt s.opens_at s.looks && nat_lt (length s.sink.got) s.sink.most };

    ghost target = { λ s. [] };

    fn has_room(&mut self) -> bool {
        self.looks = self.looks.saturating_add(1);
        self.looks > self.opens_at && self.sink.has_room()
    }

    fn put(&mut self, bytes: &[u8]) -> Result<usize, SinkError> {
        let call = self.calls;
        self.calls = call.saturating_add(1);
        if call == self.fails_at {
            return Err(self.error);
        }
        self.sink.put(&bytes[..bytes.len().min(4)])
    }
}

// Content of 10 bytes that is handed to an outlet in pieces of one length, until that makes no room twice in a row: how many bytes the sink may
// take, at which look it first has room, which of its calls fails and why, whether the outlet ever made no room, how many bytes were handed,
// got and left at the end, and whether the outlet makes room then.
struct Handing {
    name: &'static str,
    most: usize,
    opens_at: u64,
    fails_at: u64,
    error: SinkError,
    piece: usize,
    paused: bool,
    handed: usize,
    got: usize,
    left: usize,
    is_ready: bool,
}

const WHOLE: Handing = Handing {
    name: "more room than content",
    most: 11,
    opens_at: 0,
    fails_at: u64::MAX,
    error: SinkError::WriteError,
    piece: 3,
    paused: false,
    handed: 10,
    got: 10,
    left: 0,
    is_ready: true,
};

static HANDINGS: [Handing; 8] = [
    WHOLE,
    Handing {
        name: "room at the third look",
        opens_at: 2,
        paused: true,
        ..WHOLE
    },
    Handing {
        name: "room for the very content, in one piece",
        most: 10,
        piece: 10,
        paused: true,
        is_ready: false,
        ..WHOLE
    },
    Handing {
        name: "room ends within a piece",
        most: 8,
        paused: true,
        handed: 9,
        got: 8,
        left: 1,
        is_ready: false,
        ..WHOLE
    },
    Handing {
        name: "room ends with a piece",
        most: 6,
        paused: true,
        handed: 6,
        got: 6,
        is_ready: false,
        ..WHOLE
    },
    Handing {
        name: "no room",
        most: 0,
        paused: true,
        handed: 3,
        got: 0,
        left: 3,
        is_ready: false,
        ..WHOLE
    },
    Handing {
        name: "the third call fails",
        fails_at: 2,
        piece: 10,
        paused: true,
        got: 8,
        left: 2,
        is_ready: false,
        ..WHOLE
    },
    Handing {
        name: "the first call lacks memory",
        fails_at: 0,
        error: SinkError::OutOfMemory,
        paused: true,
        handed: 3,
        got: 0,
        left: 3,
        is_ready: false,
        ..WHOLE
    },
];

// Hands content to an outlet, piece by piece, until that makes no room twice in a row: how many bytes it was handed, and whether it ever made
// no room.
fn hand<D: Delivery>(
    alloc: Global,
    outlet: &mut D,
    body: &[u8],
    piece: usize,
) -> Result<(usize, bool), OutOfMemory>
    requires piece { 0 < piece }
    requires none_left { D.left outlet.old ≡ [] }
    requires flows { D.flows outlet.old ≡ Some None }
{
    let mut content = Window::new(alloc);
    let mut handed = 0;
    let mut paused = false;
    while handed < body.len() {
        let rest = &body[handed..];
        let rest = &rest[..piece.min(rest.len())];
        let mut bytes = Vec::new(alloc);
        bytes.extend_from_slice(rest)?;
        content.put_back(bytes, rest.len());
        outlet.take(&mut content);
        handed += rest.len();
        if !outlet.make_room() {
            paused = true;
            if !outlet.make_room() {
                break;
            }
        }
    }
    Ok((handed, paused))
}

// Whether an outlet tells what its row says, and asks its sink for nothing more.
fn is_told(outlet: &mut Outlet<ShortSink>, row: &Handing) -> bool {
    let failure = match row.fails_at {
        u64::MAX => None,
        _ => Some(row.error),
    };
    let calls = outlet.sink().calls;
    let is_ready = outlet.make_room();
    is_ready == row.is_ready
        && outlet.sink().calls == calls
        && outlet.count() == row.handed as u64
        && outlet.left().len() == row.left
        && outlet.failure() == failure
        && outlet.fault() == failure.map(SinkError::code)
        && outlet.most_bytes() == Some(None)
}

// Whether a sink got what its row says, and the rest of what was handed is left.
fn is_parted(sink: ShortSink, left: &[u8], body: &[u8], row: &Handing) -> bool {
    let got = sink.sink.into_bytes();
    row.handed <= body.len()
        && row.got <= row.handed
        && is_same(got.as_slice(), &body[..row.got])
        && is_same(left, &body[row.got..row.handed])
}

// Whether an outlet does what its row says.
fn is_handed(alloc: Global, body: &[u8], row: &Handing) -> Result<bool, OutOfMemory> {
    let sink = ShortSink {
        sink: MemorySink::new(alloc, row.most),
        looks: 0,
        opens_at: row.opens_at,
        calls: 0,
        fails_at: row.fails_at,
        error: row.error,
    };
    let mut outlet = Outlet::new(alloc, sink, None);
    let handed = hand(alloc, &mut outlet, body, row.piece.max(1));
    let told = is_told(&mut outlet, row);
    let (sink, left) = outlet.into_parts();
    let parted = is_parted(sink, left.as_slice(), body, row);
    let (handed, paused) = handed?;
    Ok(handed == row.handed && paused == row.paused && told && parted)
}

// The first row in which an outlet does something else.
fn wrong_of_handings(alloc: Global) -> Result<Option<&'static str>, OutOfMemory> {
    let body = body_of(alloc, 10)?;
    for row in HANDINGS.iter() {
        if !is_handed(alloc, body.as_slice(), row)? {
            return Ok(Some(row.name));
        }
    }
    Ok(None)
}

#[test]
fn an_outlet_hands_on_what_its_sink_takes_and_keeps_the_rest(rt: HostRuntime) -> Result<(), Fail> {
    none_of(wrong_of_handings(rt.alloc()))
}

// A held response hands nothing on, and never has to wait.
fn is_held<D: Delivery>(held: &mut D) -> bool {
    held.make_room() && held.most_bytes().is_none() && held.fault().is_none()
}

#[test]
fn a_held_response_hands_nothing_on(rt: HostRuntime) -> Result<(), Fail> {
    let mut held = Held;
    assert!(rt; is_held(&mut held));
    Ok(())
}

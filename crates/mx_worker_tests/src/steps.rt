//! What a row of the tables is made of.

use crate::messages::Wanted;
use mx_link::ScriptRead;
use mx_types::{Call, Code};

/// 43 bytes, of which the last five are the body.
pub const COUNTED: &[u8] = b"HTTP/1.1 200 OK\r\nContent-Length: 5\r\n\r\nhello";

/// What the gate answers where it is to open a link.
#[derive(Clone, Copy)]
pub enum Opening {
    /// A link that gives these pieces.
    Link(&'static [ScriptRead<'static>]),
    /// A link that gives these bytes one by one. They are more than a poll reads.
    ByteByByte(&'static [u8]),
    /// So many links, of which the next is opened a turn later than the one before: each gives `COUNTED` in the turn with this number,
    /// counted from 1, and nothing before.
    Late { links: u32, turn: u32 },
    /// No link, for this cause.
    Refused(Code),
}

/// A call of the application while a worker runs.
#[derive(Clone, Copy)]
pub enum Meanwhile {
    /// None.
    Nothing,
    /// This one, each time the gate opens a link.
    AtOpening(Call),
    /// This one, in each turn.
    InTurn(Call),
}

/// A worker's run over a gate of its own, on a seat that no worker had before.
#[derive(Clone, Copy)]
pub struct Run {
    /// How many turns of the gate answer `Continue`.
    pub turns: u32,
    /// What the gate answers where it is to open a link.
    pub links: &'static [Opening],
    /// How often the gate answers first that no link can be opened yet.
    pub delays: u32,
    /// How often the gate answers first that not too many files are open: once a turn, and once for each refusal.
    pub calm: u32,
    /// How often it then answers that they are.
    pub lacks: u32,
    /// The moments that the gate gives, in milliseconds; 0 where there is none.
    pub moments: &'static [u64],
    /// How many moments it gives after these: 0, 1 and so on.
    pub ticks: u64,
    /// What the application calls meanwhile.
    pub meanwhile: Meanwhile,
    /// How many ends the worker is to record.
    pub recorded: u32,
    /// How many of its ends are to be stale.
    pub stale: u32,
    /// How many transfers it is to give back.
    pub given_back: u32,
}

/// A worker with nothing to do, which is stopped at once.
pub const RUN: Run = Run {
    turns: 0,
    links: &[],
    delays: 0,
    calm: 0,
    lacks: 0,
    moments: &[],
    ticks: 0,
    meanwhile: Meanwhile::Nothing,
    recorded: 0,
    stale: 0,
    given_back: 0,
};

/// What a call is to answer that isn't an addition.
#[derive(Clone, Copy)]
pub enum Answer {
    Removed,
    NotAdded,
    Changed,
    NoChange,
    NotRunning,
    /// Of `State`: the ticket that is paused.
    Paused(u32),
    /// Of `State`: the ticket that has ended, and its code.
    Done(u32, Code),
    Running(u32),
    /// Of `Handles`: this one alone.
    Handle(u32),
}

/// A step of a row, with its expected result.
#[derive(Clone, Copy)]
pub enum Step {
    /// Adds a GET of the URL under a handle. It has so many milliseconds, and no deadline where these are 0.
    Add(u32, &'static str, u32),
    /// Adds a GET of the URL under a handle, which follows so many redirects at most.
    Follow(u32, &'static str, u8),
    /// Adds a GET of the URL under each handle from the first to the second.
    AddEach(u32, u32, &'static str),
    /// The same, and pauses each as it is added.
    AddPaused(u32, u32, &'static str),
    /// Makes a call, which is to have this answer.
    Make(Call, Answer),
    /// Runs a worker.
    Run(Run),
    /// Runs a worker over slow links that is stopped after as many turns as the row's number says, and another that takes over. They are to
    /// record so many ends together, and none stale.
    TakeOver(u32),
    /// Claims a transfer at a worker's seat, polls it at the moments 0 and 1, and records its end. The look at it is to say that it is
    /// paused, or that it isn't.
    ByHand(bool),
    /// Reads the progress of the handle's transfer: its ticket, and how many bytes came.
    Look(u32, u32, u32),
    /// How many of the links that the last gate had to open are left.
    LinksLeft(usize),
    /// The waits that the turns of the last gate were given, in milliseconds.
    Waits(&'static [u32]),
    /// Reads a message.
    Read(Wanted),
    /// Reads a message of each handle from the first to the second, in this order, with code 0 and this body.
    ReadEach(u32, u32, &'static [u8]),
    /// Reads a message of each of the eight handles from 0 on, in whatever order, with code 0 and this body.
    ReadAll(&'static [u8]),
}

/// A row: what is done at a multi handle of its own.
pub struct Scenario {
    pub name: &'static str,
    /// How many idle links its workers keep.
    pub keeps: u8,
    /// How often it is played: by the numbers from 0 on.
    pub times: u32,
    pub steps: &'static [Step],
}

//! A row: what a transfer is made of, the calls on it, and what is seen of it then.

use crate::replay::{Stop, are_so, verdict};
use crate::{delivering, flowing, flowing_hops, hops, redirects, table};
use futures::test::MockTask;
use mx_link::{ScriptRead, Write};
use mx_types::{Code, Method};
use std::alloc::Global;
use std::test::Fail;

/// A call on a transfer.
#[derive(Clone, Copy)]
pub(crate) enum Call<'a> {
    /// Hands over a link that was never in use, and that answers so.
    Fresh(&'a [ScriptRead<'a>], &'a [Write]),
    /// Hands over a link that was in use before, and that answers so.
    Reused(&'a [ScriptRead<'a>], &'a [Write]),
    /// Says that no link can be opened, as the lookup of the host failed.
    NoLink,
    /// Sets the moment in milliseconds, and whether the transfer is paused.
    Prepare(u64, bool),
    /// Polls once.
    Poll,
    /// Takes the links that it gives.
    TakeLinks,
}

/// Which link a transfer wants.
#[derive(Clone, Copy, PartialEq)]
pub(crate) enum Wanted {
    /// None.
    Nothing,
    /// One to this port, which may have been in use before.
    Any(u16),
    /// One that was never in use.
    Fresh,
}

/// What is seen of a transfer that has answered `Pending`.
#[derive(Clone, Copy, PartialEq)]
pub(crate) struct Waiting {
    /// It has asked to be polled again.
    pub asks: bool,
    /// The link that it wants.
    pub wants: Wanted,
    /// A link was attached once.
    pub started: bool,
    /// How many bytes its links gave.
    pub received: u32,
    /// The moment in milliseconds at which it ends unless it has ended before.
    pub deadline: Option<u64>,
}

/// What is seen of the links of a transfer.
#[derive(Clone, Copy, PartialEq)]
pub(crate) struct Links {
    /// The port where the link goes that was attached last.
    pub home: Option<u16>,
    /// The link that it wants.
    pub wants: Wanted,
    pub received: u32,
    pub code: Option<Code>,
    /// How many links it gives, asked for twice.
    pub given: u32,
}

/// What is seen of a hop.
#[derive(Clone, Copy)]
pub(crate) struct ExpectedHop<'a> {
    /// The bytes of its request.
    pub sent: &'a [u8],
    /// The bytes that its link gave.
    pub reply: &'a [u8],
    /// The heads of these.
    pub heads: &'a [u8],
    /// The status of these.
    pub status: u16,
}

/// What a transfer has ended with.
#[derive(Clone, Copy)]
pub(crate) enum Ends<'a> {
    /// It has not ended.
    Never,
    /// Its last hop has a response of these bytes, whose body is `hello`, and it gives so many links.
    Hello(&'a [u8], u32),
    /// This code, and the status and the bytes of its last hop, without a body. It gives one link.
    Bodiless(Code, u16, &'a [u8]),
    /// The same without a link.
    Failed(Code, u16, &'a [u8]),
}

/// What a transfer is made of, the calls on it, and what is then seen of it.
#[derive(Clone, Copy)]
pub(crate) struct Row<'a> {
    /// What it is about.
    pub name: &'static str,
    /// Each of them is tried.
    pub methods: &'static [Method],
    pub url: &'static str,
    /// The body of its request.
    pub body: Option<&'static [u8]>,
    /// The value of a field `cookie`.
    pub cookie: Option<&'static str>,
    /// It has no limit of time where this is 0.
    pub timeout_ms: u32,
    pub max_redirects: u8,
    /// No call is made after its end.
    pub calls: &'a [Call<'a>],
    /// Of each poll that answers `Pending`.
    pub waits: &'a [Waiting],
    /// Of each time that its links are taken, and that is at its end, too. Where this is empty it isn't compared.
    pub links: &'a [Links],
    pub ends: Ends<'a>,
    /// One more than redirects were followed.
    pub hops: usize,
    /// Each hop. Where this is empty it isn't compared.
    pub chain: &'a [ExpectedHop<'a>],
}

/// What a transfer has ended with, but for its hops.
#[derive(Clone, Copy)]
pub(crate) struct End<'a> {
    /// That of its outcome.
    pub code: Code,
    /// The status of the last hop's final head, 0 where none was read.
    pub status: u16,
    /// The bytes that the link of the last hop gave.
    pub wire: &'a [u8],
    /// The one part of its body; nothing where there is no part.
    pub body: Option<&'static [u8]>,
    /// How many links it gives, asked for twice.
    pub links: u32,
}

/// What the transfer of a row has ended with.
pub(crate) fn end_of(ends: Ends<'_>) -> Option<End<'_>> {
    let (code, status, wire, body, links) = match ends {
        Ends::Never => return None,
        Ends::Hello(wire, links) => (Code::Ok, 200, wire, Some(b"hello".as_slice()), links),
        Ends::Bodiless(code, status, wire) => (code, status, wire, None, 1),
        Ends::Failed(code, status, wire) => (code, status, wire, None, 0),
    };
    Some(End {
        code,
        status,
        wire,
        body,
        links,
    })
}

/// The proof of a function that names a table grows with the square of its rows, so the tables are short, and a function names a few.
fn play_all(alloc: Global, task: &MockTask) -> Result<(), Stop> {
    are_so(alloc, task, &table::rows())?;
    are_so(alloc, task, &hops::rows())?;
    are_so(alloc, task, &redirects::rows())?;
    flowing::are_so(alloc)?;
    flowing_hops::are_so(alloc)?;
    delivering::are_so(alloc, task)
}

#[test]
fn transfers_over_scripted_links(rt: HostRuntime) -> Result<(), Fail> {
    let task = MockTask::new(&rt)?;
    let played = play_all(rt.alloc(), &task);
    drop(task);
    verdict(rt.alloc(), played)
}

//! Gates over scripted links.

use crate::steps::{COUNTED, Opening, Run};
use crate::trouble::Trouble;
use mx_gate::ScriptGate;
use mx_link::{ScriptLink, ScriptRead};
use mx_types::{Code, OutOfMemory};
use std::alloc::{AllocError, Global};

/// How often a poll reads at most.
const MOST_READS: usize = 128;

// Plans that the gate opens a link that gives these pieces.
fn plan_link(
    gate: &mut ScriptGate<ScriptLink>,
    alloc: Global,
    reads: &[ScriptRead<'_>],
) -> Result<(), OutOfMemory> {
    let link = ScriptLink::new(alloc, reads, &[])?;
    match gate.plan_opening(Ok(link)) {
        Ok(()) => Ok(()),
        Err(_) => Err(OutOfMemory),
    }
}

// Plans that the gate refuses to open a link, with this code of the three that it may have.
fn plan_refusal(gate: &mut ScriptGate<ScriptLink>, code: Code) -> Result<(), OutOfMemory> {
    let code = match code {
        Code::CouldntResolveHost => Code::CouldntResolveHost,
        Code::OutOfMemory => Code::OutOfMemory,
        _ => Code::CouldntConnect,
    };
    match gate.plan_opening(Err(code)) {
        Ok(()) => Ok(()),
        Err(_) => Err(OutOfMemory),
    }
}

// These bytes one by one.
fn one_by_one(alloc: Global, bytes: &[u8]) -> Result<Vec<ScriptRead<'_>>, AllocError> {
    let mut reads = Vec::new(alloc);
    for i in 0..bytes.len() {
        reads.push(ScriptRead::Bytes(&bytes[i..i + 1]))?;
    }
    Ok(reads)
}

// An answer that nothing is there yet for each turn from the first to the last, and then a response.
fn late(alloc: Global, first: u32, last: u32) -> Result<Vec<ScriptRead<'static>>, AllocError> {
    let mut reads = Vec::new(alloc);
    for _ in first..last {
        reads.push(ScriptRead::WouldBlock)?;
    }
    reads.push(ScriptRead::Bytes(COUNTED))?;
    Ok(reads)
}

// Plans that the gate opens a link that gives these bytes one by one.
fn plan_bytes(
    gate: &mut ScriptGate<ScriptLink>,
    alloc: Global,
    bytes: &[u8],
) -> Result<(), Trouble> {
    if bytes.len() <= MOST_READS {
        return Err(Trouble::Wrong);
    }
    let reads = one_by_one(alloc, bytes)?;
    plan_link(gate, alloc, reads.as_slice())?;
    Ok(())
}

// Plans that the gate opens a link in each turn from 1 on, which gives its response in the turn `last`, and nothing before.
fn plan_late(
    gate: &mut ScriptGate<ScriptLink>,
    alloc: Global,
    links: u32,
    last: u32,
) -> Result<(), OutOfMemory> {
    for turn in 0..links {
        let reads = late(alloc, turn.saturating_add(1), last)?;
        plan_link(gate, alloc, reads.as_slice())?;
    }
    Ok(())
}

// Plans this answer of the gate where it is to open a link.
fn plan_opening(
    gate: &mut ScriptGate<ScriptLink>,
    alloc: Global,
    opening: Opening,
) -> Result<(), Trouble> {
    match opening {
        Opening::Link(reads) => plan_link(gate, alloc, reads)?,
        Opening::ByteByByte(bytes) => plan_bytes(gate, alloc, bytes)?,
        Opening::Late { links, turn } => plan_late(gate, alloc, links, turn)?,
        Opening::Refused(code) => plan_refusal(gate, code)?,
    }
    Ok(())
}

fn plan_openings(
    gate: &mut ScriptGate<ScriptLink>,
    alloc: Global,
    openings: &[Opening],
) -> Result<(), Trouble> {
    for opening in openings {
        plan_opening(gate, alloc, *opening)?;
    }
    Ok(())
}

// Plans that the gate gives these moments, and then so many from 0 on.
fn plan_moments(
    gate: &mut ScriptGate<ScriptLink>,
    moments: &[u64],
    ticks: u64,
) -> Result<(), OutOfMemory> {
    for moment in moments {
        gate.plan_moment(*moment)?;
    }
    for moment in 0..ticks {
        gate.plan_moment(moment)?;
    }
    Ok(())
}

// Plans that the gate answers so often that no link can be opened yet.
fn plan_delays(gate: &mut ScriptGate<ScriptLink>, delays: u32) -> Result<(), OutOfMemory> {
    for _ in 0..delays {
        gate.plan_ask(false)?;
    }
    Ok(())
}

// Plans that the gate answers so often that not too many files are open, and then so often that they are.
fn plan_lacks(gate: &mut ScriptGate<ScriptLink>, calm: u32, lacks: u32) -> Result<(), OutOfMemory> {
    for _ in 0..calm {
        gate.plan_lack(false)?;
    }
    for _ in 0..lacks {
        gate.plan_lack(true)?;
    }
    Ok(())
}

/// The gate of a run.
pub fn gate_of(alloc: Global, run: &Run) -> Result<ScriptGate<ScriptLink>, Trouble> {
    let mut gate = ScriptGate::new(alloc, run.turns);
    plan_openings(&mut gate, alloc, run.links)?;
    plan_moments(&mut gate, run.moments, run.ticks)?;
    plan_delays(&mut gate, run.delays)?;
    plan_lacks(&mut gate, run.calm, run.lacks)?;
    Ok(gate)
}

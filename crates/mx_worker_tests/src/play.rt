//! Plays rows, and says which one went otherwise.
ghost use Rattle.std.specs.Prelude.{◌≡◌, All};

use crate::messages::Wanted;
use crate::open::{ScriptParts, open};
use crate::stage::{Caller, SeatedWorker, Stage};
use crate::steps::{Answer, Run, Scenario, Step};
use crate::table::SLOW_RUN;
use crate::trouble::{Trouble, holds};
use mx_link::ScriptLink;
use mx_multi::{Multi, Seat, WorkerSeat};
use mx_transfer_core::Outcome;
use mx_types::{Call, Code, HandleId, OutOfMemory};
use mx_worker::Queued;
use std::alloc::AllocGlobal;
use std::sync::Wait;
use std::test::Fail;

/// What a test ends with in which a call was refused memory.
pub const AGAIN: &str = "memory was refused, and the call answered when it was made again";

/// How many handles a run has that is taken over.
const TRANSFERS: usize = 8;

impl<'r, 'm, R: Wait + AllocGlobal> Stage<'r, 'm, R> {
    // Adds a GET of the URL under each handle from the first to the last, and pauses each if it is to.
    fn add_each(
        &mut self,
        first: u32,
        last: u32,
        url: &str,
        is_paused: bool,
    ) -> Result<(), Trouble> {
        for handle in first..=last {
            self.add(handle, url, 0, 0)?;
            if is_paused {
                self.make(Call::Pause(HandleId(handle)), Answer::Changed)?;
            }
        }
        Ok(())
    }

    // Runs a worker, which is to end as the run says.
    fn run(&mut self, run: &Run) -> Result<(), Trouble> {
        let ran = self.work(run)?;
        let ended = (ran.recorded, ran.stale, ran.given_back);
        holds(ended == (run.recorded, run.stale, run.given_back))
    }

    // Runs a worker over slow links that is stopped after so many turns, and another that takes over.
    fn take_over(&mut self, turns: u32, total: u32) -> Result<(), Trouble> {
        let stopped = Run { turns, ..SLOW_RUN };
        let one = self.work(&stopped)?;
        let two = self.work(&SLOW_RUN)?;
        let recorded = one.recorded.saturating_add(two.recorded);
        holds((recorded, one.stale, two.stale) == (total, 0, 0))
    }

    // Reads a message of each handle from the first to the last, in this order.
    fn read_each(&mut self, first: u32, last: u32, body: &'static [u8]) -> Result<(), Trouble> {
        for handle in first..=last {
            self.read(Wanted::Of(handle, Code::Ok, body))?;
        }
        Ok(())
    }

    // Reads a message of each handle of a run that is taken over, in whatever order.
    fn read_all(&mut self, body: &'static [u8]) -> Result<(), Trouble> {
        let mut seen = [false; TRANSFERS];
        for _ in 0..TRANSFERS {
            let handle = self.read_handle(body)? as usize;
            if handle >= seen.len() || seen[handle] {
                return Err(Trouble::Wrong);
            }
            seen[handle] = true;
        }
        Ok(())
    }

    // Takes a step of a row's playing by this number.
    fn take_step(&mut self, number: u32, step: &Step) -> Result<(), Trouble> {
        match *step {
            Step::Add(handle, url, timeout_ms) => self.add(handle, url, timeout_ms, 0),
            Step::Follow(handle, url, max_redirects) => self.add(handle, url, 0, max_redirects),
            Step::AddEach(first, last, url) => self.add_each(first, last, url, false),
            Step::AddPaused(first, last, url) => self.add_each(first, last, url, true),
            Step::Make(call, answer) => self.make(call, answer),
            Step::Run(run) => self.run(&run),
            Step::TakeOver(total) => self.take_over(number, total),
            Step::ByHand(is_paused) => self.end_by_hand(is_paused),
            Step::Look(handle, ticket, bytes) => self.look(handle, ticket, bytes),
            Step::LinksLeft(count) => self.links_left(count),
            Step::Waits(waits) => self.waits(waits),
            Step::Read(wanted) => self.read(wanted),
            Step::ReadEach(first, last, body) => self.read_each(first, last, body),
            Step::ReadAll(body) => self.read_all(body),
        }
    }

    // Takes a row's steps, of which it counts each before it is taken.
    fn take_steps(&mut self, row: &Scenario, number: u32, taken: &mut u32) -> Result<(), Trouble> {
        for step in row.steps {
            *taken = taken.saturating_add(1);
            self.take_step(number, step)?;
        }
        Ok(())
    }
}

// Plays a row with these seats. It answers whether a call was refused memory, and answered when it was made again.
fn play_seated<'m, R: Wait + AllocGlobal>(
    rt: &R,
    seat: Caller<'m>,
    first: SeatedWorker<'m>,
    second: SeatedWorker<'m>,
    row: &Scenario,
    number: u32,
    taken: &mut u32,
) -> Result<bool, Trouble> {
    let workers = vec![in rt.alloc(); second, first]?;
    let mut stage = Stage::new(rt, seat, workers);
    let played = stage.take_steps(row, number, taken);
    let has_lacked = stage.has_lacked;
    drop(stage);
    played?;
    Ok(has_lacked)
}

// Plays a row at this multi handle.
fn play_at<R: Wait + AllocGlobal>(
    rt: &R,
    multi: &Multi<Queued<ScriptLink>, Outcome>,
    seat: Seat<Queued<ScriptLink>, Outcome>,
    workers: &mut Vec<WorkerSeat<Queued<ScriptLink>, Outcome>>,
    row: &Scenario,
    number: u32,
    taken: &mut u32,
) -> Result<bool, Trouble>
    requires seat { seat.of ≡ multi.now }
    requires workers { All (λ s. s.of ≡ multi.now) workers.old.items }
{
    match (workers.pop(), workers.pop()) {
        (Some(first), Some(second)) => {
            let (seat, first, second) = (multi.at(seat), multi.at(first), multi.at(second));
            play_seated(rt, seat, first, second, row, number, taken)
        }
        _ => {
            drop(seat);
            Err(Trouble::Wrong)
        }
    }
}

// Plays a row at the parts of a multi handle.
fn play_parts<R: Wait + AllocGlobal>(
    rt: &R,
    parts: ScriptParts,
    row: &Scenario,
    number: u32,
    taken: &mut u32,
) -> Result<bool, Trouble>
    requires seat { parts.seat.of ≡ parts.multi }
    requires workers { All (λ s. s.of ≡ parts.multi) parts.workers.items }
{
    let ScriptParts {
        multi,
        seat,
        mut workers,
    } = parts;
    let played = play_at(rt, multi.shared(), seat, &mut workers, row, number, taken);
    drop(workers);
    multi.close(rt);
    played
}

// Plays a row.
fn play<R: Wait + AllocGlobal>(
    rt: &R,
    row: &Scenario,
    number: u32,
    taken: &mut u32,
) -> Result<bool, Trouble> {
    let parts = open(rt, row.keeps)?;
    play_parts(rt, parts, row, number, taken)
}

// The error of a row in which something else came than should.
fn otherwise<R: AllocGlobal>(rt: &R, row: &Scenario, number: u32, taken: u32) -> Result<(), Fail> {
    let name = row.name;
    let said = format!(in rt.alloc();
        "row {name}, playing {number}, step {taken}: something else comes"
    )?;
    Err(said.into())
}

// Plays a row once more that was refused memory. It fails in any case, and reports the result.
fn play_again<R: Wait + AllocGlobal>(rt: &R, row: &Scenario, number: u32) -> Result<(), Fail> {
    let mut taken = 0;
    match play(rt, row, number, &mut taken) {
        Ok(false) => Err(AGAIN.into()),
        _ => otherwise(rt, row, number, taken),
    }
}

// Plays a row by this number, and once more where it was refused memory.
fn try_row<R: Wait + AllocGlobal>(rt: &R, row: &Scenario, number: u32) -> Result<(), Fail> {
    let mut taken = 0;
    match play(rt, row, number, &mut taken) {
        Ok(false) => Ok(()),
        Ok(true) | Err(Trouble::Refused) => play_again(rt, row, number),
        Err(Trouble::NoMemory) => Err(OutOfMemory.into()),
        Err(Trouble::Wrong) => otherwise(rt, row, number, taken),
    }
}

/// Plays these rows, each as often as it says. One in which a call was refused memory is played once more, and has to come as if nothing
/// had been refused; only then it fails by `AGAIN`. Without a refusal it passes.
pub fn try_rows<R: Wait + AllocGlobal>(rt: &R, rows: &[Scenario]) -> Result<(), Fail> {
    for row in rows {
        for number in 0..row.times {
            try_row(rt, row, number)?;
        }
    }
    Ok(())
}

//! Gates that follow a script: a row is what a gate is planned to answer, the calls of it, and what each answers.

use crate::outside::{endpoint, verdict};
use crate::{paced, ready};
use mx_gate::{Gate, ScriptGate, Turn};
use mx_link::{Link, ScriptLink};
use mx_request::Endpoint;
use mx_types::Code;
use std::alloc::Global;
use std::test::Fail;

/// A call of a gate, with what it is to answer.
#[derive(Clone, Copy)]
enum Step {
    /// It is planned to open a link.
    PlanLink,
    /// It is planned to refuse one, as its host is not known.
    PlanUnknownHost,
    /// A plan is refused memory.
    PlanNoMemory,
    PlanMoment(u64),
    /// It is planned to answer that too many files are open, or aren't.
    PlanLack(bool),
    /// How many planned openings are left.
    Left(usize),
    /// A link is opened whose token is 0.
    Opens,
    Refuses(Code),
    Now(u64),
    /// Whether too many files are open.
    Lacks(bool),
    /// A turn that waits so long.
    Turn(u32, Turn),
    /// How long the last turn was to wait.
    Waited(Option<u32>),
}

struct Row {
    name: &'static str,
    /// How many turns it has.
    turns: u32,
    steps: &'static [Step],
}

static ROWS: [Row; 4] = [
    // after the script's end it refuses
    Row {
        name: "a_script_is_answered_in_order",
        turns: 2,
        steps: &[
            Step::PlanLink,
            Step::PlanUnknownHost,
            Step::PlanNoMemory,
            Step::Left(3),
            Step::Opens,
            Step::Refuses(Code::CouldntResolveHost),
            Step::Refuses(Code::OutOfMemory),
            Step::Refuses(Code::CouldntConnect),
            Step::Left(0),
        ],
    },
    // where the script's moments fall, and after its end, the last moment comes again
    Row {
        name: "moments_never_fall",
        turns: 0,
        steps: &[
            Step::PlanMoment(5),
            Step::PlanMoment(3),
            Step::PlanMoment(9),
            Step::Now(5),
            Step::Now(5),
            Step::Now(9),
            Step::Now(9),
        ],
    },
    // rule gate-log
    Row {
        name: "files_are_lacking_by_the_script",
        turns: 0,
        steps: &[
            Step::Lacks(false),
            Step::PlanLack(true),
            Step::PlanLack(false),
            Step::PlanLack(true),
            Step::Lacks(true),
            Step::Lacks(false),
            Step::Lacks(true),
            Step::Lacks(false),
        ],
    },
    Row {
        name: "turns_stop_after_the_script",
        turns: 2,
        steps: &[
            Step::Waited(None),
            Step::Turn(20, Turn::Continue),
            Step::Turn(7, Turn::Continue),
            Step::Waited(Some(7)),
            Step::Turn(0, Turn::Stop),
            Step::Turn(0, Turn::Stop),
        ],
    },
];

/// The token of a link that is opened, and dropped.
fn opened(gate: &mut ScriptGate<ScriptLink>, there: &Endpoint) -> Result<u64, Code> {
    let link = gate.open(there)?;
    let token = link.token();
    drop(link);
    Ok(token)
}

/// Plans that a link is opened. False where memory is refused, here and below.
pub(crate) fn plan_link(alloc: Global, gate: &mut ScriptGate<ScriptLink>) -> bool {
    match ScriptLink::new(alloc, &[], &[]) {
        Ok(link) => gate.plan_opening(Ok(link)).is_ok(),
        Err(_) => false,
    }
}

/// Plans that none is, as its host is not known.
fn plan_unknown_host(gate: &mut ScriptGate<ScriptLink>) -> bool {
    gate.plan_opening(Err(Code::CouldntResolveHost)).is_ok()
}

/// Plans that none is, as memory is refused.
fn plan_no_memory(gate: &mut ScriptGate<ScriptLink>) -> bool {
    gate.plan_opening(Err(Code::OutOfMemory)).is_ok()
}

/// Plans that moment.
pub(crate) fn plan_moment(gate: &mut ScriptGate<ScriptLink>, moment: u64) -> bool {
    gate.plan_moment(moment).is_ok()
}

/// Plans what the step says.
fn plan(alloc: Global, gate: &mut ScriptGate<ScriptLink>, step: Step) -> bool {
    match step {
        Step::PlanLink => plan_link(alloc, gate),
        Step::PlanUnknownHost => plan_unknown_host(gate),
        Step::PlanNoMemory => plan_no_memory(gate),
        Step::PlanMoment(moment) => plan_moment(gate, moment),
        Step::PlanLack(lacks) => gate.plan_lack(lacks).is_ok(),
        _ => true,
    }
}

/// Whether a call answers so.
fn answers(gate: &mut ScriptGate<ScriptLink>, there: &Endpoint, step: Step) -> bool {
    match step {
        Step::Left(count) => gate.openings_left() == count,
        Step::Opens => opened(gate, there) == Ok(0),
        Step::Refuses(code) => opened(gate, there) == Err(code),
        Step::Lacks(lacks) => gate.lacks_files() == lacks,
        Step::Now(moment) => gate.now() == moment,
        Step::Turn(wait_ms, turn) => gate.turn(wait_ms) == turn,
        Step::Waited(wait_ms) => gate.last_wait() == wait_ms,
        _ => true,
    }
}

/// The place of the first step that answers otherwise, counted from 0.
fn first_wrong(
    alloc: Global,
    gate: &mut ScriptGate<ScriptLink>,
    there: &Endpoint,
    steps: &[Step],
) -> Option<usize> {
    for place in 0..steps.len() {
        if !plan(alloc, gate, steps[place]) || !answers(gate, there, steps[place]) {
            return Some(place);
        }
    }
    None
}

/// The same, of a new gate.
fn first_wrong_of(alloc: Global, there: &Endpoint, row: &Row) -> Option<usize> {
    let mut gate: ScriptGate<ScriptLink> = ScriptGate::new(alloc, row.turns);
    let wrong = first_wrong(alloc, &mut gate, there, row.steps);
    drop(gate);
    wrong
}

/// Fails with the first row of which a step answers otherwise.
fn are_there(alloc: Global, there: &Endpoint) -> Result<(), Fail> {
    for row in &ROWS {
        verdict(row.name, first_wrong_of(alloc, there, row))?;
    }
    Ok(())
}

/// The same, for an endpoint.
fn are_so(alloc: Global) -> Result<(), Fail> {
    let there = endpoint(alloc, "example.com", 80)?;
    are_there(alloc, &there)
}

/// The same, of all.
fn are_all_so(alloc: Global) -> Result<(), Fail> {
    if let Some(name) = paced::wrong_row(alloc) {
        return Err(name.into());
    }
    ready::are_so(alloc)?;
    are_so(alloc)
}

#[test]
fn gates_and_links_from_scripts(rt: HostRuntime) -> Result<(), Fail> {
    are_all_so(rt.alloc())
}

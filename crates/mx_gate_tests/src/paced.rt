//! A gate that opens a few links to an endpoint at a time: a row is the calls of it over a gate from a script, and what each answers.

use crate::outside::endpoint;
use crate::scripted::{plan_link, plan_moment};
use mx_gate::{Gate, ScriptGate, Turn};
use mx_link::ScriptLink;
use mx_named_gate::PacedGate;
use mx_request::Endpoint;
use std::alloc::Global;

/// A call of the gate, with what it is to answer.
#[derive(Clone, Copy)]
enum Step {
    Now(u64),
    /// Whether it can open a link to this host.
    Can(&'static str, bool),
    /// It can open so many to it, and does.
    Opens(&'static str, u32),
    Turn(u32),
}

struct Row {
    name: &'static str,
    steps: &'static [Step],
    /// How long the last turn of the gate within was to wait.
    waited: Option<u32>,
}

// rule gate-pace
static ROWS: [Row; 5] = [
    Row {
        name: "four_links_to_an_endpoint",
        steps: &[
            Step::Now(5),
            Step::Opens("a", 4),
            Step::Can("a", false),
            Step::Can("b", true),
            Step::Opens("b", 4),
            Step::Can("b", false),
            Step::Turn(20),
        ],
        waited: Some(2),
    },
    Row {
        name: "a_wait_of_two_milliseconds_and_four_more",
        steps: &[
            Step::Now(5),
            Step::Opens("a", 4),
            Step::Turn(20),
            Step::Now(6),
            Step::Can("a", false),
            Step::Turn(20),
            Step::Now(8),
            Step::Opens("a", 4),
            Step::Can("a", false),
            Step::Can("b", true),
            Step::Turn(1),
        ],
        waited: Some(1),
    },
    // sixteen milliseconds after the last four, with no wait
    Row {
        name: "time_that_passes_and_four_more",
        steps: &[
            Step::Now(20),
            Step::Opens("a", 4),
            Step::Now(35),
            Step::Can("a", false),
            Step::Now(36),
            Step::Opens("a", 4),
            Step::Can("a", false),
        ],
        waited: None,
    },
    Row {
        name: "a_wait_for_no_link",
        steps: &[Step::Now(5), Step::Opens("a", 4), Step::Turn(20)],
        waited: Some(20),
    },
    // the clock goes on between two turns, and not meanwhile
    Row {
        name: "work_is_no_wait",
        steps: &[
            Step::Now(5),
            Step::Opens("a", 4),
            Step::Turn(0),
            Step::Now(5),
            Step::Now(9),
            Step::Can("a", false),
        ],
        waited: Some(0),
    },
];

// Plans that so many links are opened. False where memory is refused, here and below.
fn plan_links(alloc: Global, gate: &mut ScriptGate<ScriptLink>, count: u32) -> bool {
    let mut all = true;
    for _ in 0..count {
        all = plan_link(alloc, gate) & all;
    }
    all
}

// Plans what the gate within is to answer for these steps.
fn plan(alloc: Global, gate: &mut ScriptGate<ScriptLink>, steps: &[Step]) -> bool {
    let mut all = true;
    for step in steps {
        let is_planned = match *step {
            Step::Now(moment) => plan_moment(gate, moment),
            Step::Opens(_, count) => plan_links(alloc, gate, count),
            _ => true,
        };
        all = is_planned & all;
    }
    all
}

// Whether the gate can open a link to the endpoint, and does.
fn opens_to<G: Gate>(gate: &mut G, there: &Endpoint) -> bool {
    gate.can_open(there) && gate.open(there).is_ok()
}

// Whether it can open a link to this host, or can't, as said; and does where that is asked for.
fn can<G: Gate>(alloc: Global, gate: &mut G, host: &str, is_opened: bool, said: bool) -> bool {
    let Ok(there) = endpoint(alloc, host, 80) else {
        return false;
    };
    let can = if is_opened {
        opens_to(gate, &there)
    } else {
        gate.can_open(&there)
    };
    drop(there);
    can == said
}

// Whether it can open so many, and does.
fn opens<G: Gate>(alloc: Global, gate: &mut G, host: &str, count: u32) -> bool {
    let mut all = true;
    for _ in 0..count {
        all = can(alloc, gate, host, true, true) & all;
    }
    all
}

// Takes the step: whether it answers so.
fn is_so<G: Gate>(alloc: Global, gate: &mut G, step: Step) -> bool {
    match step {
        Step::Now(moment) => gate.now() == moment,
        Step::Can(host, said) => can(alloc, gate, host, false, said),
        Step::Opens(host, count) => opens(alloc, gate, host, count),
        Step::Turn(wait_ms) => gate.turn(wait_ms) == Turn::Continue,
    }
}

// Takes all steps: whether each answers so.
fn are_so<G: Gate>(alloc: Global, gate: &mut G, steps: &[Step]) -> bool {
    let mut all = true;
    for step in steps {
        all = is_so(alloc, gate, *step) & all;
    }
    all
}

// Whether each step answers so, and the gate within waited so long.
fn is_right(alloc: Global, row: &Row) -> bool {
    let mut within: ScriptGate<ScriptLink> = ScriptGate::new(alloc, u32::MAX);
    let is_planned = plan(alloc, &mut within, row.steps);
    let mut gate = PacedGate::new(within);
    let are_so = are_so(alloc, &mut gate, row.steps);
    let within = gate.into_inner();
    let waited = within.last_wait();
    drop(within);
    is_planned & are_so & (waited == row.waited)
}

/// The first row that isn't so.
pub(crate) fn wrong_row(alloc: Global) -> Option<&'static str> {
    for row in &ROWS {
        if !is_right(alloc, row) {
            return Some(row.name);
        }
    }
    None
}

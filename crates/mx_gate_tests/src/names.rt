//! What is known of hosts: a row is the calls of a table of names, and what each answers.

use crate::fakes::{Fake, says};
use crate::outside::verdict;
use mx_names::{Finding, Names, spelled};
use mx_types::OutOfMemory;
use std::alloc::Global;
use std::test::Fail;

/// A call of a table, and what it is to answer.
#[derive(Clone, Copy)]
enum Step {
    /// Of a host, since a moment, now: the answer as numbers.
    Ask(&'static str, u64, u64, &'static [u64]),
    /// Of a host, since a moment, now: whether a lookup begins.
    Begin(&'static str, u64, u64, bool),
    /// Of the hosts `host0`, `host1` and so on, so many, at once: how many lookups begin.
    BeginMany(u64, u64),
    /// What the lookup of a host gives is learnt now: whether one was under way.
    Learn(&'static str, u64, bool),
    /// No lookup of a host could be made.
    Forget(&'static str),
}

/// Whether a lookup of a host begins, or doesn't, as said. False where memory is refused, here and below.
fn begins(
    alloc: Global,
    names: &mut Names<Fake>,
    host: &str,
    moments: (u64, u64),
    said: bool,
) -> bool {
    match spelled(host) {
        Some(_) => !said,
        None => match names.begin(alloc, host, moments.0, moments.1) {
            Ok(begins) => begins == said,
            Err(OutOfMemory) => false,
        },
    }
}

/// Whether a lookup of the host of this number begins.
fn begins_numbered(alloc: Global, names: &mut Names<Fake>, number: u64) -> bool {
    match format!(in alloc; "host{number}") {
        Ok(host) => begins(alloc, names, host.as_str(), (0, 0), true),
        Err(_) => false,
    }
}

/// Of how many of so many hosts a lookup begins.
fn begin_many(alloc: Global, names: &mut Names<Fake>, count: u64) -> u64 {
    let mut begun = 0u64;
    for number in 0..count {
        if begins_numbered(alloc, names, number) {
            begun = begun.saturating_add(1);
        }
    }
    begun
}

/// Whether this is what is known of a host, as numbers.
fn is_known(
    alloc: Global,
    names: &Names<Fake>,
    host: &str,
    moments: (u64, u64),
    numbers: &[u64],
) -> bool {
    match names.ask(alloc, host, moments.0, moments.1) {
        Ok(answer) => says(&answer, numbers),
        Err(OutOfMemory) => false,
    }
}

/// Whether what the lookup of a host gives is learnt, or isn't, as said.
fn learns(alloc: Global, names: &mut Names<Fake>, host: &str, now: u64, said: bool) -> bool {
    match String::from_str(alloc, host) {
        Ok(host) => names.learn(Finding::by(&Fake { alloc }, alloc, host), now) == said,
        Err(_) => false,
    }
}

fn is_as_said(alloc: Global, names: &mut Names<Fake>, step: Step) -> bool {
    match step {
        Step::Ask(host, since, now, numbers) => {
            is_known(alloc, names, host, (since, now), numbers)
        }
        Step::Begin(host, since, now, said) => begins(alloc, names, host, (since, now), said),
        Step::BeginMany(count, begun) => begin_many(alloc, names, count) == begun,
        Step::Learn(host, now, said) => learns(alloc, names, host, now, said),
        Step::Forget(host) => {
            names.forget(host);
            true
        }
    }
}

/// The first step that fails.
fn first_wrong(alloc: Global, names: &mut Names<Fake>, steps: &[Step]) -> Option<usize> {
    for place in 0..steps.len() {
        if !is_as_said(alloc, names, steps[place]) {
            return Some(place);
        }
    }
    None
}

/// The same, of a new table.
fn first_wrong_of(alloc: Global, steps: &[Step]) -> Option<usize> {
    let mut names = Names::new(alloc);
    let wrong = first_wrong(alloc, &mut names, steps);
    drop(names);
    wrong
}

/// Fails with the first row of which a step fails, and with that step.
fn play_each(alloc: Global) -> Result<(), Fail> {
    for row in &ROWS {
        verdict(row.name, first_wrong_of(alloc, row.steps))?;
    }
    Ok(())
}

struct Row {
    name: &'static str,
    steps: &'static [Step],
}

static ROWS: [Row; 4] = [
    // rule name-one-lookup
    // rule name-own-answer
    // rule name-kept-60-seconds
    // rule name-ipv4-first
    Row {
        name: "addresses_are_kept_for_a_minute",
        steps: &[
            Step::Ask("both", 0, 0, &[]),
            Step::Begin("both", 0, 0, true),
            Step::Begin("both", 0, 1, false),
            Step::Begin("four", 0, 1, true),
            Step::Ask("both", 0, 1, &[]),
            Step::Learn("both", 100, true),
            Step::Ask("both", 0, 100, &[2, 4, 101, 103]),
            Step::Ask("both", 60_099, 60_099, &[2, 4, 101, 103]),
            Step::Begin("both", 60_099, 60_099, false),
            Step::Ask("both", 60_100, 60_100, &[]),
            Step::Ask("four", 0, 60_100, &[]),
            Step::Begin("both", 60_100, 60_100, true),
        ],
    },
    // rule name-failures
    Row {
        name: "a_failure_is_told_to_those_who_waited",
        steps: &[
            Step::Begin("none", 0, 0, true),
            Step::Learn("none", 50, true),
            Step::Ask("none", 20, 60, &[0, 6]),
            Step::Ask("none", 50, 60, &[0, 6]),
            Step::Ask("none", 51, 60, &[]),
            Step::Begin("none", 50, 60, false),
            Step::Begin("none", 51, 60, true),
            Step::Begin("huge", 0, 0, true),
            Step::Learn("huge", 50, true),
            Step::Ask("huge", 0, 60, &[0, 27]),
        ],
    },
    Row {
        name: "only_a_lookup_that_is_under_way_is_learnt",
        steps: &[
            Step::Learn("four", 0, false),
            Step::Ask("four", 0, 0, &[]),
            Step::Begin("four", 0, 0, true),
            Step::Learn("six", 1, false),
            Step::Forget("six"),
            Step::Begin("four", 0, 1, false),
            Step::Forget("four"),
            Step::Begin("four", 0, 1, true),
            Step::Begin("192.0.2.1", 0, 0, false),
        ],
    },
    // rule name-lookup-count
    Row {
        name: "at_most_64_lookups_are_under_way",
        steps: &[
            Step::BeginMany(66, 64),
            Step::Forget("host0"),
            Step::Begin("host65", 0, 0, true),
        ],
    },
];

#[test]
fn hosts_that_are_known(rt: HostRuntime) -> Result<(), Fail> {
    play_each(rt.alloc())
}

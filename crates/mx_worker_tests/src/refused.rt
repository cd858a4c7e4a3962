//! Rows, and two workers on threads, that may be refused memory. What was refused is played again then, and has to come as if nothing had
//! been refused; only then does the test fail, by a text of its own. Without a refusal it passes.

use crate::crew::{EITHER, try_plan};
use crate::play::try_rows;
use crate::table::{GIVING_BACK, HOLDING, SERVING, TAKING_OVER};
use std::test::Fail;

#[test]
fn one_worker_serves_again(rt: HostRuntime) -> Result<(), Fail> {
    try_rows(&rt, &SERVING)
}

#[test]
fn another_worker_takes_over(rt: HostRuntime) -> Result<(), Fail> {
    try_rows(&rt, &TAKING_OVER)
}

#[test]
fn a_stopped_worker_gives_back(rt: HostRuntime) -> Result<(), Fail> {
    try_rows(&rt, &GIVING_BACK)
}

// rule turn-in-flight
#[test]
fn a_worker_holds_64_at_most(rt: HostRuntime) -> Result<(), Fail> {
    try_rows(&rt, &HOLDING)
}

#[test]
fn two_workers_serve_again(rt: HostRuntime) -> Result<(), Fail> {
    try_plan(&rt, &EITHER)
}

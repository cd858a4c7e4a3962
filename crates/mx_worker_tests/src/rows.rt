//! The rows that are played without a refusal alone.

use crate::links::{LINKS, WAITING};
use crate::play::try_rows;
use crate::table::{BY_HAND, ENDING};
use crate::{flowing, solo};
use std::test::Fail;

#[test]
fn each_row_comes_as_it_says(rt: HostRuntime) -> Result<(), Fail> {
    try_rows(&rt, &ENDING)?;
    try_rows(&rt, &BY_HAND)?;
    try_rows(&rt, &LINKS)?;
    try_rows(&rt, &WAITING)
}

#[test]
fn each_flow_comes_as_it_says(rt: HostRuntime) -> Result<(), Fail> {
    flowing::are_so(&rt)
}

#[test]
fn each_call_on_one_thread_comes_as_it_says(rt: HostRuntime) -> Result<(), Fail> {
    solo::are_so(rt.alloc())
}

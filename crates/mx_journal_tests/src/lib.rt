//! Tests of the control core, and of a multi handle's board with its progress words, by their public calls; and callers of the core.
#![tactic(auto)]

#[cfg(test)]
mod appends;
#[cfg(test)]
mod board_desk;
#[cfg(test)]
mod boards;
#[cfg(test)]
mod caller;
#[cfg(test)]
pub mod callers;
#[cfg(test)]
mod lists;
#[cfg(test)]
pub mod notes;
#[cfg(test)]
mod readers;
#[cfg(test)]
mod refused;
#[cfg(test)]
mod rows;
#[cfg(test)]
mod sample;
#[cfg(test)]
mod words;

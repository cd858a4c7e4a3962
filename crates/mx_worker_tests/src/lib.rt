//! Tests of workers over scripted links: rows of tables on one thread, and two workers on threads of their own.
#![tactic(auto)]

#[cfg(test)]
mod by_hand;
#[cfg(test)]
mod crew;
#[cfg(test)]
mod flowing;
#[cfg(test)]
mod gates;
#[cfg(test)]
pub mod holding;
#[cfg(test)]
mod links;
#[cfg(test)]
mod messages;
#[cfg(test)]
mod open;
#[cfg(test)]
mod play;
#[cfg(test)]
pub mod polls;
#[cfg(test)]
mod refused;
#[cfg(test)]
mod rows;
#[cfg(test)]
mod runs;
#[cfg(test)]
mod solo;
#[cfg(test)]
pub mod stage;
#[cfg(test)]
mod steps;
#[cfg(test)]
mod table;
#[cfg(test)]
mod trouble;
#[cfg(test)]
mod waking;

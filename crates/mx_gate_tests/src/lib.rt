//! Tests of gates over loopback connections, over a network and a clock of the tests' own, and from scripts; of what is known of hosts; and
//! of gates that wait for no lookup. There is nothing in this crate but tests.
#![tactic(auto)]

#[cfg(test)]
mod addresses;
#[cfg(test)]
mod connections;
#[cfg(test)]
mod fakes;
#[cfg(test)]
mod gates;
#[cfg(test)]
pub mod hosts;
#[cfg(test)]
mod moments;
#[cfg(test)]
mod named;
#[cfg(test)]
mod names;
#[cfg(test)]
mod outside;
#[cfg(test)]
mod paced;
#[cfg(test)]
mod peers;
#[cfg(test)]
mod ready;
#[cfg(test)]
mod refused;
#[cfg(test)]
mod resolver;
#[cfg(test)]
mod scripted;
#[cfg(test)]
mod turns;

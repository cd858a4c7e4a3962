//! Tests of the names of files, of sinks, of saving over a folder in memory and over one of the system, and of `save` and `get` over loopback,
//! by servers of the tests' own. There is nothing in this crate but tests.
#![tactic(auto)]

#[cfg(test)]
mod bodies;
#[cfg(test)]
mod counting_server;
#[cfg(test)]
mod early;
#[cfg(test)]
mod gets;
#[cfg(test)]
mod memory;
#[cfg(test)]
mod memory_parts;
#[cfg(test)]
mod memory_sinks;
#[cfg(test)]
mod names;
#[cfg(test)]
mod open_requests;
#[cfg(test)]
mod part_sinks;
#[cfg(test)]
mod parts;
#[cfg(test)]
mod refused;
#[cfg(test)]
mod runs;
#[cfg(test)]
mod server;
#[cfg(test)]
mod sink_bodies;
#[cfg(test)]
mod sinks_without_memory;
#[cfg(test)]
mod system;
#[cfg(test)]
mod three_parts;
#[cfg(test)]
mod widths;

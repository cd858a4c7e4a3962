//! Tests of the shared multi handle, by its public calls alone: scripts of calls by seats and workers, on one thread and on many, with the
//! answer of each.
#![tactic(auto)]

#[cfg(test)]
mod play;
#[cfg(test)]
mod refused;
#[cfg(test)]
mod rows;
#[cfg(test)]
mod threads;
#[cfg(test)]
mod whole;

//! Tests of links, and of transfers of one hop and of several, polled by hand over scripted links, and callers with contracts of their own.
//! There is nothing in this crate but tests.
#![tactic(auto)]

#[cfg(test)]
pub mod callers;
#[cfg(test)]
mod connecting;
#[cfg(test)]
mod delivering;
#[cfg(test)]
mod faults;
#[cfg(test)]
mod flowing;
#[cfg(test)]
mod flowing_hops;
#[cfg(test)]
mod hops;
#[cfg(test)]
mod interrupted;
#[cfg(test)]
mod links;
#[cfg(test)]
mod redirects;
#[cfg(test)]
mod refused;
#[cfg(test)]
mod replay;
#[cfg(test)]
mod responses;
#[cfg(test)]
mod rows;
#[cfg(test)]
mod sockets;
#[cfg(test)]
mod table;

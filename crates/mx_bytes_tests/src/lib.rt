//! Tests of responses and of requests as bytes, by public calls alone: heads and bodies, responses whose content is handed on, readers of one
//! response, the reasons why bytes are refused, requests and what follows them at a redirect; and of deadlines and idle links. There is
//! nothing in this crate but tests.
#![tactic(auto)]

#[cfg(test)]
mod chunked;
#[cfg(test)]
mod cuts;
#[cfg(test)]
mod deadlines;
#[cfg(test)]
mod fields;
#[cfg(test)]
mod heads;
#[cfg(test)]
mod idle;
#[cfg(test)]
mod limits;
#[cfg(test)]
mod locations;
#[cfg(test)]
mod pieces;
#[cfg(test)]
mod readers;
#[cfg(test)]
mod reasons;
#[cfg(test)]
mod redirects;
#[cfg(test)]
mod refusals;
#[cfg(test)]
mod refused;
#[cfg(test)]
mod refused_requests;
#[cfg(test)]
mod request_row;
#[cfg(test)]
mod request_table;
#[cfg(test)]
mod row;
#[cfg(test)]
mod settings;
#[cfg(test)]
mod streams;
#[cfg(test)]
mod table;
#[cfg(test)]
mod told;
#[cfg(test)]
mod trials;
#[cfg(test)]
mod urls;
#[cfg(test)]
mod wrong;

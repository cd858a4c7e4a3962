//! Names of hosts: which lookups are under way, what they gave, and lookups on threads of their own.
#![tactic(auto)]

mod addresses;
mod answer;
mod asked;
mod entry;
mod faults;
mod finding;
mod hosts;
pub mod laws;
mod lookup;
mod names;
mod resolver;
mod system;

pub use crate::addresses::{Addresses, in_order};
pub use crate::answer::HostAnswer;
pub use crate::asked::Asked;
pub use crate::entry::Learnt;
pub use crate::faults::{fault_code, lookup_code};
pub use crate::finding::Finding;
pub use crate::hosts::{spelled, unbracketed};
pub use crate::lookup::Lookup;
pub use crate::names::{KEPT_MS, MOST_LOOKUPS, Names};
pub use crate::resolver::{Resolver, Ring};
pub use crate::system::SystemLookup;

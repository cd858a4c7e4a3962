//! What a run needs of its runtime.

use std::alloc::AllocGlobal;
use std::rt::Clock;
use std::sync::Wait;
use std::thread::Threads;

/// A runtime that workers run on, each in a thread of its own. Every type that has these bounds is one. What a run needs of the network
/// isn't in it: for a runtime of the host the prover needs the network's types named in the signature.
pub trait Runtime: Threads + Wait + Clock + AllocGlobal + Copy + Send + Sync + Drop + 'static {}

impl<R> Runtime for R
where
    R: Threads + Wait + Clock + AllocGlobal + Copy + Send + Sync + Drop + 'static,
{}

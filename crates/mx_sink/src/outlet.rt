//! A sink, and the content that it has had no room for yet.
ghost use Rattle.std.specs.Prelude.{◌≡◌, ◌≤◌, ◌<◌, ◌⊎◌, ◌↔◌, false, [], ◌++◌, drop, length, take, Some, None, IfSome, IsTrue, option_map};
ghost use Rattle.mx_sink.specs.Sinks.{sink_code};
ghost use Rattle.mx_sink.specs.Outlets.{IsOutlet, IsReady, IsHandedOn, counted, handed_of};

use crate::delivery::Delivery;
use crate::error::SinkError;
use crate::sink::Sink;
use crate::window::Window;
use mx_types::Code;
use std::alloc::Global;
use std::marker::Model;
use std::mem;

// Puts these bytes into a sink, until all are taken, the sink has no room, or it fails. The answer is how many it took, and why it failed,
// if it did.
fn put_all<S: Sink>(sink: &mut S, bytes: &[u8]) -> (usize, Option<SinkError>)
    ensures got { S.got sink.new ≡ S.got sink.old ++ take result.0 bytes.now }
    ensures target { S.target sink.new ≡ S.target sink.old }
    ensures within { result.0 ≤ length bytes.now }
    ensures most { result.1 ≡ None → (result.0 ≡ length bytes.now) ⊎ (S.room sink.new ≡ false) }
    ensures failed { IfSome result.1 (λ _. result.0 < length bytes.now) }
{
    let mut taken = 0;
    while taken < bytes.len() && sink.has_room() {
        match sink.put(&bytes[taken..]) {
            Ok(n) => taken += n,
            Err(error) => return (taken, Some(error)),
        }
    }
    (taken, None)
}

// Removes so many bytes at the front.
fn remove_front(bytes: &mut Vec<u8>, count: usize)
    requires { count ≤ length bytes.old.items }
    ensures { bytes.new.items ≡ drop count bytes.old.items }
{
    let rest = bytes.len() - count;
    bytes.rotate_left(count);
    bytes.truncate(rest);
}

/// Where the content of a transfer goes as it comes: a sink, and the content that the sink has had no room for yet. Where the sink doesn't
/// take all of what the outlet is handed, the rest is left, and the outlet takes no more until it has made room.
///
/// All content that it was handed is what the sink got and then what is left, also after a failure. Once the sink failed, it gets nothing
/// more.
pub struct Outlet<S: Sink> {
    sink: S,
    left: Window,
    // How many bytes of `left` the sink has taken.
    start: usize,
    failure: Option<SinkError>,
    count: u64,
    most_bytes: Option<u64>,
}

// Written out, and not derived: a crate that drops one cites its proof.
impl<S: Sink> Drop for Outlet<S> {
    fn drop(self) {
        let Outlet {
            sink,
            left,
            start: _,
            failure: _,
            count: _,
            most_bytes: _,
        } = self;
        drop(sink);
        drop(left);
    }
}

impl<S: Sink> Model for Outlet<S> {
    ghost use Rattle.std.specs.Prelude.{◌≤◌, drop, length};
    ghost use Rattle.mx_sink.specs.Outlets.{OutletValue, IsOutlet};

    ghost Value = { OutletValue S };

    ghost view = { λ o. record {
      sink = o.sink;
      left = drop o.start o.left.items;
      failure = o.failure;
      count = o.count;
      most_bytes = o.most_bytes;
    } };

    ghost invariant = { λ o. record {
      within : o.start ≤ length o.left.items;
      outlet : IsOutlet S.got (record {
        sink = o.sink;
        left = drop o.start o.left.items;
        failure = o.failure;
        count = o.count;
        most_bytes = o.most_bytes;
      });
    } };
}

impl<S: Sink> Outlet<S> {
    /// An outlet to a sink that got nothing yet. `most_bytes` is the limit of the content, if there is one. It tells its transfer the limit,
    /// and takes more itself.
    pub fn new(alloc: Global, sink: S, most_bytes: Option<u64>) -> Outlet<S>
        requires { S.got sink ≡ [] }
        ensures { result ≡ record { sink = sink; left = []; failure = None; count = 0; most_bytes = most_bytes } }
    {
        Outlet {
            sink,
            left: Window::new(alloc),
            start: 0,
            failure: None,
            count: 0,
            most_bytes,
        }
    }

    /// The sink.
    pub fn sink(&self) -> &S
        ensures { result.now ≡ self.now.sink }
    {
        &self.sink
    }

    /// The content that the sink has not taken yet, in order.
    pub fn left(&self) -> &[u8]
        ensures { result.now ≡ self.now.left }
    {
        &self.left.as_slice()[self.start..]
    }

    /// Why the sink failed, if it did.
    pub fn failure(&self) -> Option<SinkError>
        ensures { result ≡ self.now.failure }
    {
        self.failure
    }

    /// The sink, and the content that it has not taken, in order, by move.
    pub fn into_parts(self) -> (S, Vec<u8>)
        ensures sink { result.0 ≡ self.sink }
        ensures left { result.1.items ≡ self.left }
    {
        let Outlet {
            sink,
            left,
            start,
            failure: _,
            count: _,
            most_bytes: _,
        } = self;
        let mut rest = left.into_bytes();
        remove_front(&mut rest, start);
        (sink, rest)
    }

    /// What holds of every outlet. It does nothing: a call gives its caller's proof the law.
    pub fn know(&self)
        ensures { IsOutlet S.got self.now }
    {
        // proof: what holds of an outlet
        let _start = self.start;
    }

    // Puts what is left into the sink, as much as it takes.
    fn hand_on(&mut self)
        requires { self.old.failure ≡ None }
        ensures handed { handed_of S.got self.new ≡ handed_of S.got self.old }
        ensures on { IsHandedOn S.room self.new }
        ensures target { S.target self.new.sink ≡ S.target self.old.sink }
        ensures same { self.new ≡ record self.old { sink = self.new.sink; left = self.new.left; failure = self.new.failure } }
    {
        let (taken, failure) = put_all(&mut self.sink, &self.left.as_slice()[self.start..]);
        self.failure = failure;
        self.start += taken;
    }
}

impl<S: Sink> Delivery for Outlet<S> {
    ghost flows = { λ o. Some o.most_bytes };

    ghost handed = { λ o. handed_of S.got o };

    ghost left = { λ o. o.left };

    ghost fault = { λ o. option_map sink_code o.failure };

    ghost target = { λ o. S.target o.sink };

    fn most_bytes(&self) -> Option<Option<u64>> {
        Some(self.most_bytes)
    }

    /// Hands the sink what is left, as much as it takes. The answer is whether it takes more content now: nothing is left, and the sink has
    /// not failed and has room. A failure of the sink is kept, and the sink gets nothing more.
    fn make_room(&mut self) -> bool
        ensures ready { IsTrue result ↔ IsReady S.room self.new }
        ensures on { IsHandedOn S.room self.new }
        ensures handed { handed_of S.got self.new ≡ handed_of S.got self.old }
        ensures target { S.target self.new.sink ≡ S.target self.old.sink }
        ensures same { self.new ≡ record self.old { sink = self.new.sink; left = self.new.left; failure = self.new.failure } }
        ensures failed { IfSome self.old.failure (λ _. self.new ≡ self.old) }
    {
        if self.failure.is_some() {
            return false;
        }
        self.hand_on();
        self.failure.is_none() && self.start == self.left.len() && self.sink.has_room()
    }

    /// Takes all of the content, which is empty then: hands the sink as much of it as that takes, and keeps the rest. Where none is
    /// left, the content keeps its memory.
    fn take(&mut self, content: &mut Window)
        requires { (self.old.left ≡ []) ⊎ (content.old.items ≡ []) }
        ensures handed { handed_of S.got self.new ≡ handed_of S.got self.old ++ content.old.items }
        ensures empty { content.new.items ≡ [] }
        ensures still { content.old.items ≡ [] → self.new ≡ self.old }
        ensures on { self.old.left ≡ [] → IsHandedOn S.room self.new }
        ensures target { S.target self.new.sink ≡ S.target self.old.sink }
        ensures most_bytes { self.new.most_bytes ≡ self.old.most_bytes }
        ensures failed { IfSome self.old.failure (λ _. self.new ≡ self.old) }
        ensures memory { self.new.left ≡ [] → content.new.memory ≡ content.old.memory }
    {
        if content.is_empty() {
            return;
        }
        self.count = self.count.saturating_add(content.len() as u64);
        let (taken, failure) = put_all(&mut self.sink, content.as_slice());
        self.failure = failure;
        // The rest stays in its memory, so that none is asked for.
        if taken < content.len() {
            mem::swap(&mut self.left, content);
            self.start = taken;
        }
        content.clear();
    }

    fn count(&self) -> u64
        ensures count { result ≡ self.now.count }
        ensures all { result ≡ counted (handed_of S.got self.now) }
    {
        self.count
    }

    fn fault(&self) -> Option<Code> {
        match self.failure {
            Some(error) => Some(error.code()),
            None => None,
        }
    }
}

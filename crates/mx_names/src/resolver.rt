//! Lookups on threads of their own.
ghost use Rattle.std.specs.Prelude.{◌≡◌, ◌≤◌, List, IfOk};
ghost use Rattle.std.specs.List.{find};
ghost use Rattle.std.specs.declared.net.IpAddr.{IpAddr as Ip};
ghost use Rattle.std.specs.Net.Grammar.{IsIpText};
ghost use Rattle.mx_names.specs.Hosts.{unbracketed, IsAddress, IsSpelled};
ghost use Rattle.mx_names.specs.Names.{HostState, IsTrueOf, SpellsNone, told, may_begin, is_of};
ghost use Rattle.mx_names.specs.Asked.{AsksOf, IsAsked, HasLookupCode};

use crate::addresses::Addresses;
use crate::answer::HostAnswer;
use crate::asked::Asked;
use crate::finding::Finding;
use crate::hosts::{spelled, unbracketed};
use crate::lookup::Lookup;
use crate::names::Names;
use mx_types::{Code, History, OutOfMemory};
use std::alloc::{AllocGlobal, Global};
use std::net::{IpAddr, SocketAddr};
use std::rt::Clock;
use std::sync::{Arc, Condvar, Mutex, Wait};
use std::thread::Threads;
use std::time::Instant;
use std::{mem, thread};

/// What is rung when a lookup has ended.
pub trait Ring {
    /// Notifies whoever listens that there may be news. It doesn't wait.
    fn ring(&self);
}

// A host whose lookup was begun and has no thread yet, and when that was.
#[derive(Drop)]
struct Wanted {
    host: String,
    now: u64,
}

// What the threads share.
#[derive(Drop)]
struct Shared<L: Lookup, B> {
    names: Mutex<Names<L>>,
    bells: Mutex<Vec<B>>,
    wanted: Mutex<Vec<Wanted>>,
    is_wanted: Condvar,
    lookup: L,
    start: Instant,
}

/// A resolver of hosts, for any number of threads. Each lookup runs on a thread of its own, so only `serve` waits for lookups; the other
/// calls wait for each other's access to the table alone. Nobody joins these threads: a program ends without them.
pub struct Resolver<L: Lookup, B> {
    shared: Arc<Shared<L, B>>,
}

// Written out, and not derived: a crate that drops a resolver cites its proof.
impl<L: Lookup + Drop, B: Drop> Drop for Resolver<L, B> {
    fn drop(self) {
        let Resolver { shared } = self;
        drop(shared);
    }
}

// The moment, in milliseconds since the start, and none before the one given.
fn moment(rt: &impl Clock, start: Instant, least: u64) -> u64
    ensures { least ≤ result }
{
    match start.elapsed(rt) {
        Ok(passed) => u64::try_from(passed.as_millis())
            .unwrap_or(u64::MAX)
            .max(least),
        Err(_) => least,
    }
}

// A host that spells this address.
fn ask_address<R: AllocGlobal>(rt: &R, ip: IpAddr) -> HostAnswer
    ensures is { IsAddress ip result }
    ensures code { HasLookupCode result }
{
    match Addresses::one(rt.alloc(), SocketAddr::new(ip, 0)) {
        Ok(addresses) => HostAnswer::Known(addresses),
        Err(_) => HostAnswer::Failed(Code::OutOfMemory),
    }
}

impl<L: Lookup, B: Ring> Shared<L, B> {
    fn ring<R: Wait>(&self, rt: &R) {
        // All bells, not only those of who asked for this host: one of the 64 lookups has become free for others, too.
        for bell in self.bells.lock(rt).iter() {
            bell.ring();
        }
    }

    // Looks the host up, learns the result, and rings.
    fn resolve<R: Wait + Clock + AllocGlobal>(&self, rt: &R, host: String, begun: u64) {
        let finding = Finding::by(&self.lookup, rt.alloc(), host);
        let now = moment(rt, self.start, begun);
        self.names.lock(rt).learn(finding, now);
        self.ring(rt);
    }

    // Learns that no thread could be started for the lookup of the host, and rings.
    fn fail<R: Wait>(&self, rt: &R, host: String, now: u64) {
        self.names
            .lock(rt)
            .learn(Finding::without_memory(host), now);
        self.ring(rt);
    }
}

impl<L: Lookup, B> Shared<L, B> {
    // What is known of the name, and whether a lookup of it begins.
    fn look<R: Wait + AllocGlobal>(
        &self,
        rt: &R,
        name: &str,
        since: u64,
        now: u64,
        asked: &mut History<Asked>,
    ) -> Result<(HostAnswer, bool), OutOfMemory>
        requires { SpellsNone name.now }
        ensures true_of { IfOk result (λ r. IsTrueOf L.gives name.now r.0) }
        ensures asks { (known : List HostState) × AsksOf since now known asked.old asked.new
            × IfOk result (λ r. (r.0 ≡ told since now (find (is_of name.now) known)) × (r.1 ≡ may_begin name.now since now known)) }
    {
        let mut names = self.names.lock(rt);
        asked.note(names.asked(since, now));
        let answer = names.ask(rt.alloc(), name, since, now)?;
        let begins = names.begin(rt.alloc(), name, since, now)?;
        Ok((answer, begins))
    }

    // Asks whoever starts threads to begin the lookup of the name.
    fn want<R: Wait + AllocGlobal>(&self, rt: &R, name: &str, now: u64) -> Result<(), OutOfMemory> {
        let host = String::from_str(rt.alloc(), name)?;
        self.wanted.lock(rt).push(Wanted { host, now })?;
        self.is_wanted.notify_all();
        Ok(())
    }

    // What is known of the name, whose lookup is wanted where one has to begin.
    fn try_name<R: Wait + AllocGlobal>(
        &self,
        rt: &R,
        name: &str,
        since: u64,
        now: u64,
        asked: &mut History<Asked>,
    ) -> Result<HostAnswer, OutOfMemory>
        requires { SpellsNone name.now }
        ensures true_of { IfOk result (IsTrueOf L.gives name.now) }
        ensures asks { (known : List HostState) × AsksOf since now known asked.old asked.new
            × IfOk result (λ answer. answer ≡ told since now (find (is_of name.now) known)) }
    {
        let (answer, begins) = self.look(rt, name, since, now, asked)?;
        if begins && self.want(rt, name, now).is_err() {
            self.names.lock(rt).forget(name);
            return Err(OutOfMemory);
        }
        Ok(answer)
    }

    #[tactic(auto, using(crate::proofs::AskedLemmas::answered, crate::proofs::AskedLemmas::without_memory, crate::proofs::AskedLemmas::true_code))]
    fn ask_name<R: Wait + AllocGlobal>(
        &self,
        rt: &R,
        name: &str,
        since: u64,
        now: u64,
        asked: &mut History<Asked>,
    ) -> HostAnswer
        requires { SpellsNone name.now }
        ensures true_of { IsTrueOf L.gives name.now result }
        ensures asks { IsAsked name.now since now result asked.old asked.new }
        ensures code { HasLookupCode result }
    {
        match self.try_name(rt, name, since, now, asked) {
            Ok(answer) => answer,
            Err(_) => HostAnswer::Failed(Code::OutOfMemory),
        }
    }
}

impl<L: Lookup, B> Resolver<L, B> {
    // rule name-spelled-address
    /// What is known of the host now, to one who asks since a moment. Where nothing is known of a name, a lookup of it is wanted from then
    /// on, unless one of it is under way or 64 others are. `start_wanted` begins it, and so does `serve`, which waits for that. On `NotYet`
    /// the caller asks again, with the same `since`, when the bell is rung. A host that spells an address, in brackets or not, is that
    /// address and isn't looked up. What the table was asked is added to `asked`.
    ///
    /// Returns `Failed(OutOfMemory)` where memory is refused, too. It starts no thread and waits for no lookup.
    pub fn look<R: Wait + AllocGlobal>(
        &self,
        rt: &R,
        host: &str,
        since: u64,
        now: u64,
        asked: &mut History<Asked>,
    ) -> HostAnswer
        ensures spelled { (ip : Ip) → IsIpText (unbracketed host.now) ip → IsSpelled (unbracketed host.now) result }
        ensures looked_up { SpellsNone (unbracketed host.now) → IsTrueOf L.gives (unbracketed host.now) result }
        ensures asks { SpellsNone (unbracketed host.now) → IsAsked (unbracketed host.now) since now result asked.old asked.new }
        ensures unasked { (ip : Ip) → IsIpText (unbracketed host.now) ip → asked.new ≡ asked.old }
        ensures code { HasLookupCode result }
    {
        let name = unbracketed(host);
        match spelled(name) {
            Some(ip) => ask_address(rt, ip),
            None => self.shared.ask_name(rt, name, since, now, asked),
        }
    }

    /// The same resolver, for another thread.
    pub fn share(&self) -> Result<Resolver<L, B>, OutOfMemory> {
        Ok(Resolver {
            shared: Arc::try_clone(&self.shared)?,
        })
    }

    /// Rings this bell, too, when a lookup has ended.
    pub fn add_bell<R: Wait>(&self, rt: &R, bell: B) -> Result<(), OutOfMemory>
    where
        B: Drop,
    {
        self.shared.bells.lock(rt).push(bell)?;
        Ok(())
    }
}

impl<L: Lookup + Send + Sync + Drop + 'static, B: Ring + Send + Sync + Drop + 'static> Resolver<
    L,
    B,
> {
    /// A resolver that knows nothing yet, whose clock started at `start`: the moments that its callers give are milliseconds since then.
    pub fn new(alloc: Global, lookup: L, start: Instant) -> Result<Resolver<L, B>, OutOfMemory> {
        let shared = Shared {
            names: Mutex::new(Names::new(alloc)),
            bells: Mutex::new(Vec::new(alloc)),
            wanted: Mutex::new(Vec::new(alloc)),
            is_wanted: Condvar::new(),
            lookup,
            start,
        };
        Ok(Resolver {
            shared: Arc::new(alloc, shared)?,
        })
    }

    // Starts a thread that looks the host up.
    fn start<R: Threads + Wait + Clock + AllocGlobal + Copy + Send + Drop + 'static>(
        &self,
        rt: &R,
        host: &str,
        now: u64,
    ) -> Result<(), OutOfMemory> {
        let host = String::from_str(rt.alloc(), host)?;
        let shared = Arc::try_clone(&self.shared)?;
        let there = *rt;
        match thread::spawn(rt, move || shared.resolve(&there, host, now)) {
            // Nobody joins it: a lookup may hang for as long as it likes.
            Ok(_running) => Ok(()),
            Err(_) => Err(OutOfMemory),
        }
    }

    // The hosts whose lookups are wanted, which from then on are none.
    fn take_wanted<R: Wait + AllocGlobal>(&self, rt: &R) -> Vec<Wanted> {
        let none = Vec::new(rt.alloc());
        mem::replace(&mut *self.shared.wanted.lock(rt), none)
    }

    // rule name-hanging-lookups
    /// Begins the lookups that are wanted, each on a thread of its own. Where no thread can be started, the lookup has failed
    /// (`OutOfMemory`). It waits for no lookup.
    pub fn start_wanted<R: Threads + Wait + Clock + AllocGlobal + Copy + Send + Drop + 'static>(
        &self,
        rt: &R,
    ) {
        for wanted in self.take_wanted(rt) {
            if self.start(rt, wanted.host.as_str(), wanted.now).is_err() {
                self.shared.fail(rt, wanted.host, wanted.now);
            }
        }
    }

    /// Begins each lookup that is wanted, from now on. It never returns.
    pub fn serve<R: Threads + Wait + Clock + AllocGlobal + Copy + Send + Drop + 'static>(
        &self,
        rt: &R,
    ) {
        for _ in rt.forever() {
            let shared = &self.shared;
            drop(
                shared
                    .is_wanted
                    .wait_while(rt, shared.wanted.lock(rt), |w| w.is_empty()),
            );
            self.start_wanted(rt);
        }
    }

    /// As `look`, and a lookup that is wanted begins at once. Where no thread can be started, a later call returns `Failed(OutOfMemory)`.
    pub fn ask<R: Threads + Wait + Clock + AllocGlobal + Copy + Send + Drop + 'static>(
        &self,
        rt: &R,
        host: &str,
        since: u64,
        now: u64,
        asked: &mut History<Asked>,
    ) -> HostAnswer
        ensures spelled { (ip : Ip) → IsIpText (unbracketed host.now) ip → IsSpelled (unbracketed host.now) result }
        ensures looked_up { SpellsNone (unbracketed host.now) → IsTrueOf L.gives (unbracketed host.now) result }
        ensures asks { SpellsNone (unbracketed host.now) → IsAsked (unbracketed host.now) since now result asked.old asked.new }
        ensures unasked { (ip : Ip) → IsIpText (unbracketed host.now) ip → asked.new ≡ asked.old }
        ensures code { HasLookupCode result }
    {
        let answer = self.look(rt, host, since, now, asked);
        self.start_wanted(rt);
        answer
    }
}

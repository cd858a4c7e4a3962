//! What wakes workers, and what stops them.
ghost use Rattle.std.specs.Prelude.{◌≡◌, ◌≤◌, ◌↔◌, true, IfErr, IfOk, OnOk, vec_capacity, vec_len};
ghost use Rattle.mx_types.specs.declared.code.Code.TheVariants as codes;
ghost use Rattle.mx_run_io.specs.declared.stop.Stop.TheVariants as stop;
ghost use Rattle.mx_crew.specs.Stops.{is_crew_stop};

use mx_gate::{Bell, FileLimit, SocketGate};
use mx_named_gate::{NameBell, NamedGate, PacedGate};
use mx_names::{Lookup, Resolver, SystemLookup};
use mx_run_io::Stop;
use mx_types::{Code, OutOfMemory};
use std::alloc::{AllocError, AllocGlobal, Global};
use std::net::{Net, TcpListener, TcpStream};
use std::rt::Clock;
use std::sync::atomic::{AtomicBool, AtomicU64, Ordering};
use std::sync::{Arc, Wait};
use std::thread;
use std::thread::Threads;
use std::time::Instant;

/// A worker's gate: it opens the links to an endpoint a few at a time, and the system looks its names up, on threads of their own.
pub type HostGate<'r, R> = PacedGate<NamedGate<'r, R, SystemLookup<R>>>;

/// What wakes workers, and what stops them; no clause says that it does.
pub struct Crew {
    bells: Vec<Bell>,
    file_limits: Vec<FileLimit>,
    stop: Arc<AtomicBool>,
    // How many workers were woken one by one.
    woken: AtomicU64,
}

// Written out, and not derived: a crate that drops a crew cites its proof.
impl Drop for Crew {
    fn drop(self) {
        let Crew {
            bells,
            file_limits,
            stop,
            woken,
        } = self;
        drop(bells);
        drop(file_limits);
        drop(stop);
        drop(woken);
    }
}

// Why there is no gate, by the code that says so.
fn no_gate(code: Code) -> Stop
    ensures memory { (result ≡ stop.OutOfMemory) ↔ (code ≡ codes.OutOfMemory) }
    ensures why { is_crew_stop result ≡ true }
{
    match code {
        Code::OutOfMemory => Stop::OutOfMemory,
        _ => Stop::NoPoll,
    }
}

impl Crew {
    /// A crew without workers.
    pub fn new(alloc: Global) -> Result<Crew, OutOfMemory> {
        let stop = Arc::new(alloc, AtomicBool::new(false))?;
        Ok(Crew {
            bells: Vec::new(alloc),
            file_limits: Vec::new(alloc),
            stop,
            woken: AtomicU64::new(0),
        })
    }

    /// Wakes a worker for each of so many requests that were added, in turn, and all where there are no more workers than that. One that
    /// isn't woken waits to the end of its timeout.
    pub fn wake(&self, added: usize) {
        let count = self.bells.len();
        if added >= count {
            self.ring();
            return;
        }
        let woken = self.woken.fetch_add(added as u64, Ordering::SeqCst);
        let mut at = (woken % count as u64) as usize;
        for _ in 0..added {
            if at >= count {
                at = 0;
            }
            if let Some(bell) = self.bells.get(at) {
                let _ = bell.ring();
            }
            at = at.saturating_add(1);
        }
    }

    // Wakes all workers whose gates it made.
    fn ring(&self) {
        for bell in &self.bells {
            // Where the bell can't be rung, its worker waits to the end of its timeout.
            let _ = bell.ring();
        }
    }

    /// Stops all workers: each ends once what it holds has ended.
    pub fn stop(&self) {
        self.stop.store(true, Ordering::SeqCst);
        self.ring();
    }

    /// Clears the flag that stops its workers, once those that were stopped have ended: others may then use their gates.
    pub fn resume(&self) {
        self.stop.store(false, Ordering::SeqCst);
    }

    /// Whether it is stopped.
    pub fn is_stopped(&self) -> bool {
        self.stop.load(Ordering::SeqCst)
    }

    /// Whether a gate that it made couldn't begin a connection since too many files were open.
    pub fn met_file_limit(&self) -> bool {
        for limit in &self.file_limits {
            if limit.was_met() {
                return true;
            }
        }
        false
    }

    /// The flag that stops its workers, for a gate of one's own: true once it is stopped, until it is resumed.
    pub fn stop_flag(&self) -> Result<Arc<AtomicBool>, AllocError> {
        Arc::try_clone(&self.stop)
    }

    // A gate that this crew wakes and stops.
    fn socket_gate<'r, R: Net<Listener = TcpListener, Stream = TcpStream> + Clock + AllocGlobal>(
        &mut self,
        rt: &'r R,
        start: Instant,
    ) -> Result<SocketGate<'r, R>, Stop>
        ensures why { IfErr result (λ e. is_crew_stop e ≡ true) }
    {
        match SocketGate::starting_at(rt, rt.alloc(), self.stop_flag()?, start) {
            Ok(gate) => self.register(gate),
            Err(code) => Err(no_gate(code)),
        }
    }

    // Keeps the waker and the flag of a gate, and hands it back.
    fn register<'r, R: Net + Clock + AllocGlobal>(
        &mut self,
        gate: SocketGate<'r, R>,
    ) -> Result<SocketGate<'r, R>, Stop>
        ensures why { IfErr result (λ e. is_crew_stop e ≡ true) }
    {
        match self.know(&gate) {
            Ok(()) => Ok(gate),
            Err(error) => {
                drop(gate);
                Err(error)
            }
        }
    }

    // A gate that this crew wakes and stops, and whose names this resolver looks up.
    fn gate<
        'r,
        R: Net<Listener = TcpListener, Stream = TcpStream> + Clock + AllocGlobal + Wait,
        L: Lookup,
    >(
        &mut self,
        rt: &'r R,
        start: Instant,
        resolver: &Resolver<L, NameBell>,
    ) -> Result<PacedGate<NamedGate<'r, R, L>>, Stop>
        ensures why { IfErr result (λ e. is_crew_stop e ≡ true) }
    {
        let gate = self.socket_gate(rt, start)?;
        Ok(PacedGate::new(NamedGate::new(rt, gate, resolver)?))
    }

    // Keeps the waker of the worker at this gate, and the flag that says whether too many files were open for it.
    fn know<R: Net + Clock + AllocGlobal>(&mut self, gate: &SocketGate<'_, R>) -> Result<(), Stop>
        ensures why { IfErr result (λ e. is_crew_stop e ≡ true) }
    {
        self.bells.push(gate.bell()?)?;
        self.file_limits.push(gate.file_limit()?)?;
        Ok(())
    }

    /// So many gates, which this crew wakes and stops. They share a resolver, and their clocks and its own have one start. A thread begins
    /// the lookups that they want. Nobody joins it, nor the threads of lookups: a program ends without them.
    ///
    /// The errors are `NoThread`, where that thread couldn't be started, `NoPoll` and `OutOfMemory`, as they say; no clause says which of them
    /// comes.
    pub fn gates<
        'r,
        R: Net<Listener = TcpListener, Stream = TcpStream>
            + Clock
            + AllocGlobal
            + Threads
            + Wait
            + Copy
            + Send
            + Sync
            + Drop
            + 'static,
    >(&mut self, rt: &'r R, start: Instant, count: u8) -> Result<Vec<HostGate<'r, R>>, Stop>
        ensures count { IfOk result (λ gates. vec_len gates ≡ count) }
        ensures why { IfErr result (λ e. is_crew_stop e ≡ true) }
    {
        let resolver = served(rt, start)?;
        let gates = self.named_gates(rt, start, &resolver, count);
        drop(resolver);
        gates
    }

    // So many gates, whose names this resolver looks up.
    fn named_gates<
        'r,
        R: Net<Listener = TcpListener, Stream = TcpStream> + Clock + AllocGlobal + Wait,
        L: Lookup + Drop,
    >(
        &mut self,
        rt: &'r R,
        start: Instant,
        resolver: &Resolver<L, NameBell>,
        count: u8,
    ) -> Result<Vec<PacedGate<NamedGate<'r, R, L>>>, Stop>
        ensures count { IfOk result (λ gates. vec_len gates ≡ count) }
        ensures why { IfErr result (λ e. is_crew_stop e ≡ true) }
    {
        let mut gates = Vec::with_capacity(rt.alloc(), usize::from(count))?;
        match self.fill(rt, start, resolver, &mut gates, count) {
            Ok(()) => Ok(gates),
            Err(error) => {
                drop(gates);
                Err(error)
            }
        }
    }

    // Makes so many gates: there is room for them. It owns none of them, so its exits drop none.
    fn fill<
        'r,
        R: Net<Listener = TcpListener, Stream = TcpStream> + Clock + AllocGlobal + Wait,
        L: Lookup,
    >(
        &mut self,
        rt: &'r R,
        start: Instant,
        resolver: &Resolver<L, NameBell>,
        gates: &mut Vec<PacedGate<NamedGate<'r, R, L>>>,
        count: u8,
    ) -> Result<(), Stop>
        requires none { vec_len gates.old ≡ 0 }
        requires room { count ≤ vec_capacity gates.old }
        ensures made { OnOk result (vec_len gates.new ≡ count) }
        ensures why { IfErr result (λ e. is_crew_stop e ≡ true) }
    {
        for made in 0..count {
            // proof: the invariant counts by it
            let _ = made;
            gates.push_reserved(self.gate(rt, start, resolver)?);
        }
        Ok(())
    }
}

// A resolver whose clock started at `start`, and a thread that begins the lookups that it is asked for.
fn served<
    R: Net<Listener = TcpListener, Stream = TcpStream>
        + Clock
        + AllocGlobal
        + Threads
        + Wait
        + Copy
        + Send
        + Sync
        + Drop
        + 'static,
>(rt: &R, start: Instant) -> Result<Resolver<SystemLookup<R>, NameBell>, Stop>
    ensures why { IfErr result (λ e. is_crew_stop e ≡ true) }
{
    let resolver = Resolver::new(rt.alloc(), SystemLookup::new(*rt), start)?;
    match share(rt, &resolver) {
        Ok(()) => Ok(resolver),
        Err(error) => {
            drop(resolver);
            Err(error)
        }
    }
}

// Starts the thread of a resolver, which it shares with that thread.
fn share<
    L: Lookup + Send + Sync + Drop + 'static,
    R: Clock + AllocGlobal + Threads + Wait + Copy + Send + Drop + 'static,
>(rt: &R, resolver: &Resolver<L, NameBell>) -> Result<(), Stop>
    ensures why { IfErr result (λ e. is_crew_stop e ≡ true) }
{
    serve(rt, resolver.share()?)
}

// Starts a thread that begins the lookups that are wanted.
fn serve<
    L: Lookup + Send + Sync + Drop + 'static,
    R: Clock + AllocGlobal + Threads + Wait + Copy + Send + Drop + 'static,
>(rt: &R, resolver: Resolver<L, NameBell>) -> Result<(), Stop>
    ensures why { IfErr result (λ e. is_crew_stop e ≡ true) }
{
    let there = *rt;
    match thread::spawn(rt, move || resolver.serve(&there)) {
        Ok(thread) => {
            drop(thread);
            Ok(())
        }
        Err(_) => Err(Stop::NoThread),
    }
}

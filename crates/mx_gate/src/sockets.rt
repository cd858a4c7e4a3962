//! A gate to the network.
ghost use Rattle.std.specs.Prelude.{◌≡◌, ◌≤◌, ◌<◌, ◌/◌, ◌-◌, ◌^◌, ◌∷◌, ◌++◌, true, false, ◌||◌, ◌⊎◌, [], length, min, max, IfOk, IfErr, OnErr};
ghost use Rattle.std.specs.Duration.{as_nanos};
ghost use Rattle.mio.specs.Event.{is_readable, is_writable, is_error, is_read_closed, is_write_closed};
ghost use Rattle.mx_types.specs.Code.{is_link_code};
ghost use Rattle.mx_gate.specs.Said.{told, asked, opened, lacked, waited, numbered, is_stop};
ghost use Rattle.mx_gate.specs.Dials.{Dials, AreAt, AreAddressesOf, NotesFirst};
ghost use Rattle.mx_gate.specs.Dialling.{addresses_of};
ghost use Rattle.mx_gate.specs.Gates.{moment_after, next_token, turn_of, is_start_code};

use crate::addresses::{Found, addresses_of, at_port};
use crate::dialling::{Dial, DialLink};
use crate::faults::{connect_code, meets_file_limit};
use crate::gate::{Gate, Turn};
use crate::lazy_waker::LazyWaker;
use crate::ready::ReadyLink;
use crate::said::Said;
use crate::signals::Signals;
use mio::event::Event;
use mio::net::TcpStream;
use mio::{Events, Interest, Poll, Registry, Token};
use mx_link::{Link, TcpLink};
use mx_request::Endpoint;
use mx_types::{Code, History};
use std::alloc::{AllocError, Global};
use std::io;
use std::marker::Model;
use std::net::{Net, SocketAddr};
use std::os::fd::{AsRawFd, RawFd};
use std::rt::Clock;
use std::sync::Arc;
use std::sync::atomic::{AtomicBool, Ordering};
use std::time::{Duration, Instant};

/// The most events that one wait reports; what else is ready is reported by the next.
const MOST_EVENTS: usize = 128;

/// The token of a gate's bell. Those of its links begin at 1.
const BELL: Token = Token(0);

/// A link that a `SocketGate` opens.
pub type SocketLink<'r, R> = ReadyLink<DialLink<SocketDial<'r, R>>>;

// What a gate has in common with those that open its connections: where these are registered, and whether one couldn't be begun since too
// many files were open: the last one, of which the gate wasn't asked yet, and one before it.
#[derive(Drop)]
struct SharedRegistry {
    registry: Registry,
    met_file_limit: AtomicBool,
    lacks_files: AtomicBool,
}

impl SharedRegistry {
    // Notes that too many files were open for the last connection, where that was so, and the gate wasn't asked.
    fn pass(&self) {
        if self.lacks_files.swap(false, Ordering::SeqCst) {
            self.met_file_limit.store(true, Ordering::SeqCst);
        }
    }

    // The code of a connection that couldn't be begun. It is noted where too many files were open.
    fn refused(&self, error: &io::Error) -> Code
        ensures { is_link_code result ≡ true }
    {
        if meets_file_limit(error) {
            self.lacks_files.store(true, Ordering::SeqCst);
        }
        connect_code(error)
    }
}

/// What opens the connections of one link of a `SocketGate`, and has its poll report when they are ready. Contracts see what it dialled.
pub struct SocketDial<'r, R> {
    rt: &'r R,
    shared: Arc<SharedRegistry>,
    dialled: History<SocketAddr>,
}

// Written out, and not derived: a crate that drops a dialler cites its proof.
impl<'r, R> Drop for SocketDial<'r, R> {
    fn drop(self) {
        let SocketDial {
            rt: _,
            shared,
            dialled,
        } = self;
        drop(shared);
        drop(dialled);
    }
}

impl<'r, R> Model for SocketDial<'r, R> {
    ghost use Rattle.std.specs.Prelude.{List};
    ghost use Rattle.std.specs.declared.net.SocketAddr.{SocketAddr as Address};

    ghost Value = { List Address };

    ghost view = { λ d. d.dialled };
}

// Begins to connect, and has the poll report under this token when the connection is ready.
fn connect<R: Net>(
    rt: &R,
    registry: &Registry,
    address: SocketAddr,
    token: u64,
) -> io::Result<TcpStream> {
    let mut stream = TcpStream::connect(rt, address)?;
    registry.register(
        &mut stream,
        Token(token as usize),
        Interest::READABLE | Interest::WRITABLE,
    )?;
    Ok(stream)
}

impl<R: Net> Dial for SocketDial<'_, R> {
    type Link = TcpLink;

    ghost dialled = { λ dial. dial };

    fn dial(&mut self, address: SocketAddr, token: u64) -> Result<TcpLink, Code> {
        self.dialled.note(address);
        match connect(self.rt, &self.shared.registry, address, token) {
            Ok(stream) => Ok(TcpLink::new(stream, token)),
            Err(error) => Err(self.shared.refused(&error)),
        }
    }
}

/// Ends a wait of its gate from any thread.
pub struct Bell {
    waker: Arc<LazyWaker>,
}

// Written out, and not derived: a crate that drops a bell cites its proof.
impl Drop for Bell {
    fn drop(self) {
        let Bell { waker } = self;
        drop(waker);
    }
}

impl Bell {
    /// Ends the wait that is under way, else the next one. It doesn't wait. Several rings may end one wait, and a ring
    /// is lost where the gate is gone. It makes no system call where no wait is under way.
    pub fn ring(&self) -> io::Result<()> {
        self.waker.wake()
    }
}

/// Whether too many files were open for a connection of its gate, from any thread.
pub struct FileLimit {
    shared: Arc<SharedRegistry>,
}

// Written out, and not derived: a crate that drops one cites its proof.
impl Drop for FileLimit {
    fn drop(self) {
        let FileLimit { shared } = self;
        drop(shared);
    }
}

impl FileLimit {
    /// Whether a connection couldn't be begun since the process, or the system, had as many open files as it may have. One of which its gate
    /// was asked (`Gate::lacks_files`) doesn't count: another may be opened in its place.
    pub fn was_met(&self) -> bool {
        self.shared.met_file_limit.load(Ordering::SeqCst)
            || self.shared.lacks_files.load(Ordering::SeqCst)
    }
}

/// A gate that opens TCP connections, and waits until one of them is ready. A link of it that would have waited makes no system call before
/// something new was reported of its connection. Contracts see the latest moment given, the token of its next link, whether its last turn
/// saw the flag that stops it, and all that was said. What the network answers, and when, no contract can say.
pub struct SocketGate<'r, R> {
    rt: &'r R,
    alloc: Global,
    poll: Poll,
    shared: Arc<SharedRegistry>,
    events: Events<Global>,
    bell: Arc<LazyWaker>,
    signals: Arc<Signals>,
    stop: Arc<AtomicBool>,
    start: Instant,
    latest: u64,
    next_token: u64,
    is_stopped: bool,
    looked_at: Option<u64>,
    may_skip: bool,
    may_wait: bool,
    found: History<Found>,
    dialled: History<SocketAddr>,
    said: History<Said>,
}

// Written out, and not derived: a crate that drops a gate cites its proof.
impl<'r, R> Drop for SocketGate<'r, R> {
    fn drop(self) {
        let SocketGate {
            rt: _,
            alloc: _,
            poll,
            shared,
            events,
            bell,
            signals,
            stop,
            start: _,
            latest: _,
            next_token: _,
            is_stopped: _,
            looked_at: _,
            may_skip: _,
            may_wait: _,
            found,
            dialled,
            said,
        } = self;
        drop(poll);
        drop(shared);
        drop(events);
        drop(bell);
        drop(signals);
        drop(stop);
        drop(found);
        drop(dialled);
        drop(said);
    }
}

impl<'r, R> Model for SocketGate<'r, R> {
    ghost use Rattle.mx_gate.specs.Gates.{SocketGateState};

    ghost Value = { SocketGateState };

    ghost view = { λ g. record { latest = g.latest; next_token = g.next_token; is_stopped = g.is_stopped; found = g.found; dialled = g.dialled; said = g.said } };
}

type Parts = (
    Poll,
    Arc<SharedRegistry>,
    Events<Global>,
    Arc<LazyWaker>,
    Arc<Signals>,
);

// The part of a gate with this poll that its links share.
fn share(alloc: Global, poll: &Poll) -> io::Result<Arc<SharedRegistry>> {
    let shared = SharedRegistry {
        registry: poll.registry().try_clone()?,
        met_file_limit: AtomicBool::new(false),
        lacks_files: AtomicBool::new(false),
    };
    Ok(Arc::new(alloc, shared)?)
}

// Opens so many descriptors, each one more of this registry. It owns none of them but the last one, so its exits drop no more.
fn open_registries(registry: &Registry, count: usize, held: &mut Vec<Registry>) -> io::Result<()> {
    for _ in 0..count {
        held.push(registry.try_clone()?)?;
    }
    Ok(())
}

// The bell that ends a wait of this poll.
fn bell_of(alloc: Global, poll: &Poll) -> io::Result<Arc<LazyWaker>> {
    Ok(Arc::new(alloc, LazyWaker::new(poll.registry(), BELL)?)?)
}

// The events of this poll, the bell that ends its waits, and the signals that its links look at.
fn tellers(
    alloc: Global,
    poll: &Poll,
) -> io::Result<(Events<Global>, Arc<LazyWaker>, Arc<Signals>)> {
    let events = Events::with_capacity(alloc, MOST_EVENTS)?;
    let bell = bell_of(alloc, poll)?;
    let signals = Arc::new(alloc, Signals::new(alloc)?)?;
    Ok((events, bell, signals))
}

// What an event reports of its connection.
#[derive(Clone, Copy)]
struct News {
    // It may be read: a read would not wait.
    may_read: bool,
    // The other side sends no more, or it failed.
    has_ended: bool,
    // It is made, failed, or may be written to.
    may_write: bool,
}

// rule gate-waiting-writer, unproved: A link that waits to write asks again once there is room, or an error.
fn news_of(event: &Event) -> News
    ensures reads { result.may_read ≡ (is_readable event.now || (is_read_closed event.now || is_error event.now)) }
    ensures ends { result.has_ended ≡ (is_read_closed event.now || is_error event.now) }
    ensures writes { result.may_write ≡ (is_writable event.now || (is_write_closed event.now || is_error event.now)) }
{
    let has_ended = event.is_read_closed() || event.is_error();
    News {
        may_read: event.is_readable() || has_ended,
        has_ended,
        may_write: event.is_writable() || event.is_write_closed() || event.is_error(),
    }
}

// The moment, where so much time passed since the start.
fn moment_after(latest: u64, passed: Duration) -> u64
    ensures { result ≡ moment_after latest (as_nanos passed) }
{
    let moment = u64::try_from(passed.as_millis()).unwrap_or(u64::MAX);
    latest.max(moment)
}

// A link over these addresses. The dial opens its connections, and the signals report when they are ready.
fn link_over<'r, R: Net>(
    dialler: (SocketDial<'r, R>, Arc<Signals>),
    addresses: Vec<SocketAddr>,
    token: u64,
) -> Result<SocketLink<'r, R>, Code>
    requires { dialler.0 ≡ [] }
    ensures opened { IfOk result (λ link. (link.link.token ≡ token) × (link.history ≡ [])) }
    ensures addresses { IfOk result (λ link. addresses_of link.link ≡ addresses.items) }
    ensures some { IfOk result (λ link. 0 < length link.link.dialled) }
    ensures code { IfErr result (λ code. is_link_code code ≡ true) }
{
    let (dial, signals) = dialler;
    match DialLink::over(dial, addresses, token) {
        Ok(link) => Ok(ReadyLink::over(link, signals)),
        Err(code) => Err(code),
    }
}

/// The number of the link that was opened, or the code of why it couldn't be.
pub fn number_of<R: Net>(answer: &Result<SocketLink<'_, R>, Code>) -> Result<u64, Code>
    ensures { result ≡ numbered (λ link. link.link.token) answer.now }
{
    match answer {
        Ok(link) => Ok(link.token()),
        Err(code) => Err(*code),
    }
}

// rule gate-stop
fn turn_of(is_stopped: bool) -> Turn
    ensures { result ≡ turn_of is_stopped }
{
    if is_stopped {
        Turn::Stop
    } else {
        Turn::Continue
    }
}

impl<'r, R: Net + Clock> SocketGate<'r, R> {
    /// A gate whose clock starts now, and whose turns answer `Stop` while the flag is set.
    ///
    /// `CouldntConnect` comes where the system gives no poll or no clock, `OutOfMemory` where memory is refused. An error drops the flag.
    pub fn new(rt: &'r R, alloc: Global, stop: Arc<AtomicBool>) -> Result<SocketGate<'r, R>, Code>
        ensures opened { IfOk result (λ gate. gate ≡ record { latest = 0; next_token = 1; is_stopped = false; found = []; dialled = []; said = [] }) }
        ensures code { IfErr result (λ code. is_start_code code ≡ true) }
    {
        match Instant::now(rt) {
            Ok(start) => SocketGate::starting_at(rt, alloc, stop, start),
            Err(error) => Err(connect_code(&error)),
        }
    }

    /// The same, with a clock that started at `start`. Gates among which transfers go back and forth have one start,
    /// since a deadline is a moment of the gate that set it. An error drops the flag.
    pub fn starting_at(
        rt: &'r R,
        alloc: Global,
        stop: Arc<AtomicBool>,
        start: Instant,
    ) -> Result<SocketGate<'r, R>, Code>
        ensures opened { IfOk result (λ gate. gate ≡ record { latest = 0; next_token = 1; is_stopped = false; found = []; dialled = []; said = [] }) }
        ensures code { IfErr result (λ code. is_start_code code ≡ true) }
    {
        match SocketGate::parts(rt, alloc) {
            Ok((poll, shared, events, bell, signals)) => Ok(SocketGate {
                rt,
                alloc,
                poll,
                shared,
                events,
                bell,
                signals,
                stop,
                start,
                latest: 0,
                next_token: 1,
                is_stopped: false,
                looked_at: None,
                may_skip: false,
                may_wait: true,
                found: History::new(),
                dialled: History::new(),
                said: History::new(),
            }),
            Err(error) => Err(connect_code(&error)),
        }
    }

    fn parts(rt: &'r R, alloc: Global) -> io::Result<Parts> {
        let poll = Poll::new(rt)?;
        let shared = share(alloc, &poll)?;
        let (events, bell, signals) = tellers(alloc, &poll)?;
        Ok((poll, shared, events, bell, signals))
    }

    /// From now on no turn waits, for a caller that waits by itself: until the descriptor can be read. It calls `look_now` then, before the
    /// next turn.
    ///
    /// No clause says that no turn waits.
    pub fn wait_elsewhere(&mut self)
        ensures { self.new ≡ self.old }
    {
        self.may_wait = false;
    }

    /// A descriptor that can be read once something is reported of a connection, until a look finds it: an epoll's. It is the gate's own.
    pub fn descriptor(&self) -> RawFd {
        self.poll.as_raw_fd()
    }

    /// Counts what is reported of each connection, and doesn't wait.
    pub fn look_now(&mut self)
        ensures { self.new ≡ self.old }
    {
        self.look(0);
    }

    /// The moment at which the gate's clock started.
    pub fn start(&self) -> Instant {
        self.start
    }

    /// What ends a wait of this gate.
    ///
    /// The one error is that there are too many of them.
    pub fn bell(&self) -> Result<Bell, AllocError> {
        Ok(Bell {
            waker: Arc::try_clone(&self.bell)?,
        })
    }

    /// Shows whether too many files were open for a connection of this gate.
    ///
    /// The one error is that there are too many of them.
    pub fn file_limit(&self) -> Result<FileLimit, AllocError> {
        Ok(FileLimit {
            shared: Arc::try_clone(&self.shared)?,
        })
    }

    /// Whether the system gives so many descriptors beside those that are open: it opens as many at once, and closes them.
    ///
    /// No clause says which it answers.
    pub fn has_descriptors(&self, count: usize) -> bool {
        let mut held = Vec::new(self.alloc);
        let are_open = open_registries(&self.shared.registry, count, &mut held).is_ok();
        drop(held);
        are_open
    }

    // What opens the connections of a link that has dialled nothing yet.
    fn dialler(&self) -> Result<(SocketDial<'r, R>, Arc<Signals>), AllocError>
        ensures { IfOk result (λ dialler. dialler.0 ≡ []) }
    {
        let shared = Arc::try_clone(&self.shared)?;
        let signals = Arc::try_clone(&self.signals)?;
        let dial = SocketDial {
            rt: self.rt,
            shared,
            dialled: History::new(),
        };
        Ok((dial, signals))
    }

    // Begins to connect to the first of these addresses that isn't refused at once. The first of them is noted just before it is dialled.
    fn begin_at(&mut self, addresses: Vec<SocketAddr>) -> Result<SocketLink<'r, R>, Code>
        ensures code { IfErr result (λ code. is_link_code code ≡ true) }
        ensures opened { IfOk result (λ link. (link.link.token ≡ self.old.next_token) × (link.history ≡ [])
            × (self.new ≡ record self.old { next_token = next_token self.old.next_token; dialled = self.new.dialled })) }
        ensures addresses { IfOk result (λ link. addresses_of link.link ≡ addresses.items) }
        ensures some { IfOk result (λ link. 0 < length link.link.dialled) }
        ensures refused { OnErr result (self.new ≡ record self.old { dialled = self.new.dialled }) }
        ensures dialled { IfOk result (λ _. NotesFirst addresses.items self.old.dialled self.new.dialled) }
        ensures undialled { OnErr result ((self.new.dialled ≡ self.old.dialled) ⊎ NotesFirst addresses.items self.old.dialled self.new.dialled) }
    {
        self.shared.pass();
        let Ok(dialler) = self.dialler() else {
            return Err(Code::OutOfMemory);
        };
        let Some(first) = addresses.first().copied() else {
            return Err(Code::CouldntConnect);
        };
        self.dialled.note(first);
        let token = self.next_token;
        match link_over(dialler, addresses, token) {
            Ok(link) => {
                self.may_skip = false;
                self.next_token = token.saturating_add(1);
                Ok(link)
            }
            Err(code) => Err(code),
        }
    }

    // rule gate-first-address
    // Begins to connect to the addresses of the endpoint.
    fn begin(&mut self, endpoint: &Endpoint) -> Result<SocketLink<'r, R>, Code>
        ensures code { IfErr result (λ code. is_link_code code ≡ true) }
        ensures opened { IfOk result (λ link. (link.link.token ≡ self.old.next_token) × (link.history ≡ [])
            × (self.new ≡ record self.old { next_token = next_token self.old.next_token; found = self.new.found; dialled = self.new.dialled })) }
        ensures addresses { IfOk result (λ link. AreAddressesOf endpoint.now (addresses_of link.link) self.old.found self.new.found) }
        ensures some { IfOk result (λ link. 0 < length link.link.dialled) }
        ensures refused { OnErr result (self.new ≡ record self.old { found = self.new.found; dialled = self.new.dialled }) }
        ensures dialled { IfOk result (λ _. Dials endpoint.now self.old self.new) }
        ensures undialled { OnErr result ((self.new.dialled ≡ self.old.dialled) ⊎ Dials endpoint.now self.old self.new) }
    {
        let addresses = addresses_of(self.rt, self.alloc, endpoint, &mut self.found)?;
        match self.begin_at(addresses) {
            Ok(link) => Ok(link),
            Err(code) => Err(code),
        }
    }

    // The same of these addresses, at the port of the endpoint.
    fn begin_with(
        &mut self,
        endpoint: &Endpoint,
        addresses: &[SocketAddr],
    ) -> Result<SocketLink<'r, R>, Code>
        ensures code { IfErr result (λ code. is_link_code code ≡ true) }
        ensures opened { IfOk result (λ link. (link.link.token ≡ self.old.next_token) × (link.history ≡ [])
            × (self.new ≡ record self.old { next_token = next_token self.old.next_token; dialled = self.new.dialled })) }
        ensures addresses { IfOk result (λ link. AreAt endpoint.now.port addresses.now (addresses_of link.link)) }
        ensures some { IfOk result (λ link. 0 < length link.link.dialled) }
        ensures refused { OnErr result (self.new ≡ record self.old { dialled = self.new.dialled }) }
        ensures dialled { IfOk result (λ link. NotesFirst (addresses_of link.link) self.old.dialled self.new.dialled) }
    {
        let Ok(all) = at_port(self.alloc, addresses, endpoint.port) else {
            return Err(Code::OutOfMemory);
        };
        match self.begin_at(all) {
            Ok(link) => Ok(link),
            Err(code) => Err(code),
        }
    }

    /// A link to the endpoint, over these addresses of its host in their order, at the endpoint's port. They are the caller's: nothing is
    /// looked up. Without an address it is `CouldntConnect`.
    ///
    /// On an error no clause says what was added to the list of dialled addresses, which exists in contracts alone.
    pub fn open_at(
        &mut self,
        endpoint: &Endpoint,
        addresses: &[SocketAddr],
    ) -> Result<SocketLink<'r, R>, Code>
        ensures fresh { IfOk result (λ link. link.history ≡ []) }
        ensures code { IfErr result (λ code. is_link_code code ≡ true) }
        ensures opened { IfOk result (λ link. (link.link.token ≡ self.old.next_token)
            × (self.new ≡ record self.old { next_token = next_token self.old.next_token; dialled = self.new.dialled; said = self.new.said })) }
        ensures addresses { IfOk result (λ link. AreAt endpoint.now.port addresses.now (addresses_of link.link)) }
        ensures some { IfOk result (λ link. 0 < length link.link.dialled) }
        ensures refused { OnErr result (self.new ≡ record self.old { dialled = self.new.dialled; said = self.new.said }) }
        ensures dialled { IfOk result (λ link. NotesFirst (addresses_of link.link) self.old.dialled self.new.dialled) }
        ensures noted { self.new.said ≡ self.old.said ++ opened endpoint.now (numbered (λ link. link.link.token) result) ∷ [] }
    {
        let answer = self.begin_with(endpoint, addresses);
        let number = number_of(&answer);
        self.said.note(Said::opened_under(endpoint, number));
        answer
    }

    /// The latest moment given, 0 before the first.
    pub fn latest(&self) -> u64
        ensures { result ≡ self.now.latest }
    {
        self.latest
    }

    // rule gate-stop
    // Waits, and counts what was reported. A wait that fails ends at once, like one that a signal ends, and reports nothing.
    fn look(&mut self, wait_ms: u32)
        ensures { self.new ≡ self.old }
    {
        self.looked_at = Some(self.latest);
        let wait = Duration::from_millis(u64::from(wait_ms));
        if self.poll.poll(&mut self.events, Some(wait)).is_ok() {
            self.tell();
        }
    }

    // rule gate-no-wait
    // Waits so long, unless the bell was rung since the last turn. A turn of no wait looks where it may not skip that. Where the caller waits
    // by itself a turn that would have waited doesn't look, so that the descriptor can be read until somebody does.
    fn wait(&mut self, wait_ms: u32)
        ensures { self.new ≡ self.old }
    {
        if wait_ms > 0 && !self.may_wait {
            return;
        }
        if self.bell.begin(wait_ms > 0) {
            self.look(wait_ms);
        } else if !self.may_skip {
            self.look(0);
        }
        self.bell.end();
    }

    // Counts what the last wait reported of each connection.
    fn tell(&self) {
        for event in self.events.iter() {
            let token = event.token().0 as u64;
            let news = news_of(event);
            if news.has_ended {
                self.signals.tell_end(token);
            }
            if news.may_read {
                self.signals.tell_read(token);
            }
            if news.may_write {
                self.signals.tell_write(token);
            }
        }
    }
}

impl<'r, R: Net + Clock> Gate for SocketGate<'r, R> {
    type Link = SocketLink<'r, R>;

    ghost said = { λ gate. gate.said };

    ghost latest = { λ gate. gate.latest };

    fn now(&mut self) -> u64
        ensures told { result ≡ self.new.latest }
        ensures rises { self.old.latest ≤ self.new.latest }
        ensures others { self.new ≡ record self.old { latest = self.new.latest; said = self.new.said } }
        ensures noted { self.new.said ≡ self.old.said ++ told result ∷ [] }
    {
        if let Ok(passed) = self.start.elapsed(self.rt) {
            self.latest = moment_after(self.latest, passed);
        }
        self.may_skip = self.looked_at == Some(self.latest);
        self.said.note(Said::told(self.latest));
        self.latest
    }

    /// It can: `open` looks the name up itself.
    fn can_open(&mut self, endpoint: &Endpoint) -> bool
        ensures yes { result ≡ true }
        ensures moment { self.new.latest ≡ self.old.latest }
        ensures others { self.new ≡ record self.old { said = self.new.said } }
        ensures noted { self.new.said ≡ self.old.said ++ asked endpoint.now result ∷ [] }
    {
        self.said.note(Said::asked(endpoint, true));
        true
    }

    /// Begins to connect to the addresses of the endpoint (`addresses_of`): to the first that isn't refused at once.
    ///
    /// On an error no clause says what was added to the list of lookups, which exists in contracts alone.
    fn open(&mut self, endpoint: &Endpoint) -> Result<SocketLink<'r, R>, Code>
        ensures fresh { IfOk result (λ link. link.history ≡ []) }
        ensures code { IfErr result (λ code. is_link_code code ≡ true) }
        ensures moment { self.new.latest ≡ self.old.latest }
        ensures opened { IfOk result (λ link. (link.link.token ≡ self.old.next_token) × (link.history ≡ [])
            × (self.new ≡ record self.old { next_token = next_token self.old.next_token; found = self.new.found; dialled = self.new.dialled; said = self.new.said })) }
        ensures refused { OnErr result (self.new ≡ record self.old { found = self.new.found; dialled = self.new.dialled; said = self.new.said }) }
        ensures addresses { IfOk result (λ link. AreAddressesOf endpoint.now (addresses_of link.link) self.old.found self.new.found) }
        ensures some { IfOk result (λ link. 0 < length link.link.dialled) }
        ensures dialled { IfOk result (λ _. Dials endpoint.now self.old self.new) }
        ensures undialled { OnErr result ((self.new.dialled ≡ self.old.dialled) ⊎ Dials endpoint.now self.old self.new) }
        ensures noted { self.new.said ≡ self.old.said ++ opened endpoint.now (numbered (λ link. link.link.token) result) ∷ [] }
    {
        let answer = self.begin(endpoint);
        let number = number_of(&answer);
        self.said.note(Said::opened_under(endpoint, number));
        answer
    }

    /// It lacks some where the system refused a connection for that cause since the last link was to be opened, and it wasn't asked since.
    fn lacks_files(&mut self) -> bool
        ensures moment { self.new.latest ≡ self.old.latest }
        ensures others { self.new ≡ record self.old { said = self.new.said } }
        ensures noted { self.new.said ≡ self.old.said ++ lacked result ∷ [] }
    {
        let lacks = self.shared.lacks_files.swap(false, Ordering::SeqCst);
        self.said.note(Said::lacked(lacks));
        lacks
    }

    // rule gate-no-wait, unproved: A turn of no wait, and one whose bell was rung since the last, asks the system once a millisecond, and
    // where a link was opened since.
    /// Waits until a connection is ready or the bell is rung. Links may call again once something of their connections is reported. A turn
    /// of no wait, and one whose bell was rung since the last turn, looks once a millisecond of the clock, so that it costs a worker that
    /// has work at hand no system call each time; and where a link was opened since the last, so that a worker that begins many connections
    /// finds those that have become free meanwhile.
    ///
    /// It blocks in the system's poll, though it has no bound `Wait`. No clause says that the system is given this wait, or that the
    /// answer is the flag's value.
    fn turn(&mut self, wait_ms: u32) -> Turn
        ensures stop { result ≡ turn_of self.new.is_stopped }
        ensures others { self.new ≡ record self.old { is_stopped = self.new.is_stopped; said = self.new.said } }
        ensures noted { self.new.said ≡ self.old.said ++ waited wait_ms (is_stop result) ∷ [] }
    {
        self.wait(wait_ms);
        self.may_skip = false;
        self.is_stopped = self.stop.load(Ordering::SeqCst);
        let turn = turn_of(self.is_stopped);
        self.said.note(Said::waited(wait_ms, turn));
        turn
    }
}

//! A link over the addresses of a host.
ghost use Rattle.std.specs.Prelude.{◌≡◌, ◌<◌, ◌-◌, ◌^◌, ℕ, List, true, [], ◌∷◌, ◌++◌, ◌⊎◌, length, min, IfOk, IfErr, OnErr};
ghost use Rattle.std.specs.declared.net.SocketAddr.{SocketAddr as Address};
ghost use Rattle.mx_link.specs.Calls.{connect_answer, read_answer, write_answer, IsReadWithin, IsWriteWithin};
ghost use Rattle.mx_types.specs.Code.{is_link_code};
ghost use Rattle.mx_link.specs.declared.answers.Connect.TheVariants as connects;
ghost use Rattle.mx_gate.specs.Dialling.{addresses_of, is_unmade, is_connecting, IsUndone, DialsNext, MayDial};

use mx_link::{Answer, Connect, Link, Read, Write};
use mx_types::{Code, History};
use std::collections::VecDeque;
use std::marker::Model;
use std::net::SocketAddr;

/// What opens connections to addresses.
pub trait Dial: Drop {
    type Link: Link;

    // What it dialled so far, in order.
    ghost dialled: { Self → List Address };

    /// Begins to connect to the address. The readiness of the link, which has answered nothing yet, is reported under the token.
    ///
    /// The errors are `CouldntConnect` and `OutOfMemory`.
    fn dial(&mut self, address: SocketAddr, token: u64) -> Result<Self::Link, Code>
        ensures dialled { dialled self.new ≡ dialled self.old ++ address ∷ [] }
        ensures history { IfOk result (λ link. Self.Link.history link ≡ []) }
        ensures asked { IfOk result (λ link. Self.Link.asked link ≡ []) }
        ensures token { IfOk result (λ link. Self.Link.token_of link ≡ token) }
        ensures code { IfErr result (λ code. is_link_code code ≡ true) };
}

/// A link over the addresses of a host. It dials them in their order, each once: the next where one is refused, until a connection is made.
/// Once it was asked to read or to write, or its connection was made, it dials no more. What it gave is what its one connection gave; an
/// address that is refused while others are left is reported as a connection that is still being made. All have one token.
///
/// No clause says that the next address is dialled only after a refusal.
pub struct DialLink<D: Dial> {
    dial: D,
    left: VecDeque<SocketAddr>,
    link: D::Link,
    may_dial: bool,
    history: History<Answer>,
    asked: History<usize>,
}

// Written out, and not derived: a crate that drops a link cites its proof.
impl<D: Dial> Drop for DialLink<D> {
    fn drop(self) {
        let DialLink {
            dial,
            left,
            link,
            may_dial: _,
            history,
            asked,
        } = self;
        drop(dial);
        drop(left);
        drop(link);
        drop(history);
        drop(asked);
    }
}

impl<D: Dial> Model for DialLink<D> {
    ghost use Rattle.std.specs.Prelude.{◌≡◌};
    ghost use Rattle.mx_link.specs.Answers.{faults};
    ghost use Rattle.mx_gate.specs.Dialling.{DialState, is_connecting};

    ghost Value = { DialState };

    ghost view = { λ l. record {
      token = D.Link.token_of l.link;
      dialled = D.dialled l.dial;
      left = l.left.items;
      history = l.history;
      asked = l.asked;
    } };

    ghost invariant = { λ l. record {
      connecting : l.may_dial ≡ is_connecting l.history;
      faults : faults l.history ≡ faults (D.Link.history l.link);
    } };
}

// rule gate-dialling
// Dials what is left, one address after another, until one isn't refused at once.
fn dial_left<D: Dial>(
    dial: &mut D,
    left: &mut VecDeque<SocketAddr>,
    token: u64,
) -> Result<D::Link, Code>
    ensures next { DialsNext (D.dialled dial.old) left.old.items (D.dialled dial.new) left.new.items }
    ensures some { IfOk result (λ _. length left.new.items < length left.old.items) }
    ensures all { OnErr result (left.new.items ≡ []) }
    ensures history { IfOk result (λ link. D.Link.history link ≡ []) }
    ensures asked { IfOk result (λ link. D.Link.asked link ≡ []) }
    ensures token { IfOk result (λ link. D.Link.token_of link ≡ token) }
    ensures code { IfErr result (λ code. is_link_code code ≡ true) }
{
    let mut refusal = Code::CouldntConnect;
    while let Some(address) = left.pop_front() {
        match dial.dial(address, token) {
            Ok(link) => return Ok(link),
            Err(code) => refusal = code,
        }
    }
    Err(refusal)
}

// Replaces a link that was refused by one to the next address that isn't refused at once; where there is none, it stays.
fn replace<D: Dial>(dial: &mut D, left: &mut VecDeque<SocketAddr>, link: &mut D::Link) -> Connect
    ensures next { DialsNext (D.dialled dial.old) left.old.items (D.dialled dial.new) left.new.items }
    ensures undone { IsUndone result }
    ensures all { result ≡ connects.Fault → left.new.items ≡ [] }
    ensures fresh { result ≡ connects.WouldBlock → D.Link.history link.new ≡ [] }
    ensures kept { result ≡ connects.Fault → link.new ≡ link.old }
    ensures token { D.Link.token_of link.new ≡ D.Link.token_of link.old }
{
    let token = link.token();
    match dial_left(dial, left, token) {
        Ok(next) => {
            *link = next;
            Connect::WouldBlock
        }
        Err(_) => Connect::Fault,
    }
}

// rule gate-dialling
// Checks whether the connection is made. Where it is refused, and the next address may be dialled, that is.
#[tactic(auto, using(crate::proofs::DialLemmas::dials_none))]
fn ask<D: Dial>(
    dial: &mut D,
    left: &mut VecDeque<SocketAddr>,
    link: &mut D::Link,
    may_dial: bool,
) -> Connect
    ensures next { DialsNext (D.dialled dial.old) left.old.items (D.dialled dial.new) left.new.items }
    ensures may { (D.dialled dial.new ≡ D.dialled dial.old) ⊎ ((may_dial ≡ true) × IsUndone result) }
    ensures all { may_dial ≡ true → result ≡ connects.Fault → left.new.items ≡ [] }
    ensures answered { (D.Link.history link.new ≡ D.Link.history link.old ++ connect_answer result ∷ [])
        ⊎ ((may_dial ≡ true) × (result ≡ connects.WouldBlock) × (D.Link.history link.new ≡ [])) }
    ensures token { D.Link.token_of link.new ≡ D.Link.token_of link.old }
{
    let connect = link.try_connect();
    if connect == Connect::Fault && may_dial {
        return replace(dial, left, link);
    }
    connect
}

fn is_unmade(connect: Connect) -> bool
    ensures { result ≡ is_unmade (connect_answer connect) }
{
    matches!(connect, Connect::WouldBlock)
}

impl<D: Dial> DialLink<D> {
    /// A link over these addresses, which are to be dialled in this order: to the first that isn't refused at once.
    ///
    /// Where each is, the error is that of the last: `CouldntConnect`, or `OutOfMemory`. An error drops the dialler and the addresses.
    #[tactic(auto, using(crate::proofs::DialLemmas::dialled_all, crate::proofs::DialLemmas::dialled_some))]
    pub fn over(mut dial: D, addresses: Vec<SocketAddr>, token: u64) -> Result<DialLink<D>, Code>
        requires { D.dialled dial ≡ [] }
        ensures token { IfOk result (λ link. link.token ≡ token) }
        ensures addresses { IfOk result (λ link. addresses_of link ≡ addresses.items) }
        ensures some { IfOk result (λ link. 0 < length link.dialled) }
        ensures history { IfOk result (λ link. link.history ≡ []) }
        ensures asked { IfOk result (λ link. link.asked ≡ []) }
        ensures code { IfErr result (λ code. is_link_code code ≡ true) }
    {
        let mut left = VecDeque::from(addresses);
        match dial_left(&mut dial, &mut left, token) {
            Ok(link) => Ok(DialLink {
                dial,
                left,
                link,
                may_dial: true,
                history: History::new(),
                asked: History::new(),
            }),
            Err(code) => Err(code),
        }
    }
}

impl<D: Dial> Link for DialLink<D> {
    ghost history = { λ link. link.history };

    ghost asked = { λ link. link.asked };

    ghost token_of = { λ link. link.token };

    #[tactic(auto, using(crate::proofs::DialLemmas::connecting_last, crate::proofs::DialLemmas::faults_asked))]
    fn try_connect(&mut self) -> Connect
        ensures told { self.new.history ≡ self.old.history ++ connect_answer result ∷ [] }
        ensures asked { self.new.asked ≡ self.old.asked ++ 0 ∷ [] }
        ensures token { self.new.token ≡ self.old.token }
        ensures next { DialsNext self.old.dialled self.old.left self.new.dialled self.new.left }
        ensures may { MayDial self.old self.new result }
        ensures all { is_connecting self.old.history ≡ true → result ≡ connects.Fault → self.new.left ≡ [] }
    {
        let connect = ask(
            &mut self.dial,
            &mut self.left,
            &mut self.link,
            self.may_dial,
        );
        let is_unmade = is_unmade(connect);
        self.may_dial = self.may_dial && is_unmade;
        self.history.note(Answer::to_connect(connect));
        self.asked.note(0);
        connect
    }

    #[tactic(auto, using(crate::proofs::DialLemmas::unconnecting_read, crate::proofs::DialLemmas::faults_both))]
    fn try_read(&mut self, buffer: &mut [u8]) -> Read
        requires { 0 < length buffer.old }
        ensures told { self.new.history ≡ self.old.history ++ read_answer result buffer.new ∷ [] }
        ensures asked { self.new.asked ≡ self.old.asked ++ length buffer.new ∷ [] }
        ensures others { self.new ≡ record self.old { history = self.new.history; asked = self.new.asked } }
        ensures within { IsReadWithin result (length buffer.new) }
        ensures length { length buffer.new ≡ length buffer.old }
    {
        let read = self.link.try_read(buffer);
        self.may_dial = false;
        self.history.note(Answer::to_read(read, buffer));
        self.asked.note(buffer.len());
        read
    }

    #[tactic(auto, using(crate::proofs::DialLemmas::unconnecting_write, crate::proofs::DialLemmas::faults_both))]
    fn try_write(&mut self, bytes: &[u8]) -> Write
        requires { 0 < length bytes.now }
        ensures told { self.new.history ≡ self.old.history ++ write_answer result bytes.now ∷ [] }
        ensures asked { self.new.asked ≡ self.old.asked ++ length bytes.now ∷ [] }
        ensures others { self.new ≡ record self.old { history = self.new.history; asked = self.new.asked } }
        ensures within { IsWriteWithin result (length bytes.now) }
    {
        let write = self.link.try_write(bytes);
        self.may_dial = false;
        self.history.note(Answer::to_write(write, bytes));
        self.asked.note(bytes.len());
        write
    }

    fn failures(&self) -> u64 {
        self.link.failures()
    }

    fn token(&self) -> u64 {
        self.link.token()
    }
}

//! One of many threads: two seats and a worker's seat, and the calls that they make, from a list or by chance.
ghost use Rattle.std.specs.Prelude.{◌≡◌, ◌<◌};

use crate::client::{Client, Worker, make};
use crate::entries::{Notes, Stop};
use crate::hold::Hold;
use crate::sample::End;
use mx_types::{Call, Code, HandleId, Reply, State};
use std::sync::{Arc, Wait};

/// How many handles there are.
const HANDLES: u32 = 40;

/// The handle that two threads pause and resume in turn.
const ONE: HandleId = HandleId(1);

/// What a thread does at its seats.
#[derive(Clone, Copy)]
pub enum Task {
    Nothing,
    /// The calls of so many turns, by chance from this seed.
    Chance(u64, u32),
    Acts(&'static [Act]),
}

/// What a thread does from a list.
#[derive(Clone, Copy)]
pub enum Act {
    /// A call of its first seat, what it is to answer, and how many events the seat has then seen.
    Make(Call, &'static str, u32),
    /// The same, however many those are.
    Say(Call, &'static str),
    /// A call of its first seat, whatever it answers.
    Any(Call),
    /// The worker claims the next work, and looks at its first claim.
    Claim,
    /// The worker ends the transfer of its last claim, and keeps the lock until another thread releases it.
    FinishHeld(Code, u32),
    /// Waits until another thread keeps the lock so.
    AwaitHold,
    /// Releases it.
    Release,
    /// The first seat takes so many turns: it resumes handle 1, or pauses it, wakes the others, and polls until it is its turn again.
    Turns(bool, u32),
}

/// Numbers by chance (Marsaglia, Xorshift RNGs, 2003), the same again from the same seed.
#[derive(Drop)]
pub struct Chance {
    state: u64,
}

impl Chance {
    pub fn new(seed: u64) -> Chance {
        Chance {
            state: seed.wrapping_mul(0x9E37_79B9_7F4A_7C15) | 1,
        }
    }

    /// A number below the limit.
    pub fn below(&mut self, limit: u32) -> u32
        requires { 0 < limit }
        ensures { result < limit }
    {
        let mut x = self.state;
        x ^= x << 13;
        x ^= x >> 7;
        x ^= x << 17;
        self.state = x;
        ((x >> 33) % u64::from(limit)) as u32
    }

    /// A call of an application thread.
    pub fn call(&mut self) -> Call {
        let handle = HandleId(self.below(HANDLES));
        match self.below(20) {
            0..=4 => Call::Add(handle),
            5..=7 => Call::Remove(handle),
            8 => Call::Pause(handle),
            9 => Call::Unpause(handle),
            10..=12 => Call::InfoRead,
            13 => Call::Wakeup,
            14 => Call::Poll,
            15 => Call::Handles,
            16 => Call::Running,
            _ => Call::State(handle),
        }
    }
}

/// A seat, and what its calls were answered.
#[derive(Drop)]
pub struct Place<'a> {
    pub client: Client<'a>,
    pub notes: Notes,
}

impl<'a> Place<'a> {
    // Makes a call, and says whether it was a wake-up that woke.
    fn call<R: Wait>(&mut self, rt: &R, call: Call) -> Result<bool, Stop>
        ensures { self.new.client.of ≡ self.old.client.of }
    {
        let reply = make(rt, &mut self.client, call);
        let woke = matches!(reply, Some(Reply::Ok));
        self.notes.note(call, reply, self.client.cut())?;
        Ok(woke)
    }

    // Makes a call, whatever it answers.
    fn any<R: Wait>(&mut self, rt: &R, call: Call) -> Result<(), Stop>
        ensures { self.new.client.of ≡ self.old.client.of }
    {
        self.call(rt, call)?;
        Ok(())
    }

    // Makes a call. A poll comes after a wake-up of its own seat, so that it needs no other thread.
    fn turn<R: Wait>(&mut self, rt: &R, call: Call) -> Result<(), Stop>
        ensures { self.new.client.of ≡ self.old.client.of }
    {
        if call != Call::Poll || self.call(rt, Call::Wakeup)? {
            self.call(rt, call)?;
        }
        Ok(())
    }

    // Makes a call that is to answer this, after so many events, or any number.
    fn say<R: Wait>(&mut self, rt: &R, call: Call, said: &str, cut: Option<u32>) -> Result<(), Stop>
        ensures { self.new.client.of ≡ self.old.client.of }
    {
        self.call(rt, call)?;
        if self.notes.last_is(said, cut) {
            return Ok(());
        }
        Err(Stop::Wrong)
    }

    // Whether it is this seat's turn, which resumes or pauses the handle. Before the handle is added it is the other's.
    fn is_next(&mut self, resumes: bool) -> Result<bool, Stop>
        ensures { self.new.client.of ≡ self.old.client.of }
    {
        match self.client.state(ONE) {
            Some(State::Paused(_)) => Ok(resumes),
            Some(State::Running(_)) => Ok(!resumes),
            Some(State::NotAdded) => Ok(false),
            _ => Err(Stop::NoAnswer),
        }
    }

    // Takes so many turns, and polls until it is the next.
    fn take_turns<R: Wait>(&mut self, rt: &R, resumes: bool, count: u32) -> Result<(), Stop>
        ensures { self.new.client.of ≡ self.old.client.of }
    {
        let call = if resumes {
            Call::Unpause(ONE)
        } else {
            Call::Pause(ONE)
        };
        let mut taken = 0u32;
        for _ in rt.forever() {
            if taken >= count {
                return Ok(());
            }
            if self.is_next(resumes)? {
                self.say(rt, call, "changed", None)?;
                self.say(rt, Call::Wakeup, "ok", None)?;
                taken = taken.wrapping_add(1);
            } else {
                self.say(rt, Call::Poll, "woken", None)?;
            }
        }
        Ok(())
    }
}

/// Two seats of a thread, its worker's seat, what it does, and all that was answered.
#[derive(Drop)]
pub struct Party<'a> {
    pub one: Place<'a>,
    pub two: Place<'a>,
    pub worker: Worker<'a>,
    pub notes: Notes,
    pub chance: Chance,
    pub task: Task,
    pub stop: Option<Stop>,
    pub ghost own: { (two.client.of ≡ one.client.of) × (worker.seat.of ≡ one.client.of) },
}

impl<'a> Party<'a> {
    // Claims, and looks at the first of the claimed transfers.
    fn claim<R: Wait>(&mut self, rt: &R) -> Result<(), Stop>
        ensures { self.new.one.client.of ≡ self.old.one.client.of }
    {
        self.worker.claim(rt)?;
        let Some(claim) = self.worker.hand.claims().first() else {
            return Ok(());
        };
        let ticket = claim.ticket();
        let look = self.worker.look(ticket).map(Reply::Look);
        let cut = self.worker.seat.cut();
        self.notes.note(Call::Look(ticket), look, cut)
    }

    // Ends the last of the claimed transfers.
    fn finish<R: Wait>(&mut self, rt: &R, end: End) -> Result<(), Stop>
        ensures { self.new.one.client.of ≡ self.old.one.client.of }
    {
        let Some(claim) = self.worker.hand.claims().last() else {
            drop(end);
            return Ok(());
        };
        let call = Call::Finish(claim.ticket(), end.code, end.size);
        let reply = self.worker.finish(rt, end);
        let cut = self.worker.seat.cut();
        self.notes.note(call, reply, cut)
    }

    // A call or two of each seat by chance, and one or two of the worker's.
    fn turn<R: Wait>(&mut self, rt: &R) -> Result<(), Stop>
        ensures { self.new.one.client.of ≡ self.old.one.client.of }
    {
        let call = self.chance.call();
        self.one.turn(rt, call)?;
        let call = self.chance.call();
        self.two.turn(rt, call)?;
        if self.chance.below(2) == 0 {
            return self.claim(rt);
        }
        let size = self.chance.below(1000);
        let code = if size < 800 {
            Code::Ok
        } else {
            Code::RecvError
        };
        self.finish(rt, End::new(code, size))
    }

    // Makes so many turns.
    fn play<R: Wait>(&mut self, rt: &R, turns: u32) -> Result<(), Stop>
        ensures { self.new.one.client.of ≡ self.old.one.client.of }
    {
        for _ in 0..turns {
            self.turn(rt)?;
        }
        Ok(())
    }

    // Ends the last of the claimed transfers, and keeps the lock until another thread releases it.
    fn finish_held<R: Wait>(
        &mut self,
        rt: &R,
        hold: &Arc<Hold>,
        code: Code,
        size: u32,
    ) -> Result<(), Stop>
        ensures { self.new.one.client.of ≡ self.old.one.client.of }
    {
        match hold.clone() {
            Ok(hold) => self.finish(rt, End::held(code, size, hold)),
            Err(_) => Err(Stop::Memory),
        }
    }

    fn act<R: Wait>(&mut self, rt: &R, hold: &Arc<Hold>, act: Act) -> Result<(), Stop>
        ensures { self.new.one.client.of ≡ self.old.one.client.of }
    {
        match act {
            Act::Make(call, said, cut) => self.one.say(rt, call, said, Some(cut)),
            Act::Say(call, said) => self.one.say(rt, call, said, None),
            Act::Any(call) => self.one.any(rt, call),
            Act::Claim => self.claim(rt),
            Act::FinishHeld(code, size) => self.finish_held(rt, hold, code, size),
            Act::AwaitHold => {
                if hold.has_begun() {
                    return Ok(());
                }
                Err(Stop::Wrong)
            }
            Act::Release => {
                hold.end();
                Ok(())
            }
            Act::Turns(resumes, count) => self.one.take_turns(rt, resumes, count),
        }
    }

    fn act_all<R: Wait>(&mut self, rt: &R, hold: &Arc<Hold>, acts: &[Act]) -> Result<(), Stop>
        ensures { self.new.one.client.of ≡ self.old.one.client.of }
    {
        for act in acts {
            self.act(rt, hold, *act)?;
        }
        Ok(())
    }

    /// Does its task, or as much of it as until it stops. At the end it gives all claimed work back.
    pub fn run<R: Wait>(&mut self, rt: &R, hold: &Arc<Hold>)
        ensures { self.new.one.client.of ≡ self.old.one.client.of }
    {
        let done = match self.task {
            Task::Nothing => Ok(()),
            Task::Chance(_, turns) => self.play(rt, turns),
            Task::Acts(acts) => self.act_all(rt, hold, acts),
        };
        self.stop = done.err();
        self.worker.give_all_back(rt);
    }
}

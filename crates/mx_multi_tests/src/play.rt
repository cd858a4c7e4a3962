//! Scripts of calls at a multi handle of its own, each with what it is to answer. A call that is refused memory is made once more, and is
//! then to answer as if it had been the first.

use crate::rows::first_opened;
use crate::whole::Whole;
use mx_multi::{HistoryUse, Limits, OpenError, Progress, Refusal};
use mx_multi_tests_base::entries::{Entry, Stop, text_of};
use mx_multi_tests_base::hold::Hold;
use mx_multi_tests_base::one_thread::OneThread;
use mx_multi_tests_base::party::Task;
use mx_multi_tests_base::sample::End;
use mx_multi_tests_base::stress::{THREADS, differs_from};
use mx_types::{Call, Code, HandleId, OutOfMemory, Reply, Ticket};
use std::alloc::Global;
use std::sync::{Arc, Wait};
use std::test::Fail;
use std::thread::Threads;
use std::time::Clock;

/// What a call answers.
#[derive(Clone, Copy)]
pub enum Expected {
    /// In the words of `mxfetch play`.
    Text(&'static str),
    /// An addition, with its ticket.
    Added(Ticket),
    /// A message of a handle and a ticket, with code 0 and 5 bytes, and none left.
    Message(HandleId, Ticket),
}

/// A call, with what it is to answer.
#[derive(Clone, Copy)]
pub enum ScriptStep {
    /// A seat's call: its number, the answer, and how many events the seat has then seen.
    Make(usize, Call, Expected, u32),
    /// A seat polls, for a millisecond at most, and whether that returns.
    PollFor(usize, bool),
    /// The last seat makes all calls of a script, and has then seen so many events.
    Run(&'static [Call], u32),
    /// The last two seats meet, and have then both seen so many events.
    MeetTwo(u32),
    /// All seats meet, and have then all seen so many events.
    MeetAll(u32),
    /// The worker claims the next work, which is of that ticket.
    Claim(Ticket),
    /// The worker ends the transfer of its last claim, with a code and a size: how many events its seat has then seen.
    Finish(Code, u32, u32),
    /// The worker gives the work of its last claim back, and whether its ticket ran and was claimed.
    GiveBack(bool),
    /// The worker notes so many bytes for its last claim.
    Note(u32),
    /// The worker looks at a ticket: the answer, and how many events its seat has then seen.
    Look(Ticket, Expected, u32),
    /// The last seat reads the progress of a handle's transfer.
    Progress(HandleId, Progress),
    /// How full the history was when the first seat last saw it, and how full it may be.
    History(HistoryUse),
    /// All is retired, and each new seat has seen so many events, or any number.
    Retire(Option<u32>),
    /// All is to be retired, and isn't.
    Hindered(Refusal),
    /// All but the last seat is to be retired, and isn't.
    HinderedWithoutLast(Refusal),
    /// Threads do their tasks, so many times. The control core of one thread, which makes all their calls in the order of their cuts,
    /// answers the same.
    Beside(&'static [Task], u32),
    /// So many turns of each of eight threads, by chance from a seed; and one thread, as above.
    Storm(u64, u32),
    /// Two threads make all calls of a script each, and have then seen so many events.
    Two(&'static [Call], &'static [Call], u32),
}

/// A multi handle, the control core of one thread beside it where threads made calls, and whether memory was refused.
pub struct Play {
    /// It is always there, but for the calls that take it and answer another in its place.
    place: Option<Whole>,
    one: Option<OneThread>,
    history: u32,
    refused: bool,
}

// Whether an answer has this text.
fn is_text(alloc: Global, reply: &Reply, text: &str) -> Result<bool, OutOfMemory> {
    let told = text_of(alloc, reply)?;
    Ok(told.as_str() == text)
}

// Whether an answer is this. Its text is tried once more where memory was refused.
fn is_reply(alloc: Global, reply: &Reply, said: Expected) -> Result<bool, OutOfMemory> {
    match said {
        Expected::Text(text) => match is_text(alloc, reply, text) {
            Ok(is_so) => Ok(is_so),
            Err(_) => is_text(alloc, reply, text),
        },
        Expected::Added(given) => Ok(matches!(reply, Reply::Added(ticket) if *ticket == given)),
        Expected::Message(of, read) => match reply {
            Reply::Message {
                handle,
                ticket,
                code: Code::Ok,
                size: 5,
                left: 0,
            } => Ok(*handle == of && *ticket == read),
            _ => Ok(false),
        },
    }
}

// Whether this was answered.
fn is_said(alloc: Global, reply: Option<Reply>, said: Expected) -> Result<bool, OutOfMemory> {
    match reply {
        Some(reply) => is_reply(alloc, &reply, said),
        None => Ok(false),
    }
}

// A seat's call, once more where it was refused memory; and whether it was.
fn make<R: Wait>(rt: &R, whole: &mut Whole, number: usize, call: Call) -> (Option<Reply>, bool) {
    let reply = whole.make(rt, number, call);
    if !matches!(reply, Some(Reply::OutOfMemory)) {
        return (reply, false);
    }
    (whole.make(rt, number, call), true)
}

// Ends the transfer of the last claim; once more where it was refused memory, and whether it was.
fn finish<R: Wait>(rt: &R, whole: &mut Whole, code: Code, size: u32) -> (Option<Reply>, bool) {
    let reply = whole.finish(rt, End::new(code, size));
    if !matches!(reply, Some(Reply::OutOfMemory)) {
        return (reply, false);
    }
    (whole.finish(rt, End::new(code, size)), true)
}

// A call that may be refused memory: whether it is as it should be, and whether it was refused.
fn ask<R: Wait>(
    rt: &R,
    alloc: Global,
    whole: &mut Whole,
    step: &ScriptStep,
) -> Result<(bool, bool), OutOfMemory> {
    match *step {
        ScriptStep::Make(number, call, said, cut) => {
            let (reply, is_refused) = make(rt, whole, number, call);
            let is_so = is_said(alloc, reply, said)?;
            Ok((is_so && whole.cut(number) == Some(cut), is_refused))
        }
        ScriptStep::Finish(code, size, cut) => {
            let (reply, is_refused) = finish(rt, whole, code, size);
            let is_so = is_said(alloc, reply, Expected::Text("recorded"))?;
            Ok((is_so && whole.worker_cut() == Some(cut), is_refused))
        }
        ScriptStep::Look(ticket, said, cut) => {
            let look = whole.look(ticket).map(Reply::Look);
            let is_so = is_said(alloc, look, said)?;
            Ok((is_so && whole.worker_cut() == Some(cut), false))
        }
        _ => Ok((false, false)),
    }
}

// A call that is refused no memory, except for this crate's own: whether it is as it should be.
fn call<R: Threads + Wait + Sync + Clock>(
    rt: &R,
    whole: &mut Whole,
    step: &ScriptStep,
) -> Result<bool, OutOfMemory> {
    Ok(match *step {
        ScriptStep::PollFor(number, is_woken) => whole.poll_for(rt, number, 1) == Some(is_woken),
        ScriptStep::Run(calls, cut) => whole.run(rt, calls)? == Some((calls.len(), cut)),
        ScriptStep::MeetTwo(cut) => whole.meet_two(rt)? == Some(cut),
        ScriptStep::MeetAll(cut) => whole.meet_all(rt) == Some(cut) && whole.have_all_seen(cut),
        ScriptStep::Claim(ticket) => whole.claim(rt)? == Some(ticket),
        ScriptStep::GiveBack(is_back) => whole.give_back(rt) == Some(is_back),
        ScriptStep::Note(count) => whole.note(count),
        ScriptStep::Progress(handle, progress) => whole.progress(handle) == Some(progress),
        ScriptStep::History(used) => whole.history(0) == Some(used),
        ScriptStep::Two(one, two, cut) => {
            whole.run_two(rt, (one, two))? == Some(((one.len(), two.len()), [cut, cut]))
        }
        _ => false,
    })
}

impl Play {
    // Puts a multi handle in its place.
    fn put<R: Wait>(&mut self, rt: &R, whole: Whole) {
        if let Some(other) = self.place.replace(whole) {
            other.close(rt);
        }
    }

    // Closes the multi handle.
    fn close<R: Wait>(self, rt: &R) {
        let Play {
            place,
            one: _one,
            history: _,
            refused: _,
        } = self;
        if let Some(whole) = place {
            whole.close(rt);
        }
    }

    // Retires, with all its seats or without the last; or why not, and whether there was a multi handle.
    fn retire_once<R: Wait>(
        &mut self,
        rt: &R,
        alloc: Global,
        with_last: bool,
    ) -> (bool, Option<Refusal>) {
        let Some(whole) = self.place.take() else {
            return (false, None);
        };
        let (whole, why) = if with_last {
            whole.retire(rt, alloc)
        } else {
            whole.retire_without_last(rt, alloc)
        };
        self.put(rt, whole);
        (true, why)
    }

    // The same with all its seats, once more where it was refused memory.
    fn retire<R: Wait>(&mut self, rt: &R, alloc: Global) -> (bool, Option<Refusal>) {
        let (is_there, why) = self.retire_once(rt, alloc, true);
        if why != Some(Refusal::OutOfMemory) {
            return (is_there, why);
        }
        self.refused = true;
        self.retire_once(rt, alloc, true)
    }

    // Whether each seat and each worker's seat has seen so many events, and the control core was retired, too.
    fn is_retired(&mut self, cut: Option<u32>) -> bool {
        let have_seen = match (&self.place, cut) {
            (Some(whole), Some(cut)) => whole.have_all_seen(cut),
            (Some(_), None) => true,
            (None, _) => false,
        };
        match &mut self.one {
            Some(one) => have_seen && one.retire(),
            None => have_seen,
        }
    }

    // Whether one thread, which makes the calls in the order of their cuts, answers one of them otherwise.
    fn differs(&mut self, alloc: Global, entries: &mut Vec<Entry>) -> Result<bool, OutOfMemory> {
        let mut one = match self.one.take() {
            Some(one) => one,
            None => OneThread::new(alloc, self.history)?,
        };
        one.begin();
        let place = differs_from(alloc, &mut one, entries);
        drop(self.one.replace(one));
        Ok(place?.is_some())
    }

    // How many calls were answered. None where one was answered otherwise than by one thread.
    fn compare(
        &mut self,
        alloc: Global,
        entries: Vec<Entry>,
    ) -> Result<Option<usize>, OutOfMemory> {
        let mut entries = entries;
        let differs = self.differs(alloc, &mut entries);
        let count = entries.len();
        drop(entries);
        Ok((!differs?).then_some(count))
    }

    // Threads do their tasks, and release this: how many calls were answered. None where one was answered otherwise than it should be, or
    // than by one thread.
    fn beside_held<R: Threads + Wait + Sync>(
        &mut self,
        rt: &R,
        alloc: Global,
        tasks: &[Task],
        hold: &Arc<Hold>,
    ) -> Result<Option<usize>, OutOfMemory> {
        let Some(whole) = self.place.take() else {
            return Ok(None);
        };
        let (whole, told) = whole.beside(rt, alloc, tasks, hold);
        self.put(rt, whole);
        match told {
            Ok(entries) if hold.was_in_time() => self.compare(alloc, entries),
            Err(Stop::Memory) => Err(OutOfMemory),
            _ => Ok(None),
        }
    }

    // The same, of a signal of their own.
    fn beside<R: Threads + Wait + Sync>(
        &mut self,
        rt: &R,
        alloc: Global,
        tasks: &[Task],
    ) -> Result<Option<usize>, OutOfMemory> {
        match Arc::new(alloc, Hold::new()) {
            Ok(hold) => self.beside_held(rt, alloc, tasks, &hold),
            Err(_) => Err(OutOfMemory),
        }
    }

    // The same, so many times: whether all calls were answered as they should be.
    fn beside_often<R: Threads + Wait + Sync>(
        &mut self,
        rt: &R,
        alloc: Global,
        tasks: &[Task],
        times: u32,
    ) -> Result<bool, OutOfMemory> {
        for _ in 0..times {
            if self.beside(rt, alloc, tasks)?.is_none() {
                return Ok(false);
            }
        }
        Ok(true)
    }

    // Makes a call at the multi handle: whether it is as it should be.
    fn call<R: Threads + Wait + Sync + Clock>(
        &mut self,
        rt: &R,
        alloc: Global,
        step: &ScriptStep,
    ) -> Result<bool, OutOfMemory> {
        let Some(whole) = &mut self.place else {
            return Ok(false);
        };
        if !matches!(
            step,
            ScriptStep::Make(..) | ScriptStep::Finish(..) | ScriptStep::Look(..)
        ) {
            return call(rt, whole, step);
        }
        let (is_so, is_refused) = ask(rt, alloc, whole, step)?;
        if is_refused {
            self.refused = true;
        }
        Ok(is_so)
    }

    // Whether a step is as it should be.
    fn take_step<R: Threads + Wait + Sync + Clock>(
        &mut self,
        rt: &R,
        alloc: Global,
        step: &ScriptStep,
    ) -> Result<bool, OutOfMemory> {
        match *step {
            ScriptStep::Retire(cut) => {
                let told = self.retire(rt, alloc);
                Ok(told == (true, None) && self.is_retired(cut))
            }
            ScriptStep::Hindered(why) => Ok(self.retire(rt, alloc) == (true, Some(why))),
            ScriptStep::HinderedWithoutLast(why) => {
                Ok(self.retire_once(rt, alloc, false) == (true, Some(why)))
            }
            ScriptStep::Beside(tasks, times) => self.beside_often(rt, alloc, tasks, times),
            ScriptStep::Storm(seed, turns) => {
                let tasks = [Task::Chance(seed, turns); THREADS];
                let calls = self.beside(rt, alloc, &tasks)?;
                Ok(calls.unwrap_or(0) as u64 > u64::from(turns) * 16)
            }
            _ => self.call(rt, alloc, step),
        }
    }

    // The first step that fails.
    fn first_wrong<R: Threads + Wait + Sync + Clock>(
        &mut self,
        rt: &R,
        alloc: Global,
        steps: &[ScriptStep],
    ) -> Result<Option<usize>, OutOfMemory> {
        for (at, step) in steps.iter().enumerate() {
            if !self.take_step(rt, alloc, step)? {
                return Ok(Some(at));
            }
        }
        Ok(None)
    }
}

// Opens a multi handle, once more where it was refused memory.
fn open<R: Wait>(rt: &R, alloc: Global, limits: Limits) -> Result<Play, OpenError> {
    let (whole, refused) = match Whole::open(rt, alloc, limits) {
        Ok(whole) => (whole, false),
        Err(OpenError::OutOfMemory) => (Whole::open(rt, alloc, limits)?, true),
        Err(error) => return Err(error),
    };
    Ok(Play {
        place: Some(whole),
        one: None,
        history: limits.history,
        refused,
    })
}

/// A script: its name, the limits of its multi handle, and its steps.
#[derive(Clone, Copy)]
pub struct Script<'a> {
    pub name: &'static str,
    pub limits: Limits,
    pub steps: &'a [ScriptStep],
}

/// The script that fails, and its step.
#[derive(Clone, Copy)]
pub struct FailedStep {
    pub row: &'static str,
    pub step: usize,
}

// The first step of a script that fails. It notes where a call was refused memory.
fn play_steps<R: Threads + Wait + Sync + Clock>(
    rt: &R,
    alloc: Global,
    limits: Limits,
    steps: &[ScriptStep],
    refused: &mut bool,
) -> Result<Option<usize>, OutOfMemory> {
    let mut play = match open(rt, alloc, limits) {
        Ok(play) => play,
        Err(OpenError::OutOfMemory) => return Err(OutOfMemory),
        Err(OpenError::BadLimits) => return Ok(Some(0)),
    };
    let wrong = play.first_wrong(rt, alloc, steps);
    if play.refused {
        *refused = true;
    }
    play.close(rt);
    wrong
}

// The same of the first of these scripts.
fn play_all<R: Threads + Wait + Sync + Clock>(
    rt: &R,
    alloc: Global,
    rows: &[Script<'static>],
    refused: &mut bool,
) -> Result<Option<FailedStep>, OutOfMemory> {
    for row in rows {
        if let Some(step) = play_steps(rt, alloc, row.limits, row.steps, refused)? {
            return Ok(Some(FailedStep {
                row: row.name,
                step,
            }));
        }
    }
    Ok(None)
}

// The same of these scripts and of one that was made, and of the numbers outside their limits, where these are tried.
fn play_both<R: Threads + Wait + Sync + Clock>(
    rt: &R,
    alloc: Global,
    rows: &[Script<'static>],
    made: Script<'_>,
    tries_limits: bool,
    refused: &mut bool,
) -> Result<Option<FailedStep>, OutOfMemory> {
    if let Some(wrong) = play_all(rt, alloc, rows, refused)? {
        return Ok(Some(wrong));
    }
    if let Some(step) = play_steps(rt, alloc, made.limits, made.steps, refused)? {
        return Ok(Some(FailedStep {
            row: made.name,
            step,
        }));
    }
    if tries_limits {
        return Ok(first_opened(rt, alloc));
    }
    Ok(None)
}

// The end of a test: it fails with the script and the step, and else, where a call was refused memory, by a text of its own.
fn end(wrong: Option<FailedStep>, refused: bool) -> Result<(), Fail> {
    if let Some(FailedStep { row, step }) = wrong {
        return Err(Fail::new(format_args!("{row}: step {step}")));
    }
    if refused {
        return Err("memory was refused, and the call answered when it was made again".into());
    }
    Ok(())
}

/// Plays these scripts and one that was made, and tries the numbers outside their limits, if it is to. It fails with the script and the
/// step that fails, and else, where a call was refused memory, by a text of its own.
///
/// A test calls it once: each call with the runtime of a test costs a proof of its own.
pub fn try_rows<R: Threads + Wait + Sync + Clock>(
    rt: &R,
    alloc: Global,
    rows: &[Script<'static>],
    made: Script<'_>,
    tries_limits: bool,
) -> Result<(), Fail> {
    let mut refused = false;
    let wrong = play_both(rt, alloc, rows, made, tries_limits, &mut refused)?;
    end(wrong, refused)
}

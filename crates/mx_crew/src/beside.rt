//! A run of a crew, beside an application.
ghost use Rattle.std.specs.Prelude.{◌≡◌, ◌≤◌, ◌+◌, ◌++◌, ◌∷◌, [], true, map, reverse, IfErr, IfOk, MatchResult, OnErr, OnOk, Result, Ok, Err, vec_capacity, vec_len};
ghost use Rattle.std.specs.List.{AllZip};
ghost use Rattle.std.specs.Result.{IsOk};
ghost use Rattle.mx_run_io.specs.declared.stop.Stop.{Stop as WhyNone};
ghost use Rattle.std.specs.Thread.{IsSync};
ghost use Rattle.mx_run_io.specs.declared.stop.Stop.TheVariants as stop;
ghost use Rattle.mx_crew.specs.Stops.{is_crew_stop};
ghost use Rattle.mx_crew.specs.Worked.{IsOfSlot};

use crate::crew::Crew;
use crate::gate::Common;
use crate::slot::WorkerSlot;
use crate::worked::Worked;
use mx_gate::Gate;
use mx_link::Link;
use mx_run_io::Stop;
use mx_sink::Delivery;
use std::alloc::{AllocGlobal, Global};
use std::snapshot::Snapshot;
use std::sync::Wait;
use std::thread::{Promise, PromisedHandle, Scope, Threads};
use std::{io, thread};

/// What a thread of a run does. What starts and joins threads is generic in it, and so knows nothing of seats and gates.
pub(crate) trait Job<D> {
    // What may come of it.
    ghost gives: { Self → D → Type 0 };

    /// Does it, with what the gates of a run have in common. It may wait.
    fn work<R: Wait + AllocGlobal>(self, rt: &R, common: &Common) -> D
        ensures { gives self result };
}

// Of which job a thread's result is, for contracts alone.
#[derive(Drop)]
struct OfJob<J> {
    job: Snapshot<J>,
}

impl<D, J: Job<D>> Promise<D> for OfJob<J> {
    ghost kept_by = { λ of done. J.gives of.job.value done };
}

// A thread that does a job.
type Handle<D, J> = PromisedHandle<D, OfJob<J>>;

// Keeps the handle of a thread that was started: there is room for it.
fn keep<D: Drop, J: Job<D> + Drop, E: Drop>(
    handles: &mut Vec<Handle<D, J>>,
    started: Result<Handle<D, J>, E>,
) -> Result<(), Stop>
    requires { vec_len handles.old + 1 ≤ vec_capacity handles.old }
    ensures jobs { OnOk result (IfOk started (λ h. map (λ k. k.promise.job.value) handles.new.items ≡ map (λ k. k.promise.job.value) handles.old.items ++ h.promise.job.value ∷ [])) }
    ensures ok { OnOk result (IsOk started) }
    ensures kept { OnOk result (vec_len handles.new ≡ vec_len handles.old + 1) }
    ensures most { vec_len handles.new ≤ vec_len handles.old + 1 }
    ensures room { vec_capacity handles.new ≡ vec_capacity handles.old }
    ensures cause { IfErr result (λ e. e ≡ stop.NoThread) }
    ensures why { IfErr result (λ e. is_crew_stop e ≡ true) }
{
    match started {
        Ok(handle) => {
            handles.push_reserved(handle);
            Ok(())
        }
        Err(_) => Err(Stop::NoThread),
    }
}

// Starts a job on a thread of its own, and keeps its handle.
fn start_one<
    's,
    'r: 's,
    E,
    R: Threads + Wait + AllocGlobal + Sync + 's,
    J: Job<D> + Send + Drop + 's,
    D: Send + Drop + 's,
>(
    scope: &Scope<'s, E>,
    rt: &'r R,
    common: &'s Common,
    job: J,
    handles: &mut Vec<Handle<D, J>>,
) -> Result<(), Stop>
    requires runtime { IsSync R.row }
    requires room { vec_len handles.old + 1 ≤ vec_capacity handles.old }
    ensures jobs { OnOk result (map (λ k. k.promise.job.value) handles.new.items ≡ map (λ k. k.promise.job.value) handles.old.items ++ job ∷ []) }
    ensures kept { OnOk result (vec_len handles.new ≡ vec_len handles.old + 1) }
    ensures most { vec_len handles.new ≤ vec_len handles.old + 1 }
    ensures room { vec_capacity handles.new ≡ vec_capacity handles.old }
    ensures why { IfErr result (λ e. is_crew_stop e ≡ true) }
{
    let of = OfJob {
        job: Snapshot::of(&job),
    };
    let started = scope.spawn_with(
        of,
        move || -> D
            requires { IsSync R.row }
            ensures { J.gives job result }
        { job.work(rt, common) },
    );
    keep(handles, started)
}

// Starts each job, until one can't be started. It owns neither jobs nor handles, so its exits drop none.
fn start_all<
    's,
    'r: 's,
    E,
    R: Threads + Wait + AllocGlobal + Sync + 's,
    J: Job<D> + Send + Drop + 's,
    D: Send + Drop + 's,
>(
    scope: &Scope<'s, E>,
    rt: &'r R,
    common: &'s Common,
    jobs: &mut Vec<J>,
    handles: &mut Vec<Handle<D, J>>,
) -> Result<(), Stop>
    requires runtime { IsSync R.row }
    requires none { handles.old.items ≡ [] }
    requires room { vec_len jobs.old ≤ vec_capacity handles.old }
    ensures jobs { OnOk result (map (λ k. k.promise.job.value) handles.new.items ≡ reverse jobs.old.items) }
    ensures started { OnOk result (vec_len handles.new ≡ vec_len jobs.old) }
    ensures most { vec_len handles.new ≤ vec_len jobs.old }
    ensures why { IfErr result (λ e. is_crew_stop e ≡ true) }
{
    while let Some(job) = jobs.pop() {
        start_one(scope, rt, common, job, handles)?;
    }
    Ok(())
}

// Waits until a worker has started, where all threads were started. Where there is no crew, those that have started are stopped.
fn stand<R: Wait>(
    rt: &R,
    crew: &Crew,
    common: &Common,
    started: Result<(), Stop>,
    count: usize,
) -> Result<(), Stop>
    requires why { IfErr started (λ e. is_crew_stop e ≡ true) }
    ensures started { OnOk result (started ≡ Ok tt) }
    ensures why { IfErr result (λ e. is_crew_stop e ≡ true) }
{
    let stands = match started {
        Ok(()) => common.starts.await_one(rt, count),
        Err(error) => Err(error),
    };
    if stands.is_err() {
        crew.stop();
    }
    stands
}

// What came of each job, of the last that was started first.
fn join_all<R: Threads, D: Drop, J: Job<D> + Drop>(
    rt: &R,
    handles: Vec<Handle<D, J>>,
    mut done: Vec<D>,
) -> Vec<D>
    requires none { done.items ≡ [] }
    requires room { vec_len handles ≤ vec_capacity done }
    ensures gives { AllZip J.gives (reverse (map (λ k. k.promise.job.value) handles.items)) result.items }
    ensures count { vec_len result ≡ vec_len handles }
{
    let mut handles = handles;
    while let Some(handle) = handles.pop() {
        done.push_reserved(handle.join(rt));
    }
    drop(handles);
    done
}

// What came of the jobs, where there is a crew.
fn done_if<D: Drop>(stands: Result<(), Stop>, done: Vec<D>) -> Result<Vec<D>, Stop>
    requires why { IfErr stands (λ e. is_crew_stop e ≡ true) }
    ensures done { MatchResult result (λ d. (stands ≡ Ok tt) × (d ≡ done)) (λ e. stands ≡ Err e) }
    ensures why { IfErr result (λ e. is_crew_stop e ≡ true) }
{
    match stands {
        Ok(()) => Ok(done),
        Err(error) => {
            drop(done);
            Err(error)
        }
    }
}

// Does each job, on a thread of its own, while the application runs on this one, once a worker has started. There is room for the threads'
// handles and for what comes of the jobs.
fn run_all<
    'm,
    's,
    R: Threads + Wait + AllocGlobal + Sync,
    J: Job<D> + Send + Drop,
    D: Send + Drop,
    T: Drop,
    F: FnOnce(Result<(), Stop>) -> T + Drop,
>(
    rt: &'m R,
    crew: &'m Crew,
    common: &'s Common,
    jobs: Vec<J>,
    rooms: (Vec<Handle<D, J>>, Vec<D>),
    application: F,
) -> (T, Result<Vec<D>, Stop>)
    requires application { (stands : Result Unit WhyNone) → IfErr stands (λ e. is_crew_stop e ≡ true) → F.pre application stands }
    requires none { (rooms.0.items ≡ []) × (rooms.1.items ≡ []) }
    requires room { (vec_len jobs ≤ vec_capacity rooms.0) × (vec_len jobs ≤ vec_capacity rooms.1) }
    ensures told { MatchResult result.1 (λ done. F.post application (Ok tt) result.0 × (vec_len done ≡ vec_len jobs)) (λ e. F.post application (Err e) result.0) }
    ensures gives { IfOk result.1 (λ done. AllZip J.gives jobs.items done.items) }
    ensures why { IfErr result.1 (λ e. is_crew_stop e ≡ true) }
{
    let (handles, done) = rooms;
    thread::scope(
        thread::scope_env(),
        rt,
        move |scope| -> (T, Result<Vec<D>, Stop>)
            requires { IsSync R.row × ((stands : Result Unit WhyNone) → IfErr stands (λ e. is_crew_stop e ≡ true) → F.pre application stands) × (handles.items ≡ []) × (done.items ≡ [])
                × (vec_len jobs ≤ vec_capacity handles) × (vec_len jobs ≤ vec_capacity done) }
            ensures told { MatchResult result.1 (λ done. F.post application (Ok tt) result.0 × (vec_len done ≡ vec_len jobs)) (λ e. F.post application (Err e) result.0) }
            ensures gives { IfOk result.1 (λ done. AllZip J.gives jobs.items done.items) }
            ensures why { IfErr result.1 (λ e. is_crew_stop e ≡ true) }
        {
            let mut jobs = jobs;
            let mut handles = handles;
            let count = jobs.len();
            let started = start_all(scope, rt, common, &mut jobs, &mut handles);
            let stands = stand(rt, crew, common, started, count);
            let told = application(stands);
            crew.stop();
            drop(jobs);
            (told, done_if(stands, join_all(rt, handles, done)))
        },
    )
}

// Room for threads' handles, and for what comes of their jobs.
fn rooms<D: Drop, J: Job<D> + Drop>(
    alloc: Global,
    count: usize,
) -> Result<(Vec<Handle<D, J>>, Vec<D>), Stop>
    ensures none { IfOk result (λ r. (r.0.items ≡ []) × (r.1.items ≡ [])) }
    ensures room { IfOk result (λ r. (count ≤ vec_capacity r.0) × (count ≤ vec_capacity r.1)) }
    ensures why { IfErr result (λ e. is_crew_stop e ≡ true) }
{
    let handles = Vec::with_capacity(alloc, count)?;
    match Vec::with_capacity(alloc, count) {
        Ok(done) => Ok((handles, done)),
        Err(_) => {
            drop(handles);
            Err(Stop::OutOfMemory)
        }
    }
}

// rule worker-threads, unproved: Workers on threads run at the same time.
/// Runs a worker at each slot, on a thread of its own, while the application runs on this one, once one of them has started. The application
/// is told that there is a crew, or why there is none: then it runs without workers. A worker whose start is refused memory tries again after
/// 20 milliseconds. Once the application has returned the crew is stopped. It answers what the application returned, and for each slot what
/// its worker did, with its gate; all workers have ended then. Seats don't come back. It may wait.
///
/// # Errors
///
/// `OutOfMemory` where memory for the threads' handles, or five times for the start of each worker, was refused, and `NoThread` where a
/// thread couldn't be started: the workers that had started are stopped then, and have ended. Slots and gates don't come back.
///
/// Of all this the clauses say that what it answers first is what the application may return as it was told, that it counts as many workers
/// as there were slots, in their order, that each did what it counted, from the seat of its slot on, that its gate is one that had said what the
/// gate of the slot had, and that the errors are `OutOfMemory`, `NoPoll` and `NoThread` alone, of which the application is told no other. They
/// don't say on which thread a worker runs, or that it ends. What a worker did its `Worked` says (`Worked::know`).
pub fn run_beside<
    'm,
    L: Link + Send,
    D: Delivery + Send,
    R: Threads + Wait + AllocGlobal + Sync,
    G: Gate<Link = L> + Send + Drop,
    T: Drop,
    F: FnOnce(Result<(), Stop>) -> T + Drop,
>(
    rt: &'m R,
    crew: &'m Crew,
    slots: Vec<WorkerSlot<'m, L, G, D>>,
    application: F,
) -> (T, Result<Vec<Worked<L, G, D>>, Stop>)
    requires { (stands : Result Unit WhyNone) → IfErr stands (λ e. is_crew_stop e ≡ true) → F.pre application stands }
    ensures told { MatchResult result.1 (λ worked. F.post application (Ok tt) result.0 × (vec_len worked ≡ vec_len slots.entry)) (λ e. F.post application (Err e) result.0) }
    ensures own { IfOk result.1 (λ worked. AllZip (λ slot done. IsOfSlot G.said slot.seat slot.gate done) slots.entry.items worked.items) }
    ensures why { IfErr result.1 (λ e. is_crew_stop e ≡ true) }
{
    match rooms(rt.alloc(), slots.len()) {
        Ok(rooms) => {
            let common = Common::new();
            run_all(rt, crew, &common, slots, rooms, application)
        }
        Err(error) => {
            let told = application(Err(error));
            drop(slots);
            (told, Err(error))
        }
    }
}

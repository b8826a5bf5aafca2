//! Runs: what they need, the workers in their threads, and the driver.
ghost use Rattle.std.specs.Prelude.{◌≡◌, ◌<◌, ◌≤◌, ◌^◌, IfOk, IfErr, OnErr, vec_len, MatchResult};
ghost use Rattle.sup_crew.specs.Drivers.{run_of, HasNotCalled};
ghost use Rattle.sup_crew.specs.Reports.{IsRun, IsRunOfItsOwn};
ghost use Rattle.sup_crew.specs.Runs.{IsRunOutcome, HasRoom, AreParts, AreParts-prop};

use crate::closing::{Buffers, close};
use crate::crew::{Crew, Signals};
use crate::drain::{Drain, HELD};
use crate::driver::{Driver, Tally};
use crate::fault::CrewFault;
use crate::job::Body;
use crate::plan::{Plan, Report};
use crate::queue::{Dispatcher, Endpoint, Jobs};
use crate::worker::{Finished, join_all, start};
use core::mem::replace_with;
use std::alloc::Global;
use std::sync::Wait;
use std::thread;
use std::thread::{Scope, Threads};
use sup_desk::{Desk, DetachedHandle, Handle, Journal, Name, UpdateFault};
use sup_inbox::{Inbox, Poster, Taker};
use sup_log::Ticket;
use sup_types::{OutOfMemory, Starter};

/// Holds what a run is given beside its crew and its driver: the endpoint that knows all of the queue, the inbox's ends, and room.
#[derive(Drop)]
pub struct Parts<N: Name> {
    pub endpoint: Endpoint<N>,
    pub posters: Vec<Poster>,
    pub taker: Taker,
    pub finished: Vec<Finished<N>>,
}

/// Holds a run that is to begin: what its threads share, and the endpoints of its queue and inbox.
#[derive(Drop)]
pub struct Beginning<'s, N: Name> {
    pub crew: &'s Crew<N>,
    pub parts: Parts<N>,
    pub ghost whole: { AreParts crew.now.jobs crew.now.inbox.id parts } by { AreParts-prop crew.now.jobs crew.now.inbox.id parts },
}

#[derive(Drop)]
pub struct RunOutcome<N: Name> {
    pub driver: u64,
    pub jobs: Dispatcher<N>,
    pub drain: Drain,
    pub ticket: Option<Ticket>,
    pub tally: Tally,
    pub started: usize,
    pub fault: Option<UpdateFault>,
    pub finished: Vec<Finished<N>>,
}

/// Makes what a run of this plan needs. It is made before the first update: a run that has no memory for it has entered nothing.
fn prepare<N: Name>(alloc: Global, plan: Plan) -> Result<(Crew<N>, Parts<N>, Buffers), OutOfMemory>
    requires { (plan.workers < 1024) × (1 ≤ plan.inbox) }
    ensures crew { IfOk result (λ p. p.0.plan ≡ plan) }
    ensures parts { IfOk result (λ p. AreParts p.0.jobs p.0.inbox.id p.1 × (vec_len p.1.posters ≡ p.0.plan.workers)) }
    ensures room { IfOk result (λ p. HasRoom p.0.plan.workers p.0.inbox.capacity p.2 × (p.0.plan.workers < 1024)) }
{
    let (inbox, root) = Inbox::new(alloc, plan.inbox)?;
    let Ok((posters, taker)) = root.split(alloc, &inbox, plan.workers) else {
        return Err(OutOfMemory);
    };
    let buffers = Buffers {
        posters: Vec::with_capacity(alloc, plan.workers)?,
        unposted: Vec::with_capacity(alloc, plan.workers)?,
        inbox: Vec::with_capacity(alloc, plan.inbox)?,
        held: Vec::with_capacity(alloc, HELD)?,
    };
    let finished = Vec::with_capacity(alloc, plan.workers)?;
    let (jobs, endpoint) = Jobs::new(alloc)?;
    let crew = Crew {
        jobs,
        inbox,
        signals: Signals::default(),
        plan,
    };
    let parts = Parts {
        endpoint,
        posters,
        taker,
        finished,
    };
    Ok((crew, parts, buffers))
}

/// Does what the driver does inside the scope of the threads.
fn drive<'s, 'd: 's, E, N, S, P, J, B, R>(
    scope: &Scope<'s, E>,
    rt: &'s R,
    alloc: Global,
    run: Beginning<'s, N>,
    body: &'s B,
    desk: &'d Desk<N, S, P, J>,
    caller: DetachedHandle<N>,
) -> (DetachedHandle<N>, Result<RunOutcome<N>, CrewFault>)
where
    N: Name + Send + Sync + 's,
    S: Starter + Drop + Send + Sync + 's,
    P: Wait + Drop + Send + Sync + 's,
    J: Journal + Drop + Send + 's,
    B: Body + Sync,
    R: Threads + Wait + Sync,
    ensures outcome { MatchResult result.1 (λ j. IsRunOutcome (B.may_end body.now) (run_of N.template N.press run.entry.crew.now.plan.moment caller) run.entry.crew.now.jobs run.entry.crew.now.inbox.id (vec_len run.entry.parts.posters) run.entry.crew.now.plan.children.items result.0 j) (λ _. HasNotCalled caller result.0) }
    ensures place { IfErr result.1 (λ e. e ≡ CrewFault.NoHandle → ⊥) }
{
    let Beginning { crew, parts } = run;
    let (endpoint, posters) = (parts.endpoint, parts.posters);
    let (endpoint, workers) = match start(scope, rt, alloc, crew, body, desk, endpoint, posters) {
        Ok(started) => started,
        Err(fault) => return (caller, Err(fault)),
    };
    let mut driver = Driver {
        handle: desk.bind(caller),
        jobs: Dispatcher::new(alloc, endpoint),
        drain: Drain::new(alloc, parts.taker),
        ticket: None,
        tally: Tally::default(),
    };
    let (started, fault) = driver.start_all(rt, alloc, crew);
    let fault = driver.drain_all(rt, alloc, crew, fault);
    crew.signals.end();
    let finished = join_all(rt, crew, body, workers, parts.finished);
    let fault = driver.drain_all(rt, alloc, crew, fault);
    let Driver {
        handle,
        jobs,
        drain,
        ticket,
        tally,
    } = driver;
    let (caller, _) = handle.unbind();
    let outcome = RunOutcome {
        driver: caller.number(),
        jobs,
        drain,
        ticket,
        tally,
        started,
        fault,
        finished,
    };
    (caller, Ok(outcome))
}

/// Runs a crew over the desk of this handle, which is its driver: it starts the plan's children in order, the workers run the body
/// of each and post how it ended, and the driver enters their exits. A restarted child is run again. All updates are the driver's,
/// at the plan's moment, and all bodies ask by one asker a worker, which gives its place back. The run is over when each child that
/// was made has ended, when the driver found no note for the plan's number of turns in a row, when the body says so, or when an
/// update is refused. It returns once the workers were joined, so a body that never ends keeps it. What was not done is in the report.
///
/// # Errors
/// Faults come before the first update, and leave the history and the driver's calls as they were: `NoPlace` if the desk has no
/// place for a worker's asker, `OutOfMemory` if memory runs out or a thread can't be started.
pub fn run_crew_with<'d, N, S, P, J, B, R>(
    rt: &R,
    alloc: Global,
    driver: &mut Handle<'d, N, S, P, J>,
    body: &B,
    plan: Plan,
) -> Result<Report<N>, CrewFault>
where
    N: Name + Send + Sync,
    S: Starter + Drop + Send + Sync,
    P: Wait + Drop + Send + Sync,
    J: Journal + Drop + Send,
    B: Body + Sync,
    R: Threads + Wait + Sync,
    requires workers { (1 ≤ plan.workers) × (plan.workers ≤ 64) }
    requires inbox { (1 ≤ plan.inbox) × (plan.inbox ≤ 65536) }
    requires turns { (1 ≤ plan.turns) × (plan.turns ≤ 2 ^ 62) }
    ensures ran { IfOk result (λ r. IsRun (B.may_end body.now) (run_of N.template N.press plan.moment driver.old) plan.children.items driver.new r) }
    ensures kept { OnErr result ((driver.new.calls ≡ driver.old.calls) × (driver.new.number ≡ driver.old.number)) }
    ensures place { IfErr result (λ e. e ≡ CrewFault.NoHandle → ⊥) }
{
    let (crew, parts, buffers) = prepare(alloc, plan)?;
    let outcome = replace_with(
        driver,
        Beginning { crew: &crew, parts },
        |handle: Handle<'_, N, S, P, J>, run: Beginning<'_, N>|
            ensures outcome { IfOk result.1 (λ j. IsRunOutcome (B.may_end body.entry.now) (run_of N.template N.press run.entry.crew.now.plan.moment handle.entry) run.entry.crew.now.jobs run.entry.crew.now.inbox.id (vec_len run.entry.parts.posters) run.entry.crew.now.plan.children.items result.0 j) }
            ensures kept { OnErr result.1 (HasNotCalled handle.entry result.0) }
            ensures place { IfErr result.1 (λ e. e ≡ CrewFault.NoHandle → ⊥) }
        {
            let (caller, desk) = handle.unbind();
            let (caller, outcome) = thread::scope(
                thread::scope_env(),
                rt,
                move |scope| drive(scope, rt, alloc, run, body, desk, caller),
            );
            (desk.bind(caller), outcome)
        },
    )?;
    Ok(close(rt, crew, body, outcome, buffers))
}

/// Does the same with a handle that is made for the run, and is in the report.
///
/// # Errors
/// `NoHandle` if all handles of the desk were made, and the faults of [`run_crew_with`]. They come before the first update.
pub fn run_crew<N, S, P, J, B, R>(
    rt: &R,
    alloc: Global,
    desk: &Desk<N, S, P, J>,
    body: &B,
    plan: Plan,
) -> Result<Report<N>, CrewFault>
where
    N: Name + Send + Sync,
    S: Starter + Drop + Send + Sync,
    P: Wait + Drop + Send + Sync,
    J: Journal + Drop + Send,
    B: Body + Sync,
    R: Threads + Wait + Sync,
    requires workers { (1 ≤ plan.workers) × (plan.workers ≤ 64) }
    requires inbox { (1 ≤ plan.inbox) × (plan.inbox ≤ 65536) }
    requires turns { (1 ≤ plan.turns) × (plan.turns ≤ 2 ^ 62) }
    ensures { IfOk result (λ r. IsRunOfItsOwn (B.may_end body.now) N.template N.press plan.moment plan.children.items r) }
{
    let mut driver = desk.handle(rt)?;
    let report = run_crew_with(rt, alloc, &mut driver, body, plan)?;
    let (caller, _) = driver.unbind();
    Ok(Report {
        caller: Some(caller),
        ..report
    })
}

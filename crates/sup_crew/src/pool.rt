//! A pool: a crew over a desk of its own.
ghost use Rattle.std.specs.Prelude.{◌≡◌, ◌+◌, ◌<◌, ◌≤◌, ◌^◌, ◌⊎◌, ◌↔◌, ℕ, IsOk, IfOk, IfErr, Err, false, map, ⊤};
ghost use Rattle.sup_desk.specs.declared.faults.UpdateFault.{UpdateFault as AFault};
ghost use Rattle.sup_crew.specs.Pools.{IsPooled, IsNoText};
ghost use Rattle.sup_crew.specs.declared.fault.PoolFault.TheVariants.{OutOfMemory, BadWorkers, BadRestarts, BadArgument, Stopped};
ghost use Rattle.sup_types.specs.declared.reason.Reason.{Reason as AReason};
ghost use Rattle.sup_types.specs.declared.text.Text.{Text as AText};

use crate::fault::PoolFault;
use crate::job::{Body, Job};
use crate::plan::Plan;
use crate::run::run_crew_with;
use std::alloc::{AllocGlobal, Global};
use std::convert::AsStr;
use std::marker::Brand;
use std::sync::Wait;
use std::thread::Threads;
use sup_desk::{Asker, Desk, Ground, Name};
use sup_types::{AlwaysRunning, AutoShutdown, Kind, Reason, Restart, Seen, Template, Text};

const INBOX: usize = 1024;
/// How often a post is tried, and how often the driver finds nothing before it gives up.
const TURNS: u64 = 1 << 62;

/// The period of the restart intensity, in seconds: OTP's default. A run is one moment, so any would do.
const PERIOD: u64 = 5;

const CHILDREN: u64 = 65_536;

const ENTRIES: u64 = 1 << 62;

/// Reports what became of a pool's children.
#[derive(Clone, Copy, Debug, PartialEq, Eq)]
pub struct PoolReport {
    /// How many children were made, including those that were started again.
    pub made: u64,
    pub exits: u64,
    /// How many were made, and were not run or whose exit was not entered, since the run stopped before.
    pub left: u64,
    pub restarts: u64,
    /// 1 if more of them crashed than the template allows, so that the supervisor gave up. Else 0.
    pub given_up: u64,
}

/// Does the work of a pool's children. Its threads share it.
pub trait Work {
    /// The reasons for which a child with this argument may end. Any, if it is omitted.
    ghost may_end: { Self → AText → AReason → Type 0 } = { λ work arg reason. ⊤ };

    /// Does the work of the child with this argument, and returns why the child ended: `Normal` if it is done, or for example
    /// `Reason::crash()` if it is to be started again.
    fn run(&self, arg: Text) -> Reason
        ensures { may_end self.now arg result };
}

#[derive(Drop)]
struct Working<'w, T> {
    work: &'w T,
}

impl<'w, T: Work> Body for Working<'w, T> {
    ghost may_end = { λ body number arg reason. T.may_end body.work.now arg reason };

    /// Returns whether the supervisor is up. Once it is down, no child is listed, and so none is begun.
    fn goes_on<N: Name>(&self, asker: &mut Asker<N>) -> bool {
        matches!(asker.count_children(), Ok(Seen::Up(_)))
    }

    fn run<N: Name>(&self, job: Job<N>, _asker: &mut Asker<N>) -> Reason {
        self.work.run(job.arg)
    }
}

/// Runs a child for each argument over a desk of its own.
#[derive(Clone, Copy, Debug)]
pub struct Pool {
    /// The number of threads: 1 to 64.
    pub workers: usize,
    /// The children's template. Its restart intensity counts over a whole run, which is one moment.
    pub template: Template,
    ghost some: { (1 ≤ workers) × (workers ≤ 64) },
}

impl Pool {
    /// Makes a pool of 1 to 64 threads, or returns BadWorkers. Children that crash are started again, at most `restarts` times in a
    /// run, 0 to 1000, else BadRestarts: at the next crash the pool gives up. There are at most 65,536 children at once.
    pub fn new(workers: usize, restarts: u64) -> Result<Pool, PoolFault>
        ensures pool { IfOk result (λ p. (p.workers ≡ workers) × (p.template.restart ≡ Restart.Transient) × (p.template.kind ≡ Kind.Worker)
            × (p.template.intensity ≡ restarts) × (p.template.period ≡ 5) × (p.template.max ≡ 65536) × (p.template.entries ≡ 2 ^ 62)
            × (p.template.significant ≡ false) × (p.template.auto_shutdown ≡ AutoShutdown.Never)) }
        ensures restarts { (result ≡ Err BadRestarts) ↔ (1000 < restarts) }
        ensures workers { IfErr result (λ f. (f ≡ BadRestarts) ⊎ ((f ≡ BadWorkers) × ¬ ((1 ≤ workers) × (workers ≤ 64)))) }
    {
        let (kind, restart) = (Kind::Worker, Restart::Transient);
        match Template::new(restart, kind, restarts, PERIOD, CHILDREN, ENTRIES) {
            Ok(template) => Pool::with_template(workers, template),
            Err(_) => Err(PoolFault::BadRestarts),
        }
    }

    /// Makes a pool of 1 to 64 threads with children of this template, or returns BadWorkers. Permanent children are started again
    /// after each end, until the pool gives up.
    pub fn with_template(workers: usize, template: Template) -> Result<Pool, PoolFault>
        ensures pool { IfOk result (λ p. (p.workers ≡ workers) × (p.template ≡ template)) }
        ensures workers { IfErr result (λ f. f ≡ BadWorkers) × (IsOk result ↔ ((1 ≤ workers) × (workers ≤ 64))) }
    {
        if !(1..=64).contains(&workers) {
            return Err(PoolFault::BadWorkers);
        }
        Ok(Pool { workers, template })
    }

    /// Starts a child for each of the arguments, and does the work of each in one of the threads. It returns when all have ended, or,
    /// once the supervisor gave up, those that were begun. So a work that never ends keeps it.
    ///
    /// # Errors
    /// OutOfMemory and BadArgument come before anything is run; Stopped if an update was refused, say since the history was full.
    pub fn run<R, T, S>(&self, rt: &R, arguments: &[S], work: &T) -> Result<PoolReport, PoolFault>
    where
        R: Threads + Wait + AllocGlobal + Sync,
        T: Work + Sync,
        S: AsStr,
        ensures pool { IfOk result (λ r. IsPooled (λ number arg reason. T.may_end work.now arg reason) self.now.template (map S.text arguments.now) r) }
        ensures fault { IfErr result (λ f. (f ≡ OutOfMemory) ⊎ ((why : AFault) × (f ≡ Stopped why)) ⊎ ((place : ℕ) × (f ≡ BadArgument place) × IsNoText (map S.text arguments.now) place)) }
    {
        let alloc = rt.alloc();
        let plan = Plan {
            children: read_arguments(alloc, arguments)?,
            workers: self.workers,
            inbox: INBOX,
            turns: TURNS,
            moment: 0,
        };
        // The driver has a handle, and each worker a lens: a number that may be, so a fault is one of memory.
        let Ok(ground) = Ground::new(alloc, rt, self.template, self.workers as u64 + 1) else {
            return Err(PoolFault::OutOfMemory);
        };
        run_named::<Brand, R, T>(rt, alloc, ground, plan, work)
    }
}

fn read_arguments<S: AsStr>(alloc: Global, arguments: &[S]) -> Result<Vec<Text>, PoolFault>
    ensures texts { IfOk result (λ texts. texts.items ≡ map S.text arguments.now) }
    ensures fault { IfErr result (λ f. (f ≡ OutOfMemory) ⊎ ((place : ℕ) × (f ≡ BadArgument place) × IsNoText (map S.text arguments.now) place)) }
{
    let mut texts = Vec::new(alloc);
    for (place, argument) in arguments.iter().enumerate() {
        let Some(text) = Text::new(argument.as_str().as_bytes()) else {
            return Err(PoolFault::BadArgument(place));
        };
        if texts.push(text).is_err() {
            return Err(PoolFault::OutOfMemory);
        }
    }
    Ok(texts)
}

/// Runs the plan on a desk of this ground, which N names.
fn run_named<N: Name + Send + Sync, R: Threads + Wait + Sync, T: Work + Sync>(
    rt: &R,
    alloc: Global,
    ground: Ground,
    plan: Plan,
    work: &T,
) -> Result<PoolReport, PoolFault>
    requires name { (ground.press ≡ N.press) × (ground.template ≡ N.template) × (ground.sessions ≡ N.sessions) }
    requires workers { (1 ≤ plan.workers) × (plan.workers ≤ 64) }
    requires inbox { plan.inbox ≡ 1024 }
    requires turns { plan.turns ≡ 2 ^ 62 }
    ensures pool { IfOk result (λ r. IsPooled (λ number arg reason. T.may_end work.now arg reason) N.template plan.children.items r) }
    ensures fault { IfErr result (λ f. (f ≡ OutOfMemory) ⊎ ((why : AFault) × (f ≡ Stopped why))) }
{
    let desk: Desk<N, AlwaysRunning, &R> = Desk::new(ground, rt, AlwaysRunning);
    let Ok(mut driver) = desk.handle(rt) else {
        return Err(PoolFault::OutOfMemory);
    };
    let Ok(report) = run_crew_with(rt, alloc, &mut driver, &Working { work }, plan) else {
        return Err(PoolFault::OutOfMemory);
    };
    if let Some(fault) = report.fault {
        return Err(PoolFault::Stopped(fault));
    }
    let tally = report.tally;
    Ok(PoolReport {
        made: tally.made,
        exits: tally.exits,
        left: tally.made - tally.exits,
        restarts: tally.restarts,
        given_up: tally.given_up,
    })
}

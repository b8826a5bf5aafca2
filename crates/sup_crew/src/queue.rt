//! The queue of jobs, under the rule that each queued job is in one place, with whoever took it or in the queue; and the driver's
//! side of it.
ghost use Rattle.std.specs.Prelude.{◌≡◌, ◌+◌, ◌<◌, ◌≤◌, [], ◌∷◌, ◌++◌, length, IfOk, MatchResult, MatchOption, IfNone, IfSome, None, vec_len, vec_capacity};
ghost use Rattle.std.specs.Global.{Global};
ghost use Rattle.crossbeam_queue.specs.SegTies.{SegId};
ghost use Rattle.sup_crew.specs.Jobs.{Balanced, weigh, permission, child_of, children_of};
ghost use Rattle.sup_crew.specs.Endpoints.{EndpointModel};
ghost use Rattle.sup_crew.specs.Dispatchers.{DispatcherModel, IsSameQueue, HasSameJobs};

use crate::crew::Crew;
use crate::job::{Child, Job};
use crossbeam_queue::protocol::{Join, Lesson, Outcome, Protocol, Split};
use crossbeam_queue::{RuledSegQueue, SegPass};
use std::alloc::Global;
use std::collections::LinkedList;
use std::marker::Model;
use std::sync::Wait;
use sup_desk::Name;
use sup_types::OutOfMemory;

/// What an endpoint has queued and taken, and its parts of the right to know the whole. No value of it is made.
pub struct Permission {
    /// How many parts it has, of 1,024.
    pub parts: u64,
    pub put: LinkedList<Child>,
    pub taken: LinkedList<Child>,
}

pub struct JobRule;

impl<N: Name> Protocol<Job<N>, Permission> for JobRule {
    ghost holds = { Balanced };

    ghost first = { permission 1024 [] [] };
}

pub struct GivesPart;

impl Split<Permission> for GivesPart {
    ghost use Rattle.std.specs.Prelude.{◌-◌};

    ghost left = { λ v. permission (v.parts - 1) v.put v.taken };

    ghost right = { λ v. permission 1 [] [] };
}

impl Join<Permission> for GivesPart {
    ghost both = { λ v w. permission (v.parts + w.parts) (v.put ++ w.put) (v.taken ++ w.taken) };

    ghost spent = { permission 0 [] [] };
}

pub struct PutsJob;

impl<N: Name> Outcome<Job<N>, Permission> for PutsJob {
    ghost then = { λ v x w. w ≡ permission v.parts (v.put ++ child_of x ∷ []) v.taken };
}

/// A job is taken. The one that has every part learns that no more were taken than queued, and which the queue holds.
pub struct TakesJob;

impl<N: Name> Outcome<Job<N>, Permission> for TakesJob {
    ghost then = { λ v x w. (w ≡ permission v.parts v.put (v.taken ++ child_of x ∷ [])) × (v.parts ≡ 1024 → length w.taken ≤ length w.put) };
}

impl<N: Name> Lesson<Job<N>, Permission> for TakesJob {
    ghost fact = { λ v items. v.parts ≡ 1024 → (h : _) → weigh h v.put ≡ weigh h v.taken + weigh h (children_of items) };
}

type Line<N> = RuledSegQueue<Job<N>, Permission, JobRule>;

/// Holds the jobs that nobody took. It is shared by reference.
pub struct Jobs<N: Name> {
    line: Line<N>,
}

impl<N: Name> Model for Jobs<N> {
    ghost Value = { SegId Global };

    ghost view = { λ j. j.line };
}

impl<N: Name> Drop for Jobs<N> {
    fn drop(self) {
        let Jobs { line } = self;
        line.destroy();
    }
}

/// Gives the right to take jobs, and to the driver that to queue them. It may go to another thread.
#[derive(Drop)]
pub struct Endpoint<N: Name> {
    pass: SegPass<Job<N>, Permission>,
}

impl<N: Name> Model for Endpoint<N> {
    ghost Value = { EndpointModel };

    ghost view = { λ h. record { queue = record { web = h.pass.web; heap = h.pass.heap }; permission = h.pass.me.view.client } };

    ghost invariant = { λ h. (h.pass.me.hand ≡ None) × (h.pass.me.spare ≡ None) };
}

impl<N: Name> Jobs<N> {
    /// Makes an empty queue, and the endpoint that knows all of it.
    pub fn new(alloc: Global) -> Result<(Jobs<N>, Endpoint<N>), OutOfMemory>
        ensures { IfOk result (λ r. r.1 ≡ record { queue = r.0; permission = permission 1024 [] [] }) }
    {
        let (line, pass) = Line::<N>::with_rule(alloc)?;
        Ok((Jobs { line }, Endpoint { pass }))
    }
}

impl<N: Name> Endpoint<N> {
    /// Returns an endpoint that has taken nothing.
    pub fn give(&mut self, jobs: &Jobs<N>) -> Endpoint<N>
        requires { (self.old.queue ≡ jobs.now) × (1 < self.old.permission.parts) }
        ensures given { result ≡ record { queue = jobs.now; permission = permission 1 [] [] } }
        ensures kept { (self.new.queue ≡ jobs.now) × (self.new.permission.parts + 1 ≡ self.old.permission.parts) × (self.new.permission.put ≡ self.old.permission.put) × (self.new.permission.taken ≡ self.old.permission.taken) }
    {
        Endpoint {
            pass: jobs.line.another::<GivesPart>(&mut self.pass),
        }
    }

    /// Takes an endpoint back, with all that it took.
    pub fn join(&mut self, jobs: &Jobs<N>, other: Endpoint<N>)
        requires { (self.old.queue ≡ jobs.now) × (other.queue ≡ jobs.now) × (0 < self.old.permission.parts) }
        ensures { self.new ≡ record { queue = jobs.now; permission = permission (self.old.permission.parts + other.permission.parts) (self.old.permission.put ++ other.permission.put) (self.old.permission.taken ++ other.permission.taken) } }
    {
        let Endpoint { pass } = other;
        jobs.line.absorb::<GivesPart>(&mut self.pass, pass);
    }

    /// Queues a job, or returns it if memory runs out.
    pub fn put<R: Wait>(&mut self, rt: &R, jobs: &Jobs<N>, job: Job<N>) -> Result<(), Job<N>>
        requires { (self.old.queue ≡ jobs.now) × (0 < self.old.permission.parts) }
        ensures { MatchResult result (λ _. self.new ≡ record { queue = jobs.now; permission = permission self.old.permission.parts (self.old.permission.put ++ child_of job ∷ []) self.old.permission.taken }) (λ back. (back ≡ job) × (self.new ≡ self.old)) }
    {
        jobs.line.push_as::<PutsJob, R>(rt, &mut self.pass, job)
    }

    /// Takes the oldest job, or returns `None` if there is none. Once every endpoint was joined, that is only if each job that was
    /// queued was taken.
    pub fn take<R: Wait>(&mut self, rt: &R, jobs: &Jobs<N>) -> Option<Job<N>>
        requires { (self.old.queue ≡ jobs.now) × (0 < self.old.permission.parts) }
        ensures job { MatchOption result (self.new ≡ self.old) (λ job. self.new ≡ record { queue = jobs.now; permission = permission self.old.permission.parts self.old.permission.put (self.old.permission.taken ++ child_of job ∷ []) }) }
        ensures few { self.old.permission.parts ≡ 1024 → IfSome result (λ _. length self.new.permission.taken ≤ length self.new.permission.put) }
        ensures end { self.old.permission.parts ≡ 1024 → IfNone result ((h : _) → weigh h self.old.permission.put ≡ weigh h self.old.permission.taken) }
    {
        jobs.line.pop_as::<TakesJob, R>(rt, &mut self.pass)
    }
}

/// Queues jobs, and keeps those for which the queue has no memory. Beside those it has room for all that it queued, so that the
/// jobs that remain at the end of a run can be read out without memory.
#[derive(Drop)]
pub struct Dispatcher<N: Name> {
    endpoint: Endpoint<N>,
    queued: usize,
    kept: Vec<Job<N>>,
}

impl<N: Name> Model for Dispatcher<N> {
    ghost use Rattle.std.specs.Prelude.{◌≡◌, ◌-◌, ◌+◌, ◌<◌, ◌≤◌, [], length, vec_len, vec_capacity};
    ghost use Rattle.sup_crew.specs.Jobs.{children_of};
    ghost use Rattle.sup_crew.specs.Dispatchers.{DispatcherModel};

    ghost Value = { DispatcherModel };

    ghost view = { λ d. record { queue = d.endpoint.queue; parts = d.endpoint.permission.parts; put = d.endpoint.permission.put; kept = children_of d.kept.items; room = vec_capacity d.kept - (vec_len d.kept + d.queued) } };

    ghost invariant = { λ d. (d.endpoint.permission.taken ≡ []) × (0 < d.endpoint.permission.parts) × (d.queued ≡ length d.endpoint.permission.put) × (vec_len d.kept + d.queued ≤ vec_capacity d.kept) };
}

impl<N: Name> Dispatcher<N> {
    pub fn new(alloc: Global, endpoint: Endpoint<N>) -> Dispatcher<N>
        requires { (endpoint.permission.put ≡ []) × (endpoint.permission.taken ≡ []) × (0 < endpoint.permission.parts) }
        ensures { (result.queue ≡ endpoint.queue) × (result.parts ≡ endpoint.permission.parts) × (result.put ≡ []) × (result.kept ≡ []) }
    {
        Dispatcher {
            endpoint,
            queued: 0,
            kept: Vec::new(alloc),
        }
    }

    pub fn queued(&self) -> usize {
        self.queued
    }

    pub fn make_room(&mut self, more: usize) -> Result<(), OutOfMemory>
        ensures same { HasSameJobs self.old self.new }
        ensures room { IfOk result (λ _. more ≤ self.new.room) }
    {
        let Some(room) = self.queued.checked_add(more) else {
            return Err(OutOfMemory);
        };
        self.kept.reserve(room)?;
        Ok(())
    }

    /// Queues a job, or keeps it.
    pub fn dispatch<R: Wait>(&mut self, rt: &R, crew: &Crew<N>, job: Job<N>)
        requires { (self.old.queue ≡ crew.now.jobs) × (0 < self.old.room) }
        ensures same { IsSameQueue self.old self.new }
        ensures account { (h : _) → weigh h self.new.put + weigh h self.new.kept ≡ weigh h self.old.put + weigh h self.old.kept + h (child_of job) }
        ensures room { self.new.room + 1 ≡ self.old.room }
    {
        match self.endpoint.put(rt, &crew.jobs, job) {
            Ok(()) => {
                self.queued += 1;
                crew.signals.queued.notify_one();
            }
            Err(back) => self.kept.push_reserved(back),
        }
    }

    /// Returns the endpoint at the queue, and the jobs that are kept, in a list that has room for those that were queued.
    pub fn end(self) -> (Endpoint<N>, Vec<Job<N>>)
        ensures endpoint { (result.0 ≡ record { queue = self.queue; permission = permission self.parts self.put [] }) × (0 < self.parts) }
        ensures kept { children_of result.1.items ≡ self.kept }
        ensures room { vec_len result.1 + length self.put ≤ vec_capacity result.1 }
    {
        (self.endpoint, self.kept)
    }
}

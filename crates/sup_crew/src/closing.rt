//! The end of a run: what its workers had is collected, and what was counted is reported.
ghost use Rattle.std.specs.Prelude.{◌≡◌, ◌+◌, ◌<◌, ◌≤◌, [], ◌++◌, length, vec_len, vec_capacity};
ghost use Rattle.sup_crew.specs.Jobs.{weigh, children_of};
ghost use Rattle.sup_crew.specs.Joins.{AreEndpoints, posters_of, taken_of, unposted_of};
ghost use Rattle.sup_crew.specs.Reports.{IsRun};
ghost use Rattle.sup_crew.specs.Runs.{IsRunOutcome, HasRoom};

use crate::crew::Crew;
use crate::job::{Body, Job};
use crate::plan::Report;
use crate::queue::{Endpoint, Jobs};
use crate::run::RunOutcome;
use crate::worker::Finished;
use std::sync::Wait;
use sup_desk::Name;
use sup_inbox::{Note, Poster, settle};

/// Holds room for what the end of a run hands over. It is made before the run, so that its end takes no memory.
#[derive(Drop)]
pub struct Buffers {
    pub posters: Vec<Poster>,
    pub unposted: Vec<Note>,
    pub inbox: Vec<Note>,
    pub held: Vec<Note>,
}

/// Takes back what the workers had: their endpoints, their posters and the notes that they could not post.
fn collect<N: Name>(
    jobs: &Jobs<N>,
    mut endpoint: Endpoint<N>,
    finished: Vec<Finished<N>>,
    mut posters: Vec<Poster>,
    mut unposted: Vec<Note>,
) -> (Endpoint<N>, Vec<Poster>, Vec<Note>)
    requires endpoint { (endpoint.queue ≡ jobs.now) × (0 < endpoint.permission.parts) }
    requires endpoints { AreEndpoints jobs.now finished.items }
    requires empty { (posters.items ≡ []) × (unposted.items ≡ []) }
    requires room { (vec_len finished ≤ vec_capacity posters) × (vec_len finished ≤ vec_capacity unposted) }
    ensures endpoint { (result.0.queue ≡ jobs.now) × (result.0.permission.parts ≡ endpoint.permission.parts + vec_len finished) × (result.0.permission.put ≡ endpoint.permission.put) × (result.0.permission.taken ≡ endpoint.permission.taken ++ taken_of finished.items) }
    ensures posters { result.1.items ≡ posters_of finished.items }
    ensures unposted { result.2.items ≡ unposted_of finished.items }
{
    for one in finished {
        endpoint.join(jobs, one.endpoint);
        let Ok(()) = unposted.extend_from_slice(one.unposted.as_slice()) else {
            unreachable!()
        };
        posters.push_reserved(one.poster);
    }
    (endpoint, posters, unposted)
}

fn read_all<N: Name, R: Wait>(
    rt: &R,
    jobs: &Jobs<N>,
    mut endpoint: Endpoint<N>,
    mut left: Vec<Job<N>>,
) -> Vec<Job<N>>
    requires endpoint { (endpoint.queue ≡ jobs.now) × (endpoint.permission.parts ≡ 1024) }
    requires room { vec_len left + length endpoint.permission.put ≤ vec_capacity left }
    ensures { (h : _) → weigh h endpoint.permission.put + weigh h (children_of left.items) ≡ weigh h endpoint.permission.taken + weigh h (children_of result.items) }
{
    for _ in rt.forever() {
        match endpoint.take(rt, jobs) {
            Some(job) => left.push_reserved(job),
            None => return left,
        }
    }
    unreachable!()
}

/// Settles the inbox, reads the queue of jobs out, and reports what the run did.
pub fn close<N: Name, B: Body, R: Wait>(
    rt: &R,
    crew: Crew<N>,
    body: &B,
    outcome: RunOutcome<N>,
    buffers: Buffers,
) -> Report<N>
    requires outcome { (run : _) × (after : _) × IsRunOutcome (B.may_end body.now) run crew.jobs crew.inbox.id crew.plan.workers crew.plan.children.items after outcome }
    requires workers { crew.plan.workers < 1024 }
    requires room { HasRoom crew.plan.workers crew.inbox.capacity buffers }
    ensures { (run : _) (after : _) → IsRunOutcome (B.may_end body.now) run crew.jobs crew.inbox.id crew.plan.workers crew.plan.children.items after outcome → IsRun (B.may_end body.now) run crew.plan.children.items after result }
{
    let (taker, held) = outcome.drain.end();
    let (endpoint, left) = outcome.jobs.end();
    let (endpoint, posters, unposted) = collect(
        &crew.jobs,
        endpoint,
        outcome.finished,
        buffers.posters,
        buffers.unposted,
    );
    let Ok(settled) = settle(rt, posters, taker, crew.inbox, buffers.inbox) else {
        unreachable!()
    };
    let left = read_all(rt, &crew.jobs, endpoint, left);
    let mut list = buffers.held;
    let Ok(()) = list.extend_from_slice(held.as_slice()) else {
        unreachable!()
    };
    let mut unstarted = crew.plan.children;
    drop(unstarted.drain(..outcome.started));
    Report {
        driver: outcome.driver,
        caller: None,
        ticket: outcome.ticket,
        tally: outcome.tally,
        unstarted,
        held: list,
        inbox: settled.left,
        unposted,
        left,
        fault: outcome.fault,
    }
}

//! Workers: what one does, and its thread.
ghost use Rattle.std.specs.Prelude.{◌≡◌, [], ◌++◌, ◌∷◌, MatchResult, ℕ, ◌+◌, ◌<◌, ◌≤◌, IfOk, IfErr, IfNone, vec_len, vec_capacity, slice_index_or};
ghost use Rattle.sup_crew.specs.Jobs.{permission};
ghost use Rattle.sup_crew.specs.Work.{IsNext, IsWorked, AreWorked};
ghost use Rattle.sup_inbox.specs.Ends.{AreFrom, AreNew};

use crate::crew::{Crew, sleep};
use crate::fault::CrewFault;
use crate::job::{Body, Job};
use crate::queue::Endpoint;
use std::alloc::Global;
use std::sync::Wait;
use std::thread::{Promise, PromisedHandle, Scope, Threads};
use sup_desk::{Asker, Desk, Journal, Name};
use sup_inbox::{Note, Poster};
use sup_types::Starter;

/// Holds a worker's endpoint and poster, and what it could not post.
#[derive(Drop)]
pub struct Finished<N: Name> {
    pub endpoint: Endpoint<N>,
    pub poster: Poster,
    pub unposted: Option<Note>,
}

/// Posts the poster's next note, and tries again if the inbox is full: at most `turns` times, each after a drain or 0.1 s, and not
/// once the run is over. Returns a note that was not posted.
fn post_until<N: Name, R: Wait>(
    rt: &R,
    crew: &Crew<N>,
    poster: &mut Poster,
    note: Note,
) -> Result<(), Note>
    requires inbox { poster.old.inbox ≡ crew.now.inbox.id }
    requires next { IsNext poster.old note }
    ensures same { (poster.new.inbox ≡ poster.old.inbox) × (poster.new.number ≡ poster.old.number) }
    ensures posted { MatchResult result (λ _. poster.new.posted ≡ poster.old.posted ++ note ∷ []) (λ back. (back ≡ note) × (poster.new.posted ≡ poster.old.posted)) }
{
    let signals = &crew.signals;
    for _ in 0..crew.plan.turns {
        let noted = signals.drained.notifications();
        if let Ok(()) = poster.post(rt, &crew.inbox, note.number, note.arg, note.reason) {
            signals.posted.notify_one();
            return Ok(());
        }
        if signals.is_over() {
            break;
        }
        sleep(rt, &signals.drained, noted);
    }
    Err(note)
}

/// Takes jobs, runs the body and posts how each ended, until the run is over, the body says that it is, or an exit can't be posted.
/// The asker has learnt a job's ticket before its body runs.
pub fn work<N: Name, B: Body, R: Wait>(
    rt: &R,
    crew: &Crew<N>,
    body: &B,
    mut endpoint: Endpoint<N>,
    mut poster: Poster,
    mut asker: Asker<N>,
) -> Finished<N>
    requires endpoint { endpoint ≡ record { queue = crew.now.jobs; permission = permission 1 [] [] } }
    requires poster { (poster.inbox ≡ crew.now.inbox.id) × (poster.posted ≡ []) }
    ensures { IsWorked (B.may_end body.now) crew.now.jobs crew.now.inbox.id poster.number result }
{
    let signals = &crew.signals;
    for _ in rt.forever() {
        if !body.goes_on(&mut asker) {
            signals.end();
            return Finished {
                endpoint,
                poster,
                unposted: None,
            };
        }
        let noted = signals.queued.notifications();
        let Some(job) = endpoint.take(rt, &crew.jobs) else {
            if signals.is_over() {
                return Finished {
                    endpoint,
                    poster,
                    unposted: None,
                };
            }
            sleep(rt, &signals.queued, noted);
            continue;
        };
        let note = run_job(body, job, &mut asker, &poster);
        if let Err(back) = post_until(rt, crew, &mut poster, note) {
            return Finished {
                endpoint,
                poster,
                unposted: Some(back),
            };
        }
    }
    unreachable!()
}

/// Learns the job's ticket, and runs the body. Returns the note of its exit, which is the poster's next.
fn run_job<N: Name, B: Body>(body: &B, job: Job<N>, asker: &mut Asker<N>, poster: &Poster) -> Note
    ensures child { (result.number ≡ job.number) × (result.arg ≡ job.arg) }
    ensures reason { B.may_end body.now job.number job.arg result.reason }
    ensures next { IsNext poster.now result }
{
    let (number, arg) = (job.number, job.arg);
    let _ = asker.learn(&job.ticket);
    let reason = body.run(job, asker);
    Note {
        poster: poster.number(),
        serial: poster.serial(),
        number,
        arg,
        reason,
    }
}

/// The promise of a worker: it hands back all that it took.
#[derive(Drop)]
pub struct Works<'a, N: Name, B> {
    pub crew: &'a Crew<N>,
    pub body: &'a B,
    pub number: u64,
}

impl<'a, N: Name, B: Body> Promise<Finished<N>> for Works<'a, N, B> {
    ghost kept_by = { λ p r. IsWorked (B.may_end p.body.now) p.crew.now.jobs p.crew.now.inbox.id p.number r };
}

pub type Worker<'a, N, B> = PromisedHandle<Finished<N>, Works<'a, N, B>>;

/// Starts a worker with this asker, if there is one, and this poster. It has an endpoint of its own.
fn start_one<'s, E, N, B, R>(
    scope: &Scope<'s, E>,
    rt: &'s R,
    crew: &'s Crew<N>,
    body: &'s B,
    asker: Option<Asker<N>>,
    endpoint: &mut Endpoint<N>,
    poster: Poster,
) -> Result<Worker<'s, N, B>, CrewFault>
where
    N: Name + Send + Sync + 's,
    B: Body + Sync,
    R: Threads + Wait + Sync,
    requires endpoint { (endpoint.old.queue ≡ crew.now.jobs) × (1 < endpoint.old.permission.parts) }
    requires poster { (poster.inbox ≡ crew.now.inbox.id) × (poster.posted ≡ []) }
    ensures endpoint { IfOk result (λ _. (endpoint.new.queue ≡ crew.now.jobs) × (endpoint.new.permission.parts + 1 ≡ endpoint.old.permission.parts) × (endpoint.new.permission.put ≡ endpoint.old.permission.put) × (endpoint.new.permission.taken ≡ endpoint.old.permission.taken)) }
    ensures worker { IfOk result (λ w. (w.promise.crew.now ≡ crew.now) × (w.promise.body.now ≡ body.now) × (w.promise.number ≡ poster.number)) }
    ensures place { IfErr result (λ e. e ≡ CrewFault.NoHandle → ⊥) }
    ensures asker { IfNone asker (result ≡ Err CrewFault.NoPlace) }
{
    let Some(asker) = asker else {
        return Err(CrewFault::NoPlace);
    };
    let number = poster.number();
    let promise = Works { crew, body, number };
    let theirs = endpoint.give(&crew.jobs);
    match scope.spawn_with(promise, move || work(rt, crew, body, theirs, poster, asker)) {
        Ok(worker) => Ok(worker),
        Err(_) => Err(CrewFault::OutOfMemory),
    }
}

/// Starts a worker for each poster. If one can't be started, the run is over and the started ones are joined: NoPlace if the desk
/// has no place for a worker's asker, and else OutOfMemory.
pub fn start<'s, E, N, S, P, J, B, R>(
    scope: &Scope<'s, E>,
    rt: &'s R,
    alloc: Global,
    crew: &'s Crew<N>,
    body: &'s B,
    desk: &Desk<N, S, P, J>,
    mut endpoint: Endpoint<N>,
    posters: Vec<Poster>,
) -> Result<(Endpoint<N>, Vec<Worker<'s, N, B>>), CrewFault>
where
    N: Name + Send + Sync + 's,
    S: Starter + Drop,
    P: Wait + Drop,
    J: Journal + Drop,
    B: Body + Sync,
    R: Threads + Wait + Sync,
    requires endpoint { endpoint ≡ record { queue = crew.now.jobs; permission = permission 1024 [] [] } }
    requires posters { AreFrom crew.now.inbox.id 1 posters.items × AreNew posters.items × (vec_len posters < 1024) }
    ensures endpoint { IfOk result (λ r. (r.0 ≡ record { queue = crew.now.jobs; permission = permission r.0.permission.parts [] [] }) × (r.0.permission.parts + vec_len posters ≡ 1024)) }
    ensures len { IfOk result (λ r. vec_len r.1 ≡ vec_len posters) }
    ensures each { IfOk result (λ r. (k : ℕ) (d : _) → k < vec_len posters → ((slice_index_or r.1.items k d).promise.crew.now ≡ crew.now) × ((slice_index_or r.1.items k d).promise.body.now ≡ body.now) × ((slice_index_or r.1.items k d).promise.number ≡ k + 1)) }
    ensures place { IfErr result (λ e. e ≡ CrewFault.NoHandle → ⊥) }
{
    let Ok(mut workers) = Vec::with_capacity(alloc, posters.len()) else {
        return Err(CrewFault::OutOfMemory);
    };
    for poster in posters {
        let asker = desk.asker(rt).ok();
        match start_one(scope, rt, crew, body, asker, &mut endpoint, poster) {
            Ok(worker) => workers.push_reserved(worker),
            Err(fault) => {
                crew.signals.end();
                for worker in workers {
                    drop(worker.join(rt));
                }
                return Err(fault);
            }
        }
    }
    Ok((endpoint, workers))
}

pub fn join_all<'s, N: Name, B: Body, R: Threads>(
    rt: &R,
    crew: &Crew<N>,
    body: &B,
    workers: Vec<Worker<'s, N, B>>,
    mut finished: Vec<Finished<N>>,
) -> Vec<Finished<N>>
    requires workers { (k : ℕ) (d : _) → k < vec_len workers → ((slice_index_or workers.items k d).promise.crew.now ≡ crew.now) × ((slice_index_or workers.items k d).promise.body.now ≡ body.now) × ((slice_index_or workers.items k d).promise.number ≡ k + 1) }
    requires finished { (finished.items ≡ []) × (vec_len workers ≤ vec_capacity finished) }
    ensures len { vec_len result ≡ vec_len workers.entry }
    ensures each { AreWorked (B.may_end body.now) crew.now.jobs crew.now.inbox.id 1 result.items }
{
    for worker in workers {
        finished.push_reserved(worker.join(rt));
    }
    finished
}

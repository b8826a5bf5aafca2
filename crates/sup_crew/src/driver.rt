//! The driver of a run: what it entered, and the jobs that it queued or kept.
ghost use Rattle.std.specs.Prelude.{◌≡◌, ◌+◌, ◌<◌, ◌≤◌, [], ◌∷◌, length, take, IfOk, IfErr, OnErr, IfNone, IsSome, IfSome, MatchOption, None, Some, true, false, vec_len};
ghost use Rattle.std.specs.Option.{option_or};
ghost use Rattle.sup_crew.specs.Drains.{replies_of};
ghost use Rattle.sup_crew.specs.Dispatchers.{IsSameQueue, HasDispatched};
ghost use Rattle.sup_crew.specs.Births.{AreBornBy};
ghost use Rattle.sup_crew.specs.Calls.{starts_of};
ghost use Rattle.sup_crew.specs.Drivers.{DriverModel, IsAtWork, IsSameDriver, Starts, GoesOn, IsCause, started_jobs, restarted_jobs};
ghost use Rattle.sup_crew.specs.Tallies.{with_reply, with_replies};

use crate::crew::{Crew, sleep};
use crate::drain::{Drain, DrainFault, Drained, HELD};
use crate::job::Job;
use crate::queue::Dispatcher;
use std::alloc::{AllocError, Global};
use std::collections::VecDeque;
use std::marker::Model;
use std::sync::Wait;
use sup_desk::{Dones, Handle, Journal, Name, UpdateFault};
use sup_log::Ticket;
use sup_types::{Operation, Reason, Reply, Starter, Text};

/// Drives a run: it makes all updates.
#[derive(Drop)]
pub struct Driver<'d, N: Name, S: Starter + Drop, P: Wait + Drop, J: Journal + Drop> {
    pub handle: Handle<'d, N, S, P, J>,
    pub jobs: Dispatcher<N>,
    pub drain: Drain,
    pub ticket: Option<Ticket>,
    pub tally: Tally,
}

impl<'d, N: Name, S: Starter + Drop, P: Wait + Drop, J: Journal + Drop> Model
    for Driver<'d, N, S, P, J> {
    ghost Value = { DriverModel };

    ghost view = { λ d. record { knows = d.handle; jobs = d.jobs; drain = d.drain; ticket = d.ticket; tally = d.tally } };
}

impl<'d, N: Name, S: Starter + Drop, P: Wait + Drop, J: Journal + Drop> Driver<'d, N, S, P, J> {
    /// Starts the children in order, up to 64 by one publication. Returns how many were started, and the fault that stopped it.
    pub fn start_all<R: Wait>(
        &mut self,
        rt: &R,
        alloc: Global,
        crew: &Crew<N>,
    ) -> (usize, Option<UpdateFault>)
        requires { self.old.jobs.queue ≡ crew.now.jobs }
        ensures same { IsSameDriver self.old self.new }
        ensures cause { IfSome result.1 (λ e. IsCause N.template self.new.knows e) }
        ensures started { Starts N.template N.press crew.now.plan.moment (take result.0 crew.now.plan.children.items) self.old self.new }
        ensures all { IfNone result.1 (result.0 ≡ length crew.now.plan.children.items) }
        ensures few { result.0 ≤ length crew.now.plan.children.items }
    {
        let mut started = 0usize;
        let mut starts = VecDeque::new(alloc);
        for batch in crew.plan.children.as_slice().chunks(HELD) {
            let (count, fault) = self.start_batch(rt, alloc, crew, batch, &mut starts);
            started += count;
            if fault.is_some() {
                return (started, fault);
            }
        }
        (started, None)
    }

    /// Starts children in one step. Returns how many were started, and the fault that stopped it, if there is one.
    fn start_batch<R: Wait>(
        &mut self,
        rt: &R,
        alloc: Global,
        crew: &Crew<N>,
        args: &[Text],
        starts: &mut VecDeque<Operation>,
    ) -> (usize, Option<UpdateFault>)
        requires { self.old.jobs.queue ≡ crew.now.jobs }
        ensures same { IsSameDriver self.old self.new }
        ensures cause { IfSome result.1 (λ e. IsCause N.template self.new.knows e) }
        ensures started { Starts N.template N.press crew.now.plan.moment (take result.0 args.now) self.old self.new }
        ensures all { IfNone result.1 (result.0 ≡ length args.now) }
        ensures few { result.0 ≤ length args.now }
    {
        if self.jobs.make_room(args.len()).is_err() || list_starts(args, starts).is_err() {
            return (0, Some(UpdateFault::OutOfMemory));
        }
        match self.handle.apply_all(rt, alloc, crew.plan.moment, starts) {
            Ok(Dones { replies, ticket }) => {
                let count = self.note_starts(rt, crew, args, &replies, Some(ticket));
                (count, None)
            }
            Err(part) => {
                let ticket = part.ticket;
                let count = self.note_starts(rt, crew, args, &part.replies, ticket);
                (count, Some(part.fault))
            }
        }
    }

    /// Counts the first starts, and queues the jobs for the children that they made. Returns how many starts there are.
    fn note_starts<R: Wait>(
        &mut self,
        rt: &R,
        crew: &Crew<N>,
        args: &[Text],
        replies: &[Reply],
        ticket: Option<Ticket>,
    ) -> usize
        requires room { (self.old.jobs.queue ≡ crew.now.jobs) × (length replies.now ≤ self.old.jobs.room) × (length replies.now ≤ length args.now) }
        requires press { MatchOption ticket (replies.now ≡ []) (λ t. t.press ≡ N.press) }
        requires born { IfSome ticket (λ t. AreBornBy N.template t.front replies.now) }
        ensures same { (self.new.knows ≡ self.old.knows) × (self.new.drain ≡ self.old.drain) × IsSameQueue self.old.jobs self.new.jobs }
        ensures ticket { self.new.ticket ≡ option_or ticket self.old.ticket }
        ensures tally { self.new.tally ≡ with_replies self.old.tally false replies.now }
        ensures account { HasDispatched self.old.jobs self.new.jobs (started_jobs args.now replies.now) }
        ensures count { result ≡ length replies.now }
    {
        let Some(ticket) = ticket else {
            return replies.len();
        };
        for at in 0..replies.len() {
            let (arg, reply) = (args[at], &replies[at]);
            self.tally.count_start(rt, reply);
            if let Reply::Started(number) = reply {
                self.jobs
                    .dispatch(rt, crew, Job::new(*number, arg, ticket.copied()));
            }
        }
        self.ticket = Some(ticket);
        replies.len()
    }

    /// Drains until as many notes were taken as jobs are queued, a fault comes, or the plan's number of turns in a row took none, of
    /// which one is enough once the run is over. It does nothing if there is a fault already.
    pub fn drain_all<R: Wait>(
        &mut self,
        rt: &R,
        alloc: Global,
        crew: &Crew<N>,
        fault: Option<UpdateFault>,
    ) -> Option<UpdateFault>
        requires at_work { IsAtWork crew.now.jobs crew.now.inbox.id self.old }
        requires cause { IfSome fault (λ e. IsCause N.template self.old.knows e) }
        ensures same { IsSameDriver self.old self.new }
        ensures stays { IsSome fault → IsSome result }
        ensures cause { IfSome result (λ e. IsCause N.template self.new.knows e) }
        ensures drained { GoesOn N.template N.press crew.now.plan.moment self.old self.new }
    {
        if fault.is_some() {
            return fault;
        }
        let signals = &crew.signals;
        let mut taken = 0usize;
        let mut idle = 0u64;
        for _ in rt.forever() {
            let is_over = idle >= crew.plan.turns || idle > 0 && signals.is_over();
            if is_over || taken >= self.jobs.queued() {
                return None;
            }
            let noted = signals.posted.notifications();
            let (count, fault) = self.drain_once(rt, alloc, crew);
            if fault.is_some() {
                return fault;
            }
            if count > 0 {
                idle = 0;
                taken = taken.saturating_add(count);
                signals.drained.notify_all();
                continue;
            }
            idle += 1;
            if idle < crew.plan.turns && !signals.is_over() {
                sleep(rt, &signals.posted, noted);
            }
        }
        unreachable!()
    }

    /// Drains once. Returns how many exits were entered, and the fault that stopped it, if there is one.
    fn drain_once<R: Wait>(
        &mut self,
        rt: &R,
        alloc: Global,
        crew: &Crew<N>,
    ) -> (usize, Option<UpdateFault>)
        requires { IsAtWork crew.now.jobs crew.now.inbox.id self.old }
        ensures same { IsSameDriver self.old self.new }
        ensures cause { IfSome result.1 (λ e. IsCause N.template self.new.knows e) }
        ensures drained { GoesOn N.template N.press crew.now.plan.moment self.old self.new }
    {
        if self.jobs.make_room(HELD).is_err() {
            return (0, Some(UpdateFault::OutOfMemory));
        }
        let moment = crew.plan.moment;
        match self
            .drain
            .drain(rt, alloc, &crew.inbox, &mut self.handle, moment, HELD)
        {
            Ok(done) => (self.note_exits(rt, crew, done), None),
            Err(DrainFault { done, fault }) => (self.note_exits(rt, crew, done), Some(fault)),
        }
    }

    /// Counts exits, and queues the jobs for the children that restarts made. Returns how many exits there are.
    fn note_exits<R: Wait>(&mut self, rt: &R, crew: &Crew<N>, done: Drained) -> usize
        requires room { (self.old.jobs.queue ≡ crew.now.jobs) × (vec_len done.pairs ≤ self.old.jobs.room) }
        requires press { MatchOption done.ticket (done.pairs.items ≡ []) (λ t. t.press ≡ N.press) }
        requires born { IfSome done.ticket (λ t. AreBornBy N.template t.front (replies_of done.pairs.items)) }
        ensures same { (self.new.knows ≡ self.old.knows) × (self.new.drain ≡ self.old.drain) × IsSameQueue self.old.jobs self.new.jobs }
        ensures ticket { self.new.ticket ≡ option_or done.ticket self.old.ticket }
        ensures tally { self.new.tally ≡ with_replies self.old.tally true (replies_of done.pairs.items) }
        ensures account { HasDispatched self.old.jobs self.new.jobs (restarted_jobs done.pairs.items) }
    {
        let Drained { pairs, ticket } = done;
        let count = pairs.len();
        let Some(ticket) = ticket else {
            return count;
        };
        for at in 0..count {
            let (note, reply) = &pairs[at];
            self.tally.count_exit(rt, reply);
            let Reply::Restarted(_, number) = reply else {
                continue;
            };
            self.jobs
                .dispatch(rt, crew, Job::new(*number, note.arg, ticket.copied()));
        }
        self.ticket = Some(ticket);
        self.drain.reuse(pairs);
        count
    }
}

/// Counts updates by what was asked for and what was replied: all exits, and those that were answered Stray, Down, Restarted and GaveUp.
#[derive(Clone, Copy, Default)]
pub struct Tally {
    /// How many made a child.
    pub made: u64,
    pub exits: u64,
    pub strays: u64,
    pub downs: u64,
    pub restarts: u64,
    pub given_up: u64,
    /// How many were starts that made no child.
    pub refused: u64,
}

/// Lists the starts of children with these arguments, in place of what the list had.
#[tactic(auto, using(crate::proofs::Driven::starts_more))]
fn list_starts(args: &[Text], starts: &mut VecDeque<Operation>) -> Result<(), AllocError>
    ensures { IfOk result (λ _. starts.new.items ≡ starts_of args.now) }
{
    starts.clear();
    starts.reserve(args.len())?;
    // Names a reason: the borrow checker of this kit asks where its type is declared.
    let _ = Reason::Normal;
    for arg in args {
        starts.push_back_reserved(Operation::Start(*arg));
    }
    Ok(())
}

/// Adds one. A count that would not fit waits for ever: no history is as long.
fn count_one<R: Wait>(rt: &R, count: &mut u64)
    ensures { count.new ≡ count.old + 1 }
{
    if let Some(next) = count.checked_add(1) {
        *count = next;
        return;
    }
    for _ in rt.forever() {}
}

impl Tally {
    fn count_start<R: Wait>(&mut self, rt: &R, reply: &Reply)
        ensures { self.new ≡ with_reply self.old false reply.now }
    {
        match reply {
            Reply::Started(_) | Reply::Restarted(_, _) => count_one(rt, &mut self.made),
            _ => count_one(rt, &mut self.refused),
        }
    }

    fn count_exit<R: Wait>(&mut self, rt: &R, reply: &Reply)
        ensures { self.new ≡ with_reply self.old true reply.now }
    {
        count_one(rt, &mut self.exits);
        match reply {
            Reply::Started(_) => count_one(rt, &mut self.made),
            Reply::Restarted(_, _) => {
                count_one(rt, &mut self.made);
                count_one(rt, &mut self.restarts);
            }
            Reply::Stray(_) => count_one(rt, &mut self.strays),
            Reply::Down => count_one(rt, &mut self.downs),
            Reply::GaveUp => count_one(rt, &mut self.given_up),
            _ => {}
        }
    }
}

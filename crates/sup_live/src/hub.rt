//! Hubs: what the threads of a crew share.
ghost use Rattle.std.specs.Prelude.{◌≡◌, ◌<◌, ◌≤◌, ◌+◌, ◌-◌, ◌/◌, ◌^◌, List, [], ◌∷◌, ◌++◌, true, length, min, max, IfOk, IfSome, OnOk, vec_len};
ghost use Rattle.std.specs.Duration.{as_nanos};
ghost use Rattle.std.specs.VecDeque.{deque_len, deque_capacity};
ghost use mathlib.Core.List.{IsPrefix};
ghost use Rattle.sup_exits.specs.Endings.{is_ending, AreEndings};
ghost use Rattle.sup_exits.specs.Accounts.{capped};
ghost use Rattle.sup_exits.specs.Exits.{children_of};
ghost use Rattle.sup_exits.specs.declared.exit.Child.{Child};
ghost use Rattle.sup_live.specs.Totals.{IsAccounted};

use crate::behaviour::{Behaviour, End};
use crate::clock::Moment;
use crate::ends::{Cause, CrewState, Ends};
use crate::host::Host;
use crate::mailbox::{ChildRef, Told};
use crate::plan::Plan;
use crate::registry::{Entry, Registry};
use std::alloc::Global;
use std::collections::{HashMap, VecDeque};
use std::sync::atomic::{AtomicU64, Ordering};
use std::sync::{Arc, Condvar, Mutex, Wait};
use std::time::Duration;
use sup_desk::{Done, UpdateFault};
use sup_exits::{Account, Child, Due, Exit, ExitQueue, Ledger, Office, OwedExit, Totals};
use sup_types::{Operation, OutOfMemory, Text};

/// What the threads of a crew share: the queues of exits, the ledger of the children, and the registry of those that are alive. No
/// contract can say what its counts hold while other threads count as well.
#[derive(Drop)]
pub struct Hub<B: Behaviour, P: Host> {
    /// What the crew runs by.
    pub(crate) rt: P,
    /// Where the crew takes memory.
    pub(crate) alloc: Global,
    /// The children that were made, and whether their exits were paid.
    pub(crate) ledger: Ledger,
    /// Notified after each change of the history that queries can see.
    pub(crate) changed: Condvar,
    /// What the crew is.
    pub(crate) ends: Arc<Ends>,
    queues: Vec<Mutex<ExitQueue<P>>>,
    pub(crate) registry: Mutex<Registry<B>>,
    /// Notified when a child is gone that was asked to end.
    gone: Condvar,
    /// For how long a child may run after it was asked to end.
    grace: Duration,
    /// How many messages may wait for a child.
    pub(crate) mailbox: usize,
    /// How many children were made, and how many have ended.
    made: AtomicU64,
    ended: AtomicU64,
    workers: AtomicU64,
    /// How many times the queues were visited.
    visits: AtomicU64,
    ghost booked: { ledger.id ≡ P.ledger },
    ghost some: { 0 < vec_len queues },
}

/// Makes this number of queues.
fn queues_of<P: Host>(alloc: Global, count: usize) -> Result<Vec<Mutex<ExitQueue<P>>>, OutOfMemory>
    ensures { IfOk result (λ queues. vec_len queues ≡ count) }
{
    let mut queues = Vec::with_capacity(alloc, count)?;
    for _ in 0..count {
        queues.push_reserved(Mutex::new(ExitQueue::new(alloc)));
    }
    Ok(queues)
}

/// Lists these exits, and pays each. If memory is refused for the list, the rest is dropped, and stays owed.
fn tell<P: Host>(
    ledger: &Ledger,
    exits: VecDeque<OwedExit<P>>,
    account: &mut Account,
    told: &mut Vec<Exit>,
)
    requires ledger { (ledger.now.id ≡ P.ledger) × (account.old.ledger ≡ P.ledger) }
    requires part { 0 < account.old.parts }
    requires endings { AreEndings P.may_end told.old.items }
    ensures endings { AreEndings P.may_end told.new.items }
    ensures paid { (others : List Child) → account.old.paid ≡ others ++ children_of told.old.items → account.new.paid ≡ others ++ children_of told.new.items }
    ensures same { (account.new.ledger ≡ P.ledger) × (account.new.parts ≡ account.old.parts) × (account.new.made ≡ account.old.made) }
{
    let mut exits = exits;
    for _ in 0..exits.len() {
        if told.reserve(1).is_err() {
            return;
        }
        let Some(exit) = exits.pop_front() else {
            return;
        };
        told.push_reserved(exit.pay(ledger, account));
    }
}

impl<B: Behaviour, P: Host> Hub<B, P> {
    /// Makes a hub of a ledger that P names, by this plan, with a queue for each worker.
    pub(crate) fn new(
        rt: P,
        alloc: Global,
        ledger: Ledger,
        plan: &Plan,
    ) -> Result<Hub<B, P>, OutOfMemory>
        requires ledger { ledger.id ≡ P.ledger }
        requires workers { 0 < plan.now.workers }
        ensures { IfOk result (λ hub. hub.grace ≡ plan.now.grace) }
    {
        let queues = queues_of(alloc, plan.workers)?;
        Ok(Hub {
            rt,
            alloc,
            ledger,
            changed: Condvar::new(),
            ends: Ends::new(alloc, plan.keeps.unwrap_or(false))?,
            queues,
            registry: Mutex::new(Registry::new(alloc)),
            gone: Condvar::new(),
            grace: plan.grace,
            mailbox: plan.mailbox,
            made: AtomicU64::new(0),
            ended: AtomicU64::new(0),
            workers: AtomicU64::new(plan.workers as u64),
            visits: AtomicU64::new(0),
        })
    }

    /// Returns the queue at this place. A place beyond the last is counted from the first again.
    fn queue(&self, place: usize) -> &Mutex<ExitQueue<P>> {
        &self.queues[place % self.queues.len()]
    }

    /// Makes room for the exits of this many children more, one after another in the queues from the place that it returns. If memory is
    /// refused, it makes none.
    pub(crate) fn make_rooms(&self, count: usize) -> Result<usize, OutOfMemory> {
        let first = self.made.load(Ordering::SeqCst) as usize;
        for at in 0..count {
            let place = first.wrapping_add(at);
            if self.queue(place).lock(&self.rt).make_room().is_err() {
                self.free_rooms(first, at);
                return Err(OutOfMemory);
            }
        }
        Ok(first)
    }

    /// Gives the rooms of this many children back, one after another in the queues from this place.
    pub(crate) fn free_rooms(&self, first: usize, count: usize) {
        for at in 0..count {
            let place = first.wrapping_add(at);
            self.queue(place).lock(&self.rt).free_room();
        }
    }

    /// Returns a child that has ended, and forgets it.
    pub(crate) fn take(&self, number: u64) -> Option<Entry<B>> {
        self.registry.lock(&self.rt).take(number)
    }

    /// Returns what a child left that has ended, for the one of this number which takes its place, and forgets it.
    pub(crate) fn take_over(&self, number: u64, new: u64) -> Option<B::Own> {
        self.registry.lock(&self.rt).take_over(number, new)
    }

    /// Returns all children, once their tasks have gone, and forgets them.
    pub(crate) fn take_all(&self) -> HashMap<u64, Entry<B>> {
        self.registry.lock(&self.rt).take_all(self.alloc)
    }

    /// Returns what the crew is.
    pub(crate) fn state(&self) -> CrewState {
        self.ends.state()
    }

    /// Notes that the supervisor is down.
    pub(crate) fn went_down(&self, cause: Cause) {
        self.ends.note(CrewState::Down(cause));
    }

    /// Notes that the crew has failed, if this fault stays: then nothing more is entered. All who wait are woken.
    pub(crate) fn fail(&self, fault: UpdateFault) {
        if fault != UpdateFault::OutOfMemory && self.ends.note(CrewState::Failed(fault)) {
            self.tell_change();
            self.ring();
        }
    }

    /// Returns whether the crew has failed.
    pub(crate) fn has_failed(&self) -> bool {
        matches!(self.state(), CrewState::Failed(_))
    }

    /// Reports an update that was entered to the watcher, or notes a fault that stays.
    pub(crate) fn note(&self, operation: &Operation, done: &Result<Done, UpdateFault>) {
        match done {
            Ok(Done { reply, ticket }) => self.rt.entered(ticket.stamp(), operation, reply),
            Err(fault) => self.fail(*fault),
        }
    }

    /// Returns why children are to end now, if the crew is not up.
    pub(crate) fn why(&self) -> Option<Told> {
        match self.state() {
            CrewState::Up => None,
            CrewState::Down(Cause::GaveUp) => Some(Told::GaveUp),
            CrewState::Down(Cause::ShutDown) => Some(Told::ShutDown),
            CrewState::Down(_) => Some(Told::Stopped),
            CrewState::Closing => Some(Told::Closing),
            CrewState::Failed(_) => Some(Told::Failed),
        }
    }

    /// Makes a child by this account, whose exit has room in the queue at this place: the exit is owed from now on.
    pub(crate) fn owe(&self, account: &mut Account, child: Child, place: usize) -> Due<P>
        requires { (account.old.ledger ≡ P.ledger) × (0 < account.old.parts) }
        ensures due { result.debt ≡ record { ledger = P.ledger; child = child } }
        ensures account { account.new ≡ record account.old { made = account.old.made ++ child ∷ [] } }
    {
        self.made.fetch_add(1, Ordering::SeqCst);
        Due::new(self.ledger.make(account, child), place)
    }

    /// Notes that the child has ended so: its exit waits to be entered, and the driver is called.
    pub(crate) fn exited(&self, due: Due<P>, end: End<B::Own>)
        requires { is_ending P.may_end end.reason ≡ true }
    {
        let End { reason, own } = end;
        if self.registry.lock(&self.rt).close(due.child().number, own) {
            self.gone.notify_all();
        }
        let exit = due.ended(reason);
        self.queue(exit.place()).lock(&self.rt).put(exit);
        self.ended.fetch_add(1, Ordering::SeqCst);
        self.ring();
    }

    /// Takes exits that wait until this number is held, for which there is room. Those of one queue come in their order, and each
    /// call begins with the next queue.
    pub(crate) fn take_exits(&self, held: &mut VecDeque<OwedExit<P>>, limit: usize)
        requires { limit ≤ deque_capacity held.old }
        ensures kept { IsPrefix held.old.items held.new.items }
        ensures len { deque_len held.new ≤ max limit (deque_len held.old) }
        ensures room { deque_capacity held.new ≡ deque_capacity held.old }
    {
        let count = self.queues.len();
        let visit = self.visits.fetch_add(1, Ordering::SeqCst);
        let first = (visit % count as u64) as usize;
        for at in 0..count {
            self.queue(first.wrapping_add(at))
                .lock(&self.rt)
                .give(held, limit);
        }
    }

    /// Returns the address of the child with this number, if it is alive.
    pub(crate) fn address(&self, number: u64) -> Option<ChildRef<B::Message>>
        ensures { IfSome result (λ address. address.number ≡ number) }
    {
        self.registry.lock(&self.rt).address(number)
    }

    /// Returns until when a child may run that is asked to end at this moment: for its grace, and in any case no longer than to the
    /// last moment that there is.
    pub(crate) fn until(&self, moment: Moment) -> Moment
        ensures { result.millis ≡ min (moment.millis + min (as_nanos self.now.grace / 1000000) (2 ^ 64 - 1)) (2 ^ 64 - 1) }
    {
        moment.after(self.grace)
    }

    /// Returns whether a child is aborted as soon as it is asked to end.
    fn has_no_grace(&self) -> bool {
        self.grace.as_millis() == 0
    }

    /// Asks a child to end, and the driver to see that it does. Returns its argument and what it left, if it has ended.
    pub(crate) fn end(&self, number: u64, moment: Moment, why: Told) -> Option<(Text, B::Own)> {
        let (until, at_once) = (self.until(moment), self.has_no_grace());
        let left = self
            .registry
            .lock(&self.rt)
            .end(number, until, at_once, why);
        self.ring();
        left
    }

    /// Asks all children to end, and the driver to see that they do.
    pub(crate) fn end_all(&self, moment: Moment) {
        let (until, at_once) = (self.until(moment), self.has_no_grace());
        let why = self.why().unwrap_or(Told::Closing);
        self.registry.lock(&self.rt).end_all(until, at_once, why);
        self.ring();
    }

    /// Sleeps until a child that was asked to end is gone. If there is none, it returns at once.
    pub(crate) fn await_end(&self, number: u64) {
        let registry = self.registry.lock(&self.rt);
        let _registry = self
            .gone
            .wait_while(&self.rt, registry, |registry| registry.has(number));
    }

    /// Lets the children go that were asked to end, and whose time is over at this moment. Returns when the time of the next is over,
    /// if another was asked to end.
    pub(crate) fn expire(&self, moment: Moment) -> Option<Moment> {
        self.registry.lock(&self.rt).expire(moment)
    }

    /// Wakes all who wait for a change of the history that queries can see.
    pub(crate) fn tell_change(&self) {
        self.changed.notify_all();
    }

    /// Wakes the driver.
    pub(crate) fn ring(&self) {
        self.ends.bell.unpark();
    }

    /// Sleeps until it is woken. Only the driver sleeps here.
    pub(crate) fn sleep(&self) {
        self.ends.bell.park(&self.rt);
    }

    /// Sleeps until it is woken, or for this time. Only the driver sleeps here.
    pub(crate) fn doze(&self, time: Duration) {
        self.ends.bell.park_timeout(&self.rt, time);
    }

    /// Notes that one worker went, or could not be started.
    pub(crate) fn worker_went(&self) {
        self.workers.fetch_sub(1, Ordering::SeqCst);
        self.ring();
    }

    /// Returns whether no worker is left.
    pub(crate) fn have_all_gone(&self) -> bool {
        self.workers.load(Ordering::SeqCst) == 0
    }

    /// Returns whether each child that was made has ended.
    pub(crate) fn have_all_ended(&self) -> bool {
        let ended = self.ended.load(Ordering::SeqCst);
        ended == self.made.load(Ordering::SeqCst)
    }

    /// Returns the exits that were not entered, and how many children were made and how many of them owe an exit, by the account that all
    /// others were joined to, and the exits that were taken and not entered. Each child that was made has one exit, which was
    /// entered or is in the list, or still owes it: if memory is refused for the list, those that are not in it are owed. If an account
    /// is missing, it is not known how many are.
    pub(crate) fn settle(
        self,
        alloc: Global,
        account: Account,
        held: VecDeque<OwedExit<P>>,
    ) -> (Vec<Exit>, Totals)
        requires { (account.ledger ≡ P.ledger) × (0 < account.parts) }
        ensures endings { AreEndings P.may_end result.0.items }
        ensures made { result.1.made ≡ capped (length account.made) }
        ensures account { IfSome result.1.owed (λ owed. IsAccounted account.made account.paid (children_of result.0.items) result.1.made owed) }
    {
        let Hub { ledger, queues, .. } = self;
        let (mut account, mut left) = (account, Vec::new(alloc));
        tell(&ledger, held, &mut account, &mut left);
        for queue in queues {
            tell(&ledger, queue.into_inner().end(), &mut account, &mut left);
        }
        (left, ledger.settle(account))
    }
}

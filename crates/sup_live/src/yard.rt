//! Yards: where children run.
ghost use Rattle.std.specs.Prelude.{◌≡◌, ◌<◌, ◌/◌, [], ◌∷◌, ◌++◌, IfOk, IfSome, true};
ghost use mathlib.Core.List.{IsPrefix};
ghost use Rattle.sup_live.specs.Ends.{EndsBy};
ghost use Rattle.sup_live.specs.Starts.{child_started, given_back, started_as};

use crate::alive::{Alive, Gate, not_run};
use crate::behaviour::{Behaviour, Untaken};
use crate::clock::Moment;
use crate::host::Host;
use crate::hub::Hub;
use crate::mailbox::{ChildRef, Mailbox, Told, opened};
use crate::registry::Entry;
use futures::Future;
use futures::executor::TaskSet;
use futures::future::{Abortable, pending};
use futures::task::{Doorbell, Hold};
use std::alloc::{AllocError, AllocGlobal};
use std::random::RandomSource;
use std::sync::Arc;
use sup_desk::{HandleOf, Name};
use sup_exits::{Account, Child, Due, Office};
use sup_types::{Operation, OutOfMemory, Reply, Seen, Text};

/// How many workers share a queue of the children that are to be polled.
const WORKERS_OF_A_QUEUE: usize = 4;

/// The tasks of a crew, with what they share. Its type says that its children end only for reasons that the office accepts.
#[derive(Drop)]
pub struct Yard<'h, B: Behaviour, P: Host, F: Future> {
    /// What the threads of the crew share.
    pub hub: &'h Hub<B, P>,
    behaviour: &'h B,
    tasks: TaskSet<F>,
    ghost ends: { P.may_end ≡ B.may_end behaviour.now },
}

/// A yard whose children are those of the behaviour.
pub type CrewYard<'h, B, P> = Yard<'h, B, P, Alive<'h, B, P>>;

impl<'h, B: Behaviour, P: Host, F: Future> Yard<'h, B, P, F> {
    /// Returns the moment now, which the crew's clock gave.
    pub fn now(&self) -> Moment {
        self.hub.rt.now()
    }

    /// Reports to the behaviour that the child with this number was restarted as this one.
    pub fn tell_restarted(&self, number: u64, child: &Child) {
        self.behaviour.restarted(number, child.number, &child.arg);
    }

    /// Has the behaviour take what this child owned, if it owned anything.
    fn tell_left(&self, number: u64, why: Untaken, left: Option<(Text, B::Own)>) {
        if let Some((arg, own)) = left {
            self.behaviour.left(number, &arg, why, own);
        }
    }

    /// Forgets a child that has ended, has what it left taken, and gives its room back, in the queue at this place.
    pub(crate) fn forget(&self, number: u64, place: usize, why: Untaken) {
        let entry = self.hub.take(number);
        self.tell_left(number, why, entry.and_then(Entry::into_left));
        self.hub.free_rooms(place, 1);
    }

    /// Has all taken that children left, once the workers have gone.
    pub(crate) fn forget_all(&self) {
        for (number, entry) in self.hub.take_all() {
            self.tell_left(number, Untaken::Closed, entry.into_left());
        }
    }

    /// Asks a child to end, and the driver to see that it does. What it left is taken, if it has ended.
    pub(crate) fn end(&self, number: u64, moment: Moment, why: Told) {
        let left = self.hub.end(number, moment, why);
        self.tell_left(number, Untaken::Replied(Reply::Ended), left);
    }

    /// Makes the workers go, and lets all children go that are left.
    pub fn shut_down(&self) {
        self.tasks.shut_down();
    }

    /// Makes all that the child of this number and argument takes, which counts as alive from now on: its mailbox, its address, and the
    /// gate by which it is aborted.
    fn admit(
        &self,
        number: u64,
        arg: Text,
    ) -> Result<(Mailbox<B::Message>, ChildRef<B::Message>, Gate), AllocError>
        ensures { IfOk result (λ r. r.1.number ≡ number) }
    {
        let hub = self.hub;
        let (mailbox, room) = opened(hub.alloc, hub.mailbox)?;
        let address = ChildRef {
            number,
            room: Arc::try_clone(&room)?,
        };
        let (gate, abort) = Abortable::new(hub.alloc, pending())?;
        hub.registry.lock(&hub.rt).open(number, arg, room, abort)?;
        Ok((mailbox, address, gate))
    }
}

impl<'h, B: Behaviour, P: Host> Yard<'h, B, P, Alive<'h, B, P>> {
    /// Makes a yard in which no child runs, for this number of workers.
    pub fn new<R: RandomSource + AllocGlobal>(
        rt: &R,
        hub: &'h Hub<B, P>,
        behaviour: &'h B,
        workers: usize,
    ) -> Result<Yard<'h, B, P, Alive<'h, B, P>>, OutOfMemory>
        requires ends { P.may_end ≡ B.may_end behaviour.now }
    {
        // A worker takes the next child of its own queue at once. It leaves the only one of another queue to that queue's workers
        // for a while, though they may all be asleep.
        let queues = (workers / WORKERS_OF_A_QUEUE).max(1);
        let Ok(tasks) = TaskSet::new(rt, Doorbell::parking(), queues) else {
            return Err(OutOfMemory);
        };
        Ok(Yard {
            hub,
            behaviour,
            tasks,
        })
    }

    /// Returns a hold. While it is there, workers wait for children that are still to come.
    pub fn hold(&self) -> Result<Vec<Hold<'_>>, AllocError> {
        self.tasks.hold(self.hub.alloc)
    }

    /// Runs children, as the worker with this number, until the yard is shut down, or no hold of it and no child is left. Then
    /// the worker has gone.
    pub fn work(&self, worker: usize) {
        self.tasks.work(&self.hub.rt, worker);
        self.hub.worker_went();
    }

    /// Runs a child that was made, and gives its address. If there is no memory for it, it has ended at once, what it was to own is taken,
    /// and it has no address.
    fn spawn(&self, due: Due<P>, own: Option<B::Own>) -> Option<ChildRef<B::Message>>
        ensures { IfSome result (λ address. address.number ≡ due.debt.child.number) }
    {
        let Child { number, arg } = due.child();
        let Ok((mailbox, address, gate)) = self.admit(number, arg) else {
            let left = own.map(|own| (arg, own));
            self.tell_left(number, Untaken::NotRun, left);
            self.hub.exited(due, not_run().into());
            return None;
        };
        let child = self.behaviour.begin(number, &arg, own, mailbox);
        let _ = self.tasks.spawn(Alive {
            hub: self.hub,
            gate,
            child: Some(child),
            due: Some(due),
            began: false,
        });
        Some(address)
    }

    /// Makes and runs a child that was started, by this account, whose exit has room in the queue at this place. One that is listed no more
    /// is asked to end, and so is one of a crew that is not up: who ends children enters or notes that first, and then looks for them among
    /// those that are alive.
    pub fn begin<N: Name, D>(
        &self,
        handle: &mut HandleOf<'_, N, D>,
        account: &mut Account,
        moment: Moment,
        child: Child,
        own: Option<B::Own>,
        place: usize,
    ) -> Option<ChildRef<B::Message>>
        requires { (account.old.ledger ≡ P.ledger) × (0 < account.old.parts) }
        ensures address { IfSome result (λ address. address.number ≡ child.number) }
        ensures front { IsPrefix handle.old.front handle.new.front }
        ensures calls { (handle.new.calls ≡ handle.old.calls) × (handle.new.number ≡ handle.old.number) }
        ensures account { account.new ≡ record account.old { made = account.old.made ++ child ∷ [] } }
    {
        let (number, hub) = (child.number, self.hub);
        let due = hub.owe(account, child, place);
        let address = self.spawn(due, own);
        let why = match handle.child(number) {
            Ok(Seen::Up(None)) => Some(Told::Terminated),
            _ => hub.why(),
        };
        if let Some(why) = why {
            self.end(number, moment, why);
        }
        address
    }

    /// Makes and runs the child that was started, if one was, by this account, whose exit has room in the queue at this place, and
    /// gives its address. If none was, the room is given back, and what the child was to own.
    pub fn begin_started<N: Name, D>(
        &self,
        handle: &mut HandleOf<'_, N, D>,
        account: &mut Account,
        moment: Moment,
        arg: Text,
        own: B::Own,
        place: usize,
        reply: &Reply,
    ) -> (Option<ChildRef<B::Message>>, Option<B::Own>)
        requires { (account.old.ledger ≡ P.ledger) × (0 < account.old.parts) }
        ensures address { IfSome result.0 (λ address. started_as reply.now ≡ address.number ∷ []) }
        ensures own { result.1 ≡ given_back own reply.now }
        ensures front { IsPrefix handle.old.front handle.new.front }
        ensures calls { (handle.new.calls ≡ handle.old.calls) × (handle.new.number ≡ handle.old.number) }
        ensures account { account.new ≡ record account.old { made = account.old.made ++ child_started (Operation.Start arg) reply.now } }
    {
        if let Reply::Started(number) = reply {
            let number = *number;
            let child = Child { number, arg };
            (
                self.begin(handle, account, moment, child, Some(own), place),
                None,
            )
        } else {
            self.hub.free_rooms(place, 1);
            (None, Some(own))
        }
    }
}

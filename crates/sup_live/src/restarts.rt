//! What the replies to exits ask for.
ghost use Rattle.std.specs.Prelude.{◌≡◌, ◌+◌, ◌-◌, ◌<◌, ◌≤◌, [], ◌++◌, IfSome};
ghost use mathlib.Core.List.{IsPrefix};
ghost use Rattle.sup_live.specs.Restarts.{restarted_as, numbers_of};
ghost use Rattle.std.specs.VecDeque.{deque_len, deque_capacity};

use crate::behaviour::{Behaviour, Untaken};
use crate::clock::Moment;
use crate::ends::Cause;
use crate::host::Host;
use crate::lead::Hands;
use crate::yard::CrewYard;
use std::alloc::{AllocError, Global};
use std::collections::VecDeque;
use std::time::Duration;
use sup_desk::Name;
use sup_exits::Child;
use sup_types::Reply;

/// How many exits are entered at most in one step.
pub(crate) const BATCH: usize = 64;

/// The driver's updates by what was replied.
#[derive(Clone, Copy, Debug, Default, PartialEq, Eq)]
pub struct Tally {
    /// Exits of a child that was listed no more, as one that was terminated.
    pub strays: u64,
    /// Exits after the supervisor had gone down.
    pub downs: u64,
    /// Children that were made by a restart, at once.
    pub restarts: u64,
    /// Children that were made by a later try.
    pub retried: u64,
    /// Restarts that failed, at once or later.
    pub failed: u64,
    /// Exits and tries by which the supervisor gave up.
    pub given_up: u64,
    /// Exits by which the supervisor shut down, as its template says of significant children.
    pub shut_down: u64,
}

/// A restart that failed, and the moment from which on it is tried again.
#[derive(Clone, Copy)]
pub(crate) struct Retry {
    pub(crate) child: Child,
    pub(crate) place: usize,
    pub(crate) at: Moment,
}

/// The restarts that failed, in the order in which they are tried again, and what was replied. All are tried after the same
/// time, so the first comes first.
#[derive(Drop)]
pub(crate) struct Restarts {
    retries: VecDeque<Retry>,
    retry_after: Duration,
    pub(crate) tally: Tally,
    /// Whether the supervisor was seen to be down.
    pub(crate) is_down: bool,
}

impl Restarts {
    /// Makes a list of no restarts, with room for the first that fail. One is tried again after this time.
    pub(crate) fn new(alloc: Global, retry_after: Duration) -> Result<Restarts, AllocError> {
        Ok(Restarts {
            retries: VecDeque::with_capacity(alloc, BATCH)?,
            retry_after,
            tally: Tally::default(),
            is_down: false,
        })
    }

    /// Returns for how many exits there is room: a restart that fails needs no memory.
    pub(crate) fn room(&mut self) -> usize
        ensures { (result ≤ 64) × (deque_len self.new.retries + result ≤ deque_capacity self.new.retries) }
    {
        let _ = self.retries.reserve(BATCH);
        (self.retries.capacity() - self.retries.len()).min(BATCH)
    }

    /// Counts a reply to the exit of this child, or to a later try of its restart, and does what it asks for: a child that was restarted
    /// is made and runs, with the argument, what the one before left, and the room in the queue.
    pub(crate) fn answer<N: Name, D, B: Behaviour, P: Host>(
        &mut self,
        yard: &CrewYard<'_, B, P>,
        hands: &mut Hands<'_, N, D>,
        of: Retry,
        reply: Reply,
        is_later: bool,
    )
        requires room { deque_len self.old.retries < deque_capacity self.old.retries }
        requires restarted { (hands.old.restarted.ledger ≡ P.ledger) × (hands.old.restarted.parts ≡ 1) × (hands.old.restarted.paid ≡ []) }
        ensures room { (deque_len self.new.retries ≤ deque_len self.old.retries + 1) × (deque_capacity self.new.retries ≡ deque_capacity self.old.retries) }
        ensures front { IsPrefix hands.old.handle.front hands.new.handle.front }
        ensures calls { (hands.new.handle.calls ≡ hands.old.handle.calls) × (hands.new.handle.number ≡ hands.old.handle.number) × (hands.new.since ≡ hands.old.since) }
        ensures entered { hands.new.entered ≡ hands.old.entered }
        ensures restarted { (hands.new.restarted.ledger ≡ P.ledger) × (hands.new.restarted.parts ≡ 1) × (hands.new.restarted.paid ≡ []) }
        ensures made { numbers_of hands.new.restarted.made ≡ numbers_of hands.old.restarted.made ++ restarted_as reply }
    {
        let Retry { child, place, at } = of;
        let tally = &mut self.tally;
        match reply {
            Reply::Restarted(before, number) => {
                let count = if is_later {
                    &mut tally.retried
                } else {
                    &mut tally.restarts
                };
                *count = count.wrapping_add(1);
                let (own, arg) = (yard.hub.take_over(before, number), child.arg);
                let next = Child { number, arg };
                let (handle, account) = (&mut hands.handle, &mut hands.restarted);
                let _ = yard.begin(handle, account, at, next, own, place);
                yard.tell_restarted(before, &next);
            }
            Reply::Restarting(_, _) => {
                tally.failed = tally.failed.wrapping_add(1);
                let at = at.after(self.retry_after);
                self.retries.push_back_reserved(Retry { child, place, at });
            }
            Reply::GaveUp => {
                tally.given_up = tally.given_up.wrapping_add(1);
                self.go_down(yard, of, reply);
            }
            Reply::ShutDown(_) => {
                tally.shut_down = tally.shut_down.wrapping_add(1);
                self.go_down(yard, of, reply);
            }
            Reply::Down => {
                tally.downs = tally.downs.wrapping_add(u64::from(!is_later));
                self.go_down(yard, of, reply);
            }
            Reply::Stray(_) => {
                tally.strays = tally.strays.wrapping_add(u64::from(!is_later));
                yard.forget(child.number, place, Untaken::Replied(reply));
            }
            _ => yard.forget(child.number, place, Untaken::Replied(reply)),
        }
    }

    /// Takes note that the supervisor is down, as the reply to this child's exit said: the child is forgotten, every other is asked to
    /// end, and no restart is tried again.
    fn go_down<B: Behaviour, P: Host>(&mut self, yard: &CrewYard<'_, B, P>, of: Retry, reply: Reply)
        ensures { (deque_len self.new.retries ≤ deque_len self.old.retries) × (deque_capacity self.new.retries ≡ deque_capacity self.old.retries) }
    {
        yard.forget(of.child.number, of.place, Untaken::Replied(reply));
        if self.is_down {
            return;
        }
        self.is_down = true;
        yard.hub.went_down(match reply {
            Reply::GaveUp => Cause::GaveUp,
            Reply::ShutDown(_) => Cause::ShutDown,
            _ => Cause::Stopped,
        });
        yard.hub.end_all(of.at);
        self.forget_all(yard, reply);
    }

    /// Forgets all children that wait for a later try, since the supervisor is down, as this reply said.
    pub(crate) fn forget_all<B: Behaviour, P: Host>(
        &mut self,
        yard: &CrewYard<'_, B, P>,
        reply: Reply,
    )
        ensures { (deque_len self.new.retries ≤ deque_len self.old.retries) × (deque_capacity self.new.retries ≡ deque_capacity self.old.retries) }
    {
        for _ in 0..self.retries.len() {
            let Some(Retry { child, place, .. }) = self.retries.pop_front() else {
                return;
            };
            yard.forget(child.number, place, Untaken::Replied(reply));
        }
    }

    /// Adds a restart that failed in an earlier run.
    pub(crate) fn resume(&mut self, retry: Retry) -> Result<(), AllocError> {
        self.retries.reserve(1)?;
        self.retries.push_back_reserved(retry);
        Ok(())
    }

    /// Returns the first restart that is to be tried again, if its moment has come.
    pub(crate) fn first_due(&self, moment: Moment) -> Option<Retry>
        ensures { IfSome result (λ _. 0 < deque_len self.now.retries) }
    {
        let first = *self.retries.front()?;
        if first.at.millis <= moment.millis {
            Some(first)
        } else {
            None
        }
    }

    /// Removes the first restart, which was tried again.
    pub(crate) fn pop(&mut self)
        ensures { (deque_len self.new.retries ≡ deque_len self.old.retries - 1) × (deque_capacity self.new.retries ≡ deque_capacity self.old.retries) }
    {
        let _ = self.retries.pop_front();
    }

    /// Returns how many restarts are to be tried again.
    pub(crate) fn len(&self) -> usize {
        self.retries.len()
    }

    /// Returns the moment when the first of them is due, if there is one.
    pub(crate) fn next(&self) -> Option<Moment> {
        let first = self.retries.front()?;
        Some(first.at)
    }
}

//! Calls of a child with a limit.
use crate::ends::CrewState;
use crate::mailbox::{ChildRef, Unsent};
use futures::channel::oneshot::{self, Canceled};
use std::alloc::Global;
use std::sync::{Arc, Wait};
use std::thread::Parker;
use std::time::{Clock, Duration, Instant};

/// Wakes the thread that waits for an answer, once it is dropped.
struct Ring(Arc<Parker>);

impl Drop for Ring {
    fn drop(self) {
        let Ring(bell) = self;
        bell.unpark();
    }
}

/// By what a child answers, once. If it is dropped, no answer comes, and the asker is woken.
#[derive(Drop)]
pub struct Answer<T: Drop> {
    // Dropped before the ring, so that the thread which is woken sees it.
    sender: oneshot::Sender<T>,
    ring: Ring,
}

impl<T: Drop> Answer<T> {
    /// Answers. Returns the answer if nobody waits for it any more.
    pub fn send(self, answer: T) -> Result<(), T> {
        let Answer { sender, ring } = self;
        let sent = sender.send(answer);
        drop(ring);
        sent
    }
}

/// Why there is no answer.
#[derive(Debug, Drop)]
pub enum NotAnswered<M> {
    /// No such child is alive. No message was made.
    NoChild,
    /// The message was not sent.
    Unsent(Unsent<M>),
    /// There was no memory for an answer. No message was made.
    OutOfMemory,
    /// The child ended, or dropped what it answers by.
    Ended,
    /// The time is over. A later answer is returned to the child.
    TooLate,
    /// The crew is not up any more, so there is no child, or it ended.
    CrewEnded(CrewState),
}

/// Returns how much of this time is left since the start: none if the clock can't be read.
pub(crate) fn left_of<R: Clock>(rt: &R, start: Option<Instant>, limit: Duration) -> Duration {
    match start.and_then(|start| start.elapsed(rt).ok()) {
        Some(passed) => limit.saturating_sub(passed),
        None => Duration::ZERO,
    }
}

impl<M: Drop> ChildRef<M> {
    /// Sends the message that is made with something to answer by, and waits for the answer, for this time at most. Until then the
    /// thread sleeps. With a limit of 0 it looks once. A clock that can't be read ends the wait, and so does a child that ends. It is for
    /// threads without a client: see [`LiveClient::ask`](crate::LiveClient::ask).
    pub fn ask<R: Wait + Clock, T: Drop, G: FnOnce(Answer<T>) -> M>(
        &self,
        rt: &R,
        alloc: Global,
        make: G,
        limit: Duration,
    ) -> Result<T, NotAnswered<M>>
        requires { G.IsAlwaysCallable make }
    {
        let start = Instant::now(rt).ok();
        let Ok(bell) = Arc::new(alloc, Parker::new()) else {
            return Err(NotAnswered::OutOfMemory);
        };
        let (Ok(ours), Ok((sender, mut receiver))) = (
            Arc::try_clone(&bell),
            oneshot::channel(alloc),
        ) else {
            return Err(NotAnswered::OutOfMemory);
        };
        let ring = Ring(ours);
        if let Err(unsent) = self.send(make(Answer { sender, ring })) {
            return Err(NotAnswered::Unsent(unsent));
        }
        for _ in rt.forever() {
            match receiver.try_recv() {
                Ok(Some(answer)) => return Ok(answer),
                Ok(None) => {}
                Err(Canceled) => return Err(NotAnswered::Ended),
            }
            let left = left_of(rt, start, limit);
            if left.is_zero() {
                return Err(NotAnswered::TooLate);
            }
            bell.park_timeout(rt, left);
        }
        unreachable!()
    }
}

//! What the driver and the workers of a run share, and how they wake each other.

use crate::plan::Plan;
use crate::queue::Jobs;
use std::sync::atomic::{AtomicBool, Ordering};
use std::sync::{Condvar, Wait};
use std::time::Duration;
use sup_desk::Name;
use sup_inbox::Inbox;

/// Holds what the driver and the workers of a run share. It is made before the first thread, and taken apart once all were joined.
#[derive(Drop)]
pub struct Crew<N: Name> {
    pub jobs: Jobs<N>,
    pub inbox: Inbox,
    pub signals: Signals,
    pub plan: Plan,
}

/// Holds the signals of a run, and whether it is over. A thread that waits counts the notifications, looks for what it needs, and
/// sleeps if it is not there. One after the count ends the sleep, so none is missed.
#[derive(Default, Drop)]
pub struct Signals {
    /// A job was queued, or the run is over.
    pub queued: Condvar,
    /// An exit was posted, or the run is over.
    pub posted: Condvar,
    /// The inbox was drained, or the run is over.
    pub drained: Condvar,
    over: AtomicBool,
}

/// Sleeps until the signal is given after this count of notifications, and at most 0.1 s: one turn of a plan.
pub fn sleep<R: Wait>(rt: &R, signal: &Condvar, noted: u64) {
    signal.sleep(rt, noted, Duration::from_millis(100));
}

impl Signals {
    pub fn is_over(&self) -> bool {
        self.over.load(Ordering::SeqCst)
    }

    /// Says that the run is over, and wakes the workers and the driver.
    pub fn end(&self) {
        self.over.store(true, Ordering::SeqCst);
        self.queued.notify_all();
        self.posted.notify_all();
        self.drained.notify_all();
    }
}

//! Hosts: what a crew runs by.
use crate::clock::{Moment, Moments};
use crate::watch::Watch;
use std::io;
use std::marker::PhantomData;
use std::sync::Wait;
use std::thread::Threads;
use std::time::{Clock, Duration};
use sup_exits::Office;
use sup_types::{Operation, Reply};

/// What a crew runs by: threads, waits and a clock, its moments, its watcher, and the name of its ledger.
pub trait Host: Office + Threads + Wait + Clock + Drop {
    /// Returns the moment now.
    fn now(&self) -> Moment;

    /// Reports an entry to the watcher, if there is one.
    fn entered(&self, place: u64, operation: &Operation, reply: &Reply);
}

/// Gives the moments of a crew, and tells its watcher.
pub trait Lookout {
    /// Returns the moment now.
    fn moment<R: Clock>(&self, rt: &R) -> Moment;

    /// Reports an entry to the watcher, if there is one.
    fn entered(&self, place: u64, operation: &Operation, reply: &Reply);
}

impl<'c, W: Watch> Lookout for (Moments<'c>, Option<&'c W>) {
    fn moment<R: Clock>(&self, rt: &R) -> Moment {
        self.0.now(rt)
    }

    fn entered(&self, place: u64, operation: &Operation, reply: &Reply) {
        if let Some(watcher) = self.1 {
            watcher.entered(place, operation, reply);
        }
    }
}

/// A runtime with what gives the moments, and an office.
#[derive(Drop)]
pub struct Timed<R: Drop, L: Drop, I> {
    pub rt: R,
    pub lookout: L,
    pub of: PhantomData<I>,
}

impl<R: Drop, L: Drop, I: Office> Office for Timed<R, L, I> {
    ghost ledger = { I.ledger };

    ghost may_end = { I.may_end };
}

impl<R: Threads + Drop, L: Drop, I> Threads for Timed<R, L, I> {}

impl<R: Wait + Drop, L: Drop, I> Wait for Timed<R, L, I> {}

impl<R: Clock + Drop, L: Drop, I> Clock for Timed<R, L, I> {
    fn monotonic(&self) -> io::Result<Duration> {
        self.rt.monotonic()
    }

    fn since_1970(&self) -> io::Result<Duration> {
        self.rt.since_1970()
    }

    fn sleep(&self, duration: Duration) {
        self.rt.sleep(duration)
    }
}

impl<R: Threads + Wait + Clock + Drop, L: Lookout + Drop, I: Office> Host for Timed<R, L, I> {
    fn now(&self) -> Moment {
        self.lookout.moment(&self.rt)
    }

    fn entered(&self, place: u64, operation: &Operation, reply: &Reply) {
        self.lookout.entered(place, operation, reply);
    }
}

//! Moments, and where they come from.
ghost use Rattle.std.specs.Prelude.{◌≡◌, ◌+◌, ◌-◌, ◌/◌, ◌^◌, min, true};
ghost use Rattle.std.specs.Duration.{as_nanos};

use std::sync::atomic::{AtomicU64, Ordering};
use std::time::{Clock, Duration};

/// A moment of a crew's clock, in whole milliseconds.
#[derive(Clone, Copy, Debug, PartialEq, Eq)]
pub struct Moment {
    pub millis: u64,
}

/// Returns how many whole milliseconds this time has, at most 2^64 - 1.
fn millis_of(time: Duration) -> u64
    ensures { result ≡ min (as_nanos time / 1000000) (2 ^ 64 - 1) }
{
    match u64::try_from(time.as_millis()) {
        Ok(millis) => millis,
        Err(_) => u64::MAX,
    }
}

impl Moment {
    /// Returns the moment in whole seconds, as the supervisor counts them.
    pub fn seconds(self) -> u64
        ensures { result ≡ self.millis / 1000 }
    {
        self.millis / 1000
    }

    /// Returns the moment when this time has passed, or the last moment that there is.
    pub fn after(self, time: Duration) -> Moment
        ensures { result.millis ≡ min (self.millis + min (as_nanos time / 1000000) (2 ^ 64 - 1)) (2 ^ 64 - 1) }
    {
        Moment {
            millis: self.millis.saturating_add(millis_of(time)),
        }
    }
}

/// Where the moments of a crew's updates come from. They may be any.
#[derive(Clone, Copy)]
pub enum Moments<'c> {
    /// The clock of the runtime that never goes back. One that can't be read says 0.
    Monotonic,
    /// The same clock, later by this number of milliseconds.
    Later(u64),
    /// The caller keeps the time in this word, in milliseconds.
    Kept(&'c AtomicU64),
}

/// Returns how many milliseconds the runtime's monotonic clock has counted, or 0 if it can't be read.
fn monotonic<R: Clock>(rt: &R) -> u64 {
    match rt.monotonic() {
        Ok(since) => millis_of(since),
        Err(_) => 0,
    }
}

impl<'c> Moments<'c> {
    /// Returns moments that begin with the time of day, and then never go back: so they continue from one run to the next, also after
    /// the machine was started anew.
    pub fn from_now<R: Clock>(rt: &R) -> Moments<'c> {
        match rt.since_1970() {
            Ok(day) => Moments::Later(millis_of(day).saturating_sub(monotonic(rt))),
            Err(_) => Moments::Monotonic,
        }
    }

    /// Returns the moment now.
    pub(crate) fn now<R: Clock>(&self, rt: &R) -> Moment {
        let millis = match self {
            Moments::Monotonic => monotonic(rt),
            Moments::Later(by) => monotonic(rt).saturating_add(*by),
            Moments::Kept(word) => word.load(Ordering::SeqCst),
        };
        Moment { millis }
    }
}

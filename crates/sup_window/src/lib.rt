//! How many restarts a supervisor allows within a period (OTP's manual of `supervisor`, "Supervision principles", maximum restart intensity).
//!
//! # What is proved
//! - An attempt is allowed exactly if the attempts that count at its moment, itself included, are at most the intensity. One of moment `m`
//!   counts at moment `t` if `t <= m + period`, without wrapping.
//! - The window decides as counting over all attempts ever made would (`HasSeen`), and keeps only the last of them, one more than are allowed.
//!   `laws` says that those decide as all do (`remembered`), and no other crate knows which they are.
//!
//! # What is on trust
//! The toolchain, and the contracts of the kit's `circular_buffer`.
//!
//! # What is only tested
//! That a window is made if there is memory. After that it takes none.
//!
//! # How it is used
//! ```text
//! let mut window = Window::new(alloc, 1, 5)?;
//! assert!(window.attempt(10));
//! assert!(!window.would_allow(15));
//! assert!(window.would_allow(16));
//! ```
#![tactic(auto)]

ghost use Rattle.std.specs.Prelude.{◌≡◌, ◌≤◌, ℕ, ◌+◌, List, [], ◌∷◌, ◌++◌, IfOk, max, length, slice_get, ◌==◌, ◌&&◌};
ghost use Rattle.circular_buffer.specs.Buffer.{buffer};
ghost use Rattle.sup_window.specs.Attempts.{HasSeen, is_allowed, with_attempt, still_counts, greatest, keep_last, front_counts, counts_at};

pub mod laws;

use circular_buffer::HeapCircularBuffer;
use std::alloc::{Allocator, Global};
use std::marker::Model;
use sup_types::OutOfMemory;

/// Says whether one more attempt to restart is allowed. It keeps the moments of the last attempts, one more than are
/// allowed within a period.
#[derive(Drop)]
pub struct Window<A: Allocator = Global> {
    intensity: u64,
    period: u64,
    latest: u64,
    moments: HeapCircularBuffer<u64, A>,
}

impl<A: Allocator> Model for Window<A> {
    ghost use Rattle.std.specs.Prelude.{◌≡◌, ◌≤◌, ◌+◌};
    ghost use Rattle.std.specs.List.Sorted.{IsNonDecreasing};
    ghost use Rattle.sup_window.specs.Attempts.{Recent, greatest};

    ghost Value = { Recent };

    ghost view = { λ w. record { intensity = w.intensity; period = w.period; latest = w.latest; moments = w.moments.items } };

    ghost invariant = { λ w. (w.intensity ≤ 1000) × (w.moments.capacity ≡ w.intensity + 1) × IsNonDecreasing w.moments.items × (greatest w.moments.items ≤ w.latest) };
}

/// Returns whether an attempt made at one moment still counts at another. Nothing wraps: a moment may be near the
/// greatest number.
fn still_counts(period: u64, at: u64, made_at: u64) -> bool
    ensures { result ≡ still_counts period at made_at }
{
    at.saturating_sub(made_at) <= period
}

impl<A: Allocator> Window<A> {
    /// Makes a window that has seen no attempt, and allows `intensity` of them, 0 to 1000, within `period` seconds
    /// (OTP's manual of `supervisor`, "Supervisor flags"). It makes room for all that it will keep.
    ///
    /// # Errors
    /// `OutOfMemory` if there is no memory for that room.
    #[tactic(auto, unfolding(crate::specs::Attempts::remembered))]
    pub fn new(alloc: A, intensity: u64, period: u64) -> Result<Self, OutOfMemory>
        requires { intensity ≤ 1000 }
        ensures { IfOk result (λ w. HasSeen w [] × (w.intensity ≡ intensity) × (w.period ≡ period)) }
    {
        let moments = HeapCircularBuffer::with_capacity(alloc, intensity as usize + 1)?;
        Ok(Window {
            intensity,
            period,
            latest: 0,
            moments,
        })
    }

    /// Returns whether one more attempt at this moment, in seconds, is allowed. A moment lower than that of an earlier
    /// attempt is taken as the highest so far. Nothing changes.
    pub fn would_allow(&self, moment: u64) -> bool
        ensures value { result ≡ is_allowed self.now.intensity self.now.period self.now.moments (max self.now.latest moment) }
        ensures seen { (attempts : List ℕ) → HasSeen self.now attempts
            → result ≡ is_allowed self.now.intensity self.now.period attempts (max (greatest attempts) moment) }
    {
        self.decides(moment)
    }

    // Whether the ring would then be full of moments that still count depends on its oldest one: so the answer takes
    // one look, however many attempts are kept.
    fn decides(&self, moment: u64) -> bool
        ensures { result ≡ is_allowed self.now.intensity self.now.period self.now.moments (max self.now.latest moment) }
    {
        let at = self.latest.max(moment);
        let kept = self.moments.len() as u64;
        if kept < self.intensity {
            return true;
        }
        let oldest = (kept - self.intensity) as usize;
        !counts_at(&self.moments, oldest, self.period, at)
    }

    /// Notes an attempt at this moment, in seconds, and returns whether it is allowed. One that is not allowed counts
    /// as well. A moment lower than that of an earlier attempt is taken as the highest so far.
    pub fn attempt(&mut self, moment: u64) -> bool
        ensures value { result ≡ is_allowed self.old.intensity self.old.period self.old.moments (max self.old.latest moment) }
        ensures next { self.new ≡ with_attempt self.old moment }
        ensures seen { (attempts : List ℕ) → HasSeen self.old attempts
            → (result ≡ is_allowed self.old.intensity self.old.period attempts (max (greatest attempts) moment))
            × HasSeen self.new (attempts ++ max (greatest attempts) moment ∷ []) }
    {
        self.note(moment)
    }

    // Once it is noted, an attempt is allowed if the ring is not full, or its oldest moment no longer counts.
    #[tactic(auto, unfolding(crate::specs::Attempts::remembered))]
    fn note(&mut self, moment: u64) -> bool
        ensures value { result ≡ is_allowed self.old.intensity self.old.period self.old.moments (max self.old.latest moment) }
        ensures next { self.new ≡ with_attempt self.old moment }
    {
        self.latest = self.latest.max(moment);
        !push_moment(&mut self.moments, self.period, self.latest)
    }
}

/// Returns whether the moment at this place still counts. After the last one comes the attempt that is asked about,
/// which does.
fn counts_at<A: Allocator>(
    moments: &HeapCircularBuffer<u64, A>,
    index: usize,
    period: u64,
    at: u64,
) -> bool
    ensures { result ≡ counts_at period at (slice_get moments.now.items index) }
{
    match moments.get(index) {
        None => true,
        Some(made_at) => still_counts(period, at, *made_at),
    }
}

/// Adds a moment, and returns whether the ring is then full of moments that still count.
fn push_moment<A: Allocator>(moments: &mut HeapCircularBuffer<u64, A>, period: u64, at: u64) -> bool
    ensures items { moments.new ≡ buffer (keep_last moments.old.capacity (moments.old.items ++ at ∷ [])) moments.old.capacity }
    ensures full { result ≡ ((length moments.new.items == moments.new.capacity) && front_counts period at (slice_get moments.new.items 0)) }
{
    let _ = moments.push_back(at);
    moments.is_full() && front_counts(moments, period, at)
}

fn front_counts<A: Allocator>(moments: &HeapCircularBuffer<u64, A>, period: u64, at: u64) -> bool
    ensures { result ≡ front_counts period at (slice_get moments.now.items 0) }
{
    match moments.front() {
        None => false,
        Some(oldest) => still_counts(period, at, *oldest),
    }
}

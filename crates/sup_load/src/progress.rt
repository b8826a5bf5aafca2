//! How far a load is, told to a person.

use std::sync::Wait;
use std::sync::atomic::{AtomicBool, Ordering};
use std::thread::Parker;
use std::time::Duration;
use sup_desk::{Asker, Name};
use sup_types::Seen;

/// Lets a thread tell how far a load is until it is over.
#[derive(Default, Drop)]
pub struct Progress {
    bell: Parker,
    is_over: AtomicBool,
}

impl Progress {
    /// Says that the load is over.
    pub fn end(&self) {
        self.is_over.store(true, Ordering::SeqCst);
        self.bell.unpark();
    }

    /// Writes on standard error, once a second until the load is over, how many of the children were made and how many have ended. Each
    /// line takes the place of the last, and none is left in the end.
    pub fn tell<N: Name, R: Wait + Eprint>(&self, rt: &R, asker: &mut Asker<N>, children: u64) {
        for seconds in 1..u64::MAX {
            self.bell.park_timeout(rt, Duration::from_secs(1));
            if self.is_over.load(Ordering::SeqCst) {
                if seconds > 1 {
                    let _ = eprint!(rt; "\r\x1b[K");
                }
                return;
            }
            let seen = asker.inspect(|view| (view.stamp(), view.counts().active));
            if let Ok(Seen::Up((entries, running))) = seen {
                // Each entry is a start or an exit.
                let ended = entries.saturating_sub(running) / 2;
                let made = entries.saturating_sub(ended);
                let _ = eprint!(rt;
                    "\r\x1b[K{seconds} s: {made} of {children} children made, {ended} ended"
                );
            }
        }
    }
}

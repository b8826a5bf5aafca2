//! Watchers: what learns of each entry of a crew.
use std::sync::atomic::{AtomicU64, Ordering};
use sup_types::{Operation, Reason, Reply};

/// Learns what a crew's driver and its clients enter.
pub trait Watch {
    /// Takes note of an entry, of its place in the history, counted from 1, and of the reply. It is called once for each entry of the
    /// run, after its publication and outside all locks, in the thread that entered it: so two threads may report theirs in another order
    /// than that of their places. A start is reported before its child begins, and its exit after it.
    fn entered(&self, place: u64, operation: &Operation, reply: &Reply);
}

/// A number that any thread reads, without a lock.
#[derive(Default, Drop)]
pub struct Count(AtomicU64);

impl Count {
    /// Returns the number.
    pub fn get(&self) -> u64 {
        self.0.load(Ordering::SeqCst)
    }

    /// Adds one.
    fn add(&self) {
        self.0.fetch_add(1, Ordering::SeqCst);
    }
}

/// A watcher that counts the entries that it learns of, from 0 on.
#[derive(Default, Drop)]
pub struct Figures {
    /// Children that were started.
    pub started: Count,
    /// Starts that made no child.
    pub refused: Count,
    /// Children that were made by a restart, at once or later.
    pub restarted: Count,
    /// Exits by `normal`.
    pub normal: Count,
    /// Exits by `shutdown`.
    pub shutdown: Count,
    /// Exits for another reason: crashes, and children that were aborted.
    pub crashed: Count,
    /// Whether the supervisor gave up: 0 or 1.
    pub gave_up: Count,
    /// Whether it shut down, as a significant child had ended: 0 or 1.
    pub shut_down: Count,
    /// The last place of an entry.
    pub last: Count,
}

impl Figures {
    /// Returns how many children were made whose exit was not told: those that run, and those whose exit waits to be entered.
    pub fn running(&self) -> u64 {
        // Exits first: each of these children was made before.
        let exits = [&self.normal, &self.shutdown, &self.crashed].map(Count::get);
        let mut count = self.started.get().saturating_add(self.restarted.get());
        for exits in exits {
            count = count.saturating_sub(exits);
        }
        count
    }
}

impl Watch for Figures {
    fn entered(&self, place: u64, operation: &Operation, reply: &Reply) {
        match (operation, reply) {
            (Operation::Start(_), Reply::Started(_)) => self.started.add(),
            (Operation::Start(_), _) => self.refused.add(),
            (Operation::Exit(_, Reason::Normal), _) => self.normal.add(),
            (Operation::Exit(_, Reason::Shutdown), _) => self.shutdown.add(),
            (Operation::Exit(_, _), _) => self.crashed.add(),
            _ => {}
        }
        match reply {
            Reply::Restarted(_, _) => self.restarted.add(),
            Reply::GaveUp => self.gave_up.add(),
            Reply::ShutDown(_) => self.shut_down.add(),
            _ => {}
        }
        self.last.0.fetch_max(place, Ordering::SeqCst);
    }
}

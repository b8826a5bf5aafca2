//! How a crew runs, and why it did not.
use std::alloc::AllocError;
use std::time::Duration;
use sup_desk::{DeskFault, HandleFault, RecoverFault};
use sup_journal::OpenFault;
use sup_types::OutOfMemory;
use thiserror::Error;

/// How a crew runs.
#[derive(Clone, Copy, Debug)]
pub struct Plan {
    /// How many threads run children: 1 to 64.
    pub workers: usize,
    /// After which time a restart that failed is tried again.
    pub retry_after: Duration,
    /// For how long a child may run after it was asked to end, as OTP's `shutdown` time. With 0 it is aborted at once, as by OTP's
    /// `brutal_kill`.
    pub grace: Duration,
    /// For how many more clients and askers a desk of the crew's own has places, beside the program's client and those of the peers.
    /// Each place costs each update a little.
    pub places: u64,
    /// How many messages may wait for a child.
    pub mailbox: usize,
    /// Whether the children that are listed when the crew closes stay listed. Without a setting they do if the history is in a file.
    pub keeps: Option<bool>,
}

impl Plan {
    ghost use Rattle.std.specs.Prelude.{◌≡◌};
    ghost use Rattle.std.specs.Duration.{as_nanos};

    /// Makes a plan with this many workers: 1 to 64. A restart that failed is tried again at once, as OTP does. A child may run for five
    /// seconds after it was asked to end, as by OTP's default. There are no more places, and mailboxes have no limit.
    pub fn new(workers: usize) -> Plan
        ensures counts { (result.workers ≡ workers) × (result.places ≡ 0) }
        ensures times { (as_nanos result.retry_after ≡ 0) × (as_nanos result.grace ≡ 5000000000) }
    {
        Plan {
            workers,
            retry_after: Duration::ZERO,
            grace: Duration::from_secs(5),
            places: 0,
            mailbox: usize::MAX,
            keeps: None,
        }
    }
}

/// Why a crew did not run. Nothing was entered, and the program was not run.
#[derive(Clone, Copy, Debug, PartialEq, Eq, Error)]
pub enum LiveFault {
    /// A growth was refused.
    #[error("out of memory")]
    OutOfMemory,
    /// The plan has not 1 to 64 workers.
    #[error("a crew has 1 to 64 workers")]
    BadWorkers,
    /// No worker, or no thread for the driver, could be started.
    #[error("no worker, or no thread for the driver, could be started")]
    NoThread,
    /// The desk has not enough handles left: a crew takes two.
    #[error("the desk has fewer handles left than the two that a crew takes")]
    NoHandle,
    /// All places for lenses are taken.
    #[error("no place for a lens is left")]
    NoPlace,
    /// The desk could not continue from the history that was given.
    #[error("the crew could not continue from the history: {0}")]
    History(RecoverFault),
    /// The file of the journal could not be continued.
    #[error("{0}")]
    Journal(OpenFault),
}

impl LiveFault {
    ghost use Rattle.std.specs.Prelude.{◌≡◌};
    ghost use Rattle.sup_live.specs.Faults.{live_crew_fault_number};

    /// Returns the number of this fault.
    pub fn number(&self) -> u8
        ensures { result ≡ live_crew_fault_number self.now }
    {
        match self {
            Self::OutOfMemory | Self::NoThread => 1,
            Self::NoHandle => 5,
            Self::NoPlace => 6,
            Self::BadWorkers => 7,
            Self::History(fault) => fault.number(),
            Self::Journal(fault) => fault.number(),
        }
    }
}

impl From<OutOfMemory> for LiveFault {
    fn from(_fault: OutOfMemory) -> Self {
        LiveFault::OutOfMemory
    }
}

impl From<AllocError> for LiveFault {
    fn from(_fault: AllocError) -> Self {
        LiveFault::OutOfMemory
    }
}

impl From<HandleFault> for LiveFault {
    fn from(fault: HandleFault) -> Self {
        match fault {
            HandleFault::NoHandle => LiveFault::NoHandle,
            HandleFault::NoPlace => LiveFault::NoPlace,
        }
    }
}

impl From<DeskFault> for LiveFault {
    fn from(fault: DeskFault) -> Self {
        match fault {
            DeskFault::OutOfMemory => Self::OutOfMemory,
            DeskFault::BadTemplate => Self::NoHandle,
        }
    }
}

impl From<RecoverFault> for LiveFault {
    fn from(fault: RecoverFault) -> Self {
        match fault {
            RecoverFault::OutOfMemory => LiveFault::OutOfMemory,
            _ => LiveFault::History(fault),
        }
    }
}

impl From<OpenFault> for LiveFault {
    fn from(fault: OpenFault) -> Self {
        match fault {
            OpenFault::OutOfMemory => LiveFault::OutOfMemory,
            _ => LiveFault::Journal(fault),
        }
    }
}

//! Why a run could not begin, and why a pool is not run, or not to its end.
ghost use Rattle.std.specs.Prelude.{◌≡◌};
ghost use Rattle.sup_crew.specs.Faults.{crew_fault_number, pool_fault_number};
ghost use Rattle.sup_crew.specs.declared.fault.CrewFault.TheVariants as crew;

use sup_desk::{HandleFault, UpdateFault};
use sup_types::OutOfMemory;
use thiserror::Error;

/// Says why a run did not begin. Nothing was entered.
#[derive(Clone, Copy, Debug, PartialEq, Eq, Error)]
pub enum CrewFault {
    /// A growth was refused, or the start of a thread.
    #[error("out of memory")]
    OutOfMemory,
    #[error("all handles of the desk were made")]
    NoHandle,
    #[error("no place for a lens is left")]
    NoPlace,
}

impl CrewFault {
    pub fn number(&self) -> u8
        ensures { result ≡ crew_fault_number self.now }
    {
        match self {
            CrewFault::OutOfMemory => 1,
            CrewFault::NoHandle => 5,
            CrewFault::NoPlace => 6,
        }
    }
}

impl From<OutOfMemory> for CrewFault {
    ghost from_gives = { λ _ f. f ≡ crew.OutOfMemory };

    fn from(_fault: OutOfMemory) -> Self {
        CrewFault::OutOfMemory
    }
}

impl From<HandleFault> for CrewFault {
    fn from(fault: HandleFault) -> Self {
        match fault {
            HandleFault::NoHandle => CrewFault::NoHandle,
            HandleFault::NoPlace => CrewFault::NoPlace,
        }
    }
}

/// Says why a pool was not run, or not to its end.
#[derive(Clone, Copy, Debug, PartialEq, Eq, Error)]
pub enum PoolFault {
    /// A growth was refused, or the start of a thread.
    #[error("out of memory")]
    OutOfMemory,
    #[error("a pool has 1 to 64 workers")]
    BadWorkers,
    #[error("a pool bears 0 to 1000 restarts")]
    BadRestarts,
    /// The argument at this place of the list, from 0 on, is no text of 1 to 40 visible ASCII characters. A space is not visible.
    #[error("argument {0}, counted from 0, is no text of 1 to 40 visible ASCII characters")]
    BadArgument(usize),
    #[error("{0}")]
    Stopped(UpdateFault),
}

impl PoolFault {
    /// Returns the number of this fault: 1, 7 for what is out of range, or that of the update that was refused.
    pub fn number(&self) -> u8
        ensures { result ≡ pool_fault_number self.now }
    {
        match self {
            PoolFault::OutOfMemory => 1,
            PoolFault::BadWorkers | PoolFault::BadRestarts | PoolFault::BadArgument(_) => 7,
            PoolFault::Stopped(fault) => fault.number(),
        }
    }
}

//! Why a load is not done.

ghost use Rattle.std.specs.Prelude.{◌≡◌};
ghost use Rattle.sup_load.specs.Statuses.{load_fault_number, stop_fault_number};

use std::alloc::AllocError;
use sup_crew::CrewFault;
use sup_desk::{DeskFault, HandleFault, UpdateFault};
use sup_journal::OpenFault;
use sup_types::BadTemplate;
use thiserror::Error;

/// Says what stopped a load before there was a report, or the run that it reports.
#[derive(Clone, Copy, Debug, PartialEq, Eq, Error)]
pub enum StopFault {
    /// A growth was refused, or the start of a thread.
    #[error("out of memory")]
    OutOfMemory(#[from] AllocError),
    #[error("{0}")]
    BadTemplate(#[from] BadTemplate),
    #[error("{0}")]
    Desk(#[from] DeskFault),
    #[error("{0}")]
    Handle(#[from] HandleFault),
    #[error("{0}")]
    Crew(#[from] CrewFault),
    #[error("{0}")]
    Update(#[from] UpdateFault),
    #[error("a reader could not learn or enter")]
    Gone,
    /// The journal's file was there already, or could not be made, or its first line was refused.
    #[error("{0}")]
    Journal(#[from] OpenFault),
}

impl StopFault {
    /// Returns the number of the fault.
    pub fn number(self) -> u8
        ensures { result ≡ stop_fault_number self }
    {
        match self {
            StopFault::OutOfMemory(_) => 1,
            StopFault::BadTemplate(_) => 7,
            StopFault::Desk(fault) => fault.number(),
            StopFault::Handle(fault) => fault.number(),
            StopFault::Crew(fault) => fault.number(),
            StopFault::Update(fault) => fault.number(),
            StopFault::Gone => 4,
            StopFault::Journal(fault) => fault.number(),
        }
    }
}

/// Says why the lines of a load are not written whole, or do not say all.
#[derive(Clone, Copy, Debug, PartialEq, Eq, Error)]
pub enum LoadFault {
    #[error("{0}")]
    Stopped(StopFault),
    #[error("the output could not be written")]
    WriteFault,
}

impl LoadFault {
    /// Returns the number of the fault: that of what stopped the load, or 11.
    pub fn number(self) -> u8
        ensures { result ≡ load_fault_number self }
    {
        match self {
            LoadFault::Stopped(fault) => fault.number(),
            LoadFault::WriteFault => 11,
        }
    }
}

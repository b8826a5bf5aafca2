//! Why a server ended before its input did.

ghost use Rattle.std.specs.Prelude.{◌≡◌};
ghost use Rattle.sup_serve.specs.Faults.{serve_fault_number};
ghost use Rattle.sup_serve.specs.declared.fault.ServeFault.TheVariants as serve;

use std::alloc::AllocError;
use sup_desk::JournalFault;
use sup_journal::OpenFault;
use sup_live::LiveFault;
use thiserror::Error;

/// Says why a server did not run, or ended before its input did.
#[derive(Clone, Copy, Debug, PartialEq, Eq, Error)]
pub enum ServeFault {
    #[error("out of memory")]
    OutOfMemory,
    #[error("{0}")]
    Crew(#[from] LiveFault),
    #[error("the input could not be read")]
    Read,
    #[error("the answers could not be written")]
    Write,
    /// The journal broke off, and refused the updates from then on.
    #[error("the journal broke off: {0}")]
    Journal(JournalFault),
    /// No new history could be begun in the journal's file. It has the old one, or the new one.
    #[error("{0}")]
    NotAnew(#[from] OpenFault),
    /// The supervisor of the history that was to be continued is down, and stays so.
    #[error("the supervisor gave up or was stopped, and stays down: begin a new history by --anew")]
    GaveUp,
}

impl ServeFault {
    /// Returns the number of this fault.
    pub fn number(self) -> u8
        ensures { result ≡ serve_fault_number self }
    {
        match self {
            ServeFault::OutOfMemory => 1,
            ServeFault::Crew(fault) => fault.number(),
            ServeFault::Read => 10,
            ServeFault::Write => 11,
            ServeFault::Journal(_) => 13,
            ServeFault::NotAnew(fault) => fault.number(),
            ServeFault::GaveUp => 17,
        }
    }
}

impl From<AllocError> for ServeFault {
    ghost from_gives = { λ _ f. f ≡ serve.OutOfMemory };

    fn from(_fault: AllocError) -> Self {
        ServeFault::OutOfMemory
    }
}

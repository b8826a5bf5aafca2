//! What a desk and its handles refuse.
ghost use Rattle.std.specs.Prelude.{◌≡◌};
ghost use Rattle.sup_desk.specs.Faults.{update_fault_number, ticket_fault_number, query_fault_number, handle_fault_number, desk_fault_number};
ghost use Rattle.sup_desk.specs.declared.faults.QueryFault.TheVariants as query;

use crate::journal::JournalFault;
use sup_log::Gone;
use sup_types::OutOfMemory;
use thiserror::Error;

/// Says why an update was refused.
#[derive(Clone, Copy, Debug, PartialEq, Eq, Error)]
pub enum UpdateFault {
    #[error("out of memory")]
    OutOfMemory,
    /// The history has as many entries as the template allows.
    #[error("the history is full")]
    HistoryFull,
    /// The reader could not learn or enter. No update is answered so: each learns without entering.
    #[error("the press is gone")]
    Gone,
    /// The journal broke off. Nothing was published, and no update is entered any more. Queries continue.
    #[error("the journal broke off: {0}")]
    Journal(JournalFault),
}

impl UpdateFault {
    /// Returns the number of this fault.
    pub fn number(&self) -> u8
        ensures { result ≡ update_fault_number self.now }
    {
        match self {
            UpdateFault::OutOfMemory => 1,
            UpdateFault::HistoryFull => 2,
            UpdateFault::Gone => 4,
            UpdateFault::Journal(fault) => fault.number(),
        }
    }
}

/// Says why an audit gave no ticket.
#[derive(Clone, Copy, Debug, PartialEq, Eq, Error)]
pub enum TicketFault {
    /// The audit lacked a handle.
    #[error("the audit lacks a handle")]
    Split,
    /// The reader could not learn or enter. No audit is refused so: each handle learns without entering.
    #[error("the press is gone")]
    Gone,
}

impl TicketFault {
    /// Returns the number of this fault.
    pub fn number(&self) -> u8
        ensures { result ≡ ticket_fault_number self.now }
    {
        match self {
            TicketFault::Split => 3,
            TicketFault::Gone => 4,
        }
    }
}

/// Says why the children were not listed.
#[derive(Clone, Copy, Debug, PartialEq, Eq, Error)]
pub enum QueryFault {
    #[error("out of memory")]
    OutOfMemory,
    /// The reader could not enter.
    #[error("the press is gone")]
    Gone,
}

impl QueryFault {
    /// Returns the number of this fault.
    pub fn number(&self) -> u8
        ensures { result ≡ query_fault_number self.now }
    {
        match self {
            QueryFault::OutOfMemory => 1,
            QueryFault::Gone => 4,
        }
    }
}

impl From<Gone> for QueryFault {
    ghost from_gives = { λ _ f. f ≡ query.Gone };

    fn from(_gone: Gone) -> Self {
        Self::Gone
    }
}

impl From<OutOfMemory> for QueryFault {
    ghost from_gives = { λ _ f. f ≡ query.OutOfMemory };

    fn from(_fault: OutOfMemory) -> Self {
        Self::OutOfMemory
    }
}

/// Says why no handle was made.
#[derive(Clone, Copy, Debug, PartialEq, Eq, Error)]
pub enum HandleFault {
    /// As many handles were made as the ground said.
    #[error("all handles were made")]
    NoHandle,
    #[error("no place for a lens is left")]
    NoPlace,
}

impl HandleFault {
    /// Returns the number of this fault.
    pub fn number(&self) -> u8
        ensures { result ≡ handle_fault_number self.now }
    {
        match self {
            HandleFault::NoHandle => 5,
            HandleFault::NoPlace => 6,
        }
    }
}

/// Says why no ground was made.
#[derive(Clone, Copy, Debug, PartialEq, Eq, Error)]
pub enum DeskFault {
    #[error("out of memory")]
    OutOfMemory,
    #[error("a desk has 1 to 1024 handles")]
    BadTemplate,
}

impl DeskFault {
    /// Returns the number of this fault.
    pub fn number(&self) -> u8
        ensures { result ≡ desk_fault_number self.now }
    {
        match self {
            DeskFault::OutOfMemory => 1,
            DeskFault::BadTemplate => 7,
        }
    }
}

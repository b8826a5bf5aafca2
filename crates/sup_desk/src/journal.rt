//! Journals: what keeps a record of a desk's history.
ghost use Rattle.std.specs.Prelude.{◌≡◌, OnOk, OnErr, IfErr};
ghost use Rattle.sup_desk.specs.Faults.{journal_fault_number};
ghost use Rattle.sup_desk.specs.Journals.{HoldsOneMore, HoldsAsBefore, HasAll, IsTornOff};

use std::io::ErrorKind;
use sup_types::{Entry, OutOfMemory};
use thiserror::Error;

/// Says why a journal records nothing more.
#[derive(Clone, Copy, Debug, PartialEq, Eq, Error)]
pub enum JournalFault {
    /// Its writer answered this error.
    #[error("its writer answered an error: {0}")]
    Failed(ErrorKind),
    /// Its writer took nothing of bytes that were not empty.
    #[error("its writer took nothing")]
    TookNothing,
    /// Its writer took all of a record, and answered this error as it was flushed.
    #[error("its writer could not flush what it took: {0}")]
    NotFlushed(ErrorKind),
}

impl JournalFault {
    /// Returns the number of this fault.
    pub fn number(self) -> u8
        ensures { result ≡ journal_fault_number }
    {
        13
    }
}

/// Keeps a record of a supervisor's history: in a file, say, to which the text of each entry is written. A desk makes each entry ready
/// before the supervisor takes it, and has it recorded before it is published.
pub trait Journal {
    ghost use Rattle.std.specs.Prelude.{List};
    ghost use Rattle.sup_types.specs.declared.template.Template.{Template};
    ghost use Rattle.sup_types.specs.declared.history.Entry.{Entry};
    ghost use Rattle.sup_desk.specs.declared.journal.JournalFault.{JournalFault};

    /// Says whether the journal has recorded this history of a supervisor of this template, and holds these further entries ready.
    ghost has: { Self → Template → List Entry → List Entry → Type 0 };

    /// Says whether a record of these further entries broke off: the journal has recorded this history, and then a part of these, or all of
    /// them if a flush failed.
    ghost is_torn: { Self → Template → List Entry → List Entry → Type 0 };

    /// Says whether a record may have this fault.
    ghost may_fail: { JournalFault → Type 0 };

    /// Makes an entry ready to be recorded, after those that are. It records nothing.
    ///
    /// # Errors
    /// `OutOfMemory`: the same entries are ready as before.
    fn prepare(&mut self, entry: &Entry) -> Result<(), OutOfMemory>
        ensures ok { OnOk result (HoldsOneMore has self.old self.new entry.now) }
        ensures err { OnErr result (HoldsAsBefore has self.old self.new) };

    /// Records what is ready, in one write. It may then flush its writer.
    ///
    /// # Errors
    /// The journal has broken off: of what was ready it has recorded a part, or all if the flush failed.
    fn record(&mut self) -> Result<(), JournalFault>
        ensures ok { OnOk result (HasAll has self.old self.new) }
        ensures err { OnErr result (IsTornOff has is_torn self.old self.new) }
        ensures cause { IfErr result (λ fault. may_fail fault) };
}

/// Records nothing, so nothing can fail.
#[derive(Clone, Copy, Debug, Default, PartialEq, Eq)]
pub struct NoJournal;

impl Journal for NoJournal {
    ghost use Rattle.std.specs.Prelude.{⊤};

    ghost has = { λ _ _ _ _. ⊤ };

    ghost is_torn = { λ _ _ _ _. ⊤ };

    ghost may_fail = { λ _. ⊥ };

    fn prepare(&mut self, _entry: &Entry) -> Result<(), OutOfMemory> {
        Ok(())
    }

    fn record(&mut self) -> Result<(), JournalFault> {
        Ok(())
    }
}

//! Why a journal was not begun or opened.

ghost use Rattle.std.specs.Prelude.{◌≡◌};
ghost use Rattle.sup_journal.specs.Faults.{open_fault_number};

use std::io;
use std::io::ErrorKind;
use sup_desk::{JournalFault, RecoverFault};
use sup_format::HistoryFault;
use sup_types::Text;
use thiserror::Error;

/// Says why no journal was opened or begun. The whole lines of a file stay as they were. `File` is also of its lock or its folder.
#[derive(Clone, Copy, Debug, PartialEq, Eq, Error)]
pub enum OpenFault {
    #[error("out of memory")]
    OutOfMemory,
    #[error("another program has the journal")]
    InUse,
    #[error("the journal could not be opened or read: {0}")]
    File(Cause),
    #[error("the journal could not be cut: {0}")]
    Cut(Cause),
    #[error("line {} of the journal's file is wrong", .0.line)]
    WrongLine(HistoryFault),
    /// The file's first line is for another template, or of another version: the first of its parts that differs, there and here.
    #[error("{0} is {1} in the journal, {2} here: use its template, or begin a new history")]
    OtherTemplate(Text, Text, Text),
    #[error("the file is no journal")]
    NoJournal,
    #[error("the journal's writer refused its first line: {0}")]
    Refused(JournalFault),
    #[error("{0}")]
    Desk(RecoverFault),
}

impl OpenFault {
    /// Returns the number of the fault: 1, 14 (thrice), that of the line's, 7 (twice), 13, or the desk's, in the variants' order.
    pub fn number(self) -> u8
        ensures { result ≡ open_fault_number self }
    {
        match self {
            OpenFault::OutOfMemory => 1,
            OpenFault::InUse | OpenFault::File(_) | OpenFault::Cut(_) => 14,
            OpenFault::WrongLine(fault) => fault.number(),
            OpenFault::OtherTemplate(..) | OpenFault::NoJournal => 7,
            OpenFault::Refused(fault) => fault.number(),
            OpenFault::Desk(fault) => fault.number(),
        }
    }
}

impl From<RecoverFault> for OpenFault {
    ghost use Rattle.sup_journal.specs.declared.fault.OpenFault.TheVariants as opening;

    ghost from_gives = { λ fault f. f ≡ opening.Desk fault };

    fn from(fault: RecoverFault) -> OpenFault {
        OpenFault::Desk(fault)
    }
}

impl From<io::Error> for OpenFault {
    fn from(error: io::Error) -> OpenFault {
        match error.kind() {
            ErrorKind::OutOfMemory => OpenFault::OutOfMemory,
            ErrorKind::WouldBlock => OpenFault::InUse,
            _ => OpenFault::File(Cause::from(error)),
        }
    }
}

/// Says what the system answered: the number of its error, or the kind of one that has none. It shows the system's words.
#[derive(Clone, Copy, Debug, PartialEq, Eq, Error)]
pub enum Cause {
    #[error("{}", io::Error::from_raw_os_error(*.0))]
    System(i32),
    #[error("{0}")]
    Other(ErrorKind),
}

impl From<io::Error> for Cause {
    fn from(error: io::Error) -> Cause {
        match error.raw_os_error() {
            Some(code) => Cause::System(code),
            None => Cause::Other(error.kind()),
        }
    }
}

/// Says why a journal was not begun (`OutOfMemory` or `Refused`), and gives its writer back. As an error it shows its fault.
#[derive(Debug, Drop, Error)]
#[error("{fault}")]
pub struct NotBegun<W> {
    pub fault: OpenFault,
    pub writer: W,
}

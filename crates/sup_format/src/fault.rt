//! Why a script or a history text is not answered whole.

ghost use Rattle.std.specs.Prelude.{◌≡◌};
ghost use Rattle.sup_format.specs.declared.fault.Fault.TheVariants as fault;

use std::alloc::AllocError;
use sup_types::{BadTemplate, OutOfMemory};
use thiserror::Error;

/// Says what is wrong with a text, or what failed while it was answered.
#[derive(Clone, Copy, Debug, PartialEq, Eq, Error)]
pub enum Fault {
    #[error("out of memory")]
    OutOfMemory,
    /// A number of the first line is out of the template's range, or its two last words do not go with its others.
    #[error("no template has these parts")]
    BadTemplate,
    #[error("a line that the format does not have")]
    BadLine,
    /// The reader answered an error.
    #[error("the input could not be read")]
    ReadFault,
    /// The writer answered an error, or took nothing of bytes that were not empty.
    #[error("the output could not be written")]
    WriteFault,
    /// More than 16,777,216 bytes came.
    #[error("the input is too long")]
    TooLong,
}

impl Fault {
    ghost use Rattle.sup_format.specs.Faults.{fault_number};

    /// Returns the number of the fault: 1, 7, 9, 10, 11 or 12, in the order of the variants.
    pub fn number(self) -> u8
        ensures { result ≡ fault_number self }
    {
        match self {
            Fault::OutOfMemory => 1,
            Fault::BadTemplate => 7,
            Fault::BadLine => 9,
            Fault::ReadFault => 10,
            Fault::WriteFault => 11,
            Fault::TooLong => 12,
        }
    }

    /// Returns this fault, in this line.
    pub fn in_line(self, line: u64) -> ScriptFault
        ensures { result ≡ record { fault = self; line = line } }
    {
        ScriptFault { fault: self, line }
    }
}

impl From<AllocError> for Fault {
    ghost from_gives = { λ _ f. f ≡ fault.OutOfMemory };

    fn from(_error: AllocError) -> Fault {
        Fault::OutOfMemory
    }
}

impl From<OutOfMemory> for Fault {
    ghost from_gives = { λ _ f. f ≡ fault.OutOfMemory };

    fn from(_error: OutOfMemory) -> Fault {
        Fault::OutOfMemory
    }
}

impl From<BadTemplate> for Fault {
    ghost from_gives = { λ _ f. f ≡ fault.BadTemplate };

    fn from(_error: BadTemplate) -> Fault {
        Fault::BadTemplate
    }
}

/// Says what stopped the answering of a text, and in which line, from 1 on.
#[derive(Clone, Copy, Debug, PartialEq, Eq, Error)]
#[error("fault {} line {}", .fault.number(), .line)]
pub struct ScriptFault {
    pub fault: Fault,
    pub line: u64,
}

impl ScriptFault {
    ghost use Rattle.sup_format.specs.Faults.{fault_number};

    /// Returns the number of the fault.
    pub fn number(&self) -> u8
        ensures { result ≡ fault_number self.now.fault }
    {
        self.fault.number()
    }
}

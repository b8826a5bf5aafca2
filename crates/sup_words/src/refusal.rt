//! What is said of words that are no order.

ghost use Rattle.std.specs.Prelude.{◌≡◌, true};
ghost use Rattle.clap.specs.Values.{kind_of};
ghost use Rattle.sup_words.specs.Shown.{IsShown, IsShownAs};
ghost use Rattle.sup_script.specs.declared.runs.answer.Status.TheVariants.{BadInput, Failed};

use clap::error::{Error, ErrorKind};
use std::alloc::Global;
use std::io;
use std::io::Write;
use sup_script::{Fault, Status, WatchedWriter};

/// Writes the text of words that are no order: a help text or the version to `out`, and why they are refused to `err`. A failed write to
/// `err` changes nothing.
pub fn show<W: Write, E: Write>(
    alloc: Global,
    error: &Error,
    out: &mut WatchedWriter<W>,
    err: &mut E,
) -> Status
    ensures kind { IsShownAs (kind_of error.now) (W.contents out.old.writer) (W.contents out.new.writer) out.new.has_refused result }
    ensures shown { IsShown (W.contents out.old.writer) (W.contents out.new.writer) out.new.has_refused result }
    ensures cause { result ≡ Failed → out.new.has_refused ≡ true }
{
    if error.use_stderr() {
        let _ = write!(err, "{error}");
        return match error.kind() {
            ErrorKind::OutOfMemory => Status::OtherFault,
            _ => Status::BadInput,
        };
    }
    let Ok(text) = format!(in alloc; "{error}") else {
        tell(Fault::OutOfMemory, None, err);
        return Status::OtherFault;
    };
    match out.send(text.as_bytes()) {
        Ok(()) => Status::Done,
        Err(_) => {
            tell(Fault::WriteFault, out.error(), err);
            Status::Failed
        }
    }
}

/// Writes why the words of the command line could not be had: one is not UTF-8, or there was no memory.
pub fn refuse_words<E: Write>(error: &io::Error, err: &mut E) -> Status {
    if error.kind() == io::ErrorKind::InvalidData {
        let _ = writeln!(err, "error: a word of the command line is not UTF-8");
        return Status::BadInput;
    }
    tell(Fault::OutOfMemory, None, err);
    Status::OtherFault
}

/// Writes a fault by its number and name, and by what the writer answered.
fn tell<E: Write>(fault: Fault, cause: Option<io::ErrorKind>, err: &mut E) {
    let number = fault.number();
    let _ = match cause {
        Some(kind) => writeln!(err, "fault {number}: {fault}: {kind}"),
        None => writeln!(err, "fault {number}: {fault}"),
    };
}

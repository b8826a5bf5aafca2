//! Texts and journals as a program answers them: a fault is told on the error stream, and how it ended is an exit status.

ghost use Rattle.std.specs.Prelude.{◌≡◌, ◌⊎◌, false, true};
ghost use Rattle.sup_script.specs.Running.Answers.{IsFileAnswered, IsInputAnswered, IsJournalAnswered, IsTextAnswered, IsUnnamed, status_of, status_number};
ghost use Rattle.sup_script.specs.declared.runs.answer.Status.TheVariants as status;

use crate::explain::{Explanation, Format};
use crate::runs::journal::replay_journal;
use crate::runs::replays::replay;
use crate::runs::script::run;
use crate::starter::ScriptStarter;
use std::alloc::{Allocator, Global};
use std::fs::{File, Files};
use std::io::{ErrorKind, Read, Write};
use sup_format::{
    EntryReader, Fault, FaultyLine, ScriptFault, WatchedReader, WatchedWriter, first_line,
};

/// Says how a program ended.
#[derive(Clone, Copy, Debug, PartialEq, Eq)]
pub enum Status {
    /// All was answered.
    Done,
    /// The words, a line or the header are wrong, or the input is too long.
    BadInput,
    /// Reading or writing failed.
    Failed,
    /// Any other fault, such as no memory.
    OtherFault,
    /// The history of a server has ended, and does so at each start.
    GaveUp,
}

impl Status {
    ghost use Rattle.sup_script.specs.Running.Answers.{status_number, status_of_fault};

    /// Returns the exit status of the process: 0, or 2 to 5, in the order of the variants.
    pub fn number(self) -> u8
        ensures { result ≡ status_number self }
    {
        match self {
            Status::Done => 0,
            Status::BadInput => 2,
            Status::Failed => 3,
            Status::OtherFault => 4,
            Status::GaveUp => 5,
        }
    }

    /// Returns the status of a run that stopped with this fault.
    pub(crate) fn of(fault: Fault) -> Status
        ensures { result ≡ status_of_fault fault }
    {
        match fault {
            Fault::BadTemplate | Fault::BadLine | Fault::TooLong => Status::BadInput,
            Fault::ReadFault | Fault::WriteFault => Status::Failed,
            Fault::OutOfMemory => Status::OtherFault,
        }
    }
}

/// Says how much is written of a fault in a text.
#[derive(Clone, Copy, Debug, PartialEq, Eq)]
pub enum Detail {
    /// Its number and its line.
    Number,
    /// These, and an explanation.
    Explained,
}

impl Detail {
    /// Returns how much is written to a person, who has a fault explained without asking for it.
    pub fn said_to(self, is_person: bool) -> Detail {
        if is_person { Detail::Explained } else { self }
    }
}

/// Names what a program answers: a script or a history text, in the file at a path or from the input, or the journal at a path.
#[derive(Clone, Copy, Debug, PartialEq, Eq)]
pub enum Input<'a> {
    Script(Option<&'a str>),
    History(Option<&'a str>),
    Journal(&'a str),
}

/// Answers a script, a history text or a journal. The replies go to `out`, and a fault is a line on `err`, followed by an explanation
/// if that is asked for. The status is that of the outcome; a file that can't be opened is `Failed`, and nothing is written then. With
/// a path, the reader is not read. A failed write to `err` changes nothing.
pub fn answer_input<F: Files, R: Read, W: Write, E: Write>(
    files: &F,
    alloc: Global,
    input: Input<'_>,
    detail: Detail,
    reader: &mut WatchedReader<R>,
    out: &mut WatchedWriter<W>,
    err: &mut E,
) -> Status
    requires calls { reader.old.calls ≡ 0 }
    requires none { reader.old.given ≡ 0 }
    requires unfailed { reader.old.has_failed ≡ false }
    requires unrefused { out.old.has_refused ≡ false }
    ensures answered { IsInputAnswered input.entry (R.remaining reader.old.reader) (R.remaining reader.new.reader) (W.contents out.old.writer)
        (W.contents out.new.writer) reader.new.has_failed reader.new.given out.new.has_refused result }
    ensures cause { IsUnnamed input.entry → result ≡ status.Failed → (reader.new.has_failed ≡ true) ⊎ (out.new.has_refused ≡ true) }
{
    match input {
        Input::Script(None) => answer_text(alloc, detail, Format::Script, None, reader, out, err),
        Input::History(None) => answer_text(alloc, detail, Format::History, None, reader, out, err),
        Input::Script(Some(path)) => {
            answer_file(files, alloc, detail, Format::Script, path, out, err)
        }
        Input::History(Some(path)) => {
            answer_file(files, alloc, detail, Format::History, path, out, err)
        }
        Input::Journal(path) => answer_journal(files, alloc, detail, path, out, err),
    }
}

/// Answers the file at this path as a text of this format.
fn answer_file<F: Files, W: Write, E: Write>(
    files: &F,
    alloc: Global,
    detail: Detail,
    format: Format,
    path: &str,
    out: &mut WatchedWriter<W>,
    err: &mut E,
) -> Status
    requires { out.old.has_refused ≡ false }
    ensures { IsFileAnswered format (W.contents out.old.writer) (W.contents out.new.writer) out.new.has_refused result }
{
    match File::open(files, path) {
        Ok(file) => {
            let mut reader = WatchedReader::new(file);
            answer_text(alloc, detail, format, Some(path), &mut reader, out, err)
        }
        Err(error) => tell_unread(error.kind(), path, err),
    }
}

/// Answers a script or a history text. The status is that of the outcome of its run.
fn answer_text<R: Read, W: Write, E: Write>(
    alloc: Global,
    detail: Detail,
    format: Format,
    path: Option<&str>,
    reader: &mut WatchedReader<R>,
    out: &mut WatchedWriter<W>,
    err: &mut E,
) -> Status
    requires calls { reader.old.calls ≡ 0 }
    requires none { reader.old.given ≡ 0 }
    requires unfailed { reader.old.has_failed ≡ false }
    requires unrefused { out.old.has_refused ≡ false }
    ensures { IsTextAnswered format (R.remaining reader.old.reader) (R.remaining reader.new.reader) (W.contents out.old.writer)
        (W.contents out.new.writer) reader.new.has_failed reader.new.given out.new.has_refused result }
{
    let outcome = match format {
        Format::Script => run(alloc, reader, out, &ScriptStarter),
        Format::History => replay(alloc, reader, out),
    };
    let ended = Run {
        format,
        path,
        outcome,
        errors: (reader.error(), out.error()),
        line: *reader.line(),
    };
    tell(alloc, detail, &ended, err)
}

/// Answers the journal in the file at this path.
fn answer_journal<F: Files, W: Write, E: Write>(
    files: &F,
    alloc: Global,
    detail: Detail,
    path: &str,
    out: &mut WatchedWriter<W>,
    err: &mut E,
) -> Status
    ensures { IsJournalAnswered (W.contents out.old.writer) (W.contents out.new.writer) out.new.has_refused result }
{
    let file = match File::open(files, path) {
        Ok(file) => file,
        Err(error) => return tell_unread(error.kind(), path, err),
    };
    let mut lines = EntryReader::new(alloc, WatchedReader::new(file));
    let outcome = replay_journal(alloc, &mut lines, out);
    let ended = Run {
        format: Format::History,
        path: Some(path),
        outcome,
        errors: (lines.error(), out.error()),
        line: line_at(&lines),
    };
    tell(alloc, detail, &ended, err)
}

/// Returns the line at which the reading of a journal stopped.
fn line_at<R: Read, A: Allocator>(lines: &EntryReader<R, A>) -> FaultyLine {
    let mut line = FaultyLine::default();
    if lines.ready().is_empty() {
        line.keep(lines.torn());
    } else {
        line.keep(first_line(lines.ready()).0);
    }
    line
}

/// Says how a run over a text ended.
#[derive(Drop)]
struct Run<'a> {
    format: Format,
    /// The file that was read, if the text has a name.
    path: Option<&'a str>,
    outcome: Result<(), ScriptFault>,
    /// What the reader and the writer answered last, if they answered an error.
    errors: (Option<ErrorKind>, Option<ErrorKind>),
    /// The line that has the fault, if the fault is one of a line.
    line: FaultyLine,
}

/// Writes the fault of a run, if there is one: a named file that can't be read by what is wrong with it, all else by number and line.
/// Further lines explain it, if that is asked for. Returns the run's status.
fn tell<E: Write>(alloc: Global, detail: Detail, run: &Run<'_>, err: &mut E) -> Status
    ensures { result ≡ status_of run.now.outcome }
{
    let Err(stop) = run.outcome else {
        return Status::Done;
    };
    let cause = match stop.fault {
        Fault::ReadFault => run.errors.0,
        Fault::WriteFault => run.errors.1,
        _ => None,
    };
    if let (Fault::ReadFault, Some(path), Some(kind)) = (stop.fault, run.path, cause) {
        return tell_unread(kind, path, err);
    }
    let _ = writeln!(err, "{stop}");
    if detail == Detail::Explained {
        explain(alloc, run, stop, cause, err);
    }
    Status::of(stop.fault)
}

/// Writes that the file at a path can't be read, and why.
pub(crate) fn tell_unread<E: Write>(kind: ErrorKind, path: &str, err: &mut E) -> Status
    ensures { result ≡ status.Failed }
{
    let fault = Fault::ReadFault;
    let number = fault.number();
    let _ = match kind {
        ErrorKind::NotFound => writeln!(err, "fault {number}: there is no such file: {path}"),
        ErrorKind::IsADirectory => writeln!(err, "fault {number}: this is a folder: {path}"),
        ErrorKind::PermissionDenied => {
            writeln!(
                err,
                "fault {number}: there is no permission to read: {path}"
            )
        }
        kind => writeln!(err, "fault {number}: {fault}: {kind}: {path}"),
    };
    Status::Failed
}

/// Writes the further lines that explain a fault.
fn explain<E: Write>(
    alloc: Global,
    run: &Run<'_>,
    stop: ScriptFault,
    cause: Option<ErrorKind>,
    err: &mut E,
) {
    let text = match (Explanation::new(run.format, stop, &run.line), cause) {
        (Some(explanation), _) => format!(in alloc; "{explanation}"),
        (None, Some(kind)) => format!(in alloc; "  {}: {kind}\n", stop.fault),
        (None, None) => format!(in alloc; "  {}\n", stop.fault),
    };
    if let Ok(text) = text {
        let _ = err.write_all(text.as_bytes());
    }
}

//! The whole program, over any reader and writers.

ghost use Rattle.std.specs.Prelude.{◌≡◌, ◌⊎◌, ℕ, List, [], ◌∷◌, codes, false, map, true};
ghost use Rattle.sup_script.specs.Running.Answers.{IsScriptAnswered, IsReplayAnswered};
ghost use Rattle.sup_load.specs.Answered.{IsLoadAnswered, IsAnswered, IsFollowing, IsLoadReply, IsReplyTo, IsServed, IsServing};
ghost use Rattle.sup_words.specs.Settings.{Given, IsWhole, words_of};
ghost use Rattle.sup_words.specs.Orders.{HasFile, command_at, kinds_at};
ghost use Rattle.sup_load.specs.Statuses.{status_of_load, status_of_serve_fault};
ghost use Rattle.sup_script.specs.declared.runs.answer.Status.TheVariants.{Failed};

use crate::fault::{LoadFault, StopFault};
use crate::load::{Runner, tell};
use std::alloc::{AllocGlobal, Global};
use std::convert::AsStr;
use std::fmt::Display;
use std::fs::Files;
use std::io::{ErrorKind, Read, Write};
use std::random::RandomSource;
use std::sync::Wait;
use std::thread::Threads;
use std::time::Clock;
use sup_journal::LockFile;
use sup_script::{Detail, Status, WatchedReader, WatchedWriter, answer_input, follow_journal};
use sup_serve::{ServeFault, serve};
use sup_words::{Order, Serve, read_words, show};

/// Returns the status of a load with this outcome.
fn load_status(outcome: Result<(), LoadFault>) -> Status
    ensures { result ≡ status_of_load outcome }
{
    match outcome {
        Ok(()) => Status::Done,
        Err(LoadFault::WriteFault) => Status::Failed,
        Err(LoadFault::Stopped(fault)) => match fault {
            StopFault::BadTemplate(_) => Status::BadInput,
            _ => Status::OtherFault,
        },
    }
}

/// Returns the status of a server that stopped with this fault.
fn server_status(fault: &ServeFault) -> Status
    ensures { result ≡ status_of_serve_fault fault.now }
{
    match fault {
        ServeFault::Read | ServeFault::Write => Status::Failed,
        ServeFault::GaveUp => Status::GaveUp,
        _ => Status::OtherFault,
    }
}

/// Does what the words ask for, of which the first is the program's name, and returns how it ended. The replies, or a help text, go to
/// `out`; the line of a fault, and words that are refused, go to `err`. A failed write to `err` changes nothing. To a person, who reads
/// `err`, a fault in a text is explained without being asked. It waits for the threads and locks of a load or a server alone.
pub fn run_words<T, S, R, W, E>(
    rt: &T,
    alloc: Global,
    words: &[S],
    reader: &mut WatchedReader<R>,
    out: &mut WatchedWriter<W>,
    err: &mut E,
    is_person: bool,
) -> Status
where
    T: Threads + Wait + Clock + RandomSource + AllocGlobal + Files + Eprint + Sync,
    T::File: Send + LockFile,
    S: AsStr,
    R: Read,
    W: Write,
    E: Write,
    requires calls { reader.old.calls ≡ 0 }
    requires none { reader.old.given ≡ 0 }
    requires unfailed { reader.old.has_failed ≡ false }
    requires unrefused { out.old.has_refused ≡ false }
    ensures script { (name : List ℕ) → map S.text words.now ≡ name ∷ codes "script" ∷ []
        → IsScriptAnswered (R.remaining reader.old.reader) (R.remaining reader.new.reader) (W.contents out.old.writer) (W.contents out.new.writer)
        reader.new.has_failed reader.new.given out.new.has_refused result }
    ensures replay { (name : List ℕ) → map S.text words.now ≡ name ∷ codes "replay" ∷ []
        → IsReplayAnswered (R.remaining reader.old.reader) (R.remaining reader.new.reader) (W.contents out.old.writer) (W.contents out.new.writer)
        reader.new.has_failed reader.new.given out.new.has_refused result }
    ensures load { (name : List ℕ) (given : Given) (w n r t : ℕ) → IsWhole given w n r t → map S.text words.now ≡ name ∷ codes "load" ∷ words_of given
        → IsLoadReply (R.remaining reader.old.reader) (R.remaining reader.new.reader) (W.contents out.old.writer) (W.contents out.new.writer)
        out.new.has_refused result }
    // It does what the grammar makes of the words, and else says why there is no order.
    ensures words { IsReplyTo (map S.text words.now) (R.remaining reader.old.reader) (R.remaining reader.new.reader) (W.contents out.old.writer)
        (W.contents out.new.writer) reader.new.has_failed reader.new.given out.new.has_refused result }
    // Whatever the words, it answers a text, runs a load or shows something, or they are those of a server or of following a journal.
    ensures one { IsAnswered (R.remaining reader.old.reader) (R.remaining reader.new.reader) (W.contents out.old.writer) (W.contents out.new.writer)
        reader.new.has_failed reader.new.given out.new.has_refused result
        ⊎ (IsServing (kinds_at (map S.text words.now)) (command_at (map S.text words.now)) reader.new.has_failed out.new.has_refused result
        ⊎ IsFollowing (kinds_at (map S.text words.now)) (command_at (map S.text words.now)) (R.remaining reader.old.reader) (R.remaining reader.new.reader) result) }
    ensures cause { result ≡ Failed → (reader.new.has_failed ≡ true) ⊎ ((out.new.has_refused ≡ true) ⊎ HasFile (command_at (map S.text words.now))) }
{
    match read_words(alloc, words) {
        Ok(Order::Text(input, detail)) => {
            let detail = detail.said_to(is_person);
            answer_input(rt, alloc, input, detail, reader, out, err)
        }
        Ok(Order::Follow(path)) => follow_journal(rt, alloc, path, out, err),
        Ok(Order::Load(load, journal, detail)) => {
            let runner = Runner {
                rt,
                alloc,
                load,
                is_person,
            };
            answer_load(&runner, journal, detail, out, err)
        }
        Ok(Order::Serve(how)) => answer_serve(rt, &how, reader, out, err),
        Err(error) => show(alloc, &error, out, err),
    }
}

/// Runs a load, with a journal at this path, if there is one. The fault that stopped it, if one did, is a line on `err`. An explanation
/// follows if it is asked for, to a person, and with a journal.
fn answer_load<T, W: Write, E: Write>(
    runner: &Runner<'_, T>,
    journal: Option<&str>,
    detail: Detail,
    out: &mut WatchedWriter<W>,
    err: &mut E,
) -> Status
where
    T: Threads + Wait + Files + Eprint + Sync,
    T::File: Send + LockFile,
    ensures loaded { IsLoadAnswered (W.contents out.old.writer) (W.contents out.new.writer) out.new.has_refused result }
    ensures cause { result ≡ Failed → out.new.has_refused ≡ true }
{
    let measured = runner.measure(journal);
    let outcome = tell(measured, out);
    if let Err(fault) = &outcome {
        let number = fault.number();
        let _ = writeln!(err, "fault {number}");
        if detail.said_to(runner.is_person || journal.is_some()) == Detail::Explained {
            explain(fault, number, journal, out.error(), err);
            if let Ok(sums) = measured {
                sums.explain(err);
            }
        }
    }
    load_status(outcome)
}

/// Serves sessions. The fault that stopped the server, if one did, is a line on `err`, and the line under it says what is wrong.
fn answer_serve<T, R, W, E>(
    rt: &T,
    how: &Serve<'_>,
    reader: &mut WatchedReader<R>,
    out: &mut WatchedWriter<W>,
    err: &mut E,
) -> Status
where
    T: Threads + Wait + Clock + RandomSource + AllocGlobal + Files + Sync,
    T::File: Send + LockFile,
    R: Read,
    W: Write,
    E: Write,
    ensures { IsServed reader.new.has_failed out.new.has_refused result }
{
    let Err(fault) = serve(rt, how, reader, out) else {
        return Status::Done;
    };
    let number = fault.number();
    let _ = writeln!(err, "fault {number}");
    let cause = reader.error().or(out.error());
    explain(&fault, number, how.journal, cause, err);
    server_status(&fault)
}

/// Says what is wrong, in a line under that of the fault, and which journal it is of or what the reader or the writer answered.
fn explain<E: Write>(
    fault: &impl Display,
    number: u8,
    journal: Option<&str>,
    cause: Option<ErrorKind>,
    err: &mut E,
) {
    let is_of_journal = matches!(number, 7 | 9 | 13 | 14 | 17);
    let file = if is_of_journal { journal } else { None };
    let _ = if let Some(path) = file {
        writeln!(err, "  {fault}: {path}")
    } else if let Some(kind) = cause {
        writeln!(err, "  {fault}: {kind}")
    } else {
        writeln!(err, "  {fault}")
    };
}

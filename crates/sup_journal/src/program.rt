//! Desks whose journal is a file, for programs that write no proof: the name is picked here.
ghost use Rattle.std.specs.Prelude.{◌≡◌, IfOk};
ghost use Rattle.sup_desk.specs.Journals.{HasJust};

use crate::fault::OpenFault;
use crate::file::{LockFile, open_file};
use crate::flushing::Flush;
use crate::opening::{FileJournal, continue_journal};
use crate::origin::Unknown;
use crate::synced::Synced;
use crate::text_journal::TextJournal;
use std::alloc::Global;
use std::fs::{Files, OpenFile, OpenOptions};
use std::io::{Read, Write};
use std::marker::Brand;
use std::sync::Wait;
use sup_desk::{Closed, Ground, Journal, JournaledProgram, Name, Recovered, Recovery};
use sup_types::{Starter, Template};
use thiserror::Error;

/// Says why the journal in a file was not opened, and names the file, if there was memory for that. As an error it shows both.
#[derive(Debug, Drop, PartialEq, Eq, Error)]
#[error("{fault}: {path}")]
pub struct NotOpened {
    pub fault: OpenFault,
    pub path: String,
}

impl NotOpened {
    /// Returns this fault of the journal at this path.
    pub fn at(alloc: Global, path: &str, fault: OpenFault) -> NotOpened {
        let path = String::from_str(alloc, path).unwrap_or(String::new(alloc));
        NotOpened { fault, path }
    }
}

/// Makes a desk whose journal is the file at this path, as `open_journal` does, runs the program on it and closes it. Returns the
/// program's outcome, and the journal with a ticket for all of the history. Each update is in the file before anyone sees it, flushed
/// as `flush` says. The desk has 1 to 1,024 handles, including those of the history. Its caller writes no proof.
///
/// # Errors
/// Those of `open_journal`, and `Desk` if no desk is made: then no file is. The program is not run then.
pub fn on_desk_in_file<S, R, P>(
    rt: &R,
    alloc: Global,
    path: &str,
    flush: Flush,
    template: Template,
    handles: u64,
    starter: S,
    program: P,
) -> Result<(P::Outcome, Closed<FileJournal<R::File>>), NotOpened>
where
    S: Starter + Drop,
    R: Wait + Files,
    R::File: LockFile,
    P: JournaledProgram<S, R, FileJournal<R::File>> + Drop,
    ensures { IfOk result (λ p. HasJust (⟦<TextJournal<Unknown, Synced<R::File>, Global> as Journal>⟧.has p.1.journal template)
        (⟦<TextJournal<Unknown, Synced<R::File>, Global> as Journal>⟧.is_torn p.1.journal template)
        ⟦<TextJournal<Unknown, Synced<R::File>, Global> as Journal>⟧.may_fail p.1.fault p.1.ticket.front) }
{
    let ground = match Ground::new(alloc, rt, template, handles) {
        Ok(ground) => ground,
        Err(fault) => return Err(NotOpened::at(alloc, path, OpenFault::Desk(fault.into()))),
    };
    let file = match open_file(rt, alloc, path, OpenOptions::new().create(true)) {
        Ok(file) => file,
        Err(fault) => {
            ground.close(rt);
            return Err(NotOpened::at(alloc, path, fault));
        }
    };
    match run_named::<Brand, S, R, R::File, P>(
        rt, alloc, file, flush, template, ground, starter, program,
    ) {
        Ok(ran) => Ok(ran),
        Err(fault) => Err(NotOpened::at(alloc, path, fault)),
    }
}

/// Runs the program on a desk of this ground, which N names, and whose journal is this file.
fn run_named<N, S, R, F, P>(
    rt: &R,
    alloc: Global,
    file: Synced<F>,
    flush: Flush,
    template: Template,
    ground: Ground,
    starter: S,
    program: P,
) -> Result<(P::Outcome, Closed<FileJournal<F>>), OpenFault>
where
    N: Name + Send + Sync,
    S: Starter + Drop,
    R: Wait,
    F: Read + Write + OpenFile + Drop,
    P: JournaledProgram<S, R, FileJournal<F>> + Drop,
    requires name { (ground.press ≡ N.press) × (ground.template ≡ N.template) × (ground.sessions ≡ N.sessions) }
    requires template { template ≡ N.template }
    ensures { IfOk result (λ p. HasJust (⟦<TextJournal<Unknown, Synced<F>, Global> as Journal>⟧.has p.1.journal N.template)
        (⟦<TextJournal<Unknown, Synced<F>, Global> as Journal>⟧.is_torn p.1.journal N.template)
        ⟦<TextJournal<Unknown, Synced<F>, Global> as Journal>⟧.may_fail p.1.fault p.1.ticket.front) }
{
    let mut recovery: Recovery<N, &R> = Recovery::begin(ground, rt)?;
    let journal = continue_journal(alloc, file, &template, &mut recovery)?;
    let Recovered { desk, callers, .. } = recovery.finish(starter, journal.with_flush(flush));
    let outcome = program.run(rt, &desk, callers);
    Ok((outcome, desk.close()))
}

//! Serving.
ghost use Rattle.std.specs.Prelude.{◌≡◌, true, false, IfErr, OnOk};
ghost use Rattle.sup_serve.specs.declared.fault.ServeFault.TheVariants as fault;

use crate::account::Account;
use crate::fault::ServeFault;
use crate::server::Server;
use crate::session::Sessions;
use futures::channel::mpsc::unbounded;
use std::alloc::{AllocGlobal, Global};
use std::fs::Files;
use std::io::{Read, Write};
use std::random::RandomSource;
use std::sync::Wait;
use std::thread::Threads;
use std::time::Clock;
use sup_journal::{Flush, LockFile, begin_anew};
use sup_live::Crew;
use sup_script::{WatchedReader, WatchedWriter};
use sup_types::{Kind, Restart, Template};
use sup_words::Serve;

/// The most sessions at a time.
const MOST_SESSIONS: u64 = 65_536;

/// Answers the lines of the input until it ends, or asks to quit. Then the sessions are asked to end, and the account is
/// written. It waits.
///
/// With the path of a journal the sessions outlive the server. Their history is in that file, which is made if there is none: the
/// sessions that it lists run again, each under its number, and a line says how many, before anything is read. If a new history is
/// to begin in it, the old file is kept under another name first, and a line says under which.
///
/// # Errors
/// `Read` and `Write`: the input or the output failed; the sessions were asked to end, and what was answered before is written.
/// `Journal`: it broke off, and no account is written. `OutOfMemory`: memory ran out, before or after the first line was read.
/// `Crew`: the crew could not run, or the file could not be continued, and its whole lines are as they were; `NotAnew`: no new history
/// could be begun; `GaveUp`: the supervisor of the history is down. Then nothing was read.
pub fn serve<R, I, W>(
    rt: &R,
    how: &Serve<'_>,
    input: &mut WatchedReader<I>,
    out: &mut WatchedWriter<W>,
) -> Result<(), ServeFault>
where
    R: Threads + Wait + Clock + RandomSource + AllocGlobal + Files + Sync,
    R::File: Send + LockFile,
    I: Read,
    W: Write,
    ensures ok { OnOk result (input.new.has_failed ≡ false) }
    ensures read { IfErr result (λ e. e ≡ fault.Read → input.new.has_failed ≡ true) }
    ensures write { IfErr result (λ e. e ≡ fault.Write → out.new.has_refused ≡ true) }
{
    let account = serve_lines(rt, how, input, out);
    conclude(rt.alloc(), input, out, account)
}

/// Returns how serving ended, by what failed meanwhile: if nothing did, the account is written. Apart from what serves, its contract is
/// proved without that.
fn conclude<I: Read, W: Write>(
    alloc: Global,
    input: &WatchedReader<I>,
    out: &mut WatchedWriter<W>,
    account: Result<Account, ServeFault>,
) -> Result<(), ServeFault>
    ensures ok { OnOk result (input.now.has_failed ≡ false) }
    ensures read { IfErr result (λ e. e ≡ fault.Read → input.now.has_failed ≡ true) }
    ensures write { IfErr result (λ e. e ≡ fault.Write → out.new.has_refused ≡ true) }
{
    if input.has_failed() {
        return Err(ServeFault::Read);
    }
    if out.has_refused() {
        return Err(ServeFault::Write);
    }
    match account {
        Ok(account) => account.tell(alloc, out),
        Err(ServeFault::Read | ServeFault::Write) => Err(ServeFault::OutOfMemory),
        Err(fault) => Err(fault),
    }
}

/// Returns the template of the sessions.
fn template() -> Template {
    let made = Template::new(
        Restart::Transient,
        Kind::Worker,
        5,
        10,
        MOST_SESSIONS,
        1 << 62,
    );
    match made {
        Ok(template) => template,
        Err(_) => unreachable!(),
    }
}

/// Runs the crew of the sessions, with the server as its program.
fn serve_lines<R, I, W>(
    rt: &R,
    how: &Serve<'_>,
    input: &mut WatchedReader<I>,
    out: &mut WatchedWriter<W>,
) -> Result<Account, ServeFault>
where
    R: Threads + Wait + Clock + RandomSource + AllocGlobal + Files + Sync,
    R::File: Send + LockFile,
    I: Read,
    W: Write,
{
    let kept = match how.journal {
        Some(path) if how.is_anew => begin_anew(rt, rt.alloc(), path, &template())?,
        _ => None,
    };
    let (sender, restarted) = unbounded(rt.alloc())?;
    let sessions = Sessions { restarted: sender };
    let server = Server {
        host: rt,
        input,
        out,
        restarted,
        kept,
        how: *how,
    };
    let crew = Crew::new(template(), &sessions).threads(4);
    let Some(path) = how.journal else {
        return Account::of(crew.run(rt, server)?);
    };
    let (report, closed) = crew.run_in_file(rt, path, Flush::EachUpdate, server)?;
    match closed.fault {
        Some(fault) => Err(ServeFault::Journal(fault)),
        None => Account::of(report),
    }
}

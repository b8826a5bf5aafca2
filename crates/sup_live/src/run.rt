//! Runs of a crew: over a desk of its own, with a journal or in a file, and over one that was made by hand.
ghost use Rattle.std.specs.Prelude.{◌≡◌, ◌<◌, ◌≤◌, ◌+◌, ◌-◌, ◌^◌, [], IfOk, IfSome, OnOk, vec_len, vec_capacity};
ghost use Rattle.sup_desk.specs.Journals.{HasJust};
ghost use Rattle.sup_exits.specs.Accounts.{IsNew};
ghost use Rattle.sup_live.specs.Wholes.{IsCrewReport, IsReport, length_of};

use crate::behaviour::Behaviour;
use crate::builder::Crew;
use crate::client::Program;
use crate::clock::Moments;
use crate::driver::Driver;
use crate::host::{Host, Lookout, Timed};
use crate::hub::Hub;
use crate::plan::{LiveFault, Plan};
use crate::report::{CrewReport, conclude};
use crate::threads::run_threads;
use crate::watch::Watch;
use crate::yard::{CrewYard, Yard};
use futures::Future;
use std::alloc::{AllocGlobal, Global};
use std::fs::{File, Files, OpenFile, OpenOptions};
use std::io::{Read, Write};
use std::marker::{Brand, PhantomData};
use std::random::RandomSource;
use std::sync::Wait;
use std::thread::Threads;
use std::time::Clock;
use sup_desk::{
    Closed, Desk, DetachedHandle, Ground, Handle, Journal, Name, NoJournal, Recovered, Recovery,
};
use sup_exits::{Account, Ledger, Office};
use sup_format::{EntryReader, WatchedReader};
use sup_journal::{FileJournal, Flush, LockFile, Synced, continue_journal, open_file};
use sup_types::{AlwaysRunning, Entry, Starter};

/// How many handles a crew takes beside those of its peers: the driver's, and that of the program's client.
const OWN_HANDLES: u64 = 2;

/// Ends a yard. It is a function of its own, over any future, since the borrow checker of this kit sees no lifetime of a yard's children
/// outlive the function that made it.
fn end_yard<'h, B: Behaviour, P: Host, F: Future>(yard: Yard<'h, B, P, F>) {
    drop(yard);
}

/// Returns the handle of the first of these callers, or a new one if there is none, and the other callers, with new ones if there are
/// fewer than this number.
fn take_handles<'d, N: Name, S: Starter + Drop, Q: Wait + Drop, J: Journal + Drop, R: Wait>(
    rt: &R,
    desk: &'d Desk<N, S, Q, J>,
    callers: Vec<DetachedHandle<N>>,
    count: usize,
) -> Result<(Handle<'d, N, S, Q, J>, Vec<DetachedHandle<N>>), LiveFault> {
    let mut callers = callers;
    let first = if callers.is_empty() {
        desk.handle(rt)?
    } else {
        desk.bind(callers.remove(0))
    };
    callers.reverse();
    for _ in callers.len()..count {
        if callers.push(desk.handle(rt)?.unbind().0).is_err() {
            return Err(LiveFault::OutOfMemory);
        }
    }
    Ok((first, callers))
}

/// Returns the highest number of a handle that made one of these entries.
fn highest(entries: &[Entry]) -> u64 {
    let mut most = 0;
    for entry in entries {
        most = entry.handle.max(most);
    }
    most
}

/// Returns the highest number of a handle in the history in this file. Reading ends where it fails: the opening of the file says why.
fn highest_in<R: Files + AllocGlobal + Wait>(rt: &R, path: &str) -> u64 {
    let Ok(file) = File::open(rt, path) else {
        return 0;
    };
    let mut lines = EntryReader::new(rt.alloc(), WatchedReader::new(file));
    if !matches!(lines.find_line(), Ok(true)) || lines.begin().is_err() {
        return 0;
    }
    let mut most = 0;
    for _ in rt.forever() {
        match lines.next() {
            Ok(Some(entry)) => most = entry.handle.max(most),
            _ => return most,
        }
    }
    most
}

/// Returns the peers, or a list of none.
fn list_of<U: Drop>(alloc: Global, peers: Option<Vec<U>>) -> Vec<U>
    ensures { vec_len result ≡ length_of peers }
{
    match peers {
        Some(peers) => peers,
        None => Vec::new(alloc),
    }
}

impl<'b, B, S, U, W> Crew<'b, B, S, U, W>
where
    B: Behaviour + Sync,
    B::Message: Send,
    B::Own: Send,
    B::Child: Send,
    S: Starter + Drop + Send + Sync,
    U: Program<B> + Drop + Send,
    U::Outcome: Send,
    W: Watch + Sync,
{
    /// Refuses a crew that has not 1 to 64 workers.
    fn check_workers(&self) -> Result<(), LiveFault>
        ensures { OnOk result ((1 ≤ self.now.plan.workers) × (self.now.plan.workers ≤ 64)) }
    {
        if (1..=64).contains(&self.plan.workers) {
            Ok(())
        } else {
            Err(LiveFault::BadWorkers)
        }
    }

    /// Makes the ground of a desk for this crew, whose history has this many handles.
    fn ground<R: AllocGlobal + Wait>(&self, rt: &R, before: u64) -> Result<Ground, LiveFault>
        ensures { IfOk result (λ ground. ground.template ≡ self.now.template) }
    {
        self.check_workers()?;
        let peers = match &self.peers {
            Some(peers) => peers.len() as u64,
            None => 0,
        };
        let own = OWN_HANDLES
            .saturating_add(peers)
            .saturating_add(self.plan.places);
        Ok(Ground::new(rt.alloc(), rt, self.template, own.max(before))?)
    }

    /// Runs the crew, and audits its history.
    pub fn run<R, T>(
        self,
        rt: &R,
        program: T,
    ) -> Result<CrewReport<T::Outcome, U::Outcome>, LiveFault>
    where
        R: Threads + Wait + Clock + RandomSource + AllocGlobal + Sync,
        T: Program<B> + Drop,
        ensures { IfOk result (λ r. IsCrewReport (B.may_end self.entry.behaviour.now) self.entry.template (length_of self.entry.peers) r) }
    {
        let (journal, entries): (NoJournal, &[Entry]) = (NoJournal, &[]);
        let (report, _) = self.run_recorded(rt, journal, entries, program)?;
        Ok(report)
    }

    /// Runs the crew, with a journal that has recorded these entries: none if it is new. Audits its history, and closes its journal.
    pub fn run_recorded<R, J, T>(
        self,
        rt: &R,
        journal: J,
        entries: &[Entry],
        program: T,
    ) -> Result<(CrewReport<T::Outcome, U::Outcome>, Closed<J>), LiveFault>
    where
        R: Threads + Wait + Clock + RandomSource + AllocGlobal + Sync,
        J: Journal + Drop + Send,
        T: Program<B> + Drop,
        requires { J.has journal self.template entries.now [] }
        ensures report { IfOk result (λ r. IsCrewReport (B.may_end self.entry.behaviour.now) self.entry.template (length_of self.entry.peers) r.0) }
        ensures journal { IfOk result (λ r. HasJust (J.has r.1.journal self.entry.template) (J.is_torn r.1.journal self.entry.template) J.may_fail r.1.fault r.1.ticket.front) }
    {
        let ground = self.ground(rt, highest(entries))?;
        self.run_named::<Brand, R, J, T>(rt, ground, journal, entries, program)
    }

    /// Runs the crew over a desk of this ground, which N names, audits it, and closes the desk.
    fn run_named<N, R, J, T>(
        self,
        rt: &R,
        ground: Ground,
        journal: J,
        entries: &[Entry],
        program: T,
    ) -> Result<(CrewReport<T::Outcome, U::Outcome>, Closed<J>), LiveFault>
    where
        N: Name + Send + Sync,
        R: Threads + Wait + Clock + RandomSource + AllocGlobal + Sync,
        J: Journal + Drop + Send,
        T: Program<B> + Drop,
        requires name { (ground.press ≡ N.press) × (ground.template ≡ N.template) × (ground.sessions ≡ N.sessions) }
        requires journal { J.has journal N.template entries.now [] }
        ensures report { IfOk result (λ r. IsCrewReport (B.may_end self.entry.behaviour.now) N.template (length_of self.entry.peers) r.0) }
        ensures journal { IfOk result (λ r. HasJust (J.has r.1.journal N.template) (J.is_torn r.1.journal N.template) J.may_fail r.1.fault r.1.ticket.front) }
    {
        let (starter, crew) = self.with_starter(AlwaysRunning);
        let recovered = Desk::<N, S, &R, J>::recover(ground, rt, starter, journal, entries)?;
        crew.run_recovered(rt, recovered, program)
    }

    /// Runs the crew over the history in the file at this path, which is made if there is none, and which no other program has meanwhile.
    /// Children that are listed stay listed, unless [`Crew::keep_children`] said otherwise.
    pub fn run_in_file<R, T>(
        self,
        rt: &R,
        path: &str,
        flush: Flush,
        program: T,
    ) -> Result<
        (
            CrewReport<T::Outcome, U::Outcome>,
            Closed<FileJournal<R::File>>,
        ),
        LiveFault,
    >
    where
        R: Threads + Wait + Clock + RandomSource + AllocGlobal + Files + Sync,
        R::File: Send + LockFile,
        T: Program<B> + Drop,
        ensures { IfOk result (λ r. IsCrewReport (B.may_end self.entry.behaviour.now) self.entry.template (length_of self.entry.peers) r.0) }
    {
        let ground = self.ground(rt, highest_in(rt, path))?;
        match open_file(rt, rt.alloc(), path, OpenOptions::new().create(true)) {
            Ok(file) => self.run_file::<Brand, R, R::File, T>(rt, ground, file, flush, program),
            Err(fault) => {
                ground.close(rt);
                Err(fault.into())
            }
        }
    }

    /// Runs the crew over a desk of this ground, which N names, and the history in this file.
    fn run_file<N, R, F, T>(
        self,
        rt: &R,
        ground: Ground,
        file: Synced<F>,
        flush: Flush,
        program: T,
    ) -> Result<(CrewReport<T::Outcome, U::Outcome>, Closed<FileJournal<F>>), LiveFault>
    where
        N: Name + Send + Sync,
        R: Threads + Wait + Clock + RandomSource + AllocGlobal + Sync,
        F: Read + Write + OpenFile + Drop + Send,
        T: Program<B> + Drop,
        requires name { (ground.press ≡ N.press) × (ground.template ≡ N.template) × (ground.sessions ≡ N.sessions) }
        requires template { self.template ≡ N.template }
        ensures report { IfOk result (λ r. IsCrewReport (B.may_end self.entry.behaviour.now) N.template (length_of self.entry.peers) r.0) }
    {
        let template = self.template;
        let (starter, mut crew) = self.with_starter(AlwaysRunning);
        let keeps = Some(crew.plan.keeps.unwrap_or(true));
        crew.plan = Plan { keeps, ..crew.plan };
        let mut recovery: Recovery<N, &R> = Recovery::begin(ground, rt)?;
        let journal = continue_journal(rt.alloc(), file, &template, &mut recovery)?;
        let recovered = recovery.finish(starter, journal.with_flush(flush));
        crew.run_recovered(rt, recovered, program)
    }

    /// Runs the crew over this desk, whose callers it binds, and closes it.
    fn run_recovered<N, V, R, J, T>(
        self,
        rt: &R,
        recovered: Recovered<N, V, &R, J>,
        program: T,
    ) -> Result<(CrewReport<T::Outcome, U::Outcome>, Closed<J>), LiveFault>
    where
        N: Name + Send + Sync,
        V: Starter + Drop + Send + Sync,
        R: Threads + Wait + Clock + RandomSource + AllocGlobal + Sync,
        J: Journal + Drop + Send,
        T: Program<B> + Drop,
        ensures report { IfOk result (λ r. IsCrewReport (B.may_end self.entry.behaviour.now) N.template (length_of self.entry.peers) r.0) }
        ensures journal { IfOk result (λ r. HasJust (J.has r.1.journal N.template) (J.is_torn r.1.journal N.template) J.may_fail r.1.fault r.1.ticket.front) }
    {
        let Recovered { desk, callers, .. } = recovered;
        let (report, _) = self.run_over(rt, &desk, callers, program)?;
        Ok((report, desk.close()))
    }

    /// Runs the crew over a desk that was made by hand, whose template and starter hold in place of its own, until the program and all
    /// peers have returned: their clients start children, and the crew runs them, restarts those that crashed as the template says, tries
    /// failed restarts again, and ends those that were ended. Then the crew closes: it stops the supervisor, unless its children are kept,
    /// and every child is asked to end and is aborted at the latest when its grace is over. The program runs in the calling thread, and
    /// each peer in a thread of its own, each by a client of its own.
    ///
    /// The desk may have a journal. One that breaks off refuses the updates of all clients, and queries go on. If an update of the
    /// driver's is refused, for any cause but memory, the driver enters nothing more: every child is asked to end and is aborted as at a
    /// close, the report has the fault and the exits that were not entered, and the program runs until it returns.
    ///
    /// Each exit that the driver entered has a reason for which the behaviour's children may end, or one of the crew's own: `killed` of
    /// a child that was aborted, `not_run` of one that could not be run. So has each exit that the report says was left.
    ///
    /// Each child that was made has one exit: the driver entered it, or the report has it as left, or counts it
    /// among those that are owed; and there is no other exit. Each child that was started by the client of a handle that is returned, and
    /// each that was restarted by the driver's calls, is one of the children that were made.
    ///
    /// Children that the history lists when the run begins are of an earlier run. Each begins again under its number, with an empty
    /// mailbox, and is one of the children that were made. A restart that had failed is tried again.
    ///
    /// A run uses a handle of the desk for its driver, one for the program's client, one for each peer, and one for each client that a
    /// client makes: those of these callers, which were made before the run, and new ones once there are no more. So one run after another
    /// uses no more handles than the widest of them. Then the desk is audited by all of them, and by the callers that were not used. All of
    /// these handles are returned with the report, in the order of making, so the desk can be used and audited again; each may learn the
    /// audit's ticket. If memory is refused for the handle of a client, it is lost, and if it is refused for the list of them, those of the
    /// crew are; then there is no audit.
    ///
    /// # Errors
    /// Nothing was entered, neither the program nor a peer was run, and the handles are dropped: `OutOfMemory`; `BadWorkers`; `NoThread`;
    /// `NoHandle` and `NoPlace` if the desk has not as many handles as the driver, the program and the peers need.
    pub fn run_over<'d, N, V, Q, R, J, T>(
        self,
        rt: &R,
        desk: &'d Desk<N, V, Q, J>,
        before: Vec<DetachedHandle<N>>,
        program: T,
    ) -> Result<
        (
            CrewReport<T::Outcome, U::Outcome>,
            Vec<Handle<'d, N, V, Q, J>>,
        ),
        LiveFault,
    >
    where
        N: Name + Send + Sync,
        V: Starter + Drop + Send + Sync,
        Q: Wait + Drop + Send + Sync,
        R: Threads + Wait + Clock + RandomSource + AllocGlobal + Sync,
        J: Journal + Drop + Send,
        T: Program<B> + Drop,
        ensures report { IfOk result (λ r. IsReport (B.may_end self.entry.behaviour.now) N.template (length_of self.entry.peers) r.1.items r.0) }
        ensures press { IfOk result (λ r. IfSome r.0.audit (λ t. t.press ≡ N.press)) }
    {
        self.check_workers()?;
        let moments = match self.moments {
            Some(moments) => moments,
            None => Moments::from_now(rt),
        };
        let lookout = (moments, self.watcher);
        let (ledger, root) = Ledger::new(rt.alloc())?;
        self.run_office::<Brand, _, N, V, Q, R, J, T>(
            rt, desk, lookout, before, program, ledger, root,
        )
    }

    /// Runs the crew of an office, and audits its desk, whose earlier handles these are. All handles are returned.
    fn run_office<'d, I, L, N, V, Q, R, J, T>(
        self,
        rt: &R,
        desk: &'d Desk<N, V, Q, J>,
        lookout: L,
        before: Vec<DetachedHandle<N>>,
        program: T,
        ledger: Ledger,
        root: Account,
    ) -> Result<
        (
            CrewReport<T::Outcome, U::Outcome>,
            Vec<Handle<'d, N, V, Q, J>>,
        ),
        LiveFault,
    >
    where
        I: Office + Send + Sync,
        L: Lookout + Drop + Send + Sync,
        N: Name + Send + Sync,
        V: Starter + Drop + Send + Sync,
        Q: Wait + Drop + Send + Sync,
        R: Threads + Wait + Clock + RandomSource + AllocGlobal + Sync,
        J: Journal + Drop + Send,
        T: Program<B> + Drop,
        requires ledger { ledger.id ≡ I.ledger }
        requires workers { 0 < self.plan.workers }
        requires root { IsNew I.ledger (2 ^ 64 - 1) root }
        requires ends { I.may_end ≡ B.may_end self.behaviour.now }
        ensures report { IfOk result (λ r. IsReport (B.may_end self.entry.behaviour.now) N.template (length_of self.entry.peers) r.1.items r.0) }
        ensures press { IfOk result (λ r. IfSome r.0.audit (λ t. t.press ≡ N.press)) }
    {
        let (alloc, behaviour, plan) = (rt.alloc(), self.behaviour, self.plan);
        let timed = Timed {
            rt,
            lookout,
            of: PhantomData,
        };
        let peers = list_of(alloc, self.peers);
        let hub: Hub<B, Timed<&R, L, I>> = Hub::new(timed, alloc, ledger, &plan)?;
        let mut root = root;
        let Some(entered) = hub.ledger.split(&mut root) else {
            return Err(LiveFault::NoHandle);
        };
        let Some(restarted) = hub.ledger.split(&mut root) else {
            return Err(LiveFault::NoHandle);
        };
        // Each peer, and the program, has a handle before any thread begins.
        let clients = peers.len().saturating_add(1);
        let most = before.len().max(clients).saturating_add(1);
        let room = Vec::with_capacity(alloc, most)?;
        let told = Vec::with_capacity(alloc, most)?;
        let (handle, spare) = take_handles(rt, desk, before, clients)?;
        let driver = Driver::new(alloc, handle, entered, restarted, plan.retry_after)?;
        let yard: CrewYard<'_, B, Timed<&R, L, I>> = Yard::new(rt, &hub, behaviour, plan.workers)?;
        let ran = run_threads(
            desk,
            &yard,
            driver,
            root,
            spare,
            program,
            peers,
            plan.workers,
        );
        end_yard(yard);
        let (joined, clients) = ran?;
        Ok(conclude(alloc, desk, hub, joined, clients, room, told))
    }
}

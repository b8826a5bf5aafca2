//! The load: a crew over a desk, and readers that ask meanwhile.

ghost use Rattle.std.specs.Prelude.{◌≡◌, ◌≤◌, ℕ, List, [], Err, IfErr, IfOk, OnOk, true, vec_len};
ghost use Rattle.std.specs.Io.KnownBytes.{Appends};
ghost use Rattle.sup_load.specs.Loads.{fault_behind};
ghost use Rattle.sup_load.specs.Lines.{load_lines, named};
ghost use Rattle.sup_load.specs.Reports.{AreCounts, IsTold};
ghost use Rattle.sup_types.specs.declared.template.Template.{Template as ATemplate};
ghost use Rattle.sup_crew.specs.Reports.{IsRunOfItsOwn};
ghost use Rattle.sup_types.specs.declared.reason.Reason.TheVariants.{Normal};
ghost use Rattle.sup_types.specs.declared.text.Text.{Text as AText};
ghost use Rattle.sup_load.specs.declared.fault.LoadFault.TheVariants.{WriteFault};

use crate::fault::{LoadFault, StopFault};
use crate::progress::Progress;
use itoa::Buffer;
use std::alloc::{AllocError, Global};
use std::fs::{Files, OpenOptions};
use std::io::Write;
use std::marker::Brand;
use std::sync::Wait;
use std::thread;
use std::thread::{JoinHandle, Threads};
use sup_crew::{Body, Job, Plan, Reads, Report, Tally, read_turns, run_crew};
use sup_desk::{Asker, Desk, Ground, Handle, Journal, Name, NoJournal};
use sup_journal::{LockFile, Synced, TextJournal, Unknown, open_file};
use sup_log::Gone;
use sup_script::{ScriptStarter, WatchedWriter};
use sup_types::{Kind, Reason, Restart, Starter, Template, Text};
use sup_words::Load;

/// Counts what a load did.
#[derive(Clone, Copy)]
pub struct Sums {
    tally: Tally,
    left: usize,
    held: usize,
    waiting: usize,
    unposted: usize,
    unstarted: usize,
    reads: u64,
    fault: Option<StopFault>,
}

/// Ends at once.
struct EndsAtOnce;

impl Body for EndsAtOnce {
    ghost use Rattle.sup_types.specs.declared.reason.Reason.TheVariants.{Normal};

    ghost may_end = { λ body number arg reason. reason ≡ Normal };

    fn run<N: Name>(&self, _job: Job<N>, _asker: &mut Asker<N>) -> Reason {
        Reason::Normal
    }
}

impl Sums {
    /// Says of a run that broke off where the children are that its lines leave out.
    pub fn explain<E: Write>(&self, err: &mut E) {
        if self.fault.is_some() {
            let _ = writeln!(err, "  children that were not started: {}", self.unstarted);
            let _ = writeln!(err, "  exits that remain in the inbox: {}", self.waiting);
            let _ = writeln!(err, "  exits that could not be posted: {}", self.unposted);
        }
    }
}

/// Writes the two lines of a load, if there is a report. WriteFault: the writer refused, and a front of the lines is written. Else the
/// fault is that of the run, else of a reader; without a report it is the one that stopped the load, and nothing is written.
pub fn tell<W: Write>(
    outcome: Result<Sums, StopFault>,
    out: &mut WatchedWriter<W>,
) -> Result<(), LoadFault>
    ensures outcome { IsTold outcome (W.contents out.old.writer) (W.contents out.new.writer) out.new.has_refused result }
    ensures cause { result ≡ Err WriteFault → out.new.has_refused ≡ true }
{
    let sums = match outcome {
        Ok(sums) => sums,
        Err(fault) => return Err(LoadFault::Stopped(fault)),
    };
    write_lines(&sums, out)?;
    match sums.fault {
        Some(fault) => Err(LoadFault::Stopped(fault)),
        None => Ok(()),
    }
}

/// Writes the two lines of a report.
fn write_lines<W: Write>(sums: &Sums, out: &mut WatchedWriter<W>) -> Result<(), LoadFault>
    ensures lines { OnOk result (Appends (W.contents out.old.writer) (W.contents out.new.writer) (load_lines sums.now)) }
    ensures cause { IfErr result (λ f. (f ≡ WriteFault) × (out.new.has_refused ≡ true)) }
{
    write_number(out, "made ", sums.tally.made)?;
    write_number(out, " exits ", sums.tally.exits)?;
    write_number(out, " strays ", sums.tally.strays)?;
    write_number(out, " restarts ", sums.tally.restarts)?;
    write_number(out, " gave_up ", sums.tally.given_up)?;
    write_number(out, " left ", sums.left as u64)?;
    write_number(out, " held ", sums.held as u64)?;
    write_number(out, "\nreads ", sums.reads)?;
    write_text(out, "\n")?;
    Ok(())
}

/// Writes a number after its name.
fn write_number<W: Write>(
    out: &mut WatchedWriter<W>,
    name: &str,
    number: u64,
) -> Result<(), LoadFault>
    ensures lines { OnOk result (Appends (W.contents out.old.writer) (W.contents out.new.writer) (named name.now number)) }
    ensures cause { IfErr result (λ f. (f ≡ WriteFault) × (out.new.has_refused ≡ true)) }
{
    write_text(out, name)?;
    let mut digits = Buffer::new();
    write_text(out, digits.format(number))
}

/// Writes a text, or a front of it where the writer refuses, which is WriteFault.
pub fn write_text<W: Write>(out: &mut WatchedWriter<W>, text: &str) -> Result<(), LoadFault>
    ensures lines { OnOk result (Appends (W.contents out.old.writer) (W.contents out.new.writer) text.now) }
    ensures cause { IfErr result (λ f. (f ≡ WriteFault) × (out.new.has_refused ≡ true)) }
{
    match out.send(text.as_bytes()) {
        Ok(()) => Ok(()),
        Err(_) => Err(LoadFault::WriteFault),
    }
}

/// Runs a load.
#[derive(Drop)]
pub struct Runner<'r, R> {
    pub rt: &'r R,
    pub alloc: Global,
    pub load: Load,
    /// Whether a person reads standard error: then a line there says meanwhile how far the load is.
    pub is_person: bool,
}

impl<'r, R: Threads + Wait + Eprint + Sync> Runner<'r, R> {
    /// Runs the load, with a journal on a new file at this path, if there is one: each update is written there before it takes effect.
    pub fn measure(&self, journal: Option<&str>) -> Result<Sums, StopFault>
    where
        R: Files,
        R::File: Send + LockFile,
        ensures { IfOk result (λ s. (template : ATemplate) × AreCounts template s) }
    {
        let children = self.load.children;
        let template = Template::new(Restart::Temporary, Kind::Worker, 0, 5, children, 1 << 62)?;
        let Some(path) = journal else {
            return self.with_journal(template, NoJournal);
        };
        let file = open_file(
            self.rt,
            self.alloc,
            path,
            OpenOptions::new().create_new(true),
        )?;
        match TextJournal::<Unknown, Synced<R::File>, Global>::new(self.alloc, file, &template) {
            Ok(journal) => self.with_journal(template, journal),
            Err(not_begun) => Err(StopFault::from(not_begun.fault)),
        }
    }

    /// Runs the load with this journal, on a desk with a place for each thread that runs bodies, asks, drives, or informs a person.
    fn with_journal<J: Journal + Drop + Send>(
        &self,
        template: Template,
        journal: J,
    ) -> Result<Sums, StopFault>
        requires { J.has journal template [] [] }
        ensures { IfOk result (λ s. (template : ATemplate) × AreCounts template s) }
    {
        let places = self.load.workers + 1 + self.load.readers + usize::from(self.is_person);
        let ground = Ground::new(self.alloc, self.rt, template, places as u64)?;
        self.on_ground::<Brand, J>(ground, journal)
    }

    /// Runs the load with this journal on a desk of this ground, which N names.
    fn on_ground<N, J>(&self, ground: Ground, journal: J) -> Result<Sums, StopFault>
    where
        N: Name + Send + Sync,
        J: Journal + Drop + Send,
        requires name { (ground.press ≡ N.press) × (ground.template ≡ N.template) × (ground.sessions ≡ N.sessions) }
        requires journal { J.has journal N.template [] [] }
        ensures { IfOk result (λ s. AreCounts N.template s) }
    {
        let desk: Desk<N, ScriptStarter, &R, J> = Desk::with_journal(
            ground,
            self.rt,
            ScriptStarter,
            journal,
        );
        self.on_desk(&desk)
    }

    /// Runs the load on this desk, with a handle for each reader.
    fn on_desk<N, J>(&self, desk: &Desk<N, ScriptStarter, &R, J>) -> Result<Sums, StopFault>
    where
        N: Name + Send + Sync,
        J: Journal + Drop + Send,
        ensures { IfOk result (λ s. AreCounts N.template s) }
    {
        let mut handles = Vec::with_capacity(self.alloc, self.load.readers)?;
        for _ in 0..self.load.readers {
            if handles.push(desk.handle(self.rt)?).is_err() {
                return Err(StopFault::from(AllocError));
            }
        }
        let asker = if self.is_person {
            desk.asker(self.rt).ok()
        } else {
            None
        };
        self.beside_readers(desk, handles, asker)
    }

    /// Runs the crew while each of these handles, and the asker for a person, asks in a thread of its own.
    fn beside_readers<'d, N, J>(
        &self,
        desk: &'d Desk<N, ScriptStarter, &R, J>,
        handles: Vec<Handle<'d, N, ScriptStarter, &R, J>>,
        asker: Option<Asker<N>>,
    ) -> Result<Sums, StopFault>
    where
        N: Name + Send + Sync,
        J: Journal + Drop + Send,
        ensures { IfOk result (λ s. AreCounts N.template s) }
    {
        let progress = Progress::default();
        let told = &progress;
        let (rt, alloc, load) = (self.rt, self.alloc, self.load);
        thread::scope(
            thread::scope_env(),
            rt,
            move |scope| -> Result<Sums, StopFault>
                ensures { IfOk result (λ s. AreCounts N.template s) }
            {
                let plan = plan(alloc, load)?;
                let mut readers = Vec::with_capacity(alloc, handles.len())?;
                for handle in handles {
                    let mut handle = handle;
                    let Ok(reader) = scope.spawn(move || read_turns(&mut handle, load.turns)) else {
                        return Err(StopFault::from(AllocError));
                    };
                    if readers.push(reader).is_err() {
                        return Err(StopFault::from(AllocError));
                    }
                }
                // (if that can't be written, the load still runs)
                if let Some(mut asker) = asker {
                    let _ = scope.spawn(move || told.tell(rt, &mut asker, load.children));
                }
                let report = run_crew(rt, alloc, desk, &EndsAtOnce, plan);
                let asked = join_readers(rt, readers);
                told.end();
                Ok(sums_of(&report?, asked))
            },
        )
    }
}

/// Returns the plan of a crew: the children `c1`, `c2` and so on, as many as the load says.
fn plan(alloc: Global, load: Load) -> Result<Plan, AllocError>
    ensures { IfOk result (λ p. (p.workers ≡ load.workers) × (p.inbox ≡ 1024) × (p.turns ≡ 1000000000)) }
{
    let mut children = Vec::with_capacity(alloc, load.children as usize)?;
    for number in 1..=load.children {
        let name = format!(in alloc; "c{number}")?;
        if let Some(arg) = Text::new(name.as_bytes()) {
            children.push(arg)?;
        }
    }
    Ok(Plan {
        children,
        workers: load.workers,
        inbox: 1024,
        turns: 1_000_000_000,
        moment: 0,
    })
}

/// Returns how many questions were answered, and whether each was. A reader that was refused counts for nothing.
fn join_readers<R: Threads>(
    rt: &R,
    readers: Vec<JoinHandle<Result<Reads, Gone>>>,
) -> (u64, Result<(), Gone>) {
    let mut answered = 0u64;
    let mut outcome = Ok(());
    for reader in readers {
        match reader.join(rt) {
            Ok(reads) => answered = answered.saturating_add(reads.answered.count()),
            Err(gone) => outcome = Err(gone),
        }
    }
    (answered, outcome)
}

/// Returns what the report says, with the questions that were answered. The fault is the run's, else Gone if a reader was refused.
fn sums_of<N: Name>(report: &Report<N>, asked: (u64, Result<(), Gone>)) -> Sums
    ensures tally { result.tally ≡ report.now.tally }
    ensures sums { (moment : ℕ) (plan : List AText) → IsRunOfItsOwn (λ number arg reason. reason ≡ Normal) N.template N.press moment plan report.now →
        AreCounts N.template result }
    ensures fault { result.fault ≡ fault_behind report.now.fault asked.1 }
    ensures kept { (result.left ≡ vec_len report.now.left) × (result.held ≡ vec_len report.now.held) × (result.reads ≡ asked.0) }
    ensures posted { (result.waiting ≡ vec_len report.now.inbox) × (result.unposted ≡ vec_len report.now.unposted) × (result.unstarted ≡ vec_len report.now.unstarted) }
{
    let (reads, outcome) = asked;
    let fault = match (report.fault, outcome) {
        (Some(fault), _) => Some(StopFault::Update(fault)),
        (None, Err(_)) => Some(StopFault::Gone),
        (None, Ok(())) => None,
    };
    Sums {
        tally: report.tally,
        left: report.left.len(),
        held: report.held.len(),
        waiting: report.inbox.len(),
        unposted: report.unposted.len(),
        unstarted: report.unstarted.len(),
        reads,
        fault,
    }
}

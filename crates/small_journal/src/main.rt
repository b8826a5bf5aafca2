//! A supervisor that outlives its program: its history is in a file, and the next run continues from there. Each run starts one
//! session more.
#![tactic(auto)]

use anyhow::{Context, Result};
use std::fs::Files;
use std::sync::Wait;
use sup_desk::{Desk, DetachedHandle, JournaledProgram, Name};
use sup_journal::{FileJournal, Flush, on_desk_in_file};
use sup_types::{AlwaysRunning, Kind, Restart, Template, Text};

/// A journal in a file.
type Kept<R> = FileJournal<<R as Files>::File>;

/// The journal's file.
const PATH: &str = "sessions.txt";

/// Starts one session more.
#[derive(Drop)]
struct OneMore;

impl<R: Wait + Files + Print> JournaledProgram<AlwaysRunning, R, Kept<R>> for OneMore {
    type Outcome = Result<()>;

    /// Continues by the handle of the previous run, if there was one.
    fn run<N: Name + Send + Sync>(
        self,
        rt: &R,
        desk: &Desk<N, AlwaysRunning, &R, Kept<R>>,
        before: Vec<DetachedHandle<N>>,
    ) -> Result<()> {
        let mut before = before;
        let mut server = match before.pop() {
            Some(caller) => desk.bind(caller),
            None => desk.handle(rt)?,
        };
        let session = Text::new(b"session").context("no text")?;
        let started = server.start_child(rt, 0, session)?;
        println!(rt; "{:?}", started.reply)?;
        println!(rt; "{:?}", server.count_children()?)?;
        Ok(())
    }
}

fn main(rt: HostRuntime) -> Result<()> {
    let template = Template::new(Restart::Transient, Kind::Worker, 5, 10, 1000, 1 << 62)?;
    // An update is answered once its line is on the disk.
    let (outcome, closed) = on_desk_in_file(
        &rt,
        rt.alloc(),
        PATH,
        Flush::EachUpdate,
        template,
        1,
        AlwaysRunning,
        OneMore,
    )?;
    outcome?;
    match closed.fault {
        Some(fault) => Err(fault).context(PATH),
        None => Ok(()),
    }
}

//! A server of sessions: one child for each, which is started again after a crash, and a second handle that asks.
#![tactic(auto)]

use anyhow::{Context, Result};
use std::sync::Wait;
use sup_desk::{Desk, Handle, Name, Program, on_desk};
use sup_types::{AlwaysRunning, Kind, Reason, Restart, Template, Text};

/// The server. Its start function is `AlwaysRunning`, since its children need nothing that could be refused.
#[derive(Drop)]
struct Server;

impl<R: Wait + Print> Program<AlwaysRunning, R> for Server {
    type Outcome = Result<()>;

    /// Starts a session, lets it crash, and asks by another handle.
    fn run<N: Name + Send + Sync>(self, rt: &R, desk: &Desk<N, AlwaysRunning, &R>) -> Result<()> {
        let mut server = desk.handle(rt)?;
        let mut watcher = desk.handle(rt)?;
        open(rt, &mut server)?;
        crash(rt, &mut server, &mut watcher)
    }
}

/// Starts a session.
fn open<N: Name, R: Wait + Print>(
    rt: &R,
    server: &mut Handle<'_, N, AlwaysRunning, &R>,
) -> Result<()> {
    let session = Text::new(b"session-17").context("no text")?;
    let started = server.start_child(rt, 0, session)?;
    println!(rt; "{:?}", started.reply)?;
    Ok(())
}

/// Has the session crash. The watcher, which learns of it, sees that it runs again.
fn crash<N: Name, R: Wait + Print>(
    rt: &R,
    server: &mut Handle<'_, N, AlwaysRunning, &R>,
    watcher: &mut Handle<'_, N, AlwaysRunning, &R>,
) -> Result<()> {
    let ended = server.exit(rt, 1, 1, Reason::crash())?;
    println!(rt; "{:?}", ended.reply)?;

    watcher.learn(&ended.ticket)?;
    let child = watcher.child(2)?;
    println!(rt; "{child:?}")?;
    Ok(())
}

fn main(rt: HostRuntime) -> Result<()> {
    // Children are started again after a crash, at most 5 times within 10 seconds, and there are at most 1,000 of them. The
    // history has at most 2^62 entries.
    let template = Template::new(Restart::Transient, Kind::Worker, 5, 10, 1000, 1 << 62)?;
    // Two handles can be made.
    on_desk(&rt, rt.alloc(), template, 2, AlwaysRunning, Server)?
}

//! A live crew: the children of a shared supervisor run while others are started, sent to, ended and asked about.
//!
//! A [`Behaviour`] makes a child: a future of the kit's `futures`, which reads its [`Mailbox`] and is ready with the reason of its end. A
//! [`Crew`] runs a [`Program`] in the calling thread, and its peers in threads of their own, each by a client, of any type
//! `C: LiveClient<B>`. A driver enters the exits, runs children that were restarted under their new number, and tries failed restarts
//! again; few worker threads poll all children. When all programs have returned the crew closes, audits its history, and reports.
//!
//! ```text
//! let report = Crew::new(template, &Sessions).threads(4).watch(&figures).run(&rt, Server { host: &rt })?;
//! if report.adds_up() && report.is_audited() {
//!     // each child that was made has one exit, and the history is the calls of the crew's callers
//! }
//! ```
//!
//! A program learns of the crew's end by [`LiveClient::ended`], a child by [`Mailbox::why`], and a [`Watch`] of each entry. What a child
//! owned and nobody takes over is given to [`Behaviour::left`].
//!
//! # What is proved
//! An update by a client has the contract of a handle's, a query that of an asker's, and [`LiveClient::start_all`] that of a batch. What
//! the driver entered, and what became of each child and of each exit, [`CrewReport`] says ([`Crew::run_over`] has it in words).
//!
//! # What is on trust
//! The kit's executor, channels and threads: that a child is polled, that a message comes, that a thread wakes, that a crew closes. So no
//! contract says that a child ends: [`CrewReport::adds_up`] is whether no exit is owed.
//!
//! # What is only tested
//! Which threads an end wakes, and in time; why a child is asked to end; that each owned thing is given back, once; that the watcher
//! learns of each entry; rooms, limits of time, and memory that is refused in any thread.
//!
//! # How it is used
//! [`Crew::run`], [`Crew::run_recorded`] with a journal and [`Crew::run_in_file`] make a desk; [`Crew::run_over`] takes one that was made
//! by hand. Children that the history lists from an earlier run begin again under their numbers. Whoever runs a crew writes no proof.
#![tactic(auto)]

mod alive;
mod ask;
mod batch;
mod behaviour;
mod builder;
mod client;
mod clock;
mod crew_client;
mod driver;
mod ends;
mod host;
mod hub;
mod lead;
mod left;
mod mailbox;
mod peers;
mod plan;
mod registry;
mod report;
mod restarts;
mod run;
mod started;
mod threads;
mod watch;
mod yard;

pub use ask::{Answer, NotAnswered};
pub use behaviour::{Behaviour, End, Untaken};
pub use builder::Crew;
pub use client::{LiveClient, Nobody, Program, Queries};
pub use clock::{Moment, Moments};
pub use ends::{Cause, CrewState, Ended};
pub use mailbox::{ChildRef, Mailbox, Told, Unsent};
pub use peers::NotRun;
pub use plan::{LiveFault, Plan};
pub use report::{CrewReport, RunCaller};
pub use restarts::Tally;
pub use started::{Begun, NotStarted, Started, StartedAll};
pub use sup_exits::Exit;
pub use watch::{Count, Figures, Watch};

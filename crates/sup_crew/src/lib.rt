//! A crew over a shared supervisor: workers take jobs, run bodies and post how each child ended, and a driver starts the children,
//! drains the inbox and gives restarted children out again.
//!
//! # What is proved
//! The contract of [`run_crew_with`], which is lent the driver's handle. The report is what this handle entered during the run, all at the
//! plan's moment: starts of the first of the plan's children, and exits, each for a reason that the [`Body`] names for its child. Each child
//! that was made ended by one of these exits; or a note of its end is in the report, as held, in the inbox or not posted; or its job is
//! there, not run. A body's [`Asker`](sup_desk::Asker) makes no update, and has seen that the body's child was made.
//!
//! # What is on trust
//! The toolchain, and the contracts of the kit's ruled queue of `crossbeam_queue` and of `arrayvec`.
//!
//! # What is only tested
//! That each body is run, that a run ends, that workers run at the same time, and that a thread which waits sleeps.
//!
//! # How it is used
//! ```text
//! let plan = Plan { children, workers: 4, inbox: 64, turns: 1 << 20, moment: 0 };
//! let report = run_crew_with(&rt, rt.alloc(), &mut driver, &body, plan)?;
//! if let Some(fault) = report.fault {
//!     // report.unstarted was not started, and what did not end is in the report's lists
//! }
//! ```
//!
//! A [`Pool`] is a run over a desk of its own, in one call: `Pool::new(2, 5)?.run(&rt, &["a.png", "b.png"], &Upload)?`. The driver enters
//! starts and exits up to 64 at a time. A handle can drive any number of runs; [`run_crew`] makes one. A [`Drain`] can be used alone.
#![tactic(auto)]

mod asked;
mod closing;
mod crew;
mod drain;
mod driver;
mod fault;
mod job;
mod plan;
mod pool;
mod queue;
mod run;
mod turns;
mod worker;

pub use asked::Asked;
pub use drain::{Drain, DrainFault, Drained, HELD};
pub use driver::Tally;
pub use fault::{CrewFault, PoolFault};
pub use job::{Body, Job};
pub use plan::{Plan, Report};
pub use pool::{Pool, PoolReport, Work};
pub use run::{run_crew, run_crew_with};
pub use turns::{Reads, read_turns};

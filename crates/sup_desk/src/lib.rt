//! A desk: a supervisor that threads share by reference. Updates go one at a time through a book under a lock, and queries take no lock and
//! never wait. A desk may have a [`Journal`], which records each update before anyone sees it.
//!
//! # What is proved
//! - A [`Handle`] knows its number, the front of the history that it has seen, and its own calls. An update is entered at the end of one front,
//!   which begins with all that the handle had seen, learnt or done, and is answered as by a supervisor of one thread there. So is a query.
//! - A refused update leaves the history and every published answer as they were. A queue of operations is one publication.
//! - [`Desk::audit`] shows that the history is the calls of all handles and nothing else. [`Desk::recover`] and a [`Recovery`] continue just
//!   the history that a journal has recorded.
//!
//! # What is on trust
//! The toolchain, the contracts of the kit's `logbook` and `atomic_table`, and that an update's wait for running looks ends.
//!
//! # What is only tested
//! That [`on_desk`] makes its desk of what it is given, that calls which may wait return, and that no look is refused.
//!
//! # How it is used
//! A value behind a lock is known by its type alone. So the desk and its handles carry a type parameter `N: Name`. [`on_desk`] makes a desk,
//! picks its name and runs a [`Program`] on it, so that its caller writes no proof:
//!
//! ```text
//! impl<R: Wait> Program<AlwaysRunning, R> for Sessions {
//!     type Outcome = Result<u64, Fail>;
//!
//!     fn run<N: Name + Send + Sync>(self, rt: &R, desk: &Desk<N, AlwaysRunning, &R>) -> Self::Outcome {
//!         let mut first = desk.handle(rt)?;
//!         let mut second = desk.handle(rt)?;
//!         let done = first.start_child(rt, 0, self.arg)?;
//!         second.learn(&done.ticket)?;
//!         let counts = second.count_children()?;
//!         ..
//! ```
//!
//! A program with threads makes a [`Ground`], and then calls a function of its own that is generic in `N`, with std's `Brand` for `N`.
#![tactic(auto)]

mod asker;
mod book;
mod desk;
mod faults;
mod ground;
mod handle;
mod journal;
pub mod laws;
mod name;
mod program;
mod recovery;
mod sessions;

pub use asker::Asker;
pub use book::{Book, Closed};
pub use desk::{Desk, Recovered};
pub use faults::{DeskFault, HandleFault, QueryFault, TicketFault, UpdateFault};
pub use ground::Ground;
pub use handle::{DetachedHandle, Dones, Handle, HandleOf, Part};
pub use journal::{Journal, JournalFault, NoJournal};
pub use laws::{Done, Rest};
pub use name::Name;
pub use program::{JournaledProgram, Program, on_desk, on_journaled_desk};
pub use recovery::{RecoverFault, Recovery};

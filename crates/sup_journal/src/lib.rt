//! The text journal of a shared supervisor: each entry is in a file, or in memory, before anyone sees it.
//!
//! [`on_desk_in_file`] runs a program on a desk whose history is in a file, and continues it after a crash. [`open_journal`] enters each
//! entry of the whole lines, in memory that does not grow with the history, and cuts a torn last line off; [`continue_journal`] does so
//! with any file. One program at a time has a file ([`open_file`]), and [`begin_anew`] keeps an old history under another name.
//!
//! # What is proved
//! - Between two records, what the writer took is the text of the history so far, which is read back as this template and exactly these
//!   entries (`laws::one_history`), unless memory runs out (`laws::recorded_is_read`).
//! - If a writer refuses within a batch, its whole lines are the entries before and the first few of the batch, but not all
//!   (`laws::whole_lines`); if a flush fails, it has all (`laws::flush_failed`). Nothing more is recorded then.
//!
//! # What is on trust
//! The toolchain, and that a file holds what was written and synced.
//!
//! # What is only tested
//! When a journal flushes, what a crash leaves, that names are synced, and that a second program is kept away.
//!
//! # How it is used
//! ```text
//! let (outcome, closed) = on_desk_in_file(&rt, rt.alloc(), path, Flush::EachUpdate, template, 4, AlwaysRunning, Orders)?;
//! if let Some(fault) = closed.fault {
//!     // the journal broke off: the file has the history of `closed.ticket`, and perhaps entries that were refused
//! }
//! ```
//!
//! A program with a ground of its own gives [`open_journal`] a [`Recovery`](sup_desk::Recovery), and finishes that with the journal. For a
//! history that is not in a file there is [`TextJournal::new`], over any writer. [`read_journal`] reads the whole lines of a text.
#![tactic(auto)]

mod fault;
mod file;
mod flushing;
pub mod laws;
mod opening;
mod origin;
mod program;
mod send;
mod synced;
mod text_journal;

pub use fault::{Cause, NotBegun, OpenFault};
pub use file::{LockFile, begin_anew, open_file};
pub use flushing::Flush;
pub use opening::{FileJournal, continue_journal, open_journal, read_journal};
pub use origin::{Origin, Unknown};
pub use program::{NotOpened, on_desk_in_file};
pub use synced::Synced;
pub use text_journal::TextJournal;

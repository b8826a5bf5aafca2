//! Reads and writes scripts and histories: bytes to values and back, and no supervisor.
//!
//! A script is a header, which gives the template, and a line for each command: [`read_header`] and [`read_line`] read them. A history
//! text is a template and the entries of a history, with what the start function answered to each. [`read_history`] reads a whole one,
//! [`begin_history`] and [`next_entry`] one line by line, and an [`EntryReader`] one of any length; [`write_history`], or
//! [`append_header`] and [`append_entry`], write one. [`write_reply`] writes the text of a reply. One table for each type of words serves
//! reading, writing and [`find_syntax_error`], which says where a line is wrong. `sup_script` runs whole texts by these.
//!
//! # How it is used
//! ```text
//! let command = read_line(b"start 0 a").unwrap();
//! let mut text = Vec::new(rt.alloc());
//! write_reply(&Reply::Started(1), &mut text)?;
//! assert_eq!(rt; text.as_slice(), b"ok 1\n".as_slice());
//! ```
//!
//! # What is proved
//! - What a line means (`LineMeans`), what a history text spells (`Spells`), and the text of each reply (`Writing.Replies`).
//! - No header gives two templates, no line means two commands, and no history text spells two values, so what was written is read
//!   again ([`laws`]).
//! - A watched stream notes what it refused, so a fault has its cause, and an [`Outbox`] says which reply a failed write tore.
//!
//! # What is on trust
//! The toolchain, and what `itoa` and `memchr` state.
//!
//! # What is only tested
//! Which place of a line [`find_syntax_error`] names, what is expected there, and what a [`FaultyLine`] shows.
#![tactic(auto)]

mod fault;
mod faulty;
pub mod laws;
mod read;
mod spelled;
mod watch;
mod write;

pub use fault::{Fault, ScriptFault};
pub use faulty::FaultyLine;
pub use read::command::{Command, read_line};
pub use read::cursor::Cursor;
pub use read::entries::EntryReader;
pub use read::header::read_header;
pub use read::history::{
    History, HistoryFault, begin_history, check_entries, next_entry, read_history,
};
pub use read::input::{MOST_BYTES, PIECE, line_after, read_whole};
pub use read::lines::{ended_part, first_line};
pub use read::place::Place;
pub use read::syntax::{LineKind, find_syntax_error};
pub use read::words::{next_word, read_number, split_once};
pub use watch::{WatchedReader, WatchedWriter};
pub use write::history_text::{append_entry, append_header, write_history};
pub use write::outbox::Outbox;
pub use write::reply::{append_counts, append_refusal, append_reply, append_rows, write_reply};

//! Answers scripts and history texts: bytes in, the text of each reply out.
//!
//! [`run`] reads a script from any reader and writes the reply of each command to any writer. It streams: the lines that one read brought
//! are answered, and their replies written, before the next read, so whoever writes a script line by line has each answer at once, and
//! memory does not grow with the script. [`replay`] writes the reply to each entry of a history text from an empty supervisor, once all of
//! the text was read. [`replay_journal`] does so while it reads: a journal may be of any length, and its last line torn.
//! [`answer_input`] does what a program does with each of them. `sup_format` has the formats; what a caller needs of them is passed on.
//!
//! # How it is used
//! ```text
//! let script = b"sup permanent worker 1 5 10\nstart 0 a\nexit 1 1 normal\nwhich\n".as_slice();
//! let mut reader = WatchedReader::new(script);
//! let mut writer = WatchedWriter::new(Vec::new(rt.alloc()));
//! let ended = run(rt.alloc(), &mut reader, &mut writer, &ScriptStarter);
//! assert!(rt; ended == Ok(()));
//! assert_eq!(rt; writer.into_writer().as_slice(), b"ok 1\nrestarted 1 2\nchild 2 running a\nend 1\n".as_slice());
//! ```
//!
//! # What is proved
//! Which bytes were read and which text was written, in which line a fault is and which replies were written before it, why reading or
//! writing failed, and the exit status.
//!
//! # What is on trust
//! The toolchain, and that a file has the bytes that the system reads from it.
//!
//! # What is only tested
//! The text of an [`Explanation`] and of the other lines on the error stream, and what a [`Follower`] shows.
#![tactic(auto)]

mod explain;
mod runs;
mod starter;

pub use explain::{Explanation, Format};
pub use runs::answer::{Detail, Input, Status, answer_input};
pub use runs::follow::{Follower, follow_journal};
pub use runs::journal::replay_journal;
pub use runs::replays::replay;
pub use runs::script::run;
pub use starter::ScriptStarter;
pub use sup_format::{
    Command, EntryReader, Fault, History, HistoryFault, ScriptFault, WatchedReader, WatchedWriter,
    laws, read_history, read_line, read_number, write_history, write_reply,
};

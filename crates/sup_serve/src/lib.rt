//! A server of sessions in miniature: lines in, answers out, and a live crew of sessions between them.
//!
//! Each session is a child of a shared supervisor. It counts the texts that it is sent. One that crashed runs again under a new
//! number, with nothing counted, at most 5 times within 10 seconds. The calling thread reads the lines and has the one
//! client; queries take no lock. With a journal the sessions outlive the server.
//!
//! # What is proved
//! - Each function is safe. `serve` is `Ok` only if no read failed; `Read` and `Write` come only of a read or write that failed.
//! - The account says `every session is accounted for` only if no exit is owed and the history was audited.
//! - A session ends only as it was asked to, or by a crash.
//!
//! # What is on trust
//! The toolchain, and that threads run, messages come and files hold what was written.
//!
//! # What is only tested
//! What is answered, and what a killed server and a full disk leave: by stored cases of the program.
//!
//! # How it is used
//! ```text
//! let how = Serve { journal: Some("sessions"), is_anew: false, says_count: false };
//! serve(&rt, &how, &mut WatchedReader::new(stdin), &mut WatchedWriter::new(stdout))?;
//! ```
//!
//! The reader and the writer are watched, so that a fault says which of them failed. `sup_words` has [`Serve`](sup_words::Serve).
#![tactic(auto)]

mod account;
mod answers;
mod command;
mod fault;
mod lines;
mod server;
mod serving;
mod session;

pub use fault::ServeFault;
pub use serving::serve;

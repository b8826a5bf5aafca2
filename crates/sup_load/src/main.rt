//! `supload`: a supervisor at the command line. It answers a script, a history text or a journal, runs a crew beside readers, or
//! serves sessions. The whole program is [`program::run_words`], over any reader and writers.
#![tactic(auto)]

mod fault;
mod load;
mod program;
mod progress;

use program::run_words;
use std::io::IsTerminal;
use std::process::ExitCode;
use sup_script::{WatchedReader, WatchedWriter};
use sup_words::{refuse_words, words_given};

fn main(rt: HostRuntime) -> ExitCode {
    let mut err = rt.stderr();
    let is_person = err.is_terminal();
    let mut input = WatchedReader::new(rt.stdin());
    let mut out = WatchedWriter::new(rt.stdout());
    let status = match words_given(&rt) {
        Ok(words) => run_words(
            &rt,
            rt.alloc(),
            words.as_slice(),
            &mut input,
            &mut out,
            &mut err,
            is_person,
        ),
        Err(error) => refuse_words(&error, &mut err),
    };
    ExitCode::from(status.number())
}

//! The commands `script`, `replay` and `journal` of `supload`, in a program of their own. It stands on the crates of texts and of the
//! command line alone, so it is proved and built in minutes. The whole program is [`program::run_words`].
#![tactic(auto)]

mod program;

use program::run_words;
use std::io::IsTerminal;
use std::process::ExitCode;
use sup_script::{WatchedReader, WatchedWriter};
use sup_words::{refuse_words, words_given};

fn main(rt: HostRuntime) -> ExitCode {
    let mut err = rt.stderr();
    let is_person = err.is_terminal();
    let mut input = WatchedReader::new(rt.stdin());
    let mut out = WatchedWriter::new(rt.stdout());
    let status = match words_given(&rt) {
        Ok(words) => run_words(
            &rt,
            rt.alloc(),
            words.as_slice(),
            &mut input,
            &mut out,
            &mut err,
            is_person,
        ),
        Err(error) => refuse_words(&error, &mut err),
    };
    ExitCode::from(status.number())
}

//! The words of the command line.

ghost use Rattle.std.specs.Prelude.{◌≡◌, ℕ, List, [], ◌∷◌, None, Some, MatchOption, codes, map};
ghost use Rattle.clap.specs.Kinds.{IsAmong};
ghost use Rattle.clap.specs.Walk.{first_of};
ghost use Rattle.clap.specs.Words.{found_of, kind_of, rows_of, subcommand_rows_of};
ghost use Rattle.clap.specs.declared.error.kind.ErrorKind.TheVariants.{InvalidSubcommand, OutOfMemory};
ghost use Rattle.sup_words.specs.Ranges.{IsWithin};
ghost use Rattle.sup_words.specs.Orders.{AreNumbers, Command as ACommand, IsDetail, IsFlag, IsJournalAt, IsLoadOf, IsOrder, IsPath, IsSource, IsTextOf, WordsLeadTo};
ghost use Rattle.sup_words.specs.declared.words.Order.{Order as AnOrder};
ghost use Rattle.sup_words.specs.Settings.{Given, IsWhole, words_of};
ghost use Rattle.sup_script.specs.declared.runs.answer.Input.TheVariants as input;

use crate::build::command;
use crate::load::Load;
use clap::error::{Error, ErrorKind};
use clap::{ArgMatches, Command};
use std::alloc::{AllocGlobal, Global};
use std::convert::AsStr;
use std::rt::Env;
use std::{env, io};
use sup_script::{Detail, Input};

/// Says what the program is asked to do.
#[derive(Clone, Copy, Debug, PartialEq, Eq)]
pub enum Order<'a> {
    /// To answer a script, a history text or a journal, and to say so much of a fault.
    Text(Input<'a>, Detail),
    /// To show the journal at this path, and what comes to it.
    Follow(&'a str),
    /// To run a crew beside readers, with a journal on the file at this path, if there is one, and to say so much of a fault.
    Load(Load, Option<&'a str>, Detail),
    /// To serve sessions.
    Serve(Serve<'a>),
}

/// Says how sessions are served.
#[derive(Clone, Copy, Debug, PartialEq, Eq)]
pub struct Serve<'a> {
    /// The path of the journal, if there is one.
    pub journal: Option<&'a str>,
    /// Whether a new history begins in the journal.
    pub is_anew: bool,
    /// Whether the server says by itself how many sessions there are.
    pub says_count: bool,
}

/// Returns the words of the command line, the program's name first. InvalidData: a word is not UTF-8.
pub fn words_given(rt: &(impl Env + AllocGlobal)) -> io::Result<Vec<String>> {
    Ok(env::args(rt)?.collect(rt.alloc())?)
}

/// Reads the words of the command line, of which the first is the program's name. A help text, the version and words that
/// are refused are an error of `clap`, which says where it is to be written.
pub fn read_words<'a, S: AsStr>(alloc: Global, words: &'a [S]) -> Result<Order<'a>, Error>
    ensures script { (name : List ℕ) → map S.text words.now ≡ name ∷ codes "script" ∷ [] → IsTextOf (input.Script None) result }
    ensures replay { (name : List ℕ) → map S.text words.now ≡ name ∷ codes "replay" ∷ [] → IsTextOf (input.History None) result }
    ensures words { WordsLeadTo (map S.text words.now) result }
    ensures load { (name : List ℕ) (given : Given) (w n r t : ℕ) → IsWhole given w n r t → map S.text words.now ≡ name ∷ codes "load" ∷ words_of given
        → IsLoadOf w n r t result }
{
    lead(alloc, words)
}

/// Reads the words by the grammar.
fn lead<'a, S: AsStr>(alloc: Global, words: &'a [S]) -> Result<Order<'a>, Error>
    ensures { WordsLeadTo (map S.text words.now) result }
{
    let matches = command(alloc)?.try_get_matches_from(words)?;
    match read_matches(&matches) {
        Some(order) => Ok(order),
        None => Err(refused(alloc)),
    }
}

/// Returns the order that `clap` found among the words, if it is one.
fn read_matches<'a>(matches: &ArgMatches<'a>) -> Option<Order<'a>>
    ensures { MatchOption result ((o : AnOrder) → IsOrder (subcommand_rows_of matches.now) o → ⊥) (IsOrder (subcommand_rows_of matches.now)) }
{
    match matches.subcommand()? {
        ("script", words) => {
            let file = read_file(words);
            Some(Order::Text(Input::Script(file), read_detail(words)))
        }
        ("replay", words) => {
            let file = read_file(words);
            Some(Order::Text(Input::History(file), read_detail(words)))
        }
        ("journal", words) => Some(read_journal(words, journal_at(read_path(words, "file")?))),
        ("load", words) => {
            let journal = read_path(words, "journal");
            Some(Order::Load(read_load(words)?, journal, read_detail(words)))
        }
        ("serve", words) => Some(Order::Serve(Serve {
            journal: read_path(words, "journal"),
            is_anew: read_flag(words, "anew"),
            says_count: read_flag(words, "status"),
        })),
        _ => None,
    }
}

/// Makes the error of words that are no order, though `clap` took them, or `OutOfMemory`.
fn refused(alloc: Global) -> Error
    ensures { IsAmong (kind_of result) (InvalidSubcommand ∷ OutOfMemory ∷ []) }
{
    let mut command = Command::new(alloc, "supload");
    match command.error(ErrorKind::InvalidSubcommand, "there is no such command") {
        Ok(error) => error,
        Err(error) => Error::from(error),
    }
}

/// Returns what is asked for of the journal at this path.
fn read_journal<'a>(words: &ArgMatches<'a>, path: &'a str) -> Order<'a>
    ensures { (command : ACommand) → command ≡ Some (codes "journal", rows_of (found_of words.now)) →
        IsJournalAt (first_of (codes "file") (rows_of (found_of words.now))) path.entry.now → IsOrder command result }
{
    if read_flag(words, "follow") {
        Order::Follow(path)
    } else {
        Order::Text(Input::Journal(path), read_detail(words))
    }
}

/// Returns how much is to be written of a fault.
fn read_detail(words: &ArgMatches) -> Detail
    ensures { IsDetail (rows_of (found_of words.now)) result }
{
    if read_flag(words, "explain") {
        Detail::Explained
    } else {
        Detail::Number
    }
}

/// Returns whether the flag of this name was given.
fn read_flag(words: &ArgMatches, name: &str) -> bool
    ensures { IsFlag (rows_of (found_of words.now)) name.now result }
{
    words.get_flag(name)
}

/// Returns the numbers of a load. `clap` has read them within their ranges.
fn read_load(words: &ArgMatches) -> Option<Load>
    ensures { MatchOption result
        ((w n r t : ℕ) → AreNumbers (rows_of (found_of words.now)) w n r t → IsWithin w n r t → ⊥)
        (λ load. AreNumbers (rows_of (found_of words.now)) load.workers load.children load.readers load.turns) }
{
    let workers = words.get_one("workers")?;
    let children = words.get_one("children")?;
    let readers = words.get_one("readers")?;
    let turns = words.get_one("turns")?;
    Load::new(workers, children, readers, turns)
}

/// Returns the file that is to be read, or None for standard input, which is also meant by `-`.
fn read_file<'a>(words: &ArgMatches<'a>) -> Option<&'a str>
    ensures { IsSource (first_of (codes "file") (rows_of (found_of words.now))) result }
{
    let file = read_path(words, "file")?;
    if file == "-" { None } else { Some(file) }
}

/// Returns where a journal is read that this word names: a journal is read from a file, so standard input is opened as one.
fn journal_at(file: &str) -> &str
    ensures { IsJournalAt (Some file.now) result.now }
{
    if file == "-" { "/dev/stdin" } else { file }
}

/// Returns the path that has this name, if it was given.
fn read_path<'a>(words: &ArgMatches<'a>, name: &str) -> Option<&'a str>
    ensures { IsPath (rows_of (found_of words.now)) name.now result }
{
    words.get_str(name)
}

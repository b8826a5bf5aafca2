//! The grammar of the command line, as `clap` is told it.

ghost use Rattle.std.specs.Prelude.{◌≡◌, IfOk, false};
ghost use Rattle.clap.specs.Words.{app_of, rule_of};
ghost use Rattle.clap.specs.declared.builder.command.Command.TheViews.{out-Command as fields_of};
ghost use Rattle.sup_words.specs.Grammar.{explained_app, file_rule, flag_rule, journal_app, journal_rule, load_app, number_rule, serve_app, supload_app, text_app};

use crate::help::{
    ABOUT, ANEW, CHILDREN, FAULTS, FOLLOW, JOURNAL, JOURNAL_FILE, JOURNAL_HELP, KEPT_FILE, LOAD,
    LOAD_FAULTS, LOAD_HELP, NEW_FILE, READERS, REPLAY, REPLAY_HELP, SAYS_COUNT, SCRIPT,
    SCRIPT_HELP, SERVE, SERVE_FAULTS, SERVE_HELP, STATUSES, TEXT_FILE, TURNS, VERSION, WORKERS,
};
use clap::builder::ValueParser;
use clap::{Arg, ArgAction, Command};
use std::alloc::{AllocError, Global};

/// Builds the option that takes the path of a journal.
fn journal<'a>(alloc: Global, help: &'a str) -> Arg<'a>
    ensures rule { rule_of result ≡ journal_rule }
    ensures local { result.global ≡ false }
{
    Arg::new(alloc, "journal")
        .long("journal")
        .value_name("FILE")
        .help(help)
        .action(ArgAction::Set)
}

/// Builds an option without a value.
fn flag<'a>(alloc: Global, name: &'a str, help: &'a str) -> Arg<'a>
    ensures rule { rule_of result ≡ flag_rule name.entry.now }
    ensures local { result.global ≡ false }
{
    Arg::new(alloc, name)
        .long(name)
        .help(help)
        .action(ArgAction::SetTrue)
}

/// Builds an argument that is the path of a file.
fn file<'a>(alloc: Global, help: &'a str, required: bool) -> Arg<'a>
    ensures rule { rule_of result ≡ file_rule required }
    ensures local { result.global ≡ false }
{
    Arg::new(alloc, "file")
        .value_name("FILE")
        .help(help)
        .required(required)
        .action(ArgAction::Set)
}

/// Builds an option that has to be given, with a number of this range.
fn number<'a>(
    alloc: Global,
    name: &'a str,
    value: &'a str,
    help: &'a str,
    range: (u64, u64),
) -> Arg<'a>
    ensures rule { rule_of result ≡ number_rule name.entry.now range.0 range.1 }
    ensures local { result.global ≡ false }
{
    Arg::new(alloc, name)
        .long(name)
        .value_name(value)
        .help(help)
        .required(true)
        .action(ArgAction::Set)
        .value_parser(ValueParser::unsigned(range.0, range.1))
}

/// Builds the command that runs a load.
fn load_command<'a>(alloc: Global) -> Result<Command<'a>, AllocError>
    ensures { IfOk result (λ c. (app_of c ≡ load_app) × ((fields_of c).has_globals ≡ false)) }
{
    Command::new(alloc, "load")
        .about(LOAD)
        .long_about(LOAD_HELP)
        .after_help(LOAD_FAULTS)
        .arg(number(alloc, "workers", "W", WORKERS, (1, 64)))?
        .arg(number(alloc, "children", "N", CHILDREN, (1, 65_536)))?
        .arg(number(alloc, "readers", "R", READERS, (0, 64)))?
        .arg(number(alloc, "turns", "T", TURNS, (1, 1_000_000)))?
        .arg(journal(alloc, NEW_FILE))?
        .arg(flag(alloc, "explain", "Explains a fault"))
}

/// Builds a command that answers a text, with a short and a long help text, but for its file.
fn text_command<'a>(
    alloc: Global,
    name: &'a str,
    about: (&'a str, &'a str),
) -> Result<Command<'a>, AllocError>
    ensures { IfOk result (λ c. (app_of c ≡ explained_app name.entry.now) × ((fields_of c).has_globals ≡ false)) }
{
    Command::new(alloc, name)
        .about(about.0)
        .long_about(about.1)
        .after_help(FAULTS)
        .arg(flag(alloc, "explain", "Explains a fault in a line"))
}

/// Builds a command that answers a text in a file or of standard input.
fn input_command<'a>(
    alloc: Global,
    name: &'a str,
    about: (&'a str, &'a str),
) -> Result<Command<'a>, AllocError>
    ensures { IfOk result (λ c. (app_of c ≡ text_app name.entry.now) × ((fields_of c).has_globals ≡ false)) }
{
    text_command(alloc, name, about)?.arg(file(alloc, TEXT_FILE, false))
}

/// Builds the command that answers or follows a journal.
fn journal_command<'a>(alloc: Global) -> Result<Command<'a>, AllocError>
    ensures { IfOk result (λ c. (app_of c ≡ journal_app) × ((fields_of c).has_globals ≡ false)) }
{
    text_command(alloc, "journal", (JOURNAL, JOURNAL_HELP))?
        .arg(flag(alloc, "follow", FOLLOW))?
        .arg(file(alloc, JOURNAL_FILE, true))
}

/// Builds the command that serves sessions.
fn serve_command<'a>(alloc: Global) -> Result<Command<'a>, AllocError>
    ensures { IfOk result (λ c. (app_of c ≡ serve_app) × ((fields_of c).has_globals ≡ false)) }
{
    Command::new(alloc, "serve")
        .about(SERVE)
        .long_about(SERVE_HELP)
        .after_help(SERVE_FAULTS)
        .arg(flag(alloc, "status", SAYS_COUNT))?
        .arg(journal(alloc, KEPT_FILE))?
        .arg(flag(alloc, "anew", ANEW))
}

/// Builds the whole command line, with its five commands.
pub(crate) fn command<'a>(alloc: Global) -> Result<Command<'a>, AllocError>
    ensures { IfOk result (λ c. app_of c ≡ supload_app) }
{
    Command::new(alloc, "supload")
        .bin_name("supload")?
        .about(ABOUT)
        .version(VERSION)
        .after_help(STATUSES)
        .subcommand_required(true)
        .subcommand(input_command(alloc, "script", (SCRIPT, SCRIPT_HELP))?)?
        .subcommand(input_command(alloc, "replay", (REPLAY, REPLAY_HELP))?)?
        .subcommand(journal_command(alloc)?)?
        .subcommand(load_command(alloc)?)?
        .subcommand(serve_command(alloc)?)
}

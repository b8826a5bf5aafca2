//! The words that spell values: one table for each type, from which lines are read, written and explained.

ghost use Rattle.std.specs.Prelude.{◌≡◌, ◌≢◌, MatchOption};
ghost use Rattle.sup_types.specs.declared.reason.Reason.{Reason as AReason};
ghost use Rattle.sup_format.specs.Reading.Tokens.{IsReason, IsWordOf, reason_word};

use sup_types::{AutoShutdown, Kind, Reason, Restart, Text, Word};

/// Spells [`Reason::Normal`](sup_types::Reason).
pub const NORMAL: &str = "normal";

/// Spells [`Reason::Shutdown`](sup_types::Reason).
pub const SHUTDOWN: &str = "shutdown";

/// Begins the word of [`Reason::ShutdownWith`](sup_types::Reason), before its text.
pub const SHUTDOWN_WITH: &str = "shutdown:";

/// Spells each value of a type by one word.
pub trait Spelled: Copy {
    ghost use Rattle.std.specs.Prelude.{◌≡◌, ℕ, List, Contains};

    /// Gives the word of a value.
    ghost spelled: { Self → List ℕ };

    /// Returns all values, in the order in which they are explained.
    fn values() -> &'static [Self]
        ensures { (value : Self) → Contains result.now value };

    /// Returns the word of a value.
    fn word(self) -> &'static str
        ensures { result.now ≡ spelled self };
}

/// Returns the value that a word spells.
pub fn read_value<X: Spelled + 'static>(word: &[u8]) -> Option<X>
    ensures { IsWordOf X.spelled word.now result }
{
    for value in X::values() {
        if value.word().as_bytes() == word {
            return Some(*value);
        }
    }
    None
}

/// Returns the reason that a word is.
pub fn read_reason(word: &[u8]) -> Option<Reason>
    ensures { MatchOption result ((reason : AReason) → IsReason reason → word.now ≢ reason_word reason)
        (λ reason. IsReason reason × (word.now ≡ reason_word reason)) }
{
    if word == NORMAL.as_bytes() {
        return Some(Reason::Normal);
    }
    if word == SHUTDOWN.as_bytes() {
        return Some(Reason::Shutdown);
    }
    match word.strip_prefix(SHUTDOWN_WITH.as_bytes()) {
        Some(term) => Some(Reason::ShutdownWith(Text::new(term)?)),
        None => Some(Reason::Other(Word::new(word)?)),
    }
}

impl Spelled for Restart {
    ghost use Rattle.sup_format.specs.Reading.Tokens.{restart_word};

    ghost spelled = { restart_word };

    fn values() -> &'static [Restart] {
        &[Restart::Permanent, Restart::Transient, Restart::Temporary]
    }

    fn word(self) -> &'static str {
        match self {
            Restart::Permanent => "permanent",
            Restart::Transient => "transient",
            Restart::Temporary => "temporary",
        }
    }
}

impl Spelled for Kind {
    ghost use Rattle.sup_format.specs.Reading.Tokens.{kind_word};

    ghost spelled = { kind_word };

    fn values() -> &'static [Kind] {
        &[Kind::Worker, Kind::Supervisor]
    }

    fn word(self) -> &'static str {
        match self {
            Kind::Worker => "worker",
            Kind::Supervisor => "supervisor",
        }
    }
}

/// Says whether the children are significant.
impl Spelled for bool {
    ghost use Rattle.sup_format.specs.Reading.Tokens.{mark_word};

    ghost spelled = { mark_word };

    fn values() -> &'static [bool] {
        &[false, true]
    }

    fn word(self) -> &'static str {
        if self { "significant" } else { "plain" }
    }
}

impl Spelled for AutoShutdown {
    ghost use Rattle.sup_format.specs.Reading.Tokens.{auto_word};

    ghost spelled = { auto_word };

    fn values() -> &'static [AutoShutdown] {
        &[AutoShutdown::Never, AutoShutdown::Any, AutoShutdown::All]
    }

    fn word(self) -> &'static str {
        match self {
            AutoShutdown::Never => "never",
            AutoShutdown::Any => "any",
            AutoShutdown::All => "all",
        }
    }
}

/// Names an operation.
#[derive(Clone, Copy)]
pub enum Verb {
    Start,
    Exit,
    Retry,
    Terminate,
    Stop,
}

impl Spelled for Verb {
    ghost use Rattle.sup_format.specs.Reading.Tokens.{verb_word};

    ghost spelled = { verb_word };

    fn values() -> &'static [Verb] {
        &[
            Verb::Start,
            Verb::Exit,
            Verb::Retry,
            Verb::Terminate,
            Verb::Stop,
        ]
    }

    fn word(self) -> &'static str {
        match self {
            Verb::Start => "start",
            Verb::Exit => "exit",
            Verb::Retry => "retry",
            Verb::Terminate => "terminate",
            Verb::Stop => "stop",
        }
    }
}

/// Names a command that enters nothing.
#[derive(Clone, Copy)]
pub enum Query {
    Which,
    Count,
    TerminateId,
    DeleteChild,
    RestartChild,
}

impl Spelled for Query {
    ghost use Rattle.sup_format.specs.Reading.Lines.{query_word};

    ghost spelled = { query_word };

    fn values() -> &'static [Query] {
        &[
            Query::Which,
            Query::Count,
            Query::TerminateId,
            Query::DeleteChild,
            Query::RestartChild,
        ]
    }

    fn word(self) -> &'static str {
        match self {
            Query::Which => "which",
            Query::Count => "count",
            Query::TerminateId => "terminate_id",
            Query::DeleteChild => "delete_child",
            Query::RestartChild => "restart_child",
        }
    }
}

/// Names what a start function answered.
#[derive(Clone, Copy)]
pub enum AnswerName {
    Running,
    Ignore,
    Failed,
}

impl Spelled for AnswerName {
    ghost use Rattle.sup_format.specs.Reading.History.{answer_word};

    ghost spelled = { answer_word };

    fn values() -> &'static [AnswerName] {
        &[AnswerName::Running, AnswerName::Ignore, AnswerName::Failed]
    }

    fn word(self) -> &'static str {
        match self {
            AnswerName::Running => "running",
            AnswerName::Ignore => "ignore",
            AnswerName::Failed => "failed",
        }
    }
}

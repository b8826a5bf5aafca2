//! What is expected at a place of a line.

use crate::spelled::{AnswerName, NORMAL, Query, SHUTDOWN, SHUTDOWN_WITH, Spelled, Verb};
use std::fmt;
use sup_types::{AutoShutdown, Kind, Restart};

/// Names a place of a line. It is shown as what is expected there.
#[derive(Clone, Copy)]
pub enum Place {
    Sup,
    History,
    Version,
    Restart,
    Kind,
    Intensity,
    Period,
    Rows,
    Mark,
    Auto,
    Command,
    Moment,
    Child,
    Text,
    Reason,
    Handle,
    Serial,
    Operation,
    Answer,
    Code,
    End,
}

impl fmt::Display for Place {
    fn fmt<W: fmt::Write>(&self, f: &mut fmt::Formatter<W>) -> fmt::Result {
        match self {
            Place::Sup => f.write_str("`sup`, with which the header of a script begins"),
            Place::History => f.write_str("`history`, with which a history text begins"),
            Place::Version => f.write_str("the version, `1` or `2`"),
            Place::Restart => choose::<Restart, W>(f, "a restart type: ", " or "),
            Place::Kind => choose::<Kind, W>(f, "a kind: ", " or "),
            Place::Intensity => f.write_str("the intensity: a number from 0 to 1000"),
            Place::Period => f.write_str("the period in seconds: a number from 1 to 86400"),
            Place::Rows => f.write_str("the most rows: a number from 1 to 65536"),
            Place::Mark => choose::<bool, W>(f, "a mark: ", " or "),
            Place::Auto => choose::<AutoShutdown, W>(f, "an automatic shutdown: ", " or "),
            Place::Command => {
                choose::<Verb, W>(f, "a command: ", ", ")?;
                choose::<Query, W>(f, ", ", " or ")
            }
            Place::Moment => f.write_str("a moment: a number of seconds"),
            Place::Child => f.write_str("the number of a child"),
            Place::Text => f.write_str("a text: 1 to 40 visible characters of ASCII"),
            Place::Reason => write!(
                f,
                "a reason: `{NORMAL}`, `{SHUTDOWN}`, `{SHUTDOWN_WITH}TEXT` or another text"
            ),
            Place::Handle => f.write_str("the number of a handle"),
            Place::Serial => f.write_str("a serial: how many entries the handle had made"),
            Place::Operation => choose::<Verb, W>(f, "an operation: ", " or "),
            Place::Answer => {
                choose::<AnswerName, W>(f, "an answer: ", " or ")?;
                f.write_str(" CODE")
            }
            Place::Code => f.write_str("a code: a number from 0 to 4294967295"),
            Place::End => f.write_str("the end of the line"),
        }
    }
}

/// Writes the words of a type's values after these first words, with `last` before the last one.
fn choose<X: Spelled + 'static, W: fmt::Write>(
    f: &mut fmt::Formatter<W>,
    first: &str,
    last: &str,
) -> fmt::Result {
    let mut before = first;
    let mut left = X::values().len();
    for value in X::values() {
        let word = value.word();
        write!(f, "{before}`{word}`")?;
        left = left.saturating_sub(1);
        before = if left == 1 { last } else { ", " };
    }
    Ok(())
}

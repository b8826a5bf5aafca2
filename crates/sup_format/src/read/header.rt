//! The first lines of texts.

ghost use Rattle.std.specs.Prelude.{◌≡◌, ◌++◌, ◌↔◌, IsOk, IfOk, MatchOption};
ghost use Rattle.sup_format.specs.Reading.Words.{words_left};
ghost use Rattle.sup_format.specs.Reading.Headers.{AreHeaderWords, HasFirst, HasParts, GivesTemplate, IsPlain, FitsParts, CanStand, IsTemplateOf, limit_words, shutdown_words, HasNoLimits, HasNoShutdown};

use crate::fault::Fault;
use crate::read::cursor::Cursor;
use crate::read::place::Place;
use sup_types::{AutoShutdown, BadTemplate, Kind, Restart, Template};

/// Bounds the entries of a template that a text gives: 2^62.
const MOST_ENTRIES: u64 = 1 << 62;

/// Holds the parts of a template as a first line names them, in their ranges or not.
#[derive(Clone, Copy)]
pub struct Parts {
    pub restart: Restart,
    pub kind: Kind,
    pub intensity: u64,
    pub period: u64,
    pub max: u64,
    pub significant: bool,
    pub auto_shutdown: AutoShutdown,
}

impl Parts {
    /// Returns the template of these parts, if there is one.
    pub fn template(self) -> Result<Template, BadTemplate>
        ensures variant { IsOk result ↔ CanStand self }
        ensures value { IfOk result (λ t. IsTemplateOf t self) }
    {
        let template = Template::new(
            self.restart,
            self.kind,
            self.intensity,
            self.period,
            self.max,
            MOST_ENTRIES,
        )?;
        template.with_shutdown(self.significant, self.auto_shutdown)
    }

    /// Returns the place of the first number that no template has, or else that of the mark, and how many words it comes after the
    /// restart type.
    pub fn unfit(self) -> (Place, usize) {
        if self.intensity > 1000 {
            (Place::Intensity, 2)
        } else if !(1..=86_400).contains(&self.period) {
            (Place::Period, 3)
        } else if !(1..=65_536).contains(&self.max) {
            (Place::Rows, 4)
        } else {
            (Place::Mark, 5)
        }
    }
}

/// Returns the template of a script's header, or BadLine or BadTemplate.
pub fn read_header(line: &[u8]) -> Result<Template, Fault>
    ensures { HasFirst AreHeaderWords line.now result }
{
    template_of(read_parts(&mut Cursor::new(line)))
}

/// Returns the template of the parts that a first line names. BadLine if it names none, BadTemplate if no template has them.
pub fn template_of(parts: Option<Parts>) -> Result<Template, Fault>
    ensures { GivesTemplate parts result }
{
    Ok(parts.ok_or(Fault::BadLine)?.template()?)
}

/// Returns the parts that the words of a header name.
pub fn read_parts(words: &mut Cursor<'_>) -> Option<Parts>
    ensures { HasParts AreHeaderWords (words_left words.old.rest) result }
{
    words.word(Place::Sup, b"sup")?;
    let parts = read_limits(words)?;
    if words.rest.is_some() {
        return read_shutdown(parts, words);
    }
    Some(parts)
}

/// Returns restart, kind, intensity, period and max. Such children are not significant.
pub fn read_limits(words: &mut Cursor<'_>) -> Option<Parts>
    ensures { MatchOption result (HasNoLimits (words_left words.old.rest))
        (λ parts. FitsParts parts × IsPlain parts × (words_left words.old.rest ≡ limit_words parts ++ words_left words.new.rest)) }
{
    Some(Parts {
        restart: words.value(Place::Restart)?,
        kind: words.value(Place::Kind)?,
        intensity: words.number(Place::Intensity)?,
        period: words.number(Place::Period)?,
        max: words.number(Place::Rows)?,
        significant: false,
        auto_shutdown: AutoShutdown::Never,
    })
}

/// Returns these parts with the mark and the automatic shutdown that the last two words are.
pub fn read_shutdown(parts: Parts, words: &mut Cursor<'_>) -> Option<Parts>
    ensures { MatchOption result (HasNoShutdown (words_left words.old.rest))
        (λ whole. (whole ≡ record parts { significant = whole.significant; auto_shutdown = whole.auto_shutdown })
        × (words_left words.old.rest ≡ shutdown_words whole)) }
{
    let significant = words.value(Place::Mark)?;
    let auto_shutdown = words.value(Place::Auto)?;
    words.end()?;
    Some(Parts {
        significant,
        auto_shutdown,
        ..parts
    })
}

//! The cursor that reads the words of a line one after the other.

ghost use Rattle.std.specs.Prelude.{◌≡◌, ◌≢◌, ◌∷◌, ◌++◌, ◌^◌, ◌<◌, [], None, MatchOption};
ghost use Rattle.std.specs.Fmt.{decimal};
ghost use Rattle.sup_types.specs.Text.{IsText};
ghost use Rattle.sup_format.specs.Reading.Words.{words_of, words_left};
ghost use Rattle.sup_format.specs.Reading.Tokens.{reason_word, IsReason, IsOperation, operation_verb, argument_words, HasNoValue, HasNoCode, HasNoNumber, HasNoText, HasNoReason, HasOtherWord, HasNoArguments};

use crate::read::place::Place;
use crate::read::words::{next_word, read_number};
use crate::spelled::{Spelled, Verb, read_reason, read_value};
use sup_types::{Operation, Reason, Text};

/// Reads the words of a line. What refuses a word returns None, stays before that word, and has noted what it expected there.
#[derive(Clone, Copy)]
pub struct Cursor<'a> {
    /// The bytes from the next word on, if the line does not end.
    pub rest: Option<&'a [u8]>,
    /// What was expected last.
    pub place: Place,
}

impl<'a> Cursor<'a> {
    /// Returns a cursor before the first word of a line.
    pub fn new(line: &'a [u8]) -> Cursor<'a>
        ensures { words_left result.rest ≡ words_of line.now }
    {
        Cursor {
            rest: Some(line),
            place: Place::End,
        }
    }

    /// Passes the next word, if it is this one.
    pub fn word(&mut self, place: Place, word: &[u8]) -> Option<()>
        ensures word { MatchOption result (HasOtherWord (words_left self.old.rest) word.now)
            (λ _. words_left self.old.rest ≡ word.now ∷ words_left self.new.rest) }
        ensures stays { result ≡ None → self.new.rest ≡ self.old.rest }
    {
        self.place = place;
        let (first, rest) = next_word(self.rest?);
        if first != word {
            return None;
        }
        self.rest = rest;
        Some(())
    }

    /// Returns the value that the next word spells.
    pub fn value<X: Spelled + 'static>(&mut self, place: Place) -> Option<X>
        ensures value { MatchOption result (HasNoValue X.spelled (words_left self.old.rest))
            (λ value. words_left self.old.rest ≡ X.spelled value ∷ words_left self.new.rest) }
        ensures stays { result ≡ None → self.new.rest ≡ self.old.rest }
    {
        self.place = place;
        let (word, rest) = next_word(self.rest?);
        let value = read_value(word)?;
        self.rest = rest;
        Some(value)
    }

    /// Returns the number that the next word is.
    pub fn number(&mut self, place: Place) -> Option<u64>
        ensures { MatchOption result (HasNoNumber (words_left self.old.rest))
            (λ number. words_left self.old.rest ≡ decimal number ∷ words_left self.new.rest) }
    {
        self.place = place;
        let (word, rest) = next_word(self.rest?);
        let number = read_number(word)?;
        self.rest = rest;
        Some(number)
    }

    /// Returns the code that the next word is: a number below 2^32.
    pub fn code(&mut self) -> Option<u32>
        ensures { MatchOption result (HasNoCode (words_left self.old.rest))
            (λ code. words_left self.old.rest ≡ decimal code ∷ words_left self.new.rest) }
    {
        self.place = Place::Code;
        let (word, rest) = next_word(self.rest?);
        let number = read_number(word)?;
        if number > u64::from(u32::MAX) {
            return None;
        }
        self.rest = rest;
        Some(number as u32)
    }

    /// Returns the text that the next word is.
    pub fn text(&mut self) -> Option<Text>
        ensures { MatchOption result (HasNoText (words_left self.old.rest))
            (λ text. IsText text × (words_left self.old.rest ≡ text ∷ words_left self.new.rest)) }
    {
        self.place = Place::Text;
        let (word, rest) = next_word(self.rest?);
        let text = Text::new(word)?;
        self.rest = rest;
        Some(text)
    }

    /// Returns the reason that the next word is.
    fn reason(&mut self) -> Option<Reason>
        ensures { MatchOption result (HasNoReason (words_left self.old.rest))
            (λ reason. IsReason reason × (words_left self.old.rest ≡ reason_word reason ∷ words_left self.new.rest)) }
    {
        self.place = Place::Reason;
        let (word, rest) = next_word(self.rest?);
        let reason = read_reason(word)?;
        self.rest = rest;
        Some(reason)
    }

    /// Returns the operation of this name with the arguments that the next words are.
    pub fn operation(&mut self, verb: Verb) -> Option<Operation>
        ensures { MatchOption result (HasNoArguments verb (words_left self.old.rest))
            (λ operation. IsOperation operation × (operation_verb operation ≡ verb)
            × (words_left self.old.rest ≡ argument_words operation ++ words_left self.new.rest)) }
    {
        let operation = match verb {
            Verb::Start => Operation::Start(self.text()?),
            Verb::Exit => Operation::Exit(self.number(Place::Child)?, self.reason()?),
            Verb::Retry => Operation::Retry(self.number(Place::Child)?),
            Verb::Terminate => Operation::Terminate(self.number(Place::Child)?),
            Verb::Stop => Operation::Stop,
        };
        Some(operation)
    }

    /// Checks that the line has no further word.
    pub fn end(&mut self) -> Option<()>
        ensures { MatchOption result (words_left self.old.rest ≢ []) (λ _. words_left self.old.rest ≡ []) }
    {
        self.place = Place::End;
        if self.rest.is_some() {
            return None;
        }
        Some(())
    }
}

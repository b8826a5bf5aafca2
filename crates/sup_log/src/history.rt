//! The history of a press. Its entries exist in the proofs alone.
ghost use Rattle.std.specs.Prelude.{◌≡◌, ◌+◌, ◌<◌, ◌^◌, ◌++◌, [], length};
ghost use mathlib.Core.List.{IsPrefix};
ghost use Rattle.sup_log.specs.Tokens.{history_of, in_one_step};

use crate::right::{Grown, compared, offered, parts, taken};
use crate::ticket::Ticket;
use logbook::{Pen, Play, Rule, Seen, Word};
use std::marker::{Brand, Model, PhantomData};
use sup_types::Entry;

/// The entries of one publication, at least one. No value of it is made: the history exists in the proofs alone.
pub struct Publication {
    pub first: Entry,
    pub rest: Vec<Entry>,
}

impl Model for Publication {
    ghost use Rattle.sup_log.specs.Tokens.{Publication};

    ghost Value = { Publication };

    ghost view = { λ p. record { first = p.first; rest = p.rest.items } };
}

/// The rule of the history.
pub struct Law;

impl Rule<Publication, u64> for Law {
    ghost use Rattle.std.specs.Prelude.{[]};
    ghost use Rattle.sup_log.specs.Rules.{IsKept, Adds, kept};

    ghost holds = { IsKept };

    ghost first = { [] };

    ghost hinted = { λ n log. Unit {0} };

    ghost shows = { λ log. log };

    ghost keeps = { kept };

    ghost moves = { Adds };
}

/// The entries of one step, which is one publication. Each step picks them.
pub trait Entries {
    ghost use Rattle.std.specs.Prelude.{List};
    ghost use Rattle.sup_types.specs.declared.history.Entry.{Entry};

    ghost entries: { List Entry };
}

impl Entries for Brand {
    ghost use Rattle.std.specs.Prelude.{[]};

    ghost entries = { [] };
}

/// A step that extends the history by one publication of these entries.
struct Extends<B> {
    entries: PhantomData<B>,
}

impl<B: Entries> Play<Publication, u64> for Extends<B> {
    ghost use Rattle.sup_log.specs.Rules.{Extended};

    ghost then = { Extended B.entries };
}

/// A step that compares what was seen with the history, and leaves it as it is.
struct Compares;

impl Play<Publication, u64> for Compares {
    ghost use Rattle.sup_log.specs.Rules.{Compared};

    ghost then = { Compared };
}

/// The history of one press, whose publications exist in the proofs alone. The word is always 0: a load of it extends the history, since the
/// right to do so is here.
#[derive(Drop)]
pub struct History {
    head: Word<Publication, u64, Law>,
    editions: u64,
    stamp: u64,
    seen: Seen<Publication, u64, Law>,
    right: Pen,
}

impl Model for History {
    ghost use Rattle.std.specs.Prelude.{◌≡◌, length};
    ghost use Rattle.sup_log.specs.Tokens.{Told, history_of};
    ghost use Rattle.sup_log.specs.Rules.{IsRight, head_of};

    ghost Value = { Told };

    ghost view = { λ h. record { press = h.seen.book; editions = h.seen.log; front = history_of h.seen.log } };

    ghost invariant = { λ h. (h.editions ≡ length h.seen.log) × (h.stamp ≡ length (history_of h.seen.log)) × (h.head ≡ head_of h.seen.book)
        × IsRight h.right.book h.right.nib h.seen.names (length h.seen.log) };
}

impl History {
    /// Makes a history with no publication.
    pub fn new() -> History
        ensures { (result.editions ≡ []) × (result.front ≡ []) }
    {
        let (start, gained) = parts();
        // The second word is never made, so its pen is free for the right.
        let (seen, mut first, mut right) = Seen::open(start, 0, 0);
        taken(&mut right, gained);
        History {
            head: Word::tracked(0, &mut first),
            editions: 0,
            stamp: 0,
            seen,
            right,
        }
    }

    /// Returns a ticket for all of it.
    pub fn tell(&self) -> Ticket
        ensures { result ≡ self.now }
    {
        Ticket {
            editions: self.editions,
            stamp: self.stamp,
            seen: self.seen.again(),
        }
    }

    /// Returns how many publications there were.
    pub fn editions(&self) -> u64
        ensures { result ≡ length self.now.editions }
    {
        self.editions
    }

    /// Proves that a ticket tells no more than there is. It takes one load of the word: the load shows a history that begins with all that was
    /// told, and the right says how long it is.
    pub fn lemma_is_prefix(&mut self, told: &Ticket)
        requires { told.now.press ≡ self.old.press }
        ensures kept { self.new ≡ self.old }
        ensures front { IsPrefix told.now.front self.old.front }
        ensures editions { IsPrefix told.now.editions self.old.editions }
    {
        self.seen.learn(&told.seen);
        let mut offer = compared(&mut self.right);
        let _ = self
            .head
            .load::<Compares, Grown>(&mut self.seen, &mut offer);
        taken(&mut self.right, offer.into_gain());
    }

    /// Adds these entries in one publication, by one load of the word. Nobody else has the right to extend the history, so what this
    /// press has seen of it is all there was.
    pub fn extend(&mut self, entries: &[Entry])
        requires some { 0 < length entries.now }
        requires room { (length self.old.front + length entries.now < 2 ^ 64) × (length self.old.editions + 1 < 2 ^ 64) }
        ensures { self.new ≡ record self.old { editions = self.old.editions ++ in_one_step entries.now; front = self.old.front ++ entries.now } }
    {
        self.extend_by::<Brand>(entries)
    }

    fn extend_by<B: Entries>(&mut self, entries: &[Entry])
        requires entries { entries.now ≡ B.entries }
        requires some { 0 < length entries.now }
        requires room { (length self.old.front + length entries.now < 2 ^ 64) × (length self.old.editions + 1 < 2 ^ 64) }
        ensures { self.new ≡ record self.old { editions = self.old.editions ++ in_one_step B.entries; front = self.old.front ++ B.entries } }
    {
        let mut offer = offered(&mut self.right);
        let _ = self
            .head
            .load::<Extends<B>, Grown>(&mut self.seen, &mut offer);
        taken(&mut self.right, offer.into_gain());
        self.editions += 1;
        self.stamp += entries.len() as u64;
    }
}

//! How entries come into a supervisor: with the start function of its children, or with what it has answered.
ghost use Rattle.std.specs.Prelude.{◌≡◌, ◌+◌, ◌<◌, ◌++◌, ◌∷◌, [], ℕ, List};
ghost use Rattle.sup_types.specs.declared.history.Entry.{Entry};
ghost use Rattle.sup_core.specs.Replies.{reply_to, asked_argument};
ghost use Rattle.sup_core.specs.Changes.{next_state};
ghost use Rattle.sup_core.specs.Account.{IsAfter, reply_after, entry_of, answer_to};

use crate::asked::{CachedIndex, NO_INDEX};
use crate::supervisor::Sup;
use std::alloc::Allocator;
use sup_types::{Answer, Entry, FixedStarter, Operation, Reply, Text};

impl<A: Allocator + Copy> Sup<A> {
    /// Enters the next entry of the history, and returns the reply to it. It is never refused: it may be called only while the history is
    /// not full (see [`Sup::is_spent`]).
    ///
    /// After [`Sup::asks`] for this entry, [`Sup::step_at`] takes one look-up less.
    pub fn step(&mut self, entry: &Entry) -> Reply
        requires { self.old.steps < self.old.template.entries }
        ensures reply { result ≡ reply_to self.old entry.now }
        ensures next { self.new ≡ next_state self.old entry.now }

        // By the reference semantics: from the whole history.
        ensures history { (history : List Entry) → IsAfter self.old history
            → (result ≡ reply_after self.old.template history entry.now) × IsAfter self.new (history ++ entry.now ∷ []) }
    {
        self.apply_at(entry.moment, &entry.operation, entry.answer, NO_INDEX)
    }

    /// Enters an entry as [`Sup::step`] does. The child is looked for at this index first, and by its number only if it is not there. So
    /// the reply is right for any index: that of [`Sup::asks`] for this entry, or the [`Sup::cached_index`] that another supervisor had
    /// after it.
    pub fn step_at(&mut self, entry: &Entry, cached_index: CachedIndex) -> Reply
        requires { self.old.steps < self.old.template.entries }
        ensures reply { result ≡ reply_to self.old entry.now }
        ensures next { self.new ≡ next_state self.old entry.now }
        ensures history { (history : List Entry) → IsAfter self.old history
            → (result ≡ reply_after self.old.template history entry.now) × IsAfter self.new (history ++ entry.now ∷ []) }
    {
        self.apply_at(
            entry.moment,
            &entry.operation,
            entry.answer,
            cached_index.index(),
        )
    }

    /// Enters an operation at this moment, in seconds, as the next entry, with the start function's answer if it is asked, and returns the
    /// reply. The start function is asked at most once, and the child is looked up once. Which handle the entry is of makes no difference.
    pub fn update<S: FixedStarter>(
        &mut self,
        starter: &S,
        moment: u64,
        operation: &Operation,
    ) -> Reply
        requires { self.old.steps < self.old.template.entries }
        ensures reply { (handle serial : ℕ) → result ≡ reply_to self.old (record {
          handle = handle;
          serial = serial;
          moment = moment;
          operation = operation.now;
          answer = answer_to S.answer (asked_argument self.old operation.now moment) moment;
        }) }
        ensures next { (handle serial : ℕ) → self.new ≡ next_state self.old (record {
          handle = handle;
          serial = serial;
          moment = moment;
          operation = operation.now;
          answer = answer_to S.answer (asked_argument self.old operation.now moment) moment;
        }) }

        // By the reference semantics: from the whole history.
        ensures history { (history : List Entry) (handle serial : ℕ) → IsAfter self.old history
            → (result ≡ reply_after self.old.template history (entry_of S.answer self.old.template history handle serial operation.now moment))
            × IsAfter self.new (history ++ entry_of S.answer self.old.template history handle serial operation.now moment ∷ []) }
        ensures template { self.new.template ≡ self.old.template }
        ensures steps { self.new.steps ≡ self.old.steps + 1 }
    {
        let asked = self.asked_argument(operation, moment);
        let answer = answer_to(starter, &asked.arg, moment);
        self.apply_at(moment, operation, answer, asked.cached_index.index())
    }
}

/// Returns what this start function says to an argument, if one is asked for.
fn answer_to<S: FixedStarter>(starter: &S, arg: &Option<Text>, moment: u64) -> Answer
    ensures { result ≡ answer_to S.answer arg.now moment }
{
    match arg {
        Some(arg) => starter.start_fixed(arg, moment),
        None => Answer::Ignore,
    }
}

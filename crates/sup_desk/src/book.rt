//! The book: what is under the lock, and the transaction in it.
ghost use Rattle.std.specs.Prelude.{◌≡◌, ◌+◌, ◌<◌, ◌≤◌, ◌++◌, ◌∷◌, [], length, All, IfOk, OnOk, OnErr, IfErr, IfSome, MatchResult, Some, None};
ghost use mathlib.Core.List.{IsPrefix};
ghost use Rattle.sup_core.specs.Account.{reply_after};
ghost use Rattle.sup_log.specs.Tokens.{history_of, in_one_step};
ghost use Rattle.sup_desk.specs.Knowledge.{entries_of, IsEntryOf};
ghost use Rattle.sup_desk.specs.Books.{IsMade, IsOfStep, stepped_with, with_pending};
ghost use Rattle.sup_desk.specs.Journals.{HasJust, HoldsOneMore, HoldsAsBefore};

use crate::faults::UpdateFault;
use crate::handle::DetachedHandle;
use crate::journal::{Journal, JournalFault, NoJournal};
use crate::name::Name;
use crate::sessions::SessionRegistry;
use std::marker::{Brand, Model, PhantomData};
use std::sync::Wait;
use sup_core::Asked;
use sup_log::{Press, Ready, Ticket};
use sup_types::{Answer, Entry, Operation, OutOfMemory, Reply, Starter};

/// The press, which has stepped all that is pending, the journal and its fault, and the session registry, with all that is published.
pub struct Transaction<N: Name, J: Journal + Drop> {
    pub(crate) press: Press,
    pub(crate) journal: J,
    pub(crate) fault: Option<JournalFault>,
    pub(crate) sessions: SessionRegistry,
    pub(crate) made: u64,
    pub(crate) handles: u64,
    pub(crate) of: PhantomData<N>,
}

impl<N: Name, J: Journal + Drop> Model for Transaction<N, J> {
    ghost use Rattle.std.specs.Prelude.{◌≡◌, ◌+◌, ◌≤◌, length};
    ghost use Rattle.sup_log.specs.Tokens.{history_of};
    ghost use Rattle.sup_desk.specs.Books.{Written};
    ghost use Rattle.sup_desk.specs.Sessions.{IsEnrolled};
    ghost use Rattle.sup_desk.specs.Journals.{IsKept};

    ghost Value = { Written };

    ghost view = { λ t. record { editions = t.press.editions; published = t.press.published; pending = t.press.pending; made = t.made; handles = t.handles; fault = t.fault } };

    ghost invariant = { λ t. (t.press.press ≡ N.press) × (t.press.template ≡ N.template) × (t.press.published ≡ history_of t.press.editions)
        × (t.press.stepped ≡ length t.press.pending) × (length t.press.published + length t.press.pending ≤ N.template.entries)
        × IsEnrolled N.sessions t.press.published t.made t.sessions
        × (t.made ≤ t.handles) × (t.handles ≤ 1024)
        × IsKept (J.has t.journal N.template) (J.is_torn t.journal N.template) J.may_fail t.fault t.press.published t.press.pending };
}

/// Holds what remains of a desk that was closed: a ticket for all of its history, and its journal with the fault, if it broke off.
#[derive(Drop)]
pub struct Closed<J> {
    pub ticket: Ticket,
    pub journal: J,
    pub fault: Option<JournalFault>,
}

/// Makes an entry, for which this was asked, pending and ready in the journal, and steps it. After a refusal both are as before.
pub(crate) fn take<J: Journal>(
    ready: &mut Ready<'_>,
    journal: &mut J,
    entry: Entry,
    asked: &Asked,
) -> Result<Reply, OutOfMemory>
    requires stepped { ready.old.press.now.stepped ≡ length ready.old.press.now.pending }
    requires room { length ready.old.press.now.published + length ready.old.press.now.pending < ready.old.press.now.template.entries }
    ensures same_press { ready.new.press.ghost_name ≡ ready.old.press.ghost_name }
    ensures press { IfOk result (λ r. (r ≡ reply_after ready.old.press.now.template (ready.old.press.now.published ++ ready.old.press.now.pending) entry) × (ready.new.press.now ≡ stepped_with ready.old.press.now entry)) }
    ensures journal { OnOk result (HoldsOneMore J.has journal.old journal.new entry) }
    ensures err { OnErr result ((ready.new.press.now ≡ ready.old.press.now) × HoldsAsBefore J.has journal.old journal.new) }
{
    ready.append(&entry)?;
    if journal.prepare(&entry).is_err() {
        ready.retract();
        return Err(OutOfMemory);
    }
    Ok(ready.step(asked))
}

impl<N: Name, J: Journal + Drop> Transaction<N, J> {
    /// Returns a ticket for all that was published: each entry of it is of a handle that was made.
    pub fn tell(&self) -> Ticket
        ensures ticket { result ≡ record { press = N.press; editions = self.now.editions; front = self.now.published } }
        ensures entries { All (λ entry. IsMade self.now.made entry.handle) self.now.published }
    {
        self.press.tell()
    }

    /// Returns the fault of the journal, if it broke off.
    pub fn fault(&self) -> Option<JournalFault>
        ensures fault { result ≡ self.now.fault }
        ensures cause { IfSome result (λ f. J.may_fail f) }
    {
        self.fault
    }

    /// Shows that what the caller has seen begins what is published, and that its calls are all of this under its number. It serves the
    /// proofs alone: the evidence of a ticket and a token is compared with the press's and the registry's by a step on their words.
    pub fn lemma_calls_are_all(&mut self, caller: &mut DetachedHandle<N>)
        ensures met { entries_of self.old.published caller.old.number ≡ caller.old.calls }
        ensures made { IsMade self.old.made caller.old.number }
        ensures covered { IsPrefix caller.old.front self.old.published × IsPrefix caller.old.editions self.old.editions }
        ensures whole { self.old.published ≡ history_of self.old.editions }
        ensures within { length self.old.published ≤ N.template.entries }
        ensures same { (self.new ≡ self.old) × (caller.new ≡ caller.old) }
    {
        self.press.lemma_is_prefix(caller.asker.lens.front());
        self.sessions.enter::<Brand>(&mut caller.token, &[]);
    }

    /// Lets the caller see all that is published, by the ticket for it that is returned.
    pub fn show(&self, caller: &mut DetachedHandle<N>) -> Ticket
        requires covered { IsPrefix caller.old.front self.now.published × IsPrefix caller.old.editions self.now.editions }
        ensures caller { caller.new ≡ record caller.old { editions = self.now.editions; front = self.now.published } }
        ensures ticket { result ≡ record { press = N.press; editions = self.now.editions; front = self.now.published } }
    {
        let ticket = self.press.tell();
        let _ = caller.asker.learn(&ticket);
        ticket
    }

    /// Writes the entry of an operation of the handle with this number, which has made `serial` before, and leaves it pending. The start
    /// function is asked if the reply depends on it. After a refusal nothing has changed. It waits for the lenses that still look.
    pub fn write<S: Starter, W: Wait>(
        &mut self,
        rt: &W,
        starter: &S,
        number: u64,
        serial: u64,
        moment: u64,
        operation: &Operation,
    ) -> Result<Reply, UpdateFault>
        requires going { self.old.fault ≡ None }
        ensures written { IfOk result (λ reply. (entry : Entry) × IsEntryOf S.may_answer N.template (self.old.published ++ self.old.pending) number serial operation.now moment entry
            × (reply ≡ reply_after N.template (self.old.published ++ self.old.pending) entry) × (self.new ≡ with_pending self.old (entry ∷ []))) }
        ensures kept { OnErr result (self.new ≡ self.old) }
        ensures full { IfErr result (λ e. e ≡ UpdateFault.HistoryFull → length (self.old.published ++ self.old.pending) ≡ N.template.entries) }
        ensures room { MatchResult result (λ _. length (self.old.published ++ self.old.pending) < N.template.entries) (λ e. e ≡ UpdateFault.OutOfMemory → length (self.old.published ++ self.old.pending) < N.template.entries) }
        ensures faults { IfErr result (λ e. IsOfStep e) }
    {
        let mut ready = self.press.ready(rt);
        let Some(asked) = ready.asks(operation, moment) else {
            return Err(UpdateFault::HistoryFull);
        };
        let answer = match &asked.arg {
            Some(arg) => starter.start(arg, moment),
            None => Answer::Ignore,
        };
        let entry = Entry {
            handle: number,
            serial,
            moment,
            operation: *operation,
            answer,
        };
        match take(&mut ready, &mut self.journal, entry, &asked) {
            Ok(reply) => Ok(reply),
            Err(_) => Err(UpdateFault::OutOfMemory),
        }
    }

    /// Has the journal record what is pending, which is all of this caller, and then publishes it as one publication. If the journal breaks
    /// off, nothing is published.
    pub fn commit<W: Wait>(
        &mut self,
        rt: &W,
        caller: &mut DetachedHandle<N>,
    ) -> Result<(), JournalFault>
        requires going { self.old.fault ≡ None }
        requires mine { entries_of self.old.pending caller.old.number ≡ self.old.pending }
        ensures ok { OnOk result (self.new ≡ record self.old { editions = self.old.editions ++ in_one_step self.old.pending; published = self.old.published ++ self.old.pending; pending = [] }) }
        ensures caller { OnOk result (caller.new ≡ record caller.old { calls = caller.old.calls ++ self.old.pending }) }
        ensures within { OnOk result (length self.new.published ≤ N.template.entries) }
        ensures err { IfErr result (λ f. (self.new ≡ record self.old { fault = Some f }) × (caller.new ≡ caller.old) × J.may_fail f) }
    {
        if let Err(fault) = self.journal.record() {
            self.fault = Some(fault);
            return Err(fault);
        }
        let ready = self.press.ready(rt);
        self.sessions
            .enter::<Brand>(&mut caller.token, ready.pending());
        ready.publish(rt);
        Ok(())
    }
}

/// What is under the lock: a transaction with nothing pending, whose journal has recorded just what is published, as long as the journal
/// does not break off. What was pending then is never published.
pub struct Book<N: Name, J: Journal + Drop> {
    pub(crate) transaction: Transaction<N, J>,
}

impl<N: Name, J: Journal + Drop> Model for Book<N, J> {
    ghost use Rattle.sup_desk.specs.Books.{Kept, IsClean};

    ghost Value = { Kept };

    ghost view = { λ b. record { editions = b.transaction.editions; history = b.transaction.published; made = b.transaction.made; handles = b.transaction.handles; fault = b.transaction.fault } };

    ghost invariant = { λ b. IsClean b.transaction.fault b.transaction.pending };
}

impl<N: Name> Book<N, NoJournal> {
    /// Returns the same with this journal, which has recorded all of the history.
    pub(crate) fn with_journal<J: Journal + Drop>(self, journal: J) -> Book<N, J>
        requires going { self.fault ≡ None }
        requires journal { J.has journal N.template self.history [] }
        ensures { result ≡ self }
    {
        let Book {
            transaction: Transaction {
                press,
                journal: _,
                fault: _,
                sessions,
                made,
                handles,
                of,
            },
        } = self;
        Book {
            transaction: Transaction {
                press,
                journal,
                fault: None,
                sessions,
                made,
                handles,
                of,
            },
        }
    }
}

impl<N: Name, J: Journal + Drop> Book<N, J> {
    /// Ends the book, and returns what remains of it. It waits for the lenses that look.
    pub(crate) fn close<W: Wait>(self, rt: &W) -> Closed<J>
        ensures ticket { result.ticket ≡ record { press = N.press; editions = self.editions; front = self.history } }
        ensures journal { HasJust (J.has result.journal N.template) (J.is_torn result.journal N.template) J.may_fail result.fault self.history }
    {
        let ticket = self.transaction.press.tell();
        let Book {
            transaction: Transaction {
                press,
                journal,
                fault,
                sessions: _sessions,
                made: _,
                handles: _,
                of: _,
            },
        } = self;
        press.close(rt);
        Closed {
            ticket,
            journal,
            fault,
        }
    }
}

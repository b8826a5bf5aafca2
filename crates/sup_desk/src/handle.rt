//! Handles: the callers of a desk, and what they carry apart from it.
ghost use Rattle.std.specs.Prelude.{◌≡◌, ◌<◌, ◌≤◌, ◌⊎◌, [], length, take, drop, IfOk, IsOk, OnOk, IfErr, IfSome, IfNone, IsTrue, ◌↔◌, Some, None, true};
ghost use mathlib.Core.List.{IsPrefix};
ghost use Rattle.sup_core.specs.State.{MatchSeen};
ghost use Rattle.sup_core.specs.Queries.{which, count, child};
ghost use Rattle.sup_log.specs.Tokens.{sight, history_of};
ghost use Rattle.sup_desk.specs.Asking.{IsAnswered};
ghost use Rattle.sup_desk.specs.Knowledge.{entries_of};
ghost use Rattle.sup_desk.specs.Batches.{IsApplied};
ghost use Rattle.sup_desk.specs.declared.journal.JournalFault.{JournalFault};
ghost use Rattle.sup_desk.specs.Results.{IsUpdateResult};
ghost use Rattle.sup_desk.specs.Audits.{AreNumbered};

use crate::asker::Asker;
use crate::desk::Desk;
use crate::faults::{QueryFault, UpdateFault};
use crate::journal::{Journal, NoJournal};
use crate::laws::{Done, Rest, enter, enter_all, give_ticket};
use crate::name::Name;
use crate::sessions::SessionToken;
use std::alloc::{Allocator, Global};
use std::collections::VecDeque;
use std::marker::Model;
use std::sync::{MutexGuard, Wait};
use sup_log::{Gone, Ticket, View};
use sup_types::{Counts, Operation, Reason, Refusal, Reply, Row, Seen, Starter, Template, Text};

/// Holds the replies to operations that were entered together, in their order, and a ticket for the history up to and with the last.
#[derive(Drop)]
pub struct Dones<A: Allocator = Global> {
    pub replies: Vec<Reply, A>,
    pub ticket: Ticket,
}

/// Holds the result of a batch whose first operations alone were entered: the replies to these, a ticket for the history up to and
/// with the last of them, if there is one, and why the others were not.
#[derive(Drop)]
pub struct Part<A: Allocator = Global> {
    pub replies: Vec<Reply, A>,
    pub ticket: Option<Ticket>,
    pub fault: UpdateFault,
}

/// Holds what a handle knows, without a borrow of its desk: `Desk::bind` makes the handle of it again.
#[derive(Drop)]
pub struct DetachedHandle<N: Name> {
    pub(crate) token: SessionToken,
    pub(crate) asker: Asker<N>,
}

impl<N: Name> Model for DetachedHandle<N> {
    ghost use Rattle.std.specs.Prelude.{◌≡◌};
    ghost use Rattle.sup_desk.specs.Knowledge.{Knowledge};

    ghost Value = { Knowledge };

    ghost view = { λ c. record { number = c.token.number; editions = c.asker.editions; front = c.asker.front; calls = c.token.calls } };

    ghost invariant = { λ c. c.token.sessions ≡ N.sessions };
}

impl<N: Name> DetachedHandle<N> {
    /// Returns its number: 1, 2, 3, .. in the order of making. No other caller of its desk has it.
    pub fn number(&self) -> u64
        ensures { result ≡ self.now.number }
    {
        self.token.number()
    }
}

/// Calls the desk `D`, which it borrows: it makes updates, and asks by an asker of its own. It may be moved to one thread.
#[derive(Drop)]
pub struct HandleOf<'d, N: Name, D> {
    pub(crate) caller: DetachedHandle<N>,
    pub(crate) desk: &'d D,
}

/// Calls a desk with this starter, whose publications wait by `R`, and with the journal `J`, by default none.
pub type Handle<'d, N, S, R, J = NoJournal> = HandleOf<'d, N, Desk<N, S, R, J>>;

impl<'d, N: Name, D> Model for HandleOf<'d, N, D> {
    ghost use Rattle.sup_desk.specs.Knowledge.{Knowledge};

    ghost Value = { Knowledge };

    ghost view = { λ h. h.caller };
}

/// Makes updates. Each waits for the lock, and is entered in the history at once: its reply is that of a supervisor of one thread after a
/// history that begins with all that the handle had seen, learnt or done. Moments are in seconds. The start function is asked under the
/// lock. Each refusal leaves the history and every published answer as they were: `HistoryFull` if the history has as many entries as the
/// template allows, `OutOfMemory` if memory runs out, and `Journal` if the journal breaks off or broke off before, for good.
impl<'d, N: Name, S: Starter + Drop, R: Wait + Drop, J: Journal + Drop> HandleOf<
    'd,
    N,
    Desk<N, S, R, J>,
> {
    /// Starts a child with this argument (OTP's manual of `supervisor`, `start_child/2`).
    pub fn start_child<W: Wait>(
        &mut self,
        rt: &W,
        moment: u64,
        arg: Text,
    ) -> Result<Done, UpdateFault>
        ensures result { IsUpdateResult S.may_answer N.template N.press self.old (Operation.Start arg) moment self.new result }
        ensures journal { IfErr result (λ e. (f : JournalFault) → e ≡ UpdateFault.Journal f → J.may_fail f) }
    {
        self.update(rt, moment, &Operation::Start(arg))
    }

    /// Enters that the child with this number ended by itself, for this reason.
    pub fn exit<W: Wait>(
        &mut self,
        rt: &W,
        moment: u64,
        number: u64,
        reason: Reason,
    ) -> Result<Done, UpdateFault>
        ensures result { IsUpdateResult S.may_answer N.template N.press self.old (Operation.Exit number reason) moment self.new result }
        ensures journal { IfErr result (λ e. (f : JournalFault) → e ≡ UpdateFault.Journal f → J.may_fail f) }
    {
        self.update(rt, moment, &Operation::Exit(number, reason))
    }

    /// Tries the restart of the child with this number again.
    pub fn retry<W: Wait>(&mut self, rt: &W, moment: u64, number: u64) -> Result<Done, UpdateFault>
        ensures result { IsUpdateResult S.may_answer N.template N.press self.old (Operation.Retry number) moment self.new result }
        ensures journal { IfErr result (λ e. (f : JournalFault) → e ≡ UpdateFault.Journal f → J.may_fail f) }
    {
        self.update(rt, moment, &Operation::Retry(number))
    }

    /// Ends the child with this number: its row goes, and whoever runs it is to end it (OTP's manual of `supervisor`, `terminate_child/2`).
    pub fn terminate_child<W: Wait>(
        &mut self,
        rt: &W,
        moment: u64,
        number: u64,
    ) -> Result<Done, UpdateFault>
        ensures result { IsUpdateResult S.may_answer N.template N.press self.old (Operation.Terminate number) moment self.new result }
        ensures journal { IfErr result (λ e. (f : JournalFault) → e ≡ UpdateFault.Journal f → J.may_fail f) }
    {
        self.update(rt, moment, &Operation::Terminate(number))
    }

    /// Ends all children, and the supervisor.
    pub fn stop<W: Wait>(&mut self, rt: &W, moment: u64) -> Result<Done, UpdateFault>
        ensures result { IsUpdateResult S.may_answer N.template N.press self.old Operation.Stop moment self.new result }
        ensures journal { IfErr result (λ e. (f : JournalFault) → e ≡ UpdateFault.Journal f → J.may_fail f) }
    {
        self.update(rt, moment, &Operation::Stop)
    }

    /// Enters this operation.
    fn update<W: Wait>(
        &mut self,
        rt: &W,
        moment: u64,
        operation: &Operation,
    ) -> Result<Done, UpdateFault>
        ensures result { IsUpdateResult S.may_answer N.template N.press self.old operation.now moment self.new result }
        ensures journal { IfErr result (λ e. (f : JournalFault) → e ≡ UpdateFault.Journal f → J.may_fail f) }
    {
        let desk = self.desk;
        let mut book = desk.book.lock(rt);
        let done = enter(rt, &mut *book, &desk.starter, self, moment, operation);
        MutexGuard::unlock(book);
        done
    }

    /// Enters the operations of the queue as updates, in order, and publishes them in one step: everyone who asks sees all of them or none.
    /// An operation that is entered leaves the queue. An empty queue enters nothing.
    ///
    /// # Errors
    /// Those of an update. What was entered before the fault is published, and the queue has the others in order. The room for the replies
    /// is made first, so a refusal of it enters nothing; a journal that breaks off leaves the whole queue.
    pub fn apply_all<W: Wait, A: Allocator + Copy>(
        &mut self,
        rt: &W,
        alloc: A,
        moment: u64,
        operations: &mut VecDeque<Operation>,
    ) -> Result<Dones<A>, Part<A>>
        ensures ok { IfOk result (λ d. IsApplied S.may_answer N.template N.press self.old operations.old.items moment self.new d.replies.items d.ticket) }
        ensures all { OnOk result (operations.new.items ≡ []) }

        // What a fault leaves.
        ensures part { IfErr result (λ p. IfSome p.ticket (λ t. IsApplied S.may_answer N.template N.press self.old (take (length p.replies.items) operations.old.items) moment self.new p.replies.items t × (0 < length p.replies.items))) }
        ensures nothing { IfErr result (λ p. IfNone p.ticket ((p.replies.items ≡ []) × (self.new.calls ≡ self.old.calls) × (self.new.number ≡ self.old.number))) }
        ensures rest { IfErr result (λ p. operations.new.items ≡ drop (length p.replies.items) operations.old.items) }
        ensures front { IsPrefix self.old.front self.new.front }
        ensures editions { IsPrefix self.old.editions self.new.editions }

        // When a fault comes.
        ensures gone { IfErr result (λ p. p.fault ≡ UpdateFault.Gone → ⊥) }
        ensures full { IfErr result (λ p. p.fault ≡ UpdateFault.HistoryFull → length self.new.front ≡ N.template.entries) }
        ensures room { IfErr result (λ p. p.fault ≡ UpdateFault.OutOfMemory → (self.new ≡ self.old) ⊎ (length self.new.front < N.template.entries)) }
        ensures within { OnOk result (length self.new.front ≤ N.template.entries) }
        ensures journal { IfErr result (λ p. (f : JournalFault) → p.fault ≡ UpdateFault.Journal f → (p.replies.items ≡ []) × J.may_fail f) }
    {
        let Ok(mut replies) = Vec::with_capacity(alloc, operations.len()) else {
            return Err(Part {
                replies: Vec::new(alloc),
                ticket: None,
                fault: UpdateFault::OutOfMemory,
            });
        };
        let Desk { book, starter, .. } = self.desk;
        let mut book = book.lock(rt);
        let entered = enter_all(
            rt,
            &mut *book,
            starter,
            self,
            moment,
            operations,
            &mut replies,
        );
        MutexGuard::unlock(book);
        match entered {
            Ok(ticket) => Ok(Dones { replies, ticket }),
            Err(Rest { ticket, fault }) => Err(Part {
                replies,
                ticket,
                fault,
            }),
        }
    }

    /// Returns a ticket for all of the history, which the handle has then seen. It waits for the lock.
    pub fn ticket<W: Wait>(&mut self, rt: &W) -> Ticket
        ensures ticket { result ≡ record { press = N.press; editions = self.new.editions; front = self.new.front } }
        ensures own { entries_of self.new.front self.new.number ≡ self.new.calls }
        ensures front { IsPrefix self.old.front self.new.front }
        ensures editions { IsPrefix self.old.editions self.new.editions }
        ensures calls { (self.new.calls ≡ self.old.calls) × (self.new.number ≡ self.old.number) }
    {
        let desk = self.desk;
        let mut book = desk.book.lock(rt);
        let ticket = give_ticket(&mut *book, &mut self.caller);
        MutexGuard::unlock(book);
        ticket
    }
}

/// Asks, takes no lock and never waits.
impl<'d, N: Name, D> HandleOf<'d, N, D> {
    /// Returns its number: 1, 2, 3, .. in the order of making. No other handle of its desk has it.
    pub fn number(&self) -> u64
        ensures { result ≡ self.now.number }
    {
        self.caller.number()
    }

    /// Returns the desk that it calls.
    pub fn desk(&self) -> &'d D {
        self.desk
    }

    /// Returns how many updates it made.
    pub fn calls(&self) -> u64
        ensures { result ≡ length self.now.calls }
    {
        self.caller.token.count()
    }

    /// Returns the handle without its desk, and the desk.
    pub fn unbind(self) -> (DetachedHandle<N>, &'d D)
        ensures { result.0 ≡ self.entry }
    {
        (self.caller, self.desk)
    }

    /// Returns whether these are handle 1, handle 2, .., in the order of making, as an audit asks for them.
    pub fn are_in_order(handles: &[HandleOf<'d, N, D>]) -> bool
        ensures { IsTrue result ↔ AreNumbered handles.now }
    {
        for (place, handle) in handles.iter().enumerate() {
            if handle.number() != place as u64 + 1 {
                return false;
            }
        }
        true
    }

    /// Returns the length of its front, as [`Asker::front`] does.
    pub fn front(&self) -> u64
        ensures front { result ≡ length self.now.front }
        ensures whole { self.now.front ≡ history_of self.now.editions }
    {
        self.caller.asker.front()
    }

    /// Returns the template of the children, as [`Asker::template`] does.
    pub fn template(&self) -> &Template
        ensures { result.now ≡ N.template }
    {
        self.caller.asker.template()
    }

    /// Asks as [`Asker::count_children`] does, at one front that begins with all that the handle had seen, learnt or done.
    pub fn count_children(&mut self) -> Result<Seen<Counts>, Gone>
        ensures front { IsPrefix self.old.front self.new.front }
        ensures editions { IsPrefix self.old.editions self.new.editions }
        ensures calls { (self.new.calls ≡ self.old.calls) × (self.new.number ≡ self.old.number) }
        ensures answer { IfOk result (λ answer. answer ≡ count N.template self.new.front) }
    {
        self.caller.asker.count_children()
    }

    /// Asks as [`Asker::child`] does, at such a front.
    pub fn child(&mut self, number: u64) -> Result<Seen<Option<Row>>, Gone>
        ensures front { IsPrefix self.old.front self.new.front }
        ensures editions { IsPrefix self.old.editions self.new.editions }
        ensures calls { (self.new.calls ≡ self.old.calls) × (self.new.number ≡ self.old.number) }
        ensures answer { IfOk result (λ answer. answer ≡ child N.template self.new.front number) }
    {
        self.caller.asker.child(number)
    }

    /// Asks as [`Asker::which_children`] does, at such a front.
    pub fn which_children(&mut self) -> Result<Seen<Vec<Row>>, QueryFault>
        ensures front { IsPrefix self.old.front self.new.front }
        ensures editions { IsPrefix self.old.editions self.new.editions }
        ensures calls { (self.new.calls ≡ self.old.calls) × (self.new.number ≡ self.old.number) }
        ensures answer { IfOk result (λ seen. MatchSeen seen (λ rows. which N.template self.new.front ≡ Seen.Up rows.items) (which N.template self.new.front ≡ Seen.Down)) }
    {
        self.caller.asker.which_children()
    }

    /// Looks as [`Asker::inspect`] does, at such a front. `f` must make no update, no handle and no asker, and should be short.
    pub fn inspect<T, F: FnOnce(&View) -> T>(&mut self, f: F) -> Result<Seen<T>, Gone>
        requires { F.IsAlwaysCallable f }
        ensures front { IsPrefix self.old.front self.new.front }
        ensures editions { IsPrefix self.old.editions self.new.editions }
        ensures calls { (self.new.calls ≡ self.old.calls) × (self.new.number ≡ self.old.number) }
        ensures answer { let view = sight (record { press = N.press; template = N.template; editions = self.new.editions; front = self.new.front })
            in IfOk result (λ seen. IsAnswered F.FnOnce f view view.standing.down seen) }
    {
        self.caller.asker.inspect(f)
    }

    /// Learns as [`Asker::learn`] does: each later front begins with the ticket's.
    pub fn learn(&mut self, ticket: &Ticket) -> Result<(), Gone>
        requires { ticket.now.press ≡ N.press }
        ensures answered { IsOk result }
        ensures front { IsPrefix self.old.front self.new.front }
        ensures editions { IsPrefix self.old.editions self.new.editions }
        ensures calls { (self.new.calls ≡ self.old.calls) × (self.new.number ≡ self.old.number) }
        ensures learnt { IsPrefix ticket.now.front self.new.front × IsPrefix ticket.now.editions self.new.editions }
    {
        self.caller.asker.learn(ticket)
    }

    /// Refuses to end a child by an identifier: a termination names a process (OTP's manual of `supervisor`, `terminate_child/2`).
    pub fn terminate_id(&self, _id: &Text) -> Refusal
        ensures { result ≡ Refusal.SimpleOneForOne }
    {
        Refusal::SimpleOneForOne
    }

    /// Refuses to delete a child specification (OTP's manual of `supervisor`, `delete_child/2`).
    pub fn delete_child(&self, _id: &Text) -> Refusal
        ensures { result ≡ Refusal.SimpleOneForOne }
    {
        Refusal::SimpleOneForOne
    }

    /// Refuses to restart a child by an identifier (OTP's manual of `supervisor`, `restart_child/2`).
    pub fn restart_child(&self, _id: &Text) -> Refusal
        ensures { result ≡ Refusal.SimpleOneForOne }
    {
        Refusal::SimpleOneForOne
    }
}

//! The supervisor: its entries and its queries.
//!
//! A public function that only calls a private one (`counts` calls `count`, `child` calls `find`, `rows` calls `copied`, `step` calls
//! `apply_at`) is proved of the whole history, by lemmas on the reference semantics. The private one is proved of the supervisor's state,
//! by its code. So no proof walks through code and history at once.
ghost use Rattle.std.specs.Prelude.{◌≡◌, ◌==◌, ◌<◌, ◌≤◌, ℕ, ◌+◌, List, [], ◌∷◌, ◌++◌, None, IsTrue, IfOk, IsOk, ◌⊎◌, MatchOption, false, true, length, if◌then◌else◌};
ghost use Rattle.std.specs.List.{list_any};
ghost use Rattle.sup_window.specs.Attempts.{remembered};
ghost use Rattle.sup_types.specs.declared.history.Entry.{Entry};
ghost use Rattle.sup_types.specs.declared.history.Operation.{Operation};
ghost use Rattle.sup_types.specs.declared.history.Answer.{Answer};
ghost use Rattle.sup_core.specs.Rows.{has_number, runs_as, stands_as, row_at, counts_of};
ghost use Rattle.sup_core.specs.State.{State, arrived, seen_of, MatchSeen};
ghost use Rattle.sup_core.specs.Replies.{reply_to, reply_up, removed, shuts_down, attempted, allows_restart, is_full, asked_argument, asked_again};
ghost use Rattle.sup_core.specs.Changes.{running, changed, next_state};
ghost use Rattle.sup_core.specs.Account.{IsAfter, reply_after, state_after, account, is_down};
ghost use Rattle.sup_core.specs.Queries.{which, count, child};

use crate::asked::{Asked, CachedIndex, NO_INDEX};
use crate::table::Table;
use std::alloc::{Allocator, Global};
use std::marker::Model;
use sup_types::{
    Answer, AutoShutdown, Counts, Entry, Kind, Operation, OutOfMemory, Reason, Reply, Row, Seen,
    Status, Template, Text,
};
use sup_window::Window;

/// Applies the rules of `simple_one_for_one` to one entry after another. It has room for the children and the attempts that its template
/// allows.
#[derive(Drop)]
pub struct Sup<A: Allocator = Global> {
    template: Template,
    alloc: A,
    window: Window<A>,
    latest: u64,
    table: Table<A>,
    steps: u64,
    down: bool,
}

impl<A: Allocator> Model for Sup<A> {
    ghost use Rattle.std.specs.Prelude.{◌≡◌, ◌≤◌};
    ghost use Rattle.sup_core.specs.State.{State};

    ghost Value = { State };

    ghost view = { λ s. record { template = s.template; rows = s.table.rows; made = s.table.made; latest = s.latest; attempts = s.window.moments; down = s.down; steps = s.steps } };

    ghost invariant = { λ s. (s.table.max ≡ s.template.max)
        × (s.window.intensity ≡ s.template.intensity) × (s.window.period ≡ s.template.period) × (s.window.latest ≤ s.latest)
        × (s.table.made ≤ s.steps) × (s.steps ≤ s.template.entries) };
}

impl<A: Allocator + Copy> Sup<A> {
    /// Makes a supervisor without children, with room for all that its template allows.
    pub fn new(alloc: A, template: Template) -> Result<Self, OutOfMemory>
        ensures { IfOk result (λ s. IsAfter s [] × (s.template ≡ template)) }
    {
        let window = Window::new(alloc, template.intensity, template.period)?;
        let table = Table::new(alloc, template.max)?;
        Ok(Sup {
            template,
            table,
            window,
            alloc,
            latest: 0,
            steps: 0,
            down: false,
        })
    }

    /// Returns whether the supervisor gave up, was stopped or went down with a significant child.
    pub fn is_down(&self) -> bool
        ensures value { result ≡ self.now.down }
        ensures history { (history : List Entry) → IsAfter self.now history → result ≡ is_down (account self.now.template history) }
    {
        self.down
    }

    /// Returns how many entries there were.
    pub fn stamp(&self) -> u64
        ensures value { result ≡ self.now.steps }
        ensures history { (history : List Entry) → IsAfter self.now history → result ≡ length history }
    {
        self.steps
    }

    /// Returns whether there were as many entries as the template allows.
    pub fn is_spent(&self) -> bool
        ensures value { result ≡ (self.now.steps == self.now.template.entries) }
        ensures room { result ≡ false → self.now.steps < self.now.template.entries }
        ensures history { (history : List Entry) → IsAfter self.now history → result ≡ (length history == self.now.template.entries) }
    {
        self.steps == self.template.entries
    }

    /// Returns how many children there are (OTP's manual of `supervisor`, `count_children/1`).
    pub fn counts(&self) -> Seen<Counts>
        ensures value { result ≡ seen_of self.now (counts_of self.now.template.kind self.now.rows) }
        ensures history { (history : List Entry) → IsAfter self.now history
            → result ≡ count self.now.template history }
    {
        self.count()
    }

    fn count(&self) -> Seen<Counts>
        ensures { result ≡ seen_of self.now (counts_of self.now.template.kind self.now.rows) }
    {
        if self.down {
            return Seen::Down;
        }
        let active = self.table.running_count();
        let all = self.table.len();
        let (supervisors, workers) = match self.template.kind {
            Kind::Worker => (0, all),
            Kind::Supervisor => (all, 0),
        };
        Seen::Up(Counts {
            specs: 1,
            active,
            supervisors,
            workers,
        })
    }

    /// Returns the listed child with this number.
    pub fn child(&self, number: u64) -> Seen<Option<Row>>
        ensures value { result ≡ seen_of self.now (row_at number self.now.rows) }
        ensures history { (history : List Entry) → IsAfter self.now history
            → result ≡ child self.now.template history number }
    {
        self.find(number)
    }

    fn find(&self, number: u64) -> Seen<Option<Row>>
        ensures { result ≡ seen_of self.now (row_at number self.now.rows) }
    {
        if self.down {
            return Seen::Down;
        }
        Seen::Up(self.table.row_at(number))
    }

    /// Returns the listed children in ascending order of number (OTP's manual of `supervisor`, `which_children/1`).
    ///
    /// # Errors
    /// `OutOfMemory` if there is no memory for the list: never if no child is listed, or the supervisor is down.
    pub fn rows(&self) -> Result<Seen<Vec<Row, A>>, OutOfMemory>
        ensures value { IfOk result (λ seen. MatchSeen seen
            (λ rows. (self.now.down ≡ false) × (rows.items ≡ self.now.rows)) (self.now.down ≡ true)) }
        ensures history { (history : List Entry) → IsAfter self.now history → IfOk result (λ seen. MatchSeen seen
            (λ rows. which self.now.template history ≡ Seen.Up rows.items) (which self.now.template history ≡ Seen.Down)) }
        ensures free { (self.now.down ≡ true) ⊎ (self.now.rows ≡ []) → IsOk result }
    {
        self.copied()
    }

    fn copied(&self) -> Result<Seen<Vec<Row, A>>, OutOfMemory>
        ensures value { IfOk result (λ seen. MatchSeen seen
            (λ rows. (self.now.down ≡ false) × (rows.items ≡ self.now.rows)) (self.now.down ≡ true)) }
        ensures seen { IfOk result (λ seen. MatchSeen seen
            (λ rows. seen_of self.now self.now.rows ≡ Seen.Up rows.items) (seen_of self.now self.now.rows ≡ Seen.Down)) }
        ensures free { (self.now.down ≡ true) ⊎ (self.now.rows ≡ []) → IsOk result }
    {
        if self.down {
            return Ok(Seen::Down);
        }
        Ok(Seen::Up(self.table.copied(self.alloc)?))
    }

    /// Returns the argument whose start decides the reply to an entry with this operation and moment, if there is one.
    pub fn wants_answer(&self, operation: &Operation, moment: u64) -> Option<Text>
        ensures value { result ≡ asked_argument self.now operation.now moment }
        ensures history { (history : List Entry) → IsAfter self.now history
            → result ≡ asked_argument (state_after self.now.template history) operation.now moment }
    {
        self.asked_argument(operation, moment).arg
    }

    /// Returns what an entry with this operation and moment asks: the argument whose start decides the reply, if there is one. The entry
    /// with the answer is then entered by [`Sup::step_at`], which does not look for the child again.
    pub fn asks(&self, operation: &Operation, moment: u64) -> Asked
        ensures value { result.arg ≡ asked_argument self.now operation.now moment }
        ensures history { (history : List Entry) → IsAfter self.now history
            → result.arg ≡ asked_argument (state_after self.now.template history) operation.now moment }
    {
        self.asked_argument(operation, moment)
    }

    pub(crate) fn asked_argument(&self, operation: &Operation, moment: u64) -> Asked
        ensures { result.arg ≡ asked_argument self.now operation.now moment }
    {
        if self.down {
            return Asked::nothing();
        }
        let (status, number) = match operation {
            Operation::Start(arg) => {
                if self.is_full() {
                    return Asked::nothing();
                }
                return Asked::new(Some(*arg), NO_INDEX);
            }
            Operation::Exit(number, reason) => {
                if !self.template.restart.restarts_after(reason) {
                    return Asked::nothing();
                }
                (Status::Running, *number)
            }
            Operation::Retry(number) => (Status::Restarting, *number),
            Operation::Terminate(_) | Operation::Stop => return Asked::nothing(),
        };
        self.asked_again(status, number, moment)
    }

    /// Returns the argument of the listed child with this number and status, if one more attempt is allowed.
    fn asked_again(&self, status: Status, number: u64, moment: u64) -> Asked
        ensures { result.arg ≡ if list_any (stands_as status number) self.now.rows then asked_again (arrived self.now moment) number else None }
    {
        if !self.window.would_allow(self.latest.max(moment)) {
            return Asked::nothing();
        }
        self.table.asked_of(status, number)
    }

    /// Returns where the child was that the last entry removed or left waiting. A supervisor that lacks just this entry has it there, so
    /// that [`Sup::step_at`] need not look it up.
    pub fn cached_index(&self) -> CachedIndex {
        CachedIndex::at(self.table.last_index())
    }

    /// Enters an entry of any handle with this moment, operation and answer. `index` is where the operation's child may have been found.
    pub(crate) fn apply_at(
        &mut self,
        moment: u64,
        operation: &Operation,
        answer: Answer,
        index: usize,
    ) -> Reply
        requires { self.old.steps < self.old.template.entries }
        ensures reply { (handle serial : ℕ) → result ≡ reply_to self.old (record { handle = handle; serial = serial; moment = moment; operation = operation.now; answer = answer }) }
        ensures next { (handle serial : ℕ) → self.new ≡ next_state self.old (record { handle = handle; serial = serial; moment = moment; operation = operation.now; answer = answer }) }
    {
        self.record_moment(moment);
        if self.is_down() {
            return Reply::Down;
        }
        self.apply(operation, answer, index)
    }

    /// Applies an operation whose moment was recorded. `index` is where its child may have been found.
    fn apply(&mut self, operation: &Operation, answer: Answer, index: usize) -> Reply
        requires up { self.old.down ≡ false }
        requires room { self.old.made < self.old.steps }
        ensures reply { result ≡ reply_up self.old operation.now answer }
        ensures next { self.new ≡ changed self.old operation.now result }
    {
        match operation {
            Operation::Start(arg) => self.start(arg, answer),
            Operation::Exit(number, reason) => self.exit(*number, reason, answer, index),
            Operation::Retry(number) => self.retry(*number, answer, index),
            Operation::Terminate(number) => self.terminate(*number, index),
            Operation::Stop => self.stop(),
        }
    }

    /// Counts an entry, and records its moment.
    fn record_moment(&mut self, moment: u64)
        requires { self.old.steps < self.old.template.entries }
        ensures next { self.new ≡ arrived self.old moment }
        ensures room { self.new.made < self.new.steps }
    {
        self.latest = self.latest.max(moment);
        self.steps += 1;
    }

    fn start(&mut self, arg: &Text, answer: Answer) -> Reply
        requires up { self.old.down ≡ false }
        requires room { self.old.made < self.old.steps }
        ensures reply { result ≡ reply_up self.old (Operation.Start arg.now) answer }
        ensures next { self.new ≡ changed self.old (Operation.Start arg.now) result }
    {
        if self.is_full() {
            return Reply::Full;
        }
        match answer {
            Answer::Running => Reply::Started(self.list(arg)),
            Answer::Ignore => Reply::Undefined,
            Answer::Failed(code) => Reply::StartFailed(code),
        }
    }

    fn exit(&mut self, number: u64, reason: &Reason, answer: Answer, index: usize) -> Reply
        requires up { self.old.down ≡ false }
        requires room { self.old.made < self.old.steps }
        ensures reply { result ≡ reply_up self.old (Operation.Exit number reason.now) answer }
        ensures next { self.new ≡ changed self.old (Operation.Exit number reason.now) result }
    {
        if !self.template.restart.restarts_after(reason) {
            return self.remove(number, index);
        }
        match self.restart(Status::Running, number, answer, index) {
            Some(reply) => reply,
            None => Reply::Stray(number),
        }
    }

    /// Removes a child that ended and is not started again.
    fn remove(&mut self, number: u64, index: usize) -> Reply
        requires { self.old.down ≡ false }
        ensures reply { result ≡ if list_any (runs_as number) self.old.rows then removed self.old number else Reply.Stray number }
        ensures next { (operation : Operation) → self.new ≡ changed self.old operation result }
    {
        if self.table.take_as(Status::Running, number, index).is_none() {
            return Reply::Stray(number);
        }
        if !self.shuts_down() {
            return Reply::Removed(number);
        }
        self.end_all();
        Reply::ShutDown(number)
    }

    /// Returns whether the end of a child that is no longer listed takes the supervisor down.
    fn shuts_down(&self) -> bool
        ensures { result ≡ shuts_down self.now.template self.now.rows }
    {
        self.template.significant
            && match self.template.auto_shutdown {
                AutoShutdown::Never => false,
                AutoShutdown::Any => true,
                AutoShutdown::All => self.table.len() == 0,
            }
    }

    fn retry(&mut self, number: u64, answer: Answer, index: usize) -> Reply
        requires up { self.old.down ≡ false }
        requires room { self.old.made < self.old.steps }
        ensures reply { result ≡ reply_up self.old (Operation.Retry number) answer }
        ensures next { self.new ≡ changed self.old (Operation.Retry number) result }
    {
        match self.restart(Status::Restarting, number, answer, index) {
            Some(reply) => reply,
            None => Reply::NotFound,
        }
    }

    fn terminate(&mut self, number: u64, index: usize) -> Reply
        requires { self.old.down ≡ false }
        ensures reply { result ≡ if list_any (has_number number) self.old.rows then Reply.Ended else Reply.NotFound }
        ensures next { self.new ≡ changed self.old (Operation.Terminate number) result }
    {
        if self.table.take(number, index) {
            Reply::Ended
        } else {
            Reply::NotFound
        }
    }

    fn stop(&mut self) -> Reply
        requires { self.old.down ≡ false }
        ensures reply { result ≡ Reply.Stopped }
        ensures next { self.new ≡ changed self.old Operation.Stop result }
    {
        self.end_all();
        Reply::Stopped
    }

    /// Attempts to restart the listed child with this number and status. Returns `None` if there is none.
    fn restart(
        &mut self,
        status: Status,
        number: u64,
        answer: Answer,
        index: usize,
    ) -> Option<Reply>
        requires up { self.old.down ≡ false }
        requires room { self.old.made < self.old.steps }
        ensures { MatchOption result
            ((list_any (stands_as status number) self.old.rows ≡ false) × (self.new ≡ self.old))
            (λ reply. (list_any (stands_as status number) self.old.rows ≡ true) × (reply ≡ attempted self.old number answer)
            × ((operation : Operation) → self.new ≡ changed self.old operation reply)) }
    {
        let arg = match answer {
            Answer::Running | Answer::Ignore => self.table.take_as(status, number, index)?,
            Answer::Failed(_) => self.table.wait_as(status, number, index)?,
        };
        if !self.note_attempt() {
            return Some(self.give_up());
        }
        Some(match answer {
            Answer::Running => Reply::Restarted(number, self.list(&arg)),
            Answer::Ignore => Reply::Ignored(number),
            Answer::Failed(code) => Reply::Restarting(number, code),
        })
    }

    /// Takes the supervisor down, since there were more attempts than are allowed.
    fn give_up(&mut self) -> Reply
        ensures reply { result ≡ Reply.GaveUp }
        ensures next { self.new ≡ record self.old { rows = []; down = true } }
    {
        self.end_all();
        Reply::GaveUp
    }

    /// Records an attempt at the latest moment, and returns whether it is allowed.
    fn note_attempt(&mut self) -> bool
        ensures value { result ≡ allows_restart self.old }
        ensures next { self.new ≡ record self.old { attempts = remembered self.old.template.intensity (self.old.attempts ++ self.old.latest ∷ []) } }
    {
        self.window.attempt(self.latest)
    }

    /// Lists a child that runs, under the next number.
    fn list(&mut self, arg: &Text) -> u64
        requires room { self.old.made < self.old.steps }
        requires fits { length self.old.rows < self.old.template.max }
        ensures number { result ≡ self.old.made + 1 }
        ensures next { self.new ≡ record self.old { made = self.old.made + 1; rows = self.old.rows ++ running (self.old.made + 1) arg.now ∷ [] } }
    {
        self.table.list(arg)
    }

    fn end_all(&mut self)
        ensures { self.new ≡ record self.old { rows = []; down = true } }
    {
        self.table.clear();
        self.down = true;
    }

    fn is_full(&self) -> bool
        ensures value { result ≡ is_full self.now }
        ensures within { length self.now.rows ≤ self.now.template.max }
    {
        self.table.len() == self.template.max
    }
}

//! Clients of a live crew, and what is done with one.
ghost use Rattle.std.specs.Prelude.{◌≡◌, ◌<◌, ◌⊎◌, ◌↔◌, ℕ, [], ◌∷◌, length, IfOk, IfErr, IfSome, MatchResult, OnErr, IsOk, IsTrue, true};
ghost use mathlib.Core.List.{IsPrefix};
ghost use Rattle.sup_core.specs.State.{MatchSeen};
ghost use Rattle.sup_core.specs.Queries.{which, count, child};
ghost use Rattle.sup_log.specs.Tokens.{sight, history_of};
ghost use Rattle.sup_desk.specs.Asking.{IsAnswered};
ghost use Rattle.sup_desk.specs.Knowledge.{IsUpdated, entries_of};
ghost use Rattle.sup_desk.specs.declared.journal.JournalFault.{JournalFault as Fault};
ghost use Rattle.sup_desk.specs.Results.{IsUpdateResult};
ghost use Rattle.sup_live.specs.Batches.{IsStartedAll};
ghost use Rattle.sup_live.specs.Starts.{given_back, started_as};
ghost use Rattle.sup_live.specs.Clients.{HasAsked};
ghost use Rattle.sup_live.specs.Mailboxes.{message_of};

use crate::ask::{Answer, NotAnswered};
use crate::behaviour::Behaviour;
use crate::ends::{CrewState, Ended, Ends};
use crate::mailbox::{ChildRef, Unsent};
use crate::started::{NotStarted, Started, StartedAll};
use std::alloc::AllocError;
use std::collections::VecDeque;
use std::sync::Arc;
use std::time::Duration;
use sup_desk::{Asker, Done, HandleFault, Name, QueryFault, UpdateFault};
use sup_log::{NoPlace, Ticket, View};
use sup_types::{Counts, Operation, Reply, Row, Seen, Template, Text};

/// What is asked of a live crew. Queries take no lock and never wait. Whoever asks knows a front of the history: all that it has seen,
/// learnt or done. A query is answered at a front that begins with it.
pub trait Queries: Drop {
    ghost use Rattle.logbook.specs.Pages.{Book};
    ghost use Rattle.sup_types.specs.declared.template.Template.{Template};
    ghost use Rattle.sup_desk.specs.Knowledge.{Knowledge};

    /// Which supervisor it is of.
    ghost press: { Book };

    /// The template of its children.
    ghost template: { Template };

    /// What it knows: its number, its front, and the updates that it made.
    ghost knows: { Self → Knowledge };

    /// The name of the crew's desk, which its askers have.
    type Name: Name;

    /// Returns the number of its handle: 1, 2, 3, .. in the order of making.
    fn number(&self) -> u64
        ensures { result ≡ (knows self.now).number };

    /// Returns the length of its front, in entries. It asks nothing.
    fn front(&self) -> u64
        ensures front { result ≡ length (knows self.now).front }
        ensures whole { (knows self.now).front ≡ history_of (knows self.now).editions };

    /// Returns the template of the crew's children (OTP's manual of `supervisor`, `get_childspec/2`). It asks nothing.
    fn template(&self) -> &Template
        ensures { result.now ≡ template };

    /// Returns how many children there are at one front, which begins with all that the client had seen, learnt or done.
    fn count_children(&mut self) -> Result<Seen<Counts>, sup_log::Gone>
        ensures asked { HasAsked (knows self.old) (knows self.new) }
        ensures answer { IfOk result (λ answer. answer ≡ count template (knows self.new).front) };

    /// Returns whether the supervisor is down at such a front: it gave up, shut down or was stopped. It never goes up again.
    final fn is_down(&mut self) -> Result<bool, sup_log::Gone>
        ensures asked { HasAsked (knows self.old) (knows self.new) }
        ensures answer { IfOk result (λ down. IsTrue down ↔ (count template (knows self.new).front ≡ Seen.Down)) }
    {
        match self.count_children() {
            Ok(Seen::Up(_)) => Ok(false),
            Ok(Seen::Down) => Ok(true),
            Err(gone) => Err(gone),
        }
    }

    /// Sleeps until the counts are not these, the supervisor is down, the crew has failed, or the time has passed. Returns the counts at a
    /// front as that of [`LiveClient::count_children`]. Each update, and each exit that is entered, wakes it to look. A clock that can't be
    /// read ends the wait.
    fn await_change(
        &mut self,
        seen: Seen<Counts>,
        limit: Duration,
    ) -> Result<Seen<Counts>, sup_log::Gone>
        ensures asked { HasAsked (knows self.old) (knows self.new) }
        ensures answer { IfOk result (λ answer. answer ≡ count template (knows self.new).front) };

    /// Returns the listed child with this number at such a front.
    fn child(&mut self, number: u64) -> Result<Seen<Option<Row>>, sup_log::Gone>
        ensures asked { HasAsked (knows self.old) (knows self.new) }
        ensures answer { IfOk result (λ answer. answer ≡ child template (knows self.new).front number) };

    /// Returns the listed children at such a front, by ascending numbers.
    fn which_children(&mut self) -> Result<Seen<Vec<Row>>, QueryFault>
        ensures asked { HasAsked (knows self.old) (knows self.new) }
        ensures answer { IfOk result (λ seen. MatchSeen seen (λ rows. which template (knows self.new).front ≡ Seen.Up rows.items) (which template (knows self.new).front ≡ Seen.Down)) };

    /// Calls `f` once on a view at such a front, and not at all if the supervisor is down. `f` may make no update and no client,
    /// which would wait for this look.
    fn inspect<T, G: FnOnce(&View) -> T>(&mut self, f: G) -> Result<Seen<T>, sup_log::Gone>
        requires { G.IsAlwaysCallable f }
        ensures asked { HasAsked (knows self.old) (knows self.new) }
        ensures answer { let view = sight (record { press = press; template = template; editions = (knows self.new).editions; front = (knows self.new).front })
            in IfOk result (λ seen. IsAnswered G.FnOnce f view view.standing.down seen) };

    /// Lets each later front begin with the ticket's, which is of the same supervisor. It enters nothing and always succeeds.
    fn learn(&mut self, ticket: &Ticket) -> Result<(), sup_log::Gone>
        requires { ticket.now.press ≡ press }
        ensures answered { IsOk result }
        ensures asked { HasAsked (knows self.old) (knows self.new) }
        ensures learnt { IsPrefix ticket.now.front (knows self.new).front × IsPrefix ticket.now.editions (knows self.new).editions };

    /// Returns an asker of the crew's desk. It makes no update and no audit counts it. It takes a place of the desk until it is dropped.
    ///
    /// # Errors
    /// `NoPlace` if no place is free.
    fn asker(&self) -> Result<Asker<Self::Name>, NoPlace>
        ensures { (Self.Name.press ≡ press) × (Self.Name.template ≡ template) };
}

/// A client of a live crew whose children do what `B` says. It starts children, sends to them, ends them and asks about them, and it
/// stays in its thread. Its updates are entered at moments that the crew's clock gives, and wait for the desk's lock. Its queries take no
/// lock and never wait.
///
/// A client knows a front of the history: all that it has seen, learnt or done. An update is answered at the end of a front that
/// begins with it, and so is a query. A refused update leaves the history and every published answer as they were. A journal that
/// breaks off refuses the update and all later ones.
pub trait LiveClient<B: Behaviour>: Queries {
    ghost use Rattle.std.specs.Prelude.{ℕ, Bool};
    ghost use Rattle.sup_types.specs.declared.text.Text.{Text};
    ghost use Rattle.sup_types.specs.declared.history.Answer.{Answer};
    ghost use Rattle.sup_desk.specs.declared.journal.JournalFault.{JournalFault};

    /// What the start function may answer to an argument at a moment.
    ghost may_answer: { Text → ℕ → Answer → Type 0 };

    /// How the journal may fail.
    ghost may_fail: { JournalFault → Type 0 };

    /// How many updates its handle had made before the client was made.
    ghost since: { Self → ℕ };

    /// Starts a child with this argument, which owns this. At `Started` it runs, and is sent to by its address. Room for its exit
    /// is made first. If no child was made, what it was to own is returned.
    fn start_child(&mut self, arg: Text, own: B::Own) -> Result<Started<B>, NotStarted<B::Own>>
        ensures ok { IfOk result (λ d. (moment : ℕ) × IsUpdated may_answer Self.template Self.press (Self.knows self.old) (Operation.Start arg) moment (record { number = (Self.knows self.new).number; editions = d.ticket.editions; front = d.ticket.front; calls = (Self.knows self.new).calls }) d.reply d.ticket) }
        ensures seen { IfOk result (λ d. IsPrefix d.ticket.front (Self.knows self.new).front) }
        ensures child { IfOk result (λ d. IfSome d.child (λ address. started_as d.reply ≡ address.number ∷ [])) }
        ensures own { MatchResult result (λ d. d.own ≡ given_back own d.reply) (λ e. e.own ≡ own) }
        ensures front { IsPrefix (Self.knows self.old).front (Self.knows self.new).front }
        ensures calls { OnErr result (((Self.knows self.new).calls ≡ (Self.knows self.old).calls) × ((Self.knows self.new).number ≡ (Self.knows self.old).number)) }
        ensures gone { IfErr result (λ e. e.fault ≡ UpdateFault.Gone → ⊥) }
        ensures full { IfErr result (λ e. e.fault ≡ UpdateFault.HistoryFull → (length (Self.knows self.new).front ≡ Self.template.entries) × (entries_of (Self.knows self.new).front (Self.knows self.new).number ≡ (Self.knows self.new).calls)) }
        ensures room { IfErr result (λ e. e.fault ≡ UpdateFault.OutOfMemory → (Self.knows self.new ≡ Self.knows self.old) ⊎ (length (Self.knows self.new).front < Self.template.entries)) }
        ensures journal { IfErr result (λ e. (f : Fault) → e.fault ≡ UpdateFault.Journal f → may_fail f) };

    /// Starts a child for each of these arguments, in order, which owns what is beside it. They are entered in one step: everyone who
    /// asks sees all of them or none. What is entered leaves the list, and the others stay in it, with the fault. Room for all exits is
    /// made first, so memory that is refused for it enters nothing.
    fn start_all(&mut self, list: &mut VecDeque<(Text, B::Own)>) -> StartedAll<B::Message, B::Own>
        ensures { IsStartedAll may_answer may_fail Self.template Self.press (Self.knows self.old) list.old.items (Self.knows self.new) list.new.items result };

    /// Ends the child with this number. At `Ended` it is asked to end, and is aborted when its grace is over. Its exit is entered
    /// later, and changes nothing.
    fn terminate_child(&mut self, number: u64) -> Result<Done, UpdateFault>
        ensures result { (moment : ℕ) × IsUpdateResult may_answer Self.template Self.press (Self.knows self.old) (Operation.Terminate number) moment (Self.knows self.new) result }
        ensures journal { IfErr result (λ e. (f : Fault) → e ≡ UpdateFault.Journal f → may_fail f) };

    /// Ends the child as [`LiveClient::terminate_child`] does, and at `Ended` returns once the child is gone, as OTP's does. Until then the
    /// thread sleeps: as long as the child runs, at most until it is aborted when its grace is over, or when the crew closes. A child has
    /// no client, so none can wait for its own end. One whose `poll` waits for this thread would.
    final fn terminate_child_and_wait(&mut self, number: u64) -> Result<Done, UpdateFault>
        ensures result { (moment : ℕ) × IsUpdateResult may_answer Self.template Self.press (Self.knows self.old) (Operation.Terminate number) moment (Self.knows self.new) result }
        ensures journal { IfErr result (λ e. (f : Fault) → e ≡ UpdateFault.Journal f → may_fail f) }
    {
        let ended = self.terminate_child(number);
        if let Ok(done) = &ended
            && let Reply::Ended = done.reply
        {
            self.await_end(number);
        }
        ended
    }

    /// Sleeps until no child with this number is there that was asked to end. If there is none, it returns at once.
    fn await_end(&self, number: u64);

    /// Ends all children, and the supervisor. They are asked to end.
    fn stop(&mut self) -> Result<Done, UpdateFault>
        ensures result { (moment : ℕ) × IsUpdateResult may_answer Self.template Self.press (Self.knows self.old) Operation.Stop moment (Self.knows self.new) result }
        ensures journal { IfErr result (λ e. (f : Fault) → e ≡ UpdateFault.Journal f → may_fail f) };

    /// Sends to the child with this number. Returns the message if no such child is alive, if it was asked to end, or if it has no room
    /// for it.
    final fn send(&self, number: u64, message: B::Message) -> Result<(), Unsent<B::Message>>
        ensures { IfErr result (λ unsent. message_of unsent ≡ message) }
    {
        match self.address(number) {
            Some(address) => address.send(message),
            None => Err(Unsent::Gone(message)),
        }
    }

    /// Sends to the child with this number a message that is made with something to answer by, and waits for the answer, for this time at
    /// most. Until then the thread sleeps. A child that ends, or a crew that does, ends the wait.
    fn ask<T: Drop, G: FnOnce(Answer<T>) -> B::Message>(
        &self,
        number: u64,
        make: G,
        limit: Duration,
    ) -> Result<T, NotAnswered<B::Message>>
        requires { G.IsAlwaysCallable make };

    /// Returns what the crew is, for all of its clients.
    fn ends(&self) -> &Arc<Ends>;

    /// Returns what the crew is. It asks nothing, and may lag behind a reply: the driver notes that the supervisor gave up after that was
    /// published. [`LiveClient::ended`] waits for it.
    final fn state(&self) -> CrewState {
        self.ends().state()
    }

    /// Returns a future that is ready once the crew is down, closes or has failed. Its place among those that wait is taken now, so no
    /// poll of it runs out of memory.
    final fn ended(&self) -> Result<Ended, AllocError> {
        Ends::ended(self.ends())
    }

    /// Returns the address of the child with this number, if it is alive. What is sent by it takes no lock of the crew.
    fn address(&self, number: u64) -> Option<ChildRef<B::Message>>
        ensures { IfSome result (λ address. address.number ≡ number) };

    /// Returns another client of the crew, which has made no update: its handle is one that an earlier run left, if there is any.
    fn another(&self) -> Result<Self, HandleFault>
    where
        Self: Sized,
        ensures { IfOk result (λ other. since other ≡ length (Self.knows other).calls) };

    /// Lets the children that are listed when the crew closes stay listed: the supervisor is not stopped, they are asked to end, and
    /// their exits are among those that were not entered. A later crew over the same history runs them again.
    final fn keep_children(&self) {
        self.ends().keep_children();
    }

    /// Lets the crew close: its supervisor stops, unless the children are kept, and all children end.
    final fn close(&self) {
        self.ends().close();
    }
}

/// What is done with a live crew whose children do what `B` says: in the thread that runs the crew or, by a peer, in a thread of its own.
pub trait Program<B: Behaviour> {
    /// What comes of it.
    type Outcome: Drop;

    /// Uses the client, from which others can be made. They stay in this thread. Once the program and all peers have returned, the
    /// crew closes. One that is to end it earlier closes its client: then the supervisor stops, which the others see.
    fn run<C: LiveClient<B>>(self, client: &mut C) -> Self::Outcome;
}

/// The program of nobody: the peers of a crew that has none.
#[derive(Clone, Copy, Debug)]
pub struct Nobody;

impl<B: Behaviour> Program<B> for Nobody {
    type Outcome = ();

    fn run<C: LiveClient<B>>(self, _client: &mut C) {}
}

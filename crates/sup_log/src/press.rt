//! The press, which collects pending entries and publishes them.
ghost use Rattle.std.specs.Prelude.{Bool, if◌then◌else◌, is_ok, ◌≡◌, ◌==◌, ◌<◌, ◌≤◌, ◌+◌, ◌^◌, List, [], ◌∷◌, ◌++◌, true, false, Some, length, slice_get, IfOk, IfSome, IfNone, MatchResult};
ghost use mathlib.Core.List.{IsPrefix};
ghost use Rattle.sup_types.specs.declared.history.Entry.{Entry};
ghost use Rattle.sup_core.specs.Replies.{asked_argument};
ghost use Rattle.sup_core.specs.Account.{state_after, reply_after};
ghost use Rattle.sup_log.specs.Tokens.{in_one_step, so_far};

use crate::faults::NoPlace;
use crate::history::History;
use crate::lens::Lens;
use crate::replicas::Replicas;
use crate::ticket::Ticket;
use std::alloc::Global;
use std::marker::Model;
use std::sync::Wait;
use sup_core::Asked;
use sup_types::{Entry, Operation, OutOfMemory, Reply, Template};

/// Publishes an operation log in two replicas of a supervisor. The copy that is not shown answers the pending entries.
///
/// It is not `Drop`, since its end waits for looks: end it by [`Press::close`].
pub struct Press {
    history: History,
    pending: Vec<Entry>,
    stepped: usize,
    replicas: Replicas,
}

impl Model for Press {
    ghost use Rattle.std.specs.Prelude.{◌≡◌, ◌+◌, ◌≤◌, length, take, fold};
    ghost use Rattle.sup_log.specs.Absorbing.{taken};
    ghost use Rattle.sup_log.specs.Tokens.{Record, IsLawful};

    ghost Value = { Record };

    ghost view = { λ p. record { press = p.history.press; template = p.replicas.shown.standing.template; editions = p.history.editions; published = p.history.front; pending = p.pending.items; stepped = p.stepped; is_out = p.replicas.is_out } };

    ghost invariant = { λ p. (p.replicas.shown.press ≡ p.history.press) × (p.replicas.shown.editions ≡ p.history.editions) × (p.replicas.shown.front ≡ p.history.front) × IsLawful p.replicas.shown
        × (length p.history.front + length p.pending.items ≤ p.replicas.shown.standing.template.entries) × (length p.history.editions ≤ length p.history.front)
        × (p.stepped ≤ length p.pending.items) × (p.replicas.next ≡ fold taken p.replicas.shown.standing (take p.stepped p.pending.items)) };
}

/// Adds these entries to the history in one publication, and returns a ticket for all of it.
fn extended(history: &mut History, entries: &[Entry]) -> Ticket
    requires some { 0 < length entries.now }
    requires room { (length history.old.front + length entries.now < 2 ^ 64) × (length history.old.editions + 1 < 2 ^ 64) }
    ensures grown { history.new ≡ record history.old { editions = history.old.editions ++ in_one_step entries.now; front = history.old.front ++ entries.now } }
    ensures told { result ≡ history.new }
{
    history.extend(entries);
    history.tell()
}

/// Adds to a list. After a refusal the list is as before.
fn put<T: Copy>(list: &mut Vec<T>, item: &T) -> Result<(), OutOfMemory>
    ensures { list.new.items ≡ (if is_ok result then list.old.items ++ item.now ∷ [] else list.old.items) }
{
    match list.push(*item) {
        Ok(()) => Ok(()),
        Err(_) => Err(OutOfMemory),
    }
}

impl Press {
    /// Makes a press with nothing published and nothing pending, and with this many places for lenses, 1 to 1024.
    ///
    /// Each publication visits each place, taken or not, at a price of some fifty instructions. So ask for as many
    /// places as there are threads that look at the same time.
    ///
    /// # Errors
    /// `OutOfMemory` if there is no memory for the two replicas.
    pub fn new<R: Wait>(
        alloc: Global,
        rt: &R,
        template: Template,
        places: usize,
    ) -> Result<Press, OutOfMemory>
        requires { (0 < places) × (places ≤ 1024) }
        ensures { IfOk result (λ p. (p.template ≡ template) × (p.published ≡ []) × (p.pending ≡ []) × (p.editions ≡ []) × (p.stepped ≡ 0)) }
    {
        let history = History::new();
        let replicas = Replicas::new(alloc, rt, template, places, &history.tell())?;
        Ok(Press {
            history,
            pending: Vec::new(alloc),
            stepped: 0,
            replicas,
        })
    }

    /// Returns a lens that has seen all that was published. It waits for nothing. A lens that is dropped gives its
    /// place back.
    ///
    /// # Errors
    /// `NoPlace` only if all places are taken as the call begins. Nothing changes.
    pub fn lens(&mut self) -> Result<Lens, NoPlace>
        ensures kept { self.new ≡ self.old }
        ensures lens { IfOk result (λ l. l ≡ record { press = self.old.press; template = self.old.template; editions = self.old.editions; front = self.old.published }) }
    {
        let front = self.history.tell();
        Ok(Lens {
            reader: self.replicas.seat()?,
            front,
            template: *self.replicas.template(),
        })
    }

    /// Takes the copy that is not shown out of the reach of lenses, and brings it up to date. It waits for the looks that still use the
    /// copy, and yields meanwhile: a look that lasts keeps this thread's core busy. If the copy is out already, since the last guard was
    /// dropped, it waits for nothing.
    pub fn ready<R: Wait>(&mut self, rt: &R) -> Ready<'_>
        ensures same_press { result.press.ghost_name ≡ self.entry.ghost_name }
        ensures ready { result.press.now ≡ record self.old { is_out = true } }
    {
        self.replicas.ready(rt);
        Ready { press: self }
    }

    /// Returns a ticket for all that is published.
    pub fn tell(&self) -> Ticket
        ensures { result ≡ record { press = self.now.press; editions = self.now.editions; front = self.now.published } }
    {
        self.history.tell()
    }

    /// Proves that a ticket of this press tells no more than is published. It waits for nothing.
    pub fn lemma_is_prefix(&mut self, told: &Ticket)
        requires { told.now.press ≡ self.old.press }
        ensures kept { self.new ≡ self.old }
        ensures covered { IsPrefix told.now.front self.old.published × IsPrefix told.now.editions self.old.editions }
    {
        self.history.lemma_is_prefix(told);
    }

    /// Returns how many publications had something pending.
    pub fn editions(&self) -> u64
        ensures { result ≡ length self.now.editions }
    {
        self.history.editions()
    }

    /// Ends the press. It waits for the looks that still use a copy. Lenses that remain are answered `Gone`.
    pub fn close<R: Wait>(self, rt: &R) {
        let Press {
            history: _history,
            pending: _pending,
            stepped: _,
            replicas,
        } = self;
        replicas.close(rt);
    }
}

/// Holds the copy that is not shown, out of the reach of lenses: it is asked, and steps the entries. Dropped, it leaves the copy out, with
/// what is pending and stepped, and [`Press::ready`] continues there.
#[derive(Drop)]
pub struct Ready<'p> {
    press: &'p mut Press,
    ghost out: { press.now.is_out ≡ true },
}

impl Ready<'_> {
    /// Adds an entry to the pending ones.
    ///
    /// # Errors
    /// `OutOfMemory` if there is no memory for it. Nothing changes.
    pub fn append(&mut self, entry: &Entry) -> Result<(), OutOfMemory>
        requires { length self.old.press.now.published + length self.old.press.now.pending < self.old.press.now.template.entries }
        ensures same_press { self.new.press.ghost_name ≡ self.old.press.ghost_name }
        ensures appended { MatchResult result (λ _. self.new.press.now ≡ record self.old.press.now { pending = self.old.press.now.pending ++ entry.now ∷ [] }) (λ _. self.new.press.now ≡ self.old.press.now) }
    {
        let press = &mut *self.press;
        put(&mut press.pending, entry)
    }

    /// Takes back the entry that was appended last, if it was not yet stepped.
    pub fn retract(&mut self)
        requires { self.old.press.now.stepped < length self.old.press.now.pending }
        ensures same_press { self.new.press.ghost_name ≡ self.old.press.ghost_name }
        ensures taken_back { (before : List Entry) (last : Entry) → self.old.press.now.pending ≡ before ++ last ∷ [] → self.new.press.now ≡ record self.old.press.now { pending = before } }
    {
        let press = &mut *self.press;
        let _ = press.pending.pop();
    }

    /// Returns what is pending, in order.
    pub fn pending(&self) -> &[Entry]
        ensures items { result.now ≡ self.now.press.now.pending }
        ensures room { length self.now.press.now.published + length self.now.press.now.pending ≤ self.now.press.now.template.entries }
    {
        let press = &*self.press;
        press.pending.as_slice()
    }

    /// Returns what an entry with this operation and moment asks after those that were published or stepped: the argument whose start
    /// decides the reply, if there is one. It returns `None` if these are as many entries as the template allows.
    pub fn asks(&self, operation: &Operation, moment: u64) -> Option<Asked>
        ensures full { IfNone result (length (so_far self.now.press.now) ≡ self.now.press.now.template.entries) }
        ensures room { IfSome result (λ _. length (so_far self.now.press.now) < self.now.press.now.template.entries) }
        ensures value { IfSome result (λ asked. asked.arg ≡ asked_argument (state_after self.now.press.now.template (so_far self.now.press.now)) operation.now moment) }
    {
        let press = &*self.press;
        if press.replicas.is_spent() {
            return None;
        }
        Some(press.replicas.asks(operation, moment))
    }

    /// Steps the first pending entry that was not yet stepped, for which this was asked, and returns the reply to it. An entry that was
    /// never stepped is published anyway.
    pub fn step(&mut self, asked: &Asked) -> Reply
        requires some { self.old.press.now.stepped < length self.old.press.now.pending }
        ensures same_press { self.new.press.ghost_name ≡ self.old.press.ghost_name }
        ensures reply { (entry : Entry) → slice_get self.old.press.now.pending self.old.press.now.stepped ≡ Some entry → result ≡ reply_after self.old.press.now.template (so_far self.old.press.now) entry }
        ensures next { self.new.press.now ≡ record self.old.press.now { stepped = self.old.press.now.stepped + 1 } }
    {
        let press = &mut *self.press;
        let entry = &press.pending[press.stepped];
        let reply = press.replicas.step(entry, asked);
        press.stepped += 1;
        reply
    }

    /// Publishes what is pending, in order and in one step: all of it is one publication, and no front ends within it. An entry that was never
    /// stepped is published as well. It takes no memory, and waits for no look. What a batch of more than 64 entries took is given back
    /// with the next publication.
    pub fn publish<R: Wait>(self, rt: &R)
        ensures { (out : Bool) × (self.exit.0.now ≡ record self.entry.press.now { editions = self.entry.press.now.editions ++ in_one_step self.entry.press.now.pending; published = self.entry.press.now.published ++ self.entry.press.now.pending; pending = []; stepped = 0; is_out = out }) }
    {
        let press = &mut *self.press;
        if press.pending.is_empty() {
            return;
        }
        press.replicas.take_all(&press.pending[press.stepped..]);
        let front = extended(&mut press.history, press.pending.as_slice());
        press.stepped = 0;
        press.replicas.show(rt, &mut press.pending, &front);
    }
}

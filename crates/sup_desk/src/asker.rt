//! Askers: the queries of a desk, which take no lock and never wait.
ghost use Rattle.std.specs.Prelude.{◌≡◌, length, ◌⊎◌, IfOk, IsOk};
ghost use mathlib.Core.List.{IsPrefix};
ghost use Rattle.sup_core.specs.State.{MatchSeen};
ghost use Rattle.sup_core.specs.Queries.{which, count, child};
ghost use Rattle.sup_log.specs.Tokens.{sight, history_of};
ghost use Rattle.sup_desk.specs.Asking.{IsAnswered};

use crate::faults::QueryFault;
use crate::name::Name;
use std::marker::{Model, PhantomData};
use sup_log::{Gone, Lens, Ticket, View};
use sup_types::{Counts, Row, Seen, Template};

/// Asks the desk that `N` names: each query is answered at one front that begins with what the asker has seen, and is then what it has seen.
/// It borrows nothing, and may go to any thread. Its queries take no lock and are proved to return, `inspect` if its function does.
#[derive(Drop)]
pub struct Asker<N: Name> {
    pub(crate) lens: Lens,
    of: PhantomData<N>,
}

impl<N: Name> Model for Asker<N> {
    ghost use Rattle.std.specs.Prelude.{◌≡◌};
    ghost use Rattle.sup_desk.specs.Knowledge.{Asking};

    ghost Value = { Asking };

    ghost view = { λ a. record { editions = a.lens.editions; front = a.lens.front } };

    ghost invariant = { λ a. (a.lens.press ≡ N.press) × (a.lens.template ≡ N.template) };
}

/// Calls `f` once with the view, unless the supervisor is down.
fn inspected<T, F: FnOnce(&View) -> T>(view: &View, f: F) -> Seen<T>
    requires { F.IsAlwaysCallable f }
    ensures { IsAnswered F.FnOnce f view.now view.now.standing.down result }
{
    if view.is_down() {
        return Seen::Down;
    }
    Seen::Up(f(view))
}

impl<N: Name> Asker<N> {
    /// Makes an asker that has seen what the lens has.
    pub(crate) fn begin(lens: Lens) -> Asker<N>
        requires { (lens.press ≡ N.press) × (lens.template ≡ N.template) }
        ensures { result ≡ record { editions = lens.editions; front = lens.front } }
    {
        Asker {
            lens,
            of: PhantomData,
        }
    }

    /// Returns the length of its front, in entries. The front ends with a whole publication. It enters nothing.
    pub fn front(&self) -> u64
        ensures front { result ≡ length self.now.front }
        ensures whole { self.now.front ≡ history_of self.now.editions }
    {
        self.lens.front().stamp()
    }

    /// Returns the template of the children (OTP's manual of `supervisor`, `get_childspec/2`). It enters nothing.
    pub fn template(&self) -> &Template
        ensures { result.now ≡ N.template }
    {
        self.lens.template()
    }

    /// Returns how many children there are at one front, which begins with all that it had seen or learnt (OTP's manual of `supervisor`,
    /// `count_children/1`).
    ///
    /// # Errors
    /// `Gone` if the desk has ended.
    pub fn count_children(&mut self) -> Result<Seen<Counts>, Gone>
        ensures front { IsPrefix self.old.front self.new.front }
        ensures editions { IsPrefix self.old.editions self.new.editions }
        ensures answer { IfOk result (λ answer. answer ≡ count N.template self.new.front) }
    {
        self.inspect(|view| view.counts())
    }

    /// Returns the listed child with this number at such a front, with the error of [`Asker::count_children`].
    pub fn child(&mut self, number: u64) -> Result<Seen<Option<Row>>, Gone>
        ensures front { IsPrefix self.old.front self.new.front }
        ensures editions { IsPrefix self.old.editions self.new.editions }
        ensures answer { IfOk result (λ answer. answer ≡ child N.template self.new.front number) }
    {
        self.inspect(|view| view.get(number))
    }

    /// Returns the listed children at such a front, in ascending order of number (OTP's manual of `supervisor`, `which_children/1`).
    ///
    /// # Errors
    /// `Gone` if the desk has ended, `OutOfMemory` if there is no memory for the list.
    pub fn which_children(&mut self) -> Result<Seen<Vec<Row>>, QueryFault>
        ensures front { IsPrefix self.old.front self.new.front }
        ensures editions { IsPrefix self.old.editions self.new.editions }
        ensures answer { IfOk result (λ seen. MatchSeen seen (λ rows. which N.template self.new.front ≡ Seen.Up rows.items) (which N.template self.new.front ≡ Seen.Down)) }
    {
        match self.inspect(|view| view.rows())? {
            Seen::Up(rows) => Ok(Seen::Up(rows?)),
            Seen::Down => Ok(Seen::Down),
        }
    }

    /// Calls `f` once on a view at such a front, and not at all if the supervisor is down. `f` must make no update, no handle and no asker:
    /// these wait for the lock, and the thread that has it may wait for this look. `f` should be short: an update that waits for this look
    /// yields and does not sleep, so it keeps its core busy.
    ///
    /// # Errors
    /// `Gone` if the desk has ended. Then `f` is not called.
    pub fn inspect<T, F: FnOnce(&View) -> T>(&mut self, f: F) -> Result<Seen<T>, Gone>
        requires { F.IsAlwaysCallable f }
        ensures front { IsPrefix self.old.front self.new.front }
        ensures editions { IsPrefix self.old.editions self.new.editions }
        ensures answer { let view = sight (record { press = N.press; template = N.template; editions = self.new.editions; front = self.new.front })
            in IfOk result (λ seen. IsAnswered F.FnOnce f view view.standing.down seen) }
    {
        self.lens.look(|view| inspected(view, f))
    }

    /// Makes each later front begin with the ticket's, which is of the same desk. It enters nothing and always succeeds.
    pub fn learn(&mut self, ticket: &Ticket) -> Result<(), Gone>
        requires { ticket.now.press ≡ N.press }
        ensures answered { IsOk result }
        ensures front { IsPrefix self.old.front self.new.front }
        ensures editions { IsPrefix self.old.editions self.new.editions }
        ensures learnt { IsPrefix ticket.now.front self.new.front × IsPrefix ticket.now.editions self.new.editions }
        ensures either { ((self.new.front ≡ self.old.front) × (self.new.editions ≡ self.old.editions)) ⊎ ((self.new.front ≡ ticket.now.front) × (self.new.editions ≡ ticket.now.editions)) }
    {
        self.lens.learn(ticket)
    }
}

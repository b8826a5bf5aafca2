//! Lenses, which look at the replicas.
ghost use Rattle.std.specs.Prelude.{◌≡◌, ◌⊎◌, true, IfOk, IfSome, OnErr, IsOk};
ghost use Rattle.std.specs.Fn.{FnOnceReturnsAt};
ghost use mathlib.Core.List.{IsPrefix};
ghost use Rattle.left_right.specs.Sides.{view};
ghost use Rattle.sup_log.specs.Fronts.{Fits};
ghost use Rattle.sup_log.specs.Tokens.{sight};

use crate::faults::Gone;
use crate::publication::{Known, Published, Sees};
use crate::ticket::Ticket;
use crate::view::View;
use core::mem::replace_with;
use left_right::reader::Reader;
use std::marker::Model;
use sup_types::Template;

pub(crate) type Seat = Reader<View, Known, Published>;

/// Looks at what was published, without a lock, and never goes back. It has a place at the press until it is dropped.
#[derive(Drop)]
pub struct Lens {
    pub(crate) reader: Seat,
    pub(crate) front: Ticket,
    pub(crate) template: Template,
}

impl Model for Lens {
    ghost use Rattle.sup_log.specs.Fronts.{IsPlaceOf};
    ghost use Rattle.sup_log.specs.Tokens.{Sighted};

    ghost Value = { Sighted };

    ghost view = { λ l. record { press = l.front.press; template = l.template; editions = l.front.editions; front = l.front.front } };

    ghost invariant = { λ l. IsPlaceOf l.front.press l.template l.reader.place.me.0.client };
}

/// Enters, calls `f` once if the copy has absorbed this front, and leaves. It returns what the copy has absorbed.
fn read<T, F: FnOnce(&View) -> T>(reader: Seat, front: Ticket, f: F) -> (Seat, Option<(Ticket, T)>)
    requires named { (view reader.place).named ≡ true }
    requires press { (view reader.place).view.press ≡ front.press }
    requires callable { F.IsAlwaysCallable f }
    ensures named { (view result.0.place).named ≡ true }
    ensures fits { Fits (view reader.place).view (view result.0.place).view }
    ensures front { IfSome result.1 (λ r. (r.0.press ≡ front.press) × IsPrefix front.front r.0.front × IsPrefix front.editions r.0.editions) }
    ensures answer { IfSome result.1 (λ r. FnOnceReturnsAt F.FnOnce f (sight (record { press = r.0.press; template = (view reader.place).view.standing.template; editions = r.0.editions; front = r.0.front })) r.1) }
{
    match reader.enter_as::<Sees>() {
        Ok(reading) => {
            let view = reading.get();
            if !front.begins(view.front()) {
                return (reading.leave(), None);
            }
            let seen = view.front().copied();
            let answer = f(view);
            (reading.leave(), Some((seen, answer)))
        }
        Err(reader) => (reader, None),
    }
}

impl Lens {
    /// Enters, calls `f` once on a copy that has absorbed one front, and leaves. The front begins with all that the lens had seen or
    /// learnt, and is then what it has seen.
    ///
    /// `f` must not wait for the press, which may wait for this look. It should be short: an update yields while a look lasts, and does
    /// not sleep, so a long look keeps the updater's core busy.
    ///
    /// # Errors
    /// `Gone` if the press has ended. Then `f` is not called, and nothing changes.
    pub fn look<T, F: FnOnce(&View) -> T>(&mut self, f: F) -> Result<T, Gone>
        requires { F.IsAlwaysCallable f }
        ensures press { (self.new.press ≡ self.old.press) × (self.new.template ≡ self.old.template) }
        ensures front { IsPrefix self.old.front self.new.front }
        ensures editions { IsPrefix self.old.editions self.new.editions }
        ensures answer { IfOk result (λ r. FnOnceReturnsAt F.FnOnce f (sight self.new) r) }
        ensures gone { OnErr result (self.new ≡ self.old) }
    {
        let looked = replace_with(
            &mut self.reader,
            (self.front.copied(), f),
            |reader, (front, f)| read(reader, front, f),
        );
        match looked {
            Some((seen, answer)) => {
                self.front = seen;
                Ok(answer)
            }
            None => Err(Gone),
        }
    }

    /// Makes each later front begin with the ticket's. It enters nothing and always succeeds.
    pub fn learn(&mut self, ticket: &Ticket) -> Result<(), Gone>
        requires { ticket.now.press ≡ self.old.press }
        ensures answered { IsOk result }
        ensures press { (self.new.press ≡ self.old.press) × (self.new.template ≡ self.old.template) }
        ensures front { IsPrefix self.old.front self.new.front × IsPrefix ticket.now.front self.new.front }
        ensures editions { IsPrefix self.old.editions self.new.editions × IsPrefix ticket.now.editions self.new.editions }
        ensures either { ((self.new.front ≡ self.old.front) × (self.new.editions ≡ self.old.editions)) ⊎ ((self.new.front ≡ ticket.now.front) × (self.new.editions ≡ ticket.now.editions)) }
    {
        if !ticket.begins(&self.front) {
            self.front = ticket.copied();
        }
        Ok(())
    }

    /// Returns the template of the supervisor that it looks at. It enters nothing.
    pub fn template(&self) -> &Template
        ensures { result.now ≡ self.now.template }
    {
        &self.template
    }

    /// Returns the front that it has seen or learnt. It enters nothing.
    pub fn front(&self) -> &Ticket
        ensures { result.now ≡ record { press = self.now.press; editions = self.now.editions; front = self.now.front } }
    {
        &self.front
    }
}

//! The session registry: which handles were made, and what each of them entered. No two tokens have one number.
//!
//! Both exist in the proofs alone. There they are the views of the seats of an `atomic_table`, under the rule in `specs/Sessions`; the
//! steps load its one word and do nothing else. The session registry lies under the desk's lock, and each handle has its token.
ghost use Rattle.std.specs.Prelude.{◌≡◌, ◌+◌, ◌++◌, ◌<◌, ◌^◌, [], length, IfOk};
ghost use Rattle.sup_desk.specs.Books.{IsMade};
ghost use Rattle.sup_desk.specs.Knowledge.{entries_of};

use atomic_table::{Join, Play, Seat, Split, Table, TableRule};
use core::mem::replace;
use std::alloc::{AllocError, Global};
use std::collections::LinkedList;
use std::marker::{Brand, Model, PhantomData};
use sup_types::Entry;

/// What a seat knows. The keeper's has all that was entered, and how many handles were made. That of a token has its number, and what was
/// entered under it. No value of it is made.
pub struct Known {
    pub keeps: bool,
    pub history: LinkedList<Entry>,
    pub made: u64,
    pub is_token: bool,
    pub number: u64,
    pub calls: LinkedList<Entry>,
}

/// The session registry's rule.
pub struct Enrolment;

impl TableRule<(), Known, ()> for Enrolment {
    ghost use Rattle.std.specs.Prelude.{[]};
    ghost use Rattle.sup_desk.specs.Sessions.{Enrols, keeper_view};

    ghost holds = { λ key s. Enrols s.views };

    ghost first = { λ key. keeper_view [] 0 };
}

/// One handle more is made.
struct Opens;

impl Split<Known> for Opens {
    ghost use Rattle.sup_desk.specs.Sessions.{opened, newcomer};

    ghost left = { opened };

    ghost right = { newcomer };
}

/// A seat that knows nothing is made, to take a token's place.
struct Spares;

impl Split<Known> for Spares {
    ghost use Rattle.sup_desk.specs.Sessions.{nobody};

    ghost left = { λ v. v };

    ghost right = { λ v. nobody };
}

/// The keeper takes in a token.
struct Takes;

impl Join<Known> for Takes {
    ghost use Rattle.sup_desk.specs.Sessions.{joined, nobody};

    ghost both = { joined };

    ghost spent = { nobody };
}

/// The keeper hands the token back.
struct Hands;

impl Split<Known> for Hands {
    ghost use Rattle.sup_desk.specs.Sessions.{kept, handed};

    ghost left = { kept };

    ghost right = { handed };
}

/// Entries that are added to a session registry. Each step picks them.
pub trait Added {
    ghost use Rattle.std.specs.Prelude.{List};
    ghost use Rattle.sup_types.specs.declared.history.Entry.{Entry};

    ghost entries: { List Entry };
}

impl Added for Brand {
    ghost use Rattle.std.specs.Prelude.{[]};

    ghost entries = { [] };
}

/// The keeper compares the token that it has taken in with all that was entered, and enters these entries under it.
struct Enters<E> {
    entries: PhantomData<E>,
}

impl<E: Added> Play<(), Known> for Enters<E> {
    ghost use Rattle.sup_desk.specs.Sessions.{Entered};

    ghost then = { Entered E.entries };
}

type Place = Seat<(), Known>;

/// What lies under the lock: all that was entered, and how many handles were made.
#[derive(Drop)]
pub struct SessionRegistry {
    table: Table<(), Known, (), Enrolment, Global>,
    keeper: Place,
}

impl Model for SessionRegistry {
    ghost use Rattle.std.specs.Prelude.{◌≡◌, ◌<◌, []};
    ghost use Rattle.sup_desk.specs.Sessions.{Enrolled, keeper_view};

    ghost Value = { Enrolled };

    ghost view = { λ r. record { id = r.table.shared.table_id; history = r.keeper.me.0.history; made = r.keeper.me.0.made } };

    ghost invariant = { λ r. (r.keeper.table_id ≡ r.table.shared.table_id) × (0 < r.table.shared.table_id.words)
        × (r.keeper.me ≡ (keeper_view r.keeper.me.0.history r.keeper.me.0.made, [])) };
}

/// A handle's right to its number: what it has entered, and no one else has.
#[derive(Drop)]
pub struct SessionToken {
    seat: Place,
    number: u64,
    count: u64,
}

impl Model for SessionToken {
    ghost use Rattle.std.specs.Prelude.{◌≡◌, [], length};
    ghost use Rattle.sup_desk.specs.Sessions.{TokenState, token_view};

    ghost Value = { TokenState };

    ghost view = { λ c. record { sessions = c.seat.table_id; number = c.number; calls = c.seat.me.0.calls } };

    ghost invariant = { λ c. (c.seat.me ≡ (token_view c.number c.seat.me.0.calls, [])) × (c.count ≡ length c.seat.me.0.calls) };
}

impl SessionToken {
    /// Returns the number.
    pub fn number(&self) -> u64
        ensures { result ≡ self.now.number }
    {
        self.number
    }

    /// Returns how many entries were made under it.
    pub fn count(&self) -> u64
        ensures { result ≡ length self.now.calls }
    {
        self.count
    }
}

impl SessionRegistry {
    /// Makes a session registry of no handle, on which nothing was entered.
    pub fn new(alloc: Global) -> Result<SessionRegistry, AllocError>
        ensures { IfOk result (λ r. (r.history ≡ []) × (r.made ≡ 0)) }
    {
        let (table, keeper) = Table::of_words(alloc, &[0], &())?;
        Ok(SessionRegistry { table, keeper })
    }

    /// Makes one handle more: its token, to the next number, under which nothing was entered.
    pub fn open(&mut self, number: u64) -> SessionToken
        requires number { number ≡ self.old.made + 1 }
        requires none { entries_of self.old.history number ≡ [] }
        ensures made { self.new ≡ record self.old { made = self.old.made + 1 } }
        ensures token { result ≡ record { sessions = self.old.id; number = number; calls = [] } }
    {
        let SessionRegistry { table, keeper } = self;
        let seat = table.shared.split_seat::<Opens>(keeper);
        SessionToken {
            seat,
            number,
            count: 0,
        }
    }

    /// Enters these entries under the token's number, which is theirs. What was entered under that number before is the calls of the token,
    /// and a handle with this number was made.
    pub fn enter<E: Added>(&mut self, token: &mut SessionToken, entries: &[Entry])
        requires entries { entries.now ≡ E.entries }
        requires sessions { token.old.sessions ≡ self.old.id }
        requires mine { entries_of E.entries token.old.number ≡ E.entries }
        requires room { length self.old.history + length E.entries < 2 ^ 64 }
        ensures met { entries_of self.old.history token.old.number ≡ token.old.calls }
        ensures made { IsMade self.old.made token.old.number }
        ensures entered { self.new ≡ record self.old { history = self.old.history ++ E.entries } }
        ensures token { token.new ≡ record token.old { calls = token.old.calls ++ E.entries } }
    {
        let SessionRegistry { table, keeper } = self;
        let spare = table.shared.split_seat::<Spares>(keeper);
        let seat = replace(&mut token.seat, spare);
        table.shared.join_seat::<Takes>(keeper, seat);
        table.shared.load::<Enters<E>>(keeper, 0);
        token.seat = table.shared.split_seat::<Hands>(keeper);
        token.count += entries.len() as u64;
    }
}

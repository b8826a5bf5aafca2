ghost use Rattle.std.specs.Prelude.{◌≡◌, ◌+◌, ◌-◌, ◌<◌, ◌≤◌, ◌^◌, ◌⊎◌, [], ◌∷◌, ◌++◌, length, IfOk, IfSome, IfNone};
ghost use Rattle.sup_exits.specs.Holdings.{holding};
ghost use Rattle.sup_exits.specs.Accounts.{IsNew, IsSettled, capped};

use crate::exit::Child;
use crate::rule::{
    Balance, Bounding, Holding, Joining, Learning, Made, Making, Paying, Place, Splitting,
};
use atomic_table::Table;
use std::alloc::{AllocError, Global};
use std::marker::{Brand, Model};
use sup_types::Text;

/// How many parts a ledger has: more than there are ever accounts.
const PARTS: u64 = u64::MAX;

/// A ledger, shared by reference among its accounts.
#[derive(Drop)]
pub struct Ledger {
    table: Table<(), Holding, u64, Balance, Global>,
}

impl Model for Ledger {
    ghost use Rattle.std.specs.Prelude.{◌≡◌, ◌<◌, ◌-◌, ◌^◌};
    ghost use Rattle.sup_exits.specs.Accounts.{Opened};

    ghost Value = { Opened };

    ghost view = { λ l. record { id = l.table.shared.table_id } };

    ghost invariant = { λ l. (0 < l.table.shared.table_id.words) × (l.table.shared.key ≡ 2 ^ 64 - 1) };
}

/// The children that were made by this account, and those whose exit it paid. It may go to another thread.
#[derive(Drop)]
pub struct Account {
    seat: Place,
    parts: u64,
    made: u64,
    paid: u64,
}

impl Model for Account {
    ghost use Rattle.std.specs.Prelude.{◌≡◌, [], length};
    ghost use Rattle.sup_exits.specs.Holdings.{holding};
    ghost use Rattle.sup_exits.specs.Accounts.{Accounted, capped};

    ghost Value = { Accounted };

    ghost view = { λ a. record { ledger = a.seat.table_id; parts = a.seat.me.0.parts; made = a.seat.me.0.made; paid = a.seat.me.0.paid } };

    ghost invariant = { λ a. (a.seat.me ≡ (holding a.seat.me.0.parts a.seat.me.0.made a.seat.me.0.paid [], []))
        × (a.parts ≡ a.seat.me.0.parts) × (a.made ≡ capped (length a.seat.me.0.made)) × (a.paid ≡ capped (length a.seat.me.0.paid)) };
}

/// The exit that is owed by a child which was made. It is neither `Clone` nor `Drop`: it is paid, or lost.
pub struct Debt {
    seat: Place,
    child: Child,
}

impl Model for Debt {
    ghost use Rattle.std.specs.Prelude.{◌≡◌, [], ◌∷◌};
    ghost use Rattle.sup_exits.specs.Holdings.{holding};
    ghost use Rattle.sup_exits.specs.Accounts.{Owed};

    ghost Value = { Owed };

    ghost view = { λ d. record { ledger = d.seat.table_id; child = d.child } };

    ghost invariant = { λ d. d.seat.me ≡ (holding 0 [] [] (d.child ∷ []), []) };
}

/// What all accounts add up to.
#[derive(Clone, Copy, Debug, PartialEq, Eq)]
pub struct Totals {
    /// How many children were made, at most 2^64 - 1.
    pub made: u64,
    /// How many of them owe an exit. `None` if a part of the ledger was missing, or 2^64 - 1 children or more were made.
    pub owed: Option<u64>,
}

impl Account {
    /// Returns how many exits it paid, at most 2^64 - 1.
    pub fn paid(&self) -> u64
        ensures { result ≡ capped (length self.now.paid) }
    {
        self.paid
    }
}

impl Debt {
    /// Returns the child that owes its exit.
    pub fn child(&self) -> Child
        ensures { result ≡ self.now.child }
    {
        self.child
    }

    /// Lets it go unpaid. It stays owed.
    pub fn lose(self) {
        let Debt { seat: _, child: _ } = self;
    }
}

impl Ledger {
    /// Makes a ledger, and the account of all its parts, by which no child was made.
    pub fn new(alloc: Global) -> Result<(Ledger, Account), AllocError>
        ensures { IfOk result (λ r. IsNew r.0.id (2 ^ 64 - 1) r.1) }
    {
        let (table, seat) = Table::of_words(alloc, &[0], &PARTS)?;
        Ok((
            Ledger { table },
            Account {
                seat,
                parts: PARTS,
                made: 0,
                paid: 0,
            },
        ))
    }

    /// Takes a part out of this account, and returns the account of it, by which no child was made, or `None` if the account has only one.
    pub fn split(&self, account: &mut Account) -> Option<Account>
        requires ledger { account.old.ledger ≡ self.now.id }
        ensures some { IfSome result (λ part. IsNew self.now.id 1 part × (1 < account.old.parts) × (account.new ≡ record account.old { parts = account.old.parts - 1 })) }
        ensures none { IfNone result ((account.old.parts ≤ 1) × (account.new ≡ account.old)) }
    {
        if account.parts < 2 {
            return None;
        }
        account.parts -= 1;
        let seat = self.table.shared.split_seat::<Splitting>(&mut account.seat);
        Some(Account {
            seat,
            parts: 1,
            made: 0,
            paid: 0,
        })
    }

    /// Makes a child, which owes its exit.
    pub fn make(&self, account: &mut Account, child: Child) -> Debt
        requires ledger { account.old.ledger ≡ self.now.id }
        requires part { 0 < account.old.parts }
        ensures account { account.new ≡ record account.old { made = account.old.made ++ child ∷ [] } }
        ensures debt { result ≡ record { ledger = self.now.id; child = child } }
    {
        self.make_by::<Brand>(account, child)
    }

    fn make_by<C: Made>(&self, account: &mut Account, child: Child) -> Debt
        requires child { child ≡ C.child }
        requires ledger { account.old.ledger ≡ self.now.id }
        requires part { 0 < account.old.parts }
        ensures account { account.new ≡ record account.old { made = account.old.made ++ C.child ∷ [] } }
        ensures debt { result ≡ record { ledger = self.now.id; child = C.child } }
    {
        let seat = self.table.shared.split_seat::<Making<C>>(&mut account.seat);
        account.made = account.made.saturating_add(1);
        Debt { seat, child }
    }

    /// Pays the exit that is owed.
    pub fn pay(&self, account: &mut Account, debt: Debt)
        requires ledger { (account.old.ledger ≡ self.now.id) × (debt.ledger ≡ self.now.id) }
        requires part { 0 < account.old.parts }
        ensures { account.new ≡ record account.old { paid = account.old.paid ++ debt.child ∷ [] } }
    {
        let Debt { seat, child: _ } = debt;
        self.table
            .shared
            .join_seat::<Paying>(&mut account.seat, seat);
        account.paid = account.paid.saturating_add(1);
    }

    /// Joins another account to this one.
    pub fn join(&self, account: &mut Account, other: Account)
        requires { (account.old.ledger ≡ self.now.id) × (other.ledger ≡ self.now.id) }
        ensures { account.new ≡ record { ledger = self.now.id; parts = account.old.parts + other.parts; made = account.old.made ++ other.made; paid = account.old.paid ++ other.paid } }
    {
        let Account {
            seat,
            parts,
            made,
            paid,
        } = other;
        self.table
            .shared
            .join_seat::<Joining>(&mut account.seat, seat);
        // No account has more parts than there are.
        self.table.shared.load::<Bounding>(&mut account.seat, 0);
        account.parts += parts;
        account.made = account.made.saturating_add(made);
        account.paid = account.paid.saturating_add(paid);
    }

    /// Returns how many children were made, and how many of them owe an exit, by the account that all others were joined to.
    pub fn settle(&self, account: Account) -> Totals
        requires ledger { account.ledger ≡ self.now.id }
        ensures made { result.made ≡ capped (length account.made) }
        ensures owed { IfSome result.owed (λ owed. IsSettled account result.made owed) }
        ensures unknown { IfNone result.owed ((account.parts < 2 ^ 64 - 1) ⊎ (2 ^ 64 - 1 ≤ length account.made)) }
    {
        let Account {
            mut seat,
            parts,
            made,
            paid,
        } = account;
        if parts < PARTS || made == u64::MAX {
            return Totals { made, owed: None };
        }
        self.table.shared.load::<Learning>(&mut seat, 0);
        let owed = Some(made - paid);
        Totals { made, owed }
    }
}

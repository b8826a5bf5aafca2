//! The rule of a ledger, and its steps: a part is given away, a child made, an exit paid, a seat joined; a seat learns a bound or what is owed.
ghost use Rattle.std.specs.Prelude.{[], ◌∷◌, ◌++◌, ◌+◌, ◌-◌};
ghost use Rattle.sup_exits.specs.Holdings.{Balances, Bounds, Learns, holding, nothing};

use crate::exit::Child;
use atomic_table::{Join, Play, Seat, Split, TableRule};
use std::collections::LinkedList;
use std::marker::{Brand, PhantomData};

/// Says what a seat holds: parts of the ledger, the children made and paid there, and those whose exit it owes. No value of it is made.
pub struct Holding {
    pub parts: u64,
    pub made: LinkedList<Child>,
    pub paid: LinkedList<Child>,
    pub owes: LinkedList<Child>,
}

pub struct Balance;

impl TableRule<(), Holding, u64> for Balance {
    ghost holds = { λ parts s. Balances parts s.views };

    ghost first = { λ parts. holding parts [] [] [] };
}

pub(crate) struct Splitting;

impl Split<Holding> for Splitting {
    ghost left = { λ v. holding (v.parts - 1) v.made v.paid v.owes };

    ghost right = { λ v. holding 1 [] [] [] };
}

pub(crate) trait Made {
    ghost use Rattle.sup_exits.specs.declared.exit.Child.{Child};

    ghost child: { Child };
}

impl Made for Brand {
    ghost use Rattle.sup_exits.specs.Holdings.{nobody};

    ghost child = { nobody };
}

pub(crate) struct Making<C> {
    of: PhantomData<C>,
}

impl<C: Made> Split<Holding> for Making<C> {
    ghost left = { λ v. holding v.parts (v.made ++ C.child ∷ []) v.paid v.owes };

    ghost right = { λ v. holding 0 [] [] (C.child ∷ []) };
}

pub(crate) struct Paying;

impl Join<Holding> for Paying {
    ghost both = { λ v u. holding v.parts v.made (v.paid ++ u.owes) v.owes };

    ghost spent = { nothing };
}

pub(crate) struct Joining;

impl Join<Holding> for Joining {
    ghost both = { λ v u. holding (v.parts + u.parts) (v.made ++ u.made) (v.paid ++ u.paid) (v.owes ++ u.owes) };

    ghost spent = { nothing };
}

pub(crate) struct Bounding;

impl Play<(), Holding> for Bounding {
    ghost then = { Bounds };
}

pub(crate) struct Learning;

impl Play<(), Holding> for Learning {
    ghost then = { Learns };
}

pub(crate) type Place = Seat<(), Holding>;

//! The rule of the inbox's queue, and the steps under it. The types exist for proofs: no value of a view is made.
ghost use Rattle.std.specs.Prelude.{◌≡◌, ◌≤◌, length};
ghost use Rattle.sup_inbox.specs.Delivery.{Delivers, root, opened, seat, gathered, nobody, posts, takes, total, IsSettled};

use crate::note::Note;
use crossbeam_queue::protocol::{Join, Lesson, Outcome, Protocol, Split};
use crossbeam_queue::{Pass, RuledArrayQueue};
use std::collections::LinkedList;

pub struct Sent {
    pub poster: u64,
    pub notes: LinkedList<Note>,
}

/// What a pass knows: a poster's what it posted, the taker's what was taken, and what each poster posted that was gathered in.
pub struct View {
    pub posts: bool,
    pub poster: u64,
    pub posted: LinkedList<Note>,
    pub takes: bool,
    pub made: u64,
    pub taken: LinkedList<Note>,
    pub gathered: LinkedList<Sent>,
}

pub struct Delivery;

impl Protocol<Note, View> for Delivery {
    ghost holds = { Delivers };

    ghost first = { root };
}

pub struct Opens;

impl Split<View> for Opens {
    ghost left = { opened };

    ghost right = { seat };
}

pub struct Gathers;

impl Join<View> for Gathers {
    ghost both = { gathered };

    ghost spent = { nobody };
}

pub struct Posts;

impl Outcome<Note, View> for Posts {
    ghost then = { λ v x w. w ≡ posts v x };
}

impl Lesson<Note, View> for Posts {
    ghost fact = { λ v items. Unit {0} };
}

pub struct Takes;

impl Outcome<Note, View> for Takes {
    ghost then = { λ v x w. w ≡ takes v x };
}

impl Lesson<Note, View> for Takes {
    ghost fact = { λ v items. Unit {0} };
}

/// A note is taken once all posters were gathered in: there are no more notes than these posted.
pub struct Empties;

impl Outcome<Note, View> for Empties {
    ghost then = { λ v x w. (w ≡ takes v x) × (length w.taken ≤ total v.gathered) };
}

impl Lesson<Note, View> for Empties {
    ghost fact = { IsSettled };
}

pub type Queue<A> = RuledArrayQueue<Note, View, Delivery, A>;

pub type Place = Pass<Note, View>;

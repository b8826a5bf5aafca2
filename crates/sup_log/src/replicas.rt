//! The two replicas, one of which lenses see: a writer of `left_right`.
//!
//! An update is decided and stepped on the copy that is not shown. So that copy is taken out of the reach of lenses first, which waits
//! for the looks that still use it, and a publication shows it. The other copy lacks the entries of that publication: they are kept
//! until it takes them. The queue of operations of `left_right`'s writer stays empty, since it takes memory for each publication.
ghost use Rattle.std.specs.Prelude.{◌≡◌, ◌==◌, ◌<◌, ◌≤◌, List, [], fold, true, false, IfOk};
ghost use Rattle.left_right.specs.Sides.{view};
ghost use Rattle.sup_types.specs.declared.history.Entry.{Entry};
ghost use Rattle.sup_core.specs.Replies.{asked_argument};
ghost use Rattle.sup_core.specs.Account.{IsAfter, state_after, reply_after};
ghost use Rattle.sup_log.specs.Absorbing.{taken, grown};
ghost use Rattle.sup_log.specs.Fronts.{Follows, known};
ghost use Rattle.sup_log.specs.Tokens.{IsFresh};

use crate::faults::NoPlace;
use crate::lens::Seat;
use crate::publication::{Known, Published, Sees, Takes, Tells};
use crate::ticket::Ticket;
use crate::view::View;
use core::mem::{replace_with, swap};
use left_right::writer::Writer;
use std::alloc::Global;
use std::marker::Model;
use std::sync::Wait;
use sup_core::{Asked, CachedIndex};
use sup_types::{Entry, Operation, OutOfMemory, Reply, Template};

/// The most entries for which a list keeps its memory after a publication.
const FEW_ENTRIES: usize = 64;

type Ends = Writer<View, (), Known, Published>;

/// The writer, which has two views, and a third one. One of the three is a placeholder, which is never shown.
struct Sides {
    writer: Ends,
    back: Box<View>,
}

/// Holds the two replicas, one of which lenses see. It is not `Drop`: end it by `close`.
pub struct Replicas {
    // The copy that is not shown is at the back, once it is out of the reach of lenses: then it lacks nothing. Before that the writer has it.
    sides: Sides,
    is_out: bool,
    // The entries of the last publication, which that copy lacks while the writer has it.
    unapplied: Vec<Entry>,
    // Where the other copy found the children of the first of these entries. This copy has them there, too.
    cached_indices: Vec<CachedIndex>,
    template: Template,
}

impl Model for Replicas {
    ghost use Rattle.std.specs.Prelude.{◌≡◌, if◌then◌else◌, fold};
    ghost use Rattle.sup_log.specs.Absorbing.{taken};
    ghost use Rattle.sup_log.specs.Fronts.{known};
    ghost use Rattle.sup_log.specs.Tokens.{Sides};

    ghost Value = { Sides };

    ghost view = { λ c. record {
      shown = c.sides.writer.desk.shown.value;
      next = if c.is_out then c.sides.back.value.standing else fold taken c.sides.writer.desk.spare.value.standing c.unapplied.items;
      is_out = c.is_out;
    } };

    ghost invariant = { λ c. (c.sides.writer.desk.place.me.0.client ≡ known c.sides.writer.desk.shown.value)
        × (c.sides.writer.desk.shown.value.standing.template ≡ c.template) };
}

/// Makes a copy that is never shown, of the smallest supervisor.
fn placeholder(alloc: Global, front: &Ticket) -> Result<View, OutOfMemory>
    requires { front.now.front ≡ [] }
{
    match Template::standard(1, 1) {
        Ok(smallest) => View::new(alloc, smallest, front.copied()),
        Err(_) => unreachable!(),
    }
}

/// Makes a writer of a copy, which is shown, and a placeholder.
fn opened(
    alloc: Global,
    template: Template,
    places: usize,
    front: &Ticket,
) -> Result<Ends, OutOfMemory>
    requires front { front.now.front ≡ [] }
    requires places { (0 < places) × (places ≤ 1024) }
    ensures { IfOk result (λ w. IsFresh front.now template w.desk.shown.value) }
{
    let first = View::new(alloc, template, front.copied())?;
    Ok(Writer::new(alloc, first, placeholder(alloc, front)?, places)?)
}

/// Shows the replica at the back, and puts the placeholder there.
fn flip<R: Wait>(sides: Sides, rt: &R) -> (Sides, ())
    requires { Follows sides.writer.desk.shown.value sides.back.value }
    ensures known { view result.0.writer.desk.place ≡ known result.0.writer.desk.shown.value }
    ensures shown { result.0.writer.desk.shown.value ≡ sides.back.value }
    ensures spare { result.0.writer.desk.spare.value ≡ sides.writer.desk.shown.value }
{
    let Sides { mut writer, back } = sides;
    let back = replace_with(
        &mut writer.desk,
        back,
        |desk, next: Box<View>|
            requires { Follows desk.shown.value next.value }
            ensures known { view result.0.place ≡ known result.0.shown.value }
            ensures shown { result.0.shown.value ≡ next.value }
            ensures spare { result.0.spare.value ≡ desk.shown.value }
        {
            let (open, placeholder) = desk.open(rt);
            (open.show_as::<Sees>(next), placeholder)
        },
    );
    (Sides { writer, back }, ())
}

/// Takes the hidden replica to the back, and gives the writer the placeholder. It waits for the looks that still use that replica.
fn lift<R: Wait>(sides: Sides, rt: &R) -> (Sides, ())
    ensures shown { result.0.writer.desk.shown.value ≡ sides.writer.desk.shown.value }
    ensures seat { view result.0.writer.desk.place ≡ view sides.writer.desk.place }
    ensures copy { result.0.back.value ≡ sides.writer.desk.spare.value }
{
    let Sides { mut writer, back } = sides;
    let back = replace_with(
        &mut writer.desk,
        back,
        |desk, placeholder: Box<View>|
            ensures shown { result.0.shown.value ≡ desk.shown.value }
            ensures seat { view result.0.place ≡ view desk.place }
            ensures copy { result.1.value ≡ desk.spare.value }
        {
            let (open, replica) = desk.open(rt);
            (open.shelve(placeholder), replica)
        },
    );
    (Sides { writer, back }, ())
}

/// Returns a place for a lens, which knows the copy that is shown. It waits for nothing.
fn seat_of(writer: &mut Ends) -> Result<Seat, NoPlace>
    requires { view writer.old.desk.place ≡ known writer.old.desk.shown.value }
    ensures shown { writer.new.desk.shown ≡ writer.old.desk.shown }
    ensures spare { writer.new.desk.spare ≡ writer.old.desk.spare }
    ensures known { view writer.new.desk.place ≡ view writer.old.desk.place }
    ensures seat { IfOk result (λ s. view s.place ≡ known writer.old.desk.shown.value) }
{
    match writer.factory().reader() {
        Ok(mut seat) => {
            seat.learn::<Takes>(writer.desk.tell::<Tells>());
            Ok(seat)
        }
        Err(_) => Err(NoPlace),
    }
}

/// Keeps where a child was found, if there is room.
fn note(cached_indices: &mut Vec<CachedIndex>, cached_index: CachedIndex) {
    if cached_indices.len() < cached_indices.capacity() {
        cached_indices.push_reserved(cached_index);
    }
}

/// Empties a list. One with room for many entries gives its memory back, and none is taken for that.
fn empty(entries: &mut Vec<Entry>)
    ensures { entries.new.items ≡ [] }
{
    entries.clear();
    if entries.capacity() > FEW_ENTRIES {
        *entries = Vec::new(*entries.allocator());
    }
}

impl Replicas {
    /// Makes two replicas of a supervisor of this template, with this many places for lenses.
    pub fn new<R: Wait>(
        alloc: Global,
        rt: &R,
        template: Template,
        places: usize,
        front: &Ticket,
    ) -> Result<Replicas, OutOfMemory>
        requires front { front.now.front ≡ [] }
        requires places { (0 < places) × (places ≤ 1024) }
        ensures { IfOk result (λ c. IsFresh front.now template c.shown × (c.next ≡ c.shown.standing)) }
    {
        let cached_indices = Vec::with_capacity(alloc, FEW_ENTRIES)?;
        let Ok(second) = Box::new(alloc, View::new(alloc, template, front.copied())?) else {
            return Err(OutOfMemory);
        };
        let writer = opened(alloc, template, places, front)?;
        // No clause says what the writer has beside the replica that it shows. Once the second one is shown, that is the first.
        let (sides, ()) = flip(
            Sides {
                writer,
                back: second,
            },
            rt,
        );
        Ok(Replicas {
            sides,
            is_out: false,
            unapplied: Vec::new(alloc),
            cached_indices,
            template,
        })
    }

    /// Returns the template of the supervisor.
    pub fn template(&self) -> &Template
        ensures { result.now ≡ self.now.shown.standing.template }
    {
        &self.template
    }

    /// Returns a place for a lens, which knows the copy that is shown. It waits for nothing.
    pub fn seat(&mut self) -> Result<Seat, NoPlace>
        ensures kept { self.new ≡ self.old }
        ensures seat { IfOk result (λ s. view s.place ≡ known self.old.shown) }
    {
        seat_of(&mut self.sides.writer)
    }

    /// Takes the copy that is not shown in hand, once no look uses it, and has it step what it lacks.
    pub fn ready<R: Wait>(&mut self, rt: &R)
        ensures { self.new ≡ record self.old { is_out = true } }
    {
        if self.is_out {
            return;
        }
        replace_with(&mut self.sides, rt, |sides, rt: &R| lift(sides, rt));
        self.sides
            .back
            .take_all(self.unapplied.as_slice(), self.cached_indices.as_slice());
        self.cached_indices.clear();
        self.is_out = true;
    }

    /// Returns whether the copy in hand has taken as many entries as a history may have.
    pub fn is_spent(&self) -> bool
        requires { self.now.is_out ≡ true }
        ensures { result ≡ (self.now.next.steps == self.now.next.template.entries) }
    {
        self.sides.back.is_spent()
    }

    /// Returns what an entry with this operation and moment asks, by the copy in hand.
    pub fn asks(&self, operation: &Operation, moment: u64) -> Asked
        requires { self.now.is_out ≡ true }
        ensures { (history : List Entry) → IsAfter self.now.next history
            → result.arg ≡ asked_argument (state_after self.now.next.template history) operation.now moment }
    {
        self.sides.back.asks(operation, moment)
    }

    /// Has the copy in hand step an entry, for which this was asked.
    pub fn step(&mut self, entry: &Entry, asked: &Asked) -> Reply
        requires out { self.old.is_out ≡ true }
        requires room { self.old.next.steps < self.old.next.template.entries }
        ensures history { (history : List Entry) → IsAfter self.old.next history
            → result ≡ reply_after self.old.next.template history entry.now }
        ensures next { self.new ≡ record self.old { next = taken self.old.next entry.now } }
    {
        let reply = self.sides.back.step(entry, asked);
        note(&mut self.cached_indices, self.sides.back.cached_index());
        reply
    }

    /// Has the copy in hand take these entries, in order.
    pub fn take_all(&mut self, entries: &[Entry])
        requires { self.old.is_out ≡ true }
        ensures { self.new ≡ record self.old { next = fold taken self.old.next entries.now } }
    {
        self.sides.back.take_all(entries, &[]);
    }

    /// Shows the copy in hand, which has taken these entries more than the other one, and empties their list. It takes no memory.
    pub fn show<R: Wait>(&mut self, rt: &R, entries: &mut Vec<Entry>, front: &Ticket)
        requires out { self.old.is_out ≡ true }
        requires stepped { self.old.next ≡ fold taken self.old.shown.standing entries.old.items }
        requires follows { Follows self.old.shown (grown self.old.shown entries.old.items front.now) }
        ensures shown { self.new.shown ≡ grown self.old.shown entries.old.items front.now }
        ensures next { (self.new.next ≡ self.old.next) × (self.new.is_out ≡ false) }
        ensures none { entries.new.items ≡ [] }
    {
        self.sides.back.tell(front);
        replace_with(&mut self.sides, rt, |sides, rt: &R| flip(sides, rt));
        self.is_out = false;
        swap(&mut self.unapplied, entries);
        empty(entries);
    }

    /// Ends both replicas. It waits for the looks that still use one.
    pub fn close<R: Wait>(self, rt: &R) {
        let Replicas {
            sides: Sides {
                writer,
                back: _back,
            },
            is_out: _,
            unapplied: _lacks,
            cached_indices: _spots,
            template: _,
        } = self;
        drop(writer.take(rt));
    }
}

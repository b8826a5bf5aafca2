//! The end of an inbox: what each poster posted was taken or remains.
ghost use Rattle.std.specs.Prelude.{◌≡◌, ◌+◌, ◌≤◌, [], ◌++◌, length, map, All, IfOk, IfErr, IsOk, vec_len, vec_capacity};
ghost use Rattle.sup_inbox.specs.Delivery.{from, known_by, taker_view, IsSettled};
ghost use Rattle.sup_inbox.specs.Ends.{AreOf, sent_of, IsBy, IsPosted};

use crate::inbox::{Inbox, Poster, Taker};
use crate::note::Note;
use crate::rule::{Empties, Gathers, Place};
use std::alloc::{Allocator, Global};
use std::sync::Wait;

/// Holds the notes that nobody took.
#[derive(Drop)]
pub struct Settled<A: Allocator = Global> {
    /// In the order in which they were posted.
    pub left: Vec<Note, A>,
}

/// Holds all that was handed in to be settled, as it was, since memory was refused.
#[derive(Drop)]
pub struct Unsettled<A: Allocator = Global, B: Allocator = Global, C: Allocator = Global> {
    pub posters: Vec<Poster, B>,
    pub taker: Taker,
    pub inbox: Inbox<A>,
    pub room: Vec<Note, C>,
}

fn gather<A: Allocator, B: Allocator>(
    inbox: &Inbox<A>,
    mut pass: Place,
    posters: Vec<Poster, B>,
) -> Place
    requires pass { (pass.table_id ≡ inbox.now.id) × (pass.me.1 ≡ []) × (known_by pass ≡ taker_view (known_by pass).made (known_by pass).taken []) }
    requires posters { AreOf inbox.now.id posters.items }
    ensures pass { (result.table_id ≡ inbox.now.id) × (result.me.1 ≡ []) }
    ensures gathered { known_by result ≡ taker_view (known_by pass).made (known_by pass).taken (map sent_of posters.items) }
{
    for poster in posters {
        inbox.queue.absorb::<Gathers>(&mut pass, poster.pass);
    }
    pass
}

fn empty<R: Wait, A: Allocator, C: Allocator>(
    rt: &R,
    inbox: &Inbox<A>,
    mut pass: Place,
    room: Vec<Note, C>,
) -> Vec<Note, C>
    requires pass { (pass.table_id ≡ inbox.now.id) × (pass.me.1 ≡ []) }
    requires all { (known_by pass ≡ taker_view (known_by pass).made (known_by pass).taken (known_by pass).gathered) × (length (known_by pass).gathered ≡ (known_by pass).made) }
    requires room { (room.items ≡ []) × (inbox.now.capacity ≤ vec_capacity room) }
    ensures { IsSettled (taker_view (known_by pass).made ((known_by pass).taken ++ result.items) (known_by pass).gathered) [] }
{
    inbox.queue.len_as::<Empties, R>(rt, &mut pass);
    let mut left = room;
    for _ in rt.forever() {
        match inbox.queue.pop_as::<Empties, R>(rt, &mut pass) {
            Some(note) => left.push_reserved(note),
            None => break,
        }
    }
    left
}

/// Ends an inbox, once all its posters, in any order, and its taker are in one place. The room, which is empty before, is filled with
/// the notes that remain: for each poster, its notes among those taken and then those remaining are what it posted, in its order, and
/// there is no other note.
///
/// # Errors
/// Returns its arguments as they were if memory runs out, which cannot be if the room has space for the inbox's capacity.
pub fn settle<R: Wait, A: Allocator, B: Allocator, C: Allocator>(
    rt: &R,
    posters: Vec<Poster, B>,
    taker: Taker,
    inbox: Inbox<A>,
    mut room: Vec<Note, C>,
) -> Result<Settled<C>, Unsettled<A, B, C>>
    requires posters { AreOf inbox.id posters.items × (vec_len posters ≡ taker.posters) }
    requires taker { taker.inbox ≡ inbox.id }
    requires room { room.items ≡ [] }
    ensures each { IfOk result (λ s. All (λ p. from (taker.taken ++ s.left.items) p.number ≡ p.posted) posters.items) }
    ensures others { IfOk result (λ s. All (IsBy (vec_len posters)) (taker.taken ++ s.left.items)) }
    ensures every { IfOk result (λ s. All (IsPosted posters.items) (taker.taken ++ s.left.items)) }
    ensures back { IfErr result (λ u. (u.posters ≡ posters) × (u.taker ≡ taker) × (u.inbox ≡ inbox) × (u.room.items ≡ [])) }
    ensures room { inbox.capacity ≤ vec_capacity room → IsOk result }
{
    if room.reserve(inbox.queue.capacity()).is_err() {
        return Err(Unsettled {
            posters,
            taker,
            inbox,
            room,
        });
    }
    let pass = gather(&inbox, taker.pass, posters);
    let left = empty(rt, &inbox, pass, room);
    Ok(Settled { left })
}

//! The inbox, its posters and its taker.
ghost use Rattle.std.specs.Prelude.{◌≡◌, ◌+◌, ◌≤◌, [], ◌∷◌, ◌++◌, length, IfOk, IfErr, OnErr, IfSome, IfNone, vec_len, MatchResult, MatchOption};
ghost use Rattle.sup_inbox.specs.Delivery.{known_by, root, taker_view, poster_view};
ghost use Rattle.sup_inbox.specs.Ends.{Held, Posting, Taking, AreFrom, AreNew, AreOf};

use crate::note::Note;
use crate::rule::{Opens, Place, Posts, Queue, Takes};
use std::alloc::{Allocator, Global};
use std::marker::Model;
use std::sync::Wait;
use sup_types::{OutOfMemory, Reason, Text};
use thiserror::Error;

/// Holds notes until they are taken, up to its capacity. Its posters and its taker share it by reference.
#[derive(Drop)]
pub struct Inbox<A: Allocator = Global> {
    pub(crate) queue: Queue<A>,
}

impl<A: Allocator> Model for Inbox<A> {
    ghost Value = { Held };

    ghost view = { λ i. record { id = i.queue.table.shared.table_id; capacity = i.queue.cap } };
}

/// Gives the right to make the posters and the taker of an inbox, once.
#[derive(Drop)]
pub struct Root {
    pass: Place,
}

impl Model for Root {
    ghost Value = { Taking };

    ghost view = { λ r. record { inbox = r.pass.table_id; posters = 0; taken = [] } };

    ghost invariant = { λ r. (r.pass.me.1 ≡ []) × (known_by r.pass ≡ root) };
}

/// Posts notes to an inbox. It may go to another thread.
#[derive(Drop)]
pub struct Poster {
    pub(crate) pass: Place,
    pub(crate) number: u64,
    pub(crate) count: u64,
}

impl Model for Poster {
    ghost Value = { Posting };

    ghost view = { λ p. record { inbox = p.pass.table_id; number = p.number; posted = (known_by p.pass).posted } };

    ghost invariant = { λ p. (p.pass.me.1 ≡ []) × (known_by p.pass ≡ poster_view p.number (known_by p.pass).posted) × (p.count ≡ length (known_by p.pass).posted) };
}

/// Takes notes from an inbox, which has one taker.
#[derive(Drop)]
pub struct Taker {
    pub(crate) pass: Place,
}

impl Model for Taker {
    ghost Value = { Taking };

    ghost view = { λ t. record { inbox = t.pass.table_id; posters = (known_by t.pass).made; taken = (known_by t.pass).taken } };

    ghost invariant = { λ t. (t.pass.me.1 ≡ []) × (known_by t.pass ≡ taker_view (known_by t.pass).made (known_by t.pass).taken []) };
}

/// Says that the inbox was full, and holds what was to be posted.
#[derive(Clone, Debug, Drop, PartialEq, Eq, Error)]
#[error("the inbox is full")]
pub struct InboxFull {
    /// The number of the child.
    pub number: u64,
    pub arg: Text,
    pub reason: Reason,
}

impl InboxFull {
    pub fn number(&self) -> u8
        ensures { result ≡ 8 }
    {
        8
    }
}

impl<A: Allocator + Clone> Inbox<A> {
    /// Makes an empty inbox with room for `capacity` notes, 1 to 65,536 of them, and the right to make its posters and its taker.
    ///
    /// # Errors
    /// `OutOfMemory` if there is no memory for that room.
    pub fn new(alloc: A, capacity: usize) -> Result<(Self, Root), OutOfMemory>
        requires { 1 ≤ capacity }
        ensures { IfOk result (λ r. (r.0.capacity ≡ capacity) × (r.1.inbox ≡ r.0.id)) }
    {
        let (queue, pass) = Queue::ruled(alloc, capacity)?;
        Ok((Inbox { queue }, Root { pass }))
    }
}

impl Poster {
    /// Returns the poster's number, from 1 on in the order of making.
    pub fn number(&self) -> u64
        ensures { result ≡ self.now.number }
    {
        self.number
    }

    /// Returns how many notes it posted, which is the next note's serial.
    pub fn serial(&self) -> u64
        ensures { result ≡ length self.now.posted }
    {
        self.count
    }

    /// Posts the exit of a child, as the note with this poster's number and next serial. It does not wait for room.
    ///
    /// # Errors
    /// `InboxFull`, with what was to be posted, if the inbox was full at one moment of the call. No serial is used.
    pub fn post<R: Wait, A: Allocator>(
        &mut self,
        rt: &R,
        inbox: &Inbox<A>,
        number: u64,
        arg: Text,
        reason: Reason,
    ) -> Result<(), InboxFull>
        requires { self.old.inbox ≡ inbox.now.id }
        ensures same { (self.new.inbox ≡ self.old.inbox) × (self.new.number ≡ self.old.number) }
        ensures posted { IfOk result (λ _. self.new.posted ≡ self.old.posted ++ record { poster = self.old.number; serial = length self.old.posted; number = number; arg = arg; reason = reason } ∷ []) }
        ensures full { IfErr result (λ back. (back ≡ record { number = number; arg = arg; reason = reason }) × (self.new ≡ self.old)) }
    {
        if self.count == u64::MAX {
            // No inbox takes that many notes: it waits for ever at a push long before.
            for _ in rt.forever() {}
        }
        let note = Note {
            poster: self.number,
            serial: self.count,
            number,
            arg,
            reason,
        };
        match inbox.queue.push_as::<Posts, R>(rt, &mut self.pass, note) {
            Ok(()) => {
                self.count += 1;
                Ok(())
            }
            Err(back) => Err(InboxFull {
                number: back.number,
                arg: back.arg,
                reason: back.reason,
            }),
        }
    }
}

impl Taker {
    /// Takes the oldest note. Returns `None` only if the inbox was empty at one moment of the call.
    pub fn take<R: Wait, A: Allocator>(&mut self, rt: &R, inbox: &Inbox<A>) -> Option<Note>
        requires { self.old.inbox ≡ inbox.now.id }
        ensures same { (self.new.inbox ≡ self.old.inbox) × (self.new.posters ≡ self.old.posters) }
        ensures taken { MatchOption result (self.new ≡ self.old) (λ note. self.new.taken ≡ self.old.taken ++ note ∷ []) }
    {
        inbox.queue.pop_as::<Takes, R>(rt, &mut self.pass)
    }
}

impl Root {
    /// Makes the posters, numbered 1, 2, .., at most 1,024 of them, and the taker. The root is this inbox's.
    ///
    /// # Errors
    /// The root, as it was, if there is no memory for the list of posters.
    pub fn split<A: Allocator, B: Allocator>(
        self,
        alloc: B,
        inbox: &Inbox<A>,
        posters: usize,
    ) -> Result<(Vec<Poster, B>, Taker), Root>
        requires { self.inbox ≡ inbox.now.id }
        ensures posters { IfOk result (λ r. AreFrom inbox.now.id 1 r.0.items × AreNew r.0.items × (vec_len r.0 ≡ posters)) }
        ensures of { IfOk result (λ r. AreOf inbox.now.id r.0.items) }
        ensures taker { IfOk result (λ r. r.1 ≡ record { inbox = inbox.now.id; posters = posters; taken = [] }) }
        ensures back { IfErr result (λ root. root ≡ self) }
    {
        let Ok(mut all) = Vec::with_capacity(alloc, posters) else {
            return Err(self);
        };
        let Root { mut pass } = self;
        for made in 0..posters {
            let next = inbox.queue.another::<Opens>(&mut pass);
            all.push_reserved(Poster {
                pass: next,
                number: made as u64 + 1,
                count: 0,
            });
        }
        Ok((all, Taker { pass }))
    }
}

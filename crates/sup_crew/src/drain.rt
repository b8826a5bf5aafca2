//! The drain: it takes notes and enters them as exits, in order, and holds those that it could not enter.
ghost use Rattle.std.specs.Prelude.{◌≡◌, List, ◌+◌, ◌<◌, ◌≤◌, ◌⊎◌, [], ◌++◌, None, take, IfOk, IfErr, MatchResult, length, vec_len, vec_capacity};
ghost use Rattle.std.specs.VecDeque.{deque_len, deque_capacity};
ghost use Rattle.arrayvec.specs.ArrayVec.{array_vec_len};
ghost use mathlib.Core.List.{IsPrefix};
ghost use Rattle.sup_desk.specs.Faults.{update_fault_number};
ghost use Rattle.sup_crew.specs.Exits.{exits};
ghost use Rattle.sup_crew.specs.Drains.{DrainModel, entered_of, notes_of, replies_of, IsEntered};

use arrayvec::ArrayVec;
use std::alloc::Global;
use std::collections::VecDeque;
use std::fmt;
use std::marker::Model;
use std::mem::replace;
use std::sync::Wait;
use sup_desk::{Dones, Handle, Journal, Name, UpdateFault};
use sup_inbox::{Inbox, Note, Taker};
use sup_log::Ticket;
use sup_types::{Operation, Reply, Starter};
use thiserror::Error;

/// How many notes a drain holds at most.
pub const HELD: usize = 64;

/// Takes notes from an inbox, enters them as exits, and holds those that it could not enter.
#[derive(Drop)]
pub struct Drain {
    taker: Taker,
    held: ArrayVec<Note, HELD>,
    // Room that the first drain which finds a note makes, and each later one uses again.
    operations: VecDeque<Operation>,
    pairs: Vec<(Note, Reply)>,
}

impl Model for Drain {
    ghost Value = { DrainModel };

    ghost view = { λ d. record { inbox = d.taker.inbox; posters = d.taker.posters; entered = entered_of d.taker.taken d.held.items; held = d.held.items } };

    ghost invariant = { λ d. d.taker.taken ≡ entered_of d.taker.taken d.held.items ++ d.held.items };
}

/// Holds the notes that one drain entered, in order, each with the reply to its exit, and a ticket for the history with them, if any.
#[derive(Drop)]
pub struct Drained {
    pub pairs: Vec<(Note, Reply)>,
    pub ticket: Option<Ticket>,
}

/// Says why a drain stopped, and what it had entered by then.
#[derive(Drop, Error)]
#[error("the drain stopped: {fault}")]
pub struct DrainFault {
    pub done: Drained,
    /// Why the others were not. They are held, and go first next time.
    pub fault: UpdateFault,
}

impl DrainFault {
    pub fn number(&self) -> u8
        ensures { result ≡ update_fault_number self.now.fault }
    {
        self.fault.number()
    }
}

impl fmt::Debug for DrainFault {
    fn fmt<W: fmt::Write>(&self, f: &mut fmt::Formatter<W>) -> fmt::Result {
        write!(
            f,
            "DrainFault {{ entered: {}, fault: {:?} }}",
            self.done.pairs.len(),
            self.fault
        )
    }
}

/// Keeps the fault alone. What was entered is dropped.
impl From<DrainFault> for UpdateFault {
    ghost from_gives = { λ e f. f ≡ e.fault };

    fn from(met: DrainFault) -> Self {
        met.fault
    }
}

/// Takes notes until `limit` are held, or the inbox is empty.
fn fill<R: Wait>(
    rt: &R,
    inbox: &Inbox,
    taker: &mut Taker,
    held: &mut ArrayVec<Note, HELD>,
    limit: usize,
)
    requires { (taker.old.inbox ≡ inbox.now.id) × (limit ≤ 64) }
    ensures same { (taker.new.inbox ≡ taker.old.inbox) × (taker.new.posters ≡ taker.old.posters) }
    ensures held { (entered : List _) → taker.old.taken ≡ entered ++ held.old.items → taker.new.taken ≡ entered ++ held.new.items }
{
    for _ in 0..limit {
        if held.len() >= limit {
            return;
        }
        match taker.take(rt, inbox) {
            Some(note) => held.push(note),
            None => return,
        }
    }
}

/// Lists the exits that the first notes report.
#[tactic(auto, using(crate::proofs::DrainLemmas::exits_more))]
fn list_exits(held: &ArrayVec<Note, HELD>, count: usize, operations: &mut VecDeque<Operation>)
    requires count { count ≤ array_vec_len held.now }
    requires room { (operations.old.items ≡ []) × (deque_len operations.old ≡ 0) × (count ≤ deque_capacity operations.old) }
    ensures { operations.new.items ≡ exits (take count held.now.items) }
{
    for place in 0..count {
        let note = &held[place];
        operations.push_back_reserved(Operation::Exit(note.number, note.reason));
    }
}

/// Takes the first notes out of those that are held, and returns them with these replies.
fn pair_up(
    held: &mut ArrayVec<Note, HELD>,
    replies: Vec<Reply>,
    mut pairs: Vec<(Note, Reply)>,
) -> Vec<(Note, Reply)>
    requires room { (pairs.items ≡ []) × (vec_len replies ≤ vec_capacity pairs) }
    requires notes { vec_len replies ≤ array_vec_len held.old }
    ensures replies { replies_of result.items ≡ replies.items }
    ensures notes { notes_of result.items ++ held.new.items ≡ held.old.items }
{
    let count = replies.len();
    let mut rest = replies.into_iter();
    for note in held.drain(..count) {
        let Some(reply) = rest.next() else {
            unreachable!()
        };
        // Names the reason: the borrow checker of this kit asks where its type is declared.
        let reason = note.reason;
        pairs.push_reserved((Note { reason, ..note }, reply));
    }
    pairs
}

impl Drain {
    /// Makes a drain that holds no note. It takes no memory.
    pub fn new(alloc: Global, taker: Taker) -> Drain
        ensures { result ≡ record { inbox = taker.inbox; posters = taker.posters; entered = taker.taken; held = [] } }
    {
        Drain {
            taker,
            held: ArrayVec::new(),
            operations: VecDeque::new(alloc),
            pairs: Vec::new(alloc),
        }
    }

    /// Takes notes until `limit` are held or the inbox is empty, and enters the first `limit` of them as exits, in order and in one
    /// step. `limit` is 1 to 64. Notes that were not entered stay held and go first next time. The room for what it enters and
    /// answers is made before anything is entered, and kept. If there is no note, it takes no lock and no memory.
    pub fn drain<N: Name, S: Starter + Drop, P: Wait + Drop, J: Journal + Drop, R: Wait>(
        &mut self,
        rt: &R,
        alloc: Global,
        inbox: &Inbox,
        handle: &mut Handle<'_, N, S, P, J>,
        moment: u64,
        limit: usize,
    ) -> Result<Drained, DrainFault>
        requires { (self.old.inbox ≡ inbox.now.id) × (1 ≤ limit) × (limit ≤ 64) }
        ensures same { (self.new.inbox ≡ self.old.inbox) × (self.new.posters ≡ self.old.posters) }

        // What was entered.
        ensures ok { IfOk result (λ d. IsEntered S.may_answer N.template N.press handle.old handle.new moment d.pairs.items d.ticket) }
        ensures entered { IfOk result (λ d. self.new.entered ≡ self.old.entered ++ notes_of d.pairs.items) }
        ensures all { IfOk result (λ d. (vec_len d.pairs ≡ limit) ⊎ (self.new.held ≡ [])) }
        ensures idle { IfOk result (λ d. d.pairs.items ≡ [] → (handle.new ≡ handle.old) × (d.ticket ≡ None)) }
        ensures few { MatchResult result (λ d. vec_len d.pairs ≤ limit) (λ e. vec_len e.done.pairs ≤ limit) }

        // What a fault leaves, and when it comes.
        ensures err { IfErr result (λ e. IsEntered S.may_answer N.template N.press handle.old handle.new moment e.done.pairs.items e.done.ticket) }
        ensures part { IfErr result (λ e. self.new.entered ≡ self.old.entered ++ notes_of e.done.pairs.items) }
        ensures front { IsPrefix handle.old.front handle.new.front }
        ensures gone { IfErr result (λ e. e.fault ≡ UpdateFault.Gone → ⊥) }
        ensures full { IfErr result (λ e. e.fault ≡ UpdateFault.HistoryFull → length handle.new.front ≡ N.template.entries) }
    {
        let nothing = Drained {
            pairs: Vec::new(alloc),
            ticket: None,
        };
        fill(rt, inbox, &mut self.taker, &mut self.held, limit);
        let count = self.held.len().min(limit);
        if count == 0 {
            return Ok(nothing);
        }
        self.operations.clear();
        self.pairs.clear();
        if self.operations.reserve(HELD).is_err() || self.pairs.reserve(HELD).is_err() {
            return Err(DrainFault {
                done: nothing,
                fault: UpdateFault::OutOfMemory,
            });
        }
        list_exits(&self.held, count, &mut self.operations);
        let pairs = replace(&mut self.pairs, Vec::new(alloc));
        match handle.apply_all(rt, alloc, moment, &mut self.operations) {
            Ok(Dones { replies, ticket }) => Ok(Drained {
                pairs: pair_up(&mut self.held, replies, pairs),
                ticket: Some(ticket),
            }),
            Err(part) => {
                let pairs = pair_up(&mut self.held, part.replies, pairs);
                let ticket = part.ticket;
                Err(DrainFault {
                    done: Drained { pairs, ticket },
                    fault: part.fault,
                })
            }
        }
    }

    /// Takes the list of an earlier drain's pairs back, as room for those of the next.
    pub fn reuse(&mut self, pairs: Vec<(Note, Reply)>)
        ensures { self.new ≡ self.old }
    {
        self.pairs = pairs;
    }

    /// Returns the taker, and the notes that are held. It takes no memory.
    pub fn end(self) -> (Taker, ArrayVec<Note, HELD>)
        ensures taker { result.0 ≡ record { inbox = self.inbox; posters = self.posters; taken = self.entered ++ self.held } }
        ensures held { result.1.items ≡ self.held }
    {
        (self.taker, self.held)
    }
}

//! The registry: the children that are alive, until when those may run that were asked to end, and what children left that ended.
ghost use Rattle.std.specs.Prelude.{◌≡◌, IfSome};

use crate::behaviour::Behaviour;
use crate::clock::Moment;
use crate::mailbox::{ChildRef, Room, Told};
use futures::future::AbortHandle;
use std::alloc::{AllocError, Global};
use std::collections::{HashMap, VecDeque};
use std::mem;
use std::sync::Arc;
use sup_types::Text;

/// A child that is alive, or has ended and its exit was not answered yet: its room, what lets it go, and what it left.
#[derive(Drop)]
pub(crate) struct Entry<B: Behaviour> {
    arg: Text,
    room: Arc<Room<B::Message>>,
    abort: AbortHandle,
    left: Option<B::Own>,
    has_ended: bool,
}

impl<B: Behaviour> Entry<B> {
    /// Asks the child to end. One that is aborted at once is not polled any more, so it does not hear of it. Returns whether it was not
    /// asked before.
    fn ask(&self, at_once: bool, why: Told) -> bool {
        if at_once {
            self.abort.abort();
        }
        self.room.tell(why)
    }

    /// Returns the argument, and what the child left, if it left anything.
    pub(crate) fn into_left(self) -> Option<(Text, B::Own)> {
        let Entry { arg, left, .. } = self;
        Some((arg, left?))
    }
}

/// Until when a child may run that was asked to end.
#[derive(Clone, Copy)]
struct Deadline {
    number: u64,
    until: Moment,
}

/// The children that are alive or have left something, by their numbers, and the deadlines in the order in which they were set. All
/// have the same grace, so the first comes first. One of a child that has ended is skipped when its turn comes.
#[derive(Drop)]
pub(crate) struct Registry<B: Behaviour> {
    children: HashMap<u64, Entry<B>>,
    deadlines: VecDeque<Deadline>,
}

/// Returns the child with this number, if it is alive.
fn alive<B: Behaviour>(children: &HashMap<u64, Entry<B>>, number: u64) -> Option<&Entry<B>> {
    let entry = children.get(&number)?;
    if entry.has_ended { None } else { Some(entry) }
}

/// Sets a deadline of a child that is alive. There is room for one of each: if memory is refused for more, those of children
/// that have ended are removed.
fn set<B: Behaviour>(
    children: &HashMap<u64, Entry<B>>,
    deadlines: &mut VecDeque<Deadline>,
    deadline: Deadline,
) {
    if deadlines.push_back(deadline).is_err() {
        deadlines.retain(|it| alive(children, it.number).is_some());
        let _ = deadlines.push_back(deadline);
    }
}

impl<B: Behaviour> Registry<B> {
    /// Makes a registry of no child.
    pub(crate) fn new(alloc: Global) -> Registry<B> {
        let (children, deadlines) = (HashMap::new(alloc), VecDeque::new(alloc));
        Registry {
            children,
            deadlines,
        }
    }

    /// Enters a child, and makes room for its deadline.
    pub(crate) fn open(
        &mut self,
        number: u64,
        arg: Text,
        room: Arc<Room<B::Message>>,
        abort: AbortHandle,
    ) -> Result<(), AllocError> {
        self.children.reserve(1)?;
        let deadlines = self.children.len().saturating_add(1);
        self.deadlines
            .reserve(deadlines.saturating_sub(self.deadlines.len()))?;
        let entry = Entry {
            arg,
            room,
            abort,
            left: None,
            has_ended: false,
        };
        match self.children.insert(number, entry) {
            Ok(_) => Ok(()),
            Err(_) => Err(AllocError),
        }
    }

    /// Notes that a child has ended, with what it left. Returns whether it was asked to end.
    pub(crate) fn close(&mut self, number: u64, left: Option<B::Own>) -> bool {
        let Some(entry) = self.children.get_mut(&number) else {
            return false;
        };
        entry.left = left;
        entry.has_ended = true;
        entry.room.is_told()
    }

    /// Returns a child that has ended, and forgets it.
    pub(crate) fn take(&mut self, number: u64) -> Option<Entry<B>> {
        self.children.remove(&number)
    }

    /// Returns what a child left that has ended, for the one of this number which takes its place, and forgets it.
    pub(crate) fn take_over(&mut self, number: u64, new: u64) -> Option<B::Own> {
        let entry = self.children.remove(&number)?;
        entry.room.succeed(new);
        entry.left
    }

    /// Returns all children, and forgets them.
    pub(crate) fn take_all(&mut self, alloc: Global) -> HashMap<u64, Entry<B>> {
        mem::replace(&mut self.children, HashMap::new(alloc))
    }

    /// Returns whether the child is alive.
    pub(crate) fn has(&self, number: u64) -> bool {
        alive(&self.children, number).is_some()
    }

    /// Returns the address of the child with this number, if it is alive.
    pub(crate) fn address(&self, number: u64) -> Option<ChildRef<B::Message>>
        ensures { IfSome result (λ address. address.number ≡ number) }
    {
        let entry = alive(&self.children, number)?;
        let room = Arc::try_clone(&entry.room).ok()?;
        Some(ChildRef { number, room })
    }

    /// Asks a child to end, until this moment at the latest, or lets it go at once. Returns its argument and what it left, if it has ended:
    /// nobody will take that over.
    pub(crate) fn end(
        &mut self,
        number: u64,
        until: Moment,
        at_once: bool,
        why: Told,
    ) -> Option<(Text, B::Own)> {
        let entry = self.children.get_mut(&number)?;
        if entry.has_ended {
            return Some((entry.arg, entry.left.take()?));
        }
        if entry.ask(at_once, why) {
            let deadline = Deadline { number, until };
            set(&self.children, &mut self.deadlines, deadline);
        }
        None
    }

    /// Asks all children to end, until this moment at the latest, or lets them go at once.
    pub(crate) fn end_all(&mut self, until: Moment, at_once: bool, why: Told) {
        for (number, entry) in self.children.iter() {
            if !entry.has_ended && entry.ask(at_once, why) {
                let number = *number;
                let deadline = Deadline { number, until };
                set(&self.children, &mut self.deadlines, deadline);
            }
        }
    }

    /// Lets the children go that were asked to end, and whose time is over. Returns when the time of the next is over, if there is one.
    pub(crate) fn expire(&mut self, now: Moment) -> Option<Moment> {
        for _ in 0..self.deadlines.len() {
            let Deadline { number, until } = *self.deadlines.front()?;
            if let Some(entry) = alive(&self.children, number) {
                if now.millis < until.millis {
                    return Some(until);
                }
                entry.abort.abort();
            }
            let _ = self.deadlines.pop_front();
        }
        None
    }
}

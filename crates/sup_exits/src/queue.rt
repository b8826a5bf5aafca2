ghost use Rattle.std.specs.Prelude.{◌≡◌, ◌+◌, ◌-◌, ◌<◌, ◌≤◌, ◌⊎◌, [], ◌∷◌, ◌++◌, length, max, OnOk, OnErr};
ghost use Rattle.std.specs.VecDeque.{deque_len, deque_capacity};
ghost use mathlib.Core.List.{IsPrefix};

use crate::exit::OwedExit;
use crate::office::Office;
use std::alloc::Global;
use std::collections::VecDeque;
use sup_types::OutOfMemory;

/// The exits that wait to be entered, and for how many children there is room among them.
#[derive(Drop)]
pub struct ExitQueue<I: Office> {
    waiting: VecDeque<OwedExit<I>>,
    children: usize,
}

impl<I: Office> ExitQueue<I> {
    /// Makes a queue in which nothing waits. It takes no memory.
    pub fn new(alloc: Global) -> ExitQueue<I>
        ensures { (result.waiting.items ≡ []) × (result.children ≡ 0) }
    {
        ExitQueue {
            waiting: VecDeque::new(alloc),
            children: 0,
        }
    }

    /// Makes room for the exit of one child more.
    pub fn make_room(&mut self) -> Result<(), OutOfMemory>
        ensures ok { OnOk result (self.new.children ≡ self.old.children + 1) }
        ensures err { OnErr result (self.new.children ≡ self.old.children) }
        ensures same { self.new.waiting.items ≡ self.old.waiting.items }
    {
        let Some(children) = self.children.checked_add(1) else {
            return Err(OutOfMemory);
        };
        self.waiting.reserve(children)?;
        self.children = children;
        Ok(())
    }

    /// Gives the room of one child back.
    pub fn free_room(&mut self)
        ensures { (self.new.children ≡ self.old.children - 1) × (self.new.waiting.items ≡ self.old.waiting.items) }
    {
        self.children = self.children.saturating_sub(1);
    }

    /// Lets an exit wait as the last. If there is no room, and memory is refused, it is dropped and stays owed.
    pub fn put(&mut self, exit: OwedExit<I>)
        ensures put { (self.new.waiting.items ≡ self.old.waiting.items ++ exit ∷ []) ⊎ (deque_capacity self.old.waiting ≤ deque_len self.old.waiting) }
        ensures rooms { self.new.children ≡ self.old.children }
    {
        let _ = self.waiting.push_back(exit);
    }

    /// Moves the exits that have waited longest to the end of this list, until it has as many as `limit`, for which it has room.
    pub fn give(&mut self, list: &mut VecDeque<OwedExit<I>>, limit: usize)
        requires { limit ≤ deque_capacity list.old }
        ensures moved { list.new.items ++ self.new.waiting.items ≡ list.old.items ++ self.old.waiting.items }
        ensures kept { IsPrefix list.old.items list.new.items }
        ensures len { deque_len list.new ≤ max limit (deque_len list.old) }
        ensures all { deque_len list.new < limit → self.new.waiting.items ≡ [] }
        ensures room { deque_capacity list.new ≡ deque_capacity list.old }
        ensures rooms { self.new.children ≡ self.old.children }
    {
        'giving: while list.len() < limit {
            match self.waiting.pop_front() {
                Some(exit) => list.push_back_reserved(exit),
                None => return,
            }
        }
    }

    /// Returns the exits that wait.
    pub fn end(self) -> VecDeque<OwedExit<I>>
        ensures { result.items ≡ self.waiting.items }
    {
        self.waiting
    }
}

//! The rows of a supervisor, found by their numbers.
//!
//! The children are in a map from their numbers. Numbers only grow, so the map's order is that of the numbers. A child that ended leaves
//! its number there without a child: the map does not promise that what is taken out gives its room back. If no room is left, or clearly
//! more than half of the numbers have no child, the listed children move to the front in their order, and the rest goes. That needs no
//! memory.
ghost use Rattle.std.specs.Prelude.{true, false, ◌≡◌, ◌≤◌, ◌<◌, ◌+◌, ◌*◌, ◌^◌, ℕ, [], ◌∷◌, ◌++◌, IfOk, None, Some, map, length, nat_eq, is_some, slice_index_or, slice_get, take, MatchBool, MatchOption, IsOk, IsSome, IfSome, IfNone, if◌then◌else◌};
ghost use Rattle.std.specs.List.{list_any};
ghost use Rattle.std.specs.Vec.{vec_capacity};
ghost use Rattle.indexmap.specs.IndexMap.{get, index_map_len, spare, IsUnique};
ghost use Rattle.sup_core.specs.Rows.{has_number, is_status, stands_as, row_at, argument_at, without, waiting_at};
ghost use Rattle.sup_core.specs.Changes.{running};
ghost use Rattle.sup_core.specs.Children.{Listed, listed, place_of, running_count, one_if};
ghost use Rattle.sup_core.specs.declared.child.Child.{Child};

use crate::asked::{Asked, NO_INDEX};
use crate::child::Child;
use crate::sequential::SequentialHasher;
use indexmap::IndexMap;
use indexmap::map::Entry;
use std::alloc::{AllocError, Allocator};
use std::marker::Model;
use sup_types::{Row, Status, Text};

type Children<A> = IndexMap<u64, Option<Child>, SequentialHasher, A>;

/// That few numbers without a child are not worth giving back.
const FEW: usize = 64;

/// The listed children, of whom there may be `max`.
#[derive(Drop)]
pub(crate) struct Table<A: Allocator> {
    children: Children<A>,
    made: u64,
    max: u64,
    live: u64,
    running: u64,
    // Where the child was that was taken or let wait last. No reply depends on it.
    last_index: usize,
}

impl<A: Allocator> Model for Table<A> {
    ghost use Rattle.std.specs.Prelude.{◌≡◌, ◌≤◌, ◌<◌, ◌+◌, ◌*◌, ℕ, None, length, nat_eq};
    ghost use Rattle.indexmap.specs.IndexMap.{get, index_map_len, spare, IsUnique};
    ghost use Rattle.sup_core.specs.Children.{Listed, listed, running_count};

    ghost Value = { Listed };

    ghost view = { λ t. record { rows = listed t.children.entries; made = t.made; max = t.max } };

    ghost invariant = { λ t. IsUnique nat_eq t.children
        × ((number : ℕ) → t.made < number → get nat_eq t.children number ≡ None)
        × (t.live ≡ length (listed t.children.entries)) × (t.live ≤ t.max)
        × (t.running ≡ running_count (listed t.children.entries))
        × (2 * t.max ≤ index_map_len t.children + spare t.children) × (t.max ≤ 65536) };
}

impl<A: Allocator + Copy> Table<A> {
    /// Returns an empty table, with room for twice as many numbers as there may be rows.
    pub(crate) fn new(alloc: A, max: u64) -> Result<Self, AllocError>
        requires { max ≤ 65536 }
        ensures { IfOk result (λ t. (t.rows ≡ []) × (t.made ≡ 0) × (t.max ≡ max)) }
    {
        let children = IndexMap::with_capacity_and_hasher(
            alloc,
            2 * max as usize,
            SequentialHasher::new(),
        )?;
        Ok(Table {
            children,
            made: 0,
            max,
            live: 0,
            running: 0,
            last_index: NO_INDEX,
        })
    }

    /// Returns how many rows there are.
    pub(crate) fn len(&self) -> u64
        ensures value { result ≡ length self.now.rows }
        ensures within { length self.now.rows ≤ self.now.max }
    {
        self.live
    }

    /// Returns how many of the rows run.
    pub(crate) fn running_count(&self) -> u64
        ensures { result ≡ running_count self.now.rows }
    {
        self.running
    }

    /// Returns where the child was that was taken out or let wait last; `NO_INDEX` before the first.
    pub(crate) fn last_index(&self) -> usize {
        self.last_index
    }

    /// Returns the row with this number.
    pub(crate) fn row_at(&self, number: u64) -> Option<Row>
        ensures { result ≡ row_at number self.now.rows }
    {
        let (_, child) = find(&self.children, number, NO_INDEX)?;
        Some(child.row(number))
    }

    /// Returns the argument of the row with this number, if it has this status, and its index.
    pub(crate) fn asked_of(&self, status: Status, number: u64) -> Asked
        ensures { result.arg ≡ if list_any (stands_as status number) self.now.rows then Some (argument_at number self.now.rows) else None }
    {
        match find_as(&self.children, status, number, NO_INDEX) {
            Some((index, arg)) => Asked::new(Some(arg), index),
            None => Asked::nothing(),
        }
    }

    /// Returns the rows in ascending order of number.
    pub(crate) fn copied(&self, alloc: A) -> Result<Vec<Row, A>, AllocError>
        ensures rows { IfOk result (λ copy. copy.items ≡ self.now.rows) }
        ensures free { self.now.rows ≡ [] → IsOk result }
    {
        let mut copy = Vec::with_capacity(alloc, self.live as usize)?;
        copy_listed(&self.children, &mut copy);
        Ok(copy)
    }

    /// Lists a child that runs, under the next number, and returns the number.
    pub(crate) fn list(&mut self, arg: &Text) -> u64
        requires room { self.old.made + 1 < 2 ^ 64 }
        requires fits { length self.old.rows < self.old.max }
        ensures number { result ≡ self.old.made + 1 }
        ensures next { self.new ≡ record self.old { rows = self.old.rows ++ running (self.old.made + 1) arg.now ∷ []; made = self.old.made + 1 } }
    {
        make_room(&mut self.children, self.max as usize, self.live as usize);
        self.made += 1;
        self.live += 1;
        self.running += 1;
        put_next(&mut self.children, self.made, arg);
        self.made
    }

    /// Takes the row with this number out, and returns whether there was one. It may be at `index`.
    pub(crate) fn take(&mut self, number: u64, index: usize) -> bool
        ensures { MatchBool result
            ((list_any (has_number number) self.old.rows ≡ true) × (self.new ≡ record self.old { rows = without number self.old.rows }))
            ((list_any (has_number number) self.old.rows ≡ false) × (self.new ≡ self.old)) }
    {
        let Some((index, child)) = find(&self.children, number, index) else {
            return false;
        };
        let status = child.status;
        self.take_as(status, number, index).is_some()
    }

    /// Takes the row with this number out, if it has this status, and returns its argument. It may be at `index`.
    pub(crate) fn take_as(&mut self, status: Status, number: u64, index: usize) -> Option<Text>
        ensures taken { MatchOption result
            ((list_any (stands_as status number) self.old.rows ≡ false) × (self.new ≡ self.old))
            (λ arg. (list_any (stands_as status number) self.old.rows ≡ true) × (arg ≡ argument_at number self.old.rows)
            × (self.new ≡ record self.old { rows = without number self.old.rows })) }
        ensures room { IsSome result → length self.new.rows < self.old.max }
    {
        let (index, arg) = find_as(&self.children, status, number, index)?;
        self.children[index] = None;
        self.live -= 1;
        self.running -= one_if(status.is_running());
        self.last_index = index;
        Some(arg)
    }

    /// Lets the row with this number wait, if it has this status, and returns its argument. It may be at `index`.
    pub(crate) fn wait_as(&mut self, status: Status, number: u64, index: usize) -> Option<Text>
        ensures { MatchOption result
            ((list_any (stands_as status number) self.old.rows ≡ false) × (self.new ≡ self.old))
            (λ arg. (list_any (stands_as status number) self.old.rows ≡ true) × (arg ≡ argument_at number self.old.rows)
            × (self.new ≡ record self.old { rows = map (waiting_at number) self.old.rows })) }
    {
        let (index, arg) = find_as(&self.children, status, number, index)?;
        self.children[index] = Some(Child {
            arg,
            status: Status::Restarting,
        });
        self.running -= one_if(status.is_running());
        self.last_index = index;
        Some(arg)
    }

    /// Takes all rows out.
    pub(crate) fn clear(&mut self)
        ensures { self.new ≡ record self.old { rows = [] } }
    {
        self.children.clear();
        self.live = 0;
        self.running = 0;
    }
}

fn one_if(counts: bool) -> u64
    ensures { result ≡ one_if counts }
{
    if counts { 1 } else { 0 }
}

/// Returns the child of this number, and its index. It is looked up by its number only if it is not at `index`.
fn find<A: Allocator>(children: &Children<A>, number: u64, index: usize) -> Option<(usize, &Child)>
    requires { IsUnique nat_eq children.now }
    ensures none { IfNone result (row_at number (listed children.now.entries) ≡ None) }
    ensures some { IfSome result (λ p. slice_get children.now.entries p.0 ≡ Some (number, Some p.1.now)) }
{
    match children.get_index(index) {
        Some((there, child)) if *there == number => Some((index, child.as_ref()?)),
        _ => {
            let (index, _, child) = children.get_full(&number)?;
            Some((index, child.as_ref()?))
        }
    }
}

/// Returns the argument of this number's child, if it has this status, and its index. It may be at `index`.
fn find_as<A: Allocator>(
    children: &Children<A>,
    status: Status,
    number: u64,
    index: usize,
) -> Option<(usize, Text)>
    requires { IsUnique nat_eq children.now }
    ensures none { IfNone result (list_any (stands_as status number) (listed children.now.entries) ≡ false) }
    ensures some { IfSome result (λ p. (list_any (stands_as status number) (listed children.now.entries) ≡ true) × (p.1 ≡ argument_at number (listed children.now.entries))) }
    ensures there { IfSome result (λ p. (child : Child) × (slice_get children.now.entries p.0 ≡ Some (number, Some child)) × (is_status status child.status ≡ true) × (child.arg ≡ p.1)) }
{
    let (index, child) = find(children, number, index)?;
    Some((index, child.argument_as(status)?))
}

/// Puts a child that runs in the last index.
fn put_next<A: Allocator>(children: &mut Children<A>, number: u64, arg: &Text)
    requires absent { get nat_eq children.old number ≡ None }
    requires spare { 0 < spare children.old }
    ensures entries { children.new.entries ≡ children.old.entries ++ place_of (running number arg.now) ∷ [] }
    ensures absent { (other : ℕ) → number < other → get nat_eq children.old other ≡ None → get nat_eq children.new other ≡ None }
    ensures room { index_map_len children.old + spare children.old ≤ index_map_len children.new + spare children.new }
    ensures unique { IsUnique nat_eq children.new }
{
    if let Ok(Entry::Vacant(entry)) = children.entry(number) {
        entry.insert(Some(Child {
            arg: *arg,
            status: Status::Running,
        }));
    }
}

/// Adds the rows of the listed children to an empty list that has room for them.
fn copy_listed<A: Allocator>(children: &Children<A>, copy: &mut Vec<Row, A>)
    requires empty { copy.old.items ≡ [] }
    requires room { length (listed children.now.entries) ≤ vec_capacity copy.old }
    ensures items { copy.new.items ≡ listed children.now.entries }
{
    for (number, child) in children.iter() {
        if let Some(child) = child {
            copy.push_reserved(child.row(*number));
        }
    }
}

/// Makes room for one more number. Those without a child are given back once they are as many as the listed children and some more, so that
/// what is read lies close together if the children are few.
fn make_room<A: Allocator>(children: &mut Children<A>, max: usize, live: usize)
    requires unique { IsUnique nat_eq children.old }
    requires live { live ≡ length (listed children.old.entries) }
    requires fits { live < max }
    requires room { 2 * max ≤ index_map_len children.old + spare children.old }
    requires small { max ≤ 65536 }
    ensures rows { listed children.new.entries ≡ listed children.old.entries }
    ensures absent { (number : ℕ) → get nat_eq children.old number ≡ None → get nat_eq children.new number ≡ None }
    ensures unique { IsUnique nat_eq children.new }
    ensures room { 2 * max ≤ index_map_len children.new + spare children.new }
    ensures spare { 0 < spare children.new }
{
    if children.len() >= (2 * live + FEW).min(2 * max) {
        let kept = gather(children);
        children.truncate(kept);
    }
}

/// Moves the listed children to the front, in their order, and returns how many there are.
fn gather<A: Allocator>(children: &mut Children<A>) -> usize
    requires unique { IsUnique nat_eq children.old }
    ensures kept { result ≡ length (listed children.old.entries) }
    ensures front { take result children.new.entries ≡ map place_of (listed children.old.entries) }
    ensures len { index_map_len children.new ≡ index_map_len children.old }
    ensures room { spare children.old ≤ spare children.new }
    ensures unique { IsUnique nat_eq children.new }
{
    let mut kept = 0;
    for index in 0..children.len() {
        if is_listed(children, index) {
            if kept < index {
                children.swap_indices(kept, index);
            }
            kept += 1;
        }
    }
    kept
}

/// Returns whether a child is listed at this index.
fn is_listed<A: Allocator>(children: &Children<A>, index: usize) -> bool
    requires { index < index_map_len children.now }
    ensures { result ≡ is_some (slice_index_or children.now.entries index (0, None)).1 }
{
    children[index].is_some()
}

//! What C holds: a pointer, which owns a shelf while the handle is open.
//!
//! A call takes the box out of the handle, works on it in safe code and puts it back: the box can't be reached through a reference
//! of C's.
ghost use Rattle.std.specs.Prelude.{◌≡◌, Bool, true, false, IfNone, IfSome};
ghost use Rattle.std.specs.Coded.{coded_bool};
ghost use Rattle.std.specs.Box.Ownership.{box_owns};
ghost use Rattle.sup_c.specs.declared.shelf.Shelf.{Shelf as AShelf};
ghost use Rattle.sup_c.specs.Seals.{shelf_coded, seal_owns};

use crate::shelf::Shelf;
use core::mem::replace;
use std::alloc::{Allocator, Global};
use std::marker::Model;

/// A supervisor as C holds it: open or closed. All zeros are a closed one.
#[repr(C)]
#[derive(Drop)]
pub struct Held {
    seal: Seal,
    pub(crate) is_open: bool,
    ghost tied: { seal.is_full ≡ is_open },
}

impl Held {
    /// Takes out what an open handle holds, and leaves a closed one. A closed one holds nothing.
    pub(crate) fn take(&mut self, heap: Global) -> Option<Box<Shelf, Global>>
        ensures closed { IfNone result ((self.old.is_open ≡ false) × (self.new ≡ self.old)) }
        ensures open { IfSome result (λ shelf. (self.old.is_open ≡ true) × (shelf.value ≡ self.old.seal.shelf) × (self.new.is_open ≡ false)) }
    {
        if !self.is_open {
            return None;
        }
        self.is_open = false;
        let seal = replace(&mut self.seal, Seal::empty(heap));
        Some(seal.into_parts().into_box())
    }

    /// Puts a shelf into a closed handle, which is open then, and returns the answer.
    pub(crate) fn put_back(&mut self, shelf: Box<Shelf, Global>, answer: u32) -> u32
        ensures { (result ≡ answer) × (self.new.is_open ≡ true) × (self.new.seal.shelf ≡ shelf.value) }
    {
        self.seal = Seal::of_parts(Parts::of(shelf));
        self.is_open = true;
        answer
    }
}

/// A pointer that owns a shelf while it is full, and else nothing.
#[repr(C)]
#[derive(Drop)]
struct Seal {
    // (of a type that C may hold: the kit refuses a pointer to a struct with a `Vec` in it)
    ptr: *mut u8,
    alloc: Global,
    ghost is_full: { Bool } by { coded_bool },
    ghost shelf: { AShelf } by { shelf_coded },
}

impl Model for Seal {
    ghost also_owns = { λ s. seal_owns s.is_full s.alloc s.ptr s.shelf };
}

// It may go to another thread: it owns a shelf, which may, or nothing.
unsafe impl Send for Seal {}

impl Seal {
    fn of_parts(parts: Parts<Shelf, Global>) -> Seal
        ensures { (result.is_full ≡ true) × (result.shelf ≡ parts.value) }
    {
        let Parts { ptr, alloc } = parts;
        Seal {
            ptr: ptr as *mut u8,
            alloc,
        }
    }

    fn into_parts(self) -> Parts<Shelf, Global>
        requires { self.is_full ≡ true }
        ensures { result.value ≡ self.shelf }
    {
        let Seal { ptr, alloc } = self;
        Parts {
            ptr: ptr as *mut Shelf,
            alloc,
        }
    }

    fn empty(alloc: Global) -> Seal
        ensures { result.is_full ≡ false }
    {
        Seal {
            ptr: std::ptr::null_mut(),
            alloc,
        }
    }
}

/// A `Box` with its fields in sight.
struct Parts<T, A: Allocator> {
    ptr: *mut T,
    alloc: A,
    ghost value: { T },
}

impl<T, A: Allocator> Model for Parts<T, A> {
    ghost also_owns = { λ p. box_owns (A.dealloc_token p.alloc) T.row p.ptr p.value };
}

impl<T, A: Allocator> Parts<T, A> {
    fn of(b: Box<T, A>) -> Parts<T, A>
    where
        T: Drop,
        ensures { result.value ≡ b.value }
    {
        let (ptr, alloc) = Box::into_raw_with_allocator(b);
        Parts { ptr, alloc }
    }

    fn into_box(self) -> Box<T, A>
        ensures { result.value ≡ self.value }
    {
        let Parts { ptr, alloc } = self;
        unsafe { Box::from_raw(alloc, ptr) }
    }
}

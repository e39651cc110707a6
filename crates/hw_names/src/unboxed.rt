//! A box as its pointer and its allocator.

ghost use Rattle.std.specs.Prelude.{◌≡◌};

use std::alloc::Global;
use std::marker::Model;

/// What is left of a box that was taken apart: it still owns the value behind the pointer.
pub(crate) struct Unboxed<T> {
    pub(crate) pointer: *mut T,
    pub(crate) alloc: Global,
    pub(crate) ghost value: { T },
}

impl<T> Model for Unboxed<T> {
    ghost use Rattle.std.specs.Box.Ownership.{box_owns};
    ghost use Rattle.std_heap.specs.contracts.GlobalAllocator.TheImpl.{ghosts};

    ghost also_owns = { λ l. box_owns (ghosts.dealloc_token l.alloc) T.row l.pointer l.value };
}

impl<T: Drop> Unboxed<T> {
    /// Takes a box apart.
    pub(crate) fn of(whole: Box<T>) -> Unboxed<T>
        ensures { result.value ≡ whole.value }
    {
        let (pointer, alloc) = Box::into_raw_with_allocator(whole);
        Unboxed { pointer, alloc }
    }
}

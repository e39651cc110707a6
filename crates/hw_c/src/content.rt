//! The parts of a box: its pointer and its allocator.

ghost use Rattle.std.specs.{Prelude.{◌≡◌}, Box.Ownership.{box_owns}};

use std::alloc::Allocator;
use std::marker::Model;

/// The pointer and the allocator of a box. They own what the box owned.
pub(crate) struct Content<T, A: Allocator> {
    pub(crate) at: *mut T,
    pub(crate) alloc: A,
    pub(crate) ghost value: { T },
}

impl<T, A: Allocator> Model for Content<T, A> {
    ghost also_owns = { λ c. box_owns (A.dealloc_token c.alloc) T.row c.at c.value };
}

impl<T, A: Allocator> Content<T, A> {
    /// Takes a box apart.
    pub(crate) fn of(boxed: Box<T, A>) -> Content<T, A>
    where
        T: Drop,
        ensures { result.value ≡ boxed.value }
    {
        let (at, alloc) = Box::into_raw_with_allocator(boxed);
        Content { at, alloc }
    }

    /// Puts a box together again.
    pub(crate) fn boxed(self) -> Box<T, A>
        ensures { result.value ≡ self.value }
    {
        let Content { at, alloc } = self;
        unsafe { Box::from_raw(alloc, at) }
    }
}

//! Lists that contracts see as lists, and the answer for want of memory.

ghost use Rattle.std.specs.Prelude.{◌≡◌, ◌++◌, ◌∷◌, [], length, OnOk, OnErr, IfOk};

use crate::answers::Culprit;
use crate::unit::{Digest, Need};
use std::alloc::{AllocError, AllocFailed, Global};
use std::marker::Model;

/// There was no memory. It stands in place of any other answer of a call that can give it.
#[derive(Clone, Copy, Debug, PartialEq, Eq)]
pub struct OutOfMemory;

impl From<AllocError> for OutOfMemory {
    fn from(_e: AllocError) -> OutOfMemory {
        OutOfMemory
    }
}

impl<T: Drop> From<AllocFailed<T>> for OutOfMemory {
    fn from(_e: AllocFailed<T>) -> OutOfMemory {
        OutOfMemory
    }
}

/// A list of items, which contracts see as a list.
#[derive(Drop)]
pub struct Items<T> {
    items: Vec<T>,
}

impl<T> Model for Items<T> {
    ghost use Rattle.std.specs.Prelude.{List};

    ghost Value = { List T };

    ghost view = { λ list. list.items.items };
}

impl<T> Items<T> {
    /// An empty list, which takes its memory from `alloc` as it grows.
    pub fn new(alloc: Global) -> Items<T>
        ensures { result ≡ [] }
    {
        Items {
            items: Vec::new(alloc),
        }
    }

    /// The items of a vector, which takes no memory.
    pub fn from_vec(items: Vec<T>) -> Items<T>
        ensures { result ≡ items.items }
    {
        Items { items }
    }

    /// The items as a vector, which takes no memory.
    pub fn into_vec(self) -> Vec<T>
        ensures { result.items ≡ self }
    {
        self.items
    }

    /// How many items the list has.
    pub fn len(&self) -> usize
        ensures { result ≡ length self.now }
    {
        self.items.len()
    }

    /// The items in order.
    pub fn as_slice(&self) -> &[T]
        ensures { result.now ≡ self.now }
    {
        self.items.as_slice()
    }
}

impl<T: Drop> Items<T> {
    /// Puts one item last. Where there is no memory, the list stays as it was.
    pub fn push(&mut self, item: T) -> Result<(), OutOfMemory>
        ensures ok { OnOk result (self.new ≡ self.old ++ item ∷ []) }
        ensures err { OnErr result (self.new ≡ self.old) }
    {
        self.items.push(item)?;
        Ok(())
    }
}

impl<T: Copy> Items<T> {
    /// Puts all the items last, in order. Where there is no memory, the list stays as it was.
    pub fn extend(&mut self, items: &[T]) -> Result<(), OutOfMemory>
        ensures ok { OnOk result (self.new ≡ self.old ++ items.now) }
        ensures err { OnErr result (self.new ≡ self.old) }
    {
        self.items.extend_from_slice(items)?;
        Ok(())
    }

    /// A list with the same items.
    pub fn copy(&self) -> Result<Items<T>, OutOfMemory>
        ensures { IfOk result (λ list. list ≡ self.now) }
    {
        let items = Vec::from_slice(*self.items.allocator(), self.items.as_slice())?;
        Ok(Items { items })
    }
}

/// Bytes, as those of a block's value.
pub type Bytes = Items<u8>;

/// Names of units.
pub type DigestList = Items<Digest>;

/// Numbers of validators.
pub type IndexList = Items<u32>;

/// The weight of each validator, in their order.
pub type WeightList = Items<u64>;

/// What a unit waits for.
pub type NeedList = Items<Need>;

/// Validators that equivocated, each with two units that show it.
pub type CulpritList = Items<Culprit>;

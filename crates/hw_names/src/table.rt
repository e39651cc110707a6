//! The table itself: names with their hashes.

ghost use Rattle.std.specs.{Prelude.{◌≡◌, ◌+◌, ◌≤◌, [], ◌∷◌, ◌++◌, false, length, position, is_some, IfOk, OnOk}, List.{list_any, IsDistinct}};
ghost use Rattle.hw_types.specs.Graph.{digest_eq};

use hw_types::{Digest, OutOfMemory};
use indexmap::IndexSet;
use std::alloc::Global;
use std::marker::Model;

/// Names, each at its place.
#[derive(Drop)]
pub(crate) struct Table {
    set: IndexSet<Digest>,
}

impl Model for Table {
    ghost use Rattle.std.specs.List.{IsDistinct};
    ghost use Rattle.indexmap.specs.IndexSet.{spare as room_of};
    ghost use Rattle.hw_types.specs.Graph.{digest_eq};
    ghost use Rattle.hw_names.specs.Names.{Names};

    ghost Value = { Names };

    ghost view = { λ t. record { names = t.set.keys; room = room_of t.set } };

    ghost invariant = { λ t. IsDistinct digest_eq t.set.keys };
}

impl Table {
    /// A table without names.
    pub(crate) fn new(alloc: Global) -> Table
        ensures { result.names ≡ [] }
    {
        Table {
            set: IndexSet::new(alloc),
        }
    }

    /// Makes room for at least `count` more names.
    pub(crate) fn reserve(&mut self, count: usize) -> Result<(), OutOfMemory>
        ensures room { OnOk result (count ≤ self.new.room) }
        ensures kept { self.old.room ≤ self.new.room }
        ensures names { self.new.names ≡ self.old.names }
        ensures distinct { IsDistinct digest_eq self.new.names }
    {
        self.set.reserve(count)?;
        Ok(())
    }

    /// The place of a name.
    pub(crate) fn find(&self, name: &Digest) -> Option<usize>
        ensures place { result ≡ position (digest_eq name.now) self.now.names }
        ensures found { is_some result ≡ list_any (digest_eq name.now) self.now.names }
    {
        self.set.get_index_of(name)
    }

    /// The names, in their order.
    pub(crate) fn as_slice(&self) -> &[Digest]
        ensures { result.now ≡ self.now.names }
    {
        self.set.as_slice()
    }

    /// Puts a new name last.
    pub(crate) fn push(&mut self, name: Digest)
        requires room { 1 ≤ self.old.room }
        requires fresh { list_any (digest_eq name) self.old.names ≡ false }
        ensures names { self.new.names ≡ self.old.names ++ name ∷ [] }
        ensures room { self.old.room ≤ self.new.room + 1 }
        ensures distinct { IsDistinct digest_eq self.new.names }
    {
        if self.set.insert(name).is_err() {
            unreachable!()
        }
    }
}

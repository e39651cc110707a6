//! Names and their places.

ghost use Rattle.std.specs.{Prelude.{◌≡◌, ◌+◌, ◌≤◌, [], ◌∷◌, ◌++◌, false, length, position, is_some, OnOk}, List.{list_any, IsDistinct}};
ghost use Rattle.hw_types.specs.Graph.{digest_eq};

use crate::hidden::HiddenTable;
use crate::table::Table;
use hw_types::{Digest, OutOfMemory};
use std::alloc::Global;
use std::marker::Model;

/// Names that differ from each other, in the order in which they came. A name's place is how many came before it.
#[derive(Drop)]
pub struct NameTable {
    alloc: Global,
    /// None until room is made for the first name.
    hidden: Option<HiddenTable>,
}

impl Model for NameTable {
    ghost use Rattle.hw_names.specs.Names.{Names};

    ghost Value = { Names };

    ghost use Rattle.hw_names.specs.Opened.{shown_by, IsNames};

    ghost view = { λ t. shown_by t.hidden };

    ghost invariant = { λ t. IsNames (shown_by t.hidden) };
}

impl NameTable {
    /// A table without names. It takes no memory.
    pub fn new(alloc: Global) -> NameTable
        ensures { result.names ≡ [] }
    {
        NameTable {
            alloc,
            hidden: None,
        }
    }

    /// Makes room for at least `count` more names. The names stay, and the room never shrinks.
    pub fn reserve(&mut self, count: usize) -> Result<(), OutOfMemory>
        ensures room { OnOk result (count ≤ self.new.room) }
        ensures kept { self.old.room ≤ self.new.room }
        ensures names { self.new.names ≡ self.old.names }
    {
        let mut table = match self.hidden.take() {
            Some(hidden) => hidden.into_box(),
            None => Box::new(self.alloc, Table::new(self.alloc))?,
        };
        let reserved = table.reserve(count);
        self.hidden = Some(HiddenTable::hide(table));
        reserved
    }

    /// The place of a name, or None where it isn't in the table.
    pub fn find(&self, name: &Digest) -> Option<usize>
        ensures place { result ≡ position (digest_eq name.now) self.now.names }
        ensures found { is_some result ≡ list_any (digest_eq name.now) self.now.names }
        ensures distinct { IsDistinct digest_eq self.now.names }
    {
        self.hidden.as_ref()?.get().find(name)
    }

    /// The names, in the order in which they came.
    pub fn as_slice(&self) -> &[Digest]
        ensures { result.now ≡ self.now.names }
    {
        match &self.hidden {
            Some(hidden) => hidden.get().as_slice(),
            None => &[],
        }
    }

    /// Puts a new name last. It takes no memory.
    pub fn push(&mut self, name: Digest)
        requires room { 1 ≤ self.old.room }
        requires fresh { list_any (digest_eq name) self.old.names ≡ false }
        ensures names { self.new.names ≡ self.old.names ++ name ∷ [] }
        ensures room { self.old.room ≤ self.new.room + 1 }
    {
        if let Some(hidden) = self.hidden.take() {
            let mut table = hidden.into_box();
            table.push(name);
            self.hidden = Some(HiddenTable::hide(table));
        }
    }
}

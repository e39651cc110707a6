//! Values by digest.

ghost use Rattle.std.specs.{Prelude.{◌≡◌, ◌+◌, ◌≤◌, [], ◌∷◌, ◌++◌, None, length, OnOk}, List.{IsDistinct}, Map.{keys_of, lookup}, Option.{option_copied}};
ghost use Rattle.hw_types.specs.Graph.{digest_eq};
ghost use Rattle.hw_core.specs.Entries.{insert_entry};

use hw_names::NameTable;
use hw_types::{Digest, OutOfMemory};
use std::alloc::Global;
use std::marker::Model;

/// A value for each of some names, in the order in which the names came. The hash table is a `NameTable`'s, so that no
/// type of this crate, nor of one above, names its types.
#[derive(Drop)]
pub struct DigestMap<V> {
    names: NameTable,
    /// The value of the name at the same place.
    values: Vec<V>,
}

impl<V> Model for DigestMap<V> {
    ghost use Rattle.hw_core.specs.Entries.{Entries};

    ghost Value = { Entries V };

    ghost use Rattle.std.specs.{Prelude.{◌≡◌, ◌-◌, length, min, zip, vec_len, vec_capacity}, List.{IsDistinct}};
    ghost use Rattle.hw_types.specs.Graph.{digest_eq};

    ghost view = { λ m. record {
      entries = zip m.names.names m.values.items;
      room = min m.names.room (vec_capacity m.values - vec_len m.values);
    } };

    ghost invariant = { λ m. (length m.values.items ≡ length m.names.names) × IsDistinct digest_eq m.names.names };
}

impl<V: Drop> DigestMap<V> {
    /// No name has a value. It takes no memory.
    pub fn new(alloc: Global) -> DigestMap<V>
        ensures empty { result.entries ≡ [] }
    {
        DigestMap {
            names: NameTable::new(alloc),
            values: Vec::new(alloc),
        }
    }

    /// How many names have a value.
    pub fn len(&self) -> usize
        ensures len { result ≡ length self.now.entries }
        ensures distinct { IsDistinct digest_eq (keys_of self.now.entries) }
    {
        self.values.len()
    }

    /// The names, in the order in which they came.
    pub fn names(&self) -> &[Digest]
        ensures { result.now ≡ keys_of self.now.entries }
    {
        self.names.as_slice()
    }

    /// The value of a name, or None where it has none.
    pub fn get(&self, name: &Digest) -> Option<&V>
        ensures value { option_copied result ≡ lookup (digest_eq name.now) self.now.entries }
    {
        let place = self.names.find(name)?;
        Some(&self.values[place])
    }

    /// Makes room for at least `count` more names with their values. The entries stay, and the room never shrinks.
    pub fn reserve(&mut self, count: usize) -> Result<(), OutOfMemory>
        ensures room { OnOk result (count ≤ self.new.room) }
        ensures kept { self.old.room ≤ self.new.room }
        ensures entries { self.new.entries ≡ self.old.entries }
    {
        self.names.reserve(count)?;
        self.values.reserve(count)?;
        Ok(())
    }

    /// Puts a new name last, with its value. It takes no memory.
    pub fn push(&mut self, name: Digest, value: V)
        requires room { 1 ≤ self.old.room }
        requires fresh { lookup (digest_eq name) self.old.entries ≡ None }
        ensures entries { self.new.entries ≡ self.old.entries ++ (name, value) ∷ [] }
        ensures room { self.old.room ≤ self.new.room + 1 }
    {
        self.names.push(name);
        self.values.push_reserved(value);
    }

    /// Gives a name this value: in the place of the one that it has, or else last. It takes no memory.
    pub fn insert(&mut self, name: Digest, value: V)
        requires room { 1 ≤ self.old.room }
        ensures entries { self.new.entries ≡ insert_entry digest_eq self.old.entries name value }
        ensures room { self.old.room ≤ self.new.room + 1 }
    {
        match self.names.find(&name) {
            Some(place) => self.values[place] = value,
            None => self.push(name, value),
        }
    }
}

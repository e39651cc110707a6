//! Names in the order in which they came, and the place of each.
//!
//! A [`NameTable`] is a list of digests that differ from each other. A look-up by digest takes the time of a hash,
//! however long the list is. Contracts see the list, and how many more names fit without taking memory.
//!
//! The hash table stands behind a pointer, so that no type of a crate above names the hash table's types: what is known
//! of these types is then no part of those crates.
#![tactic(auto)]

mod hidden;
mod names;
mod table;
mod unboxed;

pub use names::NameTable;

//! A table behind a pointer whose type doesn't name it.

ghost use Rattle.std.specs.Prelude.{◌≡◌};
ghost use Rattle.hw_names.specs.{Hidden.{owns_table, shares_table, table_coded}, Names.{Names}};

use crate::table::Table;
use crate::unboxed::Unboxed;
use std::alloc::Global;
use std::marker::Model;

/// A box with a table. Its type is that of a pointer to bytes, so it names no type of the table.
pub(crate) struct HiddenTable {
    at: *mut u8,
    alloc: Global,
    ghost table: { Names } by { table_coded },
}

impl Model for HiddenTable {
    ghost also_owns = { λ h. owns_table h.alloc h.at h.table };

    ghost also_shares = { λ h _ κ. shares_table h.at h.table κ };
}

impl HiddenTable {
    /// Hides the table of a box.
    pub(crate) fn hide(table: Box<Table>) -> HiddenTable
        ensures { result.table ≡ table.value }
    {
        HiddenTable::of(Unboxed::of(table))
    }

    /// The same pointer, to bytes.
    fn of(table: Unboxed<Table>) -> HiddenTable
        ensures { result.table ≡ table.value }
    {
        let Unboxed { pointer, alloc } = table;
        HiddenTable {
            at: pointer as *mut u8,
            alloc,
        }
    }

    /// The box again.
    pub(crate) fn into_box(self) -> Box<Table>
        ensures { result.value ≡ self.table }
    {
        let HiddenTable { at, alloc } = self;
        unsafe { Box::from_raw(alloc, at as *mut Table) }
    }

    /// The table, to look names up.
    pub(crate) fn get(&self) -> &Table
        ensures { result.now ≡ self.now.table }
    {
        unsafe { &*(self.at as *const Table) }
    }
}

impl Drop for HiddenTable {
    fn drop(self) {
        drop(self.into_box());
    }
}

// What is behind the pointer may go to another thread, as a box with a table may.
unsafe impl Send for HiddenTable {}

unsafe impl Sync for HiddenTable {}

//! Units by number, and panoramas in numbers.

ghost use Rattle.std.specs.Prelude.{◌≡◌, ◌<◌, ◌↔◌, length, replicate, slice_index_or, slice_set, IsTrue, IfOk};
ghost use Rattle.hw_dag.specs.Slots.{HasCode, IsWithin};
ghost use Rattle.hw_dag.specs.declared.numbers.View.TheVariants as view;

use hw_types::OutOfMemory;
use std::alloc::Global;
use std::marker::Model;

/// The number of a unit: its place in the graph's list.
#[derive(Clone, Copy, Debug, PartialEq, Eq)]
pub struct UnitNo(pub u32);

/// What is seen of one validator.
#[derive(Clone, Copy, Debug, PartialEq, Eq)]
pub enum View {
    /// No unit of it.
    Absent,
    /// This is its latest unit.
    Correct(UnitNo),
    /// It equivocated.
    Faulty,
}

/// What is seen of one validator, in four bytes. Contracts see it as the view that it stands for.
#[derive(Clone, Copy, Debug)]
pub struct Slot(u32);

impl Model for Slot {
    ghost use Rattle.std.specs.Prelude.{◌<◌, ◌^◌};
    ghost use Rattle.hw_dag.specs.{declared.numbers.View.{View}, Slots.{view_of_code, code_of_view}};

    ghost Value = { View };

    ghost use Rattle.hw_dag.specs.SlotCodes.{slot_again};

    ghost view = { λ s. view_of_code s.0 };

    ghost invariant = { λ s. s.0 < 2 ^ 32 };

    ghost inverse = { λ v. record { 0 = code_of_view v } };

    ghost inverse_ok = { λ s h. slot_again s };
}

/// The slot that sees no unit.
const ABSENT: u32 = 0;

/// The slot that sees an equivocation.
const FAULTY: u32 = u32::MAX;

impl Slot {
    /// The slot of a view.
    #[inline]
    pub fn of(view: View) -> Slot
        requires { HasCode view }
        ensures { result ≡ view }
    {
        match view {
            View::Absent => Slot(ABSENT),
            View::Correct(no) => Slot(no.0 + 1),
            View::Faulty => Slot(FAULTY),
        }
    }

    /// What is seen.
    #[inline]
    pub fn view(self) -> View
        ensures { result ≡ self }
    {
        match self.0 {
            ABSENT => View::Absent,
            FAULTY => View::Faulty,
            code => View::Correct(UnitNo(code - 1)),
        }
    }

    /// Whether the same is seen.
    #[inline]
    pub fn is(self, other: Slot) -> bool
        ensures { IsTrue result ↔ (self ≡ other) }
    {
        self.0 == other.0
    }
}

/// What is seen of each validator, in their order. Contracts see it as a list.
#[derive(Drop)]
pub struct Panorama {
    views: Vec<Slot>,
}

impl Model for Panorama {
    ghost use Rattle.std.specs.Prelude.{List};
    ghost use Rattle.hw_dag.specs.declared.numbers.View.{View};

    ghost Value = { List View };

    ghost view = { λ p. p.views.items };
}

impl Panorama {
    /// Nothing is seen of any of so many validators.
    pub fn new(alloc: Global, validators: u32) -> Result<Panorama, OutOfMemory>
        ensures { IfOk result (λ panorama. panorama ≡ replicate validators view.Absent) }
    {
        let mut views = Vec::with_capacity(alloc, validators as usize)?;
        views.resize(validators as usize, Slot(ABSENT))?;
        Ok(Panorama { views })
    }

    /// The same panorama.
    pub fn copy(&self) -> Result<Panorama, OutOfMemory>
        ensures { IfOk result (λ panorama. panorama ≡ self.now) }
    {
        let views = Vec::from_slice(*self.views.allocator(), self.views.as_slice())?;
        Ok(Panorama { views })
    }

    /// What is seen of the validator.
    pub fn get(&self, validator: u32) -> View
        requires { validator < length self.now }
        ensures { result ≡ slice_index_or self.now validator view.Absent }
    {
        self.views[validator as usize].view()
    }

    /// `get` as a slot.
    #[inline]
    pub fn slot(&self, validator: u32) -> Slot
        requires { validator < length self.now }
        ensures { result ≡ slice_index_or self.now validator view.Absent }
    {
        self.views[validator as usize]
    }

    /// Whether each slot comes before that of the other, or is the same: no unit comes first, then units by
    /// number, and an equivocation last. No slot ends the look early, so several are compared at once.
    pub fn is_within(&self, other: &Panorama) -> bool
        requires { length self.now ≡ length other.now }
        ensures { IsTrue result ↔ IsWithin self.now other.now }
    {
        let mut within = true;
        for (low, high) in self.views.iter().zip(other.views.as_slice()) {
            within &= low.0 <= high.0;
        }
        within
    }

    /// What is seen of each validator, in their order.
    pub fn views(&self) -> &[Slot]
        ensures { result.now ≡ self.now }
    {
        self.views.as_slice()
    }

    /// Changes the slot of the validator, and no other.
    pub fn set(&mut self, validator: u32, view: View)
        requires within { validator < length self.old }
        requires code { HasCode view }
        ensures { self.new ≡ slice_set self.old validator view }
    {
        self.put(validator, Slot::of(view));
    }

    /// `set` with a slot.
    pub fn put(&mut self, validator: u32, slot: Slot)
        requires { validator < length self.old }
        ensures { self.new ≡ slice_set self.old validator slot }
    {
        self.views[validator as usize] = slot;
    }
}

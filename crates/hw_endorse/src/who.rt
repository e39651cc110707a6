//! Some validators.

ghost use Rattle.std.specs.Prelude.{◌≡◌, ◌≤◌, ◌∷◌, ◌++◌, [], OnOk};
ghost use Rattle.hw_endorse.specs.Kept.{is_one};

use hw_types::OutOfMemory;
use std::alloc::Global;
use std::marker::Model;

/// Validators in the order in which they were put in. The last one stands apart from those before it: mostly there is
/// one, which takes no list.
#[derive(Drop)]
pub struct Who {
    earlier: Vec<u32>,
    last: Option<u32>,
}

impl Model for Who {
    ghost use Rattle.std.specs.Prelude.{◌-◌, vec_len, vec_capacity};
    ghost use Rattle.hw_endorse.specs.Who.{SomeWho, with_last, room_for};

    ghost Value = { SomeWho };

    ghost view = { λ w. record { items = with_last w.earlier.items w.last; room = room_for w.last (vec_capacity w.earlier - vec_len w.earlier) } };
}

impl Who {
    /// None.
    pub fn new(alloc: Global) -> Who
        ensures items { result.items ≡ [] }
    {
        Who {
            earlier: Vec::new(alloc),
            last: None,
        }
    }

    /// Whether a validator is one of them.
    pub fn has(&self, validator: u32) -> bool
        ensures { result ≡ is_one self.now.items validator }
    {
        match self.last {
            None => self.earlier.contains(&validator),
            Some(last) => self.earlier.contains(&validator) || last == validator,
        }
    }

    /// Makes room for one more.
    pub fn reserve(&mut self) -> Result<(), OutOfMemory>
        ensures items { self.new.items ≡ self.old.items }
        ensures room { OnOk result (1 ≤ self.new.room) }
    {
        if self.last.is_some() {
            self.earlier.reserve(1)?;
        }
        Ok(())
    }

    /// Puts one last, for which there is room.
    pub fn push_reserved(&mut self, validator: u32)
        requires { 1 ≤ self.old.room }
        ensures items { self.new.items ≡ self.old.items ++ validator ∷ [] }
    {
        if let Some(last) = self.last {
            self.earlier.push_reserved(last);
        }
        self.last = Some(validator);
    }
}

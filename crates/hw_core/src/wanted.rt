//! A list of needs, each once.

ghost use Rattle.std.specs.{Prelude.{◌≡◌, ◌<◌, ◌≤◌, false, [], ◌∷◌, ◌++◌, length, take, drop, OnOk, if◌then◌else◌}, List.{list_any}};
ghost use Rattle.hw_types.specs.Settled.{need_eq};
ghost use Rattle.hw_core.specs.Missing.{with_need};

use hw_park::{NeedKey, key_of};
use hw_types::{Need, OutOfMemory};
use std::alloc::Global;
use std::collections::BTreeSet;
use std::marker::Model;

/// So many needs are looked for one by one.
const FEW: usize = 16;

/// Needs in order. A peer may name very many, so those behind the first few are looked for by their keys, at
/// the cost of a look-up.
#[derive(Drop)]
pub struct Wanted {
    needs: Vec<Need>,
    /// The keys of the needs behind the first few.
    keys: BTreeSet<NeedKey>,
}

impl Model for Wanted {
    ghost use Rattle.std.specs.Prelude.{List};
    ghost use Rattle.hw_types.specs.declared.unit.Need.{Need as Missed};

    ghost Value = { List Missed };

    ghost use Rattle.hw_core.specs.Missing.{AreKeysBehind};

    ghost view = { λ w. w.needs.items };

    ghost invariant = { λ w. AreKeysBehind w.keys.keys w.needs.items };
}

impl Wanted {
    /// No needs.
    pub fn new(alloc: Global) -> Wanted
        ensures { result ≡ [] }
    {
        Wanted {
            needs: Vec::new(alloc),
            keys: BTreeSet::new(alloc),
        }
    }

    /// Puts a need last, unless it is there.
    pub fn put(&mut self, need: Need) -> Result<(), OutOfMemory>
        ensures { OnOk result (self.new ≡ with_need (λ _. false) self.old need) }
    {
        if self.is_among_first(&need) {
            return Ok(());
        }
        if self.needs.len() < FEW {
            self.put_first(need)
        } else {
            self.put_behind(need)
        }
    }

    // Whether the need is among the first few.
    fn is_among_first(&self, need: &Need) -> bool
        ensures { result ≡ list_any (λ m. need_eq m need.now) (take 16 self.now) }
    {
        let few = self.needs.len().min(FEW);
        self.needs[..few].contains(need)
    }

    // Puts a need last among the first few, which get their room at once.
    fn put_first(&mut self, need: Need) -> Result<(), OutOfMemory>
        requires { length self.old < 16 }
        ensures { OnOk result (self.new ≡ self.old ++ need ∷ []) }
    {
        self.needs.reserve(FEW - self.needs.len())?;
        self.needs.push_reserved(need);
        Ok(())
    }

    // Puts a need last behind the first few, unless it is behind them already: one look-up says both.
    fn put_behind(&mut self, need: Need) -> Result<(), OutOfMemory>
        requires { 16 ≤ length self.old }
        ensures { OnOk result (self.new ≡ (if list_any (λ m. need_eq m need) (drop 16 self.old) then self.old else self.old ++ need ∷ [])) }
    {
        // Once there is room for it, only its key can want memory, and then nothing has changed.
        self.needs.reserve(1)?;
        if self.keys.insert(key_of(&need))? {
            self.needs.push_reserved(need);
        }
        Ok(())
    }

    /// The list alone.
    pub fn into_needs(self) -> Vec<Need>
        ensures { result.items ≡ self }
    {
        let Wanted { needs, keys: _keys } = self;
        needs
    }
}

//! The steps of a script.

ghost use Rattle.std.specs.Prelude.{◌≡◌, ◌<◌, ◌++◌, ◌∷◌, [], Some, slice_get, length, OnOk, OnErr};
ghost use Rattle.hw_script_grammar.specs.Fits.{ActFits};

use crate::named::Named;
use hw_types::{Bytes, Digest, OutOfMemory};
use std::alloc::Global;
use std::marker::Model;

/// One step of a script.
#[derive(Drop)]
pub enum Act {
    /// Delivers a vertex to the node.
    Deliver(Named),
    /// Delivers this validator's endorsement of the unit with this name and digest.
    Endorse(Bytes, Digest, u32),
    /// Shows the fork choice.
    ShowFork,
    /// Shows what the node observes of each validator.
    ShowPanorama,
    /// Shows the faulty validators.
    ShowFaulty,
    /// Shows the final blocks.
    ShowFinal,
}

/// The steps, in order. Contracts see a list. Each vertex keeps the limits of its format, and has its unit's digest.
#[derive(Drop)]
pub struct Acts {
    items: Vec<Act>,
}

impl Model for Acts {
    ghost use Rattle.std.specs.Prelude.{List};
    ghost use Rattle.hw_script_grammar.specs.{declared.acts.Act.{Act}, Fits.{AllActsFit}};

    ghost Value = { List Act };

    ghost view = { λ acts. acts.items.items };

    ghost invariant = { λ acts. AllActsFit acts.items.items };
}

impl Acts {
    /// No steps.
    pub(crate) fn new(alloc: Global) -> Acts
        ensures { result ≡ [] }
    {
        Acts {
            items: Vec::new(alloc),
        }
    }

    /// Adds one step at the end. After `OutOfMemory` the list is as it was.
    #[tactic(auto, using(crate::proofs::ActLaws::fit_more))]
    pub(crate) fn push(&mut self, act: Act) -> Result<(), OutOfMemory>
        requires { ActFits act }
        ensures ok { OnOk result (self.new ≡ self.old ++ act ∷ []) }
        ensures err { OnErr result (self.new ≡ self.old) }
    {
        self.items.push(act)?;
        Ok(())
    }

    /// Adds all of these at the end.
    #[tactic(auto, using(crate::proofs::ActLaws::fit_all))]
    pub(crate) fn append(&mut self, mut acts: Acts) -> Result<(), OutOfMemory>
        ensures { OnOk result (self.new ≡ self.old ++ acts) }
    {
        self.items.append(&mut acts.items)?;
        Ok(())
    }

    /// How many steps there are.
    pub fn len(&self) -> usize
        ensures { result ≡ length self.now }
    {
        self.items.len()
    }

    /// The step at this place, counted from 0.
    #[tactic(auto, using(crate::proofs::ActLaws::fit_at))]
    pub fn get(&self, place: usize) -> &Act
        requires { place < length self.now }
        ensures act { slice_get self.now place ≡ Some result.now }
        ensures fits { ActFits result.now }
    {
        &self.items[place]
    }
}

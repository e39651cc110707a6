//! What is explained of a node, vertex by vertex.

ghost use Rattle.std.specs.Prelude.{◌≡◌, ◌+◌, ◌<◌, [], length, IfOk, OnOk};
ghost use Rattle.hw_types.specs.Real.{CoreState};
ghost use Rattle.hw_core.specs.Decided.{decided_in};
ghost use Rattle.hw_explain.specs.{Explain.{explained_in}, Told.{HasLines, HasTold, IsBehind, AreNewFrom}};

use crate::lines::put_exceeded;
use crate::summit::put_line;
use hw_core::Core;
use hw_text::put_word;
use hw_types::{Bytes, OutOfMemory};
use std::alloc::Global;

/// The lines of the blocks that are decided so far, and how many blocks they are.
#[derive(Drop)]
pub(crate) struct DecisionLines {
    alloc: Global,
    text: Bytes,
    count: u64,
}

impl DecisionLines {
    /// No line, for a node that has received nothing.
    pub(crate) fn new(alloc: Global) -> DecisionLines
        ensures { (c : CoreState) → c.journal ≡ [] → HasTold result c }
    {
        DecisionLines {
            alloc,
            text: Bytes::new(alloc),
            count: 0,
        }
    }

    /// Adds the lines of the blocks that the last vertex decided.
    pub(crate) fn tell(&mut self, core: &Core) -> Result<(), OutOfMemory>
        requires { IsBehind self.old core.now }
        ensures { OnOk result (HasTold self.new core.now) }
    {
        let count = core.decision_count();
        for index in self.count..count {
            self.put(core, index)?;
        }
        self.count = count;
        Ok(())
    }

    /// Adds the line of the block at this place, which the last vertex decided.
    fn put(&mut self, core: &Core, index: u64) -> Result<(), OutOfMemory>
        requires within { index < length (decided_in core.now) }
        requires is_new { AreNewFrom core.now index }
        requires lines { HasLines self.old core.now index }
        ensures lines { OnOk result (HasLines self.new core.now (index + 1)) }
        ensures count { self.new.count ≡ self.old.count }
    {
        let decision = core.decision(index);
        put_line(self.alloc, &mut self.text, core, decision)
    }

    /// The whole text, which ends with the weight of the faulty where it exceeds the threshold.
    pub(crate) fn finish(mut self, core: &Core) -> Result<Bytes, OutOfMemory>
        requires { HasTold self core.now }
        ensures { IfOk result (λ text. text ≡ explained_in core.now) }
    {
        self.put_end(core)?;
        Ok(self.text)
    }

    /// Puts the end of the text last. Where no block is decided, a line that says so comes before it.
    fn put_end(&mut self, core: &Core) -> Result<(), OutOfMemory>
        requires { HasTold self.old core.now }
        ensures { OnOk result (self.new.text ≡ explained_in core.now) }
    {
        if self.count == 0 {
            put_word(&mut self.text, "final -\n")?;
        }
        put_exceeded(&mut self.text, core.exceeded())
    }
}

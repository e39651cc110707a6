//! The lines of the final blocks, each made right after the vertex that made the block final.

ghost use Rattle.std.specs.Prelude.{◌≡◌, ◌+◌, ◌++◌, ◌<◌, [], length, IfOk, OnOk};
ghost use Rattle.hw_core.specs.Decided.{decided_in};
ghost use Rattle.hw_types.specs.Real.{setting_of};
ghost use Rattle.hw_script.specs.{Shows.{finals_text}, Told.{HasLines, HasTold, IsBehind}};
ghost use Rattle.hw_explain.specs.Told.{AreNewFrom};

use crate::named::put_named;
use hw_core::Core;
use hw_explain::put_exceeded;
use hw_script_grammar::Names;
use hw_text::put_word;
use hw_types::{Bytes, OutOfMemory};
use std::alloc::Global;

/// The lines of the blocks that are final so far, and how many they are.
#[derive(Drop)]
pub(crate) struct Finals {
    text: Bytes,
    count: u64,
}

impl Finals {
    /// No line, for a node that has received nothing.
    pub(crate) fn new(alloc: Global) -> Finals
        ensures { result ≡ record { text = []; count = 0 } }
    {
        Finals {
            text: Bytes::new(alloc),
            count: 0,
        }
    }

    /// Adds the lines of the blocks that the last vertex made final.
    #[tactic(auto, using(crate::proofs::ToldLaws::behind_lines, crate::proofs::ToldLaws::behind_new, crate::proofs::ToldLaws::behind_within, crate::proofs::ToldLaws::told_all))]
    pub(crate) fn tell(
        &mut self,
        alloc: Global,
        names: &Names,
        core: &Core,
    ) -> Result<(), OutOfMemory>
        requires { IsBehind names.now self.old core.now }
        ensures { OnOk result (HasTold names.now self.new core.now) }
    {
        let count = core.decision_count();
        for index in self.count..count {
            self.put(alloc, names, core, index)?;
        }
        self.count = count;
        Ok(())
    }

    /// Adds the line of the block at this place, which the last vertex made final.
    fn put(
        &mut self,
        alloc: Global,
        names: &Names,
        core: &Core,
        index: u64,
    ) -> Result<(), OutOfMemory>
        requires within { index < length (decided_in core.now) }
        requires is_new { AreNewFrom core.now index }
        requires lines { HasLines names.now self.old core.now index }
        ensures lines { OnOk result (HasLines names.now self.new core.now (index + 1)) }
        ensures count { self.new.count ≡ self.old.count }
    {
        let decision = core.decision(index);
        put_named(alloc, &mut self.text, names, core, decision)
    }

    /// Puts all lines last, or one that says so where no block is final. The weight of the faulty follows where
    /// it exceeds the threshold.
    #[tactic(auto, using(std::proofs::Common::append_assoc, crate::proofs::ToldLaws::shown_some))]
    pub(crate) fn show(
        &self,
        names: &Names,
        out: &mut Bytes,
        core: &Core,
    ) -> Result<(), OutOfMemory>
        requires { HasTold names.now self.now core.now }
        ensures { OnOk result (out.new ≡ out.old ++ finals_text names.now (setting_of core.now.config) core.now.journal) }
    {
        if self.count == 0 {
            put_word(out, "final -\n")?;
            return Ok(put_exceeded(out, core.exceeded())?);
        }
        out.extend(self.text.as_slice())?;
        Ok(put_exceeded(out, core.exceeded())?)
    }
}

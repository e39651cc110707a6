//! The line of a final block, by its name.

ghost use Rattle.std.specs.{Prelude.{◌≡◌, ◌++◌, OnOk}, List.{join_with_byte}};
ghost use Rattle.hw_types.specs.Real.{received_in};
ghost use Rattle.hw_explain.specs.Searched.{IsDecidedNow};
ghost use Rattle.hw_script.specs.Shows.{named_words, named_line};

use hw_core::Core;
use hw_explain::put_summit;
use hw_script_grammar::Names;
use hw_text::{end_line, put_numbered, put_word};
use hw_types::{Bytes, Decision, OutOfMemory};
use std::alloc::Global;

/// Puts the line of a block that is final now last, with its name in place of its digest.
#[tactic(auto, using(crate::proofs::LineLaws::named_parts))]
pub(crate) fn put_named(
    alloc: Global,
    text: &mut Bytes,
    names: &Names,
    core: &Core,
    decision: &Decision,
) -> Result<(), OutOfMemory>
    requires { IsDecidedNow core.now decision.now }
    ensures { OnOk result (text.new ≡ text.old ++ named_line names.now core.now.config (received_in core.now) decision.now) }
{
    put_named_words(text, names, decision)?;
    put_summit(alloc, text, core, decision)?;
    end_line(text)
}

/// Puts the words of a final block last: its height and name, the level and quorum of its summit, and the
/// length of the journal then.
#[tactic(auto, using(std::proofs::Common::append_assoc))]
fn put_named_words(text: &mut Bytes, names: &Names, decision: &Decision) -> Result<(), OutOfMemory>
    ensures { OnOk result (text.new ≡ text.old ++ join_with_byte 32 (named_words names.now decision.now)) }
{
    put_numbered(text, "final ", decision.height)?;
    put_word(text, " ")?;
    text.extend(names.name_of(&decision.block))?;
    put_numbered(text, " level ", u64::from(decision.level))?;
    put_numbered(text, " quorum ", decision.quorum)?;
    put_numbered(text, " at ", decision.at)
}

//! The line of one final block.

ghost use Rattle.std.specs.Prelude.{◌≡◌, ◌<◌, length, IfOk};
ghost use Rattle.hw_explain.specs.Explain.{line_now};

use crate::summit::put_line;
use hw_core::Core;
use hw_types::{Bytes, OutOfMemory};
use std::alloc::Global;

/// The line of the decided block at this place, with the committee and the starts of its greatest summit. None
/// exactly when the last vertex of the journal didn't decide it: there is no such block, or the journal is
/// longer now than its `at`.
pub fn explain_line(
    alloc: Global,
    core: &mut Core,
    index: u64,
) -> Result<Option<Bytes>, OutOfMemory>
    ensures line { IfOk result (λ line. line ≡ line_now core.old index) }
    ensures unchanged { core.new ≡ core.old }
{
    line_at(alloc, core, index)
}

/// The line of the block at this place, if the last vertex decided it.
fn line_at(alloc: Global, core: &Core, index: u64) -> Result<Option<Bytes>, OutOfMemory>
    ensures { IfOk result (λ line. line ≡ line_now core.now index) }
{
    if index >= core.decision_count() {
        return Ok(None);
    }
    let decision = core.decision(index);
    if decision.at != core.journal_count() {
        return Ok(None);
    }
    let mut text = Bytes::new(alloc);
    put_line(alloc, &mut text, core, decision)?;
    Ok(Some(text))
}

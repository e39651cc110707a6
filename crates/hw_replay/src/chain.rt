//! The decided chain of a node, block by block.

ghost use Rattle.std.specs.Prelude.{◌≡◌, ◌<◌, length, slice_get, Some};
ghost use Rattle.hw_replay.specs.Chain.{told_chain};

use crate::value::value_of;
use hw_core::Core;

/// How many blocks are decided.
#[tactic(auto, unfolding(crate::specs::Chain::told_chain))]
pub(crate) fn chain_length(core: &Core) -> u64
    ensures { result ≡ length (told_chain core.now) }
{
    core.decision_count()
}

/// The decided block at that place: its height, and its value.
pub(crate) fn block_at(core: &Core, index: u64) -> (u64, &[u8])
    requires { index < length (told_chain core.now) }
    ensures { slice_get (told_chain core.now) index ≡ Some (result.0, result.1.now) }
{
    let decision = core.decision(index);
    (decision.height, value_of(core.state(), &decision.block))
}

//! The value of a block.

ghost use Rattle.std.specs.Prelude.{◌≡◌};
ghost use Rattle.hw_types.specs.Graph.{find_node};
ghost use Rattle.hw_dag.specs.Dag.{graph};
ghost use Rattle.hw_replay.specs.Chain.{value_in};

use hw_admit::State;
use hw_types::Digest;

/// The value of the block of this digest. No bytes where it isn't settled or has no value.
pub(crate) fn value_of<'a>(state: &'a State, block: &Digest) -> &'a [u8]
    ensures { result.now ≡ value_in (find_node (graph state.now.dag) block.now) }
{
    let dag = state.dag();
    match dag.find(block) {
        Some(no) => match &dag.unit(no).signed().unit.value {
            Some(value) => value.as_slice(),
            None => &[],
        },
        None => &[],
    }
}

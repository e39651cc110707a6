//! What holds of each node, for a caller who has one in hand.

ghost use Rattle.std.specs.{Prelude.{◌≡◌, None}, List.{All}};
ghost use Rattle.hw_types.specs.Limits.{config_fault};
ghost use Rattle.hw_codec.specs.Ranges.{ConfigInRange, VertexInRange};
ghost use Rattle.hw_replay.specs.Ends.{IsReached};
ghost use Rattle.hw_session.specs.Node.{IsSound};

use crate::node::Node;
use hw_codec::{config_is_in_range, vertex_is_in_range};
use hw_core::Core;

/// Recalls what holds of each core: deliveries reached it, its configuration breaks no limit, and its numbers are those
/// of their types. It reads the journal and changes nothing.
pub fn recall_core(core: &Core)
    ensures reached { IsReached core.now }
    ensures lawful { config_fault core.now.config ≡ None }
    ensures config { ConfigInRange core.now.config }
    ensures vertices { All VertexInRange core.now.journal }
{
    config_is_in_range(core.state().config());
    for place in 0..core.journal_count() {
        vertex_is_in_range(core.journal_at(place));
    }
}

impl Node {
    /// Recalls what holds of each node: it keeps its limits, deliveries reached it, and its numbers are those of their
    /// types. The laws of runs ask it of their nodes. It reads the journal and changes nothing.
    pub fn recall(&self)
        ensures { IsSound self.now }
    {
        recall_core(&self.core);
    }
}

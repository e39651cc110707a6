//! Heights and ancestors of blocks.

ghost use Rattle.std.specs.Prelude.{◌≡◌, ◌<◌, ◌≤◌, IsTrue, IfSome, unwrap_or};
ghost use Rattle.hw_types.specs.Votes.{is_block};
ghost use Rattle.hw_dag.specs.{Dag.{unit_at, node_at, count_of}, Admission.{IsGraph, height_above}, Lanes.{IsAncestorAt}};

use hw_dag::{Dag, UnitNo};

/// The height of the children of a place.
pub fn children_height(dag: &Dag, place: Option<UnitNo>) -> u64
    requires graph { IsGraph dag.now }
    requires known { IfSome place (λ no. no.0 < count_of dag.now) }
    ensures { result ≡ height_above dag.now place }
{
    match place {
        Some(block) => dag.unit(block).height().unwrap_or(0) + 1,
        None => 0,
    }
}

/// The ancestor of a block that has this height.
pub fn ancestor_at(dag: &Dag, block: UnitNo, height: u64) -> UnitNo
    requires known { block.0 < count_of dag.now }
    requires block { IsTrue (is_block (node_at dag.now block.0)) }
    requires within { height ≤ unwrap_or (unit_at dag.now block.0).height 0 }
    ensures { IsAncestorAt dag.now block.0 height result.0 }
{
    dag.ancestor(block, height)
}

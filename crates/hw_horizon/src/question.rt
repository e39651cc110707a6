//! What a search is asked.

ghost use Rattle.hw_horizon.specs.Asked.{IsAsked};

use hw_dag::{Dag, Panorama, UnitNo};

/// Whether a block has a summit: the graph with its validators' weights, the panorama, the block, and the weight of
/// a quorum.
#[derive(Clone, Copy)]
pub struct Question<'a> {
    pub dag: &'a Dag,
    pub weights: &'a [u64],
    pub panorama: &'a Panorama,
    pub block: UnitNo,
    pub quorum: u64,
    pub ghost asked: { IsAsked weights.now dag.now panorama.now block.0 },
}

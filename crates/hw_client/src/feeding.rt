//! The order in which nodes are fed.

ghost use Rattle.std.specs.Prelude.{◌≡◌};
ghost use Rattle.hw_types.specs.Real.{setting_of, settled_in, weight_in};
ghost use Rattle.hw_types.specs.laws.StateLaws.{SaysTheSame};
ghost use Rattle.hw_core.specs.Readers.{fork_in};
ghost use Rattle.hw_client.specs.Feeding.{FedAlike, CoresTellTheSame};

use hw_core::{Core, deliveries_are_the_journal, order_of_deliveries_does_not_count};
use hw_types::Digest;

/// Two nodes that were fed the same vertices in two orders tell the same, if neither refused one. So do two nodes in
/// hand whose journals say the same.
pub fn feeding_order_does_not_count()
    ensures fed { FedAlike }
    ensures hand { CoresTellTheSame }
{}

/// The fork choice of the one node, which is that of the other: their journals say the same in some order.
pub fn forks_are_one(left: &Core, right: &Core) -> Option<Digest>
    requires config { left.now.config ≡ right.now.config }
    requires same { SaysTheSame (setting_of left.now.config) left.now.journal right.now.journal }
    ensures left { result ≡ fork_in left.now }
    ensures right { result ≡ fork_in right.now }
    ensures settled { settled_in left.now ≡ settled_in right.now }
    ensures weight { weight_in left.now ≡ weight_in right.now }
{
    let _left = left.state();
    let _right = right.state();
    deliveries_are_the_journal();
    order_of_deliveries_does_not_count();
    left.fork()
}

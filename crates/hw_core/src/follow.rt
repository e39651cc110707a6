//! What follows from the state after a delivery.

ghost use Rattle.std.specs.Prelude.{◌≡◌, length};
ghost use Rattle.hw_dag.specs.Dag.{graph};
ghost use Rattle.hw_core.specs.{Decided.{IsToldOf, HasRoomFor}, Followed.{HasFollowed}};

use crate::decided::Decided;
use crate::entry::Entry;
use hw_admit::State;
use hw_dag::UnitNo;

/// Decides the blocks that stand now, and answers the fork choice. The vertex is in the journal already.
pub fn follow(journal: &[Entry], state: &mut State, decided: &mut Decided) -> Option<UnitNo>
    requires told { IsToldOf decided.old state.old }
    requires room { HasRoomFor decided.old (length (graph state.old.dag)) }
    ensures followed { HasFollowed state.old (length journal.now) decided.old decided.new result }
    ensures state { state.new ≡ state.old }
{
    decided.run(state, journal.len() as u64)
}

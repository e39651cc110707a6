//! Where the walk can go at once: a block that it passes through.

ghost use Rattle.std.specs.Prelude.{◌<◌, ◌≤◌, length, IsTrue, IfSome};
ghost use Rattle.hw_types.specs.{Below.{Among}, Votes.{is_block}};
ghost use Rattle.hw_dag.specs.{Dag.{count_of, node_at}, Admission.{height_above}, Lanes.{IsAncestor}};
ghost use Rattle.hw_forks.specs.{declared.votes.Vote.{Vote as Voted}, Votes.{AreVotes, height_at}, Walk.{IsCommon, IsPassed, NoChildHasMajority}};

use crate::majority::majority_block;
use crate::votes::Vote;
use hw_dag::{Dag, UnitNo};

/// A block that the walk passes through, from the place from which all votes descend: where they are on
/// one chain the block of the highest vote, else the highest block that has the majority. None where
/// there is no such block.
pub fn start(votes: &[Vote], dag: &Dag, place: Option<UnitNo>) -> Option<UnitNo>
    requires some { 0 < length votes.now }
    requires votes { AreVotes dag.now votes.now }
    requires place { IfSome place (λ no. IsCommon dag.now votes.now no.0) }
    ensures passed { IfSome result (λ no. IsPassed dag.now votes.now no.0) }
    ensures highest { NoChildHasMajority dag.now votes.now result }
    ensures up { height_above dag.now place ≤ height_above dag.now result }
{
    let top = highest(votes);
    if are_on_one_chain(votes, dag, top) {
        return Some(top.block);
    }
    majority_block(votes, dag, top, place)
}

// A vote for a block that no other vote's is higher than.
fn highest(votes: &[Vote]) -> Vote
    requires some { 0 < length votes.now }
    ensures among { Among result votes.now }
    ensures highest { (other : Voted) → Among other votes.now → other.height ≤ result.height }
{
    let mut top = votes[0];
    for vote in votes {
        if top.height < vote.height {
            top = *vote;
        }
    }
    top
}

// Whether all votes are for the block of the highest or ancestors of it.
fn are_on_one_chain(votes: &[Vote], dag: &Dag, top: Vote) -> bool
    requires votes { AreVotes dag.now votes.now }
    requires top { Among top votes.now }
    requires highest { (other : Voted) → Among other votes.now → other.height ≤ top.height }
    ensures { IsTrue result → (vote : Voted) → Among vote votes.now → IsAncestor dag.now vote.block.0 top.block.0 }
{
    // Mostly a vote below the top is for the block of the one before it, to which no way has to be walked again.
    let mut known = top.block;
    for vote in votes {
        if vote.block == known || vote.block == top.block {
            continue;
        }
        if !leads_up(dag, vote, top.block) {
            return false;
        }
        known = vote.block;
    }
    true
}

// Whether the vote is for the block or an ancestor of it.
fn leads_up(dag: &Dag, vote: &Vote, top: UnitNo) -> bool
    requires known { top.0 < count_of dag.now }
    requires block { IsTrue (is_block (node_at dag.now top.0)) }
    requires within { vote.now.height ≤ height_at dag.now top.0 }
    ensures { IsTrue result → IsAncestor dag.now vote.now.block.0 top.0 }
{
    dag.ancestor(top, vote.height) == vote.block
}

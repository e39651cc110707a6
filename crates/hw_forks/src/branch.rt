//! The votes of one branch.

ghost use Rattle.std.specs.Prelude.{◌≡◌, ◌<◌, ◌≤◌, length, take};
ghost use Rattle.hw_dag.specs.{Dag.{count_of}, Admission.{IsGraph}};
ghost use Rattle.hw_forks.specs.{Votes.{AreVotes, IsVote}, Walk.{is_over, votes_towards}};

use crate::votes::Vote;
use hw_dag::{Dag, UnitNo};

/// Puts the votes for the block or descendants of it first, in their order, and says how many there
/// are. The others are lost.
pub fn keep_towards(votes: &mut [Vote], dag: &Dag, block: UnitNo) -> usize
    requires votes { AreVotes dag.now votes.old }
    requires known { block.0 < count_of dag.now }
    ensures count { result ≤ length votes.new }
    ensures kept { take result votes.new ≡ votes_towards dag.now block.0 votes.old }
{
    let mut count = 0;
    for i in 0..votes.len() {
        let vote = votes[i];
        if is_towards(dag, &vote, block) {
            votes[count] = vote;
            count += 1;
        }
    }
    count
}

/// Whether the vote is for the block or a descendant of it.
pub fn is_towards(dag: &Dag, vote: &Vote, block: UnitNo) -> bool
    requires graph { IsGraph dag.now }
    requires vote { IsVote dag.now vote.now }
    requires known { block.0 < count_of dag.now }
    ensures { result ≡ is_over dag.now block.0 vote.now.block.0 }
{
    let height = dag.unit(block).height().unwrap_or(0);
    height <= vote.height && dag.ancestor(vote.block, height) == block
}

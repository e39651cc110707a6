//! The votes of a panorama.

ghost use Rattle.std.specs.Prelude.{◌≡◌, ◌<◌, ◌≤◌, length, take};
ghost use Rattle.hw_dag.specs.{Dag.{count_of, IsPanorama}, Admission.{IsGraph}, Lanes.{AreWeights}};
ghost use Rattle.hw_forks.specs.Votes.{vote_of as vote_of_lem, votes_of, AreVotes, IsRoomFor};

use hw_dag::{Dag, Panorama, UnitNo, View};

/// What the latest unit of one validator votes for.
#[derive(Clone, Copy, Debug, PartialEq, Eq)]
pub struct Vote {
    /// The block that it votes for.
    pub block: UnitNo,
    /// The height of that block.
    pub height: u64,
    /// The weight of the validator.
    pub weight: u64,
}

// The vote of a unit of this weight.
fn vote_of(dag: &Dag, no: UnitNo, weight: u64) -> Vote
    requires graph { IsGraph dag.now }
    requires known { no.0 < count_of dag.now }
    ensures { result ≡ vote_of_lem dag.now no weight }
{
    let block = dag.unit(no).vote();
    let height = dag.unit(block).height().unwrap_or(0);
    Vote {
        block,
        height,
        weight,
    }
}

/// Puts the vote of each Correct slot first in the list, and says how many there are.
pub fn gather(votes: &mut [Vote], dag: &Dag, weights: &[u64], panorama: &Panorama) -> usize
    requires room { IsRoomFor dag.now (length votes.old) }
    requires panorama { IsPanorama dag.now panorama.now }
    requires weights { AreWeights weights.now dag.now }
    ensures count { result ≤ length votes.new }
    ensures votes { take result votes.new ≡ votes_of dag.now weights.now panorama.now dag.now.validators }
    ensures are { AreVotes dag.now (take result votes.new) }
{
    // For the prover: recalls what is said of each graph.
    dag.recall_graph();
    let mut count = 0;
    for (slot, weight) in panorama.views().iter().zip(weights) {
        if let View::Correct(no) = slot.view() {
            votes[count] = vote_of(dag, no, *weight);
            count += 1;
        }
    }
    count
}

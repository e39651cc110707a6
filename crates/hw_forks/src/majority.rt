//! The block that more than half of the weight votes for.

ghost use Rattle.std.specs.Prelude.{◌≡◌, ℕ, ◌+◌, ◌<◌, ◌≤◌, ◌^◌, IsTrue, IfSome, IfNone};
ghost use Rattle.hw_types.specs.{Below.{Among}, Votes.{is_block}};
ghost use Rattle.hw_dag.specs.{Dag.{count_of, node_at}, Admission.{height_above}};
ghost use Rattle.hw_forks.specs.{declared.votes.Vote.{Vote as Voted}, Votes.{AreVotes, height_at}, Walk.{score_in, weight_in, HasMajority, NoChildHasMajority, IsAhead}};

use crate::ancestors::children_height;
use crate::branch::is_towards;
use crate::votes::Vote;
use hw_dag::{Dag, UnitNo};

// The block that leads the others of its height so far.
#[derive(Clone, Copy)]
struct Leader {
    block: UnitNo,
    lead: u64,
}

/// The highest block that has the majority: that votes of more than half of the weight are for or
/// descend from. It is the place where no higher one has it. Where a block has the majority, each of its
/// ancestors has it too, so the height is found by bisection. The search begins at the highest vote and
/// goes down in steps that double, since most votes are near the top. After two of them the lowest height is
/// asked: chains that swing part there, and nothing between is asked then.
pub fn majority_block(votes: &[Vote], dag: &Dag, top: Vote, place: Option<UnitNo>) -> Option<UnitNo>
    requires votes { AreVotes dag.now votes.now }
    requires top { Among top votes.now }
    requires highest { (other : Voted) → Among other votes.now → other.height ≤ top.height }
    requires place { IfSome place (λ no. HasMajority dag.now votes.now no.0) }
    ensures majority { IfSome result (λ no. HasMajority dag.now votes.now no.0) }
    ensures highest { NoChildHasMajority dag.now votes.now result }
    ensures up { height_above dag.now place ≤ height_above dag.now result }
{
    let weight = weight_of(votes);
    let mut found = place;
    let mut low = children_height(dag, place);
    let mut high = top.height;
    while low <= high {
        let middle = next_height(low, high, top.height - high, found == place);
        match majority_at(votes, dag, top, weight, middle) {
            Some(block) => {
                found = Some(block);
                low = middle + 1;
            }
            None if middle == 0 => break,
            None => high = middle - 1,
        }
    }
    found
}

// How many heights are passed over once two steps from the top have failed.
const TWO_STEPS: u64 = 3;

// The height that is asked next, where `passed` heights below the top are passed over. `is_first` says that nothing
// was found yet.
fn next_height(low: u64, high: u64, passed: u64, is_first: bool) -> u64
    requires { low ≤ high }
    ensures low { low ≤ result }
    ensures high { result ≤ high }
{
    if is_first && passed == TWO_STEPS {
        low
    } else {
        high - ((high - low) / 2).min(passed)
    }
}

// The weight of the votes.
fn weight_of(votes: &[Vote]) -> u64
    requires bounded { weight_in votes.now < 2 ^ 62 }
    ensures { result ≡ weight_in votes.now }
{
    let mut weight = 0;
    for vote in votes {
        weight += vote.weight;
    }
    weight
}

// The block of this height that has the majority, where one has it.
fn majority_at(votes: &[Vote], dag: &Dag, top: Vote, weight: u64, height: u64) -> Option<UnitNo>
    requires votes { AreVotes dag.now votes.now }
    requires top { Among top votes.now }
    requires weight { weight ≡ weight_in votes.now }
    requires within { height ≤ top.height }
    ensures majority { IfSome result (λ no. HasMajority dag.now votes.now no.0) }
    ensures height { IfSome result (λ no. height_at dag.now no.0 ≡ height) }
    ensures none { IfNone result ((c : ℕ) → HasMajority dag.now votes.now c → height_at dag.now c < height) }
{
    let block = leading_at(votes, dag, top, height);
    if weight < 2 * score_of(votes, dag, block) {
        Some(block)
    } else {
        None
    }
}

// The one block of this height that may have the majority. The votes are set against each other: a vote
// for another block takes its weight from the lead of the block that leads, or takes the lead over. What
// more than half of the weight is for leads in the end.
fn leading_at(votes: &[Vote], dag: &Dag, top: Vote, height: u64) -> UnitNo
    requires votes { AreVotes dag.now votes.now }
    requires top { Among top votes.now }
    requires within { height ≤ top.height }
    ensures known { result.0 < count_of dag.now }
    ensures block { IsTrue (is_block (node_at dag.now result.0)) }
    ensures height { height_at dag.now result.0 ≡ height }
    ensures leads { (c : ℕ) → HasMajority dag.now votes.now c → height_at dag.now c ≡ height → c ≡ result.0 }
{
    let mut leader = Leader {
        block: dag.ancestor(top.block, height),
        lead: 0,
    };
    for vote in votes {
        if height <= vote.height {
            leader = ahead(leader, dag.ancestor(vote.block, height), vote.weight);
        }
    }
    leader.block
}

// The block that leads when a vote for this one is counted too.
fn ahead(leader: Leader, block: UnitNo, weight: u64) -> Leader
    requires bounded { leader.lead + weight < 2 ^ 64 }
    ensures { IsAhead leader block weight result }
{
    if block == leader.block {
        Leader {
            block,
            lead: leader.lead + weight,
        }
    } else if leader.lead < weight {
        Leader {
            block,
            lead: weight - leader.lead,
        }
    } else {
        Leader {
            block: leader.block,
            lead: leader.lead - weight,
        }
    }
}

// The weight of the votes for the block or descendants of it.
fn score_of(votes: &[Vote], dag: &Dag, block: UnitNo) -> u64
    requires votes { AreVotes dag.now votes.now }
    requires known { block.0 < count_of dag.now }
    ensures { result ≡ score_in dag.now votes.now block.0 }
{
    let mut score = 0;
    for vote in votes {
        if is_towards(dag, vote, block) {
            score += vote.weight;
        }
    }
    score
}

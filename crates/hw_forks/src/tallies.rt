//! The best child of a place, by tallies.

ghost use Rattle.std.specs.{Prelude.{◌≡◌, ℕ, ◌+◌, ◌<◌, ◌≤◌, ◌^◌, ◌==◌, length, take, IfSome, IfNone, if◌then◌else◌}, List.Sorted.{IsNonDecreasingBy}};
ghost use Rattle.hw_types.specs.Graph.{digest_lt};
ghost use Rattle.hw_dag.specs.{Dag.{unit_at, count_of}, Admission.{IsGraph, height_above}, Lanes.{IsAncestor}};
ghost use Rattle.hw_forks.specs.declared.tallies.Share.{Share as Given};
ghost use Rattle.hw_forks.specs.Votes.{AreVotes, IsVote};
ghost use Rattle.hw_forks.specs.Walk.{IsBest, HasNoSupport, IsChild, tally_in, AreShares, HoldsShares, IsHeavier, IsHeaviest};

use crate::votes::Vote;
use hw_dag::{Dag, UnitNo};

/// What a vote gives to a child. A tally is the same for all votes: a child, and what they give to it.
#[derive(Clone, Copy, Debug, PartialEq, Eq)]
pub struct Share {
    /// The child.
    pub child: UnitNo,
    /// The weight that is given to it.
    pub weight: u64,
}

/// What stands where no share was put.
pub const NO_SHARE: Share = Share {
    child: UnitNo(0),
    weight: 0,
};

/// The child of the greatest score, where some child is voted for. `height` is that of the children.
/// `shares` is scratch.
pub fn best_child(
    votes: &[Vote],
    shares: &mut [Share],
    dag: &Dag,
    place: Option<UnitNo>,
    height: u64,
) -> Option<UnitNo>
    requires room { length votes.now ≤ length shares.old }
    requires votes { AreVotes dag.now votes.now }
    requires height { height ≡ height_above dag.now place }
    ensures best { IfSome result (λ no. IsBest dag.now votes.now place no.0) }
    ensures none { IfNone result (HasNoSupport dag.now votes.now place) }
{
    let count = share_out(votes, shares, dag, place, height);
    let shares = &mut shares[..count];
    shares.sort_unstable_by_key(|share| share.child.0);
    heaviest(shares, dag)
}

// Puts the share of each vote that has a child of the place on its way first in the list, and says how
// many there are.
fn share_out(
    votes: &[Vote],
    shares: &mut [Share],
    dag: &Dag,
    place: Option<UnitNo>,
    height: u64,
) -> usize
    requires room { length votes.now ≤ length shares.old }
    requires votes { AreVotes dag.now votes.now }
    requires height { height ≡ height_above dag.now place }
    ensures count { result ≤ length shares.new }
    ensures shares { HoldsShares dag.now votes.now place (take result shares.new) }
{
    let mut count = 0;
    for vote in votes {
        if let Some(child) = child_towards(dag, vote, place, height) {
            shares[count] = Share {
                child,
                weight: vote.weight,
            };
            count += 1;
        }
    }
    count
}

// The child of the place that the vote is for or descends from.
fn child_towards(dag: &Dag, vote: &Vote, place: Option<UnitNo>, height: u64) -> Option<UnitNo>
    requires graph { IsGraph dag.now }
    requires vote { IsVote dag.now vote.now }
    requires height { height ≡ height_above dag.now place }
    ensures child { IfSome result (λ no. IsChild dag.now place no.0 × IsAncestor dag.now no.0 vote.now.block.0) }
    ensures none { IfNone result ((c : ℕ) → IsChild dag.now place c → IsAncestor dag.now c vote.now.block.0 → ⊥) }
{
    if vote.height < height {
        return None;
    }
    let child = dag.ancestor(vote.block, height);
    if dag.unit(child).parent() == place {
        Some(child)
    } else {
        None
    }
}

// The child of the greatest tally, of those of one tally the one of the greatest name. The shares of one
// child stand together, so each tally is added up in turn. It counts while it grows: it is greatest when
// it is whole.
fn heaviest(shares: &[Share], dag: &Dag) -> Option<UnitNo>
    requires shares { AreShares dag.now shares.now }
    requires sorted { IsNonDecreasingBy (λ (share : Given). share.child.0) shares.now }
    ensures best { IfSome result (λ no. IsHeaviest dag.now shares.now no.0) }
    ensures none { IfNone result ((c : ℕ) → tally_in shares.now c ≡ 0) }
{
    let mut tally = NO_SHARE;
    let mut best = None;
    for share in shares {
        tally = add(tally, *share);
        best = Some(heavier(dag, best, tally));
    }
    best.map(|best| best.child)
}

// The tally of the share's child, where `tally` is that of the share before it.
fn add(tally: Share, share: Share) -> Share
    requires bounded { tally.weight + share.weight < 2 ^ 64 }
    ensures child { result.child ≡ share.child }
    ensures weight { result.weight ≡ (if tally.child.0 == share.child.0 then tally.weight + share.weight else share.weight) }
{
    if tally.child == share.child {
        Share {
            child: share.child,
            weight: tally.weight + share.weight,
        }
    } else {
        share
    }
}

// The one of two tallies that is next: the greater one, or of one weight that of the greater name.
fn heavier(dag: &Dag, best: Option<Share>, tally: Share) -> Share
    requires graph { IsGraph dag.now }
    requires best_known { IfSome best (λ held. held.child.0 < count_of dag.now) }
    requires tally_known { tally.child.0 < count_of dag.now }
    ensures { IsHeavier dag.now best tally result }
{
    let Some(best) = best else {
        return tally;
    };
    if best.weight < tally.weight
        || best.weight == tally.weight && comes_before(dag, best.child, tally.child)
    {
        tally
    } else {
        best
    }
}

// Whether the name of the one is less than that of the other.
fn comes_before(dag: &Dag, left: UnitNo, right: UnitNo) -> bool
    requires left_known { left.0 < count_of dag.now }
    requires right_known { right.0 < count_of dag.now }
    ensures { result ≡ digest_lt (unit_at dag.now left.0).digest (unit_at dag.now right.0).digest }
{
    dag.unit(left)
        .digest()
        .comes_before(dag.unit(right).digest())
}

//! The fork choice.

ghost use Rattle.std.specs.{Prelude.{◌≡◌, ◌+◌, ◌<◌, ◌≤◌, length, take, None, OnOk}, Option.{option_map}};
ghost use Rattle.hw_types.specs.Votes.{fork_of};
ghost use Rattle.hw_dag.specs.{declared.numbers.UnitNo.{UnitNo as Number}, Dag.{graph, observations, node_at, IsPanorama}, Admission.{IsFork}, Lanes.{AreWeights}};
ghost use Rattle.hw_forks.specs.{Votes.{AreVotes, IsRoomFor}, Walk.{WalksTo}};

use crate::ancestors::children_height;
use crate::branch::keep_towards;
use crate::start::start;
use crate::tallies::{NO_SHARE, Share, best_child};
use crate::votes::{Vote, gather};
use hw_dag::{Dag, Panorama, UnitNo};
use hw_types::{OutOfMemory, WeightList};
use std::alloc::Global;
use std::marker::Model;

/// Scratch for fork choices. Contracts see it as its room: it serves each graph that has no more units than
/// that, and each that has no more validators.
#[derive(Drop)]
pub struct Forks {
    votes: Vec<Vote>,
    shares: Vec<Share>,
}

impl Model for Forks {
    ghost use Rattle.std.specs.Prelude.{ℕ, ◌≤◌, vec_len};

    ghost Value = { ℕ };

    ghost view = { λ f. vec_len f.votes };

    ghost invariant = { λ f. vec_len f.votes ≤ vec_len f.shares };
}

impl Forks {
    /// Room for no unit. It takes its memory from `alloc` as it grows.
    pub fn new(alloc: Global) -> Forks
        ensures { result ≡ 0 }
    {
        Forks {
            votes: Vec::new(alloc),
            shares: Vec::new(alloc),
        }
    }

    /// Makes room for a graph of `count` units, however many validators it has, and for one of `count`
    /// validators, however many units it has. The room never shrinks.
    pub fn reserve(&mut self, count: u32) -> Result<(), OutOfMemory>
        ensures room { OnOk result (count ≤ self.new) }
        ensures kept { self.old ≤ self.new }
    {
        let count = count as usize;
        if self.votes.len() < count {
            if self.shares.len() < count {
                self.shares.resize(count, NO_SHARE)?;
            }
            self.votes.resize(count, NO_VOTE)?;
        }
        Ok(())
    }

    /// The fork choice of the panorama. There is none exactly where no slot is Correct. The room needed is
    /// that for as many units as the graph has, or for as many validators.
    pub fn fork_choice(
        &mut self,
        dag: &Dag,
        weights: &WeightList,
        panorama: &Panorama,
    ) -> Option<UnitNo>
        requires room { IsRoomFor dag.now self.old }
        requires panorama { IsPanorama dag.now panorama.now }
        requires weights { AreWeights weights.now dag.now }
        ensures fork { option_map (λ (no : Number). node_at dag.now no.0) result ≡ fork_of weights.now (graph dag.now) (observations dag.now panorama.now) }
        ensures is_fork { IsFork dag.now (observations dag.now panorama.now) result }
        ensures room { self.new ≡ self.old }
    {
        let votes = self.votes.as_mut_slice();
        let count = gather(votes, dag, weights.as_slice(), panorama);
        if count == 0 {
            return None;
        }
        walk(votes, count, self.shares.as_mut_slice(), dag)
    }
}

// What stands in the scratch where no vote was put.
const NO_VOTE: Vote = Vote {
    block: UnitNo(0),
    height: 0,
    weight: 0,
};

// The end of the walk by the first votes, as many as `count` says. Each round leaves half of the weight
// of those that are kept at most: no child of the place has the majority. So votes that are each left
// behind at a height of its own cost no round each.
fn walk(votes: &mut [Vote], count: usize, shares: &mut [Share], dag: &Dag) -> Option<UnitNo>
    requires room { length votes.old ≤ length shares.old }
    requires some { 0 < count }
    requires within { count ≤ length votes.old }
    requires votes { AreVotes dag.now (take count votes.old) }
    ensures { WalksTo dag.now (take count votes.old) result None }
{
    let mut kept = count;
    let mut place = start(&votes[..kept], dag, None);
    while let Some(child) = best_child(
        &votes[..kept],
        shares,
        dag,
        place,
        children_height(dag, place),
    ) {
        kept = keep_towards(&mut votes[..kept], dag, child);
        place = start(&votes[..kept], dag, Some(child));
    }
    place
}

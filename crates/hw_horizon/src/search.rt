//! The search up the blocks on the way to the fork choice.

ghost use Rattle.std.specs.Prelude.{◌≡◌, ℕ, ◌+◌, ◌<◌, ◌≤◌, ◌↔◌, length, true, Some, IsTrue, IfSome, IfNone};
ghost use Rattle.hw_types.specs.Graph.{is_consistent};
ghost use Rattle.hw_dag.specs.{Dag.{graph, observations, count_of, unit_at, IsPanorama}, Admission.{IsGraph}, Lanes.{AreWeights}};
ghost use Rattle.hw_horizon.specs.Asked.{IsAsked};
ghost use Rattle.hw_horizon.specs.Kept.{AreKept};
ghost use Rattle.hw_horizon.specs.Bounds.{AreBounds, AreTips};
ghost use Rattle.hw_horizon.specs.Detected.{IsSearched, HasSummitAt, IsLeastLevel, HasNoLevel, IsFoundAt, StandsNot, HasSearched};
ghost use Rattle.hw_horizon.specs.Searcher.{IsSearcher, IsTrueIn};

use crate::found::Found;
use crate::list::FoundList;
use crate::{Bounds, Horizons, Question};
use hw_dag::{Dag, Panorama, UnitNo};
use hw_forks::ancestor_at;
use hw_types::Config;

/// A level that has a summit, with its quorum.
#[derive(Clone, Copy)]
pub(crate) struct Standing {
    pub(crate) level: u32,
    pub(crate) quorum: u64,
}

/// What searches for summits: the configuration, the quorum of each level from 1 on, and what is kept from one
/// search to the next.
#[derive(Drop)]
pub(crate) struct Searcher {
    pub(crate) config: Config,
    pub(crate) quorums: Vec<u64>,
    pub(crate) horizons: Horizons,
    pub(crate) bounds: Bounds,
    ghost fits: { IsSearcher config quorums.items horizons bounds },
}

impl Searcher {
    /// Goes up the way to the fork choice from the first height that nothing was found of, puts last each
    /// block that stands, up to the first that doesn't, and says how many they are.
    pub(crate) fn search(
        &mut self,
        found: &mut FoundList,
        dag: &Dag,
        panorama: &Panorama,
        fork: Option<UnitNo>,
        at: u64,
    ) -> u32
        requires searched { IsSearched self.old.config dag.now panorama.now fork }
        requires consistent { is_consistent (graph dag.now) (observations dag.now panorama.now) ≡ true }
        requires kept { IsTrueIn dag.now self.old.config self.old.horizons self.old.bounds }
        requires room { count_of dag.now ≤ length found.old.blocks + found.old.spare }
        ensures found { HasSearched self.old.config dag.now panorama.now fork at found.old.blocks found.new.blocks }
        ensures count { length found.new.blocks ≡ length found.old.blocks + result }
        ensures room { length found.new.blocks + found.new.spare ≡ length found.old.blocks + found.old.spare }
        ensures kept { IsTrueIn dag.now self.new.config self.new.horizons self.new.bounds }
        ensures config { self.new.config ≡ self.old.config }
    {
        let Some(fork) = fork else { return 0 };
        let before = found.count();
        self.climb(found, dag, panorama, fork, at);
        found.count() - before
    }

    /// The same where there is a fork choice.
    fn climb(
        &mut self,
        found: &mut FoundList,
        dag: &Dag,
        panorama: &Panorama,
        fork: UnitNo,
        at: u64,
    )
        requires searched { IsSearched self.old.config dag.now panorama.now (Some fork) }
        requires consistent { is_consistent (graph dag.now) (observations dag.now panorama.now) ≡ true }
        requires kept { IsTrueIn dag.now self.old.config self.old.horizons self.old.bounds }
        requires room { count_of dag.now ≤ length found.old.blocks + found.old.spare }
        ensures found { HasSearched self.old.config dag.now panorama.now (Some fork) at found.old.blocks found.new.blocks }
        ensures room { length found.new.blocks + found.new.spare ≡ length found.old.blocks + found.old.spare }
        ensures more { length found.old.blocks ≤ length found.new.blocks }
        ensures kept { IsTrueIn dag.now self.new.config self.new.horizons self.new.bounds }
        ensures config { self.new.config ≡ self.old.config }
    {
        let top = dag.unit(fork).height().unwrap_or(0);
        while u64::from(found.count()) <= top {
            let height = u64::from(found.count());
            match self.find_at(dag, panorama, fork, height, at) {
                Some(block) => found.push(block),
                None => return,
            }
        }
    }

    /// The block of that height on the way to the fork choice, where it stands.
    fn find_at(
        &mut self,
        dag: &Dag,
        panorama: &Panorama,
        fork: UnitNo,
        height: u64,
        at: u64,
    ) -> Option<Found>
        requires searched { IsSearched self.old.config dag.now panorama.now (Some fork) }
        requires consistent { is_consistent (graph dag.now) (observations dag.now panorama.now) ≡ true }
        requires kept { IsTrueIn dag.now self.old.config self.old.horizons self.old.bounds }
        requires within { (tall : ℕ) → (unit_at dag.now fork.0).height ≡ Some tall → height ≤ tall }
        ensures found { IfSome result (IsFoundAt self.old.config dag.now panorama.now fork at height) }
        ensures none { IfNone result (StandsNot self.old.config dag.now panorama.now fork height) }
        ensures kept { IsTrueIn dag.now self.new.config self.new.horizons self.new.bounds }
        ensures config { self.new.config ≡ self.old.config }
    {
        let block = ancestor_at(dag, fork, height);
        let standing = self.least_level(dag, panorama, block)?;
        Some(Found {
            block,
            height,
            level: standing.level,
            quorum: standing.quorum,
            at,
        })
    }

    /// The least level at which the block stands.
    fn least_level(&mut self, dag: &Dag, panorama: &Panorama, block: UnitNo) -> Option<Standing>
        requires graph { IsGraph dag.now }
        requires weights { AreWeights self.old.config.weights dag.now }
        requires panorama { IsPanorama dag.now panorama.now }
        requires consistent { is_consistent (graph dag.now) (observations dag.now panorama.now) ≡ true }
        requires kept { IsTrueIn dag.now self.old.config self.old.horizons self.old.bounds }
        requires known { block.0 < count_of dag.now }
        ensures level { IfSome result (λ standing. IsLeastLevel self.old.config dag.now panorama.now block.0 standing.level standing.quorum) }
        ensures none { IfNone result (HasNoLevel self.old.config dag.now panorama.now block.0) }
        ensures kept { IsTrueIn dag.now self.new.config self.new.horizons self.new.bounds }
        ensures config { self.new.config ≡ self.old.config }
    {
        // The quorums fall as the levels rise.
        let least = self.quorums[self.quorums.len() - 1];
        self.bounds
            .follow(dag, &self.config.weights, panorama, block, least);
        for below in 0..u32::from(self.config.levels) {
            let level = below + 1;
            let quorum = self.quorums[below as usize];
            if self.has_summit(dag, panorama, block, level, quorum) {
                return Some(Standing { level, quorum });
            }
        }
        None
    }

    /// Whether the block has a summit of this level and quorum. Most questions are answered by what is kept.
    fn has_summit(
        &mut self,
        dag: &Dag,
        panorama: &Panorama,
        block: UnitNo,
        level: u32,
        quorum: u64,
    ) -> bool
        requires question { IsAsked self.old.config.weights dag.now panorama.now block.0 }
        requires consistent { is_consistent (graph dag.now) (observations dag.now panorama.now) ≡ true }
        requires level { level ≤ self.old.config.levels }
        requires kept { IsTrueIn dag.now self.old.config self.old.horizons self.old.bounds }
        requires tips { AreTips panorama.now self.old.bounds }
        requires asked { self.old.bounds.block ≡ Some block }
        ensures exact { IsTrue result ↔ HasSummitAt self.old.config dag.now panorama.now block.0 level quorum }
        ensures walks { AreKept dag.now self.new.horizons.walks }
        ensures config { self.new.config ≡ self.old.config }
        ensures quorums { self.new.quorums.items ≡ self.old.quorums.items }
        ensures bounds { self.new.bounds ≡ self.old.bounds }
    {
        if self
            .bounds
            .rules_out(dag, &self.config.weights, level, quorum)
        {
            return false;
        }
        let question = Question {
            dag,
            weights: self.config.weights.as_slice(),
            panorama,
            block,
            quorum,
        };
        self.horizons.has_summit(&question, &self.bounds, level)
    }
}

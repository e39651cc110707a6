//! The search.

ghost use Rattle.std.specs.{Prelude.{◌≡◌, ℕ, ◌<◌, ◌≤◌, ◌↔◌, length, Some, None, false, is_some, IsTrue, IfOk}, List.{list_any}};
ghost use Rattle.hw_types.specs.{Graph.{is_consistent}, Summit.{HasSummit, IsGreatest}};
ghost use Rattle.hw_dag.specs.{Dag.{UnitGraph, graph, observations, count_of, node_at, IsPanorama}, Lanes.{AreWeights}};
ghost use Rattle.hw_horizon.specs.Kept.{AreKept};
ghost use Rattle.hw_horizon.specs.Bounds.{AreBounds, AreTips, AreWide, AreExact};
ghost use Rattle.hw_horizon.specs.Tables.{pruned_table};
ghost use Rattle.hw_horizon.specs.Starts.{HasSlots};
ghost use Rattle.hw_horizon.specs.Search.{table_of, start_of, committees_of, AreTables, IsScratch};

use crate::bounds::Bounds;
use crate::counts::Counts;
use crate::firsts::Firsts;
use crate::kept::Walks;
use crate::question::Question;
use crate::rounds::{prune, put_members};
use crate::table::Table;
use crate::votes::put_vote_starts;
use hw_dag::{Dag, Panorama, UnitNo};
use hw_types::{OutOfMemory, WeightList};
use std::alloc::Global;
use std::marker::Model;

/// Scratch for searches of summits, for so many validators and levels, and what the last search found.
#[derive(Drop)]
pub struct Horizons {
    validators: u32,
    levels: u32,
    found: Option<u32>,
    tables: Vec<Table>,
    walks: Walks,
    scratch: Scratch,
}

// What one search works on: the table of the level below, of the level that is pruned, the next one of
// it, the first units of those present, and what the latest unit of each sees of them.
#[derive(Drop)]
struct Scratch {
    lower: Table,
    present: Table,
    next: Table,
    firsts: Firsts,
    counts: Counts,
}

impl Scratch {
    /// For so many validators.
    fn new(alloc: Global, validators: u32) -> Result<Scratch, OutOfMemory>
        ensures { IfOk result (λ scratch. IsScratch validators scratch) }
    {
        let lower = Table::new(alloc, validators)?;
        let present = Table::new(alloc, validators)?;
        let next = Table::new(alloc, validators)?;
        let firsts = Firsts::new(alloc, validators)?;
        let counts = Counts::new(alloc, validators)?;
        Ok(Scratch {
            lower,
            present,
            next,
            firsts,
            counts,
        })
    }
}

impl Model for Horizons {
    ghost use Rattle.hw_horizon.specs.Search.{Search};

    ghost Value = { Search };

    ghost view = { λ h. record {
      validators = h.validators;
      levels = h.levels;
      found = h.found;
      tables = h.tables.items;
      walks = h.walks;
    } };

    ghost use Rattle.std.specs.Prelude.{◌≡◌, length};
    ghost use Rattle.hw_horizon.specs.Search.{AreTables, IsScratch, IsWithin};

    ghost invariant = { λ h. AreTables h.validators h.levels h.tables.items × IsScratch h.validators h.scratch × IsWithin h.levels h.found × (length h.walks.walks ≡ h.validators) };
}

impl Horizons {
    /// Scratch for so many validators and levels. All its memory is taken here.
    pub fn new(alloc: Global, validators: u32, levels: u32) -> Result<Horizons, OutOfMemory>
        ensures validators { IfOk result (λ horizons. horizons.validators ≡ validators) }
        ensures levels { IfOk result (λ horizons. horizons.levels ≡ levels) }
        ensures found { IfOk result (λ horizons. horizons.found ≡ None) }
        ensures walks { IfOk result (λ horizons. (dag : UnitGraph) → AreKept dag horizons.walks) }
    {
        let tables = tables_of(alloc, validators, levels)?;
        let scratch = Scratch::new(alloc, validators)?;
        let walks = Walks::new(alloc, validators)?;
        Ok(Horizons {
            validators,
            levels,
            found: None,
            tables,
            walks,
            scratch,
        })
    }

    /// Whether a summit for the block exists, of this level and quorum, in this panorama. The
    /// committees and starts of the greatest are then kept.
    pub fn greatest(
        &mut self,
        dag: &Dag,
        weights: &WeightList,
        panorama: &Panorama,
        block: UnitNo,
        level: u32,
        quorum: u64,
    ) -> bool
        requires panorama { IsPanorama dag.now panorama.now }
        requires consistent { IsTrue (is_consistent (graph dag.now) (observations dag.now panorama.now)) }
        requires weights { AreWeights weights.now dag.now }
        requires known { block.0 < count_of dag.now }
        requires level { level ≤ self.old.levels }
        requires validators { self.old.validators ≡ dag.now.validators }
        requires walks { AreKept dag.now self.old.walks }
        ensures exact { IsTrue result ↔ HasSummit weights.now (graph dag.now) (observations dag.now panorama.now) (node_at dag.now block.0) level quorum }
        ensures kept { IsTrue result → IsGreatest weights.now (graph dag.now) (observations dag.now panorama.now) (node_at dag.now block.0) level quorum (committees_of self.new) }
        ensures found { IsTrue result → self.new.found ≡ Some level }
        ensures none { result ≡ false → self.new.found ≡ None }
        ensures walks { AreKept dag.now self.new.walks }
        ensures validators { self.new.validators ≡ self.old.validators }
        ensures levels { self.new.levels ≡ self.old.levels }
    {
        // For the prover: recalls what is said of each graph.
        dag.recall_graph();
        let question = Question {
            dag,
            weights: weights.as_slice(),
            panorama,
            block,
            quorum,
        };
        put_tables(
            &question,
            self.tables.as_mut_slice(),
            &mut self.scratch,
            &mut self.walks,
            level,
        );
        let found = self.scratch.lower.has_member();
        self.found = if found { Some(level) } else { None };
        found
    }

    /// Whether a summit exists, of this level, for the block, panorama and quorum of the question. Nothing of
    /// it is kept, so this costs less than finding the greatest. The bounds are those of this panorama, and
    /// spare looks at units.
    pub fn has_summit(&mut self, question: &Question<'_>, bounds: &Bounds, level: u32) -> bool
        requires consistent { IsTrue (is_consistent (graph question.now.dag.now) (observations question.now.dag.now question.now.panorama.now)) }
        requires level { level ≤ self.old.levels }
        requires validators { self.old.validators ≡ question.now.dag.now.validators }
        requires walks { AreKept question.now.dag.now self.old.walks }
        requires wide { AreWide question.now.dag.now.validators bounds.now }
        requires bounds { AreBounds question.now.weights.now question.now.dag.now bounds.now }
        requires tips { AreTips question.now.panorama.now bounds.now }
        requires asked { bounds.now.block ≡ Some question.now.block }
        ensures exact { IsTrue result ↔ HasSummit question.now.weights.now (graph question.now.dag.now) (observations question.now.dag.now question.now.panorama.now) (node_at question.now.dag.now question.now.block.0) level question.now.quorum }
        ensures found { self.new.found ≡ None }
        ensures walks { AreKept question.now.dag.now self.new.walks }
        ensures validators { self.new.validators ≡ self.old.validators }
        ensures levels { self.new.levels ≡ self.old.levels }
    {
        self.found = None;
        has_member(question, &mut self.scratch, &mut self.walks, bounds, level)
    }

    /// The start of a validator in the committee of a level, of the summit that the last search found.
    /// None for a validator outside the committee, and where the last search found none.
    pub fn start(&self, level: u32, validator: u32) -> Option<u64>
        ensures { result ≡ start_of self.now level validator }
    {
        match self.found {
            Some(top) if level <= top => self.tables[level as usize].get(validator),
            _ => None,
        }
    }
}

// A table for each level and level 0, with nobody of so many validators in it.
fn tables_of(alloc: Global, validators: u32, levels: u32) -> Result<Vec<Table>, OutOfMemory>
    ensures { IfOk result (λ tables. AreTables validators levels tables.items) }
{
    let count = levels as usize + 1;
    let mut tables = Vec::with_capacity(alloc, count)?;
    for _ in 0..count {
        tables.push(Table::new(alloc, validators)?)?;
    }
    Ok(tables)
}

// Puts the table of each level up to this one.
fn put_tables(
    question: &Question<'_>,
    tables: &mut [Table],
    scratch: &mut Scratch,
    walks: &mut Walks,
    level: u32,
)
    requires consistent { IsTrue (is_consistent (graph question.now.dag.now) (observations question.now.dag.now question.now.panorama.now)) }
    requires tables { (k : ℕ) → k < length tables.old → length (table_of tables.old k) ≡ question.now.dag.now.validators }
    requires levels { level < length tables.old }
    requires scratch { IsScratch question.now.dag.now.validators scratch.old }
    requires walk_count { length walks.old.walks ≡ question.now.dag.now.validators }
    requires walks { AreKept question.now.dag.now walks.old }
    ensures tables { (k : ℕ) → k ≤ level → table_of tables.new k ≡ pruned_table question.now.weights.now (graph question.now.dag.now) (observations question.now.dag.now question.now.panorama.now) (node_at question.now.dag.now question.now.block.0) question.now.quorum k }
    ensures lower { scratch.new.lower ≡ pruned_table question.now.weights.now (graph question.now.dag.now) (observations question.now.dag.now question.now.panorama.now) (node_at question.now.dag.now question.now.block.0) question.now.quorum level }
    ensures lengths { (k : ℕ) → k < length tables.new → length (table_of tables.new k) ≡ question.now.dag.now.validators }
    ensures scratch { IsScratch question.now.dag.now.validators scratch.new }
    ensures walk_count { length walks.new.walks ≡ question.now.dag.now.validators }
    ensures walks { AreKept question.now.dag.now walks.new }
{
    put_vote_starts(
        &mut scratch.lower,
        walks,
        question.dag,
        question.panorama,
        question.block,
    );
    tables[0].copy_from(&scratch.lower);
    for below in 0..level as usize {
        let Scratch {
            lower,
            present,
            next,
            firsts,
            counts,
        } = scratch;
        prune(question, lower, present, next, firsts, counts, None);
        lower.copy_from(present);
        tables[below + 1].copy_from(lower);
    }
}

// Whether somebody is in the committee of this level. Starts are found only of the levels below it.
fn has_member(
    question: &Question<'_>,
    scratch: &mut Scratch,
    walks: &mut Walks,
    bounds: &Bounds,
    level: u32,
) -> bool
    requires consistent { IsTrue (is_consistent (graph question.now.dag.now) (observations question.now.dag.now question.now.panorama.now)) }
    requires scratch { IsScratch question.now.dag.now.validators scratch.old }
    requires walk_count { length walks.old.walks ≡ question.now.dag.now.validators }
    requires walks { AreKept question.now.dag.now walks.old }
    requires exact { AreExact question.now.weights.now question.now.dag.now question.now.panorama.now bounds.now }
    ensures member { result ≡ list_any is_some (pruned_table question.now.weights.now (graph question.now.dag.now) (observations question.now.dag.now question.now.panorama.now) (node_at question.now.dag.now question.now.block.0) question.now.quorum level) }
    ensures scratch { IsScratch question.now.dag.now.validators scratch.new }
    ensures walk_count { length walks.new.walks ≡ question.now.dag.now.validators }
    ensures walks { AreKept question.now.dag.now walks.new }
{
    if level == 0 {
        put_lower(question, scratch, walks, bounds, level);
        return scratch.lower.has_member();
    }
    put_lower(question, scratch, walks, bounds, level - 1);
    let Scratch {
        lower,
        present,
        firsts,
        counts,
        ..
    } = scratch;
    let bound = bounds.level(level - 1);
    put_members(question, lower, present, firsts, counts, bound);
    present.has_member()
}

// Leaves in `lower` the table of this level.
fn put_lower(
    question: &Question<'_>,
    scratch: &mut Scratch,
    walks: &mut Walks,
    bounds: &Bounds,
    level: u32,
)
    requires consistent { IsTrue (is_consistent (graph question.now.dag.now) (observations question.now.dag.now question.now.panorama.now)) }
    requires scratch { IsScratch question.now.dag.now.validators scratch.old }
    requires walk_count { length walks.old.walks ≡ question.now.dag.now.validators }
    requires walks { AreKept question.now.dag.now walks.old }
    requires exact { AreExact question.now.weights.now question.now.dag.now question.now.panorama.now bounds.now }
    ensures lower { scratch.new.lower ≡ pruned_table question.now.weights.now (graph question.now.dag.now) (observations question.now.dag.now question.now.panorama.now) (node_at question.now.dag.now question.now.block.0) question.now.quorum level }
    ensures slots { HasSlots question.now.panorama.now scratch.new.lower }
    ensures scratch { IsScratch question.now.dag.now.validators scratch.new }
    ensures walk_count { length walks.new.walks ≡ question.now.dag.now.validators }
    ensures walks { AreKept question.now.dag.now walks.new }
{
    put_vote_starts(
        &mut scratch.lower,
        walks,
        question.dag,
        question.panorama,
        question.block,
    );
    for below in 0..level {
        let Scratch {
            lower,
            present,
            next,
            firsts,
            counts,
        } = scratch;
        let bound = bounds.level(below);
        prune(question, lower, present, next, firsts, counts, bound);
        lower.copy_from(present);
    }
}

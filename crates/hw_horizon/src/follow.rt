//! How the bound of a level follows the panorama.

ghost use Rattle.std.specs.Prelude.{◌≡◌, ℕ, ◌<◌, ◌≤◌, ◌+◌, ◌⊎◌, ◌^◌, ◌-◌, length, false, Some, None, slice_index_or, IsTrue};
ghost use Rattle.hw_dag.specs.{Dag.{IsPanorama, count_of, view_at, unit_at, seq_of}, declared.numbers.UnitNo.{UnitNo as Number}};
ghost use Rattle.hw_horizon.specs.{Firsts.{weight_after}, Bounds.{first_of, support_of, tip_in, counts_over, IsFirstOf, AreLowered, AreSameBelow, IsOutside, IsGap, IsBack}};

use crate::bounds::Bound;
use crate::edges::{Edges, is_loose, put_edge, shift_edges};
use crate::firsts::{Firsts, NO_UNIT};
use crate::question::Question;
use crate::quorums::{has_quorum, weight_after};
use crate::shift::shift_support;
use crate::votes::votes_for;
use hw_dag::{Dag, Panorama, UnitNo, View};

/// The validators from one on, up to another one.
#[derive(Clone, Copy)]
pub(crate) struct Span {
    pub(crate) from: u32,
    pub(crate) to: u32,
}

/// How the first units of a level changed: none came down below the one number, none that was or is less than
/// the other changed at all, and so many did.
#[derive(Clone, Copy)]
pub(crate) struct Moves {
    pub(crate) down: u32,
    pub(crate) any: u32,
    pub(crate) count: u32,
}

/// What a level stands on: the level below it, whose first units changed so. Level 0 stands on votes. Nothing is
/// known of the level's own first units where that is new.
#[derive(Clone, Copy)]
pub(crate) struct Below<'a> {
    pub(crate) bound: &'a Bound,
    pub(crate) level: usize,
    pub(crate) is_votes: bool,
    pub(crate) is_new: bool,
    pub(crate) moves: Moves,
}

/// What is known of a lane: its first unit that may count was `first` when its latest unit was `tip`, and no
/// first unit of the level below has come down below `low` since.
#[derive(Clone, Copy)]
pub(crate) struct Known {
    pub(crate) tip: Option<UnitNo>,
    pub(crate) first: u32,
    pub(crate) low: u32,
}

/// The span from the first validator to the last whose latest unit isn't the one that is kept.
pub(crate) fn changed_span(dag: &Dag, panorama: &Panorama, tips: &[Option<UnitNo>]) -> Span
    requires panorama { IsPanorama dag.now panorama.now }
    requires tips { length tips.now ≡ dag.now.validators }
    ensures same { (v : ℕ) → v < dag.now.validators → IsOutside result v → slice_index_or tips.now v None ≡ tip_in (view_at panorama.now v) }
    ensures known { result.to ≤ dag.now.validators }
{
    let mut span = Span { from: 0, to: 0 };
    for v in 0..dag.validators() {
        if !is_same(tips[v as usize], panorama.get(v)) {
            span = stretched(span, v);
        }
    }
    span
}

// Whether it is the unit of the slot that is kept.
fn is_same(kept: Option<UnitNo>, view: View) -> bool
    ensures { IsTrue result → kept ≡ tip_in view }
{
    match view {
        View::Correct(tip) => kept == Some(tip),
        View::Absent | View::Faulty => kept.is_none(),
    }
}

// The span up to this validator, which comes behind it.
fn stretched(span: Span, validator: u32) -> Span
    requires order { span.from ≤ span.to }
    requires behind { span.to ≤ validator }
    requires fits { validator + 1 < 2 ^ 32 }
    ensures within { result.from ≤ validator }
    ensures to { result.to ≡ validator + 1 }
    ensures outside { (v : ℕ) → v < validator → IsOutside result v → IsOutside span v }
{
    let from = if span.from == span.to {
        validator
    } else {
        span.from
    };
    Span {
        from,
        to: validator + 1,
    }
}

// Whom a pass has to look at: all, once a first unit moved, else those whose latest unit changed.
fn looked_at(dag: &Dag, changed: Span, low: u32) -> Span
    requires known { changed.to ≤ dag.now.validators }
    ensures kept { (v : ℕ) → v < dag.now.validators → IsOutside result v → (low ≡ 2 ^ 32 - 1) × IsOutside changed v }
    ensures known { result.to ≤ dag.now.validators }
{
    if low == NO_UNIT {
        changed
    } else {
        Span {
            from: 0,
            to: dag.validators(),
        }
    }
}

// What is known of no greater first units only. Where it is the number of no unit, all of them are known.
fn lowest(below: &Below<'_>) -> u32
    ensures { result ≡ 2 ^ 32 - 1 → (below.now.is_new ≡ false) × (below.now.moves.down ≡ 2 ^ 32 - 1) }
{
    if below.is_new || below.moves.any != NO_UNIT {
        0
    } else {
        below.moves.down
    }
}

/// Sums are adjusted while no more than this share of the first units moved. A slot that is looked up by itself
/// costs about four in a row.
const SHARE: u32 = 4;

/// Whether so few first units moved that sums are adjusted, and not worked out again.
pub(crate) fn is_few(dag: &Dag, moves: Moves) -> bool {
    moves.count <= dag.validators() / SHARE
}

/// No first unit changed.
pub(crate) fn no_moves() -> Moves
    ensures { result ≡ record { down = 2 ^ 32 - 1; any = 2 ^ 32 - 1; count = 0 } }
{
    Moves {
        down: NO_UNIT,
        any: NO_UNIT,
        count: 0,
    }
}

/// Makes the bound of a level that of the panorama, and answers how its first units moved. Outside the span no
/// latest unit changed: there nothing has to be looked at while no first unit moved.
pub(crate) fn follow_level(
    question: &Question<'_>,
    bound: &mut Bound,
    edges: &mut Edges,
    below: &Below<'_>,
    tips: &[Option<UnitNo>],
    changed: Span,
) -> Moves
    requires tips { length tips.now ≡ question.now.dag.now.validators }
    requires changed { (v : ℕ) → v < question.now.dag.now.validators → IsOutside changed v → slice_index_or tips.now v None ≡ tip_in (view_at question.now.panorama.now v) }
    requires span { changed.to ≤ question.now.dag.now.validators }
    requires firsts_length { length bound.old.firsts ≡ question.now.dag.now.validators }
    requires support_length { length bound.old.support ≡ question.now.dag.now.validators }
    requires edges { length edges.old ≡ question.now.dag.now.validators }
    requires lower_firsts { length below.now.bound.now.firsts ≡ question.now.dag.now.validators }
    requires lower_support { length below.now.bound.now.support ≡ question.now.dag.now.validators }
    requires known { (v : ℕ) (tip : Number) → slice_index_or tips.now v None ≡ Some tip → tip.0 < count_of question.now.dag.now }
    requires kept { below.now.is_new ≡ false → (v : ℕ) (tip : Number) → slice_index_or tips.now v None ≡ Some tip → first_of bound.old v ≤ below.now.moves.down → IsFirstOf question.now.dag.now tip.0 (counts_over question.now.weights.now question.now.dag.now question.now.block.0 question.now.quorum below.now.is_votes below.now.bound.now.firsts) (first_of bound.old v) }
    requires seen { (v : ℕ) (tip : Number) → slice_index_or tips.now v None ≡ Some tip → weight_after question.now.weights.now question.now.dag.now bound.old.firsts tip.0 ≡ support_of bound.old v }
    requires supported { below.now.is_votes ≡ false → (v : ℕ) (tip : Number) → view_at question.now.panorama.now v ≡ View.Correct tip → weight_after question.now.weights.now question.now.dag.now below.now.bound.now.firsts tip.0 ≡ support_of below.now.bound.now v }
    ensures firsts { (v : ℕ) (tip : Number) → view_at question.now.panorama.now v ≡ View.Correct tip → IsFirstOf question.now.dag.now tip.0 (counts_over question.now.weights.now question.now.dag.now question.now.block.0 question.now.quorum below.now.is_votes below.now.bound.now.firsts) (first_of bound.new v) }
    ensures support { (v : ℕ) (tip : Number) → view_at question.now.panorama.now v ≡ View.Correct tip → weight_after question.now.weights.now question.now.dag.now bound.new.firsts tip.0 ≡ support_of bound.new v }
    ensures lowered { AreLowered bound.old bound.new result.down }
    ensures firsts_length { length bound.new.firsts ≡ length bound.old.firsts }
    ensures support_length { length bound.new.support ≡ length bound.old.support }
    ensures edges { length edges.new ≡ length edges.old }
{
    // For the prover: recalls what is said of first units.
    bound.firsts().recall_numbers();
    shift_edges(question, edges, bound, below);
    edges.put_before(bound.firsts());
    let span = looked_at(question.dag, changed, lowest(below));
    let moves = put_firsts(question, bound, edges, below, tips, span);
    let low = shift_few(question, bound, edges.first_units(), tips, moves);
    let span = looked_at(question.dag, changed, low);
    put_support(question, bound, tips, span, low);
    moves
}

// Puts the first units of the span, and answers how they changed.
fn put_firsts(
    question: &Question<'_>,
    bound: &mut Bound,
    edges: &mut Edges,
    below: &Below<'_>,
    tips: &[Option<UnitNo>],
    span: Span,
) -> Moves
    requires tips { length tips.now ≡ question.now.dag.now.validators }
    requires firsts_length { length bound.old.firsts ≡ question.now.dag.now.validators }
    requires lower_firsts { length below.now.bound.now.firsts ≡ question.now.dag.now.validators }
    requires lower_support { length below.now.bound.now.support ≡ question.now.dag.now.validators }
    requires span { span.to ≤ question.now.dag.now.validators }
    requires outside { (v : ℕ) (tip : Number) → IsOutside span v → view_at question.now.panorama.now v ≡ View.Correct tip → IsFirstOf question.now.dag.now tip.0 (counts_over question.now.weights.now question.now.dag.now question.now.block.0 question.now.quorum below.now.is_votes below.now.bound.now.firsts) (first_of bound.old v) }
    requires known { (v : ℕ) (tip : Number) → slice_index_or tips.now v None ≡ Some tip → tip.0 < count_of question.now.dag.now }
    requires kept { below.now.is_new ≡ false → (v : ℕ) (tip : Number) → slice_index_or tips.now v None ≡ Some tip → first_of bound.old v ≤ below.now.moves.down → IsFirstOf question.now.dag.now tip.0 (counts_over question.now.weights.now question.now.dag.now question.now.block.0 question.now.quorum below.now.is_votes below.now.bound.now.firsts) (first_of bound.old v) }
    requires supported { below.now.is_votes ≡ false → (v : ℕ) (tip : Number) → view_at question.now.panorama.now v ≡ View.Correct tip → weight_after question.now.weights.now question.now.dag.now below.now.bound.now.firsts tip.0 ≡ support_of below.now.bound.now v }
    ensures firsts { (v : ℕ) (tip : Number) → view_at question.now.panorama.now v ≡ View.Correct tip → IsFirstOf question.now.dag.now tip.0 (counts_over question.now.weights.now question.now.dag.now question.now.block.0 question.now.quorum below.now.is_votes below.now.bound.now.firsts) (first_of bound.new v) }
    ensures lowered { AreLowered bound.old bound.new result.down }
    ensures same { AreSameBelow bound.old bound.new result.any }
    ensures firsts_length { length bound.new.firsts ≡ length bound.old.firsts }
    ensures support { bound.new.support ≡ bound.old.support }
    ensures edges { edges.new ≡ edges.old }
{
    let mut moves = no_moves();
    for v in span.from..span.to {
        let before = bound.firsts().get(v);
        let known = Known {
            tip: known_tip(question, edges, below, before, tips[v as usize], v),
            first: before,
            low: below.moves.down,
        };
        let first = next_first(question, below, known, v);
        moves = moved(moves, before, first);
        put_edge(question, edges, below, known, first, v);
        bound.set_first(v, first);
    }
    moves
}

// The latest unit from which a first unit is known. None where that may not count any more.
fn known_tip(
    question: &Question<'_>,
    edges: &Edges,
    below: &Below<'_>,
    first: u32,
    tip: Option<UnitNo>,
    validator: u32,
) -> Option<UnitNo>
    ensures same { (no : Number) → result ≡ Some no → tip ≡ Some no }
    ensures old { (no : Number) → result ≡ Some no → below.now.is_new ≡ false }
{
    if below.is_new || is_loose(question, edges, below, first, validator) {
        None
    } else {
        tip
    }
}

// How they changed with one more, which was `before`.
fn moved(moves: Moves, before: u32, first: u32) -> Moves
    ensures down { result.down ≤ moves.down }
    ensures lowered { first < before → result.down ≤ first }
    ensures any { result.any ≤ moves.any }
    ensures same { (before ≡ first) ⊎ ((result.any ≤ before) × (result.any ≤ first)) }
{
    if first < before {
        Moves {
            down: moves.down.min(first),
            any: moves.any.min(first),
            count: moves.count.saturating_add(1),
        }
    } else if before < first {
        Moves {
            down: moves.down,
            any: moves.any.min(before),
            count: moves.count.saturating_add(1),
        }
    } else {
        moves
    }
}

// The first unit of the validator's lane that may count, where this is known of it.
fn next_first(question: &Question<'_>, below: &Below<'_>, known: Known, validator: u32) -> u32
    requires lower_firsts { length below.now.bound.now.firsts ≡ question.now.dag.now.validators }
    requires lower_support { length below.now.bound.now.support ≡ question.now.dag.now.validators }
    requires within { validator < question.now.dag.now.validators }
    requires known { (tip : Number) → known.tip ≡ Some tip → tip.0 < count_of question.now.dag.now }
    requires kept { (tip : Number) → known.tip ≡ Some tip → known.first ≤ known.low → IsFirstOf question.now.dag.now tip.0 (counts_over question.now.weights.now question.now.dag.now question.now.block.0 question.now.quorum below.now.is_votes below.now.bound.now.firsts) known.first }
    requires supported { below.now.is_votes ≡ false → (tip : Number) → view_at question.now.panorama.now validator ≡ View.Correct tip → weight_after question.now.weights.now question.now.dag.now below.now.bound.now.firsts tip.0 ≡ support_of below.now.bound.now validator }
    ensures { (tip : Number) → view_at question.now.panorama.now validator ≡ View.Correct tip → IsFirstOf question.now.dag.now tip.0 (counts_over question.now.weights.now question.now.dag.now question.now.block.0 question.now.quorum below.now.is_votes below.now.bound.now.firsts) result }
{
    let View::Correct(tip) = question.panorama.get(validator) else {
        return NO_UNIT;
    };
    if known.tip == Some(tip) && known.first <= known.low {
        return known.first;
    }
    if !tip_counts(question, below, tip, validator) {
        return NO_UNIT;
    }
    walk(question, below.bound, below.is_votes, tip, known)
}

// Whether the validator's latest unit may count. What it sees of the level below is known.
fn tip_counts(question: &Question<'_>, below: &Below<'_>, tip: UnitNo, validator: u32) -> bool
    requires lower_support { length below.now.bound.now.support ≡ question.now.dag.now.validators }
    requires within { validator < question.now.dag.now.validators }
    requires known { tip.0 < count_of question.now.dag.now }
    requires supported { below.now.is_votes ≡ false → weight_after question.now.weights.now question.now.dag.now below.now.bound.now.firsts tip.0 ≡ support_of below.now.bound.now validator }
    ensures { result ≡ counts_over question.now.weights.now question.now.dag.now question.now.block.0 question.now.quorum below.now.is_votes below.now.bound.now.firsts tip.0 }
{
    if below.is_votes {
        votes_for(question.dag, tip, question.block)
    } else {
        question.quorum <= below.bound.support(validator)
    }
}

// The first unit, by a search down the lane from a unit that may count: in steps that double for as long as the units count, and then
// by bisection between the last two. Where the units that count are the last ones of the lane, as those are
// that see a quorum, it is the first of them.
fn walk(question: &Question<'_>, lower: &Bound, is_votes: bool, tip: UnitNo, known: Known) -> u32
    requires lower_firsts { length lower.now.firsts ≡ question.now.dag.now.validators }
    requires tip_known { tip.0 < count_of question.now.dag.now }
    requires known { (no : Number) → known.tip ≡ Some no → no.0 < count_of question.now.dag.now }
    requires kept { (no : Number) → known.tip ≡ Some no → known.first ≤ known.low → IsFirstOf question.now.dag.now no.0 (counts_over question.now.weights.now question.now.dag.now question.now.block.0 question.now.quorum is_votes lower.now.firsts) known.first }
    ensures { IsFirstOf question.now.dag.now tip.0 (counts_over question.now.weights.now question.now.dag.now question.now.block.0 question.now.quorum is_votes lower.now.firsts) result }
{
    let mut first = tip;
    let mut step = 1;
    while 0 < seq_of(question.dag, first) {
        let no = back(question.dag, first, step);
        if is_known_from(known, no) {
            return known.first;
        }
        if !counts(question, lower, is_votes, no) {
            return bisect(question, lower, is_votes, tip, no, first);
        }
        first = no;
        step = step.saturating_mul(2);
    }
    first.0
}

// The number of a unit between the two of the lane, or of the latter, whose predecessor doesn't count.
fn bisect(
    question: &Question<'_>,
    lower: &Bound,
    is_votes: bool,
    tip: UnitNo,
    outside: UnitNo,
    inside: UnitNo,
) -> u32
    requires lower_firsts { length lower.now.firsts ≡ question.now.dag.now.validators }
    requires tip_known { tip.0 < count_of question.now.dag.now }
    requires gap { IsGap question.now.dag.now tip.0 (counts_over question.now.weights.now question.now.dag.now question.now.block.0 question.now.quorum is_votes lower.now.firsts) outside.0 inside.0 }
    ensures { IsFirstOf question.now.dag.now tip.0 (counts_over question.now.weights.now question.now.dag.now question.now.block.0 question.now.quorum is_votes lower.now.firsts) result }
{
    let mut last = outside;
    let mut first = inside;
    let dag = question.dag;
    while 1 < seq_of(dag, first) - seq_of(dag, last) {
        let no = back(dag, first, half(seq_of(dag, first) - seq_of(dag, last)));
        if counts(question, lower, is_votes, no) {
            first = no;
        } else {
            last = no;
        }
    }
    first.0
}

// Half of a number above 1.
fn half(number: u64) -> u64
    requires { 1 < number }
    ensures some { 1 ≤ result }
    ensures less { result < number }
{
    number / 2
}

// The unit so many units back on the lane, at least one, or the first one.
fn back(dag: &Dag, no: UnitNo, step: u64) -> UnitNo
    requires known { no.0 < count_of dag.now }
    requires later { 0 < seq_of (unit_at dag.now no.0) }
    ensures { IsBack dag.now no.0 step result.0 }
{
    let seq = seq_of(dag, no);
    dag.unit_on_lane(no, seq.saturating_sub(step).min(seq - 1))
}

// The number of the unit on its lane.
fn seq_of(dag: &Dag, no: UnitNo) -> u64
    requires known { no.0 < count_of dag.now }
    ensures { result ≡ seq_of (unit_at dag.now no.0) }
{
    dag.unit(no).signed().unit.seq
}

// Whether the unit may count: it votes for the block or a descendant of it, or sees the least quorum.
fn counts(question: &Question<'_>, lower: &Bound, is_votes: bool, no: UnitNo) -> bool
    requires lower_firsts { length lower.now.firsts ≡ question.now.dag.now.validators }
    requires known { no.0 < count_of question.now.dag.now }
    ensures { result ≡ counts_over question.now.weights.now question.now.dag.now question.now.block.0 question.now.quorum is_votes lower.now.firsts no.0 }
{
    if is_votes {
        votes_for(question.dag, no, question.block)
    } else {
        has_quorum(question, no, lower.firsts())
    }
}

// Whether the first unit is known from this unit on.
fn is_known_from(known: Known, no: UnitNo) -> bool
    ensures kept { IsTrue result → known.tip ≡ Some no }
    ensures low { IsTrue result → known.first ≤ known.low }
    ensures earlier { IsTrue result → known.first ≤ no.0 }
{
    known.tip == Some(no) && known.first <= known.low && known.first <= no.0
}

// Adjusts what the kept latest units see by the first units that moved, where few did. It is right of those
// latest units that are no greater than the answer.
fn shift_few(
    question: &Question<'_>,
    bound: &mut Bound,
    before: &Firsts,
    tips: &[Option<UnitNo>],
    moves: Moves,
) -> u32
    requires tips { length tips.now ≡ question.now.dag.now.validators }
    requires firsts_length { length bound.old.firsts ≡ question.now.dag.now.validators }
    requires support_length { length bound.old.support ≡ question.now.dag.now.validators }
    requires before { length before.now ≡ question.now.dag.now.validators }
    requires known { (v : ℕ) (tip : Number) → slice_index_or tips.now v None ≡ Some tip → tip.0 < count_of question.now.dag.now }
    requires seen { (v : ℕ) (tip : Number) → slice_index_or tips.now v None ≡ Some tip → weight_after question.now.weights.now question.now.dag.now before.now tip.0 ≡ support_of bound.old v }
    requires same { (v : ℕ) (tip : Number) → slice_index_or tips.now v None ≡ Some tip → tip.0 ≤ moves.any → weight_after question.now.weights.now question.now.dag.now bound.old.firsts tip.0 ≡ support_of bound.old v }
    ensures kept { (v : ℕ) (tip : Number) → slice_index_or tips.now v None ≡ Some tip → tip.0 ≤ result → weight_after question.now.weights.now question.now.dag.now bound.new.firsts tip.0 ≡ support_of bound.new v }
    ensures firsts { bound.new.firsts ≡ bound.old.firsts }
    ensures support_length { length bound.new.support ≡ length bound.old.support }
{
    // Nobody sees the newest unit.
    if question.dag.count() <= moves.any.saturating_add(1) {
        return NO_UNIT;
    }
    if !is_few(question.dag, moves) {
        return moves.any;
    }
    shift_support(question, bound, before, tips);
    NO_UNIT
}

// Puts what the latest units of the span see of the first units. None that was or is less than `low` has
// changed.
fn put_support(
    question: &Question<'_>,
    bound: &mut Bound,
    tips: &[Option<UnitNo>],
    span: Span,
    low: u32,
)
    requires tips { length tips.now ≡ question.now.dag.now.validators }
    requires firsts_length { length bound.old.firsts ≡ question.now.dag.now.validators }
    requires support_length { length bound.old.support ≡ question.now.dag.now.validators }
    requires span { span.to ≤ question.now.dag.now.validators }
    requires outside { (v : ℕ) (tip : Number) → IsOutside span v → view_at question.now.panorama.now v ≡ View.Correct tip → weight_after question.now.weights.now question.now.dag.now bound.old.firsts tip.0 ≡ support_of bound.old v }
    requires kept { (v : ℕ) (tip : Number) → slice_index_or tips.now v None ≡ Some tip → tip.0 ≤ low → weight_after question.now.weights.now question.now.dag.now bound.old.firsts tip.0 ≡ support_of bound.old v }
    ensures support { (v : ℕ) (tip : Number) → view_at question.now.panorama.now v ≡ View.Correct tip → weight_after question.now.weights.now question.now.dag.now bound.new.firsts tip.0 ≡ support_of bound.new v }
    ensures firsts { bound.new.firsts ≡ bound.old.firsts }
    ensures support_length { length bound.new.support ≡ length bound.old.support }
{
    for v in span.from..span.to {
        let view = question.panorama.get(v);
        let weight = next_support(question, bound, view, tips[v as usize], low, v);
        bound.set_support(v, weight);
    }
}

// What the unit of the slot sees of the first units. Nothing where it has none.
fn next_support(
    question: &Question<'_>,
    bound: &Bound,
    view: View,
    kept: Option<UnitNo>,
    low: u32,
    validator: u32,
) -> u64
    requires firsts { length bound.now.firsts ≡ question.now.dag.now.validators }
    requires within { validator < length bound.now.support }
    requires view_known { (tip : Number) → view ≡ View.Correct tip → tip.0 < count_of question.now.dag.now }
    requires kept { (tip : Number) → kept ≡ Some tip → tip.0 ≤ low → weight_after question.now.weights.now question.now.dag.now bound.now.firsts tip.0 ≡ support_of bound.now validator }
    ensures { (tip : Number) → view ≡ View.Correct tip → weight_after question.now.weights.now question.now.dag.now bound.now.firsts tip.0 ≡ result }
{
    match view {
        View::Correct(tip) if kept == Some(tip) && tip.0 <= low => bound.support(validator),
        View::Correct(tip) => weight_after(question.dag, question.weights, tip, bound.firsts()),
        View::Absent | View::Faulty => 0,
    }
}

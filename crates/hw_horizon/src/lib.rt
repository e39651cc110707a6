//! The search for summits: whether a block has one of a level and quorum in a panorama, and the
//! committees and starts of the greatest.
//!
//! A table has the start of each member of a committee. That of level 0 is found by a walk down each
//! lane for as long as its units vote for the block. What it found is kept, so when the same block is
//! asked again only new units of a lane are looked at. Fences are kept for blocks above it, from which the
//! walk for the next block goes down, so that a climb over many blocks doesn't pass each lane once a block.
//!
//! Each level above is pruned out of the one below it: members whose latest unit sees no quorum of those
//! still there fall one after the other, until no more do or those who are left weigh less than one, even
//! amid a round. Then their starts are found by bisection, since the units of a lane that see a quorum are
//! its last ones. The tables of all levels stay as they are until the next search. Who only asks whether
//! there is a summit saves the starts of its level.
//!
//! Mostly there is no summit, and bounds that are kept say so early: for each level before which unit
//! nobody is in a committee, and what each latest unit sees of the units from there on. They follow the
//! panorama in a pass over the validators for each level. A search that begins with the same units doesn't
//! work those weights out again.
//!
//! The [`Detector`] of decided blocks stands on it. While the faulty weigh no more than the threshold, the blocks that
//! stand are the lower part of the way to the fork choice, from height 0 on. So the detector goes up that way from the
//! first height that nothing was found of, and asks of each block whether it stands and at which level, up to the first
//! that doesn't. Once the faulty weigh more, nothing is decided any more. The laws that it rests on are public here too:
//! accountable safety, and that the decided blocks are one chain.
#![tactic(auto)]

mod bounds;
mod counts;
mod detector;
mod detector_laws;
mod edges;
mod fences;
mod firsts;
mod follow;
mod found;
mod horizons;
mod kept;
mod laws;
mod level_quorums;
mod list;
mod question;
mod quorums;
mod rounds;
mod search;
mod shift;
mod table;
mod votes;

pub use bounds::Bounds;
pub use detector::Detector;
pub use detector_laws::{a_run_decides, a_search_by_number_finds, found_blocks_stay};
pub use found::{Found, Outcome};
pub use horizons::Horizons;
pub use hw_safety::{
    accountable_safety, conflict_safety, culprits_safety, decided_are_a_chain, graph_safety,
    kept_while_few, later_safety, one_chain, stands_safety,
};
pub use laws::{bounds_rule_out, lesser_summits, sums_stay, walks_stay};
pub use question::Question;

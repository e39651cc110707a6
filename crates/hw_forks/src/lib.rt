//! The fork choice of a panorama: from above all blocks of height 0, always on to the child of the
//! greatest score, where a child's score is the weight of the validators whose latest unit votes for it
//! or a descendant of it. Ties go to the greater digest.
//!
//! The votes are gathered once, one for each Correct slot. The walk goes at once to a block that it is
//! known to pass through. Where all votes are on one chain, that is the block of the highest vote, found
//! in one pass. Else it is the highest block that has the majority: votes of more than half of the weight
//! are for it or descend from it, so at each branching below it the others weigh less. Its height is
//! found by bisection, and at one height two passes find it. From there the tallies decide: each vote
//! gives its weight to its ancestor of the next height, these shares are sorted by the child that has
//! them, and those of one child, which then stand together, are added up. Only the votes for the best
//! child or descendants of it are kept, and from that child the walk goes on in the same way. No child
//! had the majority, so each round leaves half of the weight at most: however the votes are spread over
//! heights and branches, there are no more rounds than the weight of all votes can be halved, and no step
//! is linear in the length of the chain.
//!
//! There is no more than one vote and one share for each Correct slot, and each of these names a unit of
//! its own. So room for as many as the graph has units is enough, and so is room for as many as it has
//! validators, however long the chain.
#![tactic(auto)]

mod ancestors;
mod branch;
mod choice;
mod laws;
mod majority;
mod start;
mod tallies;
mod votes;

pub use ancestors::ancestor_at;
pub use choice::Forks;
pub use laws::tally_is_score;

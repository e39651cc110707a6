//! What a node answers for the lines of the input.
//!
//! The lines, what each does and what it answers:
//!
//! - `# TEXT`: repeats the line.
//! - `weights N ..`: begins a node with these weights; `ftt`, `levels`, `leaders`, `records`, `parked` and `end` may
//!   follow, each with its numbers.
//! - `unit NAME by V at T cites C ..`: defines a unit, and answers nothing; `exp`, `number`, `foreign`, `block` and
//!   `endorsed` may follow, each with its words.
//! - `evidence NAME of NAME NAME`: defines an evidence of two units, and answers nothing.
//! - `deliver NAME ..`, `forge NAME ..`: delivers vertices, the second with the verdict that their signatures are
//!   wrong: what became of each.
//! - `endorse NAME by V ..`: delivers an endorsement of the unit by each of these: what became of each.
//! - `place NAME ..`: whether each unit is unknown, settled, parked or dropped: with its number, how many needs it
//!   misses, or the rule that it breaks.
//! - `missing NAME ..`: what each unit misses, asked for place by place.
//! - `unmet N`: the first N needs that parked units miss, in the order of parking; N is at most 8.
//! - `against V ..`: the evidence that the journal has against each validator.
//! - `endorsers NAME ..`: who endorsed each unit, in the order of the journal.
//! - `summit N ..`: whether the decided block of each of these places, counted from 0, has a summit now.
//! - `starts LEVEL`: where each validator starts in the committee of that level of the summit that was asked for last.
//! - `starts LEVEL of N`: where each validator starts in the committee of that level of the greatest summit that the
//!   decided block of place N has now.
//! - `show fork`, `show panorama`, `show faulty`, `show final`: the fork choice; what the node observes; who is faulty;
//!   the decided blocks, and the faulty weight where it exceeds the threshold.
//! - `show counts`, `show journal`: how many units are settled, parked and dropped, and the faulty weight; the journal
//!   in order.
//! - `chain N forward`, `chain N reverse`: delivers a chain of N units of validator 0 in that order: the sums of what
//!   became of them.
//!
//! C is `-`, `!` or the name of a unit. A list of endorsed units is put in rising order. A delivery that is refused
//! since there is no memory is tried once more, and its line has `memory` before the answer. `changed` after a refusal
//! says that another vertex came back than was delivered. `lost` after a place says that the node keeps another unit of
//! that digest.
//!
//! Covered, with the answers of two independent implementations, one of them by the letter of the definitions; those
//! of the worked examples were written down by hand before:
//!
//! - each receipt, and each refusal but a clash and out of memory, in the order in which the tests come;
//! - each of the nineteen rules, the first eight refused and the others dropped; each fault of a pair;
//! - the places of units and what each misses, need by need, while needs are met one after the other;
//! - units that settle by a unit, by evidence, by an equivocation among the settled units and by the last
//!   endorsement; a dropped unit as a need that is never met;
//! - decisions at the edge of a quorum, at two levels and at three, several by one delivery, and with an equivocation
//!   above the threshold before a decision and after it;
//! - one set of vertices in two orders, a chain of 10,000 units delivered in reverse order, and four made-up
//!   networks;
//! - first needs of parked units in two orders of parking, with lists of one, two and eight places and none, and
//!   where the place of a released unit is taken again;
//! - evidence and the second evidence against one validator; endorsements with other vertices between them, repeated
//!   and refused;
//! - the summits of decided blocks: asked for, kept by a repeat, forgotten when a vertex comes and lost by an
//!   equivocation, with the starts at each level; and the line of a decided block.

mod chains;
mod deliveries;
mod lines;
mod names;
mod outcome;
mod places;
mod shown;
mod summits;
mod units;
mod wanted;

pub use self::lines::tell;
pub use self::names::Node;

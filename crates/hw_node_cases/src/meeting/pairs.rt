//! Two nodes that meet.

ghost use Rattle.std.specs.Prelude.{◌≡◌};
ghost use Rattle.hw_types.specs.Real.{setting_of};
ghost use Rattle.hw_agree.specs.Converge.{summaries};

use crate::meeting::nodes::{begin, deliver_all};
use crate::meeting::texts::{put_numbers, put_parts};
use hw_case_words::Answer;
use hw_core::Core;
use hw_meeting::{LaneSummary, due_places, summary_of, torn_for};
use hw_types::IndexList;

/// What two nodes of these vertices say and owe to each other. They are the only ones then.
pub fn met(answer: &mut Answer, nodes: &mut Vec<Core>, config: &str, left: &str, right: &str) {
    nodes.clear();
    begin(answer, nodes, config);
    begin(answer, nodes, config);
    match nodes.as_mut_slice() {
        [first, second] => {
            deliver_all(answer, first, left);
            deliver_all(answer, second, right);
            put_pair(answer, first, second);
        }
        _ => answer.put("no node"),
    }
}

/// The summaries of the two, what is torn for each, and what each owes.
fn put_pair(answer: &mut Answer, left: &Core, right: &Core) {
    let left_parts = summary_of(answer.alloc(), left);
    let right_parts = summary_of(answer.alloc(), right);
    match (left_parts, right_parts) {
        (Ok(left_parts), Ok(right_parts)) => {
            put_summaries(
                answer,
                left,
                right,
                left_parts.as_slice(),
                right_parts.as_slice(),
            );
        }
        _ => answer.refuse(),
    }
}

/// The same by the two summaries.
fn put_summaries(
    answer: &mut Answer,
    left: &Core,
    right: &Core,
    left_parts: &[LaneSummary],
    right_parts: &[LaneSummary],
)
    requires left { left_parts.now ≡ summaries (setting_of left.now.config) left.now.journal }
    requires right { right_parts.now ≡ summaries (setting_of right.now.config) right.now.journal }
{
    let mut torn = IndexList::new(answer.alloc());
    put_torn(answer, left, left_parts, right_parts, &mut torn);
    put_torn(answer, right, right_parts, left_parts, &mut torn);
    put_side(answer, left, torn.as_slice(), left_parts, right_parts);
    answer.put(" | ");
    put_side(answer, right, torn.as_slice(), right_parts, left_parts);
}

/// Puts the validators last that are torn for the node.
fn put_torn(
    answer: &mut Answer,
    core: &Core,
    mine: &[LaneSummary],
    theirs: &[LaneSummary],
    torn: &mut IndexList,
)
    requires { mine.now ≡ summaries (setting_of core.now.config) core.now.journal }
{
    match torn_for(answer.alloc(), core, mine, theirs) {
        Ok(own) => {
            if torn.extend(own.as_slice()).is_err() {
                answer.refuse();
            }
        }
        Err(_) => answer.refuse(),
    }
}

/// The summary of one side, what is torn for it, and what it owes.
fn put_side(
    answer: &mut Answer,
    core: &Core,
    torn: &[u32],
    mine: &[LaneSummary],
    theirs: &[LaneSummary],
)
    requires { mine.now ≡ summaries (setting_of core.now.config) core.now.journal }
{
    answer.put("tells ");
    put_parts(answer, mine);
    answer.put(" torn ");
    let mut own = IndexList::new(answer.alloc());
    put_torn(answer, core, mine, theirs, &mut own);
    put_numbers(answer, own.as_slice());
    answer.put(" owes ");
    put_due(answer, core, torn, mine, theirs);
}

fn put_due(
    answer: &mut Answer,
    core: &Core,
    torn: &[u32],
    mine: &[LaneSummary],
    theirs: &[LaneSummary],
) {
    match due_places(
        answer.alloc(),
        core,
        core.journal_count(),
        torn,
        mine,
        theirs,
    ) {
        Ok(places) => put_numbers(answer, places.as_slice()),
        Err(_) => answer.refuse(),
    }
}

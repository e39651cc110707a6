//! Journals and runs that numbers choose.

use hw_case_words::Answer;
use hw_cluster::{generate, simulate};

/// What becomes of a journal that the number makes; nothing for no rounds or too many.
pub fn put_generated(answer: &mut Answer, number: u64, rounds: u64) {
    if rounds < 1 || rounds > 4_096 {
        return;
    }
    match generate(answer.alloc(), number, rounds as u32) {
        Ok(summary) => {
            let (units, finals) = (summary.units, summary.finals);
            let put = write!(answer.text, "units {units} final {finals}");
            answer.keep(put);
            if let Some(last) = summary.last {
                answer.put(" last ");
                answer.show(&last);
            }
        }
        Err(_) => answer.refuse(),
    }
}

/// What becomes of nodes whose actions the number chooses; nothing for no nodes, or too many of them or of steps.
pub fn put_simulated(answer: &mut Answer, number: u64, nodes: u64, steps: u64) {
    if nodes < 1 || nodes > 16 || steps > 20_000 {
        return;
    }
    match simulate(answer.alloc(), number, nodes as u32, steps as u32) {
        Ok(summary) => {
            let (units, finals) = (summary.units, summary.finals);
            let (refused, culprits) = (summary.refused, summary.culprits);
            let put = write!(
                answer.text,
                "units {units} final {finals} refused {refused} culprits {culprits}"
            );
            answer.keep(put);
        }
        Err(_) => answer.refuse(),
    }
}

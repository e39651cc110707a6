//! Audits of the eras of two nodes.

use crate::eras::nodes::tell_of;
use crate::eras::runs::put_text;
use hw_audit::audit_text;
use hw_case_words::Answer;
use hw_eras::{AuditError, EraVerdict, Eras, audit_eras};
use hw_safety::Verdict;

/// The audit of the two nodes that the words give. They replace those that began.
pub fn audited(answer: &mut Answer, nodes: &mut Vec<Eras>, words: &[&str]) {
    nodes.clear();
    for node in words.split(|word| *word == "against") {
        tell_of(answer, nodes, node);
    }
    match nodes.as_slice() {
        [left, right] => audit_of(answer, left, right),
        _ => answer.put("no two nodes"),
    }
}

/// The audit of these two nodes.
fn audit_of(answer: &mut Answer, left: &Eras, right: &Eras) {
    match audit_eras(answer.alloc(), left, right) {
        Ok(verdict) => put_verdict(answer, left, &verdict),
        Err(AuditError::Instances) => answer.put("other config"),
        Err(AuditError::OutOfMemory) => answer.refuse(),
    }
}

/// What is printed of the verdict on two nodes.
fn put_verdict(answer: &mut Answer, left: &Eras, verdict: &EraVerdict) {
    match verdict {
        EraVerdict::Agree { common } => {
            answer.put("agree ");
            answer.show(common);
        }
        EraVerdict::At { era, verdict } => put_difference(answer, left, *era, verdict),
    }
}

/// What is printed of the era in which two nodes differ.
fn put_difference(answer: &mut Answer, left: &Eras, era: u32, verdict: &Verdict) {
    let Some(core) = left.core(era) else {
        return answer.put("no such era");
    };
    match audit_text(answer.alloc(), verdict, core.state().config()) {
        Ok(text) => put_text(answer, "era ", era, text.as_slice()),
        Err(_) => answer.refuse(),
    }
}

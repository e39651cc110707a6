//! What becomes of a delivery, and its text.

ghost use Rattle.hw_types.specs.Spelling.{VertexFits};

use hw_case_words::{Answer, is_in_format};
use hw_core::{Core, Refused};
use hw_text::rule_name;
use hw_types::{Cause, Evidence, PairFault, Receipt, Rule, Vertex, is_same_unit};

/// What became of a vertex.
#[derive(Clone, Copy)]
pub enum Outcome {
    /// It was accepted, or is a repeat.
    Taken(Receipt),
    /// It was refused, and came back.
    Refused(Cause),
    /// It was refused, and another one came back.
    Changed(Cause),
}

/// What becomes of a vertex like this one. None where it doesn't keep the limits of its format, and where memory
/// runs out before it is delivered.
pub fn delivery(core: &mut Core, vertex: &Vertex, verdict: bool) -> Option<Outcome> {
    if !is_in_format(vertex) {
        return None;
    }
    match vertex.copy() {
        Ok(given) => Some(outcome_of(core, given, vertex, verdict)),
        Err(_) => None,
    }
}

/// What becomes of the vertex that is given, a copy of this one.
fn outcome_of(core: &mut Core, given: Vertex, vertex: &Vertex, verdict: bool) -> Outcome
    requires { VertexFits given }
{
    match core.deliver(given, verdict) {
        Ok(receipt) => Outcome::Taken(receipt),
        Err(refused) => refusal(&refused, vertex),
    }
}

fn refusal(refused: &Refused, vertex: &Vertex) -> Outcome {
    if is_same(&refused.vertex, vertex) {
        Outcome::Refused(refused.cause)
    } else {
        Outcome::Changed(refused.cause)
    }
}

/// Whether the two vertices are of the same units.
pub fn is_same(left: &Vertex, right: &Vertex) -> bool {
    match (left, right) {
        (Vertex::Unit(left), Vertex::Unit(right)) => is_same_unit(&left.unit, &right.unit),
        (Vertex::Evidence(left), Vertex::Evidence(right)) => is_same_pair(left, right),
        (Vertex::Endorsement(left), Vertex::Endorsement(right)) => left == right,
        _ => false,
    }
}

/// Whether the two evidence are of the same units.
pub fn is_same_pair(left: &Evidence, right: &Evidence) -> bool {
    is_same_unit(&left.left.unit, &right.left.unit)
        && is_same_unit(&left.right.unit, &right.right.unit)
}

/// The outcome in words.
pub fn outcome_text(answer: &mut Answer, outcome: Outcome) {
    match outcome {
        Outcome::Taken(receipt) => receipt_text(answer, receipt),
        Outcome::Refused(cause) => refused_text(answer, cause),
        Outcome::Changed(cause) => {
            refused_text(answer, cause);
            answer.put(" changed");
        }
    }
}

fn receipt_text(answer: &mut Answer, receipt: Receipt) {
    match receipt {
        Receipt::Admitted { settled } => counted(answer, "admitted ", settled),
        Receipt::Parked { missing } => counted(answer, "parked ", missing),
        Receipt::Dropped(rule) => rule_text(answer, "dropped ", rule),
        Receipt::Repeat => answer.put("repeat"),
    }
}

/// A word, and a number after it.
pub fn counted(answer: &mut Answer, word: &str, number: u32) {
    answer.put(word);
    answer.number(number as u64);
}

fn refused_text(answer: &mut Answer, cause: Cause) {
    answer.put("refused ");
    match cause {
        Cause::Local(rule) => rule_text(answer, "local ", rule),
        other => answer.put(cause_word(other)),
    }
}

fn cause_word(cause: Cause) -> &'static str {
    match cause {
        Cause::BadSignature => "signature",
        Cause::Local(_) => "local",
        Cause::Pair(PairFault::Creator) => "pair creator",
        Cause::Pair(PairFault::Sequence) => "pair sequence",
        Cause::Pair(PairFault::Instance) => "pair instance",
        Cause::Pair(PairFault::Same) => "pair same",
        Cause::Clash { known: _ } => "clash",
        Cause::RecordsFull => "records full",
        Cause::ParkFull => "parked full",
        Cause::OutOfMemory => "memory",
    }
}

/// A word, and the rule's number and name.
pub fn rule_text(answer: &mut Answer, word: &str, rule: Rule) {
    counted(answer, word, rule as u32 + 1);
    answer.put(" ");
    answer.put(rule_name(rule));
}

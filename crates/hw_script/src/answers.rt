//! The answer to a delivery, as text.

ghost use Rattle.std.specs.Prelude.{◌≡◌, ◌++◌, OnOk};
ghost use Rattle.hw_script.specs.Answers.{numbered_rule, pair_text, cause_text, receipt_text, answer_text};

use hw_text::{put_number, put_numbered, put_word, rule_name, rule_number};
use hw_types::{Bytes, Cause, OutOfMemory, PairFault, Receipt, Rule};

/// Puts the answer to a delivery last.
#[tactic(auto, using(std::proofs::Common::append_assoc))]
pub(crate) fn put_answer(out: &mut Bytes, answer: Result<Receipt, Cause>) -> Result<(), OutOfMemory>
    ensures { OnOk result (out.new ≡ out.old ++ answer_text answer) }
{
    match answer {
        Ok(receipt) => put_receipt(out, receipt),
        Err(cause) => {
            put_word(out, "refused ")?;
            put_cause(out, cause)
        }
    }
}

/// Puts what became of a vertex last.
#[tactic(auto, using(std::proofs::Common::append_assoc), unfolding(crate::specs::Answers::receipt_text))]
fn put_receipt(out: &mut Bytes, receipt: Receipt) -> Result<(), OutOfMemory>
    ensures { OnOk result (out.new ≡ out.old ++ receipt_text receipt) }
{
    match receipt {
        Receipt::Admitted { settled } => put_numbered(out, "admitted ", u64::from(settled)),
        Receipt::Parked { missing } => put_numbered(out, "parked ", u64::from(missing)),
        Receipt::Dropped(rule) => {
            put_word(out, "dropped ")?;
            put_rule(out, rule)
        }
        Receipt::Repeat => put_word(out, "repeat"),
    }
}

/// Puts why a vertex is refused last.
#[tactic(auto, using(std::proofs::Common::append_assoc), unfolding(crate::specs::Answers::cause_text))]
fn put_cause(out: &mut Bytes, cause: Cause) -> Result<(), OutOfMemory>
    ensures { OnOk result (out.new ≡ out.old ++ cause_text cause) }
{
    match cause {
        Cause::Local(rule) => {
            put_word(out, "local ")?;
            put_rule(out, rule)
        }
        Cause::Pair(fault) => {
            put_word(out, "pair ")?;
            put_word(out, pair_word(fault))
        }
        Cause::Clash { .. } => put_word(out, "clash"),
        Cause::RecordsFull => put_word(out, "records full"),
        Cause::ParkFull => put_word(out, "parked full"),
        Cause::BadSignature | Cause::OutOfMemory => Ok(()),
    }
}

/// Puts the number and the name of a rule last.
#[tactic(auto, using(std::proofs::Common::append_assoc))]
fn put_rule(out: &mut Bytes, rule: Rule) -> Result<(), OutOfMemory>
    ensures { OnOk result (out.new ≡ out.old ++ numbered_rule rule) }
{
    put_number(out, u64::from(rule_number(rule)))?;
    put_word(out, " ")?;
    put_word(out, rule_name(rule))
}

/// The word of what is wrong with a pair.
#[tactic(auto, unfolding(crate::specs::Answers::pair_text))]
fn pair_word(fault: PairFault) -> &'static str
    ensures { result.now ≡ pair_text fault }
{
    match fault {
        PairFault::Creator => "creator",
        PairFault::Sequence => "sequence",
        PairFault::Instance => "instance",
        PairFault::Same => "same",
    }
}

//! The printed names and numbers of the rules.

ghost use Rattle.std.specs.Prelude.{◌≡◌, ◌≤◌};
ghost use Rattle.hw_text.specs.Text.{rule_text, rule_number};

use hw_types::Rule;

/// The rule's name, as it is printed.
#[tactic(auto, unfolding(crate::specs::Text::rule_text))]
pub fn rule_name(rule: Rule) -> &'static str
    ensures { result.now ≡ rule_text rule }
{
    match rule {
        Rule::WrongInstance => "wrong-instance",
        Rule::UnknownCreator => "unknown-creator",
        Rule::PanoramaLength => "panorama-length",
        Rule::FaultySelf => "faulty-self",
        Rule::FirstSequence => "first-sequence",
        Rule::RoundExponent => "round-exponent",
        Rule::EndorsedOrder => "endorsed-order",
        Rule::NoBlock => "no-block",
        Rule::SlotCreator => "slot-creator",
        Rule::SequenceNumber => "sequence-number",
        Rule::Inconsistent => "inconsistent",
        Rule::TimeGoesBack => "time-goes-back",
        Rule::RoundChange => "round-change",
        Rule::ThirdInRound => "third-in-round",
        Rule::NotLeader => "not-leader",
        Rule::EndorsedShrinks => "endorsed-shrinks",
        Rule::EndorsedUnseen => "endorsed-unseen",
        Rule::Naive => "naive",
        Rule::AfterTerminal => "after-terminal",
    }
}

/// The rule's number, as it is printed: its place in the order in which rules are tested, counted from 1.
#[tactic(auto, unfolding(crate::specs::Text::rule_number))]
pub fn rule_number(rule: Rule) -> u32
    ensures number { result ≡ rule_number rule }
    ensures small { result ≤ 19 }
{
    match rule {
        Rule::WrongInstance => 1,
        Rule::UnknownCreator => 2,
        Rule::PanoramaLength => 3,
        Rule::FaultySelf => 4,
        Rule::FirstSequence => 5,
        Rule::RoundExponent => 6,
        Rule::EndorsedOrder => 7,
        Rule::NoBlock => 8,
        Rule::SlotCreator => 9,
        Rule::SequenceNumber => 10,
        Rule::Inconsistent => 11,
        Rule::TimeGoesBack => 12,
        Rule::RoundChange => 13,
        Rule::ThirdInRound => 14,
        Rule::NotLeader => 15,
        Rule::EndorsedShrinks => 16,
        Rule::EndorsedUnseen => 17,
        Rule::Naive => 18,
        Rule::AfterTerminal => 19,
    }
}

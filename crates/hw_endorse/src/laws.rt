//! Laws of the definitions.

ghost use Rattle.hw_endorse.specs.Laws.{MajorityIsEndorsed, ToldInTurn};

/// A unit has a majority of the pairs that were received exactly where the state has it as endorsed.
pub fn majority_is_endorsed()
    ensures { MajorityIsEndorsed }
{}

/// Pairs that are told one after the other are the pairs that were told, whatever their order.
pub fn told_in_turn()
    ensures { ToldInTurn }
{}

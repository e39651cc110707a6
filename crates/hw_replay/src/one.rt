//! One consumer: a block that it is given, and the end.

ghost use Rattle.std.specs.{Prelude.{◌≡◌, Some, None, Ok, Err, OnErr, IfErr, MatchResult}, Option.{option_map}};
ghost use Rattle.hw_io.specs.{Faults.{HasCause, IsWantCounted}, Consumers.{after_take, after_finish}};
ghost use Rattle.hw_replay.specs.{Fates.{seen, answer_of, ending_of}, Told.{IsFinished}};

use crate::ending::Ending;
use hw_io::{Consumer, IoFault};

/// Gives a consumer one block. An error has the block's height and what the consumer answered.
pub(crate) fn give(
    consumer: &mut Box<dyn Consumer>,
    height: u64,
    value: &[u8],
) -> Result<(), Ending>
    ensures consumed { consumed consumer.new ≡ option_map (after_take height value.now (answer_of (ending_of result))) (consumed consumer.old) }
    ensures cause { HasCause (faults consumer.old) (faults consumer.new) (answer_of (ending_of result)) }
    ensures want { IsWantCounted (wants consumer.old) (wants consumer.new) (answer_of (ending_of result)) }
    ensures at { IfErr result (λ ending. ending.height ≡ Some height) }
    ensures kind { consumer.new.vtable ≡ consumer.old.vtable }
{
    match consumer.take(height, value) {
        Ok(()) => Ok(()),
        Err(fault) => Err(Ending {
            height: Some(height),
            fault,
        }),
    }
}

/// Finishes a consumer: no block follows. An error has no height.
pub(crate) fn end(consumer: &mut Box<dyn Consumer>) -> Result<(), Ending>
    ensures consumed { consumed consumer.new ≡ option_map (after_finish (answer_of (ending_of result))) (consumed consumer.old) }
    ensures cause { HasCause (faults consumer.old) (faults consumer.new) (answer_of (ending_of result)) }
    ensures want { IsWantCounted (wants consumer.old) (wants consumer.new) (answer_of (ending_of result)) }
    ensures at { IfErr result (λ ending. ending.height ≡ None) }
    ensures kind { consumer.new.vtable ≡ consumer.old.vtable }
{
    match consumer.finish() {
        Ok(()) => Ok(()),
        Err(fault) => Err(Ending {
            height: None,
            fault,
        }),
    }
}

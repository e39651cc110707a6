//! The count of calls that found no memory.

ghost use Rattle.hw_io.specs.Faults.{IsWantCounted};

use hw_io::IoFault;

/// Counts a call that found no memory.
pub(crate) fn count_want(wants: &mut u64, answer: Result<(), IoFault>)
    ensures { IsWantCounted wants.old wants.new answer }
{
    if answer == Err(IoFault::OutOfMemory) {
        *wants = wants.saturating_add(1);
    }
}

//! How many blocks there were.

ghost use Rattle.std.specs.{Prelude.{◌≡◌, ◌+◌, ◌-◌, ◌^◌, ◌++◌, min, None, OnOk, IfOk}, Io.KnownBytes.{Appends}};
ghost use Rattle.hw_io.specs.Faults.{HasCause};
ghost use Rattle.hw_text.specs.{Text.{number_text}, Lines.{line_feed}};

use crate::wants::count_want;
use hw_io::{Consumer, IoFault, Sink, write_all};
use hw_text::{end_line, put_number};
use hw_types::{Bytes, OutOfMemory};
use std::alloc::Global;

/// A consumer that counts the blocks, and writes the count as a line where no block follows. Its faults are
/// those of writes.
#[derive(Drop)]
pub struct BlockCount<S: Sink> {
    alloc: Global,
    out: S,
    blocks: u64,
    /// How many calls found no memory.
    wants: u64,
}

impl<S: Sink> BlockCount<S> {
    /// No block was taken yet.
    pub fn new(alloc: Global, out: S) -> BlockCount<S>
        ensures out { result.out ≡ out }
        ensures blocks { result.blocks ≡ 0 }
    {
        BlockCount {
            alloc,
            out,
            blocks: 0,
            wants: 0,
        }
    }

    /// The output, with what was written to it.
    pub fn into_out(self) -> S
        ensures { result ≡ self.out }
    {
        self.out
    }

    /// Counts one block more, up to the greatest number.
    fn count_one(&mut self)
        ensures blocks { self.new.blocks ≡ min (self.old.blocks + 1) (2 ^ 64 - 1) }
        ensures out { self.new.out ≡ self.old.out }
        ensures wants { self.new.wants ≡ self.old.wants }
    {
        self.blocks = self.blocks.saturating_add(1);
    }
}

impl<S: Sink + Drop> Consumer for BlockCount<S> {
    ghost consumed = { λ _. None };

    ghost faults = { λ consumer. S.faults consumer.out };

    ghost wants = { λ consumer. consumer.wants };

    fn take(&mut self, _height: u64, _value: &[u8]) -> Result<(), IoFault> {
        self.count_one();
        Ok(())
    }

    fn finish(&mut self) -> Result<(), IoFault> {
        let answer = write_count(self.alloc, &mut self.out, self.blocks);
        count_want(&mut self.wants, answer);
        answer
    }
}

/// Writes the number as a line.
fn write_count<S: Sink>(alloc: Global, out: &mut S, count: u64) -> Result<(), IoFault>
    ensures line { OnOk result (Appends (S.taken out.old) (S.taken out.new) (number_text count ++ line_feed)) }
    ensures cause { HasCause (S.faults out.old) (S.faults out.new) result }
{
    let line = count_line(alloc, count).map_err(|_| IoFault::OutOfMemory)?;
    write_all(out, line.as_slice())
}

/// The number as a line.
fn count_line(alloc: Global, count: u64) -> Result<Bytes, OutOfMemory>
    ensures { IfOk result (λ line. line ≡ number_text count ++ line_feed) }
{
    let mut line = Bytes::new(alloc);
    put_number(&mut line, count)?;
    end_line(&mut line)?;
    Ok(line)
}

//! Reading ahead of a file, so that its next bytes can be looked at before they are used.
ghost use Rattle.std.specs.Prelude.{◌≡◌, ℕ, ◌+◌, ◌-◌, ◌<◌, ◌≤◌, List, [], ◌++◌, length, take, drop, slice_range, IsTrue, OnOk, OnErr, IfOk, vec_len, vec_items};
ghost use Rattle.hw_io.specs.{Buffers.{IsWindow}, Reads.{OnlyReads, CountsReads, HoldsMore}};

use crate::outside::{Files, IoFault};
use std::alloc::{AllocError, Global};
use std::marker::Model;

/// How many bytes can be asked of a `ReadBuffer` at once: 2^30.
pub const MOST_AT_ONCE: usize = 1_073_741_824;

/// A read asks for this many bytes and more.
const PIECE: usize = 65_536;

/// Bytes that were read of a file and are not yet used, in front of the file that is begun.
///
/// Contracts see it as the list of the bytes that it holds. These and then the file's unread bytes
/// are what is left of the file. It keeps one buffer, with room for the most bytes that were asked
/// for at once and a piece of 65,536 bytes, however long the file is.
#[derive(Drop)]
pub struct ReadBuffer {
    bytes: Vec<u8>,
    start: usize,
    end: usize,
}

impl Model for ReadBuffer {
    ghost Value = { List ℕ };

    ghost view = { λ b. slice_range b.bytes.items b.start b.end };

    ghost invariant = { λ b. IsWindow b.bytes.items b.start b.end };
}

impl ReadBuffer {
    /// Holds nothing, and takes no memory yet.
    pub fn new(alloc: Global) -> ReadBuffer
        ensures empty { result ≡ [] }
    {
        ReadBuffer {
            bytes: Vec::new(alloc),
            start: 0,
            end: 0,
        }
    }

    /// The bytes that are held, the next one first.
    pub fn as_slice(&self) -> &[u8]
        ensures bytes { result.now ≡ self.now }
    {
        let (start, end) = (self.start, self.end);
        let all = self.bytes.as_slice();
        &all[start..end]
    }

    /// Uses the first `count` of the bytes that are held.
    pub fn consume(&mut self, count: usize)
        requires { count ≤ length self.old }
        ensures rest { self.new ≡ drop count self.old }
    {
        self.start += count;
    }

    /// Reads of the file that is begun until `n` bytes are held, and answers how many are. That is
    /// fewer than `n` only at the end of the file.
    ///
    /// An error is that of a read, or want of memory. It loses no byte, so that the call can be made
    /// again.
    pub fn available<F: Files>(&mut self, files: &mut F, n: usize) -> Result<usize, IoFault>
        requires { n ≤ MOST_AT_ONCE }
        ensures count { IfOk result (λ count. count ≡ length self.new) }
        ensures end { IsTrue F.tells → IfOk result (λ count. count < n → F.unread files.new ≡ []) }

        // Whatever the answer, what was held is held, and what was left is left.
        ensures more { HoldsMore F.Files files.old files.new self.old self.new }
        ensures counted { CountsReads F.Files files.old files.new result }
        ensures rest { OnlyReads F.Files files.old files.new }
    {
        if self.end - self.start < n {
            self.read_more(files, n)?;
        }
        Ok(self.end - self.start)
    }

    /// Reads of the file until `n` bytes are held, or it is at its end.
    fn read_more<F: Files>(&mut self, files: &mut F, n: usize) -> Result<(), IoFault>
        requires fewer { length self.old ≤ n }
        requires most { n ≤ MOST_AT_ONCE }
        ensures end { IsTrue F.tells → OnOk result (length self.new < n → F.unread files.new ≡ []) }
        ensures more { HoldsMore F.Files files.old files.new self.old self.new }
        ensures counted { CountsReads F.Files files.old files.new result }
        ensures rest { OnlyReads F.Files files.old files.new }
    {
        let held = self.end - self.start;
        make_room(&mut self.bytes, self.start, self.end, n)?;
        self.start = 0;
        let filled = fill(files, self.bytes.as_mut_slice(), held, n);
        self.end = filled.end;
        filled.outcome
    }
}

/// Moves the bytes from `start` up to `end` to the front, and makes room there for `n` bytes and a
/// piece. An error changes nothing.
fn make_room(bytes: &mut Vec<u8>, start: usize, end: usize, n: usize) -> Result<(), AllocError>
    requires window { IsWindow bytes.old.items start end }
    requires least { n ≤ MOST_AT_ONCE }
    ensures front { OnOk result (take (end - start) bytes.new.items ≡ slice_range bytes.old.items start end) }
    ensures room { OnOk result (n + PIECE ≤ vec_len bytes.new) }
    ensures same { OnErr result (bytes.new.items ≡ bytes.old.items) }
{
    if bytes.len() < n + PIECE {
        bytes.resize(n + PIECE, 0)?;
    }
    bytes.copy_within(start..end, 0);
    Ok(())
}

/// How far the reads came, and the fault that stopped them.
#[derive(Drop)]
struct Filled {
    end: usize,
    outcome: Result<(), IoFault>,
}

/// Reads into the bytes behind the first `held` until `n` of them are read or the file is at its end.
fn fill<F: Files>(files: &mut F, bytes: &mut [u8], held: usize, n: usize) -> Filled
    requires within { held ≤ n }
    requires room { n ≤ length bytes.old }
    ensures end { IsTrue F.tells → OnOk result.outcome (result.end < n → F.unread files.new ≡ []) }
    ensures within { result.end ≤ length bytes.new }
    ensures held { (held ≤ result.end) × (take held bytes.new ≡ take held bytes.old) }
    ensures left { IsTrue F.tells → take result.end bytes.new ++ F.unread files.new ≡ take held bytes.old ++ F.unread files.old }
    ensures allowance { F.allowance files.new + result.end ≡ F.allowance files.old + held }
    ensures counted { CountsReads F.Files files.old files.new result.outcome }
    ensures rest { OnlyReads F.Files files.old files.new }
{
    let mut end = held;
    while end < n {
        match files.read(&mut bytes[end..]) {
            Ok(0) => break,
            Ok(count) => end += count,
            Err(fault) => {
                return Filled {
                    end,
                    outcome: Err(fault),
                };
            }
        }
    }
    Filled {
        end,
        outcome: Ok(()),
    }
}

//! The arithmetic of skip pointers.
//!
//! In a chain whose members are numbered from 0 on, the member of number `s` keeps `pointer_count(s)`
//! pointers: pointer `i` leads to the member of number `s - 2^i`. So member 0 keeps none, an odd one
//! keeps one, and that of number 1,000 keeps four, to 999, 998, 996 and 992.
//!
//! To come from `s` down to a number `r` below it, `jump(s, r)` says which pointer to take: the one
//! that leads furthest without passing `r`, among those whose length divides `s`. The number of jumps
//! for a distance `d` is at most `2 * (floor(log2(d)) + 1)`, and `Steps` counts them.
//!
//! Nothing here takes memory.

ghost use Rattle.std.specs.Prelude.{◌≡◌, ◌+◌, ◌<◌};

use std::marker::Model;
use std::sync::ledger::{Blank, Book, Ledger, Share};

/// How many steps were taken. It takes no bytes, and only `tick` changes it.
///
/// Contracts see it as a number. A caller that counts nothing makes one over a ledger of its own.
#[derive(Drop)]
pub struct Steps<L: Ledger> {
    book: Book<L>,
    share: Share<L>,
}

impl<L: Ledger> Model for Steps<L> {
    ghost use Rattle.std.specs.Prelude.{ℕ, ◌<◌};

    ghost Value = { ℕ };

    ghost view = { λ s. s.book.total };

    ghost invariant = { λ s. 0 < s.share.parts };
}

impl<L: Ledger> Steps<L> {
    /// No steps so far, counted in the ledger that `blank` is for.
    pub fn new(blank: Blank) -> Steps<L>
        requires name { blank.name ≡ L.name }
        requires parts { blank.parts ≡ L.parts }
        requires some { 0 < L.parts }
        ensures { result ≡ 0 }
    {
        let (book, share) = blank.open();
        Steps { book, share }
    }

    /// One more step.
    pub fn tick(&mut self)
        ensures { self.new ≡ self.old + 1 }
    {
        self.book.add(&mut self.share, 1);
    }
}

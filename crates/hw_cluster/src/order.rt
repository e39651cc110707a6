//! A list in another order.

ghost use Rattle.std.specs.Prelude.{◌≡◌, ◌+◌, ◌-◌, ◌^◌, ◌≤◌, length};
ghost use Rattle.hw_honest.specs.Generated.{shuffled};
ghost use Rattle.hw_cluster.specs.Numbers.{word_in};

use crate::named::NamedVertex;
use crate::words::Words;

/// Puts the units into another order. From the last place down to the second, each is swapped with a place up to it,
/// which the next word names.
pub fn shuffle(units: &mut [NamedVertex], words: &mut Words)
    requires some { 1 ≤ length units.old }
    requires words { words.old.place + length units.old ≤ 2 ^ 64 }
    ensures units { units.new ≡ shuffled (word_in words.old.key) words.old.place (length units.old - 1) units.old }
    ensures words { words.new ≡ record { key = words.old.key; place = words.old.place + (length units.old - 1) } }
{
    let last = units.len() - 1;
    for done in 0..last {
        let place = last - done;
        let other = words.next() as usize % (place + 1);
        units.swap(place, other);
    }
}

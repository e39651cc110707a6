//! Reading a given number of bytes of a link.

ghost use Rattle.std.specs.Prelude.{◌≡◌, ◌<◌, ◌≤◌, [], true, length, take, OnOk, OnErr};
ghost use Rattle.hw_io.specs.{Doors.{AsksMore}, Faults.{HasCause, raised}};
ghost use Rattle.hw_link.specs.{Asked.{IsAskedWithin}, Links.{after_part, has_failed}};

use hw_io::{Door, IoFault};

/// How far the reads came, and the fault that stopped them.
#[derive(Drop)]
pub struct Filled {
    pub end: usize,
    pub outcome: Result<(), IoFault>,
}

/// Reads the peer's next bytes into the front of `bytes`, until there are `n` or the peer ends.
pub(crate) fn fill<D: Door>(door: &mut D, bytes: &mut [u8], n: usize) -> Filled
    requires room { n ≤ length bytes.old }
    requires open { D.is_open door.old ≡ true }
    ensures within { result.end ≤ n }
    ensures short { OnErr result.outcome (result.end < n) }
    ensures room { n ≤ length bytes.new }
    ensures heard { D.sessions door.new ≡ after_part (take result.end bytes.new) [] (has_failed result.outcome) (D.sessions door.old) }
    ensures asks { AsksMore (IsAskedWithin n (D.sessions door.old)) (D.asks door.old) (D.asks door.new) }
    ensures ended { OnOk result.outcome (result.end < n → D.ends door.new ≡ raised (D.ends door.old)) }
    ensures full { OnOk result.outcome (n ≤ result.end → D.ends door.new ≡ D.ends door.old) }
    ensures stopped { OnErr result.outcome (D.ends door.new ≡ D.ends door.old) }
    ensures cause { HasCause (D.faults door.old) (D.faults door.new) result.outcome }

    ensures open { D.is_open door.new ≡ true }
    ensures accepts { D.accepts door.new ≡ D.accepts door.old }
    ensures dials { D.dials door.new ≡ D.dials door.old }
{
    let mut end = 0;
    while end < n {
        match door.read(&mut bytes[end..n]) {
            Ok(0) => break,
            Ok(count) => end += count,
            Err(fault) => {
                return Filled {
                    end,
                    outcome: Err(fault),
                };
            }
        }
    }
    Filled {
        end,
        outcome: Ok(()),
    }
}

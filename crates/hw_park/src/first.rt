//! The first needs that items have left.

ghost use Rattle.std.specs.Prelude.{◌≡◌, ◌≤◌, length, take, if◌then◌else◌};
ghost use Rattle.hw_park.specs.{First.{with_first, with_firsts}, Held.{left_of}, Numbers.{numbers_at, has_number}};

use crate::waits::{Waits, waits_for};
use hw_types::Need;

/// Puts the needs for which a place is noted into the list behind the first so many, but for those that
/// stand there, while it has room. Says how many stand there then.
pub fn put_left(
    list: &mut [Need],
    count: usize,
    waits: &Waits,
    place: usize,
    needs: &[Need],
) -> usize
    requires { count ≤ length list.old }
    ensures within { result ≤ length list.old }
    ensures long { length list.new ≡ length list.old }
    ensures put { take result list.new ≡ with_firsts (length list.old) (take count list.old) (left_of (numbers_at waits.now.entries) place needs.now) }
{
    if count == list.len() {
        return count;
    }
    let mut filled = count;
    for need in needs {
        filled = put_once(list, filled, waits, place, need);
    }
    filled
}

// Puts a need into the list behind the first so many, unless it stands there, the list has no room more or
// the place isn't noted for it. Says how many stand there then.
fn put_once(list: &mut [Need], count: usize, waits: &Waits, place: usize, need: &Need) -> usize
    requires { count ≤ length list.old }
    ensures within { result ≤ length list.old }
    ensures long { length list.new ≡ length list.old }
    ensures put { take result list.new ≡ (if has_number (numbers_at waits.now.entries need.now) place then with_first (length list.old) (take count list.old) need.now else take count list.old) }
{
    // Whether it stands there is looked up first: so a need that all wait for is looked for once in the table.
    if count == list.len() || list[..count].contains(need) {
        return count;
    }
    if !waits_for(waits, place, need) {
        return count;
    }
    list[count] = *need;
    count + 1
}

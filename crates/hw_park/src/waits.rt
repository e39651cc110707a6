//! Which places wait for which need.

ghost use Rattle.std.specs.{Prelude.{◌≡◌, ℕ, [], ◌∷◌, ◌++◌, true, false, List, OnOk, OnErr}, declared.vec.Vec.{Vec as Numbers}, declared.alloc.Global.{Global as Memory}};
ghost use Rattle.hw_types.specs.{declared.unit.Need.{Need as Wanted}, Settled.{need_eq}};
ghost use Rattle.hw_park.specs.{declared.key.NeedKey.{NeedKey as Key}, Numbers.{numbers_at, has_number, SameNumbers, HasRegistered}};

use crate::key::{NeedKey, key_of};
use hw_types::{Need, OutOfMemory};
use std::alloc::Global;
use std::collections::BTreeMap;

/// How many places a list has room for at first.
const FIRST_ROOM: usize = 12;

/// For each need the places of those that wait for it.
pub type Waits = BTreeMap<NeedKey, Vec<usize>>;

/// Whether a place waits for a need.
pub fn waits_for(waits: &Waits, place: usize, need: &Need) -> bool
    ensures { result ≡ has_number (numbers_at waits.now.entries need.now) place }
{
    match waits.get(&key_of(need)) {
        Some(places) => places.contains(&place),
        None => false,
    }
}

/// Notes that a place waits for a need.
fn note(waits: &mut Waits, alloc: Global, need: &Need, place: usize) -> Result<(), OutOfMemory>
    ensures noted { OnOk result (HasRegistered waits.old.entries waits.new.entries (need.now ∷ []) place) }
    ensures err { OnErr result (SameNumbers waits.old.entries waits.new.entries) }
{
    let places = waits.entry(key_of(need))?.or_insert(Vec::new(alloc));
    match put_last(places, place) {
        Ok(()) => Ok(()),
        Err(OutOfMemory) => {
            drop_empty(waits, need);
            Err(OutOfMemory)
        }
    }
}

/// Puts a place last. Mostly some more follow it, so the first one gets room for them too.
fn put_last(places: &mut Vec<usize>, place: usize) -> Result<(), OutOfMemory>
    ensures put { OnOk result (places.new.items ≡ places.old.items ++ place ∷ []) }
    ensures same { OnErr result (places.new.items ≡ places.old.items) }
{
    if places.is_empty() {
        places.reserve(FIRST_ROOM)?;
    }
    Ok(places.push(place)?)
}

// Takes a need out for which no place waits.
fn drop_empty(waits: &mut Waits, need: &Need)
    ensures { SameNumbers waits.old.entries waits.new.entries }
{
    let key = key_of(need);
    let Some(places) = waits.get(&key) else {
        return;
    };
    if places.is_empty() {
        waits.remove(&key);
    }
}

// Takes the last place out of those that wait for a need.
fn take_last(waits: &mut Waits, need: &Need)
    ensures last { (n : Wanted) (rest : List ℕ) (place : ℕ) → need_eq need.now n ≡ true → numbers_at waits.old.entries n ≡ rest ++ place ∷ [] → numbers_at waits.new.entries n ≡ rest }
    ensures others { (n : Wanted) → need_eq need.now n ≡ false → numbers_at waits.new.entries n ≡ numbers_at waits.old.entries n }
{
    if let Some(places) = waits.get_mut(&key_of(need)) {
        places.pop();
    }
}

/// Notes that a place waits for each of the needs. Where there is no memory, it waits for none of them.
pub fn register(
    waits: &mut Waits,
    alloc: Global,
    needs: &[Need],
    place: usize,
) -> Result<(), OutOfMemory>
    ensures noted { OnOk result (HasRegistered waits.old.entries waits.new.entries needs.now place) }
    ensures err { OnErr result (SameNumbers waits.old.entries waits.new.entries) }
{
    for index in 0..needs.len() {
        if note(waits, alloc, &needs[index], place).is_err() {
            withdraw(waits, &needs[..index]);
            return Err(OutOfMemory);
        }
    }
    Ok(())
}

/// Takes back what was noted last: that a place waits for each of the needs.
pub fn withdraw(waits: &mut Waits, needs: &[Need])
    ensures { (before : List (Key × Numbers ℕ Memory)) (place : ℕ) → HasRegistered before waits.old.entries needs.now place → SameNumbers before waits.new.entries }
{
    for index in (0..needs.len()).rev() {
        take_last(waits, &needs[index]);
        drop_empty(waits, &needs[index]);
    }
}

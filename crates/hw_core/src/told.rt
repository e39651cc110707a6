//! Where in the journal evidence and endorsements stand.

ghost use Rattle.std.specs.Prelude.{◌≡◌, ◌<◌, ℕ, ◌∷◌, ◌++◌, [], true, false, List, length, slice_get, OnOk, OnErr, IfErr};
ghost use Rattle.hw_types.specs.declared.unit.Need.TheVariants as need;
ghost use Rattle.hw_endorse.specs.Told.{is_told, with_pair};
ghost use Rattle.hw_core.specs.declared.told.NotPut.TheVariants as NotPuts;
ghost use Rattle.hw_core.specs.Journal.{HasSamePlaces, HasOnePlaceMore};

use hw_admit::State;
use hw_endorse::Added;
use hw_park::{NeedKey, key_of};
use hw_types::{Endorsement, Need, OutOfMemory};
use std::alloc::Global;
use std::collections::BTreeMap;
use std::marker::Model;

/// Places in their order. The last one stands apart from those before it: mostly there is one, which takes no list.
#[derive(Drop)]
pub struct Places {
    earlier: Vec<u64>,
    last: Option<u64>,
}

impl Model for Places {
    ghost use Rattle.std.specs.Prelude.{ℕ, List};
    ghost use Rattle.hw_core.specs.Journal.{with_last};

    ghost Value = { List ℕ };

    ghost view = { λ p. with_last p.earlier.items p.last };
}

impl Places {
    /// No place.
    fn none(alloc: Global) -> Places
        ensures { result ≡ [] }
    {
        Places {
            earlier: Vec::new(alloc),
            last: None,
        }
    }

    /// The place that stands there, None where there are no more.
    pub fn get(&self, index: usize) -> Option<u64>
        ensures { result ≡ slice_get self.now index }
    {
        if index == self.earlier.len() {
            self.last
        } else {
            self.earlier.get(index).copied()
        }
    }

    /// Puts a place last. Where there is no memory, nothing has changed.
    fn put(&mut self, place: u64) -> Result<(), OutOfMemory>
        ensures put { OnOk result (self.new ≡ self.old ++ place ∷ []) }
        ensures same { OnErr result (self.new ≡ self.old) }
    {
        if let Some(last) = self.last {
            self.earlier.push(last)?;
        }
        self.last = Some(place);
        Ok(())
    }

    /// Takes the last place out.
    fn take_last(&mut self)
        ensures { (rest : List ℕ) (last : ℕ) → self.old ≡ rest ++ last ∷ [] → self.new ≡ rest }
    {
        if self.last.is_some() {
            self.last = None;
        } else {
            self.earlier.pop();
        }
    }

    /// Tells the state of an endorsement, and puts its place last. Where it is a repeat or there is no memory, nothing
    /// has changed.
    fn put_new(
        &mut self,
        state: &mut State,
        endorsement: &Endorsement,
        place: u64,
    ) -> Result<(), NotPut>
        requires { endorsement.now.endorser < length state.old.config.weights }
        ensures put { OnOk result (self.new ≡ self.old ++ place ∷ []) }
        ensures told { OnOk result (state.new ≡ record state.old { pairs = with_pair state.old.pairs endorsement.now.unit endorsement.now.endorser }) }
        ensures fresh { OnOk result (is_told state.old.pairs endorsement.now.unit endorsement.now.endorser ≡ false) }
        ensures same { OnErr result (self.new ≡ self.old) }
        ensures still { OnErr result (state.new ≡ state.old) }
        ensures repeat { IfErr result (λ why. why ≡ NotPut.Repeat → is_told state.old.pairs endorsement.now.unit endorsement.now.endorser ≡ true) }
    {
        self.put(place)?;
        match state.endorse(&endorsement.unit, endorsement.endorser) {
            Ok(Added::New) => Ok(()),
            Ok(Added::Repeat) => {
                self.take_last();
                Err(NotPut::Repeat)
            }
            Err(OutOfMemory) => {
                self.take_last();
                Err(NotPut::OutOfMemory)
            }
        }
    }
}

/// Why an endorsement isn't put.
#[derive(Clone, Copy)]
pub enum NotPut {
    /// The state knows of it.
    Repeat,
    OutOfMemory,
}

impl From<OutOfMemory> for NotPut {
    ghost from_gives = { λ _ why. why ≡ NotPuts.OutOfMemory };

    fn from(_error: OutOfMemory) -> NotPut {
        NotPut::OutOfMemory
    }
}

/// For each need the places of the vertices that tell of it. Peers choose the digests, so the table is an ordered one:
/// what it costs doesn't depend on them.
pub type Told = BTreeMap<NeedKey, Places>;

/// Puts a place last under a need. Where there is no memory, nothing has changed.
pub fn put_place(told: &mut Told, alloc: Global, need: &Need, place: u64) -> Result<(), OutOfMemory>
    ensures put { OnOk result (HasOnePlaceMore told.old.entries told.new.entries need.now place) }
    ensures same { OnErr result (HasSamePlaces told.old.entries told.new.entries) }
{
    let places = told.entry(key_of(need))?.or_insert(Places::none(alloc));
    places.put(place)
}

/// Tells the state of an endorsement, and puts its place last under the need of which it tells. That is looked up
/// once. Where it is a repeat or there is no memory, the same places stand under each need, and the state is as it was.
pub fn put_new_place(
    told: &mut Told,
    alloc: Global,
    state: &mut State,
    endorsement: &Endorsement,
    place: u64,
) -> Result<(), NotPut>
    requires { endorsement.now.endorser < length state.old.config.weights }
    ensures put { OnOk result (HasOnePlaceMore told.old.entries told.new.entries (need.Endorsed endorsement.now.unit) place) }
    ensures told { OnOk result (state.new ≡ record state.old { pairs = with_pair state.old.pairs endorsement.now.unit endorsement.now.endorser }) }
    ensures fresh { OnOk result (is_told state.old.pairs endorsement.now.unit endorsement.now.endorser ≡ false) }
    ensures same { OnErr result (HasSamePlaces told.old.entries told.new.entries) }
    ensures still { OnErr result (state.new ≡ state.old) }
    ensures repeat { IfErr result (λ why. why ≡ NotPut.Repeat → is_told state.old.pairs endorsement.now.unit endorsement.now.endorser ≡ true) }
{
    let need = Need::Endorsed(endorsement.unit);
    let Ok(entry) = told.entry(key_of(&need)) else {
        return Err(NotPut::OutOfMemory);
    };
    let places = entry.or_insert(Places::none(alloc));
    places.put_new(state, endorsement, place)
}

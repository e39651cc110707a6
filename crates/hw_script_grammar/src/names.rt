//! All definitions of a script, by name.

ghost use Rattle.std.specs.{Prelude.{◌≡◌, ◌++◌, ◌∷◌, [], IfOk, IfSome, OnOk}, Option.{option_copied}};
ghost use Rattle.hw_types.specs.Spelling.{Fits, digest_of};
ghost use Rattle.hw_script_grammar.specs.{Names.{NamedFits, named_as, is_taken, unit_as, digest_as, name_of, has_unit}, Places.{HasNoted, HasNotedDigest}};

use crate::named::Named;
use hw_types::{Digest, OutOfMemory, WireUnit};
use std::alloc::Global;
use std::collections::BTreeMap;
use std::marker::Model;

/// The definitions of the lines that were read, in order. Contracts see a list. Each vertex keeps the limits of its
/// format.
///
/// Look-ups use ordered maps, so no choice of names makes them slow.
#[derive(Drop)]
pub struct Names {
    items: Vec<Named>,
    /// The place in `items` of the first definition with each name.
    by_name: BTreeMap<Vec<u8>, usize>,
    /// The place in `items` of the first unit with each digest.
    by_digest: BTreeMap<Digest, usize>,
}

impl Model for Names {
    ghost use Rattle.std.specs.Prelude.{List};
    ghost use Rattle.hw_script_grammar.specs.{declared.named.Named.{Named}, Names.{AllFit}, Places.{KnowsNames, KnowsDigests}};

    ghost Value = { List Named };

    ghost view = { λ names. names.items.items };

    ghost invariant = { λ names. AllFit names.items.items × KnowsNames names.by_name.entries names.items.items × KnowsDigests names.by_digest.entries names.items.items };
}

impl Names {
    /// No definitions.
    pub(crate) fn new(alloc: Global) -> Names
        ensures { result ≡ [] }
    {
        Names {
            items: Vec::new(alloc),
            by_name: BTreeMap::new(alloc),
            by_digest: BTreeMap::new(alloc),
        }
    }

    /// The same, with one more definition at the end.
    pub(crate) fn with_definition(self, named: Named) -> Result<Names, OutOfMemory>
        requires { NamedFits named }
        ensures { IfOk result (λ names. names ≡ self ++ named ∷ []) }
    {
        let Names {
            mut items,
            mut by_name,
            mut by_digest,
        } = self;
        let place = items.len();
        note(&mut by_name, named.name.copy()?.into_vec(), place)?;
        note_digest(&mut by_digest, named.digest, place)?;
        items.push(named)?;
        Ok(Names {
            items,
            by_name,
            by_digest,
        })
    }

    /// The first definition with this name, if there is one.
    pub(crate) fn get(&self, name: &[u8]) -> Option<&Named>
        ensures named { option_copied result ≡ named_as self.now name.now }
        ensures fits { IfSome result (λ named. NamedFits named.now) }
    {
        let place = self.by_name.get(name)?;
        Some(&self.items[*place])
    }

    /// Whether there is a definition with this name.
    pub(crate) fn is_taken(&self, name: &[u8]) -> bool
        ensures { result ≡ is_taken self.now name.now }
    {
        self.by_name.contains_key(name)
    }

    /// The unit with this name, if there is one.
    #[tactic(auto, unfolding(crate::specs::Names::unit_as))]
    pub(crate) fn unit(&self, name: &[u8]) -> Option<&WireUnit>
        ensures unit { option_copied result ≡ unit_as self.now name.now }
        ensures fits { IfSome result (λ unit. Fits unit.now) }
    {
        match self.get(name) {
            None => None,
            Some(named) => named.unit(),
        }
    }

    /// The digest of the unit with this name, if there is one.
    #[tactic(auto, unfolding(crate::specs::Names::digest_as))]
    pub(crate) fn digest(&self, name: &[u8]) -> Option<Digest>
        ensures { result ≡ digest_as self.now name.now }
    {
        match self.get(name) {
            None => None,
            Some(named) => named.digest,
        }
    }

    /// The name of the unit with this digest. It is empty where there is none.
    pub fn name_of(&self, digest: &Digest) -> &[u8]
        ensures { result.now ≡ name_of self.now digest.now }
    {
        match self.by_digest.get(digest) {
            None => &[],
            Some(place) => self.items[*place].name.as_slice(),
        }
    }

    /// Whether this unit, which has this digest, is defined. It goes through the units only where one of them has the
    /// digest. So it goes through them at most once in a script where no two units share a digest.
    #[tactic(auto, unfolding(crate::specs::Names::has_unit))]
    pub(crate) fn has_unit(&self, unit: &WireUnit, digest: &Digest) -> bool
        requires { digest.now ≡ digest_of unit.now }
        ensures { result ≡ has_unit self.now unit.now }
    {
        self.by_digest.contains_key(digest) && self.items.iter().any(|named| named.is_unit(unit))
    }
}

/// Notes the place of a digest, where there is one.
fn note_digest(
    places: &mut BTreeMap<Digest, usize>,
    digest: Option<Digest>,
    place: usize,
) -> Result<(), OutOfMemory>
    ensures { OnOk result (HasNotedDigest places.old places.new digest place) }
{
    match digest {
        Some(digest) => note(places, digest, place),
        None => Ok(()),
    }
}

/// Notes the place of a key, unless the key has one.
fn note<K: Ord + Drop>(
    places: &mut BTreeMap<K, usize>,
    key: K,
    place: usize,
) -> Result<(), OutOfMemory>
    ensures { OnOk result (HasNoted K.cmp places.old places.new key place) }
{
    places.entry(key)?.or_insert(place);
    Ok(())
}

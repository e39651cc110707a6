//! Units of one creator and one sequence number that differ.

ghost use Rattle.std.specs.{Prelude.{◌≡◌, ◌<◌, ◌⊎◌, ◌↔◌, List, [], ◌∷◌, ◌++◌, length, true, false, Some, IsTrue, IfOk, OnOk}, Option.{option_copied}, Map.{lookup}};
ghost use Rattle.hw_types.specs.{Graph.{Node}, Culprits.{stands_before}};
ghost use Rattle.hw_audit.specs.Held.{HeldUnit, node_held};
ghost use Rattle.hw_audit.specs.Twins.{place_of, place_eq, Precedes, AreOne, IsLesser, AreTwins, AreTwinsAt, AreTwinsOfEach, HasTwins, IsLowered, AreNoted, AreShown, pair_in, IsPairOf};
ghost use Rattle.hw_safety.specs.Pairs.{lower_of};

use crate::held::Held;
use hw_codec::{encode_unit, unit_is_in_range};
use hw_types::{OutOfMemory, is_same_unit};
use std::alloc::Global;
use std::collections::HashMap;
use std::marker::Model;

/// The place of a unit: its creator and its sequence number.
#[derive(Clone, Copy, PartialEq, Eq, Hash)]
pub struct LanePlace {
    creator: u32,
    seq: u64,
}

/// The first unit of a place, by name and then by spelling, and the first of those that differ from it.
#[derive(Drop)]
pub struct Twins<'a> {
    first: &'a Held<'a>,
    second: Option<&'a Held<'a>>,
}

impl<'a> Model for Twins<'a> {
    ghost use Rattle.std.specs.Option.{option_map};
    ghost use Rattle.hw_audit.specs.Twins.{TwinUnits};

    ghost Value = { TwinUnits };

    ghost view = { λ f. record {
      first = f.first.now;
      second = option_map (λ h. h.now) f.second;
    } };
}

impl Held<'_> {
    /// Its place.
    fn place(&self) -> LanePlace
        ensures { result ≡ place_of self.now }
    {
        let unit = self.unit();
        LanePlace {
            creator: unit.creator,
            seq: unit.seq,
        }
    }
}

/// Whether the left unit comes before the right one, by name and then by spelling.
fn comes_before(alloc: Global, left: &Held<'_>, right: &Held<'_>) -> Result<bool, OutOfMemory>
    ensures before { IfOk result (λ before. before ≡ stands_before (node_held left.now) (node_held right.now)) }
    ensures behind { IfOk result (λ before. before ≡ false → AreOne left.now right.now ⊎ Precedes right.now left.now) }
{
    if left.name() == right.name() {
        // For the prover: units within the ranges of their types differ where their spellings do.
        unit_is_in_range(left.unit());
        unit_is_in_range(right.unit());
        let left = encode_unit(alloc, left.unit())?;
        let right = encode_unit(alloc, right.unit())?;
        return Ok(left.as_slice().cmp(right.as_slice()).is_lt());
    }
    Ok(left.name().comes_before(right.name()))
}

/// The one that comes before the other.
fn lesser<'a>(
    alloc: Global,
    known: &'a Held<'a>,
    unit: &'a Held<'a>,
) -> Result<&'a Held<'a>, OutOfMemory>
    ensures { IfOk result (λ h. IsLesser known.now unit.now h.now) }
{
    if comes_before(alloc, unit, known)? {
        Ok(unit)
    } else {
        Ok(known)
    }
}

impl<'a> Twins<'a> {
    fn first(&self) -> &'a Held<'a>
        ensures { result.now ≡ self.now.first }
    {
        self.first
    }

    fn second(&self) -> Option<&'a Held<'a>>
        ensures { option_copied result ≡ self.now.second }
    {
        self.second
    }

    /// Both, where there are two.
    fn pair(&self) -> Option<Pair<'a>>
        ensures { result ≡ pair_in (Some self.now) }
    {
        match self.second() {
            Some(second) => Some(Pair {
                first: self.first(),
                second,
            }),
            None => None,
        }
    }

    /// With one unit more of the place.
    fn with(&self, alloc: Global, unit: &'a Held<'a>) -> Result<Twins<'a>, OutOfMemory>
        ensures { IfOk result (λ f. (ys : List HeldUnit) → AreTwins ys self.now → AreTwins (ys ++ unit.now ∷ []) f) }
    {
        let first = self.first();
        if is_same_unit(first.unit(), unit.unit()) {
            return Ok(make_twins(first, self.second()));
        }
        if comes_before(alloc, unit, first)? {
            return Ok(make_twins(unit, Some(first)));
        }
        match self.second() {
            None => Ok(make_twins(first, Some(unit))),
            Some(second) => Ok(make_twins(first, Some(lesser(alloc, second, unit)?))),
        }
    }
}

/// These two units of a place.
fn make_twins<'a>(first: &'a Held<'a>, second: Option<&'a Held<'a>>) -> Twins<'a>
    ensures { result ≡ record { first = first.now; second = option_copied second.entry } }
{
    Twins { first, second }
}

/// The twins of each place.
type TwinsByPlace<'a> = HashMap<LanePlace, Twins<'a>>;

/// The twins of the unit's place, with this unit.
fn twins_with<'a>(
    alloc: Global,
    twins: &TwinsByPlace<'a>,
    unit: &'a Held<'a>,
) -> Result<Twins<'a>, OutOfMemory>
    ensures { IfOk result (λ f. (ys : List HeldUnit) → AreTwinsAt ys (lookup (place_eq (place_of unit.now)) twins.now.entries) → AreTwins (ys ++ unit.now ∷ []) f) }
{
    match twins.get(&unit.place()) {
        Some(known) => known.with(alloc, unit),
        None => Ok(make_twins(unit, None)),
    }
}

/// Notes one unit more, and says whether two different units are at its place now.
fn note_twins<'a>(
    alloc: Global,
    twins: &mut TwinsByPlace<'a>,
    unit: &'a Held<'a>,
) -> Result<bool, OutOfMemory>
    requires { unit.now.is_shown ≡ true }
    ensures twins { OnOk result ((units : List HeldUnit) → AreTwinsOfEach twins.old.entries units → AreTwinsOfEach twins.new.entries (units ++ unit.now ∷ [])) }
    ensures two { IfOk result (λ two. (units : List HeldUnit) → AreTwinsOfEach twins.old.entries units → IsTrue two ↔ HasTwins (units ++ unit.now ∷ []) (place_of unit.now)) }
{
    let known = twins_with(alloc, twins, unit)?;
    let two = known.second().is_some();
    twins.insert(unit.place(), known)?;
    Ok(two)
}

/// Lowers the validator's least number to this one, where this one is less or there is none.
fn lower(least: &mut Vec<Option<u64>>, creator: u32, seq: u64)
    ensures { IsLowered least.old.items least.new.items creator seq }
{
    let creator = creator as usize;
    if creator < least.len() {
        least[creator] = Some(lesser_number(least[creator], seq));
    }
}

fn lesser_number(known: Option<u64>, seq: u64) -> u64
    ensures { result ≡ lower_of known seq }
{
    match known {
        None => seq,
        Some(known) => known.min(seq),
    }
}

/// The units that two journals show, by creator and sequence number.
#[derive(Drop)]
pub struct Equivocations<'a> {
    twins: TwinsByPlace<'a>,
    /// The least number at which each validator has two different units.
    least: Vec<Option<u64>>,
}

/// Two different units of one creator and one number.
#[derive(Drop)]
pub struct Pair<'a> {
    first: &'a Held<'a>,
    second: &'a Held<'a>,
}

impl<'a> Model for Pair<'a> {
    ghost use Rattle.hw_audit.specs.Twins.{PairUnits};

    ghost Value = { PairUnits };

    ghost view = { λ p. record { first = p.first.now; second = p.second.now } };
}

impl<'a> Pair<'a> {
    /// The one that comes first, by name and then by spelling.
    pub fn first(&self) -> &'a Held<'a>
        ensures { result.now ≡ self.now.first }
    {
        self.first
    }

    /// The other.
    pub fn second(&self) -> &'a Held<'a>
        ensures { result.now ≡ self.now.second }
    {
        self.second
    }
}

impl<'a> Equivocations<'a> {
    /// No unit, of this many validators.
    fn new(alloc: Global, validators: usize) -> Result<Equivocations<'a>, OutOfMemory>
        ensures noted { IfOk result (λ e. AreNoted e.twins.entries e.least.items []) }
        ensures validators { IfOk result (λ e. length e.least.items ≡ validators) }
    {
        Ok(Equivocations {
            twins: HashMap::new(alloc),
            least: Vec::from_elem(alloc, None, validators)?,
        })
    }

    /// The units that are shown, of this many validators.
    pub fn of(
        alloc: Global,
        validators: usize,
        units: &'a [Held<'a>],
    ) -> Result<Equivocations<'a>, OutOfMemory>
        ensures noted { IfOk result (λ e. AreNoted e.twins.entries e.least.items units.now) }
        ensures validators { IfOk result (λ e. length e.least.items ≡ validators) }
    {
        let mut equivocations = Equivocations::new(alloc, validators)?;
        for unit in units {
            equivocations.note(alloc, unit)?;
        }
        Ok(equivocations)
    }

    /// Notes one unit more, where it is shown.
    fn note(&mut self, alloc: Global, unit: &'a Held<'a>) -> Result<(), OutOfMemory>
        ensures noted { OnOk result ((units : List HeldUnit) → AreNoted self.old.twins.entries self.old.least.items units → AreNoted self.new.twins.entries self.new.least.items (units ++ unit.now ∷ [])) }
        ensures validators { OnOk result (length self.new.least.items ≡ length self.old.least.items) }
    {
        if !unit.is_shown() {
            return Ok(());
        }
        if note_twins(alloc, &mut self.twins, unit)? {
            let place = unit.place();
            lower(&mut self.least, place.creator, place.seq);
        }
        Ok(())
    }

    /// The pair that shows the validator: at its least number with two different units, the first two by
    /// name and then by spelling. None where it didn't equivocate.
    pub fn pair_of(&self, validator: u32) -> Option<Pair<'a>>
        requires { validator < length self.now.least.items }
        ensures { (units : List HeldUnit) (nodes : List Node) → AreNoted self.now.twins.entries self.now.least.items units → AreShown units nodes → IsPairOf units nodes validator result }
    {
        match self.least[validator as usize] {
            Some(seq) => pair_at(
                &self.twins,
                &LanePlace {
                    creator: validator,
                    seq,
                },
            ),
            None => None,
        }
    }
}

/// The first two different units of the place.
fn pair_at<'a>(twins: &TwinsByPlace<'a>, place: &LanePlace) -> Option<Pair<'a>>
    ensures { result ≡ pair_in (lookup (place_eq place.now) twins.now.entries) }
{
    match twins.get(place) {
        Some(known) => known.pair(),
        None => None,
    }
}

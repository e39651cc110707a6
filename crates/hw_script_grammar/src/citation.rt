//! The citations of a unit: what it observes of each validator.

ghost use Rattle.std.specs.Prelude.{◌≡◌, map, length, slice_get, IfOk};
ghost use Rattle.hw_script_grammar.specs.{Words.{next_each}, Units.{citation_of, citations, unit_number}, Answers.{Gives}};

use crate::fault::Fault;
use crate::names::Names;
use crate::wording::is_word;
use crate::words::Words;
use hw_types::{Items, Obs, ObsList, OutOfMemory};
use std::alloc::{AllocError, Global};

/// What a unit observes of one validator.
#[derive(Clone, Copy, Debug, PartialEq, Eq)]
pub(crate) struct Citation {
    pub(crate) observation: Obs,
    /// The sequence number of the cited unit, where there is one.
    pub(crate) seq: Option<u64>,
}

/// Reads `cites` and one citation for each validator. `count` is the number of validators.
#[tactic(auto, unfolding(crate::specs::Units::citations))]
pub(crate) fn citations(
    alloc: Global,
    names: &Names,
    count: usize,
    words: &mut Words<'_>,
) -> Result<Items<Citation>, Fault>
    ensures list { Gives (λ list. (list, words.new)) result (citations names.now count words.old) }
    ensures count { IfOk result (λ list. length list ≡ count) }
{
    words.keyword("cites")?;
    next_citations(alloc, names, count, words)
}

/// Reads this many citations.
#[tactic(auto, using(crate::proofs::NextLaws::goes_on, crate::proofs::NextLaws::lacks, crate::proofs::NextLaws::stops, crate::proofs::NextLaws::is_done, crate::proofs::NextLaws::begins))]
fn next_citations(
    alloc: Global,
    names: &Names,
    count: usize,
    words: &mut Words<'_>,
) -> Result<Items<Citation>, Fault>
    ensures list { Gives (λ list. (list, words.new)) result (next_each (citation_of names.now) count words.old) }
    ensures count { IfOk result (λ list. length list ≡ count) }
{
    let mut list = Items::new(alloc);
    for _ in 0..count {
        let word = words.word()?;
        match citation_of(names, word) {
            Some(citation) => list.push(citation)?,
            None => return Err(Fault::Grammar),
        }
    }
    Ok(list)
}

/// The citation that a word spells: a dash, an exclamation mark, or the name of a unit.
#[tactic(auto, unfolding(crate::specs::Units::citation_of, crate::specs::Names::digest_as, crate::specs::Names::unit_as))]
fn citation_of(names: &Names, word: &[u8]) -> Option<Citation>
    ensures { result ≡ citation_of names.now word.now }
{
    if is_word(word, "-") {
        return Some(nothing_of(Obs::Absent));
    }
    if is_word(word, "!") {
        return Some(nothing_of(Obs::Faulty));
    }
    let named = names.get(word)?;
    let digest = named.digest?;
    let unit = named.unit()?;
    Some(Citation {
        observation: Obs::Correct(digest),
        seq: Some(unit.seq),
    })
}

/// A citation without a unit.
fn nothing_of(observation: Obs) -> Citation
    ensures { result ≡ record { observation = observation; seq = None } }
{
    Citation {
        observation,
        seq: None,
    }
}

/// The panorama of a unit with these citations.
pub(crate) fn panorama_of(alloc: Global, citations: &[Citation]) -> Result<ObsList, OutOfMemory>
    ensures { IfOk result (λ list. list ≡ map (λ c. c.observation) citations.now) }
{
    Ok(ObsList::from_vec(observations(alloc, citations)?).shared()?)
}

/// The observations of these citations.
fn observations(alloc: Global, citations: &[Citation]) -> Result<Vec<Obs>, AllocError>
    ensures { IfOk result (λ list. list.items ≡ map (λ c. c.observation) citations.now) }
{
    citations.iter().map(|c| c.observation).collect(alloc)
}

/// The sequence number of a unit: the given one, if any. Else the next one after the creator's own unit that it cites,
/// or 0 where it cites none. None where there is no next number.
#[tactic(auto, unfolding(crate::specs::Units::unit_number))]
pub(crate) fn unit_number(given: Option<u64>, creator: u32, citations: &[Citation]) -> Option<u64>
    ensures { result ≡ unit_number given (slice_get citations.now creator) }
{
    if given.is_some() {
        return given;
    }
    match citations.get(creator as usize) {
        None => Some(0),
        Some(own) => match own.seq {
            None => Some(0),
            Some(seq) => seq.checked_add(1),
        },
    }
}

//! What one line adds to a script: a definition or steps.

ghost use Rattle.std.specs.Prelude.{◌≡◌, None, IfOk, IfSome};
ghost use Rattle.hw_types.specs.{Limits.{config_fault}, Real.{setting_of}, Spelling.{instance_of}};
ghost use Rattle.hw_script_grammar.specs.Words.{each, one_or_more};
ghost use Rattle.hw_script_grammar.specs.Acts.{delivery_of, deliver_line, endorsements_of, endorse_line, shown_by, show_line, line_kind, adds_behind, line_adds, AddsFit};
ghost use Rattle.hw_script_grammar.specs.Fits.{ActFits};
ghost use Rattle.hw_script_grammar.specs.Answers.{Gives};

use crate::acts::{Act, Acts};
use crate::evidence::evidence_line;
use crate::fault::Fault;
use crate::lists::counts;
use crate::named::Named;
use crate::names::Names;
use crate::unit::{bytes_of, unit_line};
use crate::wording::is_word;
use crate::words::Words;
use hw_types::{Config, Digest, OutOfMemory};
use std::alloc::Global;

/// The kinds of lines after the settings, by their first word.
#[derive(Clone, Copy, Debug, PartialEq, Eq)]
pub(crate) enum LineKind {
    Unit,
    Evidence,
    Deliver,
    Endorse,
    Show,
}

/// What a line adds to a script.
#[derive(Drop)]
pub(crate) enum Adds {
    Definition(Named),
    Steps(Acts),
}

/// What the words of a line add. `Grammar` where the line is outside the grammar.
#[tactic(auto, unfolding(crate::specs::Acts::line_adds))]
pub(crate) fn line_adds(
    alloc: Global,
    config: &Config,
    instance: &Digest,
    names: &Names,
    words: &mut Words<'_>,
) -> Result<Adds, Fault>
    requires lawful { config_fault config.now ≡ None }
    requires instance { instance.now ≡ instance_of config.now }
    ensures adds { Gives (λ adds. adds) result (line_adds (setting_of config.now) names.now words.old) }
    ensures fits { IfOk result AddsFit }
{
    let word = words.word()?;
    match line_kind(word) {
        Some(kind) => adds_behind(alloc, config, instance, names, kind, words),
        None => Err(Fault::Grammar),
    }
}

/// The kind of a line by its first word.
#[tactic(auto, unfolding(crate::specs::Acts::line_kind))]
fn line_kind(word: &[u8]) -> Option<LineKind>
    ensures { result ≡ line_kind word.now }
{
    if is_word(word, "unit") {
        Some(LineKind::Unit)
    } else if is_word(word, "evidence") {
        Some(LineKind::Evidence)
    } else if is_word(word, "deliver") {
        Some(LineKind::Deliver)
    } else if is_word(word, "endorse") {
        Some(LineKind::Endorse)
    } else if is_word(word, "show") {
        Some(LineKind::Show)
    } else {
        None
    }
}

/// What a line of this kind adds, by its words after the first.
#[tactic(auto, unfolding(crate::specs::Acts::adds_behind))]
fn adds_behind(
    alloc: Global,
    config: &Config,
    instance: &Digest,
    names: &Names,
    kind: LineKind,
    words: &mut Words<'_>,
) -> Result<Adds, Fault>
    requires lawful { config_fault config.now ≡ None }
    requires instance { instance.now ≡ instance_of config.now }
    ensures adds { Gives (λ adds. adds) result (adds_behind (setting_of config.now) names.now kind words.old) }
    ensures fits { IfOk result AddsFit }
{
    match kind {
        LineKind::Unit => Ok(Adds::Definition(unit_line(alloc, config, instance, names, words)?)),
        LineKind::Evidence => Ok(Adds::Definition(evidence_line(alloc, names, words)?)),
        LineKind::Deliver => Ok(Adds::Steps(deliver_line(alloc, names, words)?)),
        LineKind::Endorse => Ok(Adds::Steps(endorse_line(alloc, names, words)?)),
        LineKind::Show => Ok(Adds::Steps(show_line(alloc, words)?)),
    }
}

/// Reads `NAME` once or more.
#[tactic(auto, using(crate::proofs::EachLaws::some_words, crate::proofs::EachLaws::no_words))]
fn deliver_line(alloc: Global, names: &Names, words: &mut Words<'_>) -> Result<Acts, Fault>
    ensures { Gives (λ acts. acts) result (deliver_line names.now words.old) }
{
    if words.is_end() {
        return Err(Fault::Grammar);
    }
    each_delivery(alloc, names, words)
}

/// The deliveries of the definitions that the words name.
#[tactic(auto, using(crate::proofs::EachLaws::goes_on, crate::proofs::EachLaws::stops, crate::proofs::EachLaws::is_done, crate::proofs::EachLaws::begins))]
fn each_delivery(alloc: Global, names: &Names, words: &mut Words<'_>) -> Result<Acts, Fault>
    ensures { Gives (λ acts. acts) result (each (delivery_of names.now) words.old) }
{
    let mut acts = Acts::new(alloc);
    while let Some(word) = words.next() {
        acts.push(delivery_of(names, word)?)?;
    }
    Ok(acts)
}

/// The delivery of the definition under this name, where there is one.
#[tactic(auto, unfolding(crate::specs::Acts::delivery_of))]
fn delivery_of(names: &Names, word: &[u8]) -> Result<Act, Fault>
    ensures act { Gives (λ act. act) result (delivery_of names.now word.now) }
    ensures fits { IfOk result ActFits }
{
    match names.get(word) {
        Some(named) => Ok(Act::Deliver(named.copy()?)),
        None => Err(Fault::Grammar),
    }
}

/// Reads `NAME by V`, with one or more validators `V`.
#[tactic(auto, unfolding(crate::specs::Acts::endorse_line))]
fn endorse_line(alloc: Global, names: &Names, words: &mut Words<'_>) -> Result<Acts, Fault>
    ensures { Gives (λ acts. acts) result (endorse_line names.now words.old) }
{
    let name = words.word()?;
    let Some(digest) = names.digest(name) else {
        return Err(Fault::Grammar);
    };
    words.keyword("by")?;
    let validators = counts(alloc, words)?;
    Ok(endorsements_of(alloc, name, digest, validators.as_slice())?)
}

/// One step for each of these validators, which endorses the unit with this name and digest.
#[tactic(auto, using(crate::proofs::ActLaws::one_endorsement))]
fn endorsements_of(
    alloc: Global,
    name: &[u8],
    digest: Digest,
    validators: &[u32],
) -> Result<Acts, OutOfMemory>
    ensures { IfOk result (λ acts. acts ≡ endorsements_of name.now digest validators.now) }
{
    let mut acts = Acts::new(alloc);
    for validator in validators {
        acts.push(Act::Endorse(bytes_of(alloc, name)?, digest, *validator))?;
    }
    Ok(acts)
}

/// Reads one of the four words that name what a line shows.
#[tactic(auto, unfolding(crate::specs::Acts::show_line))]
fn show_line(alloc: Global, words: &mut Words<'_>) -> Result<Acts, Fault>
    ensures { Gives (λ acts. acts) result (show_line words.old) }
{
    let word = words.word()?;
    let Some(act) = shown_by(word) else {
        return Err(Fault::Grammar);
    };
    words.end()?;
    let mut acts = Acts::new(alloc);
    acts.push(act)?;
    Ok(acts)
}

/// The step that the word names, where it is one of those.
#[tactic(auto, unfolding(crate::specs::Acts::shown_by))]
fn shown_by(word: &[u8]) -> Option<Act>
    ensures act { result ≡ shown_by word.now }
    ensures fits { IfSome result ActFits }
{
    if is_word(word, "fork") {
        Some(Act::ShowFork)
    } else if is_word(word, "panorama") {
        Some(Act::ShowPanorama)
    } else if is_word(word, "faulty") {
        Some(Act::ShowFaulty)
    } else if is_word(word, "final") {
        Some(Act::ShowFinal)
    } else {
        None
    }
}

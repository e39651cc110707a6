//! The list of endorsed units that a unit relies on.

ghost use Rattle.std.specs.Prelude.{◌≡◌, ◌+◌, ◌≤◌, length, not, position, IfOk, OnOk};
ghost use Rattle.hw_types.specs.Graph.{digest_lt};
ghost use Rattle.hw_script_grammar.specs.{Names.{digest_as}, Units.{put_digest, in_order, endorsed_names, unit_endorsed}, Answers.{Gives}};

use crate::fault::Fault;
use crate::lists::{Meaning, one_or_more};
use crate::names::Names;
use crate::words::Words;
use hw_types::{Digest, DigestList, MAX_LIST, OutOfMemory};
use std::alloc::Global;

/// Reads `endorsed` and one or more names, up to the end of the line. They may be left out.
#[tactic(auto, unfolding(crate::specs::Units::unit_endorsed))]
pub(crate) fn unit_endorsed(
    alloc: Global,
    names: &Names,
    words: &mut Words<'_>,
) -> Result<DigestList, Fault>
    ensures list { Gives (λ list. list) result (unit_endorsed names.now words.old) }
    ensures fits { IfOk result (λ list. length list ≤ 256) }
{
    if words.is_end() {
        return Ok(DigestList::new(alloc));
    }
    words.keyword("endorsed")?;
    endorsed_names(alloc, names, words)
}

/// Reads 1 to 256 names, and answers their digests in rising order.
#[tactic(auto, unfolding(crate::specs::Units::endorsed_names))]
fn endorsed_names(alloc: Global, names: &Names, words: &mut Words<'_>) -> Result<DigestList, Fault>
    ensures list { Gives (λ list. list) result (endorsed_names names.now words.old) }
    ensures fits { IfOk result (λ list. length list ≤ 256) }
{
    let list = one_or_more(alloc, &DigestOf { names }, words)?;
    if list.len() > MAX_LIST {
        return Err(Fault::Grammar);
    }
    Ok(in_order(alloc, list.as_slice())?)
}

/// Each word is the name of a unit, and means the digest of this unit.
#[derive(Clone, Copy)]
struct DigestOf<'a> {
    names: &'a Names,
}

impl Meaning for DigestOf<'_> {
    type Item = Digest;

    ghost of = { λ digest. digest_as digest.names.now };

    fn read(&self, word: &[u8]) -> Result<Digest, Fault> {
        self.names.digest(word).ok_or(Fault::Grammar)
    }
}

/// These digests in rising order.
#[tactic(auto, using(crate::proofs::OrderLaws::one_more))]
fn in_order(alloc: Global, digests: &[Digest]) -> Result<DigestList, OutOfMemory>
    ensures order { IfOk result (λ list. list ≡ in_order digests.now) }
    ensures count { IfOk result (λ list. length list ≡ length digests.now) }
{
    let mut list = Vec::new(alloc);
    for digest in digests {
        put_digest(&mut list, *digest)?;
    }
    Ok(DigestList::from_vec(list))
}

/// Inserts a digest before the first one that isn't less.
#[tactic(auto, using(crate::proofs::OrderLaws::put_last, crate::proofs::OrderLaws::put_there))]
fn put_digest(list: &mut Vec<Digest>, digest: Digest) -> Result<(), OutOfMemory>
    ensures order { OnOk result (list.new.items ≡ put_digest digest list.old.items) }
    ensures count { OnOk result (length list.new.items ≡ length list.old.items + 1) }
{
    match first_not_less(list, &digest) {
        None => list.push(digest)?,
        Some(place) => list.insert(place, digest)?,
    }
    Ok(())
}

/// The place of the first digest that isn't less.
fn first_not_less(list: &[Digest], digest: &Digest) -> Option<usize>
    ensures { result ≡ position (λ e. not (digest_lt e digest.now)) list.now }
{
    list.iter().position(|other| !other.comes_before(digest))
}

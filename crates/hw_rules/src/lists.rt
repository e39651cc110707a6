//! Lists of digests.

ghost use Rattle.std.specs.{Prelude.{◌≡◌, ◌<◌, ◌≤◌, ◌↔◌, true, length, IsTrue, IfSome}, List.{list_all}};
ghost use Rattle.hw_types.specs.Rules.{has_digest, is_rising};

use hw_types::Digest;

/// Whether each digest is above the one before.
pub fn rises(digests: &[Digest]) -> bool
    ensures { result ≡ is_rising digests.now }
{
    for pair in digests.windows(2) {
        if !pair[0].comes_before(&pair[1]) {
            return false;
        }
    }
    true
}

/// Whether each of the other digests is among the own ones. Mostly the lists are equal. Else both rise,
/// so that each digest is looked for behind the one before it.
pub fn has_all(own: &[Digest], others: &[Digest]) -> bool
    ensures { result ≡ list_all (has_digest own.now) others.now }
{
    if is_same(own, others) {
        return true;
    }
    let mut from = 0;
    for digest in others {
        match place_from(own, from, digest) {
            Some(place) => from = place + 1,
            None if has(own, digest) => {}
            None => return false,
        }
    }
    true
}

/// Whether the lists are equal.
#[tactic(auto, using(hw_types::proofs::Equal::digest_list_exact))]
pub fn is_same(left: &[Digest], right: &[Digest]) -> bool
    ensures { IsTrue result ↔ (left.now ≡ right.now) }
{
    left == right
}

/// A place of the digest among the own ones, from there on.
fn place_from(own: &[Digest], from: usize, digest: &Digest) -> Option<usize>
    ensures inside { IfSome result (λ place. place < length own.now) }
    ensures has { IfSome result (λ place. has_digest own.now digest.now ≡ true) }
{
    let rest = own.get(from..)?;
    let place = rest.iter().position(|other| *digest == *other)?;
    Some(from + place)
}

/// Whether the digest is among the own ones.
fn has(own: &[Digest], digest: &Digest) -> bool
    ensures { result ≡ has_digest own.now digest.now }
{
    own.iter().any(|other| *digest == *other)
}

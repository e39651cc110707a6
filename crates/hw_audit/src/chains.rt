//! Where two chains of decided blocks part.

ghost use Rattle.std.specs.Prelude.{◌≡◌};
ghost use Rattle.hw_audit.specs.Chains.{first_apart, parting_of};

use hw_types::Digest;

/// A height at which two chains have different blocks.
#[derive(Clone, Copy)]
pub struct Parting {
    pub height: usize,
    pub left: Digest,
    pub right: Digest,
}

/// The least height at which the two chains have different blocks, with both blocks. None where one begins the
/// other.
pub fn first_parting(left: &[Digest], right: &[Digest]) -> Option<Parting>
    ensures { result ≡ parting_of left.now right.now }
{
    let height = first_apart(left, right)?;
    match (left.get(height), right.get(height)) {
        (Some(left), Some(right)) => Some(Parting {
            height,
            left: *left,
            right: *right,
        }),
        _ => None,
    }
}

/// The least height at which both chains have a block and the two differ.
fn first_apart(left: &[Digest], right: &[Digest]) -> Option<usize>
    ensures { result ≡ first_apart left.now right.now }
{
    left.iter().zip(right).position(|(l, r)| l != r)
}

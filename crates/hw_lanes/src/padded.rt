//! The blocks of a message with its padding (FIPS 180-4, 5.1.1), with no copy of the whole ones.

ghost use Rattle.std.specs.Prelude.{◌≡◌, ◌+◌, ◌^◌, ◌<◌, ◌≤◌, length};
ghost use Rattle.hw_lanes.specs.Padded.{IsTail, block_at, block_count};

const BLOCK_LEN: usize = 64;

/// How many bytes of a block may be used where its end still has room for the padding.
const ROOMY: usize = 56;

/// How many blocks follow the whole ones: the padding takes 9 bytes at least.
fn tail_count(used: usize) -> usize
    requires { used < 64 }
    ensures small { used < 56 → result ≡ 1 }
    ensures large { 56 ≤ used → result ≡ 2 }
{
    if used < ROOMY { 1 } else { 2 }
}

/// How many blocks the message has with its padding.
pub(crate) fn block_count(message: &[u8]) -> usize
    ensures value { result ≡ block_count message.now }
    ensures small { result < 2 ^ 60 }
{
    message.len() / BLOCK_LEN + tail_count(message.len() % BLOCK_LEN)
}

/// The blocks after the whole ones, of which there are one or two.
pub(crate) fn tail(message: &[u8]) -> [u8; 128]
    ensures { IsTail message.now result }
{
    let used = message.len() % BLOCK_LEN;
    let end = BLOCK_LEN * tail_count(used);
    let bit_len = (message.len() as u64).wrapping_mul(8);
    let mut out = [0u8; 128];
    out[..used].copy_from_slice(&message[message.len() - used..]);
    out[used] = 0x80;
    out[end - 8..end].copy_from_slice(&bit_len.to_be_bytes());
    out
}

/// Block `i` of the message with its padding. Past the end it is some block of the tail.
#[inline(always)]
pub(crate) fn block<'a>(message: &'a [u8], tail: &'a [u8; 128], i: usize) -> &'a [u8]
    requires { IsTail message.now tail.now }
    ensures long { length result.now ≡ 64 }
    ensures value { i < block_count message.now → result.now ≡ block_at message.now i }
{
    let whole = message.len() / BLOCK_LEN;
    if i < whole {
        &message[BLOCK_LEN * i..BLOCK_LEN * i + BLOCK_LEN]
    } else if i == whole {
        &tail[..BLOCK_LEN]
    } else {
        &tail[BLOCK_LEN..]
    }
}

//! What lists are made of: how one item is read and written, and how many are.

ghost use Rattle.std.specs.{Prelude.{◌≡◌, ◌≤◌, ◌<◌, ◌^◌, ◌/◌, ◌∷◌, ◌++◌, [], length, IfOk, OnOk, vec_capacity}, Int.{w32, w64}};
ghost use Rattle.hw_types.specs.{Reading.{Gives, number_at, digest_at, many_at, counted_at}, Spelling.{counted, u32_bytes, u64_bytes}};
ghost use Rattle.std.proofs.Common.{lit<};

use crate::reader::Reader;
use hw_types::{CodecError, Digest, Items, OutOfMemory};
use std::alloc::Global;

/// An item of a list: how its bytes are read and written.
pub trait Field: Copy {
    ghost use Rattle.std.specs.Prelude.{ℕ, List};
    ghost use Rattle.hw_types.specs.Reading.{Rest, Read};

    /// How it is read.
    ghost at: { Rest → Read Self };

    /// Its one spelling.
    ghost spelling: { Self → List ℕ };

    ghost LEAST: { ℕ };

    /// The fewest bytes that one has.
    const LEAST: usize;

    /// Reads one. The error is that of the first field that is refused, with its place, or `OutOfMemory`.
    fn read(reader: &mut Reader<'_>) -> Result<Self, CodecError>
        ensures { Gives (λ item. (item, reader.new)) result (at reader.old) };

    /// How many bytes it has.
    fn len(&self) -> usize;

    /// Writes one behind what stands in `out`.
    fn put(&self, out: &mut Vec<u8>) -> Result<(), OutOfMemory>
        ensures { OnOk result (out.new.items ≡ out.old.items ++ spelling self.now) };

    /// It has some bytes.
    ghost has_bytes: { 0 < LEAST };
}

/// An empty list with room for as many items as are wanted and fit in the bytes that are left.
fn room_for<T>(alloc: Global, count: u32, left: usize, least: usize) -> Result<Vec<T>, OutOfMemory>
    requires { 0 < least }
    ensures empty { IfOk result (λ list. list.items ≡ []) }
    ensures wanted { IfOk result (λ list. vec_capacity list ≤ count) }
    ensures held { IfOk result (λ list. vec_capacity list ≤ left / least) }
{
    let fitting = left / least;
    Ok(Vec::with_capacity(alloc, fitting.min(count as usize))?)
}

/// Reads so many items.
fn many<F: Field>(
    alloc: Global,
    count: u32,
    reader: &mut Reader<'_>,
) -> Result<Items<F>, CodecError>
    ensures { Gives (λ list. (list, reader.new)) result (many_at F.at count reader.old) }
{
    let mut list = Items::from_vec(room_for(alloc, count, reader.left(), F::LEAST)?);
    for _ in 0..count {
        list.push(F::read(reader)?)?;
    }
    Ok(list)
}

/// Reads a count of four bytes that is at most the limit, and so many items.
///
/// Where the count is above, `TooLong` has its place; other errors are those of a field. Room is made for no
/// more items than the bytes that are left can hold.
#[tactic(auto, unfolding(hw_types::specs::Reading::counted_at))]
pub fn read_list<F: Field>(
    alloc: Global,
    limit: u32,
    reader: &mut Reader<'_>,
) -> Result<Items<F>, CodecError>
    ensures { Gives (λ list. (list, reader.new)) result (counted_at F.at limit reader.old) }
{
    let count = reader.count(limit)?;
    many(alloc, count, reader)
}

/// How many bytes a list has with its count.
pub(crate) fn list_len<F: Field>(list: &[F]) -> usize {
    let mut len: usize = 4;
    for item in list {
        len = len.saturating_add(item.len());
    }
    len
}

/// Writes in four bytes how many items there are, and each of them, behind what stands in `out`.
///
/// There are fewer than 2^32.
pub fn put_list<F: Field>(list: &[F], out: &mut Vec<u8>) -> Result<(), OutOfMemory>
    requires { length list.now < 2 ^ 32 }
    ensures { OnOk result (out.new.items ≡ out.old.items ++ counted F.spelling list.now) }
{
    out.extend_from_slice(&(list.len() as u32).to_be_bytes())?;
    for item in list {
        item.put(out)?;
    }
    Ok(())
}

/// Writes a tag and one field behind what stands in `out`.
pub(crate) fn put_tagged<F: Field>(tag: u8, field: &F, out: &mut Vec<u8>) -> Result<(), OutOfMemory>
    ensures { OnOk result (out.new.items ≡ out.old.items ++ (tag ∷ F.spelling field.now)) }
{
    out.push(tag)?;
    field.put(out)
}

impl Field for u32 {
    ghost at = { number_at w32 };

    ghost spelling = { u32_bytes };

    ghost LEAST = { 4 };

    ghost has_bytes = { lit< tt };

    const LEAST: usize = 4;

    fn read(reader: &mut Reader<'_>) -> Result<u32, CodecError> {
        reader.u32()
    }

    fn len(&self) -> usize {
        4
    }

    fn put(&self, out: &mut Vec<u8>) -> Result<(), OutOfMemory> {
        Ok(out.extend_from_slice(&self.to_be_bytes())?)
    }
}

impl Field for u64 {
    ghost at = { number_at w64 };

    ghost spelling = { u64_bytes };

    ghost LEAST = { 8 };

    ghost has_bytes = { lit< tt };

    const LEAST: usize = 8;

    fn read(reader: &mut Reader<'_>) -> Result<u64, CodecError> {
        reader.u64()
    }

    fn len(&self) -> usize {
        8
    }

    fn put(&self, out: &mut Vec<u8>) -> Result<(), OutOfMemory> {
        Ok(out.extend_from_slice(&self.to_be_bytes())?)
    }
}

impl Field for Digest {
    ghost at = { digest_at };

    ghost spelling = { λ digest. digest.0 };

    ghost LEAST = { 32 };

    ghost has_bytes = { lit< tt };

    const LEAST: usize = 32;

    fn read(reader: &mut Reader<'_>) -> Result<Digest, CodecError> {
        reader.digest()
    }

    fn len(&self) -> usize {
        32
    }

    fn put(&self, out: &mut Vec<u8>) -> Result<(), OutOfMemory> {
        Ok(out.extend_from_slice(&self.0)?)
    }
}

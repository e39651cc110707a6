//! The verdict as text.

ghost use Rattle.std.specs.{Prelude.{◌≡◌, ◌++◌, IfOk, OnOk}, List.{flat_map}};
ghost use Rattle.hex.specs.Hex.{encode_lower};
ghost use Rattle.hw_text.specs.Text.{digest_text};
ghost use Rattle.hw_audit.specs.Text.{status_of, name_in, culprit_line, agree_line, height_words, block_words, conflict_line, weight_line, clash_lines, audit_text};

use hw_codec::SIGNATURE_LENGTH;
use hw_safety::Verdict;
use hw_text::{end_line, put_digest, put_numbered, put_word};
use hw_types::{Bytes, Config, Culprit, Digest, OutOfMemory};
use sha2::{Digest as _, Sha256};
use std::alloc::Global;

/// The status with which a program ends whose audit reports that the nodes agree.
pub const AGREE: u8 = 0;

/// The status with which a program ends whose audit reports a conflict.
pub const CONFLICT: u8 = 3;

/// The status with which a program ends whose audit reports a clash.
const CLASH: u8 = 9;

/// The status of a program whose audit reports this verdict. It is 0 where the nodes agree, 3 where they are in
/// conflict, and 9 where two different units have one digest.
pub fn status_of(verdict: &Verdict) -> u8
    ensures { result ≡ status_of verdict.now }
{
    match verdict {
        Verdict::Agree { .. } => AGREE,
        Verdict::Conflict { .. } => CONFLICT,
        Verdict::Clash { .. } => CLASH,
    }
}

/// What an audit of two nodes of this configuration prints.
pub fn audit_text(alloc: Global, verdict: &Verdict, config: &Config) -> Result<Bytes, OutOfMemory>
    ensures { IfOk result (λ text. text ≡ audit_text config.now.ftt verdict.now) }
{
    let mut out = Bytes::new(alloc);
    match verdict {
        Verdict::Agree { common } => put_agree(&mut out, *common)?,
        Verdict::Conflict {
            height,
            left,
            right,
            culprits,
            weight,
        } => {
            put_conflict(&mut out, *height, left, right)?;
            put_culprits(&mut out, culprits.as_slice())?;
            put_weight(&mut out, *weight, config.ftt)?;
        }
        Verdict::Clash { left, right } => put_clash(alloc, &mut out, left, right)?,
    }
    Ok(out)
}

#[tactic(auto, using(std::proofs::Common::append_assoc), unfolding(crate::specs::Text::agree_line))]
fn put_agree(out: &mut Bytes, common: u64) -> Result<(), OutOfMemory>
    ensures { OnOk result (out.new ≡ out.old ++ agree_line common) }
{
    put_numbered(out, "agree ", common)?;
    end_line(out)
}

#[tactic(auto, using(std::proofs::Common::append_assoc), unfolding(crate::specs::Text::conflict_line))]
fn put_conflict(
    out: &mut Bytes,
    height: u64,
    left: &Digest,
    right: &Digest,
) -> Result<(), OutOfMemory>
    ensures { OnOk result (out.new ≡ out.old ++ conflict_line height left.now right.now) }
{
    put_height(out, height)?;
    put_blocks(out, left, right)?;
    end_line(out)
}

#[tactic(auto, unfolding(crate::specs::Text::height_words))]
fn put_height(out: &mut Bytes, height: u64) -> Result<(), OutOfMemory>
    ensures { OnOk result (out.new ≡ out.old ++ height_words height) }
{
    put_numbered(out, "conflict height ", height)
}

#[tactic(auto, using(std::proofs::Common::append_assoc), unfolding(crate::specs::Text::block_words))]
fn put_blocks(out: &mut Bytes, left: &Digest, right: &Digest) -> Result<(), OutOfMemory>
    ensures { OnOk result (out.new ≡ out.old ++ block_words left.now right.now) }
{
    put_named(out, " left ", left)?;
    put_named(out, " right ", right)
}

/// Puts the word and then the digest last.
#[tactic(auto, using(std::proofs::Common::append_assoc))]
fn put_named(out: &mut Bytes, word: &str, digest: &Digest) -> Result<(), OutOfMemory>
    ensures { OnOk result (out.new ≡ out.old ++ (word.now ++ digest_text digest.now)) }
{
    put_word(out, word)?;
    put_digest(out, digest)
}

fn put_culprits(out: &mut Bytes, culprits: &[Culprit]) -> Result<(), OutOfMemory>
    ensures { OnOk result (out.new ≡ out.old ++ flat_map culprit_line culprits.now) }
{
    for culprit in culprits {
        put_culprit(out, culprit)?;
    }
    Ok(())
}

#[tactic(auto, using(std::proofs::Common::append_assoc), unfolding(crate::specs::Text::culprit_line))]
fn put_culprit(out: &mut Bytes, culprit: &Culprit) -> Result<(), OutOfMemory>
    ensures { OnOk result (out.new ≡ out.old ++ culprit_line culprit.now) }
{
    put_numbered(out, "culprit ", u64::from(culprit.validator))?;
    put_named(out, " ", &name_in(&culprit.first))?;
    put_named(out, " ", &name_in(&culprit.second))?;
    end_line(out)
}

/// The name of the unit that the bytes spell with its signature.
fn name_in(signed: &Bytes) -> Digest
    ensures { result ≡ name_in signed.now }
{
    let signed = signed.as_slice();
    let unit = &signed[..signed.len().saturating_sub(SIGNATURE_LENGTH)];
    Digest(Sha256::digest(unit))
}

#[tactic(auto, using(std::proofs::Common::append_assoc), unfolding(crate::specs::Text::weight_line))]
fn put_weight(out: &mut Bytes, weight: u64, ftt: u64) -> Result<(), OutOfMemory>
    ensures { OnOk result (out.new ≡ out.old ++ weight_line weight ftt) }
{
    put_numbered(out, "weight ", weight)?;
    put_numbered(out, " above ", ftt)?;
    end_line(out)
}

#[tactic(auto, using(std::proofs::Common::append_assoc), unfolding(crate::specs::Text::clash_lines))]
fn put_clash(alloc: Global, out: &mut Bytes, left: &Bytes, right: &Bytes) -> Result<(), OutOfMemory>
    ensures { OnOk result (out.new ≡ out.old ++ clash_lines left.now right.now) }
{
    put_word(out, "clash")?;
    end_line(out)?;
    put_hex(alloc, out, left)?;
    end_line(out)?;
    put_hex(alloc, out, right)?;
    end_line(out)
}

/// Puts two lower-case hexadecimal digits for each byte last.
fn put_hex(alloc: Global, out: &mut Bytes, bytes: &Bytes) -> Result<(), OutOfMemory>
    ensures { OnOk result (out.new ≡ out.old ++ encode_lower bytes.now) }
{
    let digits = hex::encode(alloc, bytes.as_slice())?;
    put_word(out, digits.as_str())
}

//! What is told of a certificate that no log is held against.
ghost use Rattle.std.specs.Prelude.{◌≡◌, None};
ghost use Rattle.hw_types.specs.Limits.{config_fault};

use hw_codec::decode_config;
use hw_text::put_digest;
use hw_types::{Bytes, Digest, OutOfMemory};
use sha2::{Digest as _, Sha256};
use std::alloc::Global;
use std::io::Read;
use std::{fs, io, str};

/// The length of what stands in front of the configuration: `HWCT`, the version, and the configuration's length.
const FRONT: usize = 9;

/// A configuration has at most this many bytes.
const LONGEST: usize = 1_048_576;

/// Tells which instance a certificate is of, and what its validators weigh, and that both are what the certificate
/// says. Where it can't be read, nothing is told: what is wrong with it is the command's to say.
pub fn tell_origin(rt: HostRuntime, name: &str) {
    if let Some((instance, total)) = origin(rt, rt.alloc(), name) {
        if let Ok(instance) = str::from_utf8(instance.as_slice()) {
            let _ = eprintln!(rt;
                "highway: {name}: instance {instance}, weights {total} in all. They are the certificate's own: whether they are those of your network, only `check FILE KEYS LOG` says"
            );
        }
    }
}

/// The instance in hexadecimal digits, and the weight of all validators.
fn origin(rt: HostRuntime, alloc: Global, name: &str) -> Option<(Bytes, u64)> {
    let bytes = beginning(rt, alloc, name).ok()?;
    let front: [u8; 4] = bytes.as_slice().get(5..FRONT)?.try_into().ok()?;
    let end = FRONT.checked_add(usize::try_from(u32::from_be_bytes(front)).ok()?)?;
    let spelled = bytes.as_slice().get(FRONT..end)?;
    let config = decode_config(alloc, spelled).ok()?;
    if config.check().is_err() {
        return None;
    }
    let instance = hex_of(alloc, &Digest(Sha256::digest(spelled))).ok()?;
    Some((instance, config.total()))
}

/// The digits of a digest.
fn hex_of(alloc: Global, digest: &Digest) -> Result<Bytes, OutOfMemory> {
    let mut digits = Bytes::new(alloc);
    put_digest(&mut digits, digest)?;
    Ok(digits)
}

/// The first bytes of a plain file, up to the longest configuration. Other files, as a pipe, give their bytes only once.
fn beginning(rt: HostRuntime, alloc: Global, name: &str) -> io::Result<Vec<u8>> {
    if !fs::metadata(&rt, name)?.is_file() {
        return Err(io::ErrorKind::InvalidInput.into());
    }
    let mut bytes = Vec::new(alloc);
    fs::open(&rt, name)?
        .take((FRONT + LONGEST) as u64)
        .read_to_end(&mut bytes)?;
    Ok(bytes)
}

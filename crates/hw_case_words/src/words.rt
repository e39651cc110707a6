//! Lists of words, and words as names.

use crate::answer::Answer;
use hw_types::{Digest, Signature};
use std::alloc::Global;

/// The words after this one, none where it isn't there.
pub fn after<'a, 'b>(words: &'a [&'b str], key: &str) -> &'a [&'b str] {
    match words {
        [first, rest @ ..] => {
            if *first == key {
                rest
            } else {
                after(rest, key)
            }
        }
        [] => words,
    }
}

/// The number that the word spells, or 0.
pub fn number(word: &str) -> u64 {
    word.parse().unwrap_or(0)
}

/// The smaller number that the word spells, or 0.
pub fn small(word: &str) -> u32 {
    word.parse().unwrap_or(0)
}

/// The byte that the word spells, or 0.
pub fn byte(word: &str) -> u8 {
    word.parse().unwrap_or(0)
}

/// The number after this word, else 0.
pub fn number_of(words: &[&str], key: &str) -> u64 {
    match after(words, key) {
        [number, ..] => number.parse().unwrap_or(0),
        [] => 0,
    }
}

/// Whether the citations or the endorsed names of a unit end at this word.
pub fn is_key(word: &str) -> bool {
    matches!(word, "block" | "endorsed" | "exp" | "number" | "foreign")
}

/// The words up to such a one.
pub fn until_key<'a, 'b>(words: &'a [&'b str]) -> &'a [&'b str] {
    for (place, word) in words.iter().enumerate() {
        if is_key(word) {
            return &words[..place];
        }
    }
    words
}

/// A digest of which each byte is this one.
pub fn digest_of_byte(byte: u8) -> Digest {
    Digest([byte; 32])
}

/// A signature of zeros.
pub fn no_signature() -> Signature {
    Signature([0; 32])
}

/// A word of up to 32 bytes as a digest.
pub fn named(word: &str) -> Digest {
    let mut bytes = [0; 32];
    for (place, byte) in word.bytes().enumerate() {
        bytes[place % 32] = byte;
    }
    Digest(bytes)
}

/// A digest of which each byte is this one, but for the four of the number from this place on.
pub fn digest_with(byte: u8, place: usize, number: u32) -> Digest {
    let mut bytes = [byte; 32];
    for (offset, part) in number.to_be_bytes().as_slice().iter().enumerate() {
        bytes[place.saturating_add(offset) % 32] = *part;
    }
    Digest(bytes)
}

/// Puts bytes at places, as the words `place:byte` between commas say.
pub fn patch(bytes: &mut [u8], patches: &str) {
    for word in patches.split(',') {
        if let Some((place, of)) = word.split_once(':') {
            put_at(bytes, number(place) as usize, byte(of));
        }
    }
}

/// Puts the byte at this place, where there is one.
pub fn put_at(bytes: &mut [u8], place: usize, byte: u8) {
    if let Some(old) = bytes.get_mut(place) {
        *old = byte;
    }
}

/// The text with line feeds where it has this sign.
pub fn lines_of(answer: &mut Answer, text: &str, sign: u8) -> Vec<u8> {
    let mut bytes = Vec::new(answer.alloc());
    for byte in text.bytes() {
        answer.push_to(&mut bytes, if byte == sign { b'\n' } else { byte });
    }
    bytes
}

/// The text with line feeds where it has `/`; none where there is no memory for it.
pub fn with_line_feeds(alloc: Global, text: &str) -> Option<Vec<u8>> {
    let mut bytes = Vec::new(alloc);
    for byte in text.bytes() {
        bytes.push(if byte == b'/' { b'\n' } else { byte }).ok()?;
    }
    Some(bytes)
}

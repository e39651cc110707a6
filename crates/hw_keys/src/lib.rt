//! The keys of a test network, their text, and what they sign.
//!
//! This is a stand-in and no signature scheme: who has the keys can sign for every validator. A
//! signature is a SHA-256 digest over the validator's key and what is signed.
//!
//! `specs/Keys.antt` has the text of keys, which bytes may stand where in it, and the signatures.
#![tactic(auto)]

mod fault;
mod keys;
mod text;

pub use fault::KeysFault;
pub use keys::Keys;

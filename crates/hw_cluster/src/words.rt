//! Random words, and the keys that give them.

ghost use Rattle.std.specs.Prelude.{◌≡◌, ◌+◌, ◌^◌, ◌<◌, ◌++◌, codes};
ghost use Rattle.sha2.specs.Sha256.{sha256};
ghost use Rattle.rand_chacha.specs.ChaCha.{key_of};
ghost use Rattle.hw_types.specs.Spelling.{u64_bytes};
ghost use Rattle.hw_cluster.specs.Numbers.{word_in};

use rand_chacha::ChaCha8Rng;
use rand_core::SeedableRng;
use rand_core::utils::NextWord;
use sha2::{Digest, Sha256};
use std::marker::Model;

/// The key of a workload's number: the SHA-256 digest of the workload's name and the number's eight bytes.
pub fn key_for(workload: &[u8], number: u64) -> [u8; 32]
    ensures { result ≡ sha256 (workload.now ++ u64_bytes number) }
{
    let mut hasher = Sha256::new();
    hasher.update(workload);
    hasher.update(&number.to_be_bytes());
    hasher.finalize()
}

/// The words of ChaCha8's first stream, one after the other. Contracts see the cipher's key and the place of the
/// next word.
#[derive(Drop)]
pub struct Words {
    words: ChaCha8Rng,
}

impl Model for Words {
    ghost use Rattle.std.specs.Prelude.{◌≡◌};
    ghost use Rattle.hw_cluster.specs.Numbers.{WordStream};

    ghost Value = { WordStream };

    ghost view = { λ w. record {
      key = w.words.key;
      place = w.words.word_pos;
    } };

    ghost invariant = { λ w. w.words.stream ≡ 0 };
}

impl Words {
    /// The words of this seed, from the first one on.
    pub fn new(seed: [u8; 32]) -> Words
        ensures { result ≡ record { key = key_of seed; place = 0 } }
    {
        Words {
            words: ChaCha8Rng::from_seed(seed),
        }
    }

    /// The next word.
    pub fn next(&mut self) -> u32
        requires { self.old.place < 2 ^ 64 }
        ensures word { result ≡ word_in self.old.key self.old.place }
        ensures next { self.new ≡ record self.old { place = self.old.place + 1 } }
    {
        self.words.next_word()
    }
}

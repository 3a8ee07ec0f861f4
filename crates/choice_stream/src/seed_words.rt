// Choice words from a seed.
ghost use Rattle.std.specs.Prelude.{◌≡◌};
ghost use Rattle.choice_stream.specs.Seeds.{Draws, stream_front};

use history_book::Words;
use rand_chacha::ChaCha20Rng;
use rand_core::SeedableRng;
use rand_core::utils::NextWord;
use std::marker::Model;

/// The words of one stream of a seed, in order: those of the ChaCha20 generator (RFC 8439's block function with a counter and a stream
/// of 64 bits) whose key is the seed, least byte first, and 24 zero bytes.
#[derive(Drop)]
pub struct SeedWords {
    generator: ChaCha20Rng,
}

impl Model for SeedWords {
    ghost use Rattle.rand_chacha.specs.ChaCha.{ChaCha};

    ghost Value = { ChaCha };

    ghost view = { λ w. w.generator };
}

impl SeedWords {
    /// The words of this stream of the seed, none of which was drawn.
    pub fn new(seed: u64, stream: u64) -> SeedWords
        ensures { result ≡ stream_front seed stream }
    {
        let mut key = [0u8; 32];
        key[..8].copy_from_slice(&seed.to_le_bytes());
        let mut generator = ChaCha20Rng::from_seed(key);
        generator.set_stream(stream);
        SeedWords { generator }
    }
}

impl Words for SeedWords {
    ghost gives = { Draws };

    fn next(&mut self) -> u32 {
        self.generator.next_word()
    }
}

//! A worker's random words.
ghost use Rattle.std.specs.Prelude.{◌≡◌};
ghost use Rattle.rand_chacha.specs.ChaCha.{key_of};
ghost use Rattle.chpw_serve.specs.WordStreams.{WordStream, gives_word, stream_start, GivesFromTheFirst};

use crate::draws::Words;
use rand_chacha::ChaCha20Rng;
use rand_core::SeedableRng;
use rand_core::utils::NextWord;
use std::marker::Model;

/// The words of ChaCha20 (RFC 8439 section 2.3, with a block counter and a stream number of 64 bits
/// each) under a seed, in one of its streams. Workers with one seed and streams of their own draw
/// different words.
#[derive(Drop)]
pub struct WorkerWords {
    generator: ChaCha20Rng,
}

impl Model for WorkerWords {
    ghost use Rattle.chpw_serve.specs.WordStreams.{WordStream};

    ghost Value = { WordStream };

    ghost view = { λ w. record { key = w.generator.key; stream = w.generator.stream; place = w.generator.word_pos } };
}

impl WorkerWords {
    /// The words of this stream, from its first.
    #[tactic(auto, using(crate::proofs::WordStreamLemmas::from_the_first))]
    pub fn new(seed: [u8; 32], stream: u64) -> WorkerWords
        ensures start { result ≡ stream_start (key_of seed) stream }
        ensures in_turn { GivesFromTheFirst (key_of seed) stream result }
    {
        let mut generator = ChaCha20Rng::from_seed(seed);
        generator.set_stream(stream);
        generator.set_word_pos(0);
        WorkerWords { generator }
    }
}

impl Words for WorkerWords {
    ghost gives = { gives_word };

    fn next(&mut self) -> u32 {
        self.generator.next_word()
    }
}

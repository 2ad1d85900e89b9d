//! The words of a seed.

ghost use Rattle.std.specs.Prelude.{◌≡◌, ◌<◌, ◌^◌};
ghost use Rattle.qvm_step.specs.Words.{draw};

use rand_chacha::ChaCha20Rng;
use rand_core::SeedableRng;
use rand_core::utils::NextWord;

/// Word i, from 0, of ChaCha20 stream 0 of a seed (RFC 8439's block function).
#[tactic(auto, unfolding(crate::specs::Words::draw))]
pub fn draw(seed: [u8; 32], i: u64) -> u32
    ensures { result ≡ draw seed i }
{
    let mut words = ChaCha20Rng::from_seed(seed);
    words.set_word_pos(u128::from(i));
    words.next_word()
}

#[cfg(test)]
mod tests {
    use super::*;

    // The first test vector of appendix A.1 of RFC 8439: a zero key, its words with the least byte first.
    #[test]
    fn first_words_of_the_zero_seed(rt: HostRuntime) {
        let wanted = [
            (0, 0xade0b876),
            (1, 0x903df1a0),
            (2, 0xe56a5d40),
            (3, 0x28bd8653),
            (4, 0xb819d2bd),
            (5, 0x1aed8da0),
        ];
        for (i, word) in wanted {
            assert_eq!(rt; draw([0; 32], i), word, "word {i}");
        }
    }
}

//! A generator of given words.

ghost use Rattle.rand_core.specs.Steps.{stream_of, steps_u32};
ghost use Rattle.test_x509_rows.specs.GivenWords.{next_given};

use rand_core::utils::NextWord;
use rand_core::{CryptoRng, Rng, utils};
use std::marker::Model;

/// A generator whose words of 32 bits are each one of these bytes, four times. After them, each
/// word is 0.
#[derive(Drop)]
pub struct GivenWords<'a> {
    /// The bytes that are left.
    pub left: &'a [u8],
}

impl<'a> Model for GivenWords<'a> {
    ghost use Rattle.std.specs.Prelude.{ℕ, List};

    ghost Value = { List ℕ };

    ghost view = { λ g. g.left.now };
}

impl<'a> NextWord<u32> for GivenWords<'a> {
    ghost step = { next_given };

    fn next_word(&mut self) -> u32 {
        let [first, left @ ..] = self.left else {
            return 0;
        };
        self.left = left;
        u32::from(*first) * 0x0101_0101
    }
}

impl<'a> Rng for GivenWords<'a> {
    ghost stream = { stream_of (steps_u32 next_given) };

    fn next_u32(&mut self) -> u32 {
        self.next_word()
    }

    fn next_u64(&mut self) -> u64 {
        utils::next_u64_via_u32(self)
    }

    fn fill_bytes(&mut self, dst: &mut [u8]) {
        utils::fill_bytes_via_u32(self, dst)
    }
}

impl<'a> CryptoRng for GivenWords<'a> {}

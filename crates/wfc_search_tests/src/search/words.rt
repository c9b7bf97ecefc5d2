//! A source of words that is known beforehand.

use rand_core::Rng;

/// A source whose next word is the number in it, and then a number made of that one.
#[derive(Clone, Copy)]
pub(super) struct Words(pub(super) u64);

impl Rng for Words {
    ghost use Rattle.std.specs.Prelude.{replicate, ◌+◌, ◌*◌, ◌%◌, ◌^◌};
    ghost use Rattle.rand_core.specs.Steps.{stream_of};

    ghost stream = { λ s. stream_of (record {
      next_u32 = λ w. (0, w);
      next_u64 = λ w. (w, ((w * 6364136223846793005) % 2 ^ 64 + 1442695040888963407) % 2 ^ 64);
      fill_bytes = λ n w. (replicate n 0, w);
    }) s.0 };

    fn next_u32(&mut self) -> u32 {
        0
    }

    fn next_u64(&mut self) -> u64 {
        let word = self.0;
        self.0 = word
            .wrapping_mul(6_364_136_223_846_793_005)
            .wrapping_add(1_442_695_040_888_963_407);
        word
    }

    fn fill_bytes(&mut self, dst: &mut [u8]) {
        dst.fill(0);
    }
}

//! `SeededState`: a fast hasher with a seed.

ghost use Rattle.std.specs.Prelude.{◌≡◌, ℕ, ◌<◌, ◌^◌, IfOk};
ghost use Rattle.std.specs.Hash as fed;
ghost use Rattle.std.specs.Hash.FoldHasher as folding;

use std::hash::{BuildHasher, FoldHasher, Hasher};
use std::io;
use std::random::RandomSource;

/// A `BuildHasher` whose hashers are `FoldHasher`s that start from the same seed.
///
/// For untrusted strings the seed has to be secret, because `FoldHasher` itself is fixed and
/// public.
#[derive(Clone, Copy, Drop)]
pub struct SeededState {
    /// A hasher to which the seed was fed.
    pub start: FoldHasher,
}

impl SeededState {
    /// Creates a state from `seed`.
    pub fn new(seed: u64) -> SeededState
        ensures { result.start ≡ folding.write folding.initial (fed.le_bytes 8 seed) }
    {
        let mut start = FoldHasher::default();
        start.write_u64(seed);
        SeededState { start }
    }

    /// Creates a state from eight random bytes.
    ///
    /// # Errors
    ///
    /// Fails if the source fails to provide random bytes.
    pub fn from_random(source: &impl RandomSource) -> io::Result<SeededState>
        ensures { IfOk result (λ state. (seed : ℕ) × (seed < 2 ^ 64)
            × (state.start ≡ folding.write folding.initial (fed.le_bytes 8 seed))) }
    {
        let mut seed = [0; 8];
        source.fill_bytes(&mut seed)?;
        Ok(SeededState::new(u64::from_le_bytes(seed)))
    }
}

impl BuildHasher for SeededState {
    type Hasher = FoldHasher;

    ghost build_hasher = { λ s. s.start };

    fn build_hasher(&self) -> FoldHasher {
        self.start
    }
}

//! The hash of a string.
ghost use Rattle.ijson_string.specs.private.Chains.{mixed};
ghost use Rattle.std.specs.Prelude.{[], ◌∷◌, ◌≡◌, fold};
ghost use Rattle.std.proofs.Common.{ap};
ghost use Rattle.std.specs.Cmp.Lexicographic.{bytes_decides};

use std::hash::{BuildHasher, Hash, Hasher};

/// An odd number whose bits follow no pattern: `2 ^ 64` divided by the golden ratio.
const MIXER: u64 = 0x9E37_79B9_7F4A_7C15;

/// The input of a string's hash: its bytes in one write.
///
/// A terminator is not needed, because nothing else is hashed.
#[derive(Clone, Copy, PartialEq, Eq)]
struct TextBytes<'a> {
    bytes: &'a [u8],
}

impl<'a> Hash for TextBytes<'a> {
    ghost hash_input = { λ t. t.bytes.now ∷ [] };

    ghost respects_eq = { λ x y h. ap (λ bytes. bytes ∷ []) ((bytes_decides x.bytes.now y.bytes.now).0 h) };

    fn hash<H: Hasher>(&self, state: &mut H) {
        state.write(self.bytes);
    }
}

/// Returns a 32-bit hash of `text`: the upper half of its 64-bit hash times `MIXER`.
///
/// Each bit of the 64-bit hash affects the result, so a hasher may leave some bits constant.
#[tactic(auto, unfolding(crate::specs::private::Chains::mixed))]
pub(crate) fn hash_of<S: BuildHasher>(hasher: &S, text: &str) -> u32
    ensures { result ≡ mixed (S.Hasher.finish (fold S.Hasher.write (S.build_hasher hasher.now) (text.now ∷ []))) }
{
    let hash = hasher.hash_one(TextBytes {
        bytes: text.as_bytes(),
    });
    (hash.wrapping_mul(MIXER) >> 32) as u32
}

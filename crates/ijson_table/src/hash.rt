//! Hash functions for keys.

ghost use Rattle.std.specs.Prelude.{◌≡◌, ℕ, List, fold};
ghost use Rattle.ijson_table.specs.Fold.{fold_word, fold_words};

/// A hash function for strings: any function of their bytes.
pub trait KeyHash {
    /// The hash of a string, as a function of its bytes.
    ghost hash_of: { List ℕ → ℕ };

    /// Returns the hash of a string.
    fn hash(text: &str) -> u64
        ensures { result ≡ hash_of text.now };
}

/// A hash that folds the bytes of a string, the same in every run.
///
/// The hash lacks a seed, so anybody can choose strings that have the same hash.
///
/// # Cost
///
/// Linear in the length of the string.
#[derive(Clone, Copy, Debug, Drop)]
pub struct FixedHash;

impl FixedHash {
    /// The initial hash: the offset basis of FNV (Fowler, Noll, Vo) in 64 bits.
    pub const BASIS: u64 = 14_695_981_039_346_656_037;

    /// The multiplier for one byte: the prime of FNV in 64 bits. The hash is computed modulo 2^64.
    ///
    /// FNV combines the hash with a byte by exclusive or. This hash adds the byte.
    pub const PRIME: u64 = 1_099_511_628_211;
}

/// Folds four bytes per step.
impl KeyHash for FixedHash {
    ghost hash_of = { λ text. fold_words text };

    fn hash(text: &str) -> u64 {
        let mut hash = FixedHash::BASIS;
        let mut left = text.as_bytes();
        while let [a, b, c, d, rest @ ..] = left {
            hash = add_four(hash, [*a, *b, *c, *d]);
            left = rest;
        }
        add_each(hash, left)
    }
}

/// The multiplier for two bytes.
const PRIME_POWER_2: u64 = FixedHash::PRIME.wrapping_mul(FixedHash::PRIME);

/// The multiplier for three bytes.
const PRIME_POWER_3: u64 = PRIME_POWER_2.wrapping_mul(FixedHash::PRIME);

/// The multiplier for four bytes, which are folded in one step.
const PRIME_POWER_4: u64 = PRIME_POWER_3.wrapping_mul(FixedHash::PRIME);

/// Folds the four bytes `words` into `hash` in one step.
///
/// The products of the bytes do not depend on `hash`, so only one multiplication waits for the
/// previous step.
fn add_four(hash: u64, words: [u8; 4]) -> u64
    ensures { result ≡ fold fold_word hash words }
{
    let [a, b, c, d] = words;
    let sum = u64::from(a)
        .wrapping_mul(PRIME_POWER_3)
        .wrapping_add(u64::from(b).wrapping_mul(PRIME_POWER_2))
        .wrapping_add(u64::from(c).wrapping_mul(FixedHash::PRIME))
        .wrapping_add(u64::from(d));
    hash.wrapping_mul(PRIME_POWER_4).wrapping_add(sum)
}

/// Folds the bytes `words` into `hash`, one at a time.
fn add_each(mut hash: u64, words: &[u8]) -> u64
    ensures { result ≡ fold fold_word hash words.now }
{
    for word in words {
        hash = hash
            .wrapping_mul(FixedHash::PRIME)
            .wrapping_add(u64::from(*word));
    }
    hash
}

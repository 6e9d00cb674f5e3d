//! Assertions about the hashes of values, and about the words that values feed a hasher.

use std::alloc::Global;
use std::cell::Cell;
use std::cmp::Ordering;
use std::hash::{DefaultHasher, Hash, Hasher};
use std::process::Abort;

/// Returns the hash of `value` by std's default hasher.
pub fn hash_of<T: Hash>(value: &T) -> u64 {
    let mut hasher = DefaultHasher::new();
    value.hash(&mut hasher);
    hasher.finish()
}

/// Asserts that two values are equal by `==`, their order and their hashes, without allocating.
pub fn are_same<T: Hash + PartialOrd>(rt: &impl Abort, alloc: Global, one: &T, other: &T) {
    counted!(alloc; {
        assert!(*rt; one == other && other == one);
        assert!(*rt; one.partial_cmp(other) == Some(Ordering::Equal));
        assert!(*rt; hash_of(one) == hash_of(other));
    });
}

/// A hasher that compares the words given to `write_u64` with the words `wanted`. `write` and
/// `write_i64`, which would call `write_u64` by default, make the comparison fail. In contracts
/// the content of a `Cell` is not part of a value, so counting words does not change the hasher.
#[derive(Drop)]
struct Comparing<'a> {
    wanted: &'a [u64],
    /// The number of words fed so far, or `usize::MAX` if any input differed from `wanted`.
    count: &'a Cell<usize>,
}

impl Hasher for Comparing<'_> {
    ghost write = { λ s _. s };

    ghost finish = { λ _. 0 };

    fn finish(&self) -> u64 {
        0
    }

    fn write(&mut self, _bytes: &[u8]) {
        self.count.set(usize::MAX);
    }

    fn write_u64(&mut self, word: u64) {
        let count = self.count.get();
        let is_wanted = self.wanted.get(count) == Some(&word);
        self.count
            .set(if is_wanted { count + 1 } else { usize::MAX });
    }

    fn write_i64(&mut self, _word: i64) {
        self.count.set(usize::MAX);
    }
}

/// Asserts that `value` feeds a hasher exactly the words `wanted`, each by `write_u64`.
pub fn feeds<T: Hash>(rt: &impl Abort, value: &T, wanted: &[u64]) {
    let count = Cell::new(0);
    let mut hasher = Comparing {
        wanted,
        count: &count,
    };
    value.hash(&mut hasher);
    assert!(*rt; count.get() == wanted.len());
}

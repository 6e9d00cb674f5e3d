//! Tests of the seed of a `SeededState`.

use crate::string::SeededState;
use std::cell::Cell;
use std::hash::{BuildHasher, FoldHasher, Hasher};
use std::io;
use std::io::ErrorKind;
use std::process::Abort;
use std::random::RandomSource;

/// A random source that returns `bytes` and then zeros, and counts the bytes that it returned. A
/// source without bytes fails.
#[derive(Drop)]
struct Bytes<'a> {
    bytes: &'a [u8],
    given: Cell<usize>,
}

impl RandomSource for Bytes<'_> {
    fn fill_bytes(&self, buf: &mut [u8]) -> io::Result<()> {
        if self.bytes.is_empty() {
            return Err(io::Error::from(ErrorKind::Other));
        }
        for place in buf.iter_mut() {
            let given = self.given.get();
            *place = self.bytes.get(given).copied().unwrap_or(0);
            self.given.set(given.saturating_add(1));
        }
        Ok(())
    }
}

/// Returns the result of creating a state from `bytes`, and the number of bytes used.
fn seeded(bytes: &[u8]) -> (io::Result<SeededState>, usize) {
    let source = Bytes {
        bytes,
        given: Cell::new(0),
    };
    let state = SeededState::from_random(&source);
    (state, source.given.get())
}

/// Returns the hash of the word 7 by std's `FoldHasher`, after `bytes` were written.
fn folded(bytes: &[u8]) -> u64 {
    let mut hasher = FoldHasher::default();
    hasher.write(bytes);
    hasher.write_u64(7);
    hasher.finish()
}

/// A seed of eight bytes, followed by seeds that differ from it in one byte each.
static SEEDS: [[u8; 8]; 9] = [
    [9, 8, 7, 6, 5, 4, 3, 2],
    [8, 8, 7, 6, 5, 4, 3, 2],
    [9, 9, 7, 6, 5, 4, 3, 2],
    [9, 8, 8, 6, 5, 4, 3, 2],
    [9, 8, 7, 7, 5, 4, 3, 2],
    [9, 8, 7, 6, 6, 4, 3, 2],
    [9, 8, 7, 6, 5, 5, 3, 2],
    [9, 8, 7, 6, 5, 4, 4, 2],
    [9, 8, 7, 6, 5, 4, 3, 3],
];

#[test]
fn each_byte_of_a_seed_decides_a_hash(rt: HostRuntime) {
    let first = folded(&SEEDS[0]);
    for (index, seed) in SEEDS.iter().enumerate() {
        let (state, given) = seeded(seed);
        let hash = state.expect(&rt, "a seed").hash_one(7u64);
        assert!(rt; given == 8 && hash == folded(seed), "{index}");
        assert!(rt; (hash == first) == (index == 0), "{index}");
        let given = SeededState::new(u64::from_le_bytes(*seed)).hash_one(7u64);
        assert!(rt; given == hash, "{index}");
    }
    let (state, given) = seeded(&[]);
    assert!(rt; state.is_err() && given == 0);
}

//! Tests of how many strings are hashed, by scripts that intern the digits of numbers. Strings that
//! repeat in the same order are rarely hashed from the third pass on.
use self::Call::{Clear, Down, Records, Up, UpDown};
use crate::string::{IString, StringCache};
use crate::tests::caches::interned;
use std::alloc::{AllocError, Global};
use std::cell::Cell;
use std::hash::{BuildHasher, BuildHasherDefault, FoldHasher, Hasher};
use std::process::Abort;

/// Which numbers a call interns, and in which order.
#[derive(Clone, Copy)]
pub(super) enum Call {
    /// No numbers; the cache is cleared.
    Clear,
    Down,
    /// The numbers below half the count, each followed by a unique number, from this number on.
    Records(usize),
    Up,
    /// The numbers below half the count, ascending and then descending.
    UpDown,
}

/// A call, its count of strings, a bound for the strings hashed, and the number of strings in the
/// cache after it. A run multiplies all three by a unit, and allows two more strings to be hashed.
pub(super) type Row = (Call, usize, usize, usize);

pub(super) static SCRIPTS: [&[Row]; 4] = [
    &[
        (Up, 2, 2, 2),
        (Up, 2, 2, 2),
        (Clear, 0, 0, 0),
        (Up, 1, 1, 1),
    ],
    &[(Up, 2, 2, 2), (Up, 2, 2, 2), (Up, 2, 0, 2), (Up, 2, 0, 2)],
    &[
        (Records(1000), 2, 2, 2),
        (Records(2000), 2, 2, 3),
        (Records(3000), 2, 1, 4),
        (Records(4000), 2, 1, 5),
    ],
    &[
        (UpDown, 12, 12, 6),
        (UpDown, 12, 12, 6),
        (UpDown, 8, 8, 6),
        (UpDown, 4, 4, 6),
        (Clear, 0, 0, 0),
        (Down, 2, 2, 2),
    ],
];

/// A hasher that returns the same hash for all strings.
#[derive(Clone, Copy, Default, Drop)]
pub(super) struct OneHash;

impl Hasher for OneHash {
    ghost write = { λ s _. s };

    ghost finish = { λ _. 0 };

    fn finish(&self) -> u64 {
        0
    }

    fn write(&mut self, _bytes: &[u8]) {}
}

/// Counts the strings that are hashed. In contracts the content of a `Cell` is not part of a value,
/// so `build_hasher` does not change this value.
#[derive(Drop)]
struct Counting<'a, S> {
    hashed: &'a Cell<usize>,
    hasher: S,
}

impl<S: BuildHasher> BuildHasher for Counting<'_, S> {
    type Hasher = S::Hasher;

    ghost build_hasher = { λ counting. S.build_hasher counting.hasher };

    fn build_hasher(&self) -> S::Hasher {
        self.hashed.set(self.hashed.get().saturating_add(1));
        self.hasher.build_hasher()
    }
}

/// Returns the number that `call`, with `count` strings, interns at `index`.
fn number_at(call: Call, count: usize, index: usize) -> usize {
    let rest = count.saturating_sub(index).saturating_sub(1);
    match call {
        Clear | Up => index,
        Down => rest,
        Records(unique) if index % 2 == 1 => unique.saturating_add(index / 2),
        Records(_) => index / 2,
        UpDown => index.min(rest),
    }
}

/// Interns the digits of each number of `call`. A string hashed again after an error counts once.
fn intern_each<S: BuildHasher>(
    rt: &impl Abort,
    alloc: Global,
    cache: &mut StringCache<S>,
    hashed: &Cell<usize>,
    (call, count): (Call, usize),
) {
    for index in 0..count {
        let number = number_at(call, count, index);
        let digits = granted!(rt; format!(in alloc; "{number:08}"));
        let before = hashed.get();
        let text = match IString::intern(cache, digits.as_str()) {
            Ok(text) => text,
            Err(AllocError) => {
                hashed.set(before);
                interned(rt, cache, digits.as_str())
            }
        };
        assert!(*rt; text.eq_str(digits.as_str()));
        drop(text);
    }
}

/// Makes the calls of `script` on an empty cache, with all counts multiplied by `unit`. A cache of
/// `n` strings must contain the digits of 0, unless `n` is 0, but not the digits of `n`.
pub(super) fn runs<S: BuildHasher + Drop>(
    rt: &impl Abort,
    alloc: Global,
    hasher: S,
    unit: usize,
    script: &[Row],
) {
    let hashed = &Cell::new(0);
    let mut cache = StringCache::new(alloc, Counting { hashed, hasher });
    for &(call, count, most, held) in script {
        let (count, held) = (count.saturating_mul(unit), held.saturating_mul(unit));
        let most = most.saturating_mul(unit).saturating_add(2).min(count);
        if let Clear = call {
            counted!(alloc; cache.clear());
        }
        hashed.set(0);
        intern_each(rt, alloc, &mut cache, hashed, (call, count));
        assert!(*rt; hashed.get() <= most && cache.len() == held);
        let absent = granted!(rt; format!(in alloc; "{held:08}"));
        assert!(*rt; cache.contains("00000000") == (held > 0) && !cache.contains(absent.as_str()));
    }
    drop(cache);
}

pub(super) type Fold = BuildHasherDefault<FoldHasher>;

pub(super) type One = BuildHasherDefault<OneHash>;

/// Runs all scripts with a hasher that returns the same hash for all strings.
pub(super) fn run_all(rt: &impl Abort, alloc: Global, unit: usize) {
    for script in &SCRIPTS {
        runs(rt, alloc, One::new(), unit, script);
    }
}

#[test]
fn scripts(rt: HostRuntime) {
    run_all(&rt, rt.alloc(), 4);
    runs(&rt, rt.alloc(), Fold::new(), 8, SCRIPTS[0]);
}

//! Tests of a cache by scripts of calls. A failed allocation must leave the cache unchanged.
use self::Call::{Clear, Intern, Show};
use crate::string::IString;
use crate::tests::caches::{Cache, empty_cache, interned};
use crate::tests::shown::is_shown;
use crate::tests::support::set;
use std::alloc::{AllocError, Global};
use std::hash::{BuildHasher, BuildHasherDefault, DefaultHasher};
use std::process::Abort;

enum Call {
    /// Interns this string with this number of allocations.
    Intern(&'static str, u8),
    Clear,
    /// Asserts this debug output of the cache.
    Show(&'static str),
}

const FOUR: &str =
    r#"{"second here", "first there", "third \"place\" and a long string after it", "a fourth"}"#;

/// Scripts of calls, each call with the number of strings in the cache after it.
static SCRIPTS: [&[(Call, usize)]; 2] = [
    &[
        (Intern("seven77", 0), 0),
        (Intern("eight888", 4), 1),
        (Intern("eight888", 0), 1),
        (Clear, 0),
        (Intern("a text that was there", 1), 1),
        (Intern("seven77", 0), 1),
        (Intern("eight888", 1), 2),
        (Intern("interned_string_a", 1), 3),
        (Intern("eight888", 0), 3),
        (Clear, 0),
    ],
    &[
        (Show("{}"), 0),
        (Intern("second here", 4), 1),
        (Intern("first there", 1), 2),
        (Intern("short", 0), 2),
        (Intern("second here", 0), 2),
        (Show(r#"{"second here", "first there"}"#), 2),
        (Intern("third \"place\" and a long string after it", 1), 3),
        (Intern("a fourth", 1), 4),
        (Show(FOUR), 4),
    ],
];

/// Interns `letters` again, without allocating, and compares the result and a copy with `text`.
fn again(rt: &impl Abort, cache: &mut Cache, text: &IString, letters: &str) -> IString {
    let (before, hasher) = (cache.len(), BuildHasherDefault::<DefaultHasher>::new());
    let again = IString::intern(cache, letters).expect(rt, "a text");
    let copy = text.clone().expect(rt, "a copy");
    assert!(*rt; again == *text && hasher.hash_one(&again) == hasher.hash_one(text));
    assert!(*rt; copy == again && copy.eq_str(letters) && text.as_str() == letters);
    assert!(*rt; text.len() == letters.len() && text.is_empty() == letters.is_empty());
    assert!(*rt; cache.contains(letters) == (letters.len() > 7) && cache.len() == before);
    drop(copy);
    again
}

/// Returns the number of strings in `cache`, and whether it contains each of four strings.
fn state(cache: &Cache, letters: &str) -> (usize, [bool; 4]) {
    let texts = [letters, "a text that was there", "second here", "abcdefgh"];
    (cache.len(), texts.map(|text| cache.contains(text)))
}

type Texts = (IString, IString);

/// Interns `letters` with `blocks` allocations, and then again without an allocation.
fn intern(rt: &impl Abort, alloc: Global, cache: &mut Cache, letters: &str, blocks: u8) -> Texts {
    let before = state(cache, letters);
    let text = counted!(alloc; blocks; match IString::intern(cache, letters) {
        Ok(text) => text,
        Err(AllocError) => {
            assert!(*rt; blocks > 0 && state(cache, letters) == before);
            interned(rt, cache, letters)
        }
    });
    let again = counted!(alloc; again(rt, cache, &text, letters));
    let blocks = u8::from(!letters.is_empty());
    let owned = counted!(alloc; blocks; granted!(rt; text.to_owned_string(alloc)));
    assert!(*rt; owned.as_str() == letters);
    (text, again)
}

/// Asserts that `text` is printed like the `str` with the same letters.
fn is_printed(rt: &impl Abort, alloc: Global, text: &IString, letters: &str) {
    let printed = granted!(rt; format!(in alloc; "{text}{text:?}"));
    let want = granted!(rt; format!(in alloc; "{letters}{letters:?}"));
    assert!(*rt; printed == want);
}

/// Makes the calls of `script` on an empty cache. The last string must outlive the cache.
fn runs(rt: &impl Abort, alloc: Global, script: &[(Call, usize)]) {
    let mut cache = counted!(alloc; empty_cache(alloc));
    let mut texts = counted!(alloc; (IString::new(), IString::default()));
    assert!(*rt; texts.0.len() == 0 && texts.1.is_empty());
    let mut last = "";
    for (call, held) in script {
        match call {
            Intern(letters, blocks) => {
                last = letters;
                let new = intern(rt, alloc, &mut cache, last, *blocks);
                is_printed(rt, alloc, &new.0, last);
                set(&mut texts, new);
            }
            Clear => counted!(alloc; cache.clear()),
            Show(want) => is_shown(rt, alloc, &cache, want),
        }
        assert!(*rt; counted!(alloc; cache.len() == *held && cache.is_empty() == (*held == 0)));
    }
    drop(cache);
    assert!(*rt; texts.0 == texts.1 && texts.0.eq_str(last));
    drop(texts);
}

#[test]
fn scripts(rt: HostRuntime) {
    for script in &SCRIPTS {
        runs(&rt, rt.alloc(), script);
    }
}

/// Returns the number of allocations for a string of `length` bytes, the `count`-th of a new cache.
/// The first string allocates three lists. Two of these lists double at 4, 8, 16, 32, 64 and 128
/// strings, and the third at 64 and 128 strings.
fn blocks(length: usize, count: usize) -> u8 {
    let lists = match count {
        1 | 65 | 129 => 3,
        5 | 9 | 17 | 33 => 2,
        _ => 0,
    };
    match length {
        0..=7 => 0,
        8..=71 => 1 + lists,
        _ => 2 + lists,
    }
}

/// The lengths of the prefixes after the first 201 prefixes, whose lengths are 0 to 200.
static LONGEST: [usize; 2] = [41_000, 1_000_000];

/// Interns the first `count` prefixes of `text`, and asserts the number of allocations of each.
fn intern_prefixes(
    rt: &impl Abort,
    alloc: Global,
    cache: &mut Cache,
    (text, count): (&str, usize),
    (is_new, prints): (bool, bool),
) {
    for index in 0..count {
        let longest = index.wrapping_sub(201);
        let length = LONGEST.get(longest).copied().unwrap_or(index);
        let letters = text.get(..length).expect(rt, "a prefix");
        let held = index.saturating_sub(7);
        let blocks = blocks(length, if is_new { held } else { 0 });
        let texts = intern(rt, alloc, cache, letters, blocks);
        assert!(*rt; cache.len() == held);
        if prints {
            is_printed(rt, alloc, &texts.0, letters);
        }
        drop(texts);
    }
}

/// Interns the first `count` prefixes of `text` in a new cache, and again after `clear`, which
/// keeps the capacity of the cache.
pub(super) fn run_prefixes(rt: &impl Abort, alloc: Global, text: &str, count: usize, prints: bool) {
    let mut cache = empty_cache(alloc);
    intern_prefixes(rt, alloc, &mut cache, (text, count), (true, prints));
    counted!(alloc; cache.clear());
    intern_prefixes(rt, alloc, &mut cache, (text, count), (false, false));
    drop(cache);
}

#[test]
fn prefixes(rt: HostRuntime) {
    let letters = "abcdefghijklmnopqrstuvwxyzabcdefghijklmnopqrstuvwxyzabcdefghijklmnopqrstuvwxyz";
    run_prefixes(&rt, rt.alloc(), letters, 73, false);
}

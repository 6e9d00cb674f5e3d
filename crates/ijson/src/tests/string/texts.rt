//! Tests of properties of strings, by a table.
use self::Property::{Bytes, Debug, Less, Padded, Wide, Words};
use crate::string::IString;
use crate::tests::caches::{Cache, empty_cache, interned};
use crate::tests::hashes::feeds;
use crate::tests::shown::is_shown;
use std::alloc::Global;
use std::cmp::Ordering;
use std::process::Abort;

enum Property {
    Bytes(&'static [u8]),
    /// The debug output of the string.
    Debug(&'static str),
    /// The string is less than this string.
    Less(&'static str),
    /// The length of an inline string, and the string padded with zeros; `None` if it is boxed.
    Padded(Option<(u8, &'static str)>),
    /// The output with a width of 10, aligned right.
    Wide(&'static str),
    /// The words that the string feeds a hasher.
    Words(&'static [u64]),
}

const HUNDRED: &str =
    "0123456789012345678901234567890123456789012345678901234567890123456789012345678901234567890123456789";

const WORDS_OF_HUNDRED: [u64; 102] = [
    3, 100, 48, 49, 50, 51, 52, 53, 54, 55, 56, 57, 48, 49, 50, 51, 52, 53, 54, 55, 56, 57, 48, 49,
    50, 51, 52, 53, 54, 55, 56, 57, 48, 49, 50, 51, 52, 53, 54, 55, 56, 57, 48, 49, 50, 51, 52, 53,
    54, 55, 56, 57, 48, 49, 50, 51, 52, 53, 54, 55, 56, 57, 48, 49, 50, 51, 52, 53, 54, 55, 56, 57,
    48, 49, 50, 51, 52, 53, 54, 55, 56, 57, 48, 49, 50, 51, 52, 53, 54, 55, 56, 57, 48, 49, 50, 51,
    52, 53, 54, 55, 56, 57,
];

#[rattlefmt::skip]
static PROPERTIES: [(&str, Property); 23] = [
    ("z", Bytes(&[0x7a])), ("é", Bytes(&[0xc3, 0xa9])), ("", Less("interned_string_a")),
    ("interned_string_a", Less("interned_string_b")), ("interned_string_b", Less("z")), ("z", Less("é")),
    ("eight888", Less("seven77")), ("", Padded(Some((0, "\0\0\0\0\0\0\0")))), ("é", Padded(Some((2, "é\0\0\0\0\0")))),
    ("seven77", Padded(Some((7, "seven77")))), ("eight888", Padded(None)), ("seven77", Wide("   seven77")),
    ("eight888", Wide("  eight888")), ("", Words(&[3, 0])), ("hi", Words(&[3, 2, 104, 105])),
    ("é", Words(&[3, 2, 195, 169])), (HUNDRED, Words(&WORDS_OF_HUNDRED)),
    ("eight888", Words(&[3, 8, 101, 105, 103, 104, 116, 56, 56, 56])), ("", Debug(r#""""#)),
    ("seven77", Debug(r#""seven77""#)), ("a \"quote\" and \\", Debug(r#""a \"quote\" and \\""#)),
    ("a long string of more than 71 bytes, which has a \"quote\" at its end, \"here\"", Debug(r#""a long string of more than 71 bytes, which has a \"quote\" at its end, \"here\"""#)),
    ("two\nlines, \u{e9} and \u{1}", Debug("\"two\\nlines, \u{e9} and \\u{1}\"")),
];

/// Asserts that `less` is less than `more`, by each call that compares them.
fn is_less(rt: &impl Abort, less: &IString, more: &IString) {
    assert!(*rt; less < more && less != more && less.cmp(more) == Ordering::Less);
    assert!(*rt; less.partial_cmp(more) == Some(Ordering::Less));
    assert!(*rt; more.cmp(less) == Ordering::Greater);
}

fn has(rt: &impl Abort, alloc: Global, cache: &mut Cache, text: &IString, property: &Property) {
    match property {
        Bytes(want) => assert!(*rt; counted!(alloc; text.as_bytes()) == *want),
        Debug(want) => is_shown(rt, alloc, text, want),
        Less(letters) => {
            let more = interned(rt, cache, letters);
            counted!(alloc; is_less(rt, text, &more));
            drop(more);
        }
        Padded(want) => assert!(*rt; counted!(alloc; text.inline_padded()) == *want),
        Wide(want) => {
            let printed = granted!(rt; format!(in alloc; "{text:>10}"));
            assert!(*rt; printed.as_str() == *want, "{printed}");
        }
        Words(want) => counted!(alloc; feeds(rt, text, want)),
    }
}

#[test]
fn properties(rt: HostRuntime) {
    let mut cache = empty_cache(rt.alloc());
    for (letters, property) in &PROPERTIES {
        let text = interned(&rt, &mut cache, letters);
        has(&rt, rt.alloc(), &mut cache, &text, property);
        drop(text);
    }
    drop(cache);
}

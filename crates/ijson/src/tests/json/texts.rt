//! Tests of tables of JSON texts, each with a property that is asserted.

use super::devices::follows;
use super::{Parts, repeated};
use crate::json::{CompactError, JsonError, from_json, push_key, push_quoted, push_separator};
use crate::string::IString;
use crate::tests::caches::{Cache, empty_cache};
use crate::tests::hashes::feeds;
use crate::tests::texts::{is_written, parsed};
use crate::value::{DestructuredRef, IValue};
use std::alloc::{AllocError, Global};
use std::process::Abort;

/// A property of a JSON text.
#[derive(Clone, Copy)]
pub enum Is {
    /// The value of the text is written as this text.
    As(&'static str),
    /// The value of the text is written as the same text.
    Same,
    /// The value of the text feeds a hasher these words.
    Fed(&'static [u64]),
    /// The value of the text has this capacity, which is its number of elements or entries.
    Room(usize),
    /// Reading the text adds these strings to a cache.
    Adds(&'static [&'static str]),
}

/// JSON texts, each with the text that is written for its value.
#[rattlefmt::skip]
pub static WRITTEN: [(&str, Is); 39] = [
    ("-0", Is::As("0")), ("-0.0", Is::As("0.0")), ("-250", Is::Same), ("0.1", Is::Same), ("1.50", Is::As("1.5")),
    ("100.00", Is::As("100.0")), ("0.100000000000000000000000000000000000000000000000000", Is::As("0.1")),
    ("1e20", Is::As("100000000000000000000.0")), ("1e21", Is::Same), ("1e22", Is::Same), ("12e30", Is::As("1.2e31")),
    ("1.5E-3", Is::As("0.0015")), ("0.000001", Is::Same), ("0.0000001", Is::As("1e-7")), ("441044444333116.125", Is::Same),
    ("10e1073741823", Is::As("1e1073741824")), ("10e-1073741825", Is::As("1e-1073741824")),
    ("0e99999999999999999999", Is::As("0.0")), ("123456789012345678901234567890", Is::Same),
    // arrays, objects and a Boolean
    (" [1.50, [true], null, -0.0] ", Is::As("[1.5,[true],null,0.0]")), (" [1.50, true ] ", Is::As("[1.5,true]")),
    ("[]", Is::Same), ("[ [ ] ]", Is::As("[[]]")), ("[1000000000000000000000000]", Is::Same),
    (r#"{ "a" : "b" , "a" : { } }"#, Is::As(r#"{"a":{}}"#)), (r#"{"a":1,"b":2,"a":3}"#, Is::As(r#"{"a":3,"b":2}"#)),
    (r#"{"":[],"x":{"":null}}"#, Is::Same), (r#"{"a":1,"b":[2,3],"c":{"d":0.5}}"#, Is::Same), (r#"{"b":1,"a":2.0}"#, Is::Same),
    (r#"{"a":[1.5e3,"\u00e9"],"b":null}"#, Is::As(r#"{"a":[1500.0,"é"],"b":null}"#)), ("\t\r\n false\t\r\n ", Is::As("false")),
    // strings
    (r#""\ud83d\ude00""#, Is::As("\"\u{1f600}\"")), (r#""\uD834\uDD1E""#, Is::As("\"\u{1d11e}\"")),
    (r#""\/\u001F""#, Is::As(r#""/\u001f""#)), (r#""\"\\\b\f\n\r\t""#, Is::Same), ("\"\u{7f}\"", Is::Same),
    (r#""\u0000""#, Is::Same), ("\"\\u0000\u{7f}\"", Is::Same), (r#""a run, an escape\nand one more run é 東京""#, Is::Same),
];

/// JSON texts, each with the words or the capacity of its value, or the strings added to a cache.
#[rattlefmt::skip]
static VALUES: [(&str, Is); 32] = [
    ("null", Is::Fed(&[0])), ("false", Is::Fed(&[1, 0])), ("true", Is::Fed(&[1, 1])), ("0", Is::Fed(&[2, 0])),
    ("2", Is::Fed(&[2, 1, 2147483648, 1, 2])), ("2.0", Is::Fed(&[2, 1, 2147483648, 1, 2])),
    ("100", Is::Fed(&[2, 1, 2147483650, 1, 1])), ("-0.5", Is::Fed(&[2, 2, 2147483647, 1, 5])),
    (r#""hi""#, Is::Fed(&[3, 2, 104, 105])), ("[]", Is::Fed(&[4, 0])), ("[true]", Is::Fed(&[4, 1, 1, 1])), ("{}", Is::Fed(&[5, 0, 0])),
    (r#"[{"k":1.0}]"#, Is::Fed(&[4, 1, 5, 1, 7714392845486680433])), (r#"{"o":{"k":1}}"#, Is::Fed(&[5, 1, 14594105837547140109])),
    (r#"{"k":2,"l":[1,{}]}"#, Is::Fed(&[5, 2, 4038060259889821969])), (r#"{"l":[1.0,{}],"k":2.0}"#, Is::Fed(&[5, 2, 4038060259889821969])),
    ("[-123456789012345678901234567.891]", Is::Fed(&[
        4, 1, 2, 2, 2147483645, 30, 1, 2, 3, 4, 5, 6, 7, 8, 9, 0, 1, 2, 3, 4, 5, 6, 7, 8, 9, 0, 1, 2, 3, 4, 5, 6, 7, 8, 9, 1,
    ])),
    ("\"0123456789012345678901234567890123456789012345678901234567890123456789012345678901234567890123456789\"", Is::Fed(&[
        3, 100, 48, 49, 50, 51, 52, 53, 54, 55, 56, 57, 48, 49, 50, 51, 52, 53, 54, 55, 56, 57, 48, 49, 50, 51, 52, 53, 54, 55, 56, 57,
        48, 49, 50, 51, 52, 53, 54, 55, 56, 57, 48, 49, 50, 51, 52, 53, 54, 55, 56, 57, 48, 49, 50, 51, 52, 53, 54, 55, 56, 57,
        48, 49, 50, 51, 52, 53, 54, 55, 56, 57, 48, 49, 50, 51, 52, 53, 54, 55, 56, 57, 48, 49, 50, 51, 52, 53, 54, 55, 56, 57,
        48, 49, 50, 51, 52, 53, 54, 55, 56, 57,
    ])),
    ("[]", Is::Room(0)), ("[1]", Is::Room(1)), ("[1,[2],3,4,5]", Is::Room(5)), ("{}", Is::Room(0)), (r#"{"a":1}"#, Is::Room(1)),
    (r#"{"a":1,"b":{},"c":3,"d":4,"e":5}"#, Is::Room(5)), (r#"{"a":1,"b":2,"a":3}"#, Is::Room(2)),
    (r#"{"a":1,"a":2,"a":3,"a":4,"a":5,"a":6,"a":7}"#, Is::Room(1)), (r#"{"b":1.0,"a":[2],"c":{"d":null}}"#, Is::Room(3)),
    ("[1.5]", Is::Adds(&[])), (r#"["longlong"]"#, Is::Adds(&["longlong"])), (r#"["longlong",[1]]"#, Is::Adds(&["longlong"])),
    (r#"{"longlong":["longlong","short"]}"#, Is::Adds(&["longlong"])),
    (r#"[1.5,[true,{"a":"longlong","eight888":"\n"}],12345678901234567890123,null]"#, Is::Adds(&["longlong", "eight888"])),
];

/// Texts, each with a mark at its fault: `|` for syntax, `~` for a number that is out of range. A
/// text is read without its mark.
#[rattlefmt::skip]
static FAULTS: [&str; 24] = [
    "|", "|\u{feff}1", "nul|x", "1 |2", "[1 |2]", "[1|", "[1,|]", r#"{"a":1,|}"#, r#"{"a" |1}"#, r#"{"a_key_of_many_bytes":[[1]],|}"#,
    "0|1", "1e+|", "[1.|]", "\"é|", "\"a|\tb\"", r#""\nab|\x""#, r#""|\u12g4""#, r#""ab|\"#, r#""|\ud834\u0041""#, r#""|\udd1e""#,
    "[~10e1073741824,]", "~1e99999999999999999999999",
    // more digits than the fast path reads
    "~1234567890123456789012345678901234e1073741825", "[1,~-0.00000000000000000000000000000000000001e-1073741824]",
];

/// Parts of JSON texts that are written exactly as they are read.
pub static REPEATED: [Parts; 7] = [
    ("\"", "abcdefg ", 1_000, "", "", "\""),
    ("\"", "\\né", 2_000, "", "", "\""),
    ("{\"", "abcdefghij", 500, "", "", "\":null}"),
    ("-", "1234567890", 500, "", "", "1"),
    ("1", "0", 5_000, "", "", ""),
    ("0.", "1234567890", 500, "", "", "1"),
    ("1.", "0123456789", 500, "", "", "e9000"),
];

/// Parts of JSON texts that are nested too deeply, each with the offset of the bracket at fault.
static DEEP: [(Parts, usize); 2] = [
    (("", "\n[", 128, "", "]", ""), 255),
    (("{\"a\":", "[", 127, "", "]", ",\"a\":1}"), 131),
];

const OTHER: &str = "a text that was there";

/// Returns a cache that contains only the string `OTHER`.
pub fn used_cache(rt: &impl Abort, alloc: Global) -> Cache {
    let mut cache = empty_cache(alloc);
    drop(granted!(rt; IString::intern(&mut cache, OTHER)));
    cache
}

/// Returns `true` if `cache` contains `OTHER` and exactly `others` other strings.
pub fn is_kept(cache: &Cache, others: usize) -> bool {
    cache.contains(OTHER) && cache.len() == others.saturating_add(1)
}

/// Asserts that the value of `text` is written as `want`, also by `compact` with `piece` bytes per
/// call, and that `want` has an equal value.
pub fn is_rewritten(rt: &impl Abort, alloc: Global, text: &str, want: &str, piece: usize) {
    let value = parsed(rt, alloc, text);
    is_written(rt, alloc, &value, want);
    let again = parsed(rt, alloc, want);
    assert!(*rt; again == value, "{}", text.get(..40).unwrap_or(text));
    drop(value);
    drop(again);
    let line = granted!(rt; format!(in alloc; "{want}\n"));
    let devices = (piece, text.len() + 1, line.len() + 1);
    let (text, outcome) = (text.as_bytes(), (Ok(()), line.as_bytes()));
    follows(rt, alloc, &mut empty_cache(alloc), text, devices, outcome);
}

/// Asserts that `value`, and the array or object in it, feed a hasher exactly `words`.
fn feeds_words(rt: &impl Abort, value: &IValue, words: &[u64]) {
    feeds(rt, value, words);
    match value.destructure_ref() {
        DestructuredRef::Array(array) => feeds(rt, array, words),
        DestructuredRef::Object(object) => feeds(rt, object, words),
        _ => {}
    }
}

/// Asserts that the array or object in `value`, and a copy of an object, have the capacity `room`.
fn has_room(rt: &impl Abort, value: &IValue, room: usize) {
    match value.destructure_ref() {
        DestructuredRef::Array(array) => assert!(*rt; array.capacity() == room),
        DestructuredRef::Object(object) => {
            let copy = granted!(rt; object.clone());
            assert!(*rt; object.capacity() == room && copy.capacity() == room);
            drop(copy);
        }
        _ => {}
    }
}

/// Asserts that reading `text` adds exactly `strings`, and returns an equal value after `clear`.
fn adds(rt: &impl Abort, alloc: Global, text: &str, strings: &[&str]) {
    let mut cache = used_cache(rt, alloc);
    let before = granted!(rt; JsonError::Memory; from_json(alloc, &mut cache, text));
    assert!(*rt; is_kept(&cache, strings.len()));
    for string in strings {
        assert!(*rt; cache.contains(string), "{string}");
    }
    cache.clear();
    let after = granted!(rt; JsonError::Memory; from_json(alloc, &mut cache, text));
    drop(cache);
    assert!(*rt; before == after);
    is_written(rt, alloc, &before, text);
    is_written(rt, alloc, &after, text);
    drop(before);
    drop(after);
}

/// Asserts the property `is` of `text`. Devices move `piece` bytes per call.
fn holds(rt: &impl Abort, alloc: Global, text: &str, is: Is, piece: usize) {
    match is {
        Is::As(want) => is_rewritten(rt, alloc, text, want, piece),
        Is::Same => is_rewritten(rt, alloc, text, text, piece),
        Is::Adds(strings) => adds(rt, alloc, text, strings),
        Is::Fed(words) => {
            let value = parsed(rt, alloc, text);
            counted!(alloc; feeds_words(rt, &value, words));
            drop(value);
        }
        Is::Room(room) => {
            let value = parsed(rt, alloc, text);
            has_room(rt, &value, room);
            drop(value);
        }
    }
}

pub fn all_hold(rt: &impl Abort, alloc: Global, rows: &[(&str, Is)], piece: usize) {
    for &(text, is) in rows {
        holds(rt, alloc, text, is, piece);
    }
}

pub fn repeated_are_rewritten(rt: &impl Abort, alloc: Global, rows: &[Parts], piece: usize) {
    for parts in rows {
        let text = repeated(rt, alloc, parts);
        is_rewritten(rt, alloc, text.as_str(), text.as_str(), piece);
    }
}

#[test]
fn texts_are_written(rt: HostRuntime) {
    all_hold(&rt, rt.alloc(), &WRITTEN, 3);
}

#[test]
fn values_are_known(rt: HostRuntime) {
    all_hold(&rt, rt.alloc(), &VALUES, 3);
}

#[test]
fn repeated_parts(rt: HostRuntime) {
    repeated_are_rewritten(&rt, rt.alloc(), &REPEATED, 3);
}

fn fails(rt: &impl Abort, alloc: Global, text: &str, want: JsonError) {
    let mut found = from_json(alloc, &mut empty_cache(alloc), text).err();
    if found == Some(JsonError::Memory) {
        found = from_json(alloc, &mut empty_cache(alloc), text).err();
    }
    assert!(*rt; found == Some(want), "{}", text.get(..40).unwrap_or(text));
}

/// Asserts that reading `text` fails, also from devices that move `piece` bytes per call.
fn fails_by(rt: &impl Abort, alloc: Global, text: &str, want: JsonError, piece: usize) {
    fails(rt, alloc, text, want);
    let (text, devices) = (text.as_bytes(), (piece, text.len() + 1, 1));
    let outcome = (Err(CompactError::Json(want)), b"".as_slice());
    follows(rt, alloc, &mut empty_cache(alloc), text, devices, outcome);
}

/// Returns the text without its mark, which `FAULTS` explains, and the error at the mark.
fn unmarked(rt: &impl Abort, alloc: Global, marked: &str) -> (String, JsonError) {
    let is_range = marked.contains('~');
    let mark = if is_range { '~' } else { '|' };
    let (before, after) = marked.split_once(mark).expect(rt, marked);
    let at = before.len();
    let text = granted!(rt; format!(in alloc; "{before}{after}"));
    if is_range {
        (text, JsonError::NumberRange { at })
    } else {
        (text, JsonError::Syntax { at })
    }
}

fn marked_fail_by(rt: &impl Abort, alloc: Global, piece: usize) {
    for marked in &FAULTS {
        let (text, error) = unmarked(rt, alloc, marked);
        fails_by(rt, alloc, text.as_str(), error, piece);
    }
}

fn deep_fail_by(rt: &impl Abort, alloc: Global, piece: usize) {
    for &(parts, at) in &DEEP {
        let text = repeated(rt, alloc, &parts);
        fails_by(rt, alloc, text.as_str(), JsonError::TooDeep { at }, piece);
    }
}

/// Asserts the errors of all texts in `FAULTS` and `DEEP`.
pub fn all_fail_by(rt: &impl Abort, alloc: Global, piece: usize) {
    marked_fail_by(rt, alloc, piece);
    deep_fail_by(rt, alloc, piece);
}

#[test]
fn each_kind_of_error(rt: HostRuntime) {
    all_fail_by(&rt, rt.alloc(), 3);
}

/// The escape that is written for each control character, at the index of its code.
static ESCAPES: [&str; 32] = [
    "\\u0000", "\\u0001", "\\u0002", "\\u0003", "\\u0004", "\\u0005", "\\u0006", "\\u0007", "\\b",
    "\\t", "\\n", "\\u000b", "\\f", "\\r", "\\u000e", "\\u000f", "\\u0010", "\\u0011", "\\u0012",
    "\\u0013", "\\u0014", "\\u0015", "\\u0016", "\\u0017", "\\u0018", "\\u0019", "\\u001a",
    "\\u001b", "\\u001c", "\\u001d", "\\u001e", "\\u001f",
];

/// Checks that each control character below U+0020 is rejected unescaped, and written as an escape.
#[test]
fn control_characters(rt: HostRuntime) {
    let alloc = rt.alloc();
    for code in 0..32u8 {
        let text = granted!(&rt; format!(in alloc; "\"\\u{code:04x}\""));
        let want = granted!(&rt; format!(in alloc; "\"{}\"", ESCAPES[code as usize]));
        let value = parsed(&rt, alloc, text.as_str());
        is_written(&rt, alloc, &value, want.as_str());
        drop(value);
        let raw = granted!(&rt; format!(in alloc; "\"{}\"", code as char));
        fails(&rt, alloc, raw.as_str(), JsonError::Syntax { at: 1 });
    }
}

/// Appends a comma, a quoted string or a key, and returns `true` if that succeeded.
fn push_part(text: &mut String, part: char) -> bool {
    match part {
        ',' => push_separator(text, false).is_ok(),
        '"' => push_quoted(text, "0123456789\n").is_ok(),
        _ => push_key(text, "0123456789\n", false).is_ok(),
    }
}

/// Parts for `push_part`, each with the text that results from appending it to `true`.
static PARTS: [(char, &str); 3] = [
    (',', "true,"),
    ('"', r#"true"0123456789\n""#),
    (':', r#"true,"0123456789\n":"#),
];

/// Returns the string `true` without spare capacity.
fn full_text(rt: &impl Abort, alloc: Global) -> String {
    let mut text = granted!(rt; String::with_capacity(alloc, 4));
    text.push_str("true").expect(rt, "room");
    text
}

/// Checks that a part is appended, or only a proper prefix of it if an allocation fails.
#[test]
fn parts_are_appended(rt: HostRuntime) {
    for &(part, want) in &PARTS {
        let mut found = full_text(&rt, rt.alloc());
        if !push_part(&mut found, part) {
            let begun = found.as_str();
            assert!(rt; begun.starts_with("true") && want.starts_with(begun) && begun != want);
            found = full_text(&rt, rt.alloc());
            assert!(rt; push_part(&mut found, part));
        }
        assert!(rt; found.as_str() == want);
        drop(found);
    }
}

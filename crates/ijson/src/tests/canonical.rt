//! Tests of canonical JSON text.

mod large;

use crate::array::IArray;
use crate::canonical::canonical_json;
use crate::json::{JsonError, from_json, push_separator};
use crate::number::INumber;
use crate::tests::caches::empty_cache;
use crate::tests::texts::{is_written, parsed};
use crate::value::IValue;
use std::alloc::{AllocError, Global};
use std::process::Abort;

/// JSON texts with their canonical texts. Keys are sorted by bytes: U+10000 is after U+FFFF, unlike
/// in UTF-16, and `"` is before `A`, although its escape `\"` is after `A`.
#[rattlefmt::skip]
static TEXTS: [(&str, &str); 12] = [
    (r#"{"b":2.0,"a":[10,0.0]}"#, r#"{"a":[1e1,0],"b":2e0}"#),
    (r#"{"a":-0.5,"b":100,"c":[1.50]}"#, r#"{"a":-5e-1,"b":1e2,"c":[15e-1]}"#),
    (r#"{"é":1,"z":2}"#, r#"{"z":2e0,"é":1e0}"#),
    ("10e1073741823", "1e1073741824"),
    ("-0.0", "0"),
    ("12345678901234567890.5", "123456789012345678905e-1"),
    ("{\"\u{10000}\":null,\"\u{ffff}\":true}", "{\"\u{ffff}\":true,\"\u{10000}\":null}"),
    (r#"{"A":[],"\"":{}}"#, r#"{"\"":{},"A":[]}"#),
    (r#"[{"b":{"d":"\n","c":false},"a":{"ab":[],"":{}}}]"#, r#"[{"a":{"":{},"ab":[]},"b":{"c":false,"d":"\n"}}]"#),
    (r#"{"abcdz":0,"abcd":1,"abc":2,"abc\u0000":3,"abcdé":4,"abcz":5,"abcé":6,"":7}"#,
     r#"{"":7e0,"abc":2e0,"abc\u0000":3e0,"abcd":1e0,"abcdz":0,"abcdé":4e0,"abcz":5e0,"abcé":6e0}"#),
    ("{\"abcdefghi\":0,\"abcdefgh\":1,\"abcdefg\":2,\"abcdefgha\":3,\"\":4,\"\\u0000\":5,\"é\":6,\"z\":7,\
     \"a\":8,\"a\\u0000\":9,\"abcdefghé\":10,\"abcdefgh\\u0000\":11}",
     "{\"\":4e0,\"\\u0000\":5e0,\"a\":8e0,\"a\\u0000\":9e0,\"abcdefg\":2e0,\"abcdefgh\":1e0,\
      \"abcdefgh\\u0000\":11e0,\"abcdefgha\":3e0,\"abcdefghi\":0,\"abcdefghé\":1e1,\"z\":7e0,\"é\":6e0}"),
    ("{\"key:abcdefghi\":0,\"key:abcdefgh\":1,\"key:abcdefg\":2,\"key:abcdefgha\":3,\"key:\":4,\
     \"key:\\u0000\":5,\"key:é\":6,\"key:z\":7,\"key:a\":8,\"key:a\\u0000\":9,\"key:abcdefghé\":10,\
     \"key:abcdefgh\\u0000\":11}",
     "{\"key:\":4e0,\"key:\\u0000\":5e0,\"key:a\":8e0,\"key:a\\u0000\":9e0,\"key:abcdefg\":2e0,\
      \"key:abcdefgh\":1e0,\"key:abcdefgh\\u0000\":11e0,\"key:abcdefgha\":3e0,\"key:abcdefghi\":0,\
      \"key:abcdefghé\":1e1,\"key:z\":7e0,\"key:é\":6e0}"),
];

/// JSON texts that are written as they are read, with their canonical texts. The second canonical
/// text exceeds its initial capacity; its second object exceeds the list reused from the first
/// object.
#[rattlefmt::skip]
static KEPT: [(&str, &str); 2] = [
    (r#"{"b":{"d":2.0,"c":[10,0.0]},"a":"longlong"}"#, r#"{"a":"longlong","b":{"c":[1e1,0],"d":2e0}}"#),
    ("[{\"b\":1,\"a\":2},{\"f\":1,\"e\":2,\"d\":3,\"c\":4,\"b\":5,\"a\":6},\
     \"abcdefghijklmnopqrstuvwxyz0123456789ABCDEFGHIJKLMNOPQRSTUVWXYZ9876543210\"]",
     "[{\"a\":2e0,\"b\":1e0},{\"a\":6e0,\"b\":5e0,\"c\":4e0,\"d\":3e0,\"e\":2e0,\"f\":1e0},\
      \"abcdefghijklmnopqrstuvwxyz0123456789ABCDEFGHIJKLMNOPQRSTUVWXYZ9876543210\"]"),
];

fn is_canonical(rt: &impl Abort, alloc: Global, value: &IValue, want: &str) {
    let found = granted!(rt; canonical_json(alloc, value));
    assert!(*rt; found.as_str() == want, "{found} is not {want}");
}

#[test]
fn texts(rt: HostRuntime) {
    let alloc = rt.alloc();
    for &(text, want) in &TEXTS {
        let value = parsed(&rt, alloc, text);
        is_canonical(&rt, alloc, &value, want);
        drop(value);
    }
    for &(text, want) in &KEPT {
        let value = parsed(&rt, alloc, text);
        is_canonical(&rt, alloc, &value, want);
        is_written(&rt, alloc, &value, text);
        drop(value);
    }
}

type Text = Result<String, AllocError>;

/// Returns `count` copies of `front`, then `inner`, and then `count` copies of `behind`.
fn nested(alloc: Global, front: &str, inner: &str, behind: &str, count: usize) -> Text {
    let front = front.repeat(alloc, count)?;
    let behind = behind.repeat(alloc, count)?;
    format!(in alloc; "{front}{inner}{behind}")
}

/// Returns `count` nested arrays.
fn arrays(rt: &impl Abort, alloc: Global, count: usize) -> IValue {
    let mut value = IValue::from(IArray::new(alloc));
    for _ in 1..count {
        let mut outer = IArray::new(alloc);
        if let Err(refused) = outer.push(value) {
            assert!(*rt; outer.is_empty());
            outer.push(refused.0).expect(rt, "an item");
        }
        value = IValue::from(outer);
    }
    value
}

/// Checks that 128 nested arrays are written, although their text is nested too deeply to be read.
#[test]
fn any_depth(rt: HostRuntime) {
    let alloc = rt.alloc();
    let text = granted!(&rt; nested(alloc, "[", "", "]", 128));
    let value = arrays(&rt, alloc, 128);
    is_canonical(&rt, alloc, &value, text.as_str());
    is_written(&rt, alloc, &value, text.as_str());
    drop(value);
    let mut cache = empty_cache(alloc);
    let mut fault = from_json(alloc, &mut cache, text.as_str()).err();
    if fault == Some(JsonError::Memory) {
        fault = from_json(alloc, &mut cache, text.as_str()).err();
    }
    drop(cache);
    assert!(rt; fault == Some(JsonError::TooDeep { at: 127 }));
}

/// Asserts that the canonical text of `count` nested objects swaps the two entries of each object.
fn objects_are_sorted(rt: &impl Abort, alloc: Global, count: usize) {
    let text = granted!(rt; nested(alloc, "{\"b\":0,\"a\":", "null", "}", count));
    let want = granted!(rt; nested(alloc, "{\"a\":", "null", ",\"b\":0}", count));
    let value = parsed(rt, alloc, text.as_str());
    is_canonical(rt, alloc, &value, want.as_str());
    drop(value);
}

#[derive(Clone, Copy)]
enum Keys {
    Rising,
    Falling,
}

/// Returns the text of `count` entries, whose keys have six digits.
fn members(alloc: Global, count: u32, keys: Keys) -> Text {
    let mut text = String::new(alloc);
    for n in 0..count {
        push_separator(&mut text, n == 0)?;
        text.push('"')?;
        let number = match keys {
            Keys::Rising => n.wrapping_add(100_000),
            Keys::Falling => count.wrapping_add(99_999).wrapping_sub(n),
        };
        INumber::from(number).push_to(&mut text)?;
        text.push_str("\":0")?;
    }
    Ok(text)
}

/// Returns the text of an array: a string of `size` letters, `size` zeros, an object with
/// `members`, and a number of `size` digits followed by `behind`.
fn much(alloc: Global, size: usize, members: &String, behind: &str) -> Text {
    let letters = "a".repeat(alloc, size)?;
    let digits = "1".repeat(alloc, size)?;
    let zeros = "0,".repeat(alloc, size)?;
    format!(in alloc; "[\"{letters}\",{zeros}{{{members}}},{digits}{behind}]")
}

/// Asserts the canonical text of `much` with an object of `count` entries in descending order.
fn much_is_sorted(rt: &impl Abort, alloc: Global, size: usize, count: u32) {
    let falling = granted!(rt; members(alloc, count, Keys::Falling));
    let rising = granted!(rt; members(alloc, count, Keys::Rising));
    let text = granted!(rt; much(alloc, size, &falling, ""));
    let want = granted!(rt; much(alloc, size, &rising, "e0"));
    let value = parsed(rt, alloc, text.as_str());
    is_canonical(rt, alloc, &value, want.as_str());
    drop(value);
}

#[test]
fn small_sizes(rt: HostRuntime) {
    objects_are_sorted(&rt, rt.alloc(), 5);
    much_is_sorted(&rt, rt.alloc(), 50, 20);
}

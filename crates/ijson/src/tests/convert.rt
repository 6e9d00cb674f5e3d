//! Tests of conversions from Rust values to values and back.

/// Returns the result of a conversion, which is repeated once if an allocation fails.
macro_rules! settled {
    ($call:expr) => {
        match $call {
            Err(ConvertError::Memory) => $call,
            settled => settled,
        }
    };
}

mod errors;
mod large;
mod literals;
mod serde;

use crate::convert::{ConvertError, FromIValue, ToIValue, from_value, to_value};
use crate::pointer::Pointer;
use crate::string::IString;
use crate::tests::caches::{Cache, empty_cache, interned};
use crate::tests::texts::{is_written, parsed};
use crate::value::IValue;
use indexmap::IndexMap;
use serde::there_and_back;
use std::alloc::{AllocError, Global};
use std::collections::{BTreeMap, HashMap};
use std::process::Abort;

type Converted<T> = Result<T, ConvertError>;

const THERE: &str = "a text that was there";

/// Returns a cache that contains only the string `THERE`.
fn used_cache(rt: &impl Abort, alloc: Global) -> Cache {
    let mut cache = empty_cache(alloc);
    drop(interned(rt, &mut cache, THERE));
    cache
}

/// The strings that these tests intern, of more than 7 bytes, each with its spelling in JSON text.
#[rattlefmt::skip]
static LONG: [(&str, &str); 5] = [
    ("longlong", "longlong"), ("eight888", "eight888"), ("a text of many bytes", "a text of many bytes"),
    ("a key of many bytes", "a key of many bytes"), ("a \"text\" of many bytes", r#"a \"text\" of many bytes"#),
];

/// Asserts that `cache` contains exactly `THERE` and the long strings that occur in `text`. A
/// string that a failed call added is counted too.
fn has_strings(rt: &impl Abort, cache: &Cache, text: &str) {
    let mut missing = cache.len();
    for &(string, written) in &LONG {
        let there = text.contains(written);
        assert!(*rt; cache.contains(string) == there, "{string}");
        missing = missing.wrapping_sub(usize::from(there));
    }
    assert!(*rt; cache.contains(THERE) && missing == 1, "{text}");
}

/// Asserts that the value of `x` is written as `want`, and which strings its conversion interns.
fn is_text<T: ToIValue>(rt: &impl Abort, alloc: Global, x: &T, want: &str) {
    let mut cache = used_cache(rt, alloc);
    let value = granted!(rt; ConvertError::Memory; to_value(alloc, &mut cache, x));
    has_strings(rt, &cache, want);
    drop(cache);
    is_written(rt, alloc, &value, want);
    let same = parsed(rt, alloc, want);
    assert!(*rt; value == same, "{want}");
    drop(same);
    drop(value);
}

/// Entries of two maps, in the order of insertion.
static PUT: [(&str, u8); 2] = [("b", 1), ("a", 2)];

static PUT_LONG: [(&str, [bool; 1]); 2] = [("longlong", [true]), ("eight888", [true])];

fn sorted(alloc: Global) -> Result<BTreeMap<String, u8>, AllocError> {
    let mut map: BTreeMap<String, u8> = BTreeMap::new(alloc);
    for &(letters, n) in &PUT {
        map.insert(String::from_str(alloc, letters)?, n)?;
    }
    Ok(map)
}

fn inserted<V: Copy + Drop>(
    alloc: Global,
    pairs: &[(&'static str, V)],
) -> Result<IndexMap<String, V>, AllocError> {
    let mut map: IndexMap<String, V> = IndexMap::new(alloc);
    for &(letters, value) in pairs {
        map.insert(String::from_str(alloc, letters)?, value)?;
    }
    Ok(map)
}

#[test]
fn maps_keep_their_order(rt: HostRuntime) {
    let alloc = rt.alloc();
    let map = granted!(&rt; sorted(alloc));
    is_text(&rt, alloc, &map, r#"{"a":2,"b":1}"#);
    drop(map);
    let map = granted!(&rt; inserted(alloc, &PUT));
    is_text(&rt, alloc, &map, r#"{"b":1,"a":2}"#);
    drop(map);
    let map = granted!(&rt; inserted(alloc, &PUT_LONG));
    is_text(&rt, alloc, &map, r#"{"longlong":[true],"eight888":[true]}"#);
    drop(map);
}

#[test]
fn slices_tuples_and_texts_are_values(rt: HostRuntime) {
    let alloc = rt.alloc();
    let slice: &[Option<u8>] = &[Some(255), None];
    is_text(&rt, alloc, &slice, "[255,null]");
    let text = "a \"text\" of many bytes";
    is_text(&rt, alloc, &text, r#""a \"text\" of many bytes""#);
    is_text(&rt, alloc, &(1u8, "x"), r#"[1,"x"]"#);
    is_text(&rt, alloc, &(1u8, "x", true), r#"[1,"x",true]"#);
    let tuple = ("x", true, None::<u8>, [1u8, 2]);
    is_text(&rt, alloc, &tuple, r#"["x",true,null,[1,2]]"#);
}

/// The JSON text of a value whose strings are interned in another cache.
static PART: &str = r#"{"k":[1.5,"a text of many bytes",{"a key of many bytes":null}]}"#;

fn part<'a>(rt: &impl Abort, value: &'a IValue, pointer: &str) -> &'a IValue {
    value.pointer(pointer).expect(rt, pointer)
}

#[test]
fn values_and_their_parts_are_values(rt: HostRuntime) {
    let alloc = rt.alloc();
    let value = parsed(&rt, alloc, PART);
    is_text(&rt, alloc, &value, PART);
    let object = value.as_object().expect(&rt, "an object");
    is_text(&rt, alloc, object, PART);
    let list = part(&rt, &value, "/k").as_array().expect(&rt, "an array");
    let want = r#"[1.5,"a text of many bytes",{"a key of many bytes":null}]"#;
    is_text(&rt, alloc, list, want);
    let number = part(&rt, &value, "/k/0").as_number();
    is_text(&rt, alloc, number.expect(&rt, "a number"), "1.5");
    let text = part(&rt, &value, "/k/1").as_string();
    let want = r#""a text of many bytes""#;
    is_text(&rt, alloc, text.expect(&rt, "a string"), want);
    drop(value);
    let text = r#"[{"eight888":1.5},[18446744073709551616,null,true]]"#;
    let value = parsed(&rt, alloc, text);
    is_text(&rt, alloc, &value, text);
    drop(value);
}

#[derive(Clone, Copy)]
enum Type {
    Truth,
    Integer,
    Text,
    Options,
    Bytes,
    Truths,
    Lists,
}

const PAST: Converted<&str> = Err(ConvertError::OutOfRange);

const WRONG_KIND: Converted<&str> = Err(ConvertError::WrongKind);

/// JSON texts and types, with the text after a conversion to the type and back, or the error.
#[rattlefmt::skip]
static READ: [(Type, &str, Converted<&str>); 25] = [
    (Type::Truth, "true", Ok("true")), (Type::Truth, "false", Ok("false")), (Type::Truth, "0", WRONG_KIND),
    (Type::Truth, "null", WRONG_KIND), (Type::Integer, "2.0", Ok("2")), (Type::Integer, "2.5", PAST),
    (Type::Integer, "\"x\"", WRONG_KIND), (Type::Text, r#""a text of many bytes""#, Ok(r#""a text of many bytes""#)),
    (Type::Text, r#""eight888""#, Ok(r#""eight888""#)), (Type::Text, r#""""#, Ok(r#""""#)),
    (Type::Text, "1", WRONG_KIND), (Type::Text, r#"["a"]"#, WRONG_KIND),
    (Type::Options, "[1,null,2.0]", Ok("[1,null,2]")), (Type::Options, "{}", WRONG_KIND),
    (Type::Bytes, r#"[1,256,"x"]"#, PAST), (Type::Bytes, r#"[1,"x",256]"#, WRONG_KIND),
    (Type::Truths, r#"{"b":true,"a":false}"#, Ok(r#"{"a":false,"b":true}"#)),
    (Type::Truths, r#"{"b":true,"a":1}"#, WRONG_KIND), (Type::Truths, "[]", WRONG_KIND),
    (Type::Lists, r#"{"b":[1,null],"eight888":[],"a":[-2.0]}"#, Ok(r#"{"a":[-2],"b":[1,null],"eight888":[]}"#)),
    (Type::Lists, r#"{"a":[1,null],"b":[],"eight888":[-2]}"#, Ok(r#"{"a":[1,null],"b":[],"eight888":[-2]}"#)),
    (Type::Lists, "{}", Ok("{}")), (Type::Lists, r#"{"a":null}"#, WRONG_KIND),
    (Type::Lists, r#"{"b":[1,2.5],"a":[true]}"#, PAST), (Type::Lists, r#"{"a":[1,true],"b":[2.5]}"#, WRONG_KIND),
];

/// Converts the value of the JSON text `text` to a `T`.
fn said<T: FromIValue + Drop>(rt: &impl Abort, alloc: Global, text: &str) -> Converted<T> {
    let value = parsed(rt, alloc, text);
    let said = settled!(from_value::<T>(alloc, &value));
    drop(value);
    said
}

/// Converts the value of `text` to a `T` and back, and asserts the resulting text or the error.
fn is_read<T: FromIValue + ToIValue + Drop>(
    rt: &impl Abort,
    alloc: Global,
    text: &str,
    wanted: Converted<&str>,
) {
    match said::<T>(rt, alloc, text) {
        Ok(x) => is_text(rt, alloc, &x, wanted.expect(rt, text)),
        Err(why) => assert!(*rt; wanted == Err(why), "{text}"),
    }
}

#[test]
fn values_are_read_as_their_types(rt: HostRuntime) {
    let alloc = rt.alloc();
    for &(which, text, wanted) in &READ {
        match which {
            Type::Truth => is_read::<bool>(&rt, alloc, text, wanted),
            Type::Integer => is_read::<i32>(&rt, alloc, text, wanted),
            Type::Text => {
                is_read::<String>(&rt, alloc, text, wanted);
                is_read::<IString>(&rt, alloc, text, wanted);
            }
            Type::Options => is_read::<Vec<Option<i64>>>(&rt, alloc, text, wanted),
            Type::Bytes => is_read::<Vec<u8>>(&rt, alloc, text, wanted),
            Type::Truths => is_read::<BTreeMap<String, bool>>(&rt, alloc, text, wanted),
            Type::Lists => {
                is_read::<BTreeMap<String, Vec<Option<i32>>>>(&rt, alloc, text, wanted)
            }
        }
    }
}

/// Integers, each with the bits of the smallest signed and unsigned types that contain it, or 128
/// if no type of up to 64 bits does.
#[rattlefmt::skip]
static INTEGERS: [(&str, u8, u8); 26] = [
    ("-9223372036854775809", 128, 128), ("-9223372036854775808", 64, 128), ("-2147483649", 64, 128),
    ("-2147483648", 32, 128), ("-32769", 32, 128), ("-32768", 16, 128), ("-129", 16, 128), ("-128", 8, 128),
    ("-1", 8, 128), ("0", 8, 8), ("127", 8, 8), ("128", 16, 8), ("255", 16, 8), ("256", 16, 16), ("32767", 16, 16),
    ("32768", 32, 16), ("65535", 32, 16), ("65536", 32, 32), ("2147483647", 32, 32), ("2147483648", 64, 32),
    ("4294967295", 64, 32), ("4294967296", 64, 64), ("9223372036854775807", 64, 64), ("9223372036854775808", 128, 64),
    ("18446744073709551615", 128, 64), ("18446744073709551616", 128, 128),
];

/// Asserts that an integer converts to a `T`, and back to its text, exactly if `fits` is set.
fn is_in<T: FromIValue + ToIValue + Drop>(rt: &impl Abort, alloc: Global, text: &str, fits: bool) {
    match said::<T>(rt, alloc, text) {
        Ok(x) => {
            let mut cache = empty_cache(alloc);
            let value = granted!(rt; ConvertError::Memory; to_value(alloc, &mut cache, &x));
            is_written(rt, alloc, &value, text);
            assert!(*rt; fits, "{text}");
        }
        Err(why) => assert!(*rt; why == ConvertError::OutOfRange && !fits, "{text}"),
    }
}

#[test]
fn integers_are_in_range(rt: HostRuntime) {
    let alloc = rt.alloc();
    for &(text, signed, unsigned) in &INTEGERS {
        is_in::<i8>(&rt, alloc, text, signed == 8);
        is_in::<i16>(&rt, alloc, text, signed <= 16);
        is_in::<i32>(&rt, alloc, text, signed <= 32);
        is_in::<i64>(&rt, alloc, text, signed <= 64);
        is_in::<isize>(&rt, alloc, text, signed <= 64);
        is_in::<u8>(&rt, alloc, text, unsigned == 8);
        is_in::<u16>(&rt, alloc, text, unsigned <= 16);
        is_in::<u32>(&rt, alloc, text, unsigned <= 32);
        is_in::<u64>(&rt, alloc, text, unsigned <= 64);
        is_in::<usize>(&rt, alloc, text, unsigned <= 64);
    }
}

type Twice = Option<Option<u8>>;

/// Compares the converted values themselves. Null is the nested option `None`, not `Some(None)`.
#[test]
fn lists_and_options_are_read(rt: HostRuntime) {
    let alloc = rt.alloc();
    let list = said::<Vec<Option<i64>>>(&rt, alloc, "[1,null,2.0]").expect(&rt, "a list");
    assert!(rt; list.as_slice() == [Some(1), None, Some(2)].as_slice());
    drop(list);
    assert!(rt; said::<i32>(&rt, alloc, "2.0") == Ok(2));
    assert!(rt; said::<Twice>(&rt, alloc, "null") == Ok(None));
    assert!(rt; said::<Twice>(&rt, alloc, "7.0") == Ok(Some(Some(7))));
    let list = said::<Vec<Twice>>(&rt, alloc, "[null,7]").expect(&rt, "a list");
    assert!(rt; list.as_slice() == [None, Some(Some(7))].as_slice());
    drop(list);
}

/// The length of a map, and the value of its key `a`.
type Found = (usize, Option<u8>);

fn said_of_a(rt: &impl Abort, alloc: Global, text: &str) -> Converted<Found> {
    let map = said::<HashMap<String, Option<u8>>>(rt, alloc, text)?;
    let found = (map.len(), map.get("a").copied().flatten());
    drop(map);
    Ok(found)
}

/// JSON texts, each with the length of its hash map and the value of `a`, or with the error.
static HASHED: [(&str, Converted<Found>); 7] = [
    ("{}", Ok((0, None))),
    ("{\"b\":1,\"a\":2.0,\"a long key\":null}", Ok((3, Some(2)))),
    ("{\"a\":1,\"b\":3,\"a\":255}", Ok((2, Some(255)))),
    ("{\"\":7}", Ok((1, None))),
    ("[]", Err(ConvertError::WrongKind)),
    ("{\"a\":1,\"b\":\"1\"}", Err(ConvertError::WrongKind)),
    ("{\"a\":256,\"b\":[]}", Err(ConvertError::OutOfRange)),
];

#[test]
fn hash_maps_are_read(rt: HostRuntime) {
    for &(text, wanted) in &HASHED {
        assert!(rt; said_of_a(&rt, rt.alloc(), text) == wanted, "{text}");
    }
    let text = r#"{"a":[true],"eight888":[]}"#;
    let map = said::<HashMap<String, Vec<bool>>>(&rt, rt.alloc(), text).expect(&rt, "a map");
    assert!(rt; map.len() == 2 && map.contains_key("eight888"));
    drop(map);
}

#[test]
fn strings_are_read_without_allocating(rt: HostRuntime) {
    let value = parsed(&rt, rt.alloc(), "\"a text of many bytes\"");
    let text = counted!(rt.alloc(); from_value::<IString>(rt.alloc(), &value));
    drop(value);
    let text = text.expect(&rt, "a string");
    assert!(rt; text.as_str() == "a text of many bytes");
    drop(text);
}

/// Asserts that converting `x` to a value and back, and the value to `serde_json` and back, changes
/// nothing. Returns the value.
fn goes_back<T: ToIValue + FromIValue + PartialEq + Drop>(
    rt: &impl Abort,
    alloc: Global,
    x: &T,
) -> IValue {
    let value = granted!(rt; ConvertError::Memory; to_value(alloc, &mut empty_cache(alloc), x));
    assert!(*rt; granted!(rt; ConvertError::Memory; from_value::<T>(alloc, &value)) == *x);
    let mut cache = empty_cache(alloc);
    let back = settled!(there_and_back(alloc, &mut cache, &value)).expect(rt, "a value");
    drop(cache);
    assert!(*rt; back == value);
    drop(back);
    value
}

fn letters_go_back(rt: &impl Abort, alloc: Global, count: usize) {
    let letters = granted!(rt; "a".repeat(alloc, count));
    drop(goes_back(rt, alloc, &letters));
}

/// Returns the numbers below `count`.
fn numbers(alloc: Global, count: u32) -> Result<Vec<u32>, AllocError> {
    let mut list = Vec::new(alloc);
    for n in 0..count {
        list.push(n)?;
    }
    Ok(list)
}

fn items_go_back(rt: &impl Abort, alloc: Global, count: u32) {
    let list = granted!(rt; numbers(alloc, count));
    let items = goes_back(rt, alloc, &list);
    assert!(*rt; items.len() == Some(count as usize));
    drop(items);
}

/// Returns a map of the numbers below `count`, whose keys are their digits.
fn numbered(alloc: Global, count: u32) -> Result<BTreeMap<String, u32>, AllocError> {
    let mut map: BTreeMap<String, u32> = BTreeMap::new(alloc);
    for n in 0..count {
        map.insert(format!(in alloc; "{n}")?, n)?;
    }
    Ok(map)
}

fn pairs_go_back(rt: &impl Abort, alloc: Global, count: u32) {
    let map = granted!(rt; numbered(alloc, count));
    let pairs = goes_back(rt, alloc, &map);
    let object = pairs.as_object().expect(rt, "an object");
    let count = count as usize;
    assert!(*rt; object.len() == count && object.capacity() == count);
    drop(pairs);
}

#[test]
fn sizes_go_back(rt: HostRuntime) {
    letters_go_back(&rt, rt.alloc(), 20);
    items_go_back(&rt, rt.alloc(), 20);
    pairs_go_back(&rt, rt.alloc(), 20);
}

//! Tests of conversions to `serde_json` and back, by the calls for values and for each kind.

use super::{Converted, has_strings, used_cache};
use crate::convert::{
    ConvertError, from_serde, from_serde_map, from_serde_number, to_serde, to_serde_map,
    to_serde_number,
};
use crate::number::INumber;
use crate::tests::caches::Cache;
use crate::tests::texts::{is_written, parsed};
use crate::value::{DestructuredRef, IValue};
use serde_json::Value;
use std::alloc::Global;
use std::process::Abort;

const NUMBER: Converted<&str> = Err(ConvertError::Number);

/// JSON texts, each with the texts or errors of two conversions: of its value to `serde_json` and
/// back, and of the value that `serde_json` reads.
#[rattlefmt::skip]
static SERDE: [(&str, Converted<&str>, Converted<&str>); 19] = [
    (r#"{"b":1,"a":2.0}"#, Ok(r#"{"a":2,"b":1}"#), NUMBER),
    (r#"{"b":1,"a":2}"#, Ok(r#"{"a":2,"b":1}"#), Ok(r#"{"a":2,"b":1}"#)), ("[18446744073709551616]", NUMBER, NUMBER),
    ("-9223372036854775809", NUMBER, NUMBER), ("[1,0.5]", NUMBER, NUMBER), ("1.5", NUMBER, NUMBER),
    ("1e100", NUMBER, NUMBER), ("2.0", Ok("2"), NUMBER), ("0", Ok("0"), Ok("0")), ("7", Ok("7"), Ok("7")),
    ("18446744073709551615", Ok("18446744073709551615"), Ok("18446744073709551615")),
    ("-9223372036854775808", Ok("-9223372036854775808"), Ok("-9223372036854775808")),
    ("9223372036854775808.0", Ok("9223372036854775808"), NUMBER),
    (r#"{"a":1,"b":2,"a":3}"#, Ok(r#"{"a":3,"b":2}"#), Ok(r#"{"a":3,"b":2}"#)),
    (r#"{"c":0,"b":1,"c":2,"a":3}"#, Ok(r#"{"a":3,"b":1,"c":2}"#), Ok(r#"{"a":3,"b":1,"c":2}"#)),
    (r#"[[{"y":[null,true,"a text of many bytes"],"x":{}}],"",-7]"#,
     Ok(r#"[[{"x":{},"y":[null,true,"a text of many bytes"]}],"",-7]"#),
     Ok(r#"[[{"x":{},"y":[null,true,"a text of many bytes"]}],"",-7]"#)),
    (r#"{"o":{"n":{"m":[[false]]}},"a key of many bytes":[[[1]]]}"#,
     Ok(r#"{"a key of many bytes":[[[1]]],"o":{"n":{"m":[[false]]}}}"#),
     Ok(r#"{"a key of many bytes":[[[1]]],"o":{"n":{"m":[[false]]}}}"#)),
    (r#"{"a":[{"b":[1,-0.25]}]}"#, NUMBER, NUMBER),
    (WRITTEN, Ok(r#"{"longlong":["eight888",{}],"n":[1,{"m":2}]}"#), NUMBER),
];

/// The JSON text of a value that must be unchanged after the conversions.
const WRITTEN: &str = r#"{"longlong":["eight888",{}],"n":[1,{"m":2.0}]}"#;

/// Converts a `serde_json` value to a value, by the call for its kind.
fn from_kind(alloc: Global, cache: &mut Cache, value: &Value) -> Converted<IValue> {
    match value {
        Value::Number(number) => Ok(IValue::from(counted!(alloc; from_serde_number(number))?)),
        Value::Object(map) => Ok(IValue::from(from_serde_map(alloc, cache, map)?)),
        other => from_serde(alloc, cache, other),
    }
}

fn to_kind(alloc: Global, value: &IValue) -> Converted<Value> {
    match value.destructure_ref() {
        DestructuredRef::Number(number) => {
            Ok(Value::Number(counted!(alloc; to_serde_number(number))?))
        }
        DestructuredRef::Object(object) => Ok(Value::Object(to_serde_map(alloc, object)?)),
        _ => to_serde(alloc, value),
    }
}

/// Converts a value to `serde_json` and back.
pub(super) fn there_and_back(
    alloc: Global,
    cache: &mut Cache,
    value: &IValue,
) -> Converted<IValue> {
    let there = to_serde(alloc, value)?;
    let back = from_serde(alloc, cache, &there);
    drop(there);
    back
}

fn by_kind(alloc: Global, cache: &mut Cache, value: &IValue) -> Converted<IValue> {
    let there = to_kind(alloc, value)?;
    let back = from_kind(alloc, cache, &there);
    drop(there);
    back
}

/// Asserts that `answer` is the wanted error, or equals `same`, with the wanted text and strings.
fn is_wanted(
    rt: &impl Abort,
    alloc: Global,
    cache: Cache,
    answer: Converted<IValue>,
    same: &IValue,
    wanted: Converted<&str>,
) {
    match answer {
        Ok(value) => {
            let want = wanted.expect(rt, "an error");
            has_strings(rt, &cache, want);
            assert!(*rt; value == *same, "{want}");
            is_written(rt, alloc, &value, want);
            drop(value);
        }
        Err(why) => assert!(*rt; wanted == Err(why)),
    }
    drop(cache);
}

/// Asserts the text or the error `back` of converting `value` to `serde_json` and back, by the call
/// for values and by the calls for each kind.
fn goes_back(rt: &impl Abort, alloc: Global, value: &IValue, back: Converted<&str>) {
    let mut cache = used_cache(rt, alloc);
    let answer = settled!(there_and_back(alloc, &mut cache, value));
    is_wanted(rt, alloc, cache, answer, value, back);
    let mut cache = used_cache(rt, alloc);
    let answer = settled!(by_kind(alloc, &mut cache, value));
    is_wanted(rt, alloc, cache, answer, value, back);
}

/// Asserts the text or the error `over` of converting the value that `serde_json` reads from
/// `text`, by the call for values and by the calls for each kind.
fn goes_over(rt: &impl Abort, alloc: Global, text: &str, value: &IValue, over: Converted<&str>) {
    let there = match Value::from_str(alloc, text) {
        Ok(there) => there,
        Err(_) => Value::from_str(alloc, text).expect(rt, text),
    };
    let mut cache = used_cache(rt, alloc);
    let answer = settled!(from_serde(alloc, &mut cache, &there));
    is_wanted(rt, alloc, cache, answer, value, over);
    let mut cache = used_cache(rt, alloc);
    let answer = settled!(from_kind(alloc, &mut cache, &there));
    is_wanted(rt, alloc, cache, answer, value, over);
    drop(there);
}

#[test]
fn values_go_back(rt: HostRuntime) {
    let alloc = rt.alloc();
    for &(text, back, _) in &SERDE {
        let value = parsed(&rt, alloc, text);
        let there = settled!(to_serde(alloc, &value)).err();
        assert!(rt; there == back.err(), "{text}");
        goes_back(&rt, alloc, &value, back);
        if text == WRITTEN {
            is_written(&rt, alloc, &value, WRITTEN);
        }
        drop(value);
    }
    let past = parsed(&rt, alloc, "1e400");
    assert!(rt; settled!(to_serde(alloc, &past)).err() == Some(ConvertError::Number));
    drop(past);
}

#[test]
fn values_go_over(rt: HostRuntime) {
    let alloc = rt.alloc();
    for &(text, _, over) in &SERDE {
        let value = parsed(&rt, alloc, text);
        goes_over(&rt, alloc, text, &value, over);
        drop(value);
    }
}

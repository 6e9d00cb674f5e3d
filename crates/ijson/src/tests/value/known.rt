//! Tests of the properties of values of all kinds.

use super::built::Part::{self, Array, Bool, Characters, Null, Number, Numbers, Object, Text};
use super::built::built;
use super::moves::{capacity_of, is_emptied, is_taken};
use crate::array::IArray;
use crate::object::IObject;
use crate::tests::hashes::{feeds, hash_of};
use crate::tests::shown::is_shown;
use crate::value::{DestructuredMut, DestructuredRef, IValue, ValueType};
use std::alloc::{AllocError, Global};
use std::cmp::Ordering;
use std::process::Abort;

/// A value, built from `parts`, with its expected properties.
struct Known {
    parts: &'static [Part],
    /// Values of the same rank are equal. Values of different ranks are ordered by rank, unless
    /// both are objects, which are not ordered.
    rank: usize,
    shown: &'static str,
    /// The debug output with a width of 6, if it differs from `shown`. As in std, a width pads a
    /// Boolean, also in a list, but not a string.
    wide: &'static [&'static str],
    /// The words that the value feeds a hasher, or an empty list if the words are not checked.
    words: &'static [u64],
}

/// Creates a table of `Known` from rows of a rank, parts, debug output and words.
macro_rules! known {
    ($($rank:literal: $parts:tt $shown:literal $(/ $wide:literal)? [$($word:literal),*])*) => {
        [$(Known { parts: &$parts, rank: $rank, shown: $shown, wide: &[$($wide)?], words: &[$($word),*] }),*]
    };
}

/// Values of all kinds, in ascending order of their ranks.
static KNOWN: [Known; 41] = known! {
    0: [Null] "null" [0]
    1: [Bool(false)] "false" / " false" [1, 0]
    2: [Bool(true)] "true" / "  true" []
    3: [Number("-1.50")] "-1.5" []
    4: [Number("-0.5")] "-0.5" [2, 2, 2147483647, 1, 5]
    5: [Number("1")] "1" []
    6: [Number("2")] "2" []
    6: [Number("2.0")] "2.0" []
    7: [Number("2.5")] "2.5" []
    8: [Number("3")] "3" []
    9: [Text("")] r#""""# []
    10: [Text("\"\\\n\u{1}é")] r#""\"\\\n\u{1}é""# []
    11: [Text("2")] r#""2""# []
    12: [Text("a longer text")] r#""a longer text""# []
    13: [Text("hi")] r#""hi""# [3, 2, 104, 105]
    14: [Text("s")] r#""s""# []
    15: [Text("short")] r#""short""# []
    16: [Text("t")] r#""t""# []
    20: [Array(0)] "[]" [4, 0]
    21: [Null, Text("a"), Array(1), Text("c"), Object(&["b"]), Array(3)] r#"[null, ["a"], {"b": "c"}]"# []
    22: [Bool(true), Array(1)] "[true]" / "[  true]" [4, 1, 1, 1]
    23: [Bool(true), Null, Text("s"), Bool(false), Object(&["k"]), Array(4)]
    r#"[true, null, "s", {"k": false}]"# / r#"[  true, null, "s", {"k":  false}]"# []
    24: [Number("1"), Array(1)] "[1]" []
    25: [Number("1"), Number("2"), Array(2)] "[1, 2]" []
    25: [Number("1.0"), Number("2"), Array(2)] "[1.0, 2]" []
    26: [Number("2"), Array(1)] "[2]" []
    27: [
        Number("12345678901234567890123.5"), Text("eight888"), Bool(true), Array(0), Array(2),
        Number("1"), Array(0), Object(&["a"]), Object(&["k", "longlong"]), Array(4)
    ] r#"[12345678901234567890123.5, "eight888", [true, []], {"k": 1, "longlong": {"a": []}}]"#
    / r#"[12345678901234567890123.5, "eight888", [  true, []], {"k": 1, "longlong": {"a": []}}]"# []
    28: [Number("123456789012345678901234567891"), Text("eight888"), Array(2)]
    r#"[123456789012345678901234567891, "eight888"]"# [
        4, 2, 2, 1, 2147483648, 30, 1, 2, 3, 4, 5, 6, 7, 8, 9, 0, 1, 2, 3, 4, 5, 6, 7, 8, 9, 0,
        1, 2, 3, 4, 5, 6, 7, 8, 9, 1, 3, 8, 101, 105, 103, 104, 116, 56, 56, 56
    ]
    29: [Number("1.0"), Object(&["k"]), Array(1)] r#"[{"k": 1.0}]"# [4, 1, 5, 1, 7714392845486680433]
    30: [Object(&[])] "{}" [5, 0, 0]
    31: [Number("0"), Object(&["k"])] r#"{"k": 0}"# []
    32: [Number("1"), Object(&["x"])] r#"{"x": 1}"# []
    33: [Number("2"), Object(&["x"])] r#"{"x": 2}"# []
    34: [Number("1"), Number("2"), Object(&["x", "y"])] r#"{"x": 1, "y": 2}"# []
    34: [Number("2.0"), Number("1e0"), Object(&["y", "x"])] r#"{"y": 2.0, "x": 1.0}"# []
    35: [Number("2"), Number("1"), Object(&[]), Array(2), Object(&["k", "l"])]
    r#"{"k": 2, "l": [1, {}]}"# [5, 2, 4038060259889821969]
    36: [Text("v"), Text("a longer text"), Bool(true), Array(2), Object(&["k\"", "l"])]
    r#"{"k\"": "v", "l": ["a longer text", true]}"# / r#"{"k\"": "v", "l": ["a longer text",   true]}"# []
    37: [Number("1"), Number("2"), Number("3"), Number("4"), Object(&["a", "b", "c", "d"])]
    r#"{"a": 1, "b": 2, "c": 3, "d": 4}"# []
    37: [Number("4"), Number("3"), Number("2"), Number("1"), Object(&["d", "c", "b", "a"])]
    r#"{"d": 4, "c": 3, "b": 2, "a": 1}"# []
    38: [Number("1"), Array(0), Object(&["a"]), Object(&["k", "longlong"])]
    r#"{"k": 1, "longlong": {"a": []}}"# []
    39: [Number("1"), Number("2"), Number("3"), Array(2), Number("0.5"), Object(&["d"]), Object(&["a", "b", "c"])]
    r#"{"a": 1, "b": [2, 3], "c": {"d": 0.5}}"# []
};

/// Returns the kind of a value with the last part `part`, the name of the kind, the length, and the
/// debug output after the value is emptied.
fn summary(part: Part) -> (ValueType, &'static str, Option<usize>, &'static str) {
    match part {
        Null => (ValueType::Null, "Null", None, "null"),
        Bool(true) => (ValueType::Bool, "Bool", None, "false"),
        Bool(false) => (ValueType::Bool, "Bool", None, "true"),
        Number(_) => (ValueType::Number, "Number", None, "0"),
        Text(_) => (ValueType::String, "String", None, "\"\""),
        Array(len) | Numbers(len) => (ValueType::Array, "Array", Some(len), "[]"),
        Object(keys) => (ValueType::Object, "Object", Some(keys.len()), "{}"),
        Characters(count) => (ValueType::Object, "Object", Some(usize::from(count)), "{}"),
    }
}

/// Returns `true` if each query for a kind reports that `value` is of the kind `kind` and no other.
pub fn is_of_kind(value: &IValue, kind: ValueType) -> bool {
    let queries = [
        (ValueType::Null, value.is_null()),
        (ValueType::Bool, value.is_bool()),
        (ValueType::Number, value.is_number()),
        (ValueType::String, value.is_string()),
        (ValueType::Array, value.is_array()),
        (ValueType::Object, value.is_object()),
        (ValueType::Number, value.as_number().is_some()),
        (ValueType::String, value.as_string().is_some()),
        (ValueType::String, value.as_str().is_some()),
        (ValueType::Array, value.as_array().is_some()),
        (ValueType::Object, value.as_object().is_some()),
    ];
    value.type_() == kind
        && queries
            .iter()
            .all(|&(asked, is_so)| is_so == (asked == kind))
        && (value.destructure_ref() == DestructuredRef::Null) == (kind == ValueType::Null)
}

/// Asserts the results of the queries of a value whose last part is `last`.
fn is_queried(rt: &impl Abort, value: &IValue, last: Part) {
    let (kind, _, len, _) = summary(last);
    assert!(*rt; is_of_kind(value, kind) && value.len() == len);
    assert!(*rt; value.is_empty() == len.map(|len| len == 0));
    let truth = match last {
        Bool(truth) => Some(truth),
        _ => None,
    };
    assert!(*rt; value.to_bool() == truth && value.as_bool() == truth);
    assert!(*rt; value.is_true() == (truth == Some(true)));
    assert!(*rt; value.is_false() == (truth == Some(false)));
}

/// Asserts that `value`, and the array or object in it, feed a hasher exactly `words`. If `words`
/// is empty, nothing is asserted.
fn feeds_whole(rt: &impl Abort, value: &IValue, words: &[u64]) {
    if words.is_empty() {
        return;
    }
    feeds(rt, value, words);
    match value.destructure_ref() {
        DestructuredRef::Array(array) => feeds(rt, array, words),
        DestructuredRef::Object(object) => feeds(rt, object, words),
        _ => {}
    }
}

/// Returns a copy of `value`, and asserts that the copy is equal and lacks spare capacity.
fn copied(rt: &impl Abort, value: &IValue) -> IValue {
    let copy = granted!(rt; value.clone());
    assert!(*rt; copy == *value && capacity_of(&copy) == value.len());
    copy
}

/// Asserts that an array created from `items` has equal elements and lacks spare capacity.
fn copies_items(rt: &impl Abort, alloc: Global, items: &[IValue]) {
    let array = granted!(rt; IArray::from_slice(alloc, items));
    assert!(*rt; array.as_slice() == items && array.capacity() == items.len());
    drop(array);
}

/// Asserts that a copy of `array`, and an array of its elements, are equal and lack spare capacity.
fn copies_array(rt: &impl Abort, alloc: Global, array: &IArray) {
    let copy = granted!(rt; array.clone());
    assert!(*rt; copy == *array && copy.capacity() == array.len());
    drop(copy);
    copies_items(rt, alloc, array.as_slice());
}

/// Asserts that a copy of `object` is equal to it and lacks spare capacity.
fn copies_object(rt: &impl Abort, object: &IObject) {
    let copy = granted!(rt; object.clone());
    assert!(*rt; copy == *object && copy.capacity() == object.len());
    drop(copy);
}

/// Asserts that each call that copies `value`, or the array or object in it, returns an equal copy.
fn copies(rt: &impl Abort, alloc: Global, value: &IValue) {
    drop(copied(rt, value));
    match value.destructure_ref() {
        DestructuredRef::Array(array) => copies_array(rt, alloc, array),
        DestructuredRef::Object(object) => copies_object(rt, object),
        _ => {}
    }
}

/// Asserts that each call that copies the value `known` returns an equal copy. Copying a value of
/// one part must not allocate.
fn is_copied(rt: &impl Abort, alloc: Global, known: &Known) {
    let value = built(rt, alloc, known.parts);
    if known.parts.len() == 1 {
        counted!(alloc; copies(rt, alloc, &value));
    } else {
        copies(rt, alloc, &value);
    }
    let items = [copied(rt, &value), value];
    copies_items(rt, alloc, &items);
    drop(items);
}

/// Asserts the debug output of mutable content: `want`, or a `BoolMut` with `shown` for a Boolean.
fn is_shown_mutable(
    rt: &impl Abort,
    alloc: Global,
    value: DestructuredMut<'_>,
    shown: &str,
    want: &str,
) {
    match value {
        DestructuredMut::Bool(truth) => {
            let want = granted!(rt; format!(in alloc; "BoolMut {{ place: {shown} }}"));
            is_shown(rt, alloc, &truth, &want);
        }
        other => is_shown(rt, alloc, &other, want),
    }
}

/// Returns the expected debug output of the content of a value, which is `Null` for null.
fn opened<'a>(name: &'a str, shown: &'a str) -> &'a str {
    if name == "Null" { name } else { shown }
}

/// Asserts the debug output of the content of `value`, by each call that destructures it.
fn is_opened(rt: &impl Abort, alloc: Global, mut value: IValue, name: &str, shown: &str) {
    let text = granted!(rt; format!(in alloc; "{name}({shown})"));
    let want = opened(name, &text);
    is_shown(rt, alloc, &value.type_(), name);
    is_shown(rt, alloc, &value.destructure_ref(), want);
    is_shown_mutable(rt, alloc, value.destructure_mut(), shown, want);
    let content = value.destructure();
    is_shown(rt, alloc, &content, want);
    drop(content);
}

fn are_shown(rt: &impl Abort, alloc: Global, value: &IValue, known: &Known) {
    is_shown(rt, alloc, value, known.shown);
    let want = *known.wide.first().unwrap_or(&known.shown);
    let text = granted!(rt; format!(in alloc; "{value:>6?}"));
    assert!(*rt; text.as_str() == want, "{text} is not {want}");
}

/// Asserts the properties of the value `known`, except its rank.
fn is_known(rt: &impl Abort, alloc: Global, known: &Known) {
    let value = built(rt, alloc, known.parts);
    are_shown(rt, alloc, &value, known);
    counted!(alloc; feeds_whole(rt, &value, known.words));
    let last = *known.parts.last().expect(rt, "a part");
    let (kind, name, _, emptied) = summary(last);
    counted!(alloc; is_queried(rt, &value, last));
    is_opened(rt, alloc, copied(rt, &value), name, known.shown);
    is_emptied(rt, alloc, copied(rt, &value), true, emptied);
    is_emptied(rt, alloc, copied(rt, &value), false, emptied);
    let value = counted!(alloc; is_taken(rt, value, kind));
    is_shown(rt, alloc, &value, known.shown);
    drop(value);
}

fn are_known(rt: &impl Abort, alloc: Global, table: &[Known]) {
    for known in table {
        is_known(rt, alloc, known);
        is_copied(rt, alloc, known);
    }
}

#[test]
fn leaves(rt: HostRuntime) {
    are_known(&rt, rt.alloc(), &KNOWN[..18]);
}

#[test]
fn arrays(rt: HostRuntime) {
    are_known(&rt, rt.alloc(), &KNOWN[18..29]);
}

#[test]
fn objects(rt: HostRuntime) {
    are_known(&rt, rt.alloc(), &KNOWN[29..]);
}

/// Asserts the order of two values, and that equal values have equal contents and hashes.
fn are_ordered(rt: &impl Abort, left: &IValue, right: &IValue, want: Option<Ordering>) {
    let is_equal = want == Some(Ordering::Equal);
    assert!(*rt; (left == right) == is_equal && (left != right) != is_equal);
    assert!(*rt; (**left == **right) == is_equal);
    assert!(*rt; (left.as_ref() == right.as_ref()) == is_equal);
    assert!(*rt; left.partial_cmp(right) == want);
    assert!(*rt; !is_equal || hash_of(left) == hash_of(right));
}

/// Asserts the order of `value`, which has the rank `rank`, and each of `others`.
fn is_ordered(rt: &impl Abort, value: &IValue, rank: usize, others: &[(usize, IValue)]) {
    for (other_rank, other) in others {
        let want = if rank != *other_rank && value.is_object() && other.is_object() {
            None
        } else {
            Some(rank.cmp(other_rank))
        };
        are_ordered(rt, value, other, want);
    }
}

#[test]
fn each_pair(rt: HostRuntime) {
    let alloc = rt.alloc();
    let mut list = granted!(&rt; Vec::with_capacity(alloc, KNOWN.len()));
    for known in &KNOWN {
        let pair = (known.rank, built(&rt, alloc, known.parts));
        list.push(pair).expect(&rt, "room");
    }
    for known in &KNOWN {
        let value = built(&rt, alloc, known.parts);
        counted!(alloc; is_ordered(&rt, &value, known.rank, &list));
        drop(value);
    }
    drop(list);
}

//! Tests of the debug output of objects, their entries and iterators, and of error messages.

use super::created::listed;
use super::spelled;
use crate::object::{IObject, RefusedPairs, RefusedReplacement};
use crate::table::ReserveError;
use crate::tests::caches::key;
use crate::tests::shown::is_shown;
use std::alloc::{AllocError, Global};
use std::fmt::{Debug, Display};
use std::process::Abort;

/// Objects, each as the letters that denote its entries, with its debug output.
static OBJECTS: [(&str, &str); 4] = [
    ("a0b1cp", r#"{"a": 0, "b": 1, "c": 2.0}"#),
    ("J1F2K3", r#"{"id": 1, "interned_string_a": 2, "no": 3}"#),
    ("001122", r#"{"0": 0, "1": 1, "2": 2}"#),
    ("c0H1b2", r#"{"c": 0, "a \"long\" key\n": 1, "b": 2}"#),
];

/// Two keys, each with the debug output of its `Entry`: the last of three keys, and a missing key.
static ENTRIES: [(&str, &str); 2] = [
    ("b", r#"Occupied(OccupiedEntry { key: "b", value: 2 })"#),
    (
        "another \"long\" key",
        r#"Vacant(VacantEntry { key: "another \"long\" key" })"#,
    ),
];

/// The debug output of `iter` before and after its first entry, and of `into_iter` after it.
static ITERATED: [&str; 3] = [
    r#"[("c", 0), ("a \"long\" key\n", 1), ("b", 2)]"#,
    r#"[("a \"long\" key\n", 1), ("b", 2)]"#,
    r#"IntoIter([("a \"long\" key\n", 1), ("b", 2)])"#,
];

fn iterators_are_shown(rt: &impl Abort, alloc: Global, object: IObject) {
    let mut pairs = object.iter();
    is_shown(rt, alloc, &pairs, ITERATED[0]);
    assert!(*rt; pairs.next().is_some());
    is_shown(rt, alloc, &pairs, ITERATED[1]);
    let mut pairs = object.into_iter();
    drop(pairs.next());
    is_shown(rt, alloc, &pairs, ITERATED[2]);
    drop(pairs);
}

fn entry_is_shown(rt: &impl Abort, alloc: Global, object: &mut IObject, name: &str, want: &str) {
    let copy = key(rt, alloc, name);
    let entry = object.entry_or_clone(&copy).expect(rt, "room");
    is_shown(rt, alloc, &entry, want);
    drop(entry);
    drop(copy);
}

#[test]
fn debug_output(rt: HostRuntime) {
    let alloc = rt.alloc();
    for &(letters, want) in &OBJECTS {
        let object = spelled(&rt, alloc, (letters, 4));
        is_shown(&rt, alloc, &object, want);
        drop(object);
    }
    let mut object = spelled(&rt, alloc, ("c0H1b2", 4));
    for &(name, want) in &ENTRIES {
        entry_is_shown(&rt, alloc, &mut object, name, want);
    }
    iterators_are_shown(&rt, alloc, object);
}

/// Asserts that `want` is the message of `error`, followed by `|` and its debug output.
fn tells<E: Debug + Display + Drop>(rt: &impl Abort, alloc: Global, error: E, want: &str) {
    let told = granted!(rt; format!(in alloc; "{error}|{error:?}"));
    assert!(*rt; told.as_str() == want, "{told} is not {want}");
    drop(error);
}

/// Reasons, each with the message and the debug output of a `RefusedPairs` with this reason.
static RETURNED: [(ReserveError, &str); 2] = [
    (
        ReserveError::Memory,
        r#"the object was not created: out of memory|RefusedPairs { pairs: [("a", 1), ("b", 2), ("a", 3)], why: Memory }"#,
    ),
    (
        ReserveError::TooLarge,
        r#"the object was not created: the capacity would exceed 2^56|RefusedPairs { pairs: [("a", 1), ("b", 2), ("a", 3)], why: TooLarge }"#,
    ),
];

#[test]
fn messages(rt: HostRuntime) {
    let alloc = rt.alloc();
    for &(why, want) in &RETURNED {
        let pairs = listed(&rt, alloc, "a1b2a3");
        tells(&rt, alloc, RefusedPairs { pairs, why }, want);
    }
    let missing = RefusedReplacement::Missing(key(&rt, alloc, "k"));
    let want = r#"the key to replace is missing|Missing("k")"#;
    tells(&rt, alloc, missing, want);
    let exists = RefusedReplacement::Exists(key(&rt, alloc, "k"));
    let want = r#"another entry has the new key|Exists("k")"#;
    tells(&rt, alloc, exists, want);
}

//! Tests of JSON Pointer: values that are read, written or missing.

mod lent;

use crate::pointer::{Pointer, PointerError, Unresolved, resolve, resolve_mut, resolve_opened_mut};
use crate::table::ReserveError;
use crate::tests::support::set;
use crate::tests::texts::{is_written, parsed};
use crate::value::{Destructured, DestructuredMut, DestructuredRef, IValue};
use std::alloc::{AllocError, Global};
use std::process::Abort;

const TEXT: &str = r#"{"foo":["bar","baz"],"":0,"a/b":1,"m~n":8,"~1":9}"#;

const DEEP: &str = r#"[[[0,{"a":[1,[2]]}]],3]"#;

const NULLS: &str = r#"{"a":null,"m~/n":[null]}"#;

/// JSON texts and pointers, the values at the pointers, and the texts after true is written there.
#[rattlefmt::skip]
static PLACES: [(&str, &str, &str, &str); 10] = [
    (TEXT, "", TEXT, "true"), (TEXT, "/foo", r#"["bar","baz"]"#, r#"{"foo":true,"":0,"a/b":1,"m~n":8,"~1":9}"#),
    (TEXT, "/foo/0", r#""bar""#, r#"{"foo":[true,"baz"],"":0,"a/b":1,"m~n":8,"~1":9}"#),
    (TEXT, "/", "0", r#"{"foo":["bar","baz"],"":true,"a/b":1,"m~n":8,"~1":9}"#),
    (TEXT, "/a~1b", "1", r#"{"foo":["bar","baz"],"":0,"a/b":true,"m~n":8,"~1":9}"#),
    (TEXT, "/m~0n", "8", r#"{"foo":["bar","baz"],"":0,"a/b":1,"m~n":true,"~1":9}"#),
    (TEXT, "/~01", "9", r#"{"foo":["bar","baz"],"":0,"a/b":1,"m~n":8,"~1":true}"#),
    (DEEP, "/0/0/1/a/1/0", "2", r#"[[[0,{"a":[1,[true]]}]],3]"#),
    (NULLS, "/a", "null", r#"{"a":true,"m~/n":[null]}"#), (NULLS, "/m~0~1n/0", "null", r#"{"a":null,"m~/n":[true]}"#),
];

/// Asserts that the value at `pointer` is written as `want`, and that finding it does not allocate.
fn is_at(rt: &impl Abort, alloc: Global, value: &IValue, pointer: &str, want: &str) {
    let found = counted!(alloc; resolve(value, pointer)).expect(rt, pointer);
    is_written(rt, alloc, found.expect(rt, pointer), want);
    let found = counted!(alloc; value.pointer(pointer));
    is_written(rt, alloc, found.expect(rt, pointer), want);
}

/// Writes true at `pointer`, or returns the reason if there is no value.
fn put_true(value: &mut IValue, pointer: &str) -> Option<Unresolved> {
    match resolve_mut(value, pointer) {
        Ok(Some(found)) => {
            set(found, IValue::TRUE);
            None
        }
        Ok(None) => Some(Unresolved::Nothing),
        Err(why) => Some(Unresolved::NoPointer(why)),
    }
}

/// Like `put_true`, but writes to the content of the value.
fn put_true_opened(value: &mut IValue, pointer: &str) -> Option<Unresolved> {
    match resolve_opened_mut(value, pointer) {
        Ok(found) => {
            set(found, Destructured::Bool(true));
            None
        }
        Err(why) => Some(why),
    }
}

/// Like `put_true`, but by `pointer_mut`. Returns `true` if a value is found.
fn put_true_pointed(value: &mut IValue, pointer: &str) -> bool {
    match value.pointer_mut(pointer) {
        Some(found) => {
            set(found, IValue::TRUE);
            true
        }
        None => false,
    }
}

/// The calls that return a mutable reference to the value at a pointer.
#[derive(Clone, Copy)]
enum Way {
    Value,
    Opened,
    Method,
}

static WAYS: [Way; 3] = [Way::Value, Way::Opened, Way::Method];

/// Writes true at `pointer`. Returns `true` if the call reports `why`, or succeeds if `why` is
/// `None`.
fn puts_true(value: &mut IValue, pointer: &str, why: Option<Unresolved>, way: Way) -> bool {
    match way {
        Way::Value => put_true(value, pointer) == why,
        Way::Opened => put_true_opened(value, pointer) == why,
        Way::Method => put_true_pointed(value, pointer) == why.is_none(),
    }
}

#[test]
fn values_are_read_and_written(rt: HostRuntime) {
    let alloc = rt.alloc();
    for &(text, pointer, found, written) in &PLACES {
        for &way in &WAYS {
            let mut value = parsed(&rt, alloc, text);
            is_at(&rt, alloc, &value, pointer, found);
            let written_there = counted!(alloc; puts_true(&mut value, pointer, None, way));
            assert!(rt; written_there, "{pointer}");
            is_written(&rt, alloc, &value, written);
            drop(value);
        }
    }
}

/// Pointers that refer to no value in `TEXT`.
#[rattlefmt::skip]
static NOTHING: [&str; 9] = [
    "/foo/2", "/foo/-", "/foo/01", "/foo/99999999999999999999", "/foo/0/x", "/foo/+1", "/foo/", "/nope", "/nope/nope",
];

static NO_POINTERS: [&str; 6] = ["foo", "/~", "/~2", "/nope/~2", "/foo/0/~", "~0"];

/// Asserts that each call finds no value at `pointer` in `value`, for the reason `why`.
fn is_missing(rt: &impl Abort, alloc: Global, value: &mut IValue, pointer: &str, why: Unresolved) {
    let refused = match counted!(alloc; resolve(value, pointer)) {
        Ok(found) => found.is_none() && why == Unresolved::Nothing,
        Err(fault) => why == Unresolved::NoPointer(fault),
    };
    let found = counted!(alloc; value.pointer(pointer));
    assert!(*rt; refused && found.is_none(), "{pointer}");
    for &way in &WAYS {
        let refused = counted!(alloc; puts_true(value, pointer, Some(why), way));
        assert!(*rt; refused, "{pointer}");
    }
    is_written(rt, alloc, value, TEXT);
}

#[test]
fn values_are_missing(rt: HostRuntime) {
    let alloc = rt.alloc();
    let mut value = parsed(&rt, alloc, TEXT);
    for &pointer in &NOTHING {
        is_missing(&rt, alloc, &mut value, pointer, Unresolved::Nothing);
    }
    let no_pointer = Unresolved::NoPointer(PointerError::Syntax);
    for &pointer in &NO_POINTERS {
        is_missing(&rt, alloc, &mut value, pointer, no_pointer);
    }
    drop(value);
}

/// The JSON text of RFC 6901, section 5.
const RFC: &str =
    r#"{"foo":["bar","baz"],"":0,"a/b":1,"c%d":2,"e^f":3,"g|h":4,"i\\j":5,"k\"l":6," ":7,"m~n":8}"#;

/// Pointers, each with the JSON text of its value in `RFC`.
#[rattlefmt::skip]
static NAMED: [(&str, &str); 12] = [
    ("", RFC), ("/foo", r#"["bar","baz"]"#), ("/foo/0", r#""bar""#), ("/", "0"), ("/a~1b", "1"), ("/c%d", "2"),
    ("/e^f", "3"), ("/g|h", "4"), (r"/i\j", "5"), ("/k\"l", "6"), ("/ ", "7"), ("/m~0n", "8"),
];

#[test]
fn pointers_of_the_rfc(rt: HostRuntime) {
    let value = parsed(&rt, rt.alloc(), RFC);
    for &(pointer, want) in &NAMED {
        is_at(&rt, rt.alloc(), &value, pointer, want);
    }
    drop(value);
}

const NESTED: &str = r#"{"a":[{"m~/n":[1]}]}"#;

/// Pointers to the containers of `NESTED`, the outermost first.
static CONTAINERS: [&str; 4] = ["", "/a", "/a/0", "/a/0/m~0~1n"];

/// Pointers that pass through the containers of `NESTED`. The last four refer to no value.
#[rattlefmt::skip]
static PASSING: [&str; 8] = [
    "", "/a", "/a/0/m~0~1n", "/a/0/m~0~1n/0", "/a/0/m~0~1n/1", "/a/0/m~1n", "/a/0/m~0~1n/0/d", "/a/~",
];

/// Reserves capacity for 50 more elements or entries in the array or object at `pointer`.
fn reserve(rt: &impl Abort, value: &mut IValue, pointer: &str) {
    if let Ok(Some(found)) = resolve_mut(value, pointer) {
        match found.destructure_mut() {
            DestructuredMut::Array(array) => granted!(rt; array.reserve(50)),
            DestructuredMut::Object(object) => {
                granted!(rt; ReserveError::Memory; object.reserve(50))
            }
            _ => (),
        }
    }
}

fn capacity(value: &IValue) -> usize {
    match value.destructure_ref() {
        DestructuredRef::Array(array) => array.capacity(),
        DestructuredRef::Object(object) => object.capacity(),
        _ => 0,
    }
}

/// Asserts that each container of `NESTED` has the capacity 51: its element or entry, and 50 more.
fn has_capacities(rt: &impl Abort, value: &IValue) {
    for &pointer in &CONTAINERS {
        let found = resolve(value, pointer).expect(rt, pointer);
        let container = found.expect(rt, pointer);
        assert!(*rt; capacity(container) == 51, "{pointer}");
    }
}

/// Resolves `pointer` by two calls without writing, and returns `true` if both find a value.
fn pass(value: &mut IValue, pointer: &str) -> bool {
    let found = resolve_mut(value, pointer).is_ok();
    resolve_opened_mut(value, pointer).is_ok() && found
}

#[test]
fn pointers_leave_capacities(rt: HostRuntime) {
    let mut value = parsed(&rt, rt.alloc(), NESTED);
    for &pointer in &CONTAINERS {
        reserve(&rt, &mut value, pointer);
    }
    for (index, &pointer) in PASSING.iter().enumerate() {
        assert!(rt; pass(&mut value, pointer) == (index < 4), "{pointer}");
        has_capacities(&rt, &value);
    }
    drop(value);
}

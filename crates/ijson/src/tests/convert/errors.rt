//! Tests of the debug output of errors, and of their messages after a conversion by `?`.

use crate::array::Refused;
use crate::convert::ConvertError;
use crate::object::{RefusedKey, RefusedPair};
use crate::pointer::{PointerError, Unresolved};
use crate::table::ReserveError;
use crate::tests::caches::key;
use crate::tests::shown::is_told;
use crate::value::IValue;

/// Errors of a conversion, each with its message and debug output.
#[rattlefmt::skip]
static OF_CONVERSIONS: [(ConvertError, &str, &str); 4] = [
    (ConvertError::WrongKind, "the value is of another kind", "WrongKind"),
    (ConvertError::OutOfRange, "not a whole number in the range of the type", "OutOfRange"),
    (ConvertError::Number, "a number that is neither an i64 nor a u64", "Number"),
    (ConvertError::Memory, "out of memory", "Memory"),
];

#[rattlefmt::skip]
static OF_POINTERS: [(Unresolved, &str, &str); 2] = [
    (Unresolved::Nothing, "the JSON Pointer refers to no value", "Nothing"),
    (Unresolved::NoPointer(PointerError::Syntax), "not a JSON Pointer", "NoPointer(Syntax)"),
];

#[test]
fn faults_become_errors(rt: HostRuntime) {
    let alloc = rt.alloc();
    for &(fault, text, shown) in &OF_CONVERSIONS {
        is_told(&rt, alloc, fault, text, shown);
    }
    for &(fault, text, shown) in &OF_POINTERS {
        is_told(&rt, alloc, fault, text, shown);
    }
    let text = "not a JSON Pointer";
    is_told(&rt, alloc, PointerError::Syntax, text, "Syntax");
    let text = "out of memory";
    is_told(&rt, alloc, ReserveError::Memory, text, "Memory");
}

#[test]
fn refusals_become_errors(rt: HostRuntime) {
    let alloc = rt.alloc();
    let (text, shown) = ("no memory for the element", "Refused(true)");
    is_told(&rt, alloc, Refused(IValue::TRUE), text, shown);
    let (key_back, why) = (key(&rt, alloc, "k"), ReserveError::Memory);
    let text = "no capacity for the key: out of memory";
    let shown = "RefusedKey { key: \"k\", why: Memory }";
    is_told(&rt, alloc, RefusedKey { key: key_back, why }, text, shown);
    let (key, value, why) = (key(&rt, alloc, "k"), IValue::TRUE, ReserveError::TooLarge);
    let text = "no capacity for the entry: the capacity would exceed 2^56";
    let shown = "RefusedPair { key: \"k\", value: true, why: TooLarge }";
    is_told(&rt, alloc, RefusedPair { key, value, why }, text, shown);
}

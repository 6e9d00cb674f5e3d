//! Tests of conversions from integers and options to values, and from values to integers.

use super::built::Part::{self, Number, Text};
use super::built::built;
use crate::tests::shown::is_shown;
use crate::tests::support::in_type;
use crate::value::IValue;
use std::alloc::Global;
use std::process::Abort;

/// Parts of values, each with the integer that its value equals, if any.
#[rattlefmt::skip]
static INTEGERS: [(Part, Option<i128>); 12] = [
    (Number("2.0"), Some(2)), (Number("-1"), Some(-1)), (Number("2.5"), None), (Text("2"), None),
    (Number("7"), Some(7)), (Number("65535"), Some(65535)), (Number("-2147483648"), Some(-2147483648)),
    (Number("4294967295"), Some(4294967295)), (Number("-9223372036854775808"), Some(-9223372036854775808)),
    (Number("9223372036854775807"), Some(9223372036854775807)),
    (Number("12345678901234567890.0"), Some(12345678901234567890)),
    (Number("18446744073709551615"), Some(18446744073709551615)),
];

/// Returns `true` if `value` converts to `integer` in each integer type that contains it, and to
/// `None` in the other types.
fn is_integer(value: &IValue, integer: Option<i128>) -> bool {
    value.to_i32() == in_type(integer)
        && value.to_u32() == in_type(integer)
        && value.to_i64() == in_type(integer)
        && value.to_u64() == in_type(integer)
        && value.to_isize() == in_type(integer)
        && value.to_usize() == in_type(integer)
        && value.to_bool().is_none()
}

#[test]
fn integers(rt: HostRuntime) {
    let alloc = rt.alloc();
    for &(part, integer) in &INTEGERS {
        let value = built(&rt, alloc, &[part]);
        assert!(rt; counted!(alloc; is_integer(&value, integer)));
        drop(value);
    }
}

/// Asserts the debug output of the value that `from` is converted to.
fn is_value<T: Into<IValue>>(rt: &impl Abort, alloc: Global, from: T, want: &str) {
    let value = counted!(alloc; from.into());
    is_shown(rt, alloc, &value, want);
    drop(value);
}

#[test]
fn integers_and_options_are_values(rt: HostRuntime) {
    let alloc = rt.alloc();
    is_value(&rt, alloc, i8::MIN, "-128");
    is_value(&rt, alloc, i16::MAX, "32767");
    is_value(&rt, alloc, i32::MIN, "-2147483648");
    is_value(&rt, alloc, i64::MIN, "-9223372036854775808");
    is_value(&rt, alloc, isize::MAX, "9223372036854775807");
    is_value(&rt, alloc, u8::MAX, "255");
    is_value(&rt, alloc, u16::MAX, "65535");
    is_value(&rt, alloc, u32::MAX, "4294967295");
    is_value(&rt, alloc, u64::MAX, "18446744073709551615");
    is_value(&rt, alloc, usize::MAX, "18446744073709551615");
    is_value(&rt, alloc, Some(true), "true");
    is_value(&rt, alloc, None::<u8>, "null");
}

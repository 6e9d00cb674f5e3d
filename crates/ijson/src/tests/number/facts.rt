//! Tests of facts of numbers: written texts, significands, representations, values and words.

use super::Fact::{I64, Integer, List, NoInteger, Packed, Same, Shown, Stripped, Text, U64, Words};
use super::{Fact, is_integer, is_known};
use crate::number::INumber;
use std::alloc::Global;
use std::process::Abort;

const THIRTY: &str = "123456789012345678901234567890";

const TENTH: &str = "0.100000000000000000000000000000000000000000000000000";

fn are_known(rt: &impl Abort, alloc: Global, rows: &[(&str, Fact<'_>)]) {
    for &(text, fact) in rows {
        is_known(rt, alloc, text, &[fact]);
    }
}

/// Decimal texts, each with the written text of its number, or with its canonical significand.
#[rattlefmt::skip]
static TEXTS: [(&str, Fact<'static>); 48] = [
    ("-0", Text("0")), ("-0.0", Text("0.0")), ("1.50", Text("1.5")), ("-1.50", Text("-1.5")),
    ("100.00", Text("100.0")), ("1e20", Text("100000000000000000000.0")), ("1e21", Same), ("1e22", Same),
    ("2.0e30", Text("2e30")), ("1.5E-3", Text("0.0015")), ("0.0001", Same), ("0.000001", Same),
    ("0.0000001", Text("1e-7")), ("12e30", Text("1.2e31")), ("441044444333116.125", Same),
    ("0.84442185152504812", Same), ("-0.0012345678901234", Same), ("-0.000012345678901234567", Same),
    ("1234567890123456789e-24", Text("0.000001234567890123456789")),
    ("1234567890123456789e-25", Text("1.234567890123456789e-7")), ("-250", Same), ("18446744073709551615", Same),
    (TENTH, Text("0.1")), ("10e1073741823", Text("1e1073741824")), ("1e1073741824", Same),
    ("0e99999999999999999999", Text("0.0")), (THIRTY, Same), ("123456789012345678901234567890.5", Same),
    ("-1234567890123456789012345.5", Same), ("1000000000000000000000", Same), ("-1000000000000000000000000", Same),
    ("0", Stripped("", 0)), ("-0.00", Stripped("", 0)), ("-0.50", Stripped("5", -1)), ("100", Stripped("1", 2)),
    ("1e9", Stripped("1", 9)), ("-1234567.1250", Stripped("1234567125", -3)),
    ("9007199254740990", Stripped("900719925474099", 1)),
    ("-9223372036854775808", Stripped("9223372036854775808", 0)),
    ("18446744073709551600", Stripped("184467440737095516", 2)),
    ("12345678901234.50e-30", List("123456789012345", -31)), ("1234567890.123456", Stripped("1234567890123456", -6)),
    ("-12345678901234567e-20", List("12345678901234567", -20)), ("-2.50e30", List("25", 29)),
    (THIRTY, List("12345678901234567890123456789", 1)),
    ("12345678901234567890123.4567890", List("12345678901234567890123456789", -6)),
    ("0.1234567890123456789012345678901234567890", List("123456789012345678901234567890123456789", -39)),
    ("10e1073741823", List("1", 1073741824)),
];

#[test]
fn texts(rt: HostRuntime) {
    are_known(&rt, rt.alloc(), &TEXTS);
}

/// Decimal texts, each with the representation of its number. Most of the numbers are at, just
/// below or just above a boundary between representations.
#[rattlefmt::skip]
static FORMS: [(&str, Fact<'static>); 59] = [
    ("0", Packed(0, 0)), ("-0", Packed(0, 0)), ("1", Packed(1, 0)), ("-1", Packed(-1, 0)), ("0.0", Packed(0, 0)),
    ("2.0", Packed(2, 0)), ("0.5", Packed(5, -1)), ("0.1", Packed(1, -1)), (TENTH, Packed(1, -1)),
    ("100.0", Packed(100, 0)), ("63.5", Packed(635, -1)), ("36028797018963967", Packed(36028797018963967, 0)),
    ("36028797018963968", I64(36028797018963968)), ("36028797018963969", I64(36028797018963969)),
    ("-36028797018963967", Packed(-36028797018963967, 0)), ("-36028797018963968", Packed(-36028797018963968, 0)),
    ("-36028797018963969", I64(-36028797018963969)), ("9223372036854775807", I64(9223372036854775807)),
    ("9223372036854775808", U64(9223372036854775808)), ("9223372036854775809", U64(9223372036854775809)),
    ("-9223372036854775807", I64(-9223372036854775807)), ("-9223372036854775808", I64(i64::MIN)),
    ("-9223372036854775809", List("9223372036854775809", 0)), ("18446744073709551615", U64(18446744073709551615)),
    ("18446744073709551616", List("18446744073709551616", 0)),
    ("18446744073709551617", List("18446744073709551617", 0)),
    ("-18446744073709551615", List("18446744073709551615", 0)),
    ("18446744073709551616.5", List("184467440737095516165", -1)),
    ("36028797018963967.0", Packed(36028797018963967, 0)), ("36028797018963968.0", List("36028797018963968", 0)),
    ("36028797018963969.0", List("36028797018963969", 0)), ("-36028797018963967.0", Packed(-36028797018963967, 0)),
    ("-36028797018963968.0", Packed(-36028797018963968, 0)), ("-36028797018963969.0", List("36028797018963969", 0)),
    ("9223372036854775807.0", List("9223372036854775807", 0)),
    ("-9223372036854775808.0", List("9223372036854775808", 0)),
    ("18446744073709551615.0", List("18446744073709551615", 0)),
    ("360287970189639670.0", Packed(36028797018963967, 1)), ("360287970189639680.0", List("36028797018963968", 1)),
    ("-360287970189639680.0", Packed(-36028797018963968, 1)), ("-360287970189639690.0", List("36028797018963969", 1)),
    ("3602879701896396.7", Packed(36028797018963967, -1)), ("3602879701896396.8", List("36028797018963968", -1)),
    ("3602879701896396.9", List("36028797018963969", -1)), ("-3602879701896396.7", Packed(-36028797018963967, -1)),
    ("-3602879701896396.8", Packed(-36028797018963968, -1)), ("-3602879701896396.9", List("36028797018963969", -1)),
    ("441044444333116.125", List("441044444333116125", -3)), ("441044444333116.25", List("44104444433311625", -2)),
    ("1e20", Packed(10000000000000000, 4)), ("1e22", Packed(10000000000000000, 6)),
    ("1e23", Packed(10000000000000000, 7)), ("1e24", List("1", 24)), ("-3e23", Packed(-30000000000000000, 7)),
    ("-4e23", List("4", 23)), ("0.000001", Packed(1, -6)), ("0.0000001", Packed(1, -7)),
    ("0.00000001", List("1", -8)), ("-0.00000001", List("1", -8)),
];

#[test]
fn forms(rt: HostRuntime) {
    are_known(&rt, rt.alloc(), &FORMS);
}

const WORDS_OF_I64: [u64; 21] = [
    2, 1, 2147483648, 17, 3, 6, 0, 2, 8, 7, 9, 7, 0, 1, 8, 9, 6, 3, 9, 6, 8,
];

const WORDS_OF_DIGITS: [u64; 24] = [
    2, 1, 2147483648, 20, 1, 8, 4, 4, 6, 7, 4, 4, 0, 7, 3, 7, 0, 9, 5, 5, 1, 6, 1, 6,
];

const WORDS_OF_THIRTY: [u64; 34] = [
    2, 2, 2147483648, 30, 1, 2, 3, 4, 5, 6, 7, 8, 9, 0, 1, 2, 3, 4, 5, 6, 7, 8, 9, 0, 1, 2, 3, 4,
    5, 6, 7, 8, 9, 1,
];

/// Decimal texts, each with its number's words, value, or debug output of the representation.
#[rattlefmt::skip]
static VALUES: [(&str, Fact<'static>); 29] = [
    ("-2.5", Shown("Packed { mantissa: -25, exponent: -1, point: true }")),
    ("36028797018963968", Shown("I64(36028797018963968)")),
    ("9223372036854775808", Shown("U64(9223372036854775808)")),
    ("1.5e31", Shown("Digits { negative: false, digits: [1, 5], exponent: 30, point: true }")),
    ("2", Words(&[2, 1, 2147483648, 1, 2])), ("2.0", Words(&[2, 1, 2147483648, 1, 2])),
    ("100", Words(&[2, 1, 2147483650, 1, 1])), ("100.0", Words(&[2, 1, 2147483650, 1, 1])),
    ("1e2", Words(&[2, 1, 2147483650, 1, 1])), ("36028797018963968", Words(&WORDS_OF_I64)),
    ("36028797018963968.0", Words(&WORDS_OF_I64)), ("18446744073709551616", Words(&WORDS_OF_DIGITS)),
    ("18446744073709551616.0", Words(&WORDS_OF_DIGITS)), ("-123456789012345678901234567891", Words(&WORDS_OF_THIRTY)),
    ("-123456789012345678901234567891.0", Words(&WORDS_OF_THIRTY)), ("-0.5", Words(&[2, 2, 2147483647, 1, 5])),
    ("-0.0", Words(&[2, 0])), ("12345678901234567890.0", Integer(12345678901234567890)),
    ("1e19", Integer(10000000000000000000)), ("-9223372036854775808.0", Integer(-9223372036854775808)),
    ("2.0", Integer(2)), ("2.5", NoInteger), ("-0.0", Integer(0)), ("-1", Integer(-1)), ("1e1073741824", NoInteger),
    ("18446744073709551616", NoInteger), ("18446744073709551616.5", NoInteger), ("441044444333116.125", NoInteger),
    ("441044444333116.25", NoInteger),
];

#[test]
fn values(rt: HostRuntime) {
    are_known(&rt, rt.alloc(), &VALUES);
}

fn has_value(rt: &impl Abort, alloc: Global, number: INumber, want: i128) {
    counted!(alloc; is_integer(rt, &number, Some(want)));
    drop(number);
}

#[test]
fn numbers_from_integers(rt: HostRuntime) {
    let alloc = rt.alloc();
    has_value(&rt, alloc, INumber::from(i64::MIN), -9223372036854775808);
    has_value(&rt, alloc, INumber::from(i64::MAX), 9223372036854775807);
    has_value(&rt, alloc, INumber::from(u64::MAX), 18446744073709551615);
    has_value(&rt, alloc, INumber::from(i32::MIN), -2147483648);
    has_value(&rt, alloc, INumber::from(i32::MAX), 2147483647);
    has_value(&rt, alloc, INumber::from(2147483648u32), 2147483648);
    has_value(&rt, alloc, INumber::from(u32::MAX), 4294967295);
    has_value(&rt, alloc, INumber::from(4294967296i64), 4294967296);
    has_value(&rt, alloc, INumber::from(isize::MIN), -9223372036854775808);
    has_value(&rt, alloc, INumber::from(usize::MAX), 18446744073709551615);
    has_value(&rt, alloc, INumber::from(i16::MIN), -32768);
    has_value(&rt, alloc, INumber::from(65535u16), 65535);
    has_value(&rt, alloc, INumber::from(-1i8), -1);
    has_value(&rt, alloc, INumber::from(255u8), 255);
    has_value(&rt, alloc, INumber::default(), 0);
    has_value(&rt, alloc, INumber::zero(), 0);
    has_value(&rt, alloc, INumber::one(), 1);
}

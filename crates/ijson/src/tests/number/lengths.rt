//! Tests of numbers of many lengths. Each small length is tried, since no clause states that a call
//! succeeds if memory is available.

use super::Fact::{Stripped, Text};
use super::is_known;
use std::alloc::{AllocError, Global};
use std::process::Abort;

/// The digits other than 0. If they are repeated, two adjacent runs of twenty digits always differ.
const DIGITS: &str = "123456789";

/// Returns a string of `count` characters that repeats `letters`.
fn repeated(rt: &impl Abort, alloc: Global, letters: &str, count: usize) -> String {
    let mut text = granted!(rt; String::with_capacity(alloc, count));
    for letter in letters.chars().cycle().take(count) {
        text.push(letter).expect(rt, "room");
    }
    text
}

/// Asserts the written text, the canonical significand and the exponent of the number `text`.
fn keeps(rt: &impl Abort, alloc: Global, text: &str, want: &str, digits: &str, exponent: i32) {
    is_known(rt, alloc, text, &[Text(want), Stripped(digits, exponent)]);
}

/// Calls `keeps` for `digits` with each number of fraction digits from 1 to `digits.len() + most`.
fn keeps_each_scale(rt: &impl Abort, alloc: Global, sign: &str, digits: &str, most: usize) {
    for scale in 1..=digits.len().saturating_add(most) {
        let zeros = scale.saturating_add(1).saturating_sub(digits.len());
        let zeros = repeated(rt, alloc, "0", zeros);
        let padded = granted!(rt; format!(in alloc; "{zeros}{digits}"));
        let place = padded.len().saturating_sub(scale);
        let whole = padded.as_str().get(..place).expect(rt, "a place");
        let fraction = padded.as_str().get(place..).expect(rt, "a place");
        let text = granted!(rt; format!(in alloc; "{sign}{whole}.{fraction}"));
        let exponent = i32::try_from(scale).unwrap_or(0);
        keeps(rt, alloc, &text, &text, digits, 0i32.wrapping_sub(exponent));
    }
}

/// Calls `keeps` for `digits` followed by up to `most` zeros: without a point, with a point, and
/// with an exponent instead of the zeros.
fn keeps_each_zero(rt: &impl Abort, alloc: Global, sign: &str, digits: &str, most: usize) {
    for count in 0..=most {
        let exponent = i32::try_from(count).unwrap_or(0);
        let zeros = repeated(rt, alloc, "0", count);
        let integer = granted!(rt; format!(in alloc; "{sign}{digits}{zeros}"));
        keeps(rt, alloc, &integer, &integer, digits, exponent);
        let pointed = granted!(rt; format!(in alloc; "{integer}.0"));
        keeps(rt, alloc, &pointed, &pointed, digits, exponent);
        let power = granted!(rt; format!(in alloc; "{sign}{digits}e{count}"));
        keeps(rt, alloc, &power, &pointed, digits, exponent);
    }
}

const FAR: i32 = 500_000_000;

/// Exponents of numbers that are written with an exponent.
pub static POWERS: [i32; 21] = [
    -FAR, -32789, -32769, -32768, -32767, -101, -100, -99, -65, -52, -11, -10, -9, 41, 99, 100,
    101, 32766, 32767, 32768, FAR,
];

/// Calls `keeps` for `digits` with a point after the first digit and each exponent of `powers`.
fn keeps_each_power(rt: &impl Abort, alloc: Global, sign: &str, digits: &str, powers: &[i32]) {
    let first = digits.get(..1).expect(rt, "a digit");
    let rest = digits.get(1..).expect(rt, "the other digits");
    let point = if rest.is_empty() { "" } else { "." };
    let scale = i32::try_from(rest.len()).unwrap_or(0);
    for &power in powers {
        let text = granted!(rt; format!(in alloc; "{sign}{first}{point}{rest}e{power}"));
        keeps(rt, alloc, &text, &text, digits, power.wrapping_sub(scale));
    }
}

/// Calls `keeps` for `count` digits with up to `zeros` zeros, and with each exponent of `powers`.
pub fn keeps_each(rt: &impl Abort, alloc: Global, count: usize, zeros: usize, powers: &[i32]) {
    let digits = repeated(rt, alloc, DIGITS, count);
    for &sign in &["", "-"] {
        keeps_each_scale(rt, alloc, sign, &digits, zeros.min(5));
        keeps_each_zero(rt, alloc, sign, &digits, zeros);
        keeps_each_power(rt, alloc, sign, &digits, powers);
    }
}

#[test]
fn digits(rt: HostRuntime) {
    keeps_each(&rt, rt.alloc(), 2, 1, &[41]);
}

/// The text before the digits, the counts of digits and of zeros after them, and the exponent.
pub type Long = (&'static str, usize, usize, i32);

/// Asserts that the numbers of `rows`, which have many digits, are written as they are read.
pub fn keep_long(rt: &impl Abort, alloc: Global, rows: &[Long]) {
    for &(before, count, zeros, exponent) in rows {
        let digits = repeated(rt, alloc, DIGITS, count);
        let zeros = repeated(rt, alloc, "0", zeros);
        let text = granted!(rt; format!(in alloc; "{before}{digits}{zeros}"));
        keeps(rt, alloc, &text, &text, &digits, exponent);
    }
}

static LONG: [Long; 7] = [
    ("", 1, 300, 300),
    ("", 101, 0, 0),
    ("-0.", 101, 0, -101),
    ("-", 101, 300, 300),
    ("", 256, 0, 0),
    ("-0.", 256, 0, -256),
    ("-", 256, 300, 300),
];

#[test]
fn long_numbers(rt: HostRuntime) {
    keep_long(&rt, rt.alloc(), &LONG);
}

//! Tests of the order and equality of numbers, and of how many digits a comparison reads.

use super::spelled;
use crate::number::{DigitRow, INumber, Looks, compare};
use crate::tests::hashes::hash_of;
use std::alloc::Global;
use std::cmp::Ordering::{self, Equal, Greater, Less};
use std::process::Abort;

/// Texts in strictly ascending order of their numbers.
#[rattlefmt::skip]
static ASCENDING: [&str; 18] = [
    "-1e1073741824", "-18446744073709551616", "-9223372036854775808", "-36028797018963968", "-2.5", "-1e-1073741824",
    "0", "1e-1073741824", "0.1", "0.10000000000000000001", "2", "2.5", "36028797018963967", "36028797018963967.5",
    "36028797018963968", "9223372036854775808", "18446744073709551616", "1e1073741824",
];

/// Two decimal texts, the order of their numbers, and the number of digits that a comparison reads.
#[rattlefmt::skip]
static PAIRS: [(&str, &str, Ordering, u128); 30] = [
    ("-0", "-0.0", Equal, 0), ("0", "0.0", Equal, 0), ("1", "-1", Greater, 0), ("2", "20e-1", Equal, 2),
    ("100", "100.0", Equal, 2), ("100", "1e2", Equal, 2), ("100.0", "1e2", Equal, 2), ("-3", "-4", Greater, 2),
    ("-2.5", "0", Less, 0), ("0.5", "0.05", Greater, 0), ("1.25", "1.35", Less, 4), ("-1.25", "-1.35", Greater, 4),
    ("-12", "-12.5", Greater, 4), ("10.5", "10", Greater, 2), ("10.0", "10", Equal, 2), ("9.99", "10", Less, 0),
    ("-1e30", "-10", Less, 0), ("1e1073741824", "7", Greater, 0), ("1e20", "100000000000000000001", Less, 2),
    ("-1e20", "-100000000000000000001", Greater, 2), ("36028797018963968.0", "36028797018963968", Equal, 34),
    ("441044444333116.125", "441044444333116.25", Less, 32), ("-123.4567890123450", "-123.456789012345", Equal, 30),
    ("9223372036854775808", "9223372036854775807", Greater, 38),
    ("-9223372036854775808", "-9223372036854775808", Equal, 38),
    ("18446744073709551616", "18446744073709551616.0", Equal, 40),
    ("18446744073709551616", "18446744073709551616.5", Less, 40),
    ("18446744073709551615.0", "18446744073709551615", Equal, 40), ("18446744073709551615.0", "0", Greater, 0),
    ("123456789012345678901234567890.5", "1234567890123456789012345678905e-1", Equal, 62),
];

/// Asserts that each call that compares `a` with `b` reports the order `want`.
pub fn compares(rt: &impl Abort, a: &INumber, b: &INumber, want: Ordering) {
    assert!(*rt; a.cmp(b) == want && (a < b) == (want == Less));
    assert!(*rt; (a == b) == (want == Equal) && (a != b) == (want != Equal));
    if let Some(value) = b.to_i64() {
        assert!(*rt; a.cmp_i64(value) == want);
    }
    if let Some(value) = b.to_u64() {
        assert!(*rt; a.cmp_u64(value) == want);
    }
}

/// Asserts the order of the numbers `a` and `b`, and returns how many digits a comparison reads.
fn reads(rt: &impl Abort, alloc: Global, a: &str, b: &str, want: Ordering) -> u128 {
    let (a, b) = (spelled(rt, alloc, a), spelled(rt, alloc, b));
    counted!(alloc; compares(rt, &a, &b, want));
    counted!(alloc; compares(rt, &b, &a, want.reverse()));
    assert!(*rt; counted!(alloc; hash_of(&a) == hash_of(&b)) == (want == Equal));
    // This bound shows the prover that the number of inspections is in range.
    assert!(*rt; a.count() < 40);
    let mut looks = Looks::new();
    assert!(*rt; counted!(alloc; compare(&a, &b, &mut looks)) == want);
    drop(a);
    drop(b);
    looks.count()
}

#[test]
fn pairs(rt: HostRuntime) {
    for &(a, b, want, count) in &PAIRS {
        assert!(rt; reads(&rt, rt.alloc(), a, b, want) == count, "{a} {b}");
    }
}

/// Asserts the order of the number at `place` and each number from `place` on.
fn is_at(rt: &impl Abort, alloc: Global, place: usize, text: &str) {
    for (other_place, other) in ASCENDING.iter().enumerate().skip(place) {
        let _ = reads(rt, alloc, text, other, place.cmp(&other_place));
    }
}

#[test]
fn order(rt: HostRuntime) {
    for (place, text) in ASCENDING.iter().enumerate() {
        is_at(&rt, rt.alloc(), place, text);
    }
}

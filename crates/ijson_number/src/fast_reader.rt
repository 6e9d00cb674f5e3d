//! Reads the most common leading numbers in one pass: at most 19 digits, and an exponent of at most
//! four digits.
ghost use Rattle.std.specs.Prelude.{◌≡◌, ◌≢◌, ◌++◌, ◌+◌, ◌-◌, ◌*◌, ◌^◌, ◌<◌, ◌≤◌, List, ℕ, length, IfNone, IfSome, IsFalse, IsTrue};
ghost use Rattle.ijson_number.specs.private.CommonFront.{EndsToken, IsCommonFront, IsExponentTail};
ghost use Rattle.ijson_number.specs.Grammar.{Parts};
ghost use Rattle.ijson_number.specs.private.PrefixDigits.{IsTaken};
ghost use Rattle.ijson_number.specs.private.Significand.{IsFewFraction, IsFractionTaken, IsFront, IsMantissa, IsPower};

use crate::grammar::{is_whole, split_exponent_sign, split_sign};
use crate::lanes::{LANES, digit_count, number_of, power_of_ten};
use crate::repr::stored::WORD_DIGITS;
use crate::significand::Significand;
use std::simd::prelude::*;

/// The minimum number of digits for which a vector is faster than a loop.
const FEW: usize = 3;

/// The maximum number of exponent digits that the fast reader reads.
const EXPONENT_DIGITS: usize = 4;

/// Appends up to `most` leading digits of `bytes` to `number`, in a loop.
///
/// Returns the result and the number of digits read.
#[inline(always)]
pub fn take_digits(number: u64, bytes: &[u8], most: usize) -> (u64, usize)
    requires { (number + 1) * 10 ^ most ≤ 10 ^ 19 }
    ensures { IsTaken number bytes.now most result.0 result.1 }
{
    let (mut longer, mut count) = (number, 0);
    while count < most && count < bytes.len() && bytes[count].is_ascii_digit() {
        longer = longer * 10 + u64::from(bytes[count] - b'0');
        count += 1;
    }
    (longer, count)
}

/// Like `take_digits`, but reads the first 16 digits, or fewer, as one vector.
///
/// Falls back to `take_digits` if `bytes` has fewer than 16 bytes, or if there are fewer than `FEW`
/// digits to read.
#[inline(always)]
fn take_lanes(number: u64, bytes: &[u8], most: usize) -> (u64, usize)
    requires { (number + 1) * 10 ^ most ≤ 10 ^ 19 }
    ensures { IsTaken number bytes.now most result.0 result.1 }
{
    if bytes.len() < LANES {
        return take_digits(number, bytes, most);
    }
    let lanes = u8x16::from_slice(bytes);
    let count = digit_count(lanes).min(most);
    if count < FEW {
        return take_digits(number, bytes, count);
    }
    let longer = number * power_of_ten(count) + number_of(lanes, count);
    if count < LANES {
        return (longer, count);
    }
    let (longest, more) = take_digits(longer, &bytes[LANES..], most - LANES);
    (longest, LANES + more)
}

/// Returns the maximum number of fraction digits that may follow `count` whole digits.
///
/// The total is at most 19 digits, not counting a single zero before the point.
#[inline(always)]
fn places_left(number: u64, count: usize) -> usize
    requires { count ≤ 19 }
    ensures zero { number ≡ 0 → result ≡ 19 }
    ensures others { number ≢ 0 → result ≡ 19 - count }
{
    if number == 0 {
        WORD_DIGITS
    } else {
        WORD_DIGITS - count
    }
}

/// Appends up to `places_left` fraction digits at the start of `bytes` to `number`, which has
/// `count` digits.
///
/// Returns the result, the number of digits read, and the bytes after them. Returns `None` if
/// `bytes` begins with a point, and no digit follows it or `places_left` is 0.
#[inline(always)]
fn take_fraction(number: u64, count: usize, bytes: &[u8]) -> Option<(u64, usize, &[u8])>
    requires few { count ≤ 19 }
    requires room { (number + 1) * 10 ^ (19 - count) ≤ 10 ^ 19 }
    ensures tail { IfSome result (λ r. IsFractionTaken number bytes.now r.0 r.1 r.2.now) }
    ensures rest { IfSome result (λ r. (front rest : List ℕ)
        → IsFewFraction number count bytes.now front rest → r.2.now ≡ rest) }
    ensures none { IfNone result ((front rest : List ℕ)
        → IsFewFraction number count bytes.now front rest → ⊥) }
{
    let [b'.', behind @ ..] = bytes else {
        return Some((number, 0, bytes));
    };
    let (longer, scale) = take_lanes(number, behind, places_left(number, count));
    if scale == 0 {
        return None;
    }
    let (_, rest) = behind.split_at(scale);
    Some((longer, scale, rest))
}

/// A number at the start of an input, and its length in bytes.
#[derive(Clone, Copy)]
pub struct Front {
    pub significand: Significand,
    pub length: usize,
}

/// Reads the optional sign, the whole part and the optional fraction, and returns the bytes after
/// them.
///
/// Returns `None` if the whole part is invalid, or if `take_fraction` returns `None`.
#[inline(always)]
fn read_mantissa(text: &[u8]) -> Option<(Front, &[u8])>
    ensures found { IfSome result (λ r. IsMantissa text.now r.0 r.1.now) }
    ensures rest { IfSome result (λ r. (p : Parts) (rest : List ℕ)
        → (f : IsCommonFront text.now p rest) → r.1.now ≡ f.after) }
    ensures none { IfNone result ((p : Parts) (rest : List ℕ) → IsCommonFront text.now p rest → ⊥) }
{
    let (negative, unsigned) = split_sign(text);
    let (number, count) = take_lanes(0, unsigned, WORD_DIGITS);
    let (whole, behind) = unsigned.split_at(count);
    if !is_whole(whole) {
        return None;
    }
    let (magnitude, scale, rest) = take_fraction(number, count, behind)?;
    let significand = Significand {
        negative,
        magnitude,
        exponent: -(scale as i32),
        point: scale > 0,
    };
    let front = Front {
        significand,
        length: text.len() - rest.len(),
    };
    Some((front, rest))
}

/// Returns `true` if `bytes` begins with a digit or a letter, so that a number cannot end before
/// `bytes`.
#[inline(always)]
fn continues_token(bytes: &[u8]) -> bool
    ensures on { IsTrue result → EndsToken bytes.now → ⊥ }
    ensures ends { IsFalse result → EndsToken bytes.now }
{
    match bytes {
        [byte, ..] => byte.is_ascii_alphanumeric(),
        [] => false,
    }
}

/// Reads an exponent of at most four digits, and returns its value and its length in bytes.
///
/// Returns `None` if a digit or a letter follows the exponent. Not inlined, because few numbers
/// have an exponent.
#[inline(never)]
fn read_exponent(bytes: &[u8]) -> Option<(i32, usize)>
    ensures power { IfSome result (λ r. IsPower bytes.now r.0 r.1) }
    ensures rest { IfSome result (λ r. (rest : List ℕ)
        → IsExponentTail bytes.now rest → r.1 + length rest ≡ length bytes.now) }
    ensures none { IfNone result ((rest : List ℕ) → IsExponentTail bytes.now rest → EndsToken bytes.now) }
{
    let [b'e' | b'E', signed @ ..] = bytes else {
        return None;
    };
    let (negative, digits) = split_exponent_sign(signed);
    let (magnitude, count) = take_digits(0, digits, EXPONENT_DIGITS);
    let (_, rest) = digits.split_at(count);
    if count == 0 || continues_token(rest) {
        return None;
    }
    let magnitude = magnitude as i32;
    let power = if negative { -magnitude } else { magnitude };
    Some((power, bytes.len() - rest.len()))
}

/// Adds the exponent at the start of `rest` to the exponent of `front`.
///
/// Returns `None` if `read_exponent` does. The exponent of zero is set to 0.
///
/// Inlined, so that the return slot of `read_exponent` is zeroed only if there is an exponent.
#[inline(always)]
fn with_exponent(front: Front, rest: &[u8]) -> Option<Front>
    requires mantissa { (text : List ℕ) × IsMantissa text front rest.now }
    requires continues { EndsToken rest.now → ⊥ }
    requires length { front.length + length rest.now < 2 ^ 64 }
    ensures front { IfSome result (λ f. (text : List ℕ) → IsMantissa text front rest.now → IsFront text f) }
    ensures rest { IfSome result (λ f. (behind : List ℕ)
        → IsExponentTail rest.now behind → f.length + length behind ≡ front.length + length rest.now) }
    ensures none { IfNone result ((behind : List ℕ) → IsExponentTail rest.now behind → ⊥) }
{
    let (power, length) = read_exponent(rest)?;
    let mantissa = front.significand;
    // Stripping trailing zeros of 0 with the exponent `-n` would take `n` steps.
    let exponent = if mantissa.magnitude == 0 {
        0
    } else {
        mantissa.exponent + power
    };
    let significand = Significand {
        exponent,
        point: true,
        ..mantissa
    };
    Some(Front {
        significand,
        length: front.length + length,
    })
}

/// Reads a leading number of up to 19 digits with an optional exponent of up to four digits.
///
/// Returns `None` if `text` does not begin with such a number, or if a digit or a letter follows
/// the number.
#[inline(always)]
pub fn read_common(text: &[u8]) -> Option<Front>
    ensures found { IfSome result (IsFront text.now) }
    ensures common { IfSome result (λ f. (p : Parts) (rest : List ℕ)
        → IsCommonFront text.now p rest → f.length + length rest ≡ length text.now) }
    ensures none { IfNone result ((p : Parts) (rest : List ℕ) → IsCommonFront text.now p rest → ⊥) }
{
    let (front, rest) = read_mantissa(text)?;
    if continues_token(rest) {
        return with_exponent(front, rest);
    }
    Some(front)
}

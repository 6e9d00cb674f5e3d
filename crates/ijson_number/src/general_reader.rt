//! Reads a leading number of any length, or finds the first byte that cannot continue a number.
ghost use Rattle.std.specs.Prelude.{◌≡◌, ◌↔◌, ◌++◌, ◌∷◌, ◌<◌, ◌≤◌, ◌-◌, ◌+◌, ◌^◌, min, nat_abs, ℕ, List};
ghost use Rattle.std.specs.Prelude.{IfOk, IfErr, IfSome, IfNone, IsTrue, replicate, length};
ghost use Rattle.std.specs.Int.Digits.{number_from_digits_after};
ghost use Rattle.ijson_number.specs.Decimal.{Decimal};
ghost use Rattle.ijson_number.specs.Num.{IsNum};
ghost use Rattle.ijson_number.specs.private.Reading.{IsWithin, exponent_of, BeginsWithNoDigit};
ghost use Rattle.ijson_number.specs.private.Reading.{BeginsWithNoZero, EndsWithNoZero};
ghost use Rattle.ijson_number.specs.private.GeneralReader.{IsCut, IsExponentCut, IsExponentRead, IsFractionRead};
ghost use Rattle.ijson_number.specs.private.GeneralReader.{IsSpellingRead, IsTailCut, IsTailRead, IsWholeRead};
ghost use Rattle.ijson_number.specs.Strips.{signed};
ghost use Rattle.ijson_number.specs.Grammar.{AllDigits, Denotes, IsSpelled, Spells, value};
ghost use Rattle.ijson_number.specs.private.CanonicalSpelling.{IsCanonicalSpelling, parts_of, spelled_number};
ghost use Rattle.ijson_number.specs.private.Significand.{canonical_number};
ghost use Rattle.ijson_number.specs.private.Stripped.{digits_from_text};

use crate::grammar::{split_digits, split_exponent_sign, split_sign};
use crate::significand::Significand;

/// The cap on the absolute value of a written exponent.
///
/// A capped exponent is out of range, however many digits the input has.
const CAP: u128 = 1 << 80;

/// Returns `digits` without leading zeros.
fn trim_leading_zeros(digits: &[u8]) -> &[u8]
    ensures zeros { digits.now
        ≡ replicate (length digits.now - length result.now) 48 ++ result.now }
    ensures first { BeginsWithNoZero result.now }
{
    let mut count = 0;
    while count < digits.len() && digits[count] == b'0' {
        count += 1;
    }
    &digits[count..]
}

/// Returns `digits` without trailing zeros.
fn trim_trailing_zeros(digits: &[u8]) -> &[u8]
    ensures zeros { digits.now
        ≡ result.now ++ replicate (length digits.now - length result.now) 48 }
    ensures last { EndsWithNoZero result.now }
{
    let mut end = digits.len();
    while end > 0 && digits[end - 1] == b'0' {
        end -= 1;
    }
    &digits[..end]
}

/// Splits off the whole part: a zero, or all leading digits.
///
/// Returns `None` if `bytes` does not begin with a digit.
fn split_whole(bytes: &[u8]) -> Option<(&[u8], &[u8])>
    ensures some { IfSome result (λ r. IsWholeRead bytes.now r.0.now r.1.now) }
    ensures none { IfNone result (BeginsWithNoDigit bytes.now) }
{
    if let [b'0', ..] = bytes {
        return Some(bytes.split_at(1));
    }
    let (digits, rest) = split_digits(bytes);
    if digits.is_empty() {
        return None;
    }
    Some((digits, rest))
}

/// Splits off the digits of a fraction, if `bytes` begins with a point.
///
/// Returns `Err` with the bytes after the point if no digit follows it.
fn split_fraction(bytes: &[u8]) -> Result<(&[u8], &[u8]), &[u8]>
    ensures ok { IfOk result (λ r. IsFractionRead bytes.now r.0.now r.1.now) }
    ensures err { IfErr result (λ rest. (bytes.now ≡ 46 ∷ rest.now) × BeginsWithNoDigit rest.now) }
{
    let [b'.', behind @ ..] = bytes else {
        return Ok((&[], bytes));
    };
    let (digits, rest) = split_digits(behind);
    if digits.is_empty() {
        return Err(rest);
    }
    Ok((digits, rest))
}

/// Splits off the sign and the digits of an exponent, if `bytes` begins with `e` or `E`.
///
/// Returns `Err` with the bytes after the sign if no digit follows it.
fn split_exponent(bytes: &[u8]) -> Result<(bool, &[u8], &[u8]), &[u8]>
    ensures ok { IfOk result (λ r. IsExponentRead bytes.now r.0 r.1.now r.2.now) }
    ensures err { IfErr result (λ rest. IsExponentCut bytes.now rest.now) }
{
    let [b'e' | b'E', signed @ ..] = bytes else {
        return Ok((false, &[], bytes));
    };
    let (negative, number) = split_exponent_sign(signed);
    let (digits, rest) = split_digits(number);
    if digits.is_empty() {
        return Err(rest);
    }
    Ok((negative, digits, rest))
}

/// The part of a number after the whole digits: fraction digits, and the sign and the digits of the
/// exponent.
#[derive(Clone, Copy)]
pub struct Tail<'a> {
    pub fraction: &'a [u8],
    pub negative: bool,
    pub exponent: &'a [u8],
    pub point: bool,
}

/// Reads a fraction and an exponent, if present, and returns them and the remaining bytes.
///
/// If a digit is missing, returns `Err` with the bytes from where it was expected.
#[inline(always)]
fn read_tail(bytes: &[u8]) -> Result<(Tail<'_>, &[u8]), &[u8]>
    ensures ok { IfOk result (λ r. IsTailRead bytes.now r.0 r.1.now) }
    ensures err { IfErr result (λ rest. IsTailCut bytes.now rest.now) }
{
    let (fraction, behind) = split_fraction(bytes)?;
    let (negative, exponent, rest) = split_exponent(behind)?;
    let tail = Tail {
        fraction,
        negative,
        exponent,
        point: rest.len() < bytes.len(),
    };
    Ok((tail, rest))
}

/// The parts of a number as slices of the input.
#[derive(Clone, Copy)]
pub struct Spelling<'a> {
    pub negative: bool,
    pub whole: &'a [u8],
    pub tail: Tail<'a>,
}

/// Splits the leading number into its parts, and returns the bytes after it.
///
/// If the longest prefix that can begin a number is not a number, returns `Err` with the bytes
/// after this prefix.
#[inline(always)]
pub fn read_spelling(text: &[u8]) -> Result<(Spelling<'_>, &[u8]), &[u8]>
    ensures ok { IfOk result (λ r. IsSpellingRead text.now r.0 r.1.now) }
    ensures err { IfErr result (λ rest. IsCut text.now rest.now) }
{
    let (negative, unsigned) = split_sign(text);
    let Some((whole, behind)) = split_whole(unsigned) else {
        return Err(unsigned);
    };
    let (tail, rest) = read_tail(behind)?;
    let spelling = Spelling {
        negative,
        whole,
        tail,
    };
    Ok((spelling, rest))
}

/// Returns `true` if all of `text` is a JSON number, however large its exponent.
pub fn is_spelling(text: &[u8]) -> bool
    ensures { IsTrue result ↔ ((n : Decimal) × Spells text.now n) }
{
    match read_spelling(text) {
        Ok((_, rest)) => rest.is_empty(),
        Err(_) => false,
    }
}

/// Strips leading zeros from digits that are stored in two slices.
fn strip_front<'a>(whole: &'a [u8], fraction: &'a [u8]) -> (&'a [u8], &'a [u8])
    ensures zeros { (zeros : ℕ)
        × whole.now ++ fraction.now ≡ replicate zeros 48 ++ (result.0.now ++ result.1.now) }
    ensures first { BeginsWithNoZero (result.0.now ++ result.1.now) }
{
    let front = trim_leading_zeros(whole);
    if front.is_empty() {
        (front, trim_leading_zeros(fraction))
    } else {
        (front, fraction)
    }
}

/// Strips trailing zeros from digits that are stored in two slices.
fn strip_back<'a>(front: &'a [u8], back: &'a [u8]) -> (&'a [u8], &'a [u8])
    ensures zeros { let off_front = length front.now - length result.0.now in
        let off_back = length back.now - length result.1.now in
        front.now ++ back.now ≡ (result.0.now ++ result.1.now) ++ replicate (off_front + off_back) 48 }
    ensures front_len { length result.0.now ≤ length front.now }
    ensures back_len { length result.1.now ≤ length back.now }
    ensures last { EndsWithNoZero (result.0.now ++ result.1.now) }
{
    let tail = trim_trailing_zeros(back);
    if tail.is_empty() {
        (trim_trailing_zeros(front), tail)
    } else {
        (front, tail)
    }
}

/// Returns the value of the digits, capped at `CAP`.
fn capped(digits: &[u8]) -> u128
    requires { AllDigits digits.now }
    ensures { result ≡ min (value digits.now) CAP }
{
    let mut number: u128 = 0;
    for digit in digits {
        number = (number * 10 + (*digit - b'0') as u128).min(CAP);
    }
    number
}

/// The maximum absolute value of a canonical exponent. The limit is this project's own.
const EXPONENT_LIMIT: i128 = 1 << 30;

/// Returns the written exponent, with its absolute value capped at `CAP`.
fn written_exponent(tail: &Tail<'_>) -> i128
    requires { AllDigits tail.now.exponent.now }
    ensures { result ≡ signed tail.now.negative (min (value tail.now.exponent.now) CAP) }
{
    let number = capped(tail.exponent) as i128;
    if tail.negative { -number } else { number }
}

/// Returns the canonical exponent, or `None` if it exceeds the limit.
///
/// The canonical exponent is the written exponent minus the number of fraction digits, plus `tens`,
/// the number of stripped trailing zeros.
fn canonical_exponent(tail: &Tail<'_>, tens: u128) -> Option<i32>
    requires digits { AllDigits tail.now.exponent.now }
    requires tens { tens < 2 ^ 65 }
    ensures some { let written = signed tail.now.negative (value tail.now.exponent.now) in
        IfSome result (λ e.
        e ≡ exponent_of written (length tail.now.fraction.now) tens × IsWithin e) }
    ensures none { let written = signed tail.now.negative (value tail.now.exponent.now) in
        IfNone result (IsWithin (exponent_of written (length tail.now.fraction.now) tens) → ⊥) }
{
    let exponent = written_exponent(tail) + (tens as i128 - tail.fraction.len() as i128);
    if exponent < -EXPONENT_LIMIT || EXPONENT_LIMIT < exponent {
        return None;
    }
    Some(exponent as i32)
}

/// A number with canonical digits, as two slices of the input, and an exponent within the limit.
#[derive(Clone, Copy)]
pub struct CanonicalSpelling<'a> {
    pub negative: bool,
    pub front: &'a [u8],
    pub back: &'a [u8],
    pub exponent: i32,
    pub point: bool,
}

impl<'a> Spelling<'a> {
    /// Strips leading and trailing zeros. Returns `None` if the canonical exponent exceeds the
    /// limit.
    pub fn canonical(&self) -> Option<CanonicalSpelling<'a>>
        requires spelled { (text : List ℕ) × IsSpelled text (parts_of self.now) }
        requires digits { AllDigits self.now.tail.exponent.now }
        ensures denoted { IfSome result (λ s. Denotes (parts_of self.now) (spelled_number s)) }
        ensures canonical { IfSome result IsCanonicalSpelling }
        ensures none { IfNone result ((n : Decimal)
            → Denotes (parts_of self.now) n
            → IsNum n
            → ⊥) }
    {
        let tail = self.tail;
        let (whole, fraction) = strip_front(self.whole, tail.fraction);
        let (front, back) = strip_back(whole, fraction);
        if front.is_empty() && back.is_empty() {
            return Some(CanonicalSpelling {
                negative: false,
                front,
                back,
                exponent: 0,
                point: tail.point,
            });
        }
        let tens = (whole.len() - front.len()) as u128 + (fraction.len() - back.len()) as u128;
        let exponent = canonical_exponent(&tail, tens)?;
        Some(CanonicalSpelling {
            negative: self.negative,
            front,
            back,
            exponent,
            point: tail.point,
        })
    }
}

/// Returns `number` followed by `digits` in decimal, or `None` if that does not fit a `u64`.
fn append_digits(number: u64, digits: &[u8]) -> Option<u64>
    requires { AllDigits digits.now }
    ensures some { IfSome result (λ n. n ≡ number_from_digits_after 10 number (digits_from_text digits.now)) }
    ensures none { IfNone result (2 ^ 64 ≤ number_from_digits_after 10 number (digits_from_text digits.now)) }
{
    let mut longer = number;
    for digit in digits {
        longer = longer
            .checked_mul(10)?
            .checked_add(u64::from(*digit - b'0'))?;
    }
    Some(longer)
}

impl CanonicalSpelling<'_> {
    /// Returns the number as a `Significand`, or `None` if its magnitude does not fit a `u64`.
    pub fn significand(&self) -> Option<Significand>
        requires { IsCanonicalSpelling self.now }
        ensures some { IfSome result (λ s. canonical_number s ≡ spelled_number self.now) }
        ensures none { IfNone result (2 ^ 64 ≤ nat_abs (spelled_number self.now).mantissa) }
    {
        let front = append_digits(0, self.front)?;
        let magnitude = append_digits(front, self.back)?;
        Some(Significand {
            negative: self.negative,
            magnitude,
            exponent: self.exponent,
            point: self.point,
        })
    }
}

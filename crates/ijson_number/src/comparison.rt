//! Compares two numbers by value, digit by digit, and counts the digits that it reads.
//!
//! `ijson_table` also counts with the type `Looks`: the slots that it reads.
ghost use Rattle.std.specs.Prelude.{◌≡◌, ◌+◌, ◌<◌, ◌^◌, ◌≢◌, ◌≤◌, pos, slice_index};
ghost use Rattle.std.specs.Cmp.Lexicographic.{slice_cmp};
ghost use Rattle.std.specs.Ordering.{int_cmp, nat_cmp};
ghost use Rattle.ijson_number.specs.DigitRow.{NeedsDigits, digit_count, leading_place, most_looks};
ghost use Rattle.ijson_number.specs.Num.{Num};
ghost use Rattle.ijson_number.specs.Order.{number_cmp};
ghost use Rattle.ijson_number.specs.StrippedDigits.{stripped_digits};
ghost use Rattle.ijson_number.specs.private.MagnitudeOrder.{magnitude_cmp};
ghost use Rattle.ijson_number.specs.private.StrippedNumber.{stripped_num};

use crate::repr::INumber;
use crate::repr::stored::{MAX_DIGITS, Stored, StrippedNumber, place_of};
use std::cmp::Ordering;
use std::marker::Model;

/// A count of inspections: the slots of a hash table or the digits of a number that were read.
///
/// The count is below `2 ^ 128`.
#[derive(Debug, Drop)]
pub struct Looks {
    seen: u128,
}

impl Model for Looks {
    ghost use Rattle.std.specs.Prelude.{ℕ};

    ghost Value = { ℕ };

    ghost view = { λ l. l.seen };
}

impl Looks {
    /// Creates a count of 0.
    pub fn new() -> Looks
        ensures { result ≡ 0 }
    {
        Looks { seen: 0 }
    }

    /// Returns the number of inspections.
    pub fn count(&self) -> u128
        ensures { result ≡ self.now }
    {
        self.seen
    }

    /// Adds one inspection. Requires that the sum is below `2 ^ 128`.
    pub fn add_one(&mut self)
        requires { self.old + 1 < 2 ^ 128 }
        ensures { self.new ≡ self.old + 1 }
    {
        self.seen += 1;
    }

    /// Adds `count` inspections. Requires that the sum is below `2 ^ 128`.
    pub fn add(&mut self, count: u128)
        requires { self.old + count < 2 ^ 128 }
        ensures { self.new ≡ self.old + count }
    {
        self.seen += count;
    }
}

/// A number whose canonical digits are read individually.
///
/// For example, `1.50` has the digits 1 and 5. No method allocates.
///
/// # Cost
///
/// Each method takes constant time. An `INumber` that is not boxed computes its digits, at most 20,
/// in each call of a method other than `sign`.
pub trait DigitRow {
    /// The number whose digits are read.
    ghost num: { Self → Num };

    /// Returns `Less` for a negative number, `Equal` for zero and `Greater` for a positive number.
    fn sign(&self) -> Ordering
        ensures { result ≡ int_cmp (num self.now).decimal.mantissa (pos 0) };

    /// Returns the number of canonical digits, or 0 for zero.
    fn count(&self) -> usize
        ensures { result ≡ digit_count (num self.now).decimal };

    /// Returns the position of the decimal point relative to the first canonical digit, or 0 for
    /// zero.
    ///
    /// This is the number of canonical digits plus the canonical exponent: 1 for `1.50`, 0 for
    /// `0.5` and -1 for `0.05`.
    fn lead(&self) -> i128
        ensures { result ≡ leading_place (num self.now).decimal };

    /// Returns the canonical digit at index `at`, from 0 to 9, and adds one inspection to `looks`.
    ///
    /// The digit at index 0 is the most significant. Requires that `at` is below `count`, and that
    /// the count of `looks` remains below `2 ^ 128`.
    fn digit(&self, at: usize, looks: &mut Looks) -> u8
        requires within { at < digit_count (num self.now).decimal }
        requires fits { looks.old + 1 < 2 ^ 128 }
        ensures digit { result ≡ slice_index (stripped_digits (num self.now).decimal) at }
        ensures counts { looks.new ≡ looks.old + 1 };
}

/// Compares the digits of two numbers that have the same `lead`.
fn compare_digits<D: DigitRow>(a: &D, b: &D, looks: &mut Looks) -> Ordering
    requires fits { looks.old + most_looks (D.num a.now).decimal (D.num b.now).decimal < 2 ^ 128 }
    ensures order { result ≡ slice_cmp nat_cmp
        (stripped_digits (D.num a.now).decimal)
        (stripped_digits (D.num b.now).decimal) }
    ensures grows { looks.old ≤ looks.new }
    ensures bounded { looks.new ≤ looks.old + most_looks (D.num a.now).decimal (D.num b.now).decimal }
{
    let count = a.count();
    let other_count = b.count();
    for at in 0..count.min(other_count) {
        let digit = a.digit(at, looks);
        let other = b.digit(at, looks);
        if digit != other {
            return digit.cmp(&other);
        }
    }
    count.cmp(&other_count)
}

/// Compares the absolute values of two nonzero numbers of the same sign.
fn compare_magnitudes<D: DigitRow>(a: &D, b: &D, looks: &mut Looks) -> Ordering
    requires some { (D.num a.now).decimal.mantissa ≢ pos 0 }
    requires some_other { (D.num b.now).decimal.mantissa ≢ pos 0 }
    requires fits { leading_place (D.num a.now).decimal ≡ leading_place (D.num b.now).decimal →
        looks.old + most_looks (D.num a.now).decimal (D.num b.now).decimal < 2 ^ 128 }
    ensures order { result ≡ magnitude_cmp (D.num a.now).decimal (D.num b.now).decimal }
    ensures grows { looks.old ≤ looks.new }
    ensures bounded { looks.new ≤ looks.old + most_looks (D.num a.now).decimal (D.num b.now).decimal }
    ensures unread { (leading_place (D.num a.now).decimal ≡ leading_place (D.num b.now).decimal → ⊥)
        → looks.new ≡ looks.old }
{
    let place = a.lead();
    let other_place = b.lead();
    if place == other_place {
        compare_digits(a, b, looks)
    } else {
        place.cmp(&other_place)
    }
}

/// Compares two numbers by value: `2` and `2.0` are equal.
///
/// Requires that the count of `looks` remains below `2 ^ 128`.
///
/// # Cost
///
/// Reads digits only if both numbers have the same `sign` and the same `lead`. Reads at most
/// `2 * n` digits, where `n` is the smaller number of digits. For example, `1e1000000000` and `2`
/// differ in `lead`, so no digits are read. Does not allocate, and does not expand exponents to
/// zeros.
pub fn compare<D: DigitRow>(a: &D, b: &D, looks: &mut Looks) -> Ordering
    requires fits { NeedsDigits (D.num a.now).decimal (D.num b.now).decimal →
        looks.old + most_looks (D.num a.now).decimal (D.num b.now).decimal < 2 ^ 128 }
    ensures order { result ≡ number_cmp (D.num a.now).decimal (D.num b.now).decimal }
    ensures grows { looks.old ≤ looks.new }
    ensures bounded { looks.new ≤ looks.old + most_looks (D.num a.now).decimal (D.num b.now).decimal }
    ensures unread { (NeedsDigits (D.num a.now).decimal (D.num b.now).decimal → ⊥) → looks.new ≡ looks.old }
{
    let sign = a.sign();
    let other_sign = b.sign();
    if sign != other_sign {
        return sign.cmp(&other_sign);
    }
    match sign {
        Ordering::Less => compare_magnitudes(b, a, looks),
        Ordering::Equal => Ordering::Equal,
        Ordering::Greater => compare_magnitudes(a, b, looks),
    }
}

impl DigitRow for StrippedNumber<'_> {
    ghost num = { stripped_num };

    fn sign(&self) -> Ordering {
        if self.digits.is_empty() {
            Ordering::Equal
        } else if self.negative {
            Ordering::Less
        } else {
            Ordering::Greater
        }
    }

    fn count(&self) -> usize {
        self.digits.len()
    }

    fn lead(&self) -> i128 {
        place_of(self.digits, self.exponent)
    }

    fn digit(&self, at: usize, looks: &mut Looks) -> u8 {
        looks.add_one();
        self.digits[at]
    }
}

impl DigitRow for INumber {
    ghost num = { λ n. n };

    fn sign(&self) -> Ordering {
        match &self.stored {
            Stored::Packed(word) => word.mantissa().cmp(&0),
            Stored::I64(value) => value.cmp(&0),
            Stored::U64(value) => value.cmp(&0),
            Stored::Short(number) => number.stripped().sign(),
            Stored::Long(number) => number.stripped().sign(),
        }
    }

    fn count(&self) -> usize {
        self.stripped(&mut [0; MAX_DIGITS]).count()
    }

    fn lead(&self) -> i128 {
        self.stripped(&mut [0; MAX_DIGITS]).lead()
    }

    fn digit(&self, at: usize, looks: &mut Looks) -> u8 {
        self.stripped(&mut [0; MAX_DIGITS]).digit(at, looks)
    }
}

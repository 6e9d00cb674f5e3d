//! Converts integers to numbers, and numbers to integers.
ghost use Rattle.std.specs.Int.Digits.{number_from_digits};
ghost use Rattle.std.specs.List.{All};
ghost use Rattle.std.specs.Prelude.{◌≡◌, ◌+◌, ◌*◌, ◌*ℤ◌, ◌^◌, ◌<◌, ◌≤◌, length, ℕ, ℤ, pos, nat_abs, IfSome, IfNone, FitsSigned};
ghost use mir.Syntax.{w32, w64};
ghost use Rattle.ijson_number.specs.Integers.{HasValue, IsInteger};

use crate::encode::{encode_signed, encode_unsigned};
use crate::repr::INumber;
use crate::repr::stored::{MAX_DIGITS, Stored, StrippedNumber};
use std::cmp::Ordering;

impl INumber {
    /// Returns the integer 0. Does not allocate.
    pub fn zero() -> INumber
        ensures { IsInteger result.decimal (pos 0) }
    {
        INumber::from(0i64)
    }

    /// Returns the integer 1. Does not allocate.
    pub fn one() -> INumber
        ensures { IsInteger result.decimal (pos 1) }
    {
        INumber::from(1i64)
    }
}

impl INumber {
    ghost use Rattle.ijson_number.specs.Integers.{integer};
    ghost use Rattle.ijson_number.specs.Order.{number_cmp};

    /// Compares the value with an `i64`. Does not allocate.
    ///
    /// For example, `number.cmp_i64(10)` returns `Greater` for `10.5` and `Equal` for `10.0`.
    pub fn cmp_i64(&self, value: i64) -> Ordering
        ensures { result ≡ number_cmp self.now.decimal (integer value) }
    {
        self.cmp(&INumber::from(value))
    }

    /// Compares the value with a `u64`. Does not allocate.
    ///
    /// For example, `number.cmp_u64(10)` returns `Greater` for `10.5` and `Equal` for `10.0`.
    pub fn cmp_u64(&self, value: u64) -> Ordering
        ensures { result ≡ number_cmp self.now.decimal (integer (pos value)) }
    {
        self.cmp(&INumber::from(value))
    }
}

/// Creates the integer 0.
impl Default for INumber {
    ghost is_default = { λ n. IsInteger n.decimal (pos 0) };

    fn default() -> INumber {
        INumber::zero()
    }
}

/// Converts to a number without a decimal point. Does not allocate.
impl From<i64> for INumber {
    ghost from_gives = { λ z n. IsInteger n.decimal z };

    fn from(value: i64) -> INumber {
        INumber {
            stored: encode_signed(value),
        }
    }
}

/// Converts to a number without a decimal point. Does not allocate.
impl From<u64> for INumber {
    ghost from_gives = { λ value n. IsInteger n.decimal (pos value) };

    fn from(value: u64) -> INumber {
        INumber {
            stored: encode_unsigned(value),
        }
    }
}

/// Converts to a number without a decimal point. Does not allocate.
impl From<i8> for INumber {
    ghost from_gives = { λ value n. IsInteger n.decimal value };

    fn from(value: i8) -> INumber {
        INumber::from(i64::from(value))
    }
}

/// Converts to a number without a decimal point. Does not allocate.
impl From<i16> for INumber {
    ghost from_gives = { λ value n. IsInteger n.decimal value };

    fn from(value: i16) -> INumber {
        INumber::from(i64::from(value))
    }
}

/// Converts to a number without a decimal point. Does not allocate.
impl From<i32> for INumber {
    ghost from_gives = { λ value n. IsInteger n.decimal value };

    fn from(value: i32) -> INumber {
        INumber::from(i64::from(value))
    }
}

/// Converts to a number without a decimal point. Does not allocate.
impl From<isize> for INumber {
    ghost from_gives = { λ value n. IsInteger n.decimal value };

    fn from(value: isize) -> INumber {
        INumber::from(value as i64)
    }
}

/// Converts to a number without a decimal point. Does not allocate.
impl From<u8> for INumber {
    ghost from_gives = { λ value n. IsInteger n.decimal (pos value) };

    fn from(value: u8) -> INumber {
        INumber::from(u64::from(value))
    }
}

/// Converts to a number without a decimal point. Does not allocate.
impl From<u16> for INumber {
    ghost from_gives = { λ value n. IsInteger n.decimal (pos value) };

    fn from(value: u16) -> INumber {
        INumber::from(u64::from(value))
    }
}

/// Converts to a number without a decimal point. Does not allocate.
impl From<u32> for INumber {
    ghost from_gives = { λ value n. IsInteger n.decimal (pos value) };

    fn from(value: u32) -> INumber {
        INumber::from(u64::from(value))
    }
}

/// Converts to a number without a decimal point. Does not allocate.
impl From<usize> for INumber {
    ghost from_gives = { λ value n. IsInteger n.decimal (pos value) };

    fn from(value: usize) -> INumber {
        INumber::from(value as u64)
    }
}

/// Returns the value of up to 20 digits.
fn number_of_digits(digits: &[u8]) -> u128
    requires below_ten { All (λ d. d < 10) digits.now }
    requires fits { length digits.now ≤ 20 }
    ensures { result ≡ number_from_digits 10 digits.now }
{
    let mut number: u128 = 0;
    for digit in digits {
        number = number * 10 + u128::from(*digit);
    }
    number
}

/// Returns the value of the digits times `10 ^ zeros`.
fn scaled(digits: &[u8], zeros: usize) -> u128
    requires below_ten { All (λ d. d < 10) digits.now }
    requires fits { length digits.now + zeros ≤ 20 }
    ensures value { result ≡ number_from_digits 10 digits.now * 10 ^ zeros }
    ensures small { result < 10 ^ 20 }
{
    number_of_digits(digits) * 10u128.pow(zeros as u32)
}

impl StrippedNumber<'_> {
    ghost use Rattle.ijson_number.specs.private.StrippedNumber.{decimal_of};

    /// Returns the significand times `10 ^ zeros`, or `None` if its absolute value is `10 ^ 20` or
    /// more.
    fn mantissa_with(&self, zeros: usize) -> Option<i128>
        ensures some { IfSome result (λ m. m ≡ (decimal_of self.now).mantissa *ℤ pos (10 ^ zeros)) }
        ensures small { IfSome result (λ m. nat_abs m < 10 ^ 20) }
        ensures none { IfNone result
            (10 ^ 20 ≤ nat_abs ((decimal_of self.now).mantissa *ℤ pos (10 ^ zeros))) }
    {
        if self.digits.is_empty() {
            return Some(0);
        }
        if zeros as u128 + self.digits.len() as u128 > MAX_DIGITS as u128 {
            return None;
        }
        let magnitude = scaled(self.digits, zeros) as i128;
        Some(if self.negative { -magnitude } else { magnitude })
    }

    /// Returns the value if it is an integer whose absolute value is below `10 ^ 20`, and `None`
    /// otherwise.
    fn whole(&self) -> Option<i128>
        ensures some { IfSome result (λ z. HasValue (decimal_of self.now) z) }
        ensures small { IfSome result (λ z. nat_abs z < 10 ^ 20) }
        ensures none { IfNone result
            ((z : ℤ) → nat_abs z < 10 ^ 20 → HasValue (decimal_of self.now) z → ⊥) }
    {
        if self.exponent < 0 {
            return None;
        }
        self.mantissa_with(self.exponent as usize)
    }
}

impl INumber {
    /// Returns the value if it is an integer whose absolute value is below `10 ^ 20`, and `None`
    /// otherwise.
    fn whole(&self) -> Option<i128>
        ensures some { IfSome result (λ z. HasValue self.now.decimal z) }
        ensures small { IfSome result (λ z. nat_abs z < 10 ^ 20) }
        ensures none { IfNone result
            ((z : ℤ) → nat_abs z < 10 ^ 20 → HasValue self.now.decimal z → ⊥) }
    {
        match &self.stored {
            Stored::I64(value) => Some(i128::from(*value)),
            Stored::U64(value) => Some(i128::from(*value)),
            Stored::Packed(word) if word.exponent() == 0 => Some(i128::from(word.mantissa())),
            _ => self.stripped(&mut [0; MAX_DIGITS]).whole(),
        }
    }

    /// Returns the value if it is an integer in the range of `i64`, and `None` otherwise.
    ///
    /// For example, returns 2 for `2`, `2.0` and `20e-1`. Takes constant time and does not
    /// allocate.
    pub fn to_i64(&self) -> Option<i64>
        ensures some { IfSome result (λ z. HasValue self.now.decimal z) }
        ensures none { IfNone result
            ((z : ℤ) → FitsSigned w64 z → HasValue self.now.decimal z → ⊥) }
    {
        i64::try_from(self.whole()?).ok()
    }

    /// Returns the value if it is an integer in the range of `i32`, and `None` otherwise.
    ///
    /// For example, returns 2 for `2`, `2.0` and `20e-1`. Takes constant time and does not
    /// allocate.
    pub fn to_i32(&self) -> Option<i32>
        ensures some { IfSome result (λ z. HasValue self.now.decimal z) }
        ensures none { IfNone result
            ((z : ℤ) → FitsSigned w32 z → HasValue self.now.decimal z → ⊥) }
    {
        i32::try_from(self.whole()?).ok()
    }

    /// Returns the value if it is an integer in the range of `isize`, and `None` otherwise.
    ///
    /// For example, returns 2 for `2`, `2.0` and `20e-1`. Takes constant time and does not
    /// allocate.
    pub fn to_isize(&self) -> Option<isize>
        ensures some { IfSome result (λ z. HasValue self.now.decimal z) }
        ensures none { IfNone result
            ((z : ℤ) → FitsSigned w64 z → HasValue self.now.decimal z → ⊥) }
    {
        isize::try_from(self.whole()?).ok()
    }

    /// Returns the value if it is an integer in the range of `u64`, and `None` otherwise.
    ///
    /// For example, returns 2 for `2`, `2.0` and `20e-1`. Takes constant time and does not
    /// allocate.
    pub fn to_u64(&self) -> Option<u64>
        ensures some { IfSome result (λ n. HasValue self.now.decimal (pos n)) }
        ensures none { IfNone result
            ((n : ℕ) → n < 2 ^ 64 → HasValue self.now.decimal (pos n) → ⊥) }
    {
        u64::try_from(self.whole()?).ok()
    }

    /// Returns the value if it is an integer in the range of `u32`, and `None` otherwise.
    ///
    /// For example, returns 2 for `2`, `2.0` and `20e-1`. Takes constant time and does not
    /// allocate.
    pub fn to_u32(&self) -> Option<u32>
        ensures some { IfSome result (λ n. HasValue self.now.decimal (pos n)) }
        ensures none { IfNone result
            ((n : ℕ) → n < 2 ^ 32 → HasValue self.now.decimal (pos n) → ⊥) }
    {
        u32::try_from(self.whole()?).ok()
    }

    /// Returns the value if it is an integer in the range of `usize`, and `None` otherwise.
    ///
    /// For example, returns 2 for `2`, `2.0` and `20e-1`. Takes constant time and does not
    /// allocate.
    pub fn to_usize(&self) -> Option<usize>
        ensures some { IfSome result (λ n. HasValue self.now.decimal (pos n)) }
        ensures none { IfNone result
            ((n : ℕ) → n < 2 ^ 64 → HasValue self.now.decimal (pos n) → ⊥) }
    {
        usize::try_from(self.whole()?).ok()
    }
}

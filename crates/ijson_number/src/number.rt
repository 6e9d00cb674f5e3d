//! Parses, copies, hashes and compares numbers, and returns their representation.
ghost use Rattle.std.specs.Prelude.{◌≡◌, ◌↔◌, IfOk, IfErr, false, Some, refl};
ghost use Rattle.std.specs.Cmp.{partial_equiv_from_equiv, on_equiv, on_total, po};
ghost use Rattle.std.specs.List.{flat_map};
ghost use Rattle.ijson_number.specs.Alike.{IsAlike};
ghost use Rattle.ijson_number.specs.Form.{form_of, is_digits};
ghost use Rattle.ijson_number.specs.Grammar.{Spells};
ghost use Rattle.ijson_number.specs.Num.{Num};
ghost use Rattle.ijson_number.specs.Order.{number_cmp, number_eq};
ghost use Rattle.ijson_number.specs.Text.{num_text};
ghost use Rattle.ijson_number.specs.Words.{number_words};
ghost use Rattle.ijson_number.specs.laws.Ordered.{equal_feed, number_cmp_total, number_eq_equiv};
ghost use Rattle.std.specs.Hash as fed;

use crate::comparison::{Looks, compare};
use crate::encode::{encode, encode_spelling};
use crate::fast_reader::read_common;
use crate::general_reader::{is_spelling, read_spelling};
use crate::repr::INumber;
use crate::repr::stored::{LongNumber, MAX_DIGITS, Stored};
use std::alloc::{AllocError, Global};
use std::cmp::Ordering;
use std::hash::{Hash, Hasher};
use thiserror::Error;

/// The error of parsing a number.
#[derive(Clone, Copy, PartialEq, Eq, Debug, Drop, Error)]
pub enum ParseNumberError {
    /// The input is not a JSON number, or its canonical exponent is out of range.
    #[error("not a JSON number, or its exponent is out of range")]
    Invalid,
    /// The input is a number, but the allocation for its digits failed.
    #[error("out of memory")]
    Memory,
}

/// Converts an allocation error to `Memory`.
impl From<AllocError> for ParseNumberError {
    ghost use Rattle.ijson_number.specs.declared.number.ParseNumberError.TheVariants.{Memory};

    ghost from_gives = { λ _ error. error ≡ Memory };

    fn from(_refused: AllocError) -> ParseNumberError {
        ParseNumberError::Memory
    }
}

/// The error of reading a number at the start of an input.
#[derive(Clone, Copy, PartialEq, Eq, Debug, Drop, Error)]
pub enum ReadNumberError {
    /// The longest prefix of the input that can begin a number is not a number.
    ///
    /// `at` is the offset of the first byte that cannot continue a number, or the length of the
    /// input if it ends too early.
    #[error("not a JSON number at byte {at}")]
    Syntax { at: usize },
    /// The canonical exponent of the leading number is out of range.
    #[error("exponent out of range")]
    OutOfRange,
    /// The input begins with a number, but the allocation for its digits failed.
    #[error("out of memory")]
    Memory,
}

/// Converts an allocation error to `Memory`.
impl From<AllocError> for ReadNumberError {
    ghost use Rattle.ijson_number.specs.declared.number.ReadNumberError.TheVariants.{Memory};

    ghost from_gives = { λ _ error. error ≡ Memory };

    fn from(_refused: AllocError) -> ReadNumberError {
        ReadNumberError::Memory
    }
}

impl INumber {
    ghost use Rattle.std.specs.Prelude.{List, ℕ, drop, take};
    ghost use Rattle.ijson_number.specs.NumberFront.{HasNoPoint, IsNumberFront, IsUnread};
    ghost use Rattle.ijson_number.specs.Refused.{IsRefused};

    /// Reads the leading number with the general reader.
    ///
    /// Not inlined, because few numbers need it.
    #[inline(never)]
    fn read_any(alloc: Global, text: &[u8]) -> Result<(INumber, usize), ReadNumberError>
        ensures front { IfOk result (λ f. IsNumberFront text.now f.1) }
        ensures spelled { IfOk result (λ f. Spells (take f.1 text.now) f.0.decimal) }
        ensures point { IfOk result (λ f. HasNoPoint f.0.decimal.point (drop f.1 text.now)) }
        ensures err { IfErr result (λ e. IsUnread text.now e) }
    {
        let (spelling, rest) = match read_spelling(text) {
            Ok(read) => read,
            Err(rest) => {
                return Err(ReadNumberError::Syntax {
                    at: text.len() - rest.len(),
                });
            }
        };
        let Some(canonical) = spelling.canonical() else {
            return Err(ReadNumberError::OutOfRange);
        };
        let stored = encode_spelling(alloc, &canonical)?;
        Ok((INumber { stored }, text.len() - rest.len()))
    }

    /// Calls `read_any`.
    ///
    /// Inlined, so that the return slot of the call is zeroed only for numbers that need the call.
    #[inline(always)]
    fn read_other(alloc: Global, text: &[u8]) -> Result<(INumber, usize), ReadNumberError>
        ensures front { IfOk result (λ f. IsNumberFront text.now f.1) }
        ensures spelled { IfOk result (λ f. Spells (take f.1 text.now) f.0.decimal) }
        ensures point { IfOk result (λ f. HasNoPoint f.0.decimal.point (drop f.1 text.now)) }
        ensures err { IfErr result (λ e. IsUnread text.now e) }
    {
        let (number, length) = INumber::read_any(alloc, text)?;
        Ok((number, length))
    }

    /// Reads the number at the start of `text`, and returns it and its length in bytes.
    ///
    /// The longest prefix that can begin a number is read: `1.5.5` is read as 1.5 and `01` as 0,
    /// but `1.x` fails.
    ///
    /// # Errors
    ///
    /// Returns `Syntax` if the longest prefix that can begin a number is not a number. Its `at` is
    /// the length of the prefix: 2 for `1.x`, 1 for `-`, 0 for an empty input. Returns `OutOfRange`
    /// if the canonical exponent is out of range, and `Memory` if an allocation fails.
    ///
    /// # Cost
    ///
    /// Linear in the length of the number, whatever its exponent. Allocates only if the number is
    /// stored as a list of digits.
    #[inline(always)]
    pub fn read_front(alloc: Global, text: &str) -> Result<(INumber, usize), ReadNumberError>
        // The bytes read can begin a number, and with the next byte they cannot.
        ensures front { IfOk result (λ f. IsNumberFront text.now f.1) }
        // The bytes read spell the number.
        ensures spelled { IfOk result (λ f. Spells (take f.1 text.now) f.0.decimal) }
        // No point follows a number that was written without a point and an exponent.
        ensures point { IfOk result (λ f. HasNoPoint f.0.decimal.point (drop f.1 text.now)) }
        // If reading fails, the error states the reason.
        ensures err { IfErr result (λ e. IsUnread text.now e) }
    {
        let bytes = text.as_bytes();
        // Most numbers are read in one pass, without the general reader.
        let Some(front) = read_common(bytes) else {
            return INumber::read_other(alloc, bytes);
        };
        let stored = encode(alloc, front.significand)?;
        Ok((INumber { stored }, front.length))
    }

    /// Parses all of `text` as a number. White space before or after the number is rejected.
    ///
    /// `1.50` and `15e-1` are equal numbers.
    ///
    /// # Errors
    ///
    /// Returns `Invalid` if `text` is not a JSON number, or its canonical exponent is out of range.
    /// Examples are `01`, `+1`, `.5`, `1.`, ` 1` and `1e2000000000`. Returns `Memory` if an
    /// allocation fails.
    ///
    /// # Cost
    ///
    /// Linear in the length of `text`, whatever the exponent. Allocates only if the leading number
    /// is stored as a list of digits.
    pub fn from_str(alloc: Global, text: &str) -> Result<INumber, ParseNumberError>
        ensures ok { IfOk result (λ n. Spells text.now n.decimal) }
        ensures err { IfErr result (λ e. IsRefused text.now e) }
    {
        match INumber::read_front(alloc, text) {
            Ok((number, length)) => {
                if length == text.len() {
                    return Ok(number);
                }
                drop(number);
                Err(ParseNumberError::Invalid)
            }
            Err(error) => {
                if !is_spelling(text.as_bytes()) {
                    return Err(ParseNumberError::Invalid);
                }
                match error {
                    ReadNumberError::Memory => Err(ParseNumberError::Memory),
                    ReadNumberError::OutOfRange => Err(ParseNumberError::Invalid),
                    ReadNumberError::Syntax { at: _ } => Err(ParseNumberError::Invalid),
                }
            }
        }
    }

    /// Returns `true` if the number was written with a decimal point or an exponent.
    ///
    /// For example, returns `true` for `2.0` and `2e0`, and `false` for `2`.
    pub fn has_decimal_point(&self) -> bool
        ensures { result ≡ self.now.decimal.point }
    {
        match &self.stored {
            Stored::Packed(word) => word.point(),
            Stored::I64(_) => false,
            Stored::U64(_) => false,
            Stored::Short(number) => number.point,
            Stored::Long(number) => number.point,
        }
    }
}

/// The representation of a number.
///
/// `point` is `true` if the number was written with a decimal point or an exponent.
#[derive(Clone, Copy, PartialEq, Eq, Debug)]
pub enum Form<'a> {
    /// `mantissa * 10 ^ exponent`. The exponent is from -7 to 7, and the mantissa from `-(2 ^ 55)`
    /// to `2 ^ 55 - 1`.
    Packed {
        mantissa: i64,
        exponent: i8,
        point: bool,
    },
    /// An integer without a decimal point that does not fit a packed mantissa.
    I64(i64),
    /// An integer without a decimal point that is too large for an `i64`.
    U64(u64),
    /// Any other number: `digits * 10 ^ exponent`, negated if `negative`.
    ///
    /// Each digit is from 0 to 9, the most significant first, without leading and trailing zeros.
    /// The exponent is from `-(2 ^ 30)` to `2 ^ 30`.
    Digits {
        negative: bool,
        digits: &'a [u8],
        exponent: i32,
        point: bool,
    },
}

impl INumber {
    ghost use Rattle.ijson_number.specs.FormValue.{form_value};

    /// Returns the representation, without the further postconditions of `form`.
    fn form_of_stored(&self) -> Form<'_>
        ensures { form_value result ≡ form_of self.now.decimal }
    {
        match &self.stored {
            Stored::Packed(word) => Form::Packed {
                mantissa: word.mantissa(),
                exponent: word.exponent(),
                point: word.point(),
            },
            Stored::I64(value) => Form::I64(*value),
            Stored::U64(value) => Form::U64(*value),
            Stored::Short(number) => Form::Digits {
                negative: number.negative,
                digits: number.digits.as_slice(),
                exponent: i32::from(number.exponent),
                point: number.point,
            },
            Stored::Long(number) => Form::Digits {
                negative: number.negative,
                digits: number.digits.as_slice(),
                exponent: number.exponent,
                point: number.point,
            },
        }
    }

    /// Returns the representation. Digits are borrowed. Does not allocate.
    ///
    /// Numbers with the same value and the same `has_decimal_point` have the same representation
    /// and the same text. Numbers that differ in either have different texts.
    ///
    /// For example, `1.50` is `Packed` with the mantissa 15 and the exponent -1,
    /// `9223372036854775807` is `I64`, and `1e-9` is a list of one digit.
    pub fn form(&self) -> Form<'_>
        ensures form { form_value result ≡ form_of self.now.decimal }
        ensures alike { (other : Num)
            → IsAlike self.now.decimal other.decimal
            → form_value result ≡ form_of other.decimal }
        ensures text { (other : Num)
            → (num_text self.now.decimal ≡ num_text other.decimal)
            ↔ IsAlike self.now.decimal other.decimal }
    {
        self.form_of_stored()
    }
}

impl Clone for LongNumber {
    ghost use Rattle.ijson_number.specs.private.Stored.{long_form};

    ghost is_clone = { λ n copy. long_form copy ≡ long_form n };

    fn clone(&self) -> Result<LongNumber, AllocError> {
        let digits = self.digits.clone()?;
        Ok(LongNumber {
            exponent: self.exponent,
            negative: self.negative,
            point: self.point,
            digits,
        })
    }
}

impl Clone for Stored {
    ghost use Rattle.ijson_number.specs.private.Stored.{IsCopy, stored_form};

    ghost is_clone = { IsCopy };

    ghost is_infallible = { λ s. is_digits (stored_form s) ≡ false };

    #[inline(always)]
    fn clone(&self) -> Result<Stored, AllocError> {
        match self {
            Stored::Packed(word) => Ok(Stored::Packed(*word)),
            Stored::I64(value) => Ok(Stored::I64(*value)),
            Stored::U64(value) => Ok(Stored::U64(*value)),
            Stored::Short(number) => {
                let number = number.clone()?;
                Ok(Stored::Short(number))
            }
            Stored::Long(number) => {
                let number = number.clone()?;
                Ok(Stored::Long(number))
            }
        }
    }
}

/// Copies the value, and whether the number was written with a decimal point.
impl Clone for INumber {
    ghost is_clone = { λ n copy. copy ≡ n };

    ghost is_infallible = { λ n. is_digits (form_of n.decimal) ≡ false };

    /// Allocates, and takes time linear in the number of digits, only if the number is stored as a
    /// list of digits.
    #[inline(always)]
    fn clone(&self) -> Result<INumber, AllocError> {
        let stored = self.stored.clone()?;
        Ok(INumber { stored })
    }
}

/// The bias added to an exponent, so that the sum is not negative.
const EXPONENT_BIAS: i64 = 1 << 31;

/// Feeds the same words for equal numbers, each by one call of `write_u64`.
///
/// Zero feeds 2 and 0. Any other number feeds 2, the sign (1 if positive, 2 if negative), the
/// canonical exponent plus `2 ^ 31`, the number of canonical digits, and each canonical digit.
///
/// # Cost
///
/// Linear in the number of canonical digits. Does not allocate.
impl Hash for INumber {
    ghost hash_input = { λ n. flat_map fed.u64 (number_words n.decimal) };

    ghost respects_eq = { λ a b e. equal_feed a b e };

    fn hash<H: Hasher>(&self, state: &mut H) {
        let mut buffer = [0; MAX_DIGITS];
        let number = self.stripped(&mut buffer);
        let digits = number.digits;
        state.write_u64(2);
        if digits.is_empty() {
            state.write_u64(0);
            return;
        }
        state.write_u64(1 + u64::from(number.negative));
        state.write_u64((i64::from(number.exponent) + EXPONENT_BIAS) as u64);
        state.write_u64(digits.len() as u64);
        for digit in digits {
            state.write_u64(u64::from(*digit));
        }
    }
}

/// Two numbers are equal if their values are equal: `2` equals `2.0`.
///
/// Does not allocate, and reads each digit of both numbers at most once.
impl PartialEq for INumber {
    ghost eq = { λ a b. number_eq a.decimal b.decimal };

    ghost laws = { partial_equiv_from_equiv (on_equiv (λ n. n.decimal) number_eq_equiv) };

    fn eq(&self, other: &INumber) -> bool {
        if let Some(is_same) = self.stored.eq_by_bits(&other.stored) {
            return is_same;
        }
        let mut buffer = [0; MAX_DIGITS];
        let mut other_buffer = [0; MAX_DIGITS];
        let a = self.stripped(&mut buffer);
        let b = other.stripped(&mut other_buffer);
        if a.negative != b.negative || a.exponent != b.exponent {
            return false;
        }
        a.digits == b.digits
    }
}

impl Eq for INumber {
    ghost laws = { on_equiv (λ n. n.decimal) number_eq_equiv };
}

/// Returns the result of `cmp`: the order is total.
impl PartialOrd for INumber {
    ghost partial_cmp = { λ a b. Some (number_cmp a.decimal b.decimal) };

    ghost laws = { po (on_total (λ n. n.decimal) number_cmp_total) (λ a b. refl) };

    fn partial_cmp(&self, other: &INumber) -> Option<Ordering> {
        Some(self.cmp(other))
    }
}

/// Orders numbers by value: `2` and `2.0` are equal.
///
/// # Cost
///
/// Reads digits only if both numbers have the same sign and the same position of the decimal point
/// relative to the first digit. Reads at most `2 * n` digits, where `n` is the smaller number of
/// digits. Does not allocate, and does not expand exponents to zeros.
impl Ord for INumber {
    ghost cmp = { λ a b. number_cmp a.decimal b.decimal };

    ghost total = { on_total (λ n. n.decimal) number_cmp_total };

    ghost matches_partial_cmp = { λ a b. refl };

    ghost matches_eq = { λ a b. refl };

    fn cmp(&self, other: &INumber) -> Ordering {
        let mut buffer = [0; MAX_DIGITS];
        let mut other_buffer = [0; MAX_DIGITS];
        let a = self.stripped(&mut buffer);
        let b = other.stripped(&mut other_buffer);
        compare(&a, &b, &mut Looks::new())
    }
}

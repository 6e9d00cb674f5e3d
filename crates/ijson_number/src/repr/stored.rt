//! Stored numbers: a word, digits in a block, or digits in a list, and the canonical digits of
//! each.
ghost use Rattle.std.specs.Prelude.{◌≡◌, ◌%◌, ◌^◌, ◌<◌, ◌≤◌, ◌≤ℤ◌, nat_abs, true, false, pos, negsuc, IsTrue, ◌+◌, ◌-◌, ◌++◌, drop, length, OnOk};
ghost use Rattle.std.specs.Prelude.{neg_ℤ, ◌+ℤ◌, ◌<ℤ◌, FitsSigned, IsFalse, IsNone, IfSome, ◌≢◌, ◌/◌};
ghost use Rattle.std.proofs.Props.{props};
ghost use Rattle.std.specs.Int.Digits.{digits_of};
ghost use Rattle.std.specs.List.{All};
ghost use mir.Syntax.{w128, w16};
ghost use Rattle.ijson_number.specs.Form.{fits_packed};
ghost use Rattle.ijson_number.specs.Grammar.{AllDigits};
ghost use Rattle.ijson_number.specs.Num.{IsNum};
ghost use Rattle.ijson_number.specs.StoredNumber.{stored_number};
ghost use Rattle.ijson_number.specs.Stripped.{stripped_number};
ghost use Rattle.ijson_number.specs.Strips.{signed};
ghost use Rattle.ijson_number.specs.Text.{digits_text};
ghost use Rattle.ijson_number.specs.laws.Codes.{IsNum-prop};
ghost use Rattle.ijson_number.specs.private.StoredNumber.{IsStored, buffer_digits};
ghost use Rattle.ijson_number.specs.private.Stripped.{digits_from_text};
ghost use Rattle.ijson_number.specs.private.Word.{word_code, word_exponent, word_mantissa, word_point};

use crate::lanes::{LANES, LANES_END, lanes_of, zeros_in_front};
use crate::significand::Significand;
use itoa::write_digits;
use std::alloc::AllocError;
use std::simd::prelude::*;

/// A packed number in one word.
///
/// | Bits | Content |
/// |---|---|
/// | 8 to 63 | the mantissa in two's complement |
/// | 4 to 7 | the exponent plus 7, or 15 for a number without a decimal point |
/// | 0 to 3 | the value 8 |
#[derive(Clone, Copy)]
pub struct Word {
    pub bits: u64,
}

/// The value of bits 4 to 7 for a number without a decimal point.
const NO_POINT: u64 = 15;

/// One past the maximum mantissa of a packed number.
pub const PACKED_END: i64 = 1 << 55;

/// Returns `true` if the mantissa fits a packed number.
pub fn is_packed_mantissa(mantissa: i128) -> bool
    ensures { result ≡ fits_packed mantissa }
{
    i128::from(-PACKED_END) <= mantissa && mantissa < i128::from(PACKED_END)
}

impl Word {
    ghost use Rattle.ijson_number.specs.private.Stored.{IsOtherWord};
    ghost use Rattle.ijson_number.specs.declared.repr.stored.Stored.TheVariants.{Packed};

    /// Creates a word from a mantissa and the value of bits 4 to 7.
    fn from_code(mantissa: i64, code: u64) -> Word
        requires mantissa { IsTrue (fits_packed mantissa) }
        requires code { code < 16 }
        ensures mantissa { word_mantissa result.bits ≡ mantissa }
        ensures code { word_code result.bits ≡ code }
        ensures tag { result.bits % 16 ≡ 8 }
    {
        let above = if mantissa < 0 {
            (mantissa + (1 << 56)) as u64
        } else {
            mantissa as u64
        };
        Word {
            bits: above * 256 + code * 16 + 8,
        }
    }

    /// Creates the word of an integer without a decimal point.
    pub fn integer(mantissa: i64) -> Word
        requires { IsTrue (fits_packed mantissa) }
        ensures mantissa { word_mantissa result.bits ≡ mantissa }
        ensures exponent { word_exponent result.bits ≡ pos 0 }
        ensures point { word_point result.bits ≡ false }
        ensures tag { result.bits % 16 ≡ 8 }
    {
        Word::from_code(mantissa, NO_POINT)
    }

    /// Creates the word of a number with a decimal point.
    pub fn pointed(mantissa: i64, exponent: i8) -> Word
        requires mantissa { IsTrue (fits_packed mantissa) }
        requires low { negsuc 6 ≤ℤ exponent }
        requires high { exponent ≤ℤ pos 7 }
        ensures mantissa { word_mantissa result.bits ≡ mantissa }
        ensures exponent { word_exponent result.bits ≡ exponent }
        ensures point { word_point result.bits ≡ true }
        ensures tag { result.bits % 16 ≡ 8 }
    {
        Word::from_code(mantissa, (exponent + 7) as u64)
    }

    /// Returns the mantissa.
    pub fn mantissa(self) -> i64
        ensures value { result ≡ word_mantissa self.bits }
        ensures small { nat_abs result ≤ 2 ^ 55 }
    {
        self.bits.cast_signed() >> 8
    }

    /// Returns the value of bits 4 to 7.
    fn code(self) -> u64
        ensures { result ≡ word_code self.bits }
    {
        self.bits / 16 % 16
    }

    /// Returns the exponent.
    pub fn exponent(self) -> i8
        ensures { result ≡ word_exponent self.bits }
    {
        let code = self.code();
        if code == NO_POINT { 0 } else { code as i8 - 7 }
    }

    /// Returns `true` if the number has a decimal point.
    pub fn point(self) -> bool
        ensures { result ≡ word_point self.bits }
    {
        self.code() != NO_POINT
    }

    /// Returns `Some(true)` if the words have the same number and decimal point, `Some(false)` if
    /// they agree only on the decimal point, and `None` if they do not agree on it.
    fn eq_by_bits(self, other: Word) -> Option<bool>
        ensures same { IfSome result (λ is_same. IsTrue is_same → self.bits / 16 ≡ other.bits / 16) }
        ensures different { IfSome result (λ is_same. IsFalse is_same → IsOtherWord (Packed self) (Packed other)) }
        ensures points { IsNone result → word_point self.bits ≢ word_point other.bits }
    {
        if self.bits / 16 == other.bits / 16 {
            return Some(true);
        }
        if self.point() == other.point() {
            Some(false)
        } else {
            None
        }
    }
}

/// The maximum number of decimal digits for which every integer fits a `u64`.
pub const WORD_DIGITS: usize = 19;

/// One past the largest integer of `WORD_DIGITS` digits.
pub const DIGITS_END: u64 = 10_000_000_000_000_000_000;

/// The maximum number of decimal digits of a `u64`.
pub const MAX_DIGITS: usize = 20;

/// Writes the values of the ASCII digits in `text` to `buffer`. Bytes below `'0'` become 0.
#[inline(always)]
pub fn make_digits(text: &[u8], buffer: &mut [u8])
    requires { length buffer.old ≡ length text.now }
    ensures { buffer.new ≡ digits_from_text text.now }
{
    for at in 0..buffer.len() {
        buffer[at] = text[at].saturating_sub(b'0');
    }
}

/// Up to 19 digits, stored at the end of a buffer after zeros.
#[derive(Clone, Copy, Drop)]
pub struct ShortDigits {
    count: u8,
    buffer: [u8; WORD_DIGITS],
    ghost few: { count ≤ 19 },
}

impl ShortDigits {
    ghost use Rattle.ijson_number.specs.private.ShortDigits.{short_digits};

    /// Returns the digits of a nonzero number.
    ///
    /// Each branch has its own buffer. A shared buffer would be written to memory in parts and read
    /// back, which stalls the processor.
    #[inline(always)]
    pub fn of_number(number: u64) -> ShortDigits
        requires some { 0 < number }
        requires few { number < 10 ^ 19 }
        ensures { short_digits result ≡ digits_of 10 number }
    {
        if number < LANES_END {
            return ShortDigits::of_row(number);
        }
        ShortDigits::of_wide(number)
    }

    /// Returns the digits of a nonzero number of at most 16 digits.
    #[inline(always)]
    fn of_row(number: u64) -> ShortDigits
        requires some { 0 < number }
        requires row { number < 10 ^ 16 }
        ensures { short_digits result ≡ digits_of 10 number }
    {
        let lanes = lanes_of(number);
        let mut buffer = [0; WORD_DIGITS];
        buffer[WORD_DIGITS - LANES..].copy_from_slice(&(lanes - u8x16::splat(b'0')).to_array());
        ShortDigits {
            count: (LANES - zeros_in_front(lanes)) as u8,
            buffer,
        }
    }

    /// Returns the digits of a number of 17 to 19 digits.
    #[inline(always)]
    fn of_wide(number: u64) -> ShortDigits
        requires wide { 10 ^ 16 ≤ number }
        requires few { number < 10 ^ 19 }
        ensures { short_digits result ≡ digits_of 10 number }
    {
        let front = number / LANES_END;
        let digits = lanes_of(number % LANES_END) - u8x16::splat(b'0');
        let mut buffer = [0; WORD_DIGITS];
        buffer[0] = (front / 100) as u8;
        buffer[1] = (front / 10 % 10) as u8;
        buffer[2] = (front % 10) as u8;
        buffer[WORD_DIGITS - LANES..].copy_from_slice(&digits.to_array());
        ShortDigits {
            count: LANES as u8 + 1 + u8::from(front >= 10) + u8::from(front >= 100),
            buffer,
        }
    }

    /// Returns the last 16 digits in ASCII.
    ///
    /// If there are at most 16 digits, the vector ends with all of them, after zeros.
    #[inline(always)]
    pub fn lanes(&self) -> u8x16
        ensures all { length result ≡ 16 }
        ensures lanes { All (λ d. d < 10) (short_digits self.now) → length (short_digits self.now) ≤ 16
            → drop (16 - length (short_digits self.now)) result ≡ digits_text (short_digits self.now) }
    {
        u8x16::from_slice(&self.buffer[WORD_DIGITS - LANES..]) + u8x16::splat(b'0')
    }

    /// Returns the digits.
    pub fn as_slice(&self) -> &[u8]
        ensures digits { result.now ≡ short_digits self.now }
        ensures few { length result.now ≤ 19 }
    {
        &self.buffer[WORD_DIGITS - self.count as usize..]
    }
}

/// Appends the values of ASCII digits to `digits`.
pub fn push_values(digits: &mut Vec<u8>, text: &[u8]) -> Result<(), AllocError>
    requires { AllDigits text.now }
    ensures { OnOk result (digits.new.items ≡ digits.old.items ++ digits_from_text text.now) }
{
    for byte in text {
        digits.push(*byte - b'0')?;
    }
    Ok(())
}

/// Returns the position of the decimal point relative to the first digit.
pub fn place_of(digits: &[u8], exponent: i32) -> i128
    ensures value { result ≡ pos (length digits.now) +ℤ exponent }
    ensures low { neg_ℤ (pos (2 ^ 70)) <ℤ result }
    ensures high { result <ℤ pos (2 ^ 70) }
    ensures fits { FitsSigned w128 result }
{
    digits.len() as i128 + exponent as i128
}

/// A number of at most 19 canonical digits whose exponent fits 16 bits.
#[derive(Clone, Copy, Drop)]
pub struct ShortNumber {
    pub exponent: i16,
    pub negative: bool,
    pub point: bool,
    pub digits: ShortDigits,
    ghost stripped: { IsStored negative (buffer_digits digits.count digits.buffer) } by { Prim.hlevel props },
}

const _: () = prove!(size_of::<ShortNumber>() == 24);

/// A number with more than 19 canonical digits, or an exponent that does not fit 16 bits.
#[derive(Drop)]
pub struct LongNumber {
    pub exponent: i32,
    pub negative: bool,
    pub point: bool,
    pub digits: Vec<u8>,
    ghost stripped: { IsStored negative digits.items } by { Prim.hlevel props },
    ghost many: { FitsSigned w16 exponent → 19 < length digits.items } by { Prim.hlevel props },
}

/// The representation of a number. Words are stored inline, next to the tag.
#[derive(Drop)]
pub enum Stored {
    Packed(Word),
    I64(i64),
    U64(u64),
    Short(Box<ShortNumber>),
    Long(Box<LongNumber>),
}

impl Stored {
    ghost use Rattle.ijson_number.specs.private.Stored.{IsList, IsOtherWord, stored_form};

    /// Compares two numbers by their words, without reading digits.
    ///
    /// Returns `Some(true)` if both have the same variant and the same word, and `Some(false)` if
    /// they have the same variant and decimal point, but different words. Otherwise returns `None`,
    /// and the caller has to compare the digits. The tag bits of a packed word are ignored.
    pub fn eq_by_bits(&self, other: &Stored) -> Option<bool>
        ensures same { IfSome result (λ is_same. IsTrue is_same → stored_form self.now ≡ stored_form other.now) }
        ensures different { IfSome result (λ is_same. IsFalse is_same → IsOtherWord self.now other.now) }
        ensures digits { IsNone result → stored_form self.now ≡ stored_form other.now → IsList self.now }
    {
        match (self, other) {
            (Stored::Packed(word), Stored::Packed(other_word)) => word.eq_by_bits(*other_word),
            (Stored::I64(value), Stored::I64(other_value)) => Some(value == other_value),
            (Stored::U64(value), Stored::U64(other_value)) => Some(value == other_value),
            _ => None,
        }
    }
}

/// The sign, the canonical digits and the exponent of a number, and whether it has a decimal point.
///
/// The digits are borrowed from the number or from a buffer.
#[derive(Clone, Copy)]
pub struct StrippedNumber<'a> {
    pub negative: bool,
    pub digits: &'a [u8],
    pub exponent: i32,
    pub point: bool,
    ghost num: { IsNum (stored_number negative digits.now exponent point) } by { IsNum-prop (stored_number negative digits.now exponent point) },
    ghost stripped: { IsStored negative digits.now } by { Prim.hlevel props },
}

impl<'a> StrippedNumber<'a> {
    ghost use Rattle.ijson_number.specs.private.StrippedNumber.{decimal_of};

    /// Returns `magnitude * 10 ^ exponent`, negated if `negative`, with canonical digits.
    ///
    /// Writes the digits in ASCII, four at a time, and then their values to `buffer`.
    pub fn from_magnitude(
        negative: bool,
        magnitude: u64,
        exponent: i8,
        point: bool,
        buffer: &'a mut [u8; MAX_DIGITS],
    ) -> StrippedNumber<'a>
        requires { IsNum (stripped_number (signed negative magnitude) exponent point) }
        ensures { decimal_of result ≡ stripped_number (signed negative magnitude) exponent point }
    {
        if magnitude == 0 {
            return StrippedNumber {
                negative: false,
                digits: &[],
                exponent: 0,
                point,
            };
        }
        let canonical = Significand {
            negative,
            magnitude,
            exponent: i32::from(exponent),
            point,
        }
        .canonical();
        let mut text = [0; MAX_DIGITS];
        let start = write_digits(canonical.magnitude, &mut text, MAX_DIGITS);
        make_digits(&text, buffer);
        StrippedNumber {
            negative: canonical.negative,
            digits: &buffer[start..],
            exponent: canonical.exponent,
            point: canonical.point,
        }
    }

    /// Like `from_magnitude`, for a signed mantissa.
    pub fn from_signed(
        mantissa: i64,
        exponent: i8,
        point: bool,
        buffer: &'a mut [u8; MAX_DIGITS],
    ) -> StrippedNumber<'a>
        requires { IsNum (stripped_number mantissa exponent point) }
        ensures { decimal_of result ≡ stripped_number mantissa exponent point }
    {
        let magnitude = mantissa.unsigned_abs();
        StrippedNumber::from_magnitude(mantissa < 0, magnitude, exponent, point, buffer)
    }
}

impl ShortNumber {
    ghost use Rattle.ijson_number.specs.private.ShortDigits.{short_digits};
    ghost use Rattle.ijson_number.specs.private.StrippedNumber.{decimal_of};

    /// Returns the number with its canonical digits.
    pub fn stripped(&self) -> StrippedNumber<'_>
        requires { IsNum
            (stored_number self.now.negative (short_digits self.now.digits) self.now.exponent self.now.point) }
        ensures number { decimal_of result
            ≡ stored_number self.now.negative (short_digits self.now.digits) self.now.exponent self.now.point }
        ensures digits { result.digits.now ≡ short_digits self.now.digits }
        ensures few { length result.digits.now ≤ 19 }
    {
        StrippedNumber {
            negative: self.negative,
            digits: self.digits.as_slice(),
            exponent: i32::from(self.exponent),
            point: self.point,
        }
    }
}

impl LongNumber {
    ghost use Rattle.ijson_number.specs.private.StrippedNumber.{decimal_of};

    /// Returns the number with its canonical digits.
    pub fn stripped(&self) -> StrippedNumber<'_>
        requires { IsNum
            (stored_number self.now.negative self.now.digits.items self.now.exponent self.now.point) }
        ensures { decimal_of result
            ≡ stored_number self.now.negative self.now.digits.items self.now.exponent self.now.point }
    {
        StrippedNumber {
            negative: self.negative,
            digits: self.digits.as_slice(),
            exponent: self.exponent,
            point: self.point,
        }
    }
}

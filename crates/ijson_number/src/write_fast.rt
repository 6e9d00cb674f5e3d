//! Appends the text of a number, and its canonical digits.
//!
//! `push_fast` appends most numbers as vectors of 16 digits, without a formatter. `write_display`
//! writes the others:
//!
//! - integers without a decimal point that do not fit a word,
//! - numbers stored as a `LongNumber`,
//! - numbers whose text has zeros between the digits and the point, or an exponent after a single
//!   digit.
ghost use Rattle.std.specs.Prelude.{◌≡◌, ◌+◌, ◌-◌, ◌/◌, ◌%◌, ◌^◌, ◌<◌, ◌≤◌, ◌∷◌, ◌++◌, ℤ, drop, length, nat_abs, neg_ℤ, pos, true, negsuc, int_le};
ghost use Rattle.std.specs.Prelude.{int_lt, ◌||◌, ◌+ℤ◌, ◌≤ℤ◌, ◌⊎◌, IsSome, OnErr, OnOk, IfOk};
ghost use Rattle.std.specs.String.{string_bytes};
ghost use Rattle.ijson_number.specs.AppendsBeginning.{AppendsBeginning};
ghost use Rattle.ijson_number.specs.Form.{form_of, packed};
ghost use Rattle.ijson_number.specs.Stripped.{stripped_number};
ghost use Rattle.ijson_number.specs.StrippedDigits.{stripped_digits};
ghost use Rattle.ijson_number.specs.Text.{digits_text, minus_text, num_text, zeros_text};
ghost use Rattle.ijson_number.specs.private.Pushed.{Appends, Pushed};
ghost use Rattle.ijson_number.specs.private.RowText.{IsBelowOne, IsInRows, IsRowText, IsScientific};
ghost use Rattle.ijson_number.specs.private.SplitText.{split_text};
ghost use Rattle.ijson_number.specs.private.StrippedNumber.{decimal_of};
ghost use Rattle.ijson_number.specs.private.WordText.{integer_text, pointed_text};

use crate::lanes::{
    LANES, LANES_END, SHORT_END, lanes_of, push_lanes, push_leading_zeros, push_rows, push_short,
    zeros_in_front,
};
use crate::repr::INumber;
use crate::repr::stored::{MAX_DIGITS, Stored, StrippedNumber, place_of};
use crate::significand::Significand;
use crate::write_display::{is_scientific, run_text};
use std::alloc::AllocError;
use std::simd::prelude::*;

/// The maximum number of bytes in a text with a decimal point that are not digits of the number.
///
/// These are a minus sign, 20 zeros and `.0`.
const BESIDE_DIGITS: usize = 23;

/// Appends `magnitude / 10 ^ scale` with a sign and `scale` fraction digits.
///
/// Not inlined, because in a longer function the compiler does not inline appends of a few bytes.
#[inline(never)]
fn push_decimal(
    negative: bool,
    magnitude: u64,
    scale: usize,
    out: &mut String,
) -> Result<(), AllocError>
    requires few { scale < 16 }
    ensures { Appends result (string_bytes out.old) (string_bytes out.new)
        (pointed_text negative (magnitude / 10 ^ scale) scale (magnitude % 10 ^ scale)) }
{
    if magnitude < LANES_END {
        let (lanes, end) = (lanes_of(magnitude), LANES - scale);
        let start = zeros_in_front(lanes).min(end - 1);
        return push_rows(negative, lanes, start, end - start, lanes, scale, out);
    }
    push_short(negative, magnitude / SHORT_END, out)?;
    let lanes = lanes_of(magnitude % SHORT_END);
    push_rows(false, lanes, 1, LANES - 1 - scale, lanes, scale, out)
}

/// Appends the minus sign if `negative`.
#[inline(always)]
fn push_minus(negative: bool, out: &mut String) -> Result<(), AllocError>
    ensures written { OnOk result (string_bytes out.new ≡ string_bytes out.old ++ minus_text negative) }
    ensures refused { OnErr result (string_bytes out.new ≡ string_bytes out.old) }
{
    if negative {
        out.push('-')?;
    }
    Ok(())
}

/// Appends an integer.
///
/// Not inlined, for the same reason as `push_decimal`.
#[inline(never)]
pub fn push_integer(negative: bool, magnitude: u64, out: &mut String) -> Result<(), AllocError>
    ensures { Appends result (string_bytes out.old) (string_bytes out.new) (integer_text negative magnitude) }
{
    if magnitude < SHORT_END {
        return push_short(negative, magnitude, out);
    }
    if magnitude < LANES_END {
        push_minus(negative, out)?;
        return push_lanes(lanes_of(magnitude), 0, LANES, out);
    }
    push_short(negative, magnitude / SHORT_END, out)?;
    push_lanes(lanes_of(magnitude % SHORT_END), 1, LANES - 1, out)
}

/// Appends a packed number with a decimal point.
///
/// Returns `None`, with nothing appended, if the text has an exponent, or zeros between the digits
/// and the point.
#[inline(always)]
fn push_pointed(mantissa: i64, exponent: i8, out: &mut String) -> Option<Result<(), AllocError>>
    requires form { form_of (stripped_number mantissa exponent true) ≡ packed mantissa exponent true }
    requires small { nat_abs mantissa ≤ 2 ^ 55 }
    ensures pushed { Pushed result (string_bytes out.old) (string_bytes out.new)
        (num_text (stripped_number mantissa exponent true)) }
    ensures short { exponent ≤ℤ pos 0 → (neg_ℤ (pos 6) ≤ℤ exponent) ⊎ (10 ≤ nat_abs mantissa)
        → IsSome result }
{
    let (negative, magnitude) = (mantissa < 0, mantissa.unsigned_abs());
    if exponent > 0 || (exponent < -6 && magnitude < 10) {
        return None;
    }
    if exponent == 0 {
        // Writes `5.0` as 50 with one fraction digit.
        return Some(push_decimal(negative, magnitude * 10, 1, out));
    }
    let scale = usize::from(exponent.unsigned_abs());
    Some(push_decimal(negative, magnitude, scale, out))
}

impl StrippedNumber<'_> {
    /// Appends the minus sign, if any, and the digits, with the decimal point after the first
    /// `before` digits.
    ///
    /// Requires that `lanes` ends with the digits in ASCII if there are at most 16.
    #[inline(always)]
    fn push_split(&self, lanes: u8x16, before: usize, out: &mut String) -> Result<(), AllocError>
        requires all { length lanes ≡ 16 }
        requires inside { before ≤ length self.now.digits.now }
        requires few { length self.now.digits.now ≤ 19 }
        requires lanes { length self.now.digits.now ≤ 16
            → drop (16 - length self.now.digits.now) lanes ≡ digits_text self.now.digits.now }
        ensures { Appends result (string_bytes out.old) (string_bytes out.new)
            (split_text self.now.negative self.now.digits.now before) }
    {
        let count = self.digits.len();
        let scale = count - before;
        if count <= LANES {
            return push_rows(
                self.negative,
                lanes,
                LANES - count,
                before,
                lanes,
                scale,
                out,
            );
        }
        if before > LANES || scale > LANES {
            return self.push_long_split(before, out);
        }
        let zero = u8x16::splat(b'0');
        let whole = u8x16::from_slice(self.digits) + zero;
        let last = u8x16::from_slice(&self.digits[count - LANES..]) + zero;
        push_rows(self.negative, whole, 0, before, last, scale, out)
    }

    /// Like `push_split`, but without vectors.
    ///
    /// Not inlined, because few numbers have more than 16 digits before or after the decimal point.
    #[inline(never)]
    fn push_long_split(&self, before: usize, out: &mut String) -> Result<(), AllocError>
        requires inside { before ≤ length self.now.digits.now }
        requires few { length self.now.digits.now ≤ 19 }
        ensures { Appends result (string_bytes out.old) (string_bytes out.new)
            (split_text self.now.negative self.now.digits.now before) }
    {
        let (whole, fraction) = self.digits.split_at(before);
        let mut buffer = [0; MAX_DIGITS];
        push_minus(self.negative, out)?;
        out.push_str(run_text(whole, &mut buffer))?;
        out.push('.')?;
        out.push_str(run_text(fraction, &mut buffer))
    }

    /// Appends the minus sign, if any, `0.`, `zeros` zeros, and the digits.
    ///
    /// Requires that `lanes` ends with the digits in ASCII if there are at most 16.
    #[inline(always)]
    fn push_fraction(&self, lanes: u8x16, zeros: usize, out: &mut String) -> Result<(), AllocError>
        requires all { length lanes ≡ 16 }
        requires lanes { length self.now.digits.now ≤ 16
            → drop (16 - length self.now.digits.now) lanes ≡ digits_text self.now.digits.now }
        requires zeros { zeros ≤ 5 }
        ensures { Appends result (string_bytes out.old) (string_bytes out.new)
            (minus_text self.now.negative ++ (48 ∷ 46 ∷ zeros_text zeros ++ digits_text self.now.digits.now)) }
    {
        push_leading_zeros(self.negative, zeros, out)?;
        self.push_row(lanes, out)?;
        Ok(())
    }

    /// Appends a number of two or more digits in scientific notation.
    ///
    /// Requires that `lanes` ends with the digits in ASCII if there are at most 16.
    #[inline(always)]
    fn push_scientific(&self, lanes: u8x16, place: i128, out: &mut String) -> Result<(), AllocError>
        requires all { length lanes ≡ 16 }
        requires few { length self.now.digits.now ≤ 19 }
        requires some { 1 < length self.now.digits.now }
        requires point { self.now.point ≡ true }
        requires lanes { length self.now.digits.now ≤ 16
            → drop (16 - length self.now.digits.now) lanes ≡ digits_text self.now.digits.now }
        requires place { place ≡ pos (length self.now.digits.now) +ℤ self.now.exponent }
        requires exponent { (int_le place (negsuc 5) || int_lt (pos 20) self.now.exponent) ≡ true }
        ensures { Appends result (string_bytes out.old) (string_bytes out.new) (num_text (decimal_of self.now)) }
    {
        self.push_split(lanes, 1, out)?;
        out.push('e')?;
        let power = place - 1;
        push_integer(power < 0, power.unsigned_abs() as u64, out)
    }

    /// Appends a number that prints as `0.` and digits, or in scientific notation with two or more
    /// digits.
    ///
    /// Returns `None`, with nothing appended, for any other number. Requires that `lanes` ends with
    /// the digits in ASCII if there are at most 16.
    #[inline(never)]
    fn push_unsplit(&self, lanes: u8x16, out: &mut String) -> Option<Result<(), AllocError>>
        requires all { length lanes ≡ 16 }
        requires few { length self.now.digits.now ≤ 19 }
        requires point { self.now.point ≡ true }
        requires lanes { length self.now.digits.now ≤ 16
            → drop (16 - length self.now.digits.now) lanes ≡ digits_text self.now.digits.now }
        ensures pushed { Pushed result (string_bytes out.old) (string_bytes out.new) (num_text (decimal_of self.now)) }
        ensures rows { IsBelowOne (length self.now.digits.now) self.now.exponent
            ⊎ IsScientific (length self.now.digits.now) self.now.exponent → IsSome result }
    {
        let count = self.digits.len();
        let place = place_of(self.digits, self.exponent);
        if is_scientific(place, self.exponent) {
            if count < 2 {
                return None;
            }
            return Some(self.push_scientific(lanes, place, out));
        }
        if place > 0 || count == 0 {
            return None;
        }
        Some(self.push_fraction(lanes, place.unsigned_abs() as usize, out))
    }

    /// Appends a number with a decimal point, or returns `None` with nothing appended.
    ///
    /// Returns `None` only if
    ///
    /// - the number lacks a decimal point,
    /// - an exponent follows a single digit, or
    /// - zeros are between the digits and the decimal point.
    ///
    /// Requires that `lanes` ends with the digits in ASCII if there are at most 16.
    #[inline(never)]
    fn push_digits(&self, lanes: u8x16, out: &mut String) -> Option<Result<(), AllocError>>
        requires all { length lanes ≡ 16 }
        requires few { length self.now.digits.now ≤ 19 }
        requires lanes { length self.now.digits.now ≤ 16
            → drop (16 - length self.now.digits.now) lanes ≡ digits_text self.now.digits.now }
        ensures pushed { Pushed result (string_bytes out.old) (string_bytes out.new) (num_text (decimal_of self.now)) }
        ensures rows { self.now.point ≡ true → IsInRows (length self.now.digits.now) self.now.exponent
            → IsSome result }
    {
        if !self.point {
            return None;
        }
        let scale = self.exponent.unsigned_abs() as usize;
        if self.exponent >= 0 || scale >= self.digits.len() {
            return self.push_unsplit(lanes, out);
        }
        Some(self.push_split(lanes, self.digits.len() - scale, out))
    }
}

impl INumber {
    /// Appends the number without a formatter.
    ///
    /// Returns `None`, with nothing appended, if `push_slow` has to write the number.
    #[inline(always)]
    fn push_fast(&self, out: &mut String) -> Option<Result<(), AllocError>>
        ensures pushed { Pushed result (string_bytes out.old) (string_bytes out.new) (num_text self.now.decimal) }
        ensures rows { IsRowText self.now.decimal → IsSome result }
    {
        let (negative, magnitude) = match &self.stored {
            Stored::Packed(word) => {
                let mantissa = word.mantissa();
                if word.point() {
                    return push_pointed(mantissa, word.exponent(), out);
                }
                (mantissa < 0, mantissa.unsigned_abs())
            }
            Stored::I64(value) => (*value < 0, value.unsigned_abs()),
            Stored::U64(value) => (false, *value),
            Stored::Short(number) => return number
                .stripped()
                .push_digits(number.digits.lanes(), out),
            Stored::Long(_) => return None,
        };
        Some(push_integer(negative, magnitude, out))
    }

    /// Appends the number with a formatter.
    ///
    /// Not inlined, because few numbers need it.
    #[inline(never)]
    fn push_slow(&self, out: &mut String) -> Result<(), AllocError>
        ensures written { OnOk result (string_bytes out.new
            ≡ string_bytes out.old ++ num_text self.now.decimal) }
        ensures refused { OnErr result (string_bytes out.new ≡ string_bytes out.old) }
    {
        let mut buffer = [0; MAX_DIGITS];
        let room = self.stripped(&mut buffer).digits.len() + BESIDE_DIGITS;
        // Formats into a temporary string, because the output of a formatter that fails is
        // unspecified.
        let mut text = String::with_capacity(*out.allocator(), room)?;
        write!(text, "{self}")?;
        out.push_str(text.as_str())
    }

    /// Appends the text that `Display` writes, usually without a formatter.
    ///
    /// May reserve up to 31 bytes more than the text needs.
    ///
    /// # Errors
    ///
    /// Returns `AllocError` if an allocation fails. A prefix of the text may then be at the end of
    /// `out`.
    ///
    /// # Cost
    ///
    /// Linear in the length of the text. A text with zeros before the decimal point, with an
    /// exponent after a single digit, or with more than 19 digits is first written to a temporary
    /// string.
    #[inline(always)]
    pub fn push_to(&self, out: &mut String) -> Result<(), AllocError>
        ensures written { OnOk result (string_bytes out.new
            ≡ string_bytes out.old ++ num_text self.now.decimal) }
        ensures refused { OnErr result
            (AppendsBeginning (string_bytes out.old) (string_bytes out.new) (num_text self.now.decimal)) }
    {
        match self.push_fast(out) {
            Some(appended) => appended,
            None => self.push_slow(out),
        }
    }
}

/// Appends the canonical significand of `magnitude * 10 ^ exponent`, and returns its exponent.
fn push_significand(magnitude: u64, exponent: i8, out: &mut String) -> Result<i32, AllocError>
    ensures written { OnOk result (string_bytes out.new ≡ string_bytes out.old
        ++ digits_text (stripped_digits (stripped_number (pos magnitude) exponent true))) }
    ensures exponent { IfOk result (λ e. e ≡ (stripped_number (pos magnitude) exponent true).exponent) }
    ensures refused { OnErr result (AppendsBeginning (string_bytes out.old) (string_bytes out.new)
        (digits_text (stripped_digits (stripped_number (pos magnitude) exponent true)))) }
{
    if magnitude == 0 {
        return Ok(0);
    }
    let canonical = Significand {
        negative: false,
        magnitude,
        exponent: i32::from(exponent),
        point: true,
    }
    .canonical();
    push_integer(false, canonical.magnitude, out)?;
    Ok(canonical.exponent)
}

impl StrippedNumber<'_> {
    /// Appends the digits, 20 at a time, and returns the exponent.
    fn push_runs(&self, out: &mut String) -> Result<i32, AllocError>
        ensures written { OnOk result (string_bytes out.new
            ≡ string_bytes out.old ++ digits_text self.now.digits.now) }
        ensures exponent { IfOk result (λ e. e ≡ self.now.exponent) }
        ensures refused { OnErr result
            (AppendsBeginning (string_bytes out.old) (string_bytes out.new) (digits_text self.now.digits.now)) }
    {
        let mut buffer = [0; MAX_DIGITS];
        for run in self.digits.chunks(MAX_DIGITS) {
            out.push_str(run_text(run, &mut buffer))?;
        }
        Ok(self.exponent)
    }

    /// Like `push_runs`, but appends up to 16 digits in one call, from the end of `lanes`.
    fn push_row(&self, lanes: u8x16, out: &mut String) -> Result<i32, AllocError>
        requires all { length lanes ≡ 16 }
        requires lanes { length self.now.digits.now ≤ 16
            → drop (16 - length self.now.digits.now) lanes ≡ digits_text self.now.digits.now }
        ensures written { OnOk result (string_bytes out.new
            ≡ string_bytes out.old ++ digits_text self.now.digits.now) }
        ensures exponent { IfOk result (λ e. e ≡ self.now.exponent) }
        ensures refused { OnErr result
            (AppendsBeginning (string_bytes out.old) (string_bytes out.new) (digits_text self.now.digits.now)) }
    {
        let count = self.digits.len();
        if count > LANES {
            return self.push_runs(out);
        }
        push_lanes(lanes, LANES - count, count, out)?;
        Ok(self.exponent)
    }
}

impl INumber {
    /// Appends the digits of the canonical significand, and returns its exponent.
    ///
    /// The sign and the decimal point are not written. For zero, appends nothing and returns 0. For
    /// `-0.50`, appends `5` and returns -1. For `100`, appends `1` and returns 2.
    ///
    /// May reserve up to 15 bytes more than the digits need. Takes time linear in the number of
    /// digits.
    ///
    /// # Errors
    ///
    /// Returns `AllocError` if an allocation fails. A prefix of the digits may then be at the end
    /// of `out`.
    pub fn push_stripped_digits(&self, out: &mut String) -> Result<i32, AllocError>
        ensures digits { OnOk result (string_bytes out.new
            ≡ string_bytes out.old ++ digits_text (stripped_digits self.now.decimal)) }
        ensures exponent { IfOk result (λ e. e ≡ self.now.decimal.exponent) }
        ensures refused { OnErr result (AppendsBeginning (string_bytes out.old) (string_bytes out.new)
            (digits_text (stripped_digits self.now.decimal))) }
    {
        match &self.stored {
            Stored::Packed(word) => {
                let magnitude = word.mantissa().unsigned_abs();
                push_significand(magnitude, word.exponent(), out)
            }
            Stored::I64(value) => push_significand(value.unsigned_abs(), 0, out),
            Stored::U64(value) => push_significand(*value, 0, out),
            Stored::Short(number) => number.stripped().push_row(number.digits.lanes(), out),
            Stored::Long(number) => number.stripped().push_runs(out),
        }
    }
}

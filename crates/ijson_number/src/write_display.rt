//! Writes the text of a number with a formatter.
ghost use Rattle.std.specs.Prelude.{Some, ◌<◌, ◌≤◌, ◌≡◌, ◌^◌, pos, neg_ℤ, ◌<ℤ◌, int_le, int_lt, negsuc, ◌||◌, length};
ghost use Rattle.std.specs.List.{All};
ghost use Rattle.ijson_number.specs.Text.{digits_text, num_text, point_text, scientific_text, shape_text, zeros_text};

use crate::repr::INumber;
use crate::repr::stored::{MAX_DIGITS, place_of};
use std::fmt::Write;
use std::{fmt, str};

/// The digit 0, repeated.
#[derive(Drop)]
struct Zeros(u128);

impl fmt::Display for Zeros {
    ghost output = { λ z. Some (zeros_text z.0) };

    fn fmt<W: fmt::Write>(&self, f: &mut fmt::Formatter<W>) -> fmt::Result {
        for _i in 0..self.0 {
            f.write_str("0")?;
        }
        Ok(())
    }
}

/// Writes up to 20 digits into `buffer` in ASCII, and returns them as a string.
pub fn run_text<'a>(digits: &[u8], buffer: &'a mut [u8; MAX_DIGITS]) -> &'a str
    requires below_ten { All (λ d. d < 10) digits.now }
    requires short { length digits.now ≤ 20 }
    ensures { result.now ≡ digits_text digits.now }
{
    for at in 0..digits.len() {
        buffer[at] = b'0' + digits[at];
    }
    unsafe { str::from_utf8_unchecked(&buffer[..digits.len()]) }
}

/// Digits from 0 to 9, written in ASCII.
#[derive(Drop)]
struct DigitsText<'a> {
    digits: &'a [u8],
    ghost below_ten: { All (λ d. d < 10) digits.now },
}

impl fmt::Display for DigitsText<'_> {
    ghost output = { λ t. Some (digits_text t.digits.now) };

    fn fmt<W: fmt::Write>(&self, f: &mut fmt::Formatter<W>) -> fmt::Result {
        let mut buffer = [0; MAX_DIGITS];
        for run in self.digits.chunks(MAX_DIGITS) {
            f.write_str(run_text(run, &mut buffer))?;
        }
        Ok(())
    }
}

/// One or more digits in scientific notation, such as `1.25e21`.
///
/// The decimal point is written after the first digit. `place` is the index of the decimal point if
/// no exponent is written.
#[derive(Drop)]
struct Scientific<'a> {
    digits: &'a [u8],
    place: i128,
    ghost below_ten: { All (λ d. d < 10) digits.now },
    ghost some: { 0 < length digits.now },
    ghost low: { neg_ℤ (pos (2 ^ 70)) <ℤ place },
    ghost high: { place <ℤ pos (2 ^ 70) },
}

impl fmt::Display for Scientific<'_> {
    ghost output = { λ t. Some (scientific_text t.digits.now t.place) };

    fn fmt<W: fmt::Write>(&self, f: &mut fmt::Formatter<W>) -> fmt::Result {
        let power = self.place - 1;
        let (first, rest) = self.digits.split_at(1);
        let first = DigitsText { digits: first };
        if rest.is_empty() {
            write!(f, "{first}e{power}")
        } else {
            let rest = DigitsText { digits: rest };
            write!(f, "{first}.{rest}e{power}")
        }
    }
}

/// Digits with the decimal point at index `place`, padded with zeros if `place` is outside the
/// digits.
#[derive(Drop)]
struct Pointed<'a> {
    digits: &'a [u8],
    place: i128,
    ghost below_ten: { All (λ d. d < 10) digits.now },
    ghost low: { neg_ℤ (pos (2 ^ 70)) <ℤ place },
    ghost high: { place <ℤ pos (2 ^ 70) },
}

impl fmt::Display for Pointed<'_> {
    ghost output = { λ t. Some (point_text t.digits.now t.place) };

    fn fmt<W: fmt::Write>(&self, f: &mut fmt::Formatter<W>) -> fmt::Result {
        let digits = DigitsText {
            digits: self.digits,
        };
        if self.place <= 0 {
            let zeros = Zeros(self.place.unsigned_abs());
            return write!(f, "0.{zeros}{digits}");
        }
        let count = self.digits.len() as i128;
        if count <= self.place {
            let zeros = Zeros((self.place - count).unsigned_abs());
            return write!(f, "{digits}{zeros}.0");
        }
        let (whole, fraction) = self.digits.split_at(self.place as usize);
        let whole = DigitsText { digits: whole };
        let fraction = DigitsText { digits: fraction };
        write!(f, "{whole}.{fraction}")
    }
}

/// Returns `true` if a number with a decimal point is written with an exponent.
pub fn is_scientific(place: i128, exponent: i32) -> bool
    ensures { result ≡ (int_le place (negsuc 5) || int_lt (pos 20) exponent) }
{
    place <= -6 || exponent > 20
}

/// One or more digits and an exponent, with or without a decimal point.
#[derive(Drop)]
struct Shape<'a> {
    digits: &'a [u8],
    exponent: i32,
    point: bool,
    ghost below_ten: { All (λ d. d < 10) digits.now },
    ghost some: { 0 < length digits.now },
}

impl fmt::Display for Shape<'_> {
    ghost output = { λ t. Some (shape_text t.point t.digits.now t.exponent) };

    fn fmt<W: fmt::Write>(&self, f: &mut fmt::Formatter<W>) -> fmt::Result {
        let digits = self.digits;
        if !self.point {
            let digits = DigitsText { digits };
            let zeros = Zeros(self.exponent.unsigned_abs() as u128);
            return write!(f, "{digits}{zeros}");
        }
        let place = place_of(digits, self.exponent);
        if is_scientific(place, self.exponent) {
            fmt::Display::fmt(&Scientific { digits, place }, f)
        } else {
            fmt::Display::fmt(&Pointed { digits, place }, f)
        }
    }
}

/// Writes the number as JSON.
///
/// A number without a decimal point is written with all its digits. A number with a decimal point
/// is written with an exponent if its canonical exponent is above 20, or if more than five zeros
/// would follow `0.`. For example, `1e2` is written as `100.0`, `1e21` as `1e21`, and `0.0000001`
/// as `1e-7`.
///
/// # Cost
///
/// Linear in the length of the text. Does not allocate.
impl fmt::Display for INumber {
    ghost output = { λ n. Some (num_text n.decimal) };

    fn fmt<W: fmt::Write>(&self, f: &mut fmt::Formatter<W>) -> fmt::Result {
        let mut buffer = [0; MAX_DIGITS];
        let number = self.stripped(&mut buffer);
        let digits = number.digits;
        if digits.is_empty() {
            return f.write_str(if number.point { "0.0" } else { "0" });
        }
        let shape = Shape {
            digits,
            exponent: number.exponent,
            point: number.point,
        };
        if number.negative {
            write!(f, "-{shape}")
        } else {
            fmt::Display::fmt(&shape, f)
        }
    }
}

/// Writes the same text as `Display`.
impl fmt::Debug for INumber {
    ghost debug_output = { λ n. Some (num_text n.decimal) };

    fn fmt<W: fmt::Write>(&self, f: &mut fmt::Formatter<W>) -> fmt::Result {
        fmt::Display::fmt(self, f)
    }
}

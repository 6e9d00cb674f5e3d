//! Chooses the representation of a number: a word, digits in a block, or digits in a list.
ghost use Rattle.std.specs.Prelude.{◌≡◌, ◌≢◌, ◌*◌, ◌%◌, ◌+◌, ◌^◌, ◌<◌, ◌≤◌, ◌⊎◌, ◌*ℤ◌, ◌<ℤ◌, ◌≤ℤ◌, pos, length, FitsSigned, true, false, IfOk, IfSome, IfNone, IsSome, IsTrue, OnErr};
ghost use mir.Syntax.{w16};
ghost use Rattle.ijson_number.specs.Decimal.{Decimal, IsPlain};
ghost use Rattle.ijson_number.specs.Form.{digits_form, fits_packed, form_of, integer_form, is_digits};
ghost use Rattle.ijson_number.specs.FormNumber.{integer_word};
ghost use Rattle.ijson_number.specs.Stripped.{stripped_number};
ghost use Rattle.ijson_number.specs.Strips.{signed};
ghost use Rattle.ijson_number.specs.private.CanonicalSpelling.{IsCanonicalSpelling, spelled_number};
ghost use Rattle.ijson_number.specs.private.Significand.{IsCommonWord, IsSmall, canonical_number, significand_number, significand_of};
ghost use Rattle.ijson_number.specs.private.Stored.{stored_form};

use crate::general_reader::CanonicalSpelling;
use crate::repr::stored::{
    DIGITS_END, LongNumber, PACKED_END, ShortDigits, ShortNumber, Stored, Word, is_packed_mantissa,
    push_values,
};
use crate::significand::Significand;
use std::alloc::{AllocError, Global};

/// Returns the representation of an integer.
pub fn encode_signed(value: i64) -> Stored
    ensures { stored_form result ≡ integer_word value }
{
    if -PACKED_END <= value && value < PACKED_END {
        Stored::Packed(Word::integer(value))
    } else {
        Stored::I64(value)
    }
}

/// Returns the representation of an unsigned integer.
pub fn encode_unsigned(value: u64) -> Stored
    ensures { stored_form result ≡ integer_word (pos value) }
{
    match i64::try_from(value) {
        Ok(value) => encode_signed(value),
        Err(_) => Stored::U64(value),
    }
}

/// Returns `magnitude`, negated if `negative`.
#[inline(always)]
fn with_sign(negative: bool, magnitude: u64) -> i128
    ensures { result ≡ signed negative magnitude }
{
    if negative {
        -(magnitude as i128)
    } else {
        magnitude as i128
    }
}

/// Returns the representation of an integer that fits a word, and `None` otherwise.
#[inline(always)]
fn encode_integer(negative: bool, magnitude: u64) -> Option<Stored>
    ensures word { IfSome result (λ s. (n : Decimal) → stored_form s ≡ integer_form n (signed negative magnitude)) }
    ensures none { IfNone result ((n : Decimal) → integer_form n (signed negative magnitude) ≡ digits_form n) }
    ensures common { (magnitude < 2 ^ 63) ⊎ (negative ≡ false) → IsSome result }
{
    if magnitude < PACKED_END as u64 {
        let mantissa = with_sign(negative, magnitude) as i64;
        return Some(Stored::Packed(Word::integer(mantissa)));
    }
    if magnitude < 1 << 63 {
        return Some(encode_signed(with_sign(negative, magnitude) as i64));
    }
    if !negative {
        return Some(Stored::U64(magnitude));
    }
    if magnitude == 1 << 63 {
        return Some(Stored::I64(i64::MIN));
    }
    None
}

impl Significand {
    /// Returns the packed word of the number if the number is common, and `None` otherwise.
    ///
    /// A number is common if its exponent is from -7 to 0 and its magnitude is below `2 ^ 55`. Most
    /// numbers with a decimal point are common.
    #[inline(always)]
    fn common_word(self) -> Option<Stored>
        requires point { self.point ≡ true }
        requires stripped { self.exponent <ℤ pos 0 → self.magnitude % 10 ≢ 0 }
        ensures word { IfSome result (λ s. stored_form s ≡ form_of (significand_number self)) }
        ensures common { IsCommonWord self → IsSome result }
    {
        if self.exponent < -7 || self.exponent > 0 || self.magnitude >= PACKED_END as u64 {
            return None;
        }
        let mantissa = with_sign(self.negative, self.magnitude) as i64;
        Some(Stored::Packed(Word::pointed(mantissa, self.exponent as i8)))
    }

    /// Returns `magnitude * 10 ^ zeros`, or `None` if it does not fit a `u64`.
    fn scaled(self, zeros: usize) -> Option<u64>
        ensures some { IfSome result (λ m. m ≡ self.magnitude * 10 ^ zeros) }
        ensures none { IfNone result (2 ^ 64 ≤ self.magnitude * 10 ^ zeros) }
    {
        if self.magnitude == 0 {
            return Some(0);
        }
        if zeros > 19 {
            return None;
        }
        self.magnitude.checked_mul(10u64.pow(zeros as u32))
    }

    /// Returns the signed `magnitude * 10 ^ zeros`, or `None` if it does not fit a packed word.
    fn packed_mantissa(self, zeros: usize) -> Option<i64>
        ensures some { IfSome result (λ m. m ≡ signed self.negative self.magnitude *ℤ pos (10 ^ zeros)) }
        ensures fits { IfSome result (λ m. IsTrue (fits_packed m)) }
        ensures none { IfNone result (fits_packed (signed self.negative self.magnitude *ℤ pos (10 ^ zeros)) ≡ false) }
    {
        let magnitude = self.scaled(zeros)?;
        let mantissa = with_sign(self.negative, magnitude);
        if is_packed_mantissa(mantissa) {
            Some(mantissa as i64)
        } else {
            None
        }
    }

    /// Returns the packed word of a canonical integer that has a decimal point, or `None` if it
    /// does not fit.
    ///
    /// The word has the smallest exponent for which the mantissa fits.
    fn whole_word(self) -> Option<Stored>
        requires plain { IsPlain (canonical_number self) }
        requires point { self.point ≡ true }
        requires whole { pos 0 ≤ℤ self.exponent }
        ensures word { IfSome result (λ s. stored_form s ≡ form_of (canonical_number self)) }
        ensures none { IfNone result (form_of (canonical_number self) ≡ digits_form (canonical_number self)) }
    {
        let zeros = self.exponent as usize;
        for exponent in 0..8usize {
            if exponent <= zeros {
                if let Some(mantissa) = self.packed_mantissa(zeros - exponent) {
                    return Some(Stored::Packed(Word::pointed(mantissa, exponent as i8)));
                }
            }
        }
        None
    }

    /// Returns the representation of a canonical number that fits a word, and `None` otherwise.
    fn word(self) -> Option<Stored>
        requires { IsPlain (canonical_number self) }
        ensures word { IfSome result (λ s. stored_form s ≡ form_of (canonical_number self)) }
        ensures none { IfNone result (form_of (canonical_number self) ≡ digits_form (canonical_number self)) }
    {
        if !self.point {
            return encode_integer(self.negative, self.scaled(self.exponent as usize)?);
        }
        if self.exponent >= 0 {
            return self.whole_word();
        }
        if self.exponent < -7 {
            return None;
        }
        let mantissa = self.packed_mantissa(0)?;
        Some(Stored::Packed(Word::pointed(mantissa, self.exponent as i8)))
    }

    /// Stores the digits of a canonical number in a block.
    ///
    /// The block is boxed here, because a returned `ShortNumber` would be written to memory in
    /// parts and read back.
    #[inline(always)]
    fn block(self, alloc: Global, exponent: i16) -> Result<Stored, AllocError>
        requires exponent { exponent ≡ self.exponent }
        requires canonical { self.magnitude % 10 ≢ 0 }
        requires few { self.magnitude < 10 ^ 19 }
        ensures { IfOk result (λ s. stored_form s ≡ digits_form (canonical_number self)) }
    {
        let short = ShortNumber {
            exponent,
            negative: self.negative,
            point: self.point,
            digits: ShortDigits::of_number(self.magnitude),
        };
        let short = Box::new(alloc, short)?;
        Ok(Stored::Short(short))
    }
}

/// Returns the representation of a number for which `common_word` returned `None`.
///
/// Not inlined, because the locals of a longer function are zeroed for every number. The parameters
/// are scalars, because a `Significand` would be written to memory and read back.
#[inline(never)]
fn encode_other(
    alloc: Global,
    negative: bool,
    magnitude: u64,
    exponent: i32,
    point: bool,
) -> Result<Stored, AllocError>
    requires small { IsSmall (significand_of negative magnitude exponent point) }
    requires stripped { exponent <ℤ pos 0 → magnitude % 10 ≢ 0 }
    ensures form { IfOk result (λ s. stored_form s
        ≡ form_of (stripped_number (signed negative magnitude) exponent point)) }
    ensures refused { OnErr result
        (is_digits (form_of (stripped_number (signed negative magnitude) exponent point)) ≡ true) }
{
    let significand = Significand {
        negative,
        magnitude,
        exponent,
        point,
    };
    if exponent < -7 {
        return significand.block(alloc, exponent as i16);
    }
    let canonical = significand.canonical();
    if let Some(stored) = canonical.word() {
        return Ok(stored);
    }
    canonical.block(alloc, canonical.exponent as i16)
}

/// Calls `encode_other`.
///
/// Inlined, so that the return slot of the call is zeroed only for numbers that need the call.
#[inline(always)]
fn encode_wide(alloc: Global, significand: Significand) -> Result<Stored, AllocError>
    requires small { IsSmall significand }
    requires stripped { significand.exponent <ℤ pos 0 → significand.magnitude % 10 ≢ 0 }
    ensures form { IfOk result (λ s. stored_form s ≡ form_of (significand_number significand)) }
    ensures refused { OnErr result (is_digits (form_of (significand_number significand)) ≡ true) }
{
    let Significand {
        negative,
        magnitude,
        exponent,
        point,
    } = significand;
    let stored = encode_other(alloc, negative, magnitude, exponent, point)?;
    Ok(stored)
}

/// Returns the representation of a number that the fast reader has read.
#[inline(always)]
pub fn encode(alloc: Global, significand: Significand) -> Result<Stored, AllocError>
    requires { IsSmall significand }
    ensures form { IfOk result (λ s. stored_form s ≡ form_of (significand_number significand)) }
    ensures refused { OnErr result (is_digits (form_of (significand_number significand)) ≡ true) }
{
    if !significand.point {
        if let Some(stored) = encode_integer(significand.negative, significand.magnitude) {
            return Ok(stored);
        }
        return encode_wide(alloc, significand);
    }
    let stripped = significand.strip_trailing_zeros(0);
    if let Some(stored) = stripped.common_word() {
        return Ok(stored);
    }
    encode_wide(alloc, stripped)
}

/// Stores the digits of a number in a list.
fn encode_list(alloc: Global, spelling: &CanonicalSpelling<'_>) -> Result<Stored, AllocError>
    requires canonical { IsCanonicalSpelling spelling.now }
    requires many { FitsSigned w16 spelling.now.exponent
        → 19 < length spelling.now.front.now + length spelling.now.back.now }
    ensures { IfOk result (λ s. stored_form s ≡ digits_form (spelled_number spelling.now)) }
{
    let mut digits = Vec::with_capacity(alloc, spelling.front.len() + spelling.back.len())?;
    push_values(&mut digits, spelling.front)?;
    push_values(&mut digits, spelling.back)?;
    let long = LongNumber {
        exponent: spelling.exponent,
        negative: spelling.negative,
        point: spelling.point,
        digits,
    };
    let long = Box::new(alloc, long)?;
    Ok(Stored::Long(long))
}

/// Returns the representation of a number that the general reader has read.
pub fn encode_spelling(
    alloc: Global,
    spelling: &CanonicalSpelling<'_>,
) -> Result<Stored, AllocError>
    requires { IsCanonicalSpelling spelling.now }
    ensures form { IfOk result (λ s. stored_form s ≡ form_of (spelled_number spelling.now)) }
    ensures refused { OnErr result (is_digits (form_of (spelled_number spelling.now)) ≡ true) }
{
    let Some(significand) = spelling.significand() else {
        return encode_list(alloc, spelling);
    };
    if let Some(stored) = significand.word() {
        return Ok(stored);
    }
    if significand.magnitude >= DIGITS_END {
        return encode_list(alloc, spelling);
    }
    match i16::try_from(significand.exponent) {
        Ok(exponent) => significand.block(alloc, exponent),
        Err(_) => encode_list(alloc, spelling),
    }
}

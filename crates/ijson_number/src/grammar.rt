//! Splits signs and digits off the input, for both readers.
ghost use Rattle.std.specs.Prelude.{◌≡◌, ◌++◌, ◌↔◌, IsTrue};
ghost use Rattle.ijson_number.specs.Grammar.{AllDigits, IsWhole};
ghost use Rattle.ijson_number.specs.private.Reading.{BeginsWithNoDigit, IsExponentSignTaken, IsSignTaken};

/// Splits off an optional leading `+` or `-`. Returns `true` if the sign is `-`, and the remaining
/// bytes.
pub fn split_exponent_sign(number: &[u8]) -> (bool, &[u8])
    ensures { IsExponentSignTaken number.now result.0 result.1.now }
{
    match number {
        [b'-', digits @ ..] => (true, digits),
        [b'+', digits @ ..] => (false, digits),
        _ => (false, number),
    }
}

/// Splits off an optional leading `-`. Returns `true` if the sign is present, and the remaining
/// bytes.
pub fn split_sign(text: &[u8]) -> (bool, &[u8])
    ensures { IsSignTaken text.now result.0 result.1.now }
{
    match text {
        [b'-', unsigned @ ..] => (true, unsigned),
        _ => (false, text),
    }
}

/// Returns `true` if the digits are the whole part of a JSON number: one digit, or more without a
/// leading zero.
pub fn is_whole(digits: &[u8]) -> bool
    requires { AllDigits digits.now }
    ensures { IsTrue result ↔ IsWhole digits.now }
{
    digits.len() == 1 || (!digits.is_empty() && digits[0] != b'0')
}

/// Splits off the leading digits.
pub fn split_digits<'a>(bytes: &'a [u8]) -> (&'a [u8], &'a [u8])
    ensures text { bytes.now ≡ result.0.now ++ result.1.now }
    ensures digits { AllDigits result.0.now }
    ensures rest { BeginsWithNoDigit result.1.now }
{
    let mut count = 0;
    while count < bytes.len() && bytes[count].is_ascii_digit() {
        count += 1;
    }
    bytes.split_at(count)
}

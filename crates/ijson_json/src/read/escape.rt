//! The escapes in a string.

ghost use Rattle.std.specs.Prelude.{◌≡◌, ◌∷◌, ◌<◌, ◌≤◌, IsTrue, IfSome, MatchOption};
ghost use Rattle.std.specs.Char.{encode_utf8};
ghost use Rattle.ijson_json.specs.Strings.{short_escape, hex_digit, is_high_surrogate, is_low_surrogate};
ghost use Rattle.ijson_json.specs.private.StringReading.{hex_code, HexAt, NoHex, CharacterAt, NoCharacter, NoEscape, LowAt, NoLow};

use crate::scan::prefix::{split_ascii, strip_byte};

/// Returns `true` if `unit` is a high surrogate, the first code of a pair.
fn is_high_surrogate(unit: u32) -> bool
    ensures { result ≡ is_high_surrogate unit }
{
    (0xd800..0xdc00).contains(&unit)
}

/// Returns `true` if `unit` is a low surrogate, the second code of a pair.
fn is_low_surrogate(unit: u32) -> bool
    ensures { result ≡ is_low_surrogate unit }
{
    (0xdc00..0xe000).contains(&unit)
}

/// The byte that each letter denotes after a backslash, or `.` if the escape is invalid.
///
/// A table lookup costs the same for each letter, while the branch predictor rarely predicts a jump
/// on the letter.
static MEANINGS: [u8; 128] = *b"\
    ................................\
    ..\"............/................\
    ............................\\...\
    ..\x08...\x0c.......\n...\r.\t...........";

/// Returns the byte that `letter` denotes after a backslash, or `None` if the escape is invalid.
fn short_meaning(letter: u8) -> Option<u8>
    requires { letter < 128 }
    ensures value { result ≡ short_escape letter }
    ensures ascii { IfSome result (λ meaning. meaning < 128) }
{
    let meaning = MEANINGS[letter as usize];
    if meaning == b'.' { None } else { Some(meaning) }
}

/// The value in `DIGITS` of a byte that is not a hexadecimal digit.
///
/// The value exceeds every number of four hexadecimal digits.
const NO_DIGIT: u32 = 0x10000;

/// The value of each byte as a hexadecimal digit, or `NO_DIGIT`.
static DIGITS: [u32; 256] = [
    NO_DIGIT, NO_DIGIT, NO_DIGIT, NO_DIGIT, NO_DIGIT, NO_DIGIT, NO_DIGIT, NO_DIGIT, NO_DIGIT,
    NO_DIGIT, NO_DIGIT, NO_DIGIT, NO_DIGIT, NO_DIGIT, NO_DIGIT, NO_DIGIT, NO_DIGIT, NO_DIGIT,
    NO_DIGIT, NO_DIGIT, NO_DIGIT, NO_DIGIT, NO_DIGIT, NO_DIGIT, NO_DIGIT, NO_DIGIT, NO_DIGIT,
    NO_DIGIT, NO_DIGIT, NO_DIGIT, NO_DIGIT, NO_DIGIT, NO_DIGIT, NO_DIGIT, NO_DIGIT, NO_DIGIT,
    NO_DIGIT, NO_DIGIT, NO_DIGIT, NO_DIGIT, NO_DIGIT, NO_DIGIT, NO_DIGIT, NO_DIGIT, NO_DIGIT,
    NO_DIGIT, NO_DIGIT, NO_DIGIT, 0, 1, 2, 3, 4, 5, 6, 7, 8, 9, NO_DIGIT, NO_DIGIT, NO_DIGIT,
    NO_DIGIT, NO_DIGIT, NO_DIGIT, NO_DIGIT, 10, 11, 12, 13, 14, 15, NO_DIGIT, NO_DIGIT, NO_DIGIT,
    NO_DIGIT, NO_DIGIT, NO_DIGIT, NO_DIGIT, NO_DIGIT, NO_DIGIT, NO_DIGIT, NO_DIGIT, NO_DIGIT,
    NO_DIGIT, NO_DIGIT, NO_DIGIT, NO_DIGIT, NO_DIGIT, NO_DIGIT, NO_DIGIT, NO_DIGIT, NO_DIGIT,
    NO_DIGIT, NO_DIGIT, NO_DIGIT, NO_DIGIT, NO_DIGIT, 10, 11, 12, 13, 14, 15, NO_DIGIT, NO_DIGIT,
    NO_DIGIT, NO_DIGIT, NO_DIGIT, NO_DIGIT, NO_DIGIT, NO_DIGIT, NO_DIGIT, NO_DIGIT, NO_DIGIT,
    NO_DIGIT, NO_DIGIT, NO_DIGIT, NO_DIGIT, NO_DIGIT, NO_DIGIT, NO_DIGIT, NO_DIGIT, NO_DIGIT,
    NO_DIGIT, NO_DIGIT, NO_DIGIT, NO_DIGIT, NO_DIGIT, NO_DIGIT, NO_DIGIT, NO_DIGIT, NO_DIGIT,
    NO_DIGIT, NO_DIGIT, NO_DIGIT, NO_DIGIT, NO_DIGIT, NO_DIGIT, NO_DIGIT, NO_DIGIT, NO_DIGIT,
    NO_DIGIT, NO_DIGIT, NO_DIGIT, NO_DIGIT, NO_DIGIT, NO_DIGIT, NO_DIGIT, NO_DIGIT, NO_DIGIT,
    NO_DIGIT, NO_DIGIT, NO_DIGIT, NO_DIGIT, NO_DIGIT, NO_DIGIT, NO_DIGIT, NO_DIGIT, NO_DIGIT,
    NO_DIGIT, NO_DIGIT, NO_DIGIT, NO_DIGIT, NO_DIGIT, NO_DIGIT, NO_DIGIT, NO_DIGIT, NO_DIGIT,
    NO_DIGIT, NO_DIGIT, NO_DIGIT, NO_DIGIT, NO_DIGIT, NO_DIGIT, NO_DIGIT, NO_DIGIT, NO_DIGIT,
    NO_DIGIT, NO_DIGIT, NO_DIGIT, NO_DIGIT, NO_DIGIT, NO_DIGIT, NO_DIGIT, NO_DIGIT, NO_DIGIT,
    NO_DIGIT, NO_DIGIT, NO_DIGIT, NO_DIGIT, NO_DIGIT, NO_DIGIT, NO_DIGIT, NO_DIGIT, NO_DIGIT,
    NO_DIGIT, NO_DIGIT, NO_DIGIT, NO_DIGIT, NO_DIGIT, NO_DIGIT, NO_DIGIT, NO_DIGIT, NO_DIGIT,
    NO_DIGIT, NO_DIGIT, NO_DIGIT, NO_DIGIT, NO_DIGIT, NO_DIGIT, NO_DIGIT, NO_DIGIT, NO_DIGIT,
    NO_DIGIT, NO_DIGIT, NO_DIGIT, NO_DIGIT, NO_DIGIT, NO_DIGIT, NO_DIGIT, NO_DIGIT, NO_DIGIT,
    NO_DIGIT, NO_DIGIT, NO_DIGIT, NO_DIGIT, NO_DIGIT, NO_DIGIT, NO_DIGIT, NO_DIGIT, NO_DIGIT,
    NO_DIGIT, NO_DIGIT, NO_DIGIT, NO_DIGIT, NO_DIGIT, NO_DIGIT, NO_DIGIT, NO_DIGIT, NO_DIGIT,
    NO_DIGIT, NO_DIGIT, NO_DIGIT, NO_DIGIT, NO_DIGIT, NO_DIGIT, NO_DIGIT, NO_DIGIT, NO_DIGIT,
    NO_DIGIT, NO_DIGIT, NO_DIGIT, NO_DIGIT, NO_DIGIT, NO_DIGIT, NO_DIGIT,
];

/// Returns the value of a hexadecimal digit, or `NO_DIGIT` for any other byte.
#[inline(always)]
fn hex_value(byte: u8) -> u32
    ensures value { result ≡ hex_code (hex_digit byte) }
    ensures small { result ≤ 65536 }
{
    DIGITS[byte as usize]
}

/// Returns the value of four leading hexadecimal digits, and the text after the digits.
#[inline(always)]
fn take_unit(text: &str) -> Option<(u32, &str)>
    ensures found { MatchOption result (NoHex text.now) (λ x. HexAt text.now x.0 x.1.now) }
    ensures small { IfSome result (λ x. x.0 < 65536) }
{
    let [a, b, c, d, ..] = text.as_bytes() else {
        return None;
    };
    let (first, second) = (hex_value(*a), hex_value(*b));
    let (third, fourth) = (hex_value(*c), hex_value(*d));
    let unit = first * 4096 + (second * 256 + (third * 16 + fourth));
    if unit >= NO_DIGIT {
        return None;
    }
    Some((unit, &text[4..]))
}

/// Reads the escape of a low surrogate after the high surrogate `high`. Returns the character of
/// the pair and the text after the escape.
fn take_low(high: u32, text: &str) -> Option<(char, &str)>
    requires { IsTrue (is_high_surrogate high) }
    ensures { MatchOption result (NoLow text.now)
        (λ x. LowAt high text.now (encode_utf8 x.0) x.1.now) }
{
    let digits = text.strip_prefix("\\u")?;
    let (low, rest) = take_unit(digits)?;
    if !is_low_surrogate(low) {
        return None;
    }
    let character = char::from_u32(0x10000 + ((high - 0xd800) * 1024 + (low - 0xdc00)))?;
    Some((character, rest))
}

/// Reads the code or surrogate pair after `\u`. Returns the character and the text after the
/// escape.
fn take_unicode(text: &str) -> Option<(char, &str)>
    ensures { MatchOption result (NoCharacter (92 ∷ 117 ∷ text.now))
        (λ x. CharacterAt (92 ∷ 117 ∷ text.now) (encode_utf8 x.0) x.1.now) }
{
    let (unit, rest) = take_unit(text)?;
    if is_high_surrogate(unit) {
        return take_low(unit, rest);
    }
    let character = char::from_u32(unit)?;
    Some((character, rest))
}

/// Reads the leading escape, and returns its character and the text after the escape.
///
/// Returns `None` if `text` does not begin with a valid escape.
pub(crate) fn take_escape(text: &str) -> Option<(char, &str)>
    ensures { MatchOption result (NoEscape text.now)
        (λ x. CharacterAt text.now (encode_utf8 x.0) x.1.now) }
{
    let letters = strip_byte(text, b'\\')?;
    let (letter, rest) = split_ascii(letters)?;
    if letter == b'u' {
        return take_unicode(rest);
    }
    let meaning = short_meaning(letter)?;
    Some((meaning as char, rest))
}

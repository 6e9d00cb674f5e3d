//! Writing of strings, and of keys with their delimiters.

ghost use Rattle.std.specs.Prelude.{◌≡◌, ◌≢◌, ◌++◌, ◌∷◌, [], ◌/◌, ◌%◌, ◌<◌, ◌≤◌, false, length, OnOk, OnErr, Some};
ghost use Rattle.std.specs.List.{prefix_len};
ghost use Rattle.std.specs.String.{string_bytes};
ghost use Rattle.ijson_json.specs.Strings.{is_unescaped};
ghost use Rattle.ijson_json.specs.KeyText.{key_text};
ghost use Rattle.ijson_json.specs.Print.{all_escaped, escaped, hex_text, quoted};
ghost use Rattle.ijson_json.specs.Separator.{separator};
ghost use Rattle.ijson_json.specs.WritesBeginning.{WritesBeginning};

use crate::scan::prefix::split_ascii;
use crate::scan::run::{begins_unescaped, split_run};
use ijson_string::IString;
use std::alloc::AllocError;

/// Returns the lower-case hexadecimal digit of `digit`.
fn hex_letter(digit: u8) -> char
    requires { digit < 16 }
    ensures { result ≡ hex_text digit }
{
    if digit < 10 {
        (b'0' + digit) as char
    } else {
        (b'a' - 10 + digit) as char
    }
}

/// Appends the `\u` escape of a control character.
fn push_unicode(out: &mut String, control: u8) -> Result<(), AllocError>
    requires { control < 32 }
    ensures written { OnOk result (string_bytes out.new ≡ string_bytes out.old
        ++ 92 ∷ 117 ∷ 48 ∷ 48 ∷ hex_text (control / 16) ∷ hex_text (control % 16) ∷ []) }
    ensures refused { OnErr result (WritesBeginning (Some (string_bytes out.old)) (Some (string_bytes out.new))
        (92 ∷ 117 ∷ 48 ∷ 48 ∷ hex_text (control / 16) ∷ hex_text (control % 16) ∷ [])) }
{
    out.push_str("\\u00")?;
    out.push(hex_letter(control / 16))?;
    out.push(hex_letter(control % 16))
}

/// The letter after the backslash in the escape of each byte. A byte without a letter has `u`.
///
/// A table lookup costs the same for each byte, while the branch predictor rarely predicts a jump
/// on the byte.
static LETTERS: [u8; 128] = *b"\
    uuuuuuuubtnufruuuuuuuuuuuuuuuuuu\
    uu\"uuuuuuuuuuuuuuuuuuuuuuuuuuuuu\
    uuuuuuuuuuuuuuuuuuuuuuuuuuuu\\uuu\
    uuuuuuuuuuuuuuuuuuuuuuuuuuuuuuuu";

/// Appends the escape of a byte that must be escaped.
#[inline(always)]
fn push_escape(out: &mut String, byte: u8) -> Result<(), AllocError>
    requires { is_unescaped byte ≡ false }
    ensures written { OnOk result (string_bytes out.new ≡ string_bytes out.old ++ escaped byte) }
    ensures refused { OnErr result (WritesBeginning (Some (string_bytes out.old)) (Some (string_bytes out.new))
        (escaped byte)) }
{
    let letter = LETTERS[byte as usize];
    if letter == b'u' {
        return push_unicode(out, byte);
    }
    out.push('\\')?;
    out.push(letter as char)
}

/// Appends `text` in quotes, with its escapes.
///
/// Escapes `"`, `\` and bytes below a space: with a letter if there is one, otherwise like
/// `\u001f`. Takes time linear in `text`.
///
/// # Errors
///
/// Returns `AllocError` if an allocation fails. A proper prefix of the new bytes may have been
/// appended.
pub fn push_quoted(out: &mut String, text: &str) -> Result<(), AllocError>
    ensures written { OnOk result (string_bytes out.new ≡ string_bytes out.old ++ quoted text.now) }
    ensures refused { OnErr result (WritesBeginning (Some (string_bytes out.old)) (Some (string_bytes out.new))
        (quoted text.now)) }
{
    out.push('"')?;
    push_escaped(out, text, "\"")
}

/// Appends a comma unless `is_first`, then the key in quotes as by `push_quoted`, then a colon.
///
/// Takes time linear in the key.
///
/// # Errors
///
/// Returns `AllocError` if an allocation fails. A proper prefix of the new bytes may have been
/// appended.
pub fn push_key(out: &mut String, key: &str, is_first: bool) -> Result<(), AllocError>
    ensures written { OnOk result (string_bytes out.new ≡ string_bytes out.old ++ key_text is_first key.now) }
    ensures refused { OnErr result (WritesBeginning (Some (string_bytes out.old)) (Some (string_bytes out.new))
        (key_text is_first key.now)) }
{
    push_opening(out, is_first)?;
    push_escaped(out, key, "\":")
}

/// Appends the opening quote of a key, after a comma unless `is_first`.
///
/// Appending both bytes in one call is faster than in two.
#[inline(always)]
fn push_opening(out: &mut String, is_first: bool) -> Result<(), AllocError>
    ensures written { OnOk result (string_bytes out.new ≡ string_bytes out.old ++ (separator is_first ++ 34 ∷ [])) }
    ensures refused { OnErr result (string_bytes out.new ≡ string_bytes out.old) }
{
    if is_first {
        return out.push('"');
    }
    out.push_str(",\"")
}

/// Like `push_quoted`, but for an `IString`.
pub(crate) fn push_string(out: &mut String, text: &IString) -> Result<(), AllocError>
    ensures { OnOk result (string_bytes out.new ≡ string_bytes out.old ++ quoted text.now) }
{
    out.push('"')?;
    push_text(out, text, "\"")
}

/// Like `push_key`, but for an `IString`.
#[inline(always)]
pub(crate) fn push_member_key(
    out: &mut String,
    key: &IString,
    is_first: bool,
) -> Result<(), AllocError>
    ensures { OnOk result (string_bytes out.new ≡ string_bytes out.old ++ key_text is_first key.now) }
{
    push_opening(out, is_first)?;
    push_text(out, key, "\":")
}

/// Appends a string with its escapes, then `end`.
///
/// Most keys are inline and have no escape. Such a string is appended with its padding, which is
/// then truncated. A copy of a size unknown at compile time would be a call that branches on the
/// size.
#[inline(always)]
fn push_text(out: &mut String, text: &IString, end: &str) -> Result<(), AllocError>
    requires { end.now ≢ [] }
    ensures { OnOk result (string_bytes out.new ≡ string_bytes out.old ++ (all_escaped text.now ++ end.now)) }
{
    match text.inline_padded() {
        Some((count, row)) if begins_unescaped(row, count) => {
            let text_end = out.len() + usize::from(count);
            out.push_str(row)?;
            out.truncate(text_end);
            out.push_str(end)
        }
        _ => push_slow(out, text, end),
    }
}

/// Slow path of `push_text`, for a string that is not inline or has an escape.
///
/// Because of the precondition, the prover rejects a caller that also sends other strings here.
#[inline(always)]
fn push_slow(out: &mut String, text: &IString, end: &str) -> Result<(), AllocError>
    requires end { end.now ≢ [] }
    requires is_slow { length text.now ≤ 7 → prefix_len is_unescaped text.now < length text.now }
    ensures { OnOk result (string_bytes out.new ≡ string_bytes out.old ++ (all_escaped text.now ++ end.now)) }
{
    push_escaped(out, text.as_str(), end)
}

/// Appends `text` with its escapes, then `end`.
#[inline(always)]
fn push_escaped(out: &mut String, text: &str, end: &str) -> Result<(), AllocError>
    requires { end.now ≢ [] }
    ensures written { OnOk result (string_bytes out.new ≡ string_bytes out.old ++ (all_escaped text.now ++ end.now)) }
    ensures refused { OnErr result (WritesBeginning (Some (string_bytes out.old)) (Some (string_bytes out.new))
        (all_escaped text.now ++ end.now)) }
{
    let mut start = 0;
    loop {
        let (run, after) = split_run(text, start);
        out.push_str(run)?;
        let Some((byte, _)) = split_ascii(after) else {
            return out.push_str(end);
        };
        push_escape(out, byte)?;
        start += run.len() + 1;
    }
}

//! White space.
//!
//! Compact JSON has at most one byte of white space in a row. Indented JSON mostly has a line feed
//! and an indent. Therefore, the first two bytes are tested individually, and further bytes 16 at a
//! time.

ghost use Rattle.std.specs.Prelude.{◌≡◌, ◌<◌, ◌∷◌, ℕ, IsTrue, length, map, not, MatchOption};
ghost use Rattle.std.specs.List.{prefix_len};
ghost use Rattle.std.specs.Simd.Lanes.{mask_l};
ghost use Rattle.ijson_json.specs.Grammar.{is_space};
ghost use Rattle.ijson_json.specs.private.Reading.{Skips, Past};

use std::simd::prelude::*;

/// Returns `true` if `byte` is a space, tab, line feed or carriage return.
fn is_white(byte: u8) -> bool
    ensures { result ≡ is_space byte }
{
    byte == b' ' || byte == b'\n' || byte == b'\r' || byte == b'\t'
}

/// Strips one byte of leading white space. Returns `None` if `text` does not begin with white
/// space.
#[inline(always)]
fn strip_white(text: &str) -> Option<&str>
    ensures { MatchOption result (Past is_space text.now)
        (λ rest. (byte : ℕ) × IsTrue (is_space byte) × (text.now ≡ byte ∷ rest.now)) }
{
    let (byte, _) = text.as_bytes().split_first()?;
    if is_white(*byte) {
        Some(&text[1..])
    } else {
        None
    }
}

/// Strips all leading white space.
pub(crate) fn skip_space(text: &str) -> &str
    ensures { Skips text.now result.now }
{
    let Some(more) = strip_white(text) else {
        return text;
    };
    match strip_white(more) {
        Some(indent) => skip_indent(indent),
        None => more,
    }
}

/// Like `skip_space`, but tests 16 bytes at a time. `skip_space` calls it after two bytes of white
/// space.
#[tactic(auto, using(crate::proofs::scanning::WhiteSpace::run_skipped, crate::proofs::scanning::WhiteSpace::space_boundary))]
#[inline(never)]
fn skip_indent(text: &str) -> &str
    ensures { Skips text.now result.now }
{
    &text[space_length(text.as_bytes())..]
}

/// Returns the number of leading white-space bytes. Tests 16 bytes at a time.
fn space_length(bytes: &[u8]) -> usize
    ensures { result ≡ prefix_len is_space bytes.now }
{
    let mut at = 0;
    while bytes.len() - at >= 16 {
        let found = others(u8x16::from_slice(&bytes[at..]));
        if found != 0 {
            return at + found.trailing_zeros() as usize;
        }
        at += 16;
    }
    at + space_by_bytes(&bytes[at..])
}

/// Returns a mask of the bytes that are not white space. The lowest bit is the first byte.
#[inline(always)]
fn others(bytes: u8x16) -> u64
    ensures { result ≡ mask_l (map (λ byte. not (is_space byte)) bytes) }
{
    let others = bytes.simd_ne(Simd::splat(b' ')) & bytes.simd_ne(Simd::splat(b'\n'));
    (others & bytes.simd_ne(Simd::splat(b'\r')) & bytes.simd_ne(Simd::splat(b'\t'))).to_bitmask()
}

/// Returns the number of leading white-space bytes. Scalar version.
///
/// Because of the precondition, the prover rejects this function in place of the vector version.
fn space_by_bytes(bytes: &[u8]) -> usize
    requires { length bytes.now < 16 }
    ensures { result ≡ prefix_len is_space bytes.now }
{
    let other = bytes.iter().position(|byte| !is_white(*byte));
    other.unwrap_or(bytes.len())
}

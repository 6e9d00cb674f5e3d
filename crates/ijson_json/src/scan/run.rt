//! Runs of unescaped bytes in a string.

ghost use Rattle.std.specs.Prelude.{◌≡◌, ◌+◌, ◌*◌, ◌^◌, ◌<◌, ◌≤◌, ◌++◌, ℕ, List, IfOk, IsTrue, ◌↔◌, drop, length, map, not, take};
ghost use Rattle.std.specs.List.{AllByRecursion, prefix_len};
ghost use Rattle.std.specs.Simd.Lanes.{mask_l};
ghost use Rattle.std.specs.Str.{IsCharBoundary};
ghost use Rattle.std.specs.String.{string_bytes};
ghost use Rattle.ijson_json.specs.Strings.{is_unescaped};
ghost use Rattle.ijson_json.specs.private.Reading.{Past};

use std::alloc::AllocError;
use std::mem;
use std::simd::prelude::*;

/// Returns the number of leading unescaped bytes. Scalar version.
///
/// Because of the precondition, the prover rejects this function in place of the vector version.
fn run_by_bytes(bytes: &[u8]) -> usize
    requires { length bytes.now < 4 }
    ensures { result ≡ prefix_len is_unescaped bytes.now }
{
    let special = bytes
        .iter()
        .position(|byte| *byte < b' ' || *byte == b'"' || *byte == b'\\');
    special.unwrap_or(bytes.len())
}

/// Returns a mask of the bytes that must be escaped or end the string. The lowest bit is the first
/// byte.
#[inline(always)]
fn specials<const N: usize>(bytes: Simd<u8, N>) -> u64
    requires { N ≤ 64 }
    ensures { result ≡ mask_l (map (λ byte. not (is_unescaped byte)) bytes.entry) }
{
    (bytes.simd_eq(Simd::splat(b'"'))
        | bytes.simd_eq(Simd::splat(b'\\'))
        | bytes.simd_lt(Simd::splat(b' '))).to_bitmask()
}

/// Like `specials`, but also sets the bit after the last byte, so that no branch tests for the end.
#[tactic(auto, using(crate::proofs::scanning::SpecialMasks::end_marked))]
fn specials_and_end<const N: usize>(bytes: Simd<u8, N>) -> u64
    requires { N < 64 }
    ensures { result ≡ mask_l (map (λ byte. not (is_unescaped byte)) bytes.entry) + 2 ^ N }
{
    specials(bytes) | 1 << N
}

/// Returns the end of the run from `start`, in a slice of N to 2 * N bytes.
///
/// Tests the first N and the last N bytes, which may overlap.
#[tactic(auto, using(crate::proofs::scanning::SpecialMasks::run_in_two))]
fn run_end_in_two<const N: usize>(bytes: &[u8], start: usize) -> usize
    requires { (N < 32) × (N ≤ length bytes.now) × (length bytes.now ≤ 2 * N) × (start ≤ length bytes.now) }
    ensures { result ≡ start + prefix_len is_unescaped (drop start bytes.now) }
{
    let last = bytes.len() - N;
    let first = specials(Simd::<u8, N>::from_slice(bytes));
    let behind = specials_and_end(Simd::<u8, N>::from_slice(&bytes[last..]));
    let found = first | behind << last;
    start + (found >> start).trailing_zeros() as usize
}

/// Returns the end of the run from `start`, if fewer than 16 bytes are left.
///
/// - A slice of at least 16 bytes: tests the last 16 and shifts out the bits before `start`.
/// - A slice of 4 to 15 bytes: tests two overlapping vectors.
/// - A shorter slice: tests each byte.
#[tactic(auto, using(crate::proofs::scanning::SpecialMasks::run_in_last))]
fn last_run_end(bytes: &[u8], start: usize) -> usize
    requires { (start ≤ length bytes.now) × (length bytes.now < start + 16) }
    ensures { result ≡ start + prefix_len is_unescaped (drop start bytes.now) }
{
    if bytes.len() >= 16 {
        let last = bytes.len() - 16;
        let found = specials_and_end(u8x16::from_slice(&bytes[last..]));
        start + (found >> (start - last)).trailing_zeros() as usize
    } else if bytes.len() >= 8 {
        run_end_in_two::<8>(bytes, start)
    } else if bytes.len() >= 4 {
        run_end_in_two::<4>(bytes, start)
    } else {
        start + run_by_bytes(&bytes[start..])
    }
}

/// Returns `true` if the first `count` bytes of `row`, an inline string padded to 7 bytes, are
/// unescaped.
///
/// An inline string stores `count` before its bytes, so all eight bytes are loaded as one word. The
/// bit of `count` is shifted out of the mask.
#[inline(always)]
pub(crate) fn begins_unescaped(row: &str, count: u8) -> bool
    requires { length row.now ≡ 7 }
    ensures { IsTrue result ↔ count ≤ prefix_len is_unescaped row.now }
{
    let &[a, b, c, d, e, f, g] = row.as_bytes() else {
        return false;
    };
    let found = specials_and_end(u8x8::from_array([count, a, b, c, d, e, f, g]));
    u32::from(count) <= (found >> 1).trailing_zeros()
}

/// Returns the end of the run from `start`. Tests 16 bytes at a time.
fn run_end(bytes: &[u8], start: usize) -> usize
    requires { start ≤ length bytes.now }
    ensures { result ≡ start + prefix_len is_unescaped (drop start bytes.now) }
{
    let mut at = start;
    while bytes.len() - at >= 16 {
        let found = specials(u8x16::from_slice(&bytes[at..]));
        if found != 0 {
            return at + found.trailing_zeros() as usize;
        }
        at += 16;
    }
    last_run_end(bytes, at)
}

/// Appends the leading unescaped bytes to `content`, and returns their number.
///
/// Appends whole blocks of 16 bytes, then truncates the bytes after the run. A copy of a size
/// unknown at compile time would be a call that branches on the size.
fn append_run(content: &mut Vec<u8>, bytes: &[u8]) -> Result<usize, AllocError>
    ensures count { IfOk result (λ n. n ≡ prefix_len is_unescaped bytes.now) }
    ensures run { IfOk result (λ n. content.new.items ≡ content.old.items ++ take n bytes.now) }
{
    let mut at = 0;
    while bytes.len() - at >= 16 {
        let row = u8x16::from_slice(&bytes[at..]);
        content.extend_from_slice(&row.to_array())?;
        let found = specials(row);
        if found != 0 {
            let count = found.trailing_zeros() as usize;
            content.truncate(content.len() - (16 - count));
            return Ok(at + count);
        }
        at += 16;
    }
    let end = last_run_end(bytes, at);
    content.extend_from_slice(&bytes[at..end])?;
    Ok(end)
}

/// Appends the longest leading run of unescaped bytes to `content`, and returns the text after the
/// run.
///
/// If an allocation fails, `content` is empty.
pub(crate) fn push_run<'a>(content: &mut String, text: &'a str) -> Result<&'a str, AllocError>
    ensures { IfOk result (λ rest. (run : List ℕ) × (text.now ≡ run ++ rest.now)
        × AllByRecursion (λ byte. IsTrue (is_unescaped byte)) run × Past is_unescaped rest.now
        × (string_bytes content.new ≡ string_bytes content.old ++ run)) }
{
    let empty = String::new(*content.allocator());
    let mut bytes = mem::replace(content, empty).into_bytes();
    let count = append_run(&mut bytes, text.as_bytes())?;
    let (_, rest) = text.split_at(count);
    *content = unsafe { String::from_utf8_unchecked(bytes) };
    Ok(rest)
}

/// Returns the longest run of unescaped bytes from `start` on, and the text after the run.
///
/// Takes the whole text, so that the last few bytes can be tested together with the bytes before
/// them.
pub(crate) fn split_run(text: &str, start: usize) -> (&str, &str)
    requires { IsCharBoundary text.now start }
    ensures whole { drop start text.now ≡ result.0.now ++ result.1.now }
    ensures run { AllByRecursion (λ byte. IsTrue (is_unescaped byte)) result.0.now }
    ensures stops { Past is_unescaped result.1.now }
{
    let end = run_end(text.as_bytes(), start);
    (&text[start..end], &text[end..])
}

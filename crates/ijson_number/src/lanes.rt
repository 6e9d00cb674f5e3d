//! Digits in 16-byte vectors: counts leading digits, converts between digits and integers, and
//! appends digits.
ghost use Rattle.std.specs.Prelude.{◌≡◌, ◌+◌, ◌-◌, ◌/◌, ◌%◌, ◌^◌, ◌<◌, ◌≤◌, [], ◌∷◌, ◌++◌, drop, length, replicate, take, OnErr, OnOk};
ghost use Rattle.std.specs.Int.Digits.{AllBelowBase, number_from_digits};
ghost use Rattle.std.specs.Str.{IsAscii};
ghost use Rattle.std.specs.String.{string_bytes};
ghost use Rattle.ijson_number.specs.Grammar.{AllDigits, value};
ghost use Rattle.ijson_number.specs.Text.{minus_text, zeros_text};
ghost use Rattle.ijson_number.specs.private.PrefixDigits.{IsCount};
ghost use Rattle.ijson_number.specs.private.WordText.{integer_text, last_digits};
ghost use Rattle.ijson_number.specs.private.ZerosInFront.{IsZerosInFront};

use std::alloc::AllocError;
use std::simd::prelude::*;
use std::str;

/// The number of bytes in a vector.
pub const LANES: usize = 16;

/// A table of shuffle indices. `BACK[n..n + 16]` moves the first `n` lanes to the end, and fills
/// the front with zeros.
static BACK: [u8; 2 * LANES] = [
    128, 128, 128, 128, 128, 128, 128, 128, 128, 128, 128, 128, 128, 128, 128, 128, 0, 1, 2, 3, 4,
    5, 6, 7, 8, 9, 10, 11, 12, 13, 14, 15,
];

/// The weights that combine two values of two digits into one value of four digits.
///
/// Each value is in the lower byte of a 16-bit lane. The upper byte has weight 0.
const PAIRS: [u8; LANES] = [100, 0, 1, 0, 100, 0, 1, 0, 100, 0, 1, 0, 100, 0, 1, 0];

/// The powers of ten, indexed by their exponent.
static POWERS: [u64; LANES + 1] = [
    1,
    10,
    100,
    1_000,
    10_000,
    100_000,
    1_000_000,
    10_000_000,
    100_000_000,
    1_000_000_000,
    10_000_000_000,
    100_000_000_000,
    1_000_000_000_000,
    10_000_000_000_000,
    100_000_000_000_000,
    1_000_000_000_000_000,
    10_000_000_000_000_000,
];

/// Returns `10 ^ count`.
#[inline(always)]
pub fn power_of_ten(count: usize) -> u64
    requires { count ≤ 16 }
    ensures { result ≡ 10 ^ count }
{
    POWERS[count]
}

/// Returns the number of leading digits.
#[inline(always)]
pub fn digit_count(bytes: u8x16) -> usize
    requires { length bytes ≡ 16 }
    ensures { IsCount bytes result }
{
    let others = (bytes.simd_lt(u8x16::splat(b'0'))
        | bytes.simd_gt(u8x16::splat(b'9'))).to_bitmask();
    if others == 0 {
        return LANES;
    }
    others.trailing_zeros() as usize
}

/// Returns the value of 16 digits.
#[inline(always)]
fn number_of_lanes(digits: u8x16) -> u64
    requires all { length digits ≡ 16 }
    requires digits { AllBelowBase 10 digits }
    ensures { result ≡ number_from_digits 10 digits }
{
    let twos = u16x8::from_le_bytes(digits);
    // The lower byte of each 16-bit lane is the value of two digits.
    let pairs = (twos * u16x8::splat(10) + (twos >> 8)).to_le_bytes();
    let [a, b, c, d] = pairs.dot4(u8x16::from_array(PAIRS)).to_array();
    let front = u64::from(a) * 10_000 + u64::from(b);
    let back = u64::from(c) * 10_000 + u64::from(d);
    front * 100_000_000 + back
}

/// Returns the value of the first `count` bytes, all of them digits.
#[inline(always)]
pub fn number_of(bytes: u8x16, count: usize) -> u64
    requires all { length bytes ≡ 16 }
    requires few { count ≤ 16 }
    requires digits { AllDigits (take count bytes) }
    ensures { result ≡ value (take count bytes) }
{
    let digits = bytes - u8x16::splat(b'0');
    // Moves the digits to the end, after zeros, which do not change the value.
    number_of_lanes(digits.swizzle_dyn(u8x16::from_slice(&BACK[count..])))
}

/// One past the largest integer of 16 digits.
pub const LANES_END: u64 = 10_000_000_000_000_000;

/// One past the largest integer of 15 digits. A 16-digit vector of a smaller integer has a leading
/// zero.
pub const SHORT_END: u64 = LANES_END / 10;

/// The size of a minus sign, two vectors and the point between them.
const ROOM: usize = 2 * LANES + 2;

/// A table of shuffle indices. `FRONT[n..n + 16]` moves the lanes `n..16` to the front, and fills
/// the rest with zeros.
static FRONT: [u8; 2 * LANES] = [
    0, 1, 2, 3, 4, 5, 6, 7, 8, 9, 10, 11, 12, 13, 14, 15, 128, 128, 128, 128, 128, 128, 128, 128,
    128, 128, 128, 128, 128, 128, 128, 128,
];

/// The text before the first nonzero digit of a number between -1 and 1: `-0.` and zeros.
const LEADING: [u8; LANES] = *b"-0.0000000000000";

/// Splits a number of up to 16 digits into eight pairs of digits, one per lane.
#[inline(always)]
fn pairs_of(number: u64) -> u16x8
    requires { number < 10 ^ 16 }
    ensures { result ≡ number / 10 ^ 14 ∷ number / 10 ^ 12 % 100 ∷ number / 10 ^ 10 % 100 ∷ number / 10 ^ 8 % 100
        ∷ number / 10 ^ 6 % 100 ∷ number / 10 ^ 4 % 100 ∷ number / 10 ^ 2 % 100 ∷ number % 100 ∷ [] }
{
    // Most numbers are small, and divisions that depend on each other are slow.
    if number < 10_000 {
        let small = number as u16;
        return u16x8::from_array([0, 0, 0, 0, 0, 0, small / 100, small % 100]);
    }
    let (high, low) = (number / 100_000_000, number % 100_000_000);
    let fours = u16x8::from_array([
        (high / 10_000) as u16,
        (high % 10_000) as u16,
        (low / 10_000) as u16,
        (low % 10_000) as u16,
        0,
        0,
        0,
        0,
    ]);
    let hundreds = fours / u16x8::splat(100);
    let units = fours - hundreds * u16x8::splat(100);
    hundreds.shuffle(units, [0, 8, 1, 9, 2, 10, 3, 11])
}

/// Returns the 16 digits of `number` in ASCII, with leading zeros.
#[inline(always)]
pub fn lanes_of(number: u64) -> u8x16
    requires { number < 10 ^ 16 }
    ensures { result ≡ last_digits 16 number }
{
    let pairs = pairs_of(number);
    let tens = pairs / u16x8::splat(10);
    // The tens digits are in the lower byte of each 16-bit lane, and the units digits in the upper
    // byte.
    let digits = ((pairs << 8) - tens * u16x8::splat(2559)).to_le_bytes();
    digits + u8x16::splat(b'0')
}

/// Returns the number of leading `0` digits, at most 15.
#[inline(always)]
pub fn zeros_in_front(lanes: u8x16) -> usize
    requires { length lanes ≡ 16 }
    ensures { IsZerosInFront lanes result }
{
    let others = lanes.simd_ne(u8x16::splat(b'0')).to_bitmask();
    (others.trailing_zeros() as usize).min(LANES - 1)
}

/// Removes the first `start` lanes, and appends `start` zero bytes.
#[inline(always)]
fn front_of(lanes: u8x16, start: usize) -> u8x16
    requires all { length lanes ≡ 16 }
    requires within { start ≤ 16 }
    ensures { result ≡ drop start lanes ++ replicate start 0 }
{
    lanes.swizzle_dyn(u8x16::from_slice(&FRONT[start..]))
}

/// Appends the first `count` bytes of `bytes` to `out`.
#[inline(always)]
fn push_front(bytes: &[u8], count: usize, out: &mut String) -> Result<(), AllocError>
    requires ascii { IsAscii bytes.now }
    requires within { count ≤ length bytes.now }
    ensures written { OnOk result (string_bytes out.new ≡ string_bytes out.old ++ take count bytes.now) }
    ensures refused { OnErr result (string_bytes out.new ≡ string_bytes out.old) }
{
    let end = out.len() + count;
    // Copies all bytes and truncates the string, because a copy of constant size is faster.
    out.push_str(unsafe { str::from_utf8_unchecked(bytes) })?;
    out.truncate(end);
    Ok(())
}

/// Appends `count` lanes to `out`, from `start` on.
#[inline(always)]
pub fn push_lanes(
    lanes: u8x16,
    start: usize,
    count: usize,
    out: &mut String,
) -> Result<(), AllocError>
    requires all { length lanes ≡ 16 }
    requires ascii { IsAscii (drop start lanes) }
    requires within { start + count ≤ 16 }
    ensures written { OnOk result (string_bytes out.new ≡ string_bytes out.old ++ take count (drop start lanes)) }
    ensures refused { OnErr result (string_bytes out.new ≡ string_bytes out.old) }
{
    push_front(&front_of(lanes, start).to_array(), count, out)
}

/// Appends the minus sign if `negative`, then `0.` and `zeros` zeros.
#[inline(always)]
pub fn push_leading_zeros(negative: bool, zeros: usize, out: &mut String) -> Result<(), AllocError>
    requires { zeros ≤ 13 }
    ensures written { OnOk result (string_bytes out.new
        ≡ string_bytes out.old ++ (minus_text negative ++ 48 ∷ 46 ∷ zeros_text zeros)) }
    ensures refused { OnErr result (string_bytes out.new ≡ string_bytes out.old) }
{
    let minus = usize::from(negative);
    push_lanes(
        u8x16::from_array(LEADING),
        1 - minus,
        minus + 2 + zeros,
        out,
    )
}

/// Appends an integer of at most 15 digits with its sign.
///
/// A subtraction turns the zero before the digits into the minus sign, because the branch predictor
/// cannot predict a branch on the sign.
#[inline(always)]
pub fn push_short(negative: bool, number: u64, out: &mut String) -> Result<(), AllocError>
    requires { number < 10 ^ 15 }
    ensures written { OnOk result (string_bytes out.new ≡ string_bytes out.old ++ integer_text negative number) }
    ensures refused { OnErr result (string_bytes out.new ≡ string_bytes out.old) }
{
    let lanes = lanes_of(number);
    let start = zeros_in_front(lanes) - usize::from(negative);
    let minus = (b'0' - b'-') * u8::from(negative);
    let difference = u8x16::from_array([minus, 0, 0, 0, 0, 0, 0, 0, 0, 0, 0, 0, 0, 0, 0, 0]);
    push_lanes(front_of(lanes, start) - difference, 0, LANES - start, out)
}

/// Appends the sign, the whole part, the point and the fraction of a number.
///
/// The whole part is `count` lanes of `whole` from `start` on. The fraction is the last `scale`
/// lanes of `fraction`. All parts are appended in one call, because each append tests for spare
/// capacity.
#[inline(always)]
pub fn push_rows(
    negative: bool,
    whole: u8x16,
    start: usize,
    count: usize,
    fraction: u8x16,
    scale: usize,
    out: &mut String,
) -> Result<(), AllocError>
    requires whole { (length whole ≡ 16) × IsAscii (drop start whole) }
    requires within { start + count ≤ 16 }
    requires fraction { (length fraction ≡ 16) × IsAscii (drop (16 - scale) fraction) }
    requires places { scale ≤ 16 }
    ensures written { OnOk result (string_bytes out.new ≡ string_bytes out.old
        ++ (minus_text negative ++ (take count (drop start whole) ++ 46 ∷ drop (16 - scale) fraction))) }
    ensures refused { OnErr result (string_bytes out.new ≡ string_bytes out.old) }
{
    let mut room = [0; ROOM];
    room[0] = b'-';
    let first = usize::from(negative);
    room[first..first + LANES].copy_from_slice(&front_of(whole, start).to_array());
    let point = first + count;
    room[point] = b'.';
    let behind = point + 1;
    room[behind..behind + LANES].copy_from_slice(&front_of(fraction, LANES - scale).to_array());
    push_front(&room, behind + scale, out)
}

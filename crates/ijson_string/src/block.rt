//! `Block`: a string of up to `N` bytes with its length.
ghost use Rattle.std.specs.Prelude.{◌≡◌, ◌+◌, ◌-◌, ◌≤◌, ◌<◌, length, take, drop, replicate, IsUtf8};

use std::marker::Model;
use std::str;

/// A UTF-8 string of up to `N` bytes, padded with zeros.
///
/// A block is aligned to 8 bytes, so that an `IString` is moved by whole words. The length comes
/// first, so that its offset does not depend on `N` and reading it needs no branch on the size.
#[derive(Drop)]
pub(crate) struct Block<const N: usize> {
    aligned: [u64; 0],
    len: u8,
    bytes: [u8; N],
}

impl<const N: usize> Model for Block<N> {
    ghost use Rattle.std.specs.Prelude.{ℕ, List, take};
    ghost use Rattle.ijson_string.specs.private.IsText.{IsText};

    ghost Value = { List ℕ };

    ghost view = { λ b. take b.len b.bytes };

    ghost invariant = { λ b. IsText b.bytes b.len };
}

impl<const N: usize> Block<N> {
    /// Creates a block from the first `first` and the last `last` bytes of `text`, which may
    /// overlap.
    ///
    /// Callers pass constants as both sizes, so that each copy is a few moves instead of a call.
    #[inline(always)]
    pub(crate) fn of_ends(text: &str, first: usize, last: usize) -> Block<N>
        requires first { first ≤ length text.now }
        requires last { last ≤ length text.now }
        requires whole { length text.now ≤ first + last }
        requires fits { length text.now ≤ N }
        requires small { N < 256 }
        ensures { result ≡ text.now }
    {
        let source = text.as_bytes();
        let mut bytes = [0; N];
        put_piece(&mut bytes, source, 0, first);
        put_piece(&mut bytes, source, source.len() - last, last);
        Block {
            aligned: [],
            len: text.len() as u8,
            bytes,
        }
    }

    /// Copies the block. A type with a model cannot implement `Copy`.
    pub(crate) fn copy(&self) -> Block<N>
        ensures { result ≡ self.now }
    {
        Block {
            aligned: [],
            len: self.len,
            bytes: self.bytes,
        }
    }

    /// Returns the string.
    pub(crate) fn as_str(&self) -> &str
        ensures { result.now ≡ self.now }
    {
        unsafe { str::from_utf8_unchecked(&self.bytes[..usize::from(self.len)]) }
    }
}

impl Block<7> {
    /// Creates a block of up to 7 bytes.
    #[inline(always)]
    pub(crate) fn inline(text: &str) -> Block<7>
        requires { length text.now ≤ 7 }
        ensures { result ≡ text.now }
    {
        match text.len() {
            4.. => Block::of_ends(text, 4, 4),
            2..=3 => Block::of_ends(text, 2, 2),
            1 => Block::of_ends(text, 1, 1),
            0 => Block::of_ends(text, 0, 0),
        }
    }

    /// Returns the length, and the string padded with NULs to 7 bytes.
    #[inline(always)]
    pub(crate) fn padded(&self) -> (u8, &str)
        ensures text { take result.0 result.1.now ≡ self.now }
        ensures utf8 { IsUtf8 (take result.0 result.1.now) }
        ensures size { (result.0 ≤ 7) × (length result.1.now ≡ 7) }
        ensures zeros { drop result.0 result.1.now ≡ replicate (7 - result.0) 0 }
    {
        (self.len, unsafe { str::from_utf8_unchecked(&self.bytes) })
    }
}

impl Block<23> {
    /// Creates a block from `text`, copied as three words of 8 bytes, which may overlap.
    #[inline(always)]
    pub(crate) fn of_words(text: &str) -> Block<23>
        requires long { 8 ≤ length text.now }
        requires fits { length text.now ≤ 23 }
        ensures { result ≡ text.now }
    {
        let source = text.as_bytes();
        let last = source.len() - 8;
        let mut bytes = [0; 23];
        put_piece(&mut bytes, source, 0, 8);
        put_piece(&mut bytes, source, last.min(8), 8);
        put_piece(&mut bytes, source, last, 8);
        Block {
            aligned: [],
            len: text.len() as u8,
            bytes,
        }
    }
}

/// Copies `text[start..start + size]` to the same range of `bytes`.
///
/// Requires that `bytes` begins with `text[..start]`.
#[inline(always)]
fn put_piece(bytes: &mut [u8], text: &[u8], start: usize, size: usize)
    requires inside { start + size ≤ length text.now }
    requires room { length text.now ≤ length bytes.old }
    requires begun { take start bytes.old ≡ take start text.now }
    ensures put { take (start + size) bytes.new ≡ take (start + size) text.now }
    ensures rest { drop (length text.now) bytes.new ≡ drop (length text.now) bytes.old }
    ensures same { length bytes.new ≡ length bytes.old }
{
    bytes[start..start + size].copy_from_slice(&text[start..start + size]);
}
